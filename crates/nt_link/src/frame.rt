//! Frames of a WebSocket.

ghost use Rattle.std.specs.Prelude.{◌≡◌, IfOk};

use nt_values::{Bytes, Text};
use std::alloc::{AllocError, Global};

/// A whole message of a WebSocket (RFC 6455, "Data Frames").
#[derive(Drop)]
pub enum Frame {
    Text(Text),
    Binary(Bytes),
}

impl Frame {
    /// An equal frame.
    pub fn copy(&self, alloc: Global) -> Result<Frame, AllocError>
        ensures { IfOk result (λ frame. frame ≡ self.now) }
    {
        match self {
            Frame::Text(text) => Ok(Frame::Text(text.copy(alloc)?)),
            Frame::Binary(bytes) => Ok(Frame::Binary(bytes.copy(alloc)?)),
        }
    }
}
