//! Why a step of reading gave nothing.

ghost use Rattle.std.specs.Prelude.{◌≡◌};
ghost use Rattle.nt_frames.specs.declared.error.ReadError.TheVariants.{Memory};

use crate::message::FrameKind;
use std::alloc::AllocError;

/// Why a step of reading gave nothing.
#[derive(Clone, Copy)]
pub enum ReadError {
    /// Want of memory.
    Memory,
    /// The bytes give nothing here.
    Fault(FrameKind),
}

impl From<AllocError> for ReadError {
    ghost from_gives = { λ _ e. e ≡ Memory };

    fn from(_error: AllocError) -> ReadError {
        ReadError::Memory
    }
}
