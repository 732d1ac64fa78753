//! Value frames: the messages by which values travel, read from bytes and written to them.
#![tactic(auto)]

mod element;
mod error;
mod laws;
mod message;
mod read;
mod write;

pub use laws::{frames_have_a_meaning, frames_have_one_meaning};
pub use message::{FrameFault, FrameKind, FrameRead, ValueMsg};
pub use read::read_frame;
pub use write::{put_message, write_frame};
