//! Why nothing was written, or not all.

ghost use Rattle.std.specs.Prelude.{◌≡◌};
ghost use Rattle.wpilog_write.specs.declared.refused.WriteRefused.TheVariants.{Memory};

use std::alloc::AllocError;
use thiserror::Error;

/// Why the writer did not write an item, or not all of it.
#[derive(Clone, Copy, Debug, PartialEq, Eq, Error)]
pub enum WriteRefused {
    /// A Start of the id 0, which is that of control records.
    #[error("a start of the id 0")]
    IdZero,
    /// All but a Start of an id that is not live.
    #[error("the id is not live")]
    NotLive,
    /// A Start of a live id.
    #[error("the id is live")]
    Live,
    /// A Start where as many entries as may be are live.
    #[error("too many entries are live")]
    TooManyLive,
    /// A value that is not of its entry's type.
    #[error("the value is not of the entry's type")]
    Misfit,
    /// A payload, or an extra header, past its limit.
    #[error("too large")]
    TooLarge,
    /// The sink failed, or took nothing. It took a prefix of what the call writes.
    #[error("the sink failed")]
    WriteFault,
    /// The sink failed in an earlier call.
    #[error("the sink failed before")]
    Failed,
    /// Want of memory.
    #[error("out of memory")]
    Memory,
}

impl From<AllocError> for WriteRefused {
    ghost from_gives = { λ _ e. e ≡ Memory };

    fn from(_error: AllocError) -> WriteRefused {
        WriteRefused::Memory
    }
}
