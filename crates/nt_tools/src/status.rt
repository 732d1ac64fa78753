//! What a tool answers, and why one stops.

ghost use Rattle.std.specs.Prelude.{◌≡◌};
ghost use Rattle.nt_tools.specs.declared.status.ToolFault.TheVariants as faults;

use nt_link::Stopped;
use std::alloc::AllocError;

/// What a tool answers, by its number: 0 to 4.
#[derive(Clone, Copy)]
pub enum Status {
    /// It is done.
    Done,
    /// The log has a fault, a line is too long, or the source has more bytes than a tool reads.
    Fault,
    /// No tool has these words.
    Usage,
    /// Want of memory.
    Memory,
    /// A read or a write failed.
    Failed,
}

/// Why a tool stopped.
#[derive(Clone, Copy)]
pub enum ToolFault {
    /// Want of memory.
    Memory,
    /// A read failed.
    Read,
    /// A write failed.
    Write,
}

impl From<AllocError> for ToolFault {
    ghost from_gives = { λ _ e. e ≡ faults.Memory };

    fn from(_error: AllocError) -> ToolFault {
        ToolFault::Memory
    }
}

impl From<Stopped> for ToolFault {
    ghost from_gives = { λ _ e. e ≡ faults.Write };

    fn from(_error: Stopped) -> ToolFault {
        ToolFault::Write
    }
}
