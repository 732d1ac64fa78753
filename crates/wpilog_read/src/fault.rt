//! What is wrong with a log.

ghost use Rattle.std.specs.Prelude.{◌≡◌};
ghost use Rattle.wpilog_read.specs.declared.fault.ReadError.TheVariants.{Memory};

use std::alloc::AllocError;
use std::fmt;
use thiserror::Error;

/// A kind of fault.
#[derive(Clone, Copy, Debug, PartialEq, Eq)]
pub enum LogKind {
    /// The log does not begin as one does.
    BadMagic,
    /// The major version is not 1.
    BadVersion,
    /// The extra header or a payload is past its limit.
    TooLarge,
    /// The spare bit of a record's first byte is set.
    SpareBit,
    /// A record of an entry that is not live.
    NotLive,
    /// The payload of a control record ends before its fields do.
    ControlShort,
    /// A control record of no known kind.
    UnknownControl,
    /// Bytes follow the fields of a control record.
    ControlLong,
    /// A name, a type string or metadata is not UTF-8.
    BadText,
    /// A Start of the id 0.
    IdZero,
    /// A Start of a live id.
    StartTwice,
    /// A Start where as many entries as may be are live.
    TooManyLive,
    /// A value that is not of its entry's type.
    Misfit,
    /// Bytes or the header are wanting.
    Truncated,
}

impl fmt::Display for LogKind {
    ghost use Rattle.std.specs.Prelude.{Some};
    ghost use Rattle.wpilog_read.specs.Names.{kind_name};

    ghost output = { λ kind. Some (kind_name kind) };

    fn fmt<W: fmt::Write>(&self, f: &mut fmt::Formatter<W>) -> fmt::Result {
        match self {
            LogKind::BadMagic => write!(f, "BadMagic"),
            LogKind::BadVersion => write!(f, "BadVersion"),
            LogKind::TooLarge => write!(f, "TooLarge"),
            LogKind::SpareBit => write!(f, "SpareBit"),
            LogKind::NotLive => write!(f, "NotLive"),
            LogKind::ControlShort => write!(f, "ControlShort"),
            LogKind::UnknownControl => write!(f, "UnknownControl"),
            LogKind::ControlLong => write!(f, "ControlLong"),
            LogKind::BadText => write!(f, "BadText"),
            LogKind::IdZero => write!(f, "IdZero"),
            LogKind::StartTwice => write!(f, "StartTwice"),
            LogKind::TooManyLive => write!(f, "TooManyLive"),
            LogKind::Misfit => write!(f, "Misfit"),
            LogKind::Truncated => write!(f, "Truncated"),
        }
    }
}

/// A fault, and its offset in the log. It is that of the record's first byte; in the header it is 6
/// for `BadVersion`, 8 for `TooLarge`, and else 0.
#[derive(Clone, Copy, Debug, PartialEq, Eq, Error)]
#[error("{kind} at {at}")]
pub struct LogFault {
    pub at: u64,
    pub kind: LogKind,
}

/// Why there is no next item.
#[derive(Clone, Copy, Debug, PartialEq, Eq, Error)]
pub enum NextFault {
    /// The log has this fault, and each later call answers it again.
    #[error("{0}")]
    Log(LogFault),
    /// Want of memory. The reader goes on where it stood.
    #[error("out of memory")]
    Memory,
}

/// Where no unit can be read from the bytes that have come.
#[derive(Clone, Copy)]
pub enum Stop {
    /// The unit is not whole, and no fault is known.
    Wanting,
    /// The unit has a fault of this kind.
    Known(LogKind),
}

/// Why a step of reading gave no value.
#[derive(Clone, Copy)]
pub enum ReadError {
    /// Want of memory.
    Memory,
    /// The bytes give none.
    Stop(Stop),
}

impl From<AllocError> for ReadError {
    ghost from_gives = { λ _ e. e ≡ Memory };

    fn from(_error: AllocError) -> ReadError {
        ReadError::Memory
    }
}
