//! How a log ends for a tool that reads it.

ghost use Rattle.std.specs.Prelude.{◌≡◌};
ghost use Rattle.nt_log_tools.specs.LogTools.{is_known as is_known_kind, end_known as known_by};
ghost use Rattle.nt_log_tools.specs.LogRun.{end_by as ends_by};

use crate::input::Came;
use wpilog_read::{LogFault, LogKind};

/// How a log ends.
#[derive(Clone, Copy)]
pub enum LogEnd {
    /// It is whole.
    Whole,
    /// It has this fault.
    Fault(LogFault),
    /// It has no fault, and more bytes than a tool reads.
    TooLong,
}

/// How a log ends, where that is known, by what came of the source and the fault of what was read.
pub fn end_by(came: Came, fault: Option<LogFault>) -> Option<LogEnd>
    ensures { result ≡ ends_by came fault }
{
    match came {
        Came::Bytes => end_known(fault),
        Came::Beyond => Some(end_known(fault).unwrap_or(LogEnd::TooLong)),
        Came::End => match fault {
            None => Some(LogEnd::Whole),
            Some(fault) => Some(LogEnd::Fault(fault)),
        },
    }
}

/// The end of a log of which more may follow: its fault, if that stays.
fn end_known(fault: Option<LogFault>) -> Option<LogEnd>
    ensures { result ≡ known_by fault }
{
    match fault {
        Some(fault) if is_known(fault.kind) => Some(LogEnd::Fault(fault)),
        _ => None,
    }
}

/// Whether a fault of this kind stays one whatever bytes follow.
fn is_known(kind: LogKind) -> bool
    ensures { result ≡ is_known_kind kind }
{
    match kind {
        LogKind::Truncated => false,
        _ => true,
    }
}
