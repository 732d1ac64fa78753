//! The tools that read a log: `check`, which tells whether it is whole, and `show`, which prints its
//! items.

ghost use Rattle.std.specs.Prelude.{◌≡◌, ◌≤◌, ◌++◌, List, ℕ, Some, IfOk, IfErr, IsErrOf, string_bytes};
ghost use Rattle.std.specs.Io.KnownBytes.{Keeps};
ghost use Rattle.nt_link.specs.Causes.{Rose, IsLater};
ghost use Rattle.nt_tools.specs.Reply.{Reply};
ghost use Rattle.nt_log_tools.specs.LogTools.{IsReply, EndsLog, last_line, end_status};
ghost use Rattle.nt_log_tools.specs.LogRun.{ReadsLog, StopsReading};
ghost use Rattle.nt_tools.specs.Printing.{Follows, GivesReply, number_of};

use crate::command::LogTool;
use crate::input::feed_piece;
use crate::log_end::{LogEnd, end_by};
use crate::log_items::{Found, take_items};
use nt_link::{Sink, Source};
use nt_tools::{MOST_BYTES, PIECE, Status, TOO_LONG, ToolFault, tell};
use std::alloc::Global;
use wpilog_read::{LogFault, LogReader, reading_is_meaning};

/// The end of a log: its last lines, which are not printed yet, how many items and bytes it has, and
/// how it ends.
#[derive(Drop)]
struct LastLines {
    lines: String,
    items: u64,
    bytes: usize,
    end: LogEnd,
}

/// Reads the log that the source has left, and runs the tool over it. Of the log at most one record
/// is kept that is not whole.
pub fn run_log_tool<R: Source, O: Sink>(
    alloc: Global,
    tool: LogTool,
    source: &mut R,
    out: &mut O,
) -> Result<Status, ToolFault>
    ensures ends { EndsLog tool (R.left source.old) (R.left source.new)
        (O.taken out.old) (O.taken out.new) result }
    ensures exact { (bytes : List ℕ) (reply : Reply) → R.left source.old ≡ Some bytes
        → IsReply tool bytes reply → Follows reply (O.taken out.old) (O.taken out.new) result }
    ensures low { IfOk result (λ status. number_of status ≤ 1) }
    ensures read { IsErrOf result ToolFault.Read → Rose (R.faults source.old) (R.faults source.new) }
    ensures write { IsErrOf result ToolFault.Write → Rose (O.faults out.old) (O.faults out.new) }
    ensures source { IsLater R.faults R.aside source.old source.new }
    ensures out { IsLater O.faults O.aside out.old out.new }
{
    // For its contract: the bytes have one meaning, and so one reply.
    reading_is_meaning();
    let last = read_log(alloc, tool, source, out)?;
    end_log(tool, last, out)
}

/// Reads the log to its end, its first fault, or the most bytes that a tool reads, and prints what
/// the tool prints of its items, but for the last lines.
fn read_log<R: Source, O: Sink>(
    alloc: Global,
    tool: LogTool,
    source: &mut R,
    out: &mut O,
) -> Result<LastLines, ToolFault>
    ensures reads { IfOk result (λ last. ReadsLog tool (R.left source.old) (R.left source.new) last.end
        last.items last.bytes (string_bytes last.lines) (O.taken out.old) (O.taken out.new)) }
    ensures stopped { IfErr result (λ e. StopsReading tool (R.left source.old) (R.left source.new) e
        (O.taken out.old) (O.taken out.new)) }
    ensures read { IsErrOf result ToolFault.Read → Rose (R.faults source.old) (R.faults source.new) }
    ensures write { IsErrOf result ToolFault.Write → Rose (O.faults out.old) (O.faults out.new) }
    ensures source { IsLater R.faults R.aside source.old source.new }
    ensures out { IsLater O.faults O.aside out.old out.new }
{
    let mut reader = LogReader::new(alloc);
    let mut found = Found {
        count: 0,
        lines: String::new(alloc),
    };
    let mut room = MOST_BYTES;
    let mut piece = [0; PIECE];
    loop {
        let came = feed_piece(source, &mut piece, &mut reader, &mut room)?;
        take_items(alloc, tool, &mut reader, &mut found, out)?;
        if let Some(end) = end_by(came, reader.finish().err()) {
            return Ok(LastLines {
                lines: found.lines,
                items: found.count,
                bytes: MOST_BYTES - room,
                end,
            });
        }
    }
}

/// Prints the last lines of a log, and after them the line on its end if there is one, and answers
/// the log's status.
fn end_log<O: Sink>(tool: LogTool, last: LastLines, out: &mut O) -> Result<Status, ToolFault>
    ensures gives { GivesReply (record {
      status = end_status last.end;
      text = string_bytes last.lines ++ last_line tool last.end last.items last.bytes;
    }) (O.taken out.old) (O.taken out.new) result }
    ensures low { IfOk result (λ status. number_of status ≤ 1) }
    ensures memory { IsErrOf result ToolFault.Memory → Keeps (O.taken out.old) (O.taken out.new) }
    ensures failed { IsErrOf result ToolFault.Write → Rose (O.faults out.old) (O.faults out.new) }
    ensures out { IsLater O.faults O.aside out.old out.new }
{
    let LastLines {
        mut lines,
        items,
        bytes,
        end,
    } = last;
    match end {
        LogEnd::Whole => match tool {
            LogTool::Check => {
                writeln!(lines, "items {items} bytes {bytes}")?;
                tell(out, Status::Done, lines.as_str())
            }
            LogTool::Show => tell(out, Status::Done, lines.as_str()),
        },
        LogEnd::Fault(LogFault { at, kind }) => {
            writeln!(lines, "fault {kind} at {at}")?;
            tell(out, Status::Fault, lines.as_str())
        }
        LogEnd::TooLong => {
            lines.push_str(TOO_LONG)?;
            tell(out, Status::Fault, lines.as_str())
        }
    }
}
