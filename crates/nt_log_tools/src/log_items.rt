//! The items of a log, as a tool takes them from the reader.

ghost use Rattle.std.specs.Prelude.{◌≡◌, ◌<◌, ◌≤◌, ◌++◌, List, ℕ, Option, IfOk, IfErr, IsErrOf, OnOk, OnErr, length, string_bytes};
ghost use Rattle.wpilog_read.specs.Run.{IsEnded};
ghost use Rattle.nt_link.specs.Causes.{Rose, IsLater};
ghost use Rattle.nt_tools.specs.Printing.{HasPrinted, HasStopped};
ghost use Rattle.nt_log_tools.specs.LogRun.{line_of, HasFound, StopsAt};

use crate::command::LogTool;
use crate::item_line::append_line;
use nt_link::Sink;
use nt_tools::{ToolFault, print};
use std::alloc::Global;
use wpilog_read::{ItemAt, LogReader, NextFault};

/// From how many bytes on the lines that are held are written.
const BUFFER: usize = 1 << 16;

/// The items so far: how many, and their last lines, which are not printed yet.
#[derive(Drop)]
pub struct Found {
    pub count: u64,
    pub lines: String,
}

/// Takes the items that are whole now.
pub fn take_items<O: Sink>(
    alloc: Global,
    tool: LogTool,
    reader: &mut LogReader,
    found: &mut Found,
    out: &mut O,
) -> Result<(), ToolFault>
    requires { found.old.count ≤ reader.old.at }
    ensures found { OnOk result ((bytes : List ℕ) (before : Option (List ℕ))
        → HasFound tool bytes reader.old found.old.count (string_bytes found.old.lines) before
        (O.taken out.old)
        → HasFound tool bytes reader.new found.new.count (string_bytes found.new.lines) before
        (O.taken out.new)) }
    ensures within { OnOk result (found.new.count ≤ reader.new.at) }
    ensures ended { OnOk result (IsEnded reader.new) }
    ensures stopped { IfErr result (λ e. (bytes : List ℕ) (before : Option (List ℕ))
        → HasFound tool bytes reader.old found.old.count (string_bytes found.old.lines) before
        (O.taken out.old)
        → StopsAt tool bytes e before (O.taken out.new)) }
    ensures no_read { IsErrOf result ToolFault.Read → ⊥ }
    ensures failed { IsErrOf result ToolFault.Write → Rose (O.faults out.old) (O.faults out.new) }
    ensures out { IsLater O.faults O.aside out.old out.new }
{
    loop {
        match reader.next(alloc) {
            Ok(Some(item)) => {
                print_item(tool, &mut found.lines, &item, out)?;
                found.count += 1;
            }
            Ok(None) | Err(NextFault::Log(_)) => return Ok(()),
            Err(NextFault::Memory) => return Err(ToolFault::Memory),
        }
    }
}

/// Adds what the tool prints of an item to the last lines, and prints them where they are many.
fn print_item<O: Sink>(
    tool: LogTool,
    lines: &mut String,
    item: &ItemAt,
    out: &mut O,
) -> Result<(), ToolFault>
    ensures ok { OnOk result (HasPrinted (string_bytes lines.old ++ line_of tool item.now)
        (string_bytes lines.new) (O.taken out.old) (O.taken out.new)) }
    ensures stopped { IfErr result (λ e. HasStopped (string_bytes lines.old ++ line_of tool item.now)
        e (O.taken out.old) (O.taken out.new)) }
    ensures no_read { IsErrOf result ToolFault.Read → ⊥ }
    ensures failed { IsErrOf result ToolFault.Write → Rose (O.faults out.old) (O.faults out.new) }
    ensures out { IsLater O.faults O.aside out.old out.new }
{
    match tool {
        LogTool::Check => Ok(()),
        LogTool::Show => {
            append_line(lines, item)?;
            print_full(lines, out)
        }
    }
}

/// Prints the lines and clears them, where they fill the buffer.
fn print_full<O: Sink>(lines: &mut String, out: &mut O) -> Result<(), ToolFault>
    ensures ok { OnOk result (HasPrinted (string_bytes lines.old) (string_bytes lines.new)
        (O.taken out.old) (O.taken out.new)) }
    ensures stopped { IfErr result (λ e. HasStopped (string_bytes lines.old) e
        (O.taken out.old) (O.taken out.new)) }
    ensures only { IfErr result (λ fault. fault ≡ ToolFault.Write) }
    ensures failed { OnErr result (Rose (O.faults out.old) (O.faults out.new)) }
    ensures out { IsLater O.faults O.aside out.old out.new }
{
    if lines.len() < BUFFER {
        return Ok(());
    }
    print(out, lines.as_str())?;
    lines.clear();
    Ok(())
}
