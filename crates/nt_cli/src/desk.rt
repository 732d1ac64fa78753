//! The command `desk`: the server on one thread with one connection, a frame a line.

ghost use Rattle.std.specs.Prelude.{◌≡◌, ◌≤◌, ◌<◌, ◌+◌, ◌^◌, List, [], ℕ, Some, None, IfOk, IsErrOf};
ghost use Rattle.std.specs.Option.{ForSome};
ghost use Rattle.nt_link.specs.Causes.{Rose, IsLater};
ghost use Rattle.nt_rules.specs.declared.act.Entry.{Entry};
ghost use Rattle.nt_tools.specs.Input.{most_bytes};
ghost use Rattle.nt_tools.specs.Reply.{Reply};
ghost use Rattle.nt_tools.specs.Printing.{number_of, Prints, Follows};
ghost use Rattle.nt_cli.specs.Desk.{Decoding, IsDecoding, opened, last_text, RepliesAtDesk, EndsDesk};
ghost use Rattle.nt_cli.specs.DeskRun.{IsConnected, beginning, Ends, Turns};

use crate::desk_output::print_line_fault;
use crate::turn::{answer_line, open_server};
use nt_frames::frames_have_a_meaning;
use nt_link::{Sink, Source};
use nt_server::Server;
use nt_tools::{LineEnd, LineFault, LineReader, Status, TOO_LONG, ToolFault, print};
use std::alloc::{AllocError, Global};

/// The desk: answers what the source has left, line by line, and prints the frames that its
/// connection is handed after each, up to the end of the source, or to where a line has more bytes
/// than a line may have or the source more than a tool reads. A line is answered before more of the
/// source is read.
pub fn desk<R: Source, O: Sink>(
    alloc: Global,
    source: &mut R,
    out: &mut O,
) -> Result<Status, ToolFault>
    ensures ends { EndsDesk (R.left source.old) (R.left source.new)
        (O.taken out.old) (O.taken out.new) result }
    ensures exact { (bytes : List ℕ) (reply : Reply) → R.left source.old ≡ Some bytes
        → RepliesAtDesk bytes reply → Follows reply (O.taken out.old) (O.taken out.new) result }
    ensures low { IfOk result (λ status. number_of status ≤ 1) }
    ensures read { IsErrOf result ToolFault.Read → Rose (R.faults source.old) (R.faults source.new) }
    ensures write { IsErrOf result ToolFault.Write → Rose (O.faults out.old) (O.faults out.new) }
    ensures source { IsLater R.faults R.aside source.old source.new }
    ensures out { IsLater O.faults O.aside out.old out.new }
{
    frames_have_a_meaning();
    answer_all(alloc, source, out)
}

/// Turn by turn, until the desk ends.
fn answer_all<R: Source, O: Sink>(
    alloc: Global,
    source: &mut R,
    out: &mut O,
) -> Result<Status, ToolFault>
    ensures ends { (decode : Decoding) → IsDecoding decode
        → Ends (beginning decode) (R.left source.old) (R.left source.new)
        (O.taken out.old) (O.taken out.new) result }
    ensures low { IfOk result (λ status. number_of status ≤ 1) }
    ensures read { (decode : Decoding) → IsDecoding decode → IsErrOf result ToolFault.Read →
        Rose (R.faults source.old) (R.faults source.new) }
    ensures write { IsErrOf result ToolFault.Write → Rose (O.faults out.old) (O.faults out.new) }

    ensures source { IsLater R.faults R.aside source.old source.new }
    ensures out { IsLater O.faults O.aside out.old out.new }
{
    let mut desk = DeskState::open(alloc)?;
    loop {
        if let Some(status) = desk.turn(alloc, source, out)? {
            return Ok(status);
        }
    }
}

/// A server with one connection, the lines that it is told, and the number of the next one.
#[derive(Drop)]
struct DeskState {
    server: Server,
    lines: LineReader,
    line: Vec<u8>,
    number: u64,
}

impl DeskState {
    /// A desk at which nothing was read yet.
    fn open(alloc: Global) -> Result<DeskState, AllocError>
        ensures connected { IfOk result (λ desk. IsConnected desk.server opened) }
        ensures lines { IfOk result (λ desk.
            desk.lines ≡ record { bytes = []; room = most_bytes }) }
        ensures number { IfOk result (λ desk. desk.number ≡ 1) }
    {
        Ok(DeskState {
            server: open_server(alloc)?,
            lines: LineReader::new(alloc)?,
            line: Vec::new(alloc),
            number: 1,
        })
    }

    /// Reads a line and answers it, or ends with a status.
    fn turn<R: Source, O: Sink>(
        &mut self,
        alloc: Global,
        source: &mut R,
        out: &mut O,
    ) -> Result<Option<Status>, ToolFault>
        requires { self.old.number + self.old.lines.room ≤ most_bytes + 1 }
        ensures turns { (decode : Decoding) → IsDecoding decode
            → (past : List Entry) → IsConnected self.old.server past
            → Turns (record {
              decode = decode;
              ahead = self.old.lines;
              past = past;
              number = self.old.number;
            })
            (R.left source.old) (R.left source.new) (O.taken out.old) (O.taken out.new)
            self.new.server self.new.lines self.new.number result }
        ensures small { result ≡ Ok None →
            self.new.number + self.new.lines.room ≤ most_bytes + 1 }
        ensures shorter { result ≡ Ok None → self.new.lines.room < self.old.lines.room }
        ensures low { IfOk result (λ status. ForSome status (λ s. number_of s ≤ 1)) }
        ensures read { (decode : Decoding) → IsDecoding decode
            → (past : List Entry) → IsConnected self.old.server past
            → IsErrOf result ToolFault.Read → Rose (R.faults source.old) (R.faults source.new) }
        ensures write { IsErrOf result ToolFault.Write →
            Rose (O.faults out.old) (O.faults out.new) }

        ensures source { IsLater R.faults R.aside source.old source.new }
        ensures out { IsLater O.faults O.aside out.old out.new }
    {
        match self.lines.read_line(source, &mut self.line) {
            Ok(LineEnd::Feed) => {
                answer_line(alloc, &mut self.server, self.number, &self.line, out)?;
                self.number += 1;
                Ok(None)
            }
            Ok(LineEnd::Input) => {
                answer_last(alloc, &mut self.server, self.number, &self.line, out)?;
                Ok(Some(Status::Done))
            }
            Err(LineFault::TooLong) => {
                print_line_fault(alloc, out, self.number)?;
                Ok(Some(Status::Fault))
            }
            Err(LineFault::TooMany) => {
                print(out, TOO_LONG)?;
                Ok(Some(Status::Fault))
            }
            Err(LineFault::Failed) => Err(ToolFault::Read),
            Err(LineFault::Memory) => Err(ToolFault::Memory),
        }
    }
}

/// Answers what stands after the last line feed of the source, where that is a line.
fn answer_last<O: Sink>(
    alloc: Global,
    server: &mut Server,
    number: u64,
    line: &[u8],
    out: &mut O,
) -> Result<(), ToolFault>
    requires { number < 2 ^ 63 }
    ensures prints { (decode : Decoding) → IsDecoding decode → (past : List Entry)
        → IsConnected server.old past
        → Prints (last_text decode past number line.now) (O.taken out.old) (O.taken out.new) result }
    ensures failed { IsErrOf result ToolFault.Write → Rose (O.faults out.old) (O.faults out.new) }
    ensures out { IsLater O.faults O.aside out.old out.new }
{
    if line.is_empty() {
        return Ok(());
    }
    answer_line(alloc, server, number, line, out)
}
