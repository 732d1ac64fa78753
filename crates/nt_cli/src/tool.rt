//! The tools: commands that wait for nobody, and end.

ghost use Rattle.std.specs.Prelude.{◌≡◌, ◌≤◌, ◌⊎◌, false, List, ℕ, Some, None, OnOk, IfOk, IsErrOf, map, string_bytes};
ghost use Rattle.nt_link.specs.Causes.{Rose, StaysAtEnd, IsLater};
ghost use Rattle.nt_cli.specs.Words.{tool_of};
ghost use Rattle.nt_tools.specs.Reply.{Reply, IsGiven, IsPrefix};
ghost use Rattle.nt_tools.specs.Printing.{number_of, Follows};
ghost use Rattle.nt_cli.specs.Tool.{reads, writes, Replies, Decides, Stops, Unread, Unwritten, Ends, Wrote, WroteSome, Cut};

use crate::desk::desk;
use crate::words::{Tool, tool_of};
use nt_gen::run_gen;
use nt_link::{Sink, Source};
use nt_log_tools::run_log_tool;
use nt_tools::{Status, ToolFault, tell};
use std::alloc::Global;

/// Runs the tool that these words ask for, those after the program's name, and answers its status:
/// 0 where it is done, 1 where the log has a fault, a line of the desk is too long or the source has
/// more bytes than a tool reads, 2 where no tool has these words, 3 for want of memory, and 4 where a
/// read or a write failed.
pub fn run_tool<R: Source, S: Sink, O: Sink>(
    alloc: Global,
    words: &[String],
    source: &mut R,
    sink: &mut S,
    out: &mut O,
) -> u8
    // The reply by what was taken of the source is printed, and its status answered.
    ensures done { result ≤ 2 → (reply : Reply)
        × Decides (map string_bytes words.now) (R.left source.old) (R.left source.new) reply
        × IsGiven reply result (O.taken out.old) (O.taken out.new) }
    // Where the source tells what it has left, the reply to that is given, and no other.
    ensures exact { (bytes : List ℕ) (reply : Reply) → R.left source.old ≡ Some bytes
        → Replies (map string_bytes words.now) bytes reply
        → result ≤ 2 → IsGiven reply result (O.taken out.old) (O.taken out.new) }
    // Nothing is printed but a prefix of it in any case.
    ensures prefix { (bytes : List ℕ) (reply : Reply) → R.left source.old ≡ Some bytes
        → Replies (map string_bytes words.now) bytes reply
        → IsPrefix reply (O.taken out.old) (O.taken out.new) }
    // For want of memory nothing is printed, or a prefix of the reply where a tool prints as it goes.
    ensures memory { result ≡ 3 → Stops (map string_bytes words.now) (R.left source.old)
        (R.left source.new) (O.taken out.old) (O.taken out.new) }
    // A read failed and nothing is printed, or a prefix of the reply where a tool prints as it goes,
    // or a write failed in the midst of the reply, or one of what the tool makes.
    ensures fault { result ≡ 4 →
        (Rose (R.faults source.old) (R.faults source.new)
        × Unread (map string_bytes words.now) (R.left source.old) (R.left source.new)
        (O.taken out.old) (O.taken out.new))
        ⊎ (Rose (O.faults out.old) (O.faults out.new)
        × Unwritten (map string_bytes words.now) (R.left source.old) (R.left source.new)
        (O.taken out.old) (O.taken out.new)
        × Wrote (map string_bytes words.now) (S.taken sink.old) (S.taken sink.new))
        ⊎ (Rose (S.faults sink.old) (S.faults sink.new)
        × Cut (map string_bytes words.now) (S.taken sink.old) (S.taken sink.new)
        (O.taken out.old) (O.taken out.new)) }
    ensures most { result ≤ 4 }

    // What the tool makes stands in the sink, and a prefix of it in any case.
    ensures made { result ≤ 2 → Wrote (map string_bytes words.now) (S.taken sink.old) (S.taken sink.new) }
    ensures begun { WroteSome (map string_bytes words.now) (S.taken sink.old) (S.taken sink.new) }

    // Words that no tool has are answered by the usage alone. A tool that reads nothing leaves the
    // source untouched, and one that makes nothing the sink.
    ensures usage { result ≡ 2 → tool_of (map string_bytes words.now) ≡ None }
    ensures unread { reads (tool_of (map string_bytes words.now)) ≡ false → source.new ≡ source.old }
    ensures sink { writes (tool_of (map string_bytes words.now)) ≡ false → sink.new ≡ sink.old }

    ensures source_later { R.faults source.old ≤ R.faults source.new }
    ensures source_end { StaysAtEnd (R.faults source.old) (R.faults source.new) }
    ensures source_aside { R.aside source.new ≡ R.aside source.old }
    ensures sink_later { S.faults sink.old ≤ S.faults sink.new }
    ensures sink_end { StaysAtEnd (S.faults sink.old) (S.faults sink.new) }
    ensures sink_aside { S.aside sink.new ≡ S.aside sink.old }
    ensures out_later { O.faults out.old ≤ O.faults out.new }
    ensures out_end { StaysAtEnd (O.faults out.old) (O.faults out.new) }
    ensures out_aside { O.aside out.new ≡ O.aside out.old }
{
    match run(alloc, words, source, sink, out) {
        Ok(status) => status as u8,
        Err(ToolFault::Memory) => Status::Memory as u8,
        Err(ToolFault::Read | ToolFault::Write) => Status::Failed as u8,
    }
}

/// Runs the tool that these words ask for.
fn run<R: Source, S: Sink, O: Sink>(
    alloc: Global,
    words: &[String],
    source: &mut R,
    sink: &mut S,
    out: &mut O,
) -> Result<Status, ToolFault>
    ensures ends { Ends (map string_bytes words.now) (R.left source.old) (R.left source.new)
        (O.taken out.old) (O.taken out.new) result }
    ensures exact { (bytes : List ℕ) (reply : Reply) → R.left source.old ≡ Some bytes
        → Replies (map string_bytes words.now) bytes reply
        → Follows reply (O.taken out.old) (O.taken out.new) result }
    ensures low { IfOk result (λ status. number_of status ≤ 2) }
    ensures usage { IfOk result (λ status. number_of status ≡ 2
        → tool_of (map string_bytes words.now) ≡ None) }
    ensures unread { reads (tool_of (map string_bytes words.now)) ≡ false → source.new ≡ source.old }
    ensures made { OnOk result (Wrote (map string_bytes words.now) (S.taken sink.old) (S.taken sink.new)) }
    ensures begun { WroteSome (map string_bytes words.now) (S.taken sink.old) (S.taken sink.new) }
    ensures unmade { writes (tool_of (map string_bytes words.now)) ≡ false → sink.new ≡ sink.old }
    ensures read { IsErrOf result ToolFault.Read → Rose (R.faults source.old) (R.faults source.new) }
    ensures write { IsErrOf result ToolFault.Write →
        (Rose (O.faults out.old) (O.faults out.new)
        × Unwritten (map string_bytes words.now) (R.left source.old) (R.left source.new)
        (O.taken out.old) (O.taken out.new)
        × Wrote (map string_bytes words.now) (S.taken sink.old) (S.taken sink.new))
        ⊎ (Rose (S.faults sink.old) (S.faults sink.new)
        × Cut (map string_bytes words.now) (S.taken sink.old) (S.taken sink.new)
        (O.taken out.old) (O.taken out.new)) }
    ensures source { IsLater R.faults R.aside source.old source.new }
    ensures sink { IsLater S.faults S.aside sink.old sink.new }
    ensures out { IsLater O.faults O.aside out.old out.new }
{
    match tool_of(words) {
        None => tell(out, Status::Usage, "usage\n"),
        Some((Tool::Log(tool), _)) => run_log_tool(alloc, tool, source, out),
        Some((Tool::Desk, _)) => desk(alloc, source, out),
        Some((Tool::Gen { seed, count }, _)) => run_gen(alloc, seed, count, sink, out),
    }
}
