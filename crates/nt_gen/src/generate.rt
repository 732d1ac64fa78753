//! The command `gen`.

ghost use Rattle.std.specs.Prelude.{◌≡◌, ◌⊎◌, OnOk, IsErrOf};
ghost use Rattle.std.specs.Io.KnownBytes.{Appends};
ghost use Rattle.nt_link.specs.Causes.{Rose, IsLater};
ghost use Rattle.nt_tools.specs.Reply.{IsPrefix, IsCutShort};
ghost use Rattle.nt_tools.specs.Printing.{printing, Follows};
ghost use Rattle.wpilog_write.specs.Written.{IsCut};
ghost use Rattle.nt_gen.specs.Generated.{generated, gen_reply};

use crate::log::write_log;
use nt_link::Sink;
use nt_tools::{Status, ToolFault, tell};
use std::alloc::Global;

/// Writes the log of so many values of this seed into the sink, piece by piece, and then prints how
/// many items and bytes it has. Little memory is taken, however many values there are.
///
/// # Errors
///
/// `Write` only where the count of faults of the sink or the output rose, and want of memory.
pub fn run_gen<S: Sink, O: Sink>(
    alloc: Global,
    seed: u64,
    count: u32,
    sink: &mut S,
    out: &mut O,
) -> Result<Status, ToolFault>
    // The sink took exactly the log, and its summary is printed, of which else a prefix is.
    ensures log { OnOk result (Appends (S.taken sink.old) (S.taken sink.new) (generated seed count)) }
    ensures follows { Follows (gen_reply seed count) (O.taken out.old) (O.taken out.new) result }
    // In any case the sink took a prefix of the log.
    ensures begun { IsPrefix (printing (generated seed count)) (S.taken sink.old) (S.taken sink.new) }
    // A write failed: of the log, and nothing is printed, or of the summary behind the whole log.
    ensures write { IsErrOf result ToolFault.Write →
        (Rose (S.faults sink.old) (S.faults sink.new) × (out.new ≡ out.old)
        × IsCut (generated seed count) (S.taken sink.old) (S.taken sink.new))
        ⊎ (Rose (O.faults out.old) (O.faults out.new)
        × Appends (S.taken sink.old) (S.taken sink.new) (generated seed count)
        × IsCutShort (gen_reply seed count) (O.taken out.old) (O.taken out.new)) }
    ensures memory { IsErrOf result ToolFault.Memory → out.new ≡ out.old }
    ensures no_read { IsErrOf result ToolFault.Read → ⊥ }
    ensures sink { IsLater S.faults S.aside sink.old sink.new }
    ensures out { IsLater O.faults O.aside out.old out.new }
{
    let bytes = write_log(alloc, seed, count, sink)?;
    let items = u64::from(count) + 2;
    let mut line = String::new(alloc);
    writeln!(line, "items {items} bytes {bytes}")?;
    tell(out, Status::Done, line.as_str())
}
