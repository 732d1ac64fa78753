//! Printing.

ghost use Rattle.std.specs.Prelude.{◌≡◌, IfOk, IfErr, OnErr};
ghost use Rattle.nt_link.specs.Causes.{Rose, IsLater};
ghost use Rattle.nt_tools.specs.Printing.{Prints, GivesReply, number_of};

use crate::status::{Status, ToolFault};
use nt_link::{Sink, write_all};

/// What is printed of a source that has more bytes than a tool reads.
pub const TOO_LONG: &str = "fault TooLong at 1099511627776\n";

/// Writes bytes in one piece.
pub fn write<S: Sink>(sink: &mut S, bytes: &[u8]) -> Result<(), ToolFault>
    ensures prints { Prints bytes.now (S.taken sink.old) (S.taken sink.new) result }
    ensures only { IfErr result (λ fault. fault ≡ ToolFault.Write) }
    ensures failed { OnErr result (Rose (S.faults sink.old) (S.faults sink.new)) }
    ensures sink { IsLater S.faults S.aside sink.old sink.new }
{
    write_all(sink, bytes)?;
    Ok(())
}

/// Prints a text in one piece.
pub fn print<O: Sink>(out: &mut O, text: &str) -> Result<(), ToolFault>
    ensures prints { Prints text.now (O.taken out.old) (O.taken out.new) result }
    ensures only { IfErr result (λ fault. fault ≡ ToolFault.Write) }
    ensures failed { OnErr result (Rose (O.faults out.old) (O.faults out.new)) }
    ensures out { IsLater O.faults O.aside out.old out.new }
{
    write(out, text.as_bytes())
}

/// Prints the text of a reply, and answers its status.
pub fn tell<O: Sink>(out: &mut O, status: Status, text: &str) -> Result<Status, ToolFault>
    ensures gives { GivesReply (record { status = number_of status; text = text.now })
        (O.taken out.old) (O.taken out.new) result }
    ensures status { IfOk result (λ given. given ≡ status) }
    ensures only { IfErr result (λ fault. fault ≡ ToolFault.Write) }
    ensures failed { OnErr result (Rose (O.faults out.old) (O.faults out.new)) }
    ensures out { IsLater O.faults O.aside out.old out.new }
{
    print(out, text)?;
    Ok(status)
}
