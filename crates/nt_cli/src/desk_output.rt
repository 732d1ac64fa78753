//! What a desk prints.

ghost use Rattle.std.specs.Prelude.{◌≡◌, IfOk, IsErrOf, string_bytes};
ghost use Rattle.nt_link.specs.Causes.{Rose, IsLater};
ghost use Rattle.nt_cli.specs.Desk.{line_fault, frame_line, lines_of};
ghost use Rattle.nt_tools.specs.Printing.{Prints};

use crate::hexadecimal::hex_line;
use nt_link::{Frame, Sink};
use nt_tools::{ToolFault, print};
use std::alloc::{AllocError, Global};

/// A frame as a line: a text frame as it is, and a binary one in hexadecimal digits.
fn frame_line(alloc: Global, frame: &Frame) -> Result<String, AllocError>
    ensures { IfOk result (λ line. string_bytes line ≡ frame_line frame.now) }
{
    match frame {
        Frame::Text(text) => {
            let text = text.as_str();
            format!(in alloc; "{text}\n")
        }
        Frame::Binary(bytes) => hex_line(alloc, bytes.as_bytes()),
    }
}

/// Prints a frame, as a line.
fn print_frame<O: Sink>(alloc: Global, out: &mut O, frame: &Frame) -> Result<(), ToolFault>
    ensures prints { Prints (frame_line frame.now) (O.taken out.old) (O.taken out.new) result }
    ensures failed { IsErrOf result ToolFault.Write → Rose (O.faults out.old) (O.faults out.new) }
    ensures out { IsLater O.faults O.aside out.old out.new }
{
    let line = frame_line(alloc, frame)?;
    print(out, line.as_str())
}

/// Prints frames, each as a line.
pub fn print_frames<O: Sink>(alloc: Global, out: &mut O, frames: &[Frame]) -> Result<(), ToolFault>
    ensures prints { Prints (lines_of frames.now) (O.taken out.old) (O.taken out.new) result }
    ensures failed { IsErrOf result ToolFault.Write → Rose (O.faults out.old) (O.faults out.new) }
    ensures out { IsLater O.faults O.aside out.old out.new }
{
    for frame in frames {
        print_frame(alloc, out, frame)?;
    }
    Ok(())
}

/// Prints the number of a line that is too long.
pub fn print_line_fault<O: Sink>(alloc: Global, out: &mut O, number: u64) -> Result<(), ToolFault>
    ensures prints { Prints (line_fault number) (O.taken out.old) (O.taken out.new) result }
    ensures failed { IsErrOf result ToolFault.Write → Rose (O.faults out.old) (O.faults out.new) }
    ensures out { IsLater O.faults O.aside out.old out.new }
{
    let text = format!(in alloc; "fault line {number}\n")?;
    print(out, text.as_str())
}
