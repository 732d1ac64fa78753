//! What the lines of a desk say.

ghost use Rattle.std.specs.Prelude.{◌≡◌, map, IfOk};
ghost use Rattle.std.specs.List.{AllByRecursion};
ghost use Rattle.nt_control.specs.Frame.{said_in};
ghost use Rattle.nt_rules.specs.declared.act.Msg.TheVariants as msg;
ghost use Rattle.nt_rules.specs.history.Step.{IsPut};
ghost use Rattle.nt_cli.specs.Hexadecimal.{hex_bytes as bytes_of};
ghost use Rattle.nt_cli.specs.Desk.{Decoding, IsDecoding, values_in, line_messages};

use crate::hexadecimal::{digits_in, hex_bytes};
use nt_control::read_client;
use nt_frames::{ValueMsg, read_frame};
use nt_rules::{MOST_VALUE, Msg};
use std::alloc::{AllocError, Global};

/// The messages of a line: of a text frame, or of a binary one up to its first fault.
pub fn messages_in(alloc: Global, line: &[u8]) -> Result<Vec<Msg>, AllocError>
    ensures messages { (decode : Decoding) → IsDecoding decode
        → IfOk result (λ msgs. msgs.items ≡ line_messages decode line.now) }
    ensures fit { IfOk result (λ msgs. AllByRecursion IsPut msgs.items) }
{
    match digits_in(line) {
        Some(digits) => values_of(alloc, digits),
        None => controls_of(alloc, line),
    }
}

/// The control messages of a text frame.
fn controls_of(alloc: Global, text: &[u8]) -> Result<Vec<Msg>, AllocError>
    ensures messages { IfOk result (λ msgs. msgs.items ≡ map msg.Control (said_in text.now)) }
    ensures fit { IfOk result (λ msgs. AllByRecursion IsPut msgs.items) }
{
    let mut msgs = Vec::new(alloc);
    for msg in read_client(alloc, text)?.msgs {
        msgs.push(Msg::Control(msg))?;
    }
    Ok(msgs)
}

/// The values of a binary frame, by its digits. Where the text isn't spelled as it has to be, there
/// are none.
fn values_of(alloc: Global, text: &[u8]) -> Result<Vec<Msg>, AllocError>
    ensures messages { (decode : Decoding) → IsDecoding decode
        → IfOk result (λ msgs. msgs.items ≡ map msg.Put (values_in decode (bytes_of text.now))) }
    ensures fit { IfOk result (λ msgs. AllByRecursion IsPut msgs.items) }
{
    let Some(bytes) = hex_bytes(alloc, text)? else {
        return Ok(Vec::new(alloc));
    };
    let read = read_frame(alloc, &bytes, MOST_VALUE)?;
    puts_of(alloc, read.messages)
}

/// The messages that put these values.
fn puts_of(alloc: Global, values: Vec<ValueMsg>) -> Result<Vec<Msg>, AllocError>
    ensures { IfOk result (λ msgs. msgs.items ≡ map msg.Put values.items) }
{
    let mut msgs = Vec::new(alloc);
    for value in values {
        msgs.push(Msg::Put(value))?;
    }
    Ok(msgs)
}
