//! Bytes from frames.

ghost use Rattle.std.specs.Prelude.{◌≡◌, ◌++◌, ◌∷◌, ℕ, None, map, length, IfOk, OnOk};
ghost use Rattle.std.specs.List.{AllByRecursion, flat_map};
ghost use Rattle.nt_values.specs.Types.{value_number};
ghost use Rattle.nt_msgpack.specs.Atoms.{shortest, array_head};
ghost use Rattle.nt_frames.specs.Frames.{IsArray, IsWire, wire_of, CanSpell, HasSpelling, IsInRange, Means, spelling_of, frame_of};

use crate::element::{Element, length_of};
use crate::message::ValueMsg;
use nt_msgpack::{Atom, put_atom};
use nt_values::{Bytes, Value};
use std::alloc::{AllocError, Global};

/// Appends an array of values, each as its own atom.
fn put_list<T: Element>(out: &mut Vec<u8>, list: &[T]) -> Result<(), AllocError>
    ensures ok { OnOk result (out.new.items ≡ out.old.items
        ++ flat_map shortest (array_head (length list.now) ∷ map T.written list.now)) }
    ensures spelled { OnOk result
        (AllByRecursion CanSpell (array_head (length list.now) ∷ map T.written list.now)) }
    ensures array { OnOk result
        (IsArray T.number (array_head (length list.now) ∷ map T.written list.now)) }
{
    let count = length_of(list.len())?;
    put_atom(out, &Atom::ArrayHead(count))?;
    for item in list {
        item.put(out)?;
    }
    Ok(())
}

/// Appends the atoms of a value.
fn put_value(out: &mut Vec<u8>, value: &Value) -> Result<(), AllocError>
    ensures ok { OnOk result
        (out.new.items ≡ out.old.items ++ flat_map shortest (wire_of value.now)) }
    ensures spelled { OnOk result (AllByRecursion CanSpell (wire_of value.now)) }
    ensures wire { OnOk result (IsWire (value_number value.now) (wire_of value.now)) }
{
    match value {
        Value::Bool(truth) => truth.put(out),
        Value::Double(bits) => bits.put(out),
        Value::Int(number) => number.put(out),
        Value::Float(bits) => bits.put(out),
        Value::Text(text) => text.put(out),
        Value::Bytes(bytes) => bytes.put(out),
        Value::Bools(list) => put_list(out, list.as_slice()),
        Value::Doubles(list) => put_list(out, list.as_slice()),
        Value::Ints(list) => put_list(out, list.as_slice()),
        Value::Floats(list) => put_list(out, list.as_slice()),
        Value::Texts(list) => put_list(out, list.as_slice()),
    }
}

/// Appends a message, each atom in its shortest spelling, a double in 64 bits and a float in 32. It
/// fails as `write_frame` does, and then part of the message may have been appended.
pub fn put_message(out: &mut Vec<u8>, message: &ValueMsg) -> Result<(), AllocError>
    ensures ok { OnOk result (out.new.items ≡ out.old.items ++ spelling_of message.now) }
    ensures spelled { OnOk result (HasSpelling message.now) }
{
    put_atom(out, &Atom::ArrayHead(4))?;
    put_atom(out, &Atom::Int(i128::from(message.id)))?;
    put_atom(out, &Atom::Int(i128::from(message.time)))?;
    put_atom(out, &Atom::Int(i128::from(message.value.number())))?;
    put_value(out, &message.value)
}

/// A frame of these messages (NetworkTables 4.1, binary frames), each atom in its shortest
/// spelling, a double in 64 bits and a float in 32. It fails for want of memory, and where a text,
/// bytes or a list in it has a length of 2^32 or more, for which there is no spelling.
pub fn write_frame(alloc: Global, messages: &[ValueMsg]) -> Result<Bytes, AllocError>
    ensures written { IfOk result (λ bytes. bytes ≡ frame_of messages.now) }
    ensures spelled { OnOk result (AllByRecursion HasSpelling messages.now) }

    // What is written is read back, where ids, timestamps and sizes are in range.
    ensures read_back { IfOk result (λ bytes. (most : ℕ)
        → AllByRecursion (IsInRange most) messages.now → Means most bytes messages.now None) }
{
    let mut out = Vec::new(alloc);
    for message in messages {
        put_message(&mut out, message)?;
    }
    Ok(Bytes::of_vec(out))
}
