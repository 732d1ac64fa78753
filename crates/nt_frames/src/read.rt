//! Frames from bytes.

ghost use Rattle.std.specs.Prelude.{◌≡◌, ◌≢◌, ◌+◌, ◌-◌, ◌≤◌, ℕ, List, [], ◌∷◌, ◌++◌, Option, Ok, Err, Bool, true, false, pos, IfOk, IfErr};
ghost use Rattle.std.specs.List.{AllZip};
ghost use Rattle.nt_values.specs.Types.{value_number, size_of};
ghost use Rattle.nt_msgpack.specs.Atoms.{AtomValue, value_of, int, array_head, Fits, IsTyped};
ghost use Rattle.nt_frames.specs.declared.message.ValueMsg.{ValueMsg as Message};
ghost use Rattle.nt_frames.specs.declared.message.FrameFault.{FrameFault as Fault};
ghost use Rattle.nt_frames.specs.declared.message.FrameKind.TheVariants.{NotArray4, BadId, BadTime, BadType, BadValue};
ghost use Rattle.nt_frames.specs.Frames.{is_known, is_single, may_stand, IsMessage, IsFault, Means, One, Each, Stand};
ghost use Rattle.nt_frames.specs.Reading.{Gives, Tells, atom_if, elements_at, single_at, array_at, wire_at, message_at, is_four, is_id, is_time, is_type, is_array_head, Fails, IfFault, Matches};

use crate::element::Element;
use crate::error::ReadError;
use crate::message::{FrameFault, FrameKind, FrameRead, ValueMsg};
use nt_msgpack::{Atom, AtomRead, read_atom};
use nt_values::{Bytes, ListOf, Text, Value};
use std::alloc::{AllocError, Global};

/// The next atom, whatever it is, and what is left after it. The kind is for bytes that are none.
#[inline(always)]
#[tactic(auto, unfolding(crate::specs::Reading::atom_if))]
fn atom_of(kind: FrameKind, bytes: &[u8]) -> Result<(Atom<'_>, &[u8]), ReadError>
    ensures passes { (test : AtomValue → Bool) → IfOk result (λ x. test (value_of x.0) ≡ true
        → atom_if kind test bytes.now ≡ Ok (value_of x.0, x.1.now)) }
    ensures refuses { (test : AtomValue → Bool) → IfOk result (λ x. test (value_of x.0) ≡ false
        → atom_if kind test bytes.now ≡ Err kind) }
    ensures stops { (test : AtomValue → Bool)
        → IfErr result (λ e. Fails e (atom_if kind test bytes.now)) }
    ensures fits { IfOk result (λ x. Fits (value_of x.0)) }
{
    match read_atom(bytes) {
        AtomRead::Got { atom, used } => Ok((atom, &bytes[used..])),
        AtomRead::Short => Err(ReadError::Fault(FrameKind::Short)),
        AtomRead::Bad { byte: _ } => Err(ReadError::Fault(kind)),
    }
}

/// The head of a message, and what is left after it.
fn head_of(bytes: &[u8]) -> Result<&[u8], ReadError>
    ensures { Gives (λ x. (array_head 4, x.now)) result (atom_if NotArray4 is_four bytes.now) }
{
    match atom_of(FrameKind::NotArray4, bytes)? {
        (Atom::ArrayHead(4), rest) => Ok(rest),
        _ => Err(ReadError::Fault(FrameKind::NotArray4)),
    }
}

/// The id of a message, and what is left after it.
fn id_of(bytes: &[u8]) -> Result<(i64, &[u8]), ReadError>
    ensures reads { Gives (λ x. (int x.0, x.1.now)) result (atom_if BadId is_id bytes.now) }
{
    let (atom, rest) = atom_of(FrameKind::BadId, bytes)?;
    if let Atom::Int(number) = atom
        && let Ok(id) = i64::try_from(number)
    {
        return Ok((id, rest));
    }
    Err(ReadError::Fault(FrameKind::BadId))
}

/// The timestamp of a message, and what is left after it.
fn time_of(bytes: &[u8]) -> Result<(u64, &[u8]), ReadError>
    ensures reads { Gives (λ x. (int (pos x.0), x.1.now))
        result (atom_if BadTime is_time bytes.now) }
{
    let (atom, rest) = atom_of(FrameKind::BadTime, bytes)?;
    if let Atom::Int(number) = atom
        && let Ok(time) = u64::try_from(number)
        && time < 1 << 63
    {
        return Ok((time, rest));
    }
    Err(ReadError::Fault(FrameKind::BadTime))
}

/// The data type number of a message, and what is left after it.
fn type_of(bytes: &[u8]) -> Result<(u8, &[u8]), ReadError>
    ensures reads { Gives (λ x. (int (pos x.0), x.1.now))
        result (atom_if BadType is_type bytes.now) }
    ensures known { IfOk result (λ x. is_known x.0 ≡ true) }
{
    let (atom, rest) = atom_of(FrameKind::BadType, bytes)?;
    if let Atom::Int(number) = atom
        && let Ok(number) = u8::try_from(number)
        && let 0..=5 | 16..=20 = number
    {
        return Ok((number, rest));
    }
    Err(ReadError::Fault(FrameKind::BadType))
}

/// An element of a list or a single value, and what is left after it.
fn element_of<T: Element>(alloc: Global, bytes: &[u8]) -> Result<(T, &[u8]), ReadError>
    ensures reads { Matches (λ x y. T.stands x.0 y.0 × (y.1 ≡ x.1.now))
        result (atom_if BadValue (may_stand T.number) bytes.now) }
{
    let (atom, rest) = atom_of(FrameKind::BadValue, bytes)?;
    match T::of_atom(alloc, &atom)? {
        Some(value) => Ok((value, rest)),
        None => Err(ReadError::Fault(FrameKind::BadValue)),
    }
}

/// A single value, and what is left after it.
#[tactic(auto, unfolding(crate::specs::Reading::single_at))]
fn single_of<T: Element>(alloc: Global, bytes: &[u8]) -> Result<(T, &[u8]), ReadError>
    ensures { Matches (λ x y. One T.stands x.0 y.0 × (y.1 ≡ x.1.now))
        result (single_at T.number bytes.now) }
{
    element_of(alloc, bytes)
}

/// The head of an array, and what is left after it.
fn array_head_of(bytes: &[u8]) -> Result<(u32, &[u8]), ReadError>
    ensures reads { Gives (λ x. (array_head x.0, x.1.now))
        result (atom_if BadValue is_array_head bytes.now) }
{
    match atom_of(FrameKind::BadValue, bytes)? {
        (Atom::ArrayHead(count), rest) => Ok((count, rest)),
        _ => Err(ReadError::Fault(FrameKind::BadValue)),
    }
}

/// So many elements, and what is left after them. Room is taken only for elements that were read.
fn elements_of<T: Element>(
    alloc: Global,
    count: u32,
    bytes: &[u8],
) -> Result<(ListOf<T>, &[u8]), ReadError>
    ensures { Matches (λ x y. AllZip T.stands x.0 y.0 × (y.1 ≡ x.1.now))
        result (elements_at T.number count bytes.now) }
{
    let mut rest = bytes;
    let mut list = ListOf::empty(alloc);
    for i in 0..count {
        let (value, after) = element_of(alloc, rest)?;
        list.push(value)?;
        rest = after;
    }
    Ok((list, rest))
}

/// A list, and what is left after it.
#[tactic(auto, unfolding(crate::specs::Reading::array_at))]
fn list_of<T: Element>(alloc: Global, bytes: &[u8]) -> Result<(ListOf<T>, &[u8]), ReadError>
    ensures { Matches (λ x y. Each T.stands x.0 y.0 × (y.1 ≡ x.1.now))
        result (array_at T.number bytes.now) }
{
    let (count, rest) = array_head_of(bytes)?;
    elements_of(alloc, count, rest)
}

/// A value of a data type that isn't an array, and what is left after it.
fn single_value_of(alloc: Global, number: u8, bytes: &[u8]) -> Result<(Value, &[u8]), ReadError>
    requires { is_single number ≡ true }
    ensures { Matches (λ x y. (value_number x.0 ≡ number) × Stand x.0 y.0 × (y.1 ≡ x.1.now))
        result (single_at number bytes.now) }
{
    match number {
        0 => {
            let (truth, rest) = single_of(alloc, bytes)?;
            Ok((Value::Bool(truth), rest))
        }
        1 => {
            let (bits, rest) = single_of(alloc, bytes)?;
            Ok((Value::Double(bits), rest))
        }
        2 => {
            let (number, rest) = single_of(alloc, bytes)?;
            Ok((Value::Int(number), rest))
        }
        3 => {
            let (bits, rest) = single_of(alloc, bytes)?;
            Ok((Value::Float(bits), rest))
        }
        4 => {
            let (text, rest) = single_of(alloc, bytes)?;
            Ok((Value::Text(text), rest))
        }
        _ => {
            let (raw, rest) = single_of(alloc, bytes)?;
            Ok((Value::Bytes(raw), rest))
        }
    }
}

/// A value of an array's data type, and what is left after it.
fn list_value_of(alloc: Global, number: u8, bytes: &[u8]) -> Result<(Value, &[u8]), ReadError>
    requires array { is_single number ≡ false }
    requires known { is_known number ≡ true }
    ensures { Matches (λ x y. (value_number x.0 ≡ number) × Stand x.0 y.0 × (y.1 ≡ x.1.now))
        result (array_at (number - 16) bytes.now) }
{
    match number {
        16 => {
            let (list, rest) = list_of(alloc, bytes)?;
            Ok((Value::Bools(list), rest))
        }
        17 => {
            let (list, rest) = list_of(alloc, bytes)?;
            Ok((Value::Doubles(list), rest))
        }
        18 => {
            let (list, rest) = list_of(alloc, bytes)?;
            Ok((Value::Ints(list), rest))
        }
        19 => {
            let (list, rest) = list_of(alloc, bytes)?;
            Ok((Value::Floats(list), rest))
        }
        _ => {
            let (list, rest) = list_of(alloc, bytes)?;
            Ok((Value::Texts(list), rest))
        }
    }
}

/// A message, and what is left after it, whatever the size of its value.
#[tactic(auto, unfolding(crate::specs::Reading::message_at, crate::specs::Reading::wire_at))]
fn message_of(alloc: Global, bytes: &[u8]) -> Result<(ValueMsg, &[u8]), ReadError>
    ensures { Matches (λ x y. Tells x.0 y.0 × (y.1 ≡ x.1.now)) result (message_at bytes.now) }
{
    let rest = head_of(bytes)?;
    let (id, rest) = id_of(rest)?;
    let (time, rest) = time_of(rest)?;
    let (number, rest) = type_of(rest)?;
    let (value, rest) = if number < 6 {
        single_value_of(alloc, number, rest)?
    } else {
        list_value_of(alloc, number, rest)?
    };
    Ok((ValueMsg { id, time, value }, rest))
}

/// A message whose value has at most this size, and what is left after it.
fn small_message_of(alloc: Global, bytes: &[u8], most: u64) -> Result<(ValueMsg, &[u8]), ReadError>
    requires { bytes.now ≢ [] }
    ensures message { IfOk result (λ x. (prefix : List ℕ) × (bytes.now ≡ prefix ++ x.1.now)
        × IsMessage x.0 prefix × (size_of x.0.value ≤ most)) }
    ensures fault { IfErr result (IfFault (IsFault most bytes.now)) }
{
    let (message, rest) = message_of(alloc, bytes)?;
    if message.value.size() > most {
        return Err(ReadError::Fault(FrameKind::TooLarge));
    }
    Ok((message, rest))
}

/// The messages of a frame (NetworkTables 4.1, binary frames), up to the first that is at fault or
/// whose value's size passes `most`. Room is taken only for what was read.
pub fn read_frame(alloc: Global, bytes: &[u8], most: u64) -> Result<FrameRead, AllocError>
    ensures means { IfOk result (λ read. Means most bytes.now read.messages.items read.fault) }
    ensures only { IfOk result (λ read. (messages : List Message) (fault : Option Fault)
        → Means most bytes.now messages fault
        → (messages ≡ read.messages.items) × (fault ≡ read.fault)) }
{
    let mut messages = Vec::new(alloc);
    let mut rest = bytes;
    while !rest.is_empty() {
        match small_message_of(alloc, rest, most) {
            Ok((message, after)) => {
                messages.push(message)?;
                rest = after;
            }
            Err(ReadError::Memory) => return Err(AllocError),
            Err(ReadError::Fault(kind)) => {
                let at = (bytes.len() - rest.len()) as u64;
                return Ok(FrameRead {
                    messages,
                    fault: Some(FrameFault { at, kind }),
                });
            }
        }
    }
    Ok(FrameRead {
        messages,
        fault: None,
    })
}
