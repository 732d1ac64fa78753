//! Records in their shortest spelling.

ghost use Rattle.std.specs.Prelude.{◌≡◌, ◌≤◌, ◌++◌, List, ℕ, OnOk, IfOk};
ghost use Rattle.std.specs.Int.{bytes_low_first};
ghost use Rattle.wpilog_write.specs.Log.{time_of};
ghost use Rattle.wpilog_write.specs.Written.{least, string, int64, value_payload, payload_of, entry_of, record_of, header_of};

use crate::item::{LogItem, LogValue};
use std::alloc::{AllocError, Global};

/// Appends a number in so many bytes, the least byte first ("Design").
#[tactic(auto, using(crate::proofs::Numbers::first_bytes))]
fn put_number(out: &mut Vec<u8>, len: usize, n: u64) -> Result<(), AllocError>
    requires { len ≤ 8 }
    ensures { OnOk result (out.new.items ≡ out.old.items ++ bytes_low_first 0 len n) }
{
    out.extend_from_slice(&n.to_le_bytes()[..len])
}

/// How many bytes a number needs: at least one.
fn least(n: u64) -> usize
    ensures value { result ≡ least n }
    ensures range { (1 ≤ result) × (result ≤ 8) }
{
    if n < 1 << 8 {
        1
    } else if n < 1 << 16 {
        2
    } else if n < 1 << 24 {
        3
    } else if n < 1 << 32 {
        4
    } else if n < 1 << 40 {
        5
    } else if n < 1 << 48 {
        6
    } else if n < 1 << 56 {
        7
    } else {
        8
    }
}

/// Appends bytes after their length.
pub fn put_string(out: &mut Vec<u8>, text: &[u8]) -> Result<(), AllocError>
    ensures { OnOk result (out.new.items ≡ out.old.items ++ string text.now) }
{
    put_number(out, 4, text.len() as u64)?;
    out.extend_from_slice(text)
}

/// Appends a signed number.
#[tactic(auto, unfolding(crate::specs::Written::int64))]
fn put_int64(out: &mut Vec<u8>, number: i64) -> Result<(), AllocError>
    ensures { OnOk result (out.new.items ≡ out.old.items ++ int64 number) }
{
    put_number(out, 8, number.cast_unsigned())
}

/// Appends the payload of a value ("Data Types").
fn put_value(out: &mut Vec<u8>, value: &LogValue) -> Result<(), AllocError>
    ensures { OnOk result (out.new.items ≡ out.old.items ++ value_payload value.now) }
{
    match value {
        LogValue::Boolean(truth) => out.push(u8::from(*truth))?,
        LogValue::Int64(number) => put_int64(out, *number)?,
        LogValue::Float(bits) => put_number(out, 4, u64::from(*bits))?,
        LogValue::Double(bits) => put_number(out, 8, *bits)?,
        LogValue::Bytes(bytes) => out.extend_from_slice(bytes.as_bytes())?,
        LogValue::Booleans(truths) => {
            for truth in truths.as_slice() {
                out.push(u8::from(*truth))?;
            }
        }
        LogValue::Int64s(numbers) => {
            for number in numbers.as_slice() {
                put_int64(out, *number)?;
            }
        }
        LogValue::Floats(floats) => {
            for float in floats.as_slice() {
                put_number(out, 4, u64::from(*float))?;
            }
        }
        LogValue::Doubles(doubles) => {
            for double in doubles.as_slice() {
                put_number(out, 8, *double)?;
            }
        }
        LogValue::Strings(texts) => {
            put_number(out, 4, texts.as_slice().len() as u64)?;
            for text in texts.as_slice() {
                put_string(out, text.as_bytes())?;
            }
        }
    }
    Ok(())
}

/// Appends the payload of an item ("Control Records", "Data Types"). For want of memory the bytes may hold a part of
/// it.
pub fn put_payload(out: &mut Vec<u8>, item: &LogItem) -> Result<(), AllocError>
    ensures { OnOk result (out.new.items ≡ out.old.items ++ payload_of item.now) }
{
    match item {
        LogItem::Start {
            id,
            name,
            typ,
            meta,
            ..
        } => {
            out.push(0)?;
            put_number(out, 4, u64::from(*id))?;
            put_string(out, name.as_str().as_bytes())?;
            put_string(out, typ.as_str().as_bytes())?;
            put_string(out, meta.as_str().as_bytes())
        }
        LogItem::Value { value, .. } => put_value(out, value),
        LogItem::SetMeta { id, meta, .. } => {
            out.push(2)?;
            put_number(out, 4, u64::from(*id))?;
            put_string(out, meta.as_str().as_bytes())
        }
        LogItem::Finish { id, .. } => {
            out.push(1)?;
            put_number(out, 4, u64::from(*id))
        }
    }
}

/// The entry id and the timestamp that stand in the record of an item.
fn stamp_of(item: &LogItem) -> (u32, u64)
    ensures { result ≡ (entry_of item.now, time_of item.now) }
{
    match item {
        LogItem::Value { time, id, .. } => (*id, *time),
        LogItem::Start { time, .. }
        | LogItem::SetMeta { time, .. }
        | LogItem::Finish { time, .. } => (0, *time),
    }
}

/// Appends the record of an item with this payload ("Records"), each number in its shortest spelling. For want of
/// memory the bytes may hold a part of it.
pub fn put_record(out: &mut Vec<u8>, item: &LogItem, payload: &[u8]) -> Result<(), AllocError>
    requires { payload.now ≡ payload_of item.now }
    ensures { OnOk result (out.new.items ≡ out.old.items ++ record_of item.now) }
{
    let (entry, time) = stamp_of(item);
    let entry = u64::from(entry);
    let size = payload.len() as u64;
    let (entry_len, size_len, time_len) = (least(entry), least(size), least(time));
    let bitfield = (entry_len - 1) + 4 * (size_len - 1) + 16 * (time_len - 1);
    out.push(bitfield as u8)?;
    put_number(out, entry_len, entry)?;
    put_number(out, size_len, size)?;
    put_number(out, time_len, time)?;
    out.extend_from_slice(payload)
}

/// The header with this extra header ("Header"): `WPILOG` and the version 1.0.
pub fn header_with(alloc: Global, extra: &[u8]) -> Result<Vec<u8>, AllocError>
    ensures { IfOk result (λ bytes. bytes.items ≡ header_of extra.now) }
{
    let mut bytes = Vec::from_slice(alloc, &[87, 80, 73, 76, 79, 71, 0, 1])?;
    put_string(&mut bytes, extra)?;
    Ok(bytes)
}
