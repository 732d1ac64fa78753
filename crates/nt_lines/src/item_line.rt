//! The line of an item of a log.

ghost use Rattle.std.specs.Prelude.{◌≡◌, ◌++◌, OnOk, codes, string_bytes};
ghost use Rattle.nt_lines.specs.ItemLines.{value_text, item_line};

use crate::field::Field;
use crate::part::{Part, append_list};
use std::alloc::AllocError;
use wpilog_write::{LogItem, LogValue};

/// Appends a value.
fn append_value(text: &mut String, value: &LogValue) -> Result<(), AllocError>
    ensures { OnOk result (string_bytes text.new ≡ string_bytes text.old ++ value_text value.now) }
{
    match value {
        LogValue::Boolean(truth) => truth.append(text),
        LogValue::Int64(number) => {
            text.push_str("i64:")?;
            number.append(text)
        }
        LogValue::Float(bits) => {
            text.push_str("f32:")?;
            bits.append(text)
        }
        LogValue::Double(bits) => {
            text.push_str("f64:")?;
            bits.append(text)
        }
        LogValue::Bytes(bytes) => {
            text.push_str("bytes:")?;
            bytes.append(text)
        }
        LogValue::Booleans(list) => append_list(text, "b[", list.as_slice()),
        LogValue::Int64s(list) => append_list(text, "i64[", list.as_slice()),
        LogValue::Floats(list) => append_list(text, "f32[", list.as_slice()),
        LogValue::Doubles(list) => append_list(text, "f64[", list.as_slice()),
        LogValue::Strings(list) => append_list(text, "s[", list.as_slice()),
    }
}

/// Appends the line of an item, with its line feed. For want of memory the text may hold a part of it.
pub fn append_item(text: &mut String, item: &LogItem) -> Result<(), AllocError>
    ensures { OnOk result (string_bytes text.new
        ≡ string_bytes text.old ++ (item_line item.now ++ codes "\n")) }
{
    match item {
        LogItem::Start {
            time,
            id,
            name,
            typ,
            meta,
        } => {
            let name = Field(name.as_str().as_bytes());
            let typ = Field(typ.as_str().as_bytes());
            let meta = Field(meta.as_str().as_bytes());
            writeln!(text, "S {time} {id} {name} {typ} {meta}")
        }
        LogItem::Value { time, id, value } => {
            write!(text, "D {time} {id} ")?;
            append_value(text, value)?;
            text.push_str("\n")
        }
        LogItem::SetMeta { time, id, meta } => {
            let meta = Field(meta.as_str().as_bytes());
            writeln!(text, "M {time} {id} {meta}")
        }
        LogItem::Finish { time, id } => writeln!(text, "F {time} {id}"),
    }
}
