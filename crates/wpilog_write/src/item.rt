//! The items of a log.

ghost use Rattle.std.specs.Prelude.{◌≡◌, IfOk, OnOk, OnErr};
ghost use Rattle.wpilog_write.specs.Log.{type_named, value_type, live_after};
ghost use Rattle.wpilog_write.specs.Writer.{type_number};

use nt_values::{Bools, Bytes, Doubles, Floats, Ints, ListOf, Text};
use std::alloc::{AllocError, Global};
use std::collections::BTreeMap;

/// A type of the entries' values ("Data Types").
#[derive(Clone, Copy, Debug, PartialEq, Eq)]
pub enum LogType {
    /// `boolean`.
    Boolean,
    /// `int64`.
    Int64,
    /// `float`.
    Float,
    /// `double`.
    Double,
    /// `boolean[]`.
    Booleans,
    /// `int64[]`.
    Int64s,
    /// `float[]`.
    Floats,
    /// `double[]`.
    Doubles,
    /// `string[]`.
    Strings,
    /// `raw`, `string`, `json` and every type that isn't named here.
    Other,
}

/// A list of texts, which may be any bytes.
pub type ByteTexts = ListOf<Bytes>;

/// A value of an entry ("Data Types"). Floats and doubles are the bit patterns of IEEE 754's binary32 and binary64.
#[derive(Drop)]
pub enum LogValue {
    /// `boolean`.
    Boolean(bool),
    /// `int64`.
    Int64(i64),
    /// `float`.
    Float(u32),
    /// `double`.
    Double(u64),
    /// `raw`, `string`, `json` and every type that isn't named here.
    Bytes(Bytes),
    /// `boolean[]`.
    Booleans(Bools),
    /// `int64[]`.
    Int64s(Ints),
    /// `float[]`.
    Floats(Floats),
    /// `double[]`.
    Doubles(Doubles),
    /// `string[]`.
    Strings(ByteTexts),
}

/// What one record says ("Records"). Times are in microseconds, ids are those of entries.
#[derive(Drop)]
pub enum LogItem {
    /// An entry begins ("Start"): its name, the type string of its values, and metadata.
    Start {
        time: u64,
        id: u32,
        name: Text,
        typ: Text,
        meta: Text,
    },
    /// An entry takes a value.
    Value {
        time: u64,
        id: u32,
        value: LogValue,
    },
    /// An entry's metadata changes ("Set Metadata").
    SetMeta {
        time: u64,
        id: u32,
        meta: Text,
    },
    /// An entry ends ("Finish").
    Finish {
        time: u64,
        id: u32,
    },
}

/// The live entries, with their types.
pub type Entries = BTreeMap<u32, LogType>;

impl LogType {
    /// The type that a type string names ("Data Types").
    pub fn named(name: &str) -> LogType
        ensures { result ≡ type_named name.now }
    {
        match name {
            "boolean" => LogType::Boolean,
            "int64" => LogType::Int64,
            "float" => LogType::Float,
            "double" => LogType::Double,
            "boolean[]" => LogType::Booleans,
            "int64[]" => LogType::Int64s,
            "float[]" => LogType::Floats,
            "double[]" => LogType::Doubles,
            "string[]" => LogType::Strings,
            _ => LogType::Other,
        }
    }

    /// A number for each type.
    pub(crate) fn number(self) -> u8
        ensures { result ≡ type_number self }
    {
        match self {
            LogType::Boolean => 0,
            LogType::Int64 => 1,
            LogType::Float => 2,
            LogType::Double => 3,
            LogType::Booleans => 4,
            LogType::Int64s => 5,
            LogType::Floats => 6,
            LogType::Doubles => 7,
            LogType::Strings => 8,
            LogType::Other => 9,
        }
    }
}

/// An equal list.
fn copy_texts(alloc: Global, texts: &[Bytes]) -> Result<ByteTexts, AllocError>
    ensures { IfOk result (λ list. list ≡ texts.now) }
{
    let mut copied = Vec::new(alloc);
    for text in texts {
        copied.push(text.copy(alloc)?)?;
    }
    Ok(ByteTexts::of_vec(copied))
}

impl LogValue {
    /// The type that the value is of.
    pub fn typ(&self) -> LogType
        ensures { result ≡ value_type self.now }
    {
        match self {
            LogValue::Boolean(_) => LogType::Boolean,
            LogValue::Int64(_) => LogType::Int64,
            LogValue::Float(_) => LogType::Float,
            LogValue::Double(_) => LogType::Double,
            LogValue::Bytes(_) => LogType::Other,
            LogValue::Booleans(_) => LogType::Booleans,
            LogValue::Int64s(_) => LogType::Int64s,
            LogValue::Floats(_) => LogType::Floats,
            LogValue::Doubles(_) => LogType::Doubles,
            LogValue::Strings(_) => LogType::Strings,
        }
    }

    fn copy(&self, alloc: Global) -> Result<LogValue, AllocError>
        ensures { IfOk result (λ value. value ≡ self.now) }
    {
        Ok(match self {
            LogValue::Boolean(truth) => LogValue::Boolean(*truth),
            LogValue::Int64(number) => LogValue::Int64(*number),
            LogValue::Float(bits) => LogValue::Float(*bits),
            LogValue::Double(bits) => LogValue::Double(*bits),
            LogValue::Bytes(bytes) => LogValue::Bytes(bytes.copy(alloc)?),
            LogValue::Booleans(list) => LogValue::Booleans(list.copy(alloc)?),
            LogValue::Int64s(list) => LogValue::Int64s(list.copy(alloc)?),
            LogValue::Floats(list) => LogValue::Floats(list.copy(alloc)?),
            LogValue::Doubles(list) => LogValue::Doubles(list.copy(alloc)?),
            LogValue::Strings(texts) => LogValue::Strings(copy_texts(alloc, texts.as_slice())?),
        })
    }
}

impl LogItem {
    /// An equal item.
    pub fn copy(&self, alloc: Global) -> Result<LogItem, AllocError>
        ensures { IfOk result (λ item. item ≡ self.now) }
    {
        Ok(match self {
            LogItem::Start {
                time,
                id,
                name,
                typ,
                meta,
            } => LogItem::Start {
                time: *time,
                id: *id,
                name: name.copy(alloc)?,
                typ: typ.copy(alloc)?,
                meta: meta.copy(alloc)?,
            },
            LogItem::Value { time, id, value } => LogItem::Value {
                time: *time,
                id: *id,
                value: value.copy(alloc)?,
            },
            LogItem::SetMeta { time, id, meta } => LogItem::SetMeta {
                time: *time,
                id: *id,
                meta: meta.copy(alloc)?,
            },
            LogItem::Finish { time, id } => LogItem::Finish {
                time: *time,
                id: *id,
            },
        })
    }
}

/// Takes an item into the live entries. For want of memory they stay as they were.
pub fn note_item(live: &mut Entries, item: &LogItem) -> Result<(), AllocError>
    ensures ok { OnOk result (live.new.entries ≡ live_after live.old.entries item.now) }
    ensures err { OnErr result (live.new.entries ≡ live.old.entries) }
{
    match item {
        LogItem::Start { id, typ, .. } => {
            live.insert(*id, LogType::named(typ.as_str()))?;
        }
        LogItem::Value { .. } | LogItem::SetMeta { .. } => {}
        LogItem::Finish { id, .. } => {
            live.remove(id);
        }
    }
    Ok(())
}
