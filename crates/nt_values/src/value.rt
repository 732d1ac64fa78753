//! The values of topics.

ghost use Rattle.std.specs.Prelude.{◌≡◌, ◌^◌, ◌-◌, ◌*◌, ◌↔◌, min, IsTrue, IfOk};
ghost use Rattle.nt_values.specs.Types.{number_of, value_number, size_of, texts_len};

use crate::{Bools, Bytes, Doubles, Floats, Ints, Text, Texts, type_number};
use std::alloc::{AllocError, Global};

/// A value of a topic (NetworkTables 4.1, "Supported Data Types"). Doubles and floats are the bit patterns of
/// IEEE 754's binary64 and binary32.
#[derive(Drop)]
pub enum Value {
    /// `boolean`.
    Bool(bool),
    /// `double`.
    Double(u64),
    /// `int`.
    Int(i64),
    /// `float`.
    Float(u32),
    /// `string` and `json`.
    Text(Text),
    /// `raw`, `rpc`, `msgpack`, `protobuf` and every type that isn't named here.
    Bytes(Bytes),
    /// `boolean[]`.
    Bools(Bools),
    /// `double[]`.
    Doubles(Doubles),
    /// `int[]`.
    Ints(Ints),
    /// `float[]`.
    Floats(Floats),
    /// `string[]`.
    Texts(Texts),
}

impl Value {
    /// The data type number of the value's variant (NetworkTables 4.1, "Supported Data Types").
    pub fn number(&self) -> u8
        ensures { result ≡ value_number self.now }
    {
        match self {
            Value::Bool(_) => 0,
            Value::Double(_) => 1,
            Value::Int(_) => 2,
            Value::Float(_) => 3,
            Value::Text(_) => 4,
            Value::Bytes(_) => 5,
            Value::Bools(_) => 16,
            Value::Doubles(_) => 17,
            Value::Ints(_) => 18,
            Value::Floats(_) => 19,
            Value::Texts(_) => 20,
        }
    }

    /// Whether the value is of this type: its number is the type string's.
    pub fn fits(&self, typ: &str) -> bool
        ensures { IsTrue result ↔ (value_number self.now ≡ number_of typ.now) }
    {
        self.number() == type_number(typ)
    }

    /// The length in bytes of the value's payload in a data log (WPILOG 1.0, "Data Types"), or the greatest number
    /// where the length passes it.
    pub fn size(&self) -> u64
        ensures { result ≡ size_of self.now }
    {
        match self {
            Value::Bool(_) => 1,
            Value::Double(_) | Value::Int(_) => 8,
            Value::Float(_) => 4,
            Value::Text(text) => text.as_str().len() as u64,
            Value::Bytes(bytes) => bytes.as_bytes().len() as u64,
            Value::Bools(list) => list.as_slice().len() as u64,
            Value::Doubles(list) => sized(list.as_slice().len(), 8),
            Value::Ints(list) => sized(list.as_slice().len(), 8),
            Value::Floats(list) => sized(list.as_slice().len(), 4),
            Value::Texts(list) => texts_size(list.as_slice()),
        }
    }

    /// An equal value.
    pub fn copy(&self, alloc: Global) -> Result<Value, AllocError>
        ensures { IfOk result (λ value. value ≡ self.now) }
    {
        Ok(match self {
            Value::Bool(truth) => Value::Bool(*truth),
            Value::Double(bits) => Value::Double(*bits),
            Value::Int(number) => Value::Int(*number),
            Value::Float(bits) => Value::Float(*bits),
            Value::Text(text) => Value::Text(text.copy(alloc)?),
            Value::Bytes(bytes) => Value::Bytes(bytes.copy(alloc)?),
            Value::Bools(list) => Value::Bools(list.copy(alloc)?),
            Value::Doubles(list) => Value::Doubles(list.copy(alloc)?),
            Value::Ints(list) => Value::Ints(list.copy(alloc)?),
            Value::Floats(list) => Value::Floats(list.copy(alloc)?),
            Value::Texts(list) => Value::Texts(list.copy(alloc)?),
        })
    }
}

// The size of so many elements of this many bytes each.
fn sized(count: usize, width: u64) -> u64
    ensures { result ≡ min (width * count) (2 ^ 64 - 1) }
{
    width.saturating_mul(count as u64)
}

// The size of a list of texts: its count, and each text after its length.
fn texts_size(texts: &[Text]) -> u64
    ensures { result ≡ min (texts_len texts.now) (2 ^ 64 - 1) }
{
    let mut size: u64 = 4;
    for text in texts {
        size = size
            .saturating_add(4)
            .saturating_add(text.as_str().len() as u64);
    }
    size
}
