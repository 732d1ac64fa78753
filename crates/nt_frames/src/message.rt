//! Messages, and what reading a frame gives.

ghost use Rattle.std.specs.Prelude.{◌≡◌, IfOk};

use nt_values::Value;
use std::alloc::{AllocError, Global};

/// A message of a frame (NetworkTables 4.1, binary frames): a value of a topic. The id is that of
/// the topic or of its publisher, and the time is in microseconds.
#[derive(Drop)]
pub struct ValueMsg {
    pub id: i64,
    pub time: u64,
    pub value: Value,
}

impl ValueMsg {
    /// An equal message.
    pub fn copy(&self, alloc: Global) -> Result<ValueMsg, AllocError>
        ensures { IfOk result (λ message. message ≡ self.now) }
    {
        Ok(ValueMsg {
            id: self.id,
            time: self.time,
            value: self.value.copy(alloc)?,
        })
    }
}

/// What is wrong with a message.
#[derive(Clone, Copy, Debug, PartialEq, Eq)]
pub enum FrameKind {
    /// The bytes end before the message does.
    Short,
    /// It doesn't begin as an array of four.
    NotArray4,
    /// Its id is no whole number of 64 bits with a sign.
    BadId,
    /// Its timestamp is no whole number from 0 to 2^63 - 1.
    BadTime,
    /// Its data type number is none that is known.
    BadType,
    /// Its value isn't of its data type.
    BadValue,
    /// It is whole, and its value's size passes the limit.
    TooLarge,
}

/// A fault of a frame, and its offset: how many bytes stand before the message that is at fault.
#[derive(Clone, Copy, Debug, PartialEq, Eq)]
pub struct FrameFault {
    pub at: u64,
    pub kind: FrameKind,
}

/// What a frame was read as: its messages up to the first fault, and that fault.
#[derive(Drop)]
pub struct FrameRead {
    pub messages: Vec<ValueMsg>,
    pub fault: Option<FrameFault>,
}
