//! Value frames: one of some 64 KiB, read and written.

use nt_frames::{ValueMsg, read_frame, write_frame};
use nt_values::Value;
use std::alloc::{AllocError, Global};

/// How many messages fill 64 KiB. The frame has 65,526 bytes.
const MESSAGES: u32 = 3702;

/// How many topics they go round. So an id is spelled by one, two or three bytes.
const TOPICS: u64 = 300;

/// The greatest size that is taken of a value, in bytes.
const MOST: u64 = 1 << 20;

/// What came of reading.
#[derive(Clone, Copy, Debug)]
pub struct ReadSums {
    /// How many messages were read.
    pub messages: u64,
    /// The sum of their ids, times and bits, modulo 2^64.
    pub checksum: u64,
}

/// A double of a topic. The bits of the doubles are spread over all patterns, and the times are
/// spelled by five bytes.
fn message(index: u32) -> ValueMsg {
    let index = u64::from(index);
    ValueMsg {
        id: (index % TOPICS) as i64,
        time: 1_000_000 + 20 * index,
        value: Value::Double(index.wrapping_mul(0x9e37_79b9_7f4a_7c15)),
    }
}

/// The messages of the frame.
fn messages(alloc: Global) -> Result<Vec<ValueMsg>, AllocError> {
    let mut messages = Vec::new(alloc);
    for index in 0..MESSAGES {
        messages.push(message(index))?;
    }
    Ok(messages)
}

/// The sum of a message's id, time and bits, modulo 2^64.
fn sum_of(message: &ValueMsg) -> u64 {
    let bits = match message.value {
        Value::Double(bits) => bits,
        _ => 0,
    };
    message
        .id
        .cast_unsigned()
        .wrapping_add(message.time)
        .wrapping_add(bits)
}

/// Reads the frame so many times.
pub fn read_often(alloc: Global, times: u64) -> Result<ReadSums, AllocError> {
    let frame = write_frame(alloc, messages(alloc)?.as_slice())?;
    let mut sums = ReadSums {
        messages: 0,
        checksum: 0,
    };
    for _ in 0..times {
        let read = read_frame(alloc, frame.as_bytes(), MOST)?;
        for message in read.messages.as_slice() {
            sums.messages = sums.messages.wrapping_add(1);
            sums.checksum = sums.checksum.wrapping_add(sum_of(message));
        }
    }
    Ok(sums)
}

/// Writes the frame so many times, and tells how many bytes were written, modulo 2^64.
pub fn write_often(alloc: Global, times: u64) -> Result<u64, AllocError> {
    let messages = messages(alloc)?;
    let mut bytes: u64 = 0;
    for _ in 0..times {
        let frame = write_frame(alloc, messages.as_slice())?;
        bytes = bytes.wrapping_add(frame.as_bytes().len() as u64);
    }
    Ok(bytes)
}
