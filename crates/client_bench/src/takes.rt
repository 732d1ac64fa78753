//! The frames of a server that tells of topics and their values, and a client that takes them.

use nt_client::{Client, Taken};
use nt_frames::{ValueMsg, write_frame};
use nt_link::Frame;
use nt_rules::Change;
use nt_values::{Text, Value};
use std::alloc::{AllocError, Global};

/// How many values a frame has.
const VALUES: u32 = 4_000;

/// How far each value's topic is behind that of the value before it.
const STEP: u64 = 7_919;

/// What came of the frames.
#[derive(Clone, Copy, Debug)]
pub struct Sums {
    /// How many values were taken.
    pub taken: u64,
    /// The sum of the ids, times and bits that were told, modulo 2^64.
    pub checksum: u64,
}

/// A frame that announces a topic for each id below this one.
fn announces(alloc: Global, topics: u32) -> Result<Frame, AllocError> {
    let mut text = String::from_str(alloc, "[")?;
    for id in 0..topics {
        if id > 0 {
            text.push_str(",")?;
        }
        write!(text, "{{\"method\":\"announce\",\"params\":{{\"id\":{id},")?;
        write!(text, "\"name\":\"/SmartDashboard/drive/value {id}\",")?;
        write!(text, "\"properties\":{{}},\"type\":\"double\"}}}}")?;
    }
    text.push_str("]")?;
    Ok(Frame::Text(Text::of_string(text)))
}

/// A frame of values of these topics, with times that rise.
fn values(alloc: Global, topics: u32) -> Result<Frame, AllocError> {
    let count = u64::from(topics.max(1));
    let mut messages = Vec::new(alloc);
    for index in 0..VALUES {
        let index = u64::from(index);
        messages.push(ValueMsg {
            id: (index.wrapping_mul(STEP) % count) as i64,
            time: 1_000_000 + 20 * index,
            value: Value::Double(index.wrapping_mul(0x9e37_79b9_7f4a_7c15)),
        })?;
    }
    Ok(Frame::Binary(write_frame(alloc, messages.as_slice())?))
}

/// Adds what was taken to the sums.
fn add(sums: &mut Sums, taken: &Taken) {
    for change in taken.changes.as_slice() {
        if let Change::Changed {
            id,
            time,
            value: Value::Double(bits),
            ..
        } = change
        {
            sums.taken = sums.taken.wrapping_add(1);
            let sum = id.cast_unsigned().wrapping_add(*time).wrapping_add(*bits);
            sums.checksum = sums.checksum.wrapping_add(sum);
        }
    }
}

/// Is told of so many topics, and takes a frame of their values so many times.
pub fn take_often(alloc: Global, topics: u32, frames: u64) -> Result<Sums, AllocError> {
    let mut client = Client::new(alloc);
    let _told = client.take(alloc, &announces(alloc, topics)?)?;
    let frame = values(alloc, topics)?;
    let mut sums = Sums {
        taken: 0,
        checksum: 0,
    };
    for _ in 0..frames {
        let taken = client.take(alloc, &frame)?;
        add(&mut sums, &taken);
    }
    Ok(sums)
}
