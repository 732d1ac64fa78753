//! Text frames of publish messages, read as control messages and as JSON alone.

use nt_control::read_client;
use serde_json::Value;
use std::alloc::{AllocError, Global};

/// How many frames there are.
const FRAMES: u16 = 100;

/// How many messages each has.
const MESSAGES: u32 = 100;

/// What came of reading.
#[derive(Clone, Copy, Debug)]
pub struct ControlSums {
    /// How many messages were read.
    pub messages: u64,
    /// How many elements were no message.
    pub ignored: u64,
}

/// The part of the robot that a topic belongs to.
fn part_of(uid: u32) -> &'static str {
    match uid % 4 {
        0 => "drive",
        1 => "arm/wrist",
        2 => "shooter/flywheel",
        _ => "vision/front camera/targets",
    }
}

/// The frame of this index. Its messages are numbered on from those of the frames before it.
fn frame(alloc: Global, index: u16) -> Result<String, AllocError> {
    let first = u32::from(index) * MESSAGES;
    let mut text = String::new(alloc);
    text.push_str("[")?;
    for i in 0..MESSAGES {
        if i > 0 {
            text.push_str(",")?;
        }
        let uid = first + i;
        let part = part_of(uid);
        write!(text, "{{\"method\":\"publish\",\"params\":{{")?;
        write!(text, "\"name\":\"/SmartDashboard/{part}/value {uid}\",")?;
        write!(text, "\"properties\":{{\"retained\":true}},")?;
        write!(text, "\"pubuid\":{uid},\"type\":\"double\"}}}}")?;
    }
    text.push_str("]")?;
    Ok(text)
}

/// The frames.
fn frames(alloc: Global) -> Result<Vec<String>, AllocError> {
    let mut frames = Vec::new(alloc);
    for index in 0..FRAMES {
        frames.push(frame(alloc, index)?)?;
    }
    Ok(frames)
}

/// Reads the frames so many times as control messages.
pub fn read_texts_often(alloc: Global, times: u64) -> Result<ControlSums, AllocError> {
    let frames = frames(alloc)?;
    let mut sums = ControlSums {
        messages: 0,
        ignored: 0,
    };
    for _ in 0..times {
        for frame in frames.as_slice() {
            let read = read_client(alloc, frame.as_bytes())?;
            sums.messages = sums.messages.wrapping_add(read.msgs.len() as u64);
            sums.ignored = sums.ignored.wrapping_add(u64::from(read.ignored));
        }
    }
    Ok(sums)
}

/// Reads the frames so many times as JSON, and tells how many were arrays, modulo 2^64.
pub fn parse_often(alloc: Global, times: u64) -> Result<u64, AllocError> {
    let frames = frames(alloc)?;
    let mut arrays: u64 = 0;
    for _ in 0..times {
        for frame in frames.as_slice() {
            if is_array(alloc, frame.as_bytes())? {
                arrays = arrays.wrapping_add(1);
            }
        }
    }
    Ok(arrays)
}

/// Whether a text is an array.
fn is_array(alloc: Global, text: &[u8]) -> Result<bool, AllocError> {
    match Value::from_slice(alloc, text) {
        Ok(tree) => Ok(tree.is_array()),
        Err(error) => if error.is_memory() {
            Err(AllocError)
        } else {
            Ok(false)
        },
    }
}
