//! Rows of frames: of messages and values, the frames into which they are laid.

use nt_control::ServerMsg;
use nt_frames::{ValueMsg, read_frame};
use nt_link::Frame;
use nt_rules::Batch;
use nt_session::{clock_answer, frames_of};
use nt_topics::Name;
use nt_values::{Bytes, ListOf, Value};
use std::alloc::{AllocError, Global};
use std::test::Fail;

/// The most bytes of a value that is read.
const MOST: u64 = 131_072;

/// A frame, as its text or its hexadecimal digits.
fn line(alloc: Global, frame: &Frame) -> Result<String, AllocError> {
    match frame {
        Frame::Text(text) => String::from_str(alloc, text.as_str()),
        Frame::Binary(bytes) => {
            let mut line = String::from_str(alloc, "hex")?;
            for byte in bytes.as_bytes() {
                line.push_str(format!(in alloc; " {byte:02x}")?.as_str())?;
            }
            Ok(line)
        }
    }
}

/// Frames, a line each.
fn lines(alloc: Global, frames: &[Frame]) -> Result<String, AllocError> {
    let mut text = String::new(alloc);
    for frame in frames {
        text.push_str(line(alloc, frame)?.as_str())?;
        text.push('\n')?;
    }
    Ok(text)
}

/// How many bytes each binary frame has.
fn lengths(alloc: Global, frames: &[Frame]) -> Result<String, AllocError> {
    let mut text = String::new(alloc);
    for frame in frames {
        if let Frame::Binary(bytes) = frame {
            let length = bytes.as_bytes().len();
            text.push_str(format!(in alloc; "{length};")?.as_str())?;
        }
    }
    Ok(text)
}

/// How many bytes each frame of these values has.
fn value_lengths(alloc: Global, values: Vec<ValueMsg>) -> Result<String, AllocError> {
    let batch = Batch {
        texts: ListOf::empty(alloc),
        values: ListOf::of_vec(values),
    };
    lengths(alloc, &frames_of(alloc, &batch)?)
}

/// The answer at moment 2,000,000 to each question that a frame asks.
fn answers(alloc: Global, bytes: &[u8]) -> Result<String, AllocError> {
    let read = read_frame(alloc, bytes, MOST)?;
    let mut text = String::new(alloc);
    for question in &read.messages {
        let answer = clock_answer(alloc, question, 2_000_000)?;
        text.push_str(line(alloc, &answer)?.as_str())?;
        text.push('\n')?;
    }
    Ok(text)
}

#[test]
fn the_clock_answers_with_its_time_and_the_value(rt: HostRuntime) -> Result<(), Fail> {
    let alloc = rt.alloc();
    let questions = [
        0x94, 0xff, 0x00, 0x02, 0xce, 0x00, 0x0f, 0x42, 0x40, 0x94, 0xff, 0x00, 0x01, 0x02,
    ];
    let told = answers(alloc, &questions)?;
    let expected = "hex 94 ff ce 00 1e 84 80 02 ce 00 0f 42 40
hex 94 ff ce 00 1e 84 80 01 cb 40 00 00 00 00 00 00 00
";
    assert_eq!(rt; told.as_str(), expected);
    Ok(())
}

/// A message of a whole number.
fn number(id: i64, number: i64) -> ValueMsg {
    ValueMsg {
        id,
        time: 10,
        value: Value::Int(number),
    }
}

#[test]
fn texts_go_before_values(rt: HostRuntime) -> Result<(), Fail> {
    let alloc = rt.alloc();
    let name = Name::of(alloc, "/a")?;
    let texts = vec![in alloc; ServerMsg::Unannounce { name, id: 1 }]?;
    let values = vec![in alloc; number(2, 7), number(3, -1)]?;
    let none = lines(alloc, &frames_of(alloc, &Batch::empty(alloc))?)?;
    let both = Batch {
        texts: ListOf::of_vec(texts),
        values: ListOf::of_vec(values),
    };
    let both = lines(alloc, &frames_of(alloc, &both)?)?;
    let told = format!(in alloc; "{none}{both}")?;
    let expected = r#"[{"method":"unannounce","params":{"id":1,"name":"/a"}}]
hex 94 02 0a 02 07 94 03 0a 02 ff
"#;
    assert_eq!(rt; told.as_str(), expected);
    Ok(())
}

/// A message of so many bytes, spelled in 7 more from 256 to 65,535 of them, and then in 9 more.
fn raw(alloc: Global, length: usize) -> Result<ValueMsg, AllocError> {
    let mut bytes = Vec::new(alloc);
    for _ in 0..length {
        bytes.push(0)?;
    }
    Ok(ValueMsg {
        id: 1,
        time: 10,
        value: Value::Bytes(Bytes::of_vec(bytes)),
    })
}

#[test]
fn values_are_joined_up_to_65536_bytes(rt: HostRuntime) -> Result<(), Fail> {
    let alloc = rt.alloc();
    let most = vec![in alloc; raw(alloc, 32_761)?, raw(alloc, 32_761)?]?;
    let more = vec![in alloc; raw(alloc, 32_761)?, raw(alloc, 32_762)?]?;
    let large = vec![in alloc; number(1, 7), raw(alloc, 65_537)?, number(1, 7)]?;
    let most = value_lengths(alloc, most)?;
    let more = value_lengths(alloc, more)?;
    let large = value_lengths(alloc, large)?;
    let told = format!(in alloc; "{most} {more} {large}")?;
    assert_eq!(rt; told.as_str(), "65536; 32768;32769; 5;65546;5;");
    Ok(())
}
