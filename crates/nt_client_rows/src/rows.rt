//! Rows of calls on a client, and what each answers, as a line.

use nt_client::{Client, ClientFault, Taken};
use nt_link::Frame;
use nt_rules::{Change, Held};
use nt_subs::{Names, Options, Sub};
use nt_topics::{Name, Props, TopicName, TypeName};
use nt_values::{Bytes, Text, Value};
use std::alloc::{AllocError, Global};
use std::test::Fail;

/// A call on a client.
#[derive(Drop)]
pub enum Call {
    /// The uid, the name, the type and the properties.
    Publish(i64, &'static str, &'static str, &'static str),
    Unpublish(i64),
    /// The uid, the time and the number.
    SetInt(i64, u32, i64),
    SetText(i64, u32, &'static str),
    /// The uid, a name, and a letter for each option that is set: `a`, `t` and `p`.
    Subscribe(i64, &'static str, &'static str),
    Unsubscribe(i64),
    /// A text frame.
    Text(&'static str),
    /// A binary frame.
    Binary(&'static [u8]),
    Outgoing,
    Lost,
    Joined,
    Held,
}

/// A call, and the line that is wanted.
#[derive(Drop)]
pub struct Row(pub Call, pub &'static str);

/// The properties of this text.
fn props_of(alloc: Global, text: &str) -> Result<Props, Fail> {
    let tree = serde_json::Value::from_str(alloc, text)?;
    Ok(Props::of(alloc, &tree)?.ok_or("no properties")?)
}

/// A subscription to one name.
fn sub_of(alloc: Global, name: &str, options: &str) -> Result<Sub, Fail> {
    let mut names = Names::empty(alloc);
    names.push(Name::of(alloc, name)?)?;
    let options = Options {
        all: options.contains('a'),
        topicsonly: options.contains('t'),
        prefix: options.contains('p'),
    };
    Ok(Sub { names, options })
}

/// A value: a whole number, the bits of a double, or a text.
fn value_line(alloc: Global, value: &Value) -> Result<String, AllocError> {
    match value {
        Value::Int(number) => format!(in alloc; "{number}"),
        Value::Double(bits) => format!(in alloc; "{bits:016x}"),
        Value::Text(text) => String::from_str(alloc, text.as_str()),
        _ => String::from_str(alloc, "another value"),
    }
}

/// A change, with a semicolon behind it.
fn change_line(alloc: Global, change: &Change) -> Result<String, AllocError> {
    match change {
        Change::Started {
            id,
            name,
            typ,
            props,
        } => {
            let (name, typ) = (name.as_str(), typ.as_str());
            let props = props.tree().to_string(alloc)?;
            format!(in alloc; "Started {id} {name} {typ} {props};")
        }
        Change::Changed {
            id,
            name,
            time,
            value,
        } => {
            let name = name.as_str();
            let value = value_line(alloc, value)?;
            format!(in alloc; "Changed {id} {name} {time} {value};")
        }
        Change::Props { id, name, update } => {
            let name = name.as_str();
            let update = update.tree().to_string(alloc)?;
            format!(in alloc; "Props {id} {name} {update};")
        }
        Change::Ended { id, name } => {
            let name = name.as_str();
            format!(in alloc; "Ended {id} {name};")
        }
    }
}

/// What was taken: the changes, the clock's answers, and how much was ignored.
fn taken_line(alloc: Global, taken: &Taken) -> Result<String, AllocError> {
    let mut line = String::new(alloc);
    for change in taken.changes.as_slice() {
        line.push_str(change_line(alloc, change)?.as_str())?;
    }
    for answer in taken.clock.as_slice() {
        let time = answer.time;
        let value = value_line(alloc, &answer.value)?;
        line.push_str(format!(in alloc; "Clock {time} {value};")?.as_str())?;
    }
    let ignored = taken.ignored;
    line.push_str(format!(in alloc; "{ignored}")?.as_str())?;
    Ok(line)
}

/// A topic that is held.
fn topic_line(alloc: Global, topic: &Held) -> Result<String, AllocError> {
    let (id, name, typ) = (topic.id, topic.name.as_str(), topic.typ.as_str());
    let props = topic.props.tree().to_string(alloc)?;
    match &topic.value {
        Some(held) => {
            let time = held.time;
            let value = value_line(alloc, &held.value)?;
            format!(in alloc; "{id} {name} {typ} {props} {time} {value};")
        }
        None => format!(in alloc; "{id} {name} {typ} {props};"),
    }
}

/// The topics that are held.
fn held_line(alloc: Global, client: &Client) -> Result<String, AllocError> {
    let mut line = String::new(alloc);
    for topic in client.held() {
        line.push_str(topic_line(alloc, topic)?.as_str())?;
    }
    Ok(line)
}

/// A frame: its text, or its bytes in hexadecimal digits.
fn frame_line(alloc: Global, frame: &Frame) -> Result<String, AllocError> {
    match frame {
        Frame::Text(text) => String::from_str(alloc, text.as_str()),
        Frame::Binary(bytes) => {
            let mut line = String::new(alloc);
            for byte in bytes.as_bytes() {
                line.push_str(format!(in alloc; "{byte:02x}")?.as_str())?;
            }
            Ok(line)
        }
    }
}

/// The frames that go out, a line each.
fn outgoing_line(alloc: Global, client: &mut Client) -> Result<String, AllocError> {
    let mut line = String::new(alloc);
    let frames = client.outgoing(alloc)?;
    for frame in &frames {
        line.push_str(frame_line(alloc, frame)?.as_str())?;
        line.push('\n')?;
    }
    Ok(line)
}

/// Why a call was refused, or that it was done.
fn answer_line(alloc: Global, answer: Result<(), ClientFault>) -> Result<String, AllocError> {
    match answer {
        Ok(()) => String::from_str(alloc, "Done"),
        Err(fault) => format!(in alloc; "{fault:?}"),
    }
}

/// What a client is answered to a call by which it says something.
fn said(alloc: Global, client: &mut Client, call: &Call) -> Result<Result<(), ClientFault>, Fail> {
    match call {
        Call::Publish(uid, name, typ, props) => {
            let name = TopicName::of(alloc, name)?;
            let typ = TypeName::of(alloc, typ)?;
            let props = props_of(alloc, props)?;
            Ok(client.publish(alloc, *uid, name, typ, props))
        }
        Call::Unpublish(uid) => Ok(client.unpublish(alloc, *uid)),
        Call::SetInt(uid, time, number) => {
            Ok(client.set(alloc, *uid, u64::from(*time), Value::Int(*number)))
        }
        Call::SetText(uid, time, text) => {
            let value = Value::Text(Text::of(alloc, text)?);
            Ok(client.set(alloc, *uid, u64::from(*time), value))
        }
        Call::Subscribe(uid, name, options) => {
            Ok(client.subscribe(alloc, *uid, sub_of(alloc, name, options)?))
        }
        Call::Unsubscribe(uid) => Ok(client.unsubscribe(alloc, *uid)),
        _ => Err(Fail::from("nothing is said")),
    }
}

/// What a client takes from a frame.
pub fn takes(alloc: Global, client: &mut Client, frame: &Frame) -> Result<String, AllocError> {
    let taken = client.take(alloc, frame)?;
    taken_line(alloc, &taken)
}

/// What a call answers.
fn line(alloc: Global, client: &mut Client, call: &Call) -> Result<String, Fail> {
    match call {
        Call::Text(text) => {
            let frame = Frame::Text(Text::of(alloc, text)?);
            Ok(takes(alloc, client, &frame)?)
        }
        Call::Binary(bytes) => {
            let frame = Frame::Binary(Bytes::of(alloc, bytes)?);
            Ok(takes(alloc, client, &frame)?)
        }
        Call::Outgoing => Ok(outgoing_line(alloc, client)?),
        Call::Lost => {
            client.lost();
            Ok(String::from_str(alloc, "Done")?)
        }
        Call::Joined => {
            client.joined(alloc)?;
            Ok(String::from_str(alloc, "Done")?)
        }
        Call::Held => Ok(held_line(alloc, client)?),
        _ => {
            let answer = said(alloc, client, call)?;
            Ok(answer_line(alloc, answer)?)
        }
    }
}

/// The first line that isn't the wanted one, behind its row's number, or nothing.
pub fn first_other(alloc: Global, rows: &[Row]) -> Result<String, Fail> {
    let mut client = Client::new(alloc);
    for (number, row) in rows.iter().enumerate() {
        let line = line(alloc, &mut client, &row.0)?;
        if line.as_str() != row.1 {
            return Ok(format!(in alloc; "row {number}: {line}")?);
        }
    }
    Ok(String::new(alloc))
}
