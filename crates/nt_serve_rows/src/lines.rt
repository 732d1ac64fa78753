//! What comes out, in lines.

use nt_hall::KeptJournal;
use nt_link::Frame;
use nt_rules::{Deed, Entry, Msg, Topic};
use nt_serve::{Served, ServedEnd};
use nt_server::Server;
use nt_values::Value;
use std::alloc::{AllocError, Global};
use std::test::Fail;

/// A frame: its text, or its hexadecimal digits.
fn frame_line(alloc: Global, frame: &Frame) -> Result<String, AllocError> {
    match frame {
        Frame::Text(text) => String::from_str(alloc, text.as_str()),
        Frame::Binary(bytes) => {
            let mut line = String::from_str(alloc, "hex")?;
            for byte in bytes.as_bytes() {
                line.push_str(format!(in alloc; " {byte:02x}")?.as_str())?;
            }
            Ok(line)
        }
    }
}

/// Why a connection is served no longer.
fn end_line(alloc: Global, end: ServedEnd) -> Result<String, AllocError> {
    match end {
        ServedEnd::Ended => String::from_str(alloc, "Ended"),
        ServedEnd::LinkFault => String::from_str(alloc, "LinkFault"),
        ServedEnd::Behind(weight) => format!(in alloc; "Behind({weight})"),
        ServedEnd::Shut => String::from_str(alloc, "Shut"),
        ServedEnd::NotOpened => String::from_str(alloc, "NotOpened"),
        ServedEnd::Memory => String::from_str(alloc, "Memory"),
    }
}

/// What serving a connection came to: its number, the end and how much was ignored; and a line for each frame that was
/// sent.
pub fn served_lines(alloc: Global, served: &Served, sent: &[Frame]) -> Result<String, AllocError> {
    let (conn, ignored) = (served.conn, served.ignored);
    let end = end_line(alloc, served.end)?;
    let mut lines = format!(in alloc; "{conn} {end}, ignored {ignored}\n")?;
    for frame in sent {
        lines.push_str(frame_line(alloc, frame)?.as_str())?;
        lines.push('\n')?;
    }
    Ok(lines)
}

/// A value: a whole number, the bits of a double, or how large it is.
fn value_line(alloc: Global, value: &Value) -> Result<String, AllocError> {
    match value {
        Value::Int(number) => format!(in alloc; "{number}"),
        Value::Double(bits) => format!(in alloc; "{bits:016x}"),
        _ => {
            let size = value.size();
            format!(in alloc; "size {size}")
        }
    }
}

/// What a connection said: the uid, the time and the value of a put.
fn said_line(alloc: Global, msg: &Msg) -> Result<String, AllocError> {
    match msg {
        Msg::Control(_) => String::from_str(alloc, "Said"),
        Msg::Put(put) => {
            let (uid, time) = (put.id, put.time);
            let value = value_line(alloc, &put.value)?;
            format!(in alloc; "Put {uid} {time} {value}")
        }
    }
}

/// What an entry tells: of a drain, how many control messages and values were handed.
fn deed_line(alloc: Global, deed: &Deed) -> Result<String, AllocError> {
    match deed {
        Deed::Opened(name) => {
            let name = name.as_str();
            format!(in alloc; "Opened {name}")
        }
        Deed::NotOpened => String::from_str(alloc, "NotOpened"),
        Deed::Said(msg) => said_line(alloc, msg),
        Deed::Drained(batch) => {
            let (texts, values) = (batch.texts.as_slice().len(), batch.values.as_slice().len());
            format!(in alloc; "Drained {texts} {values}")
        }
        Deed::Closed => String::from_str(alloc, "Closed"),
        Deed::Permitted => String::from_str(alloc, "Permitted"),
        Deed::NoPermit => String::from_str(alloc, "NoPermit"),
        Deed::Shut => String::from_str(alloc, "Shut"),
    }
}

/// An entry: its worker, its connection, its moment and what it tells.
fn entry_line(alloc: Global, entry: &Entry) -> Result<String, AllocError> {
    let (worker, conn, now) = (entry.worker, entry.conn, entry.now);
    let deed = deed_line(alloc, &entry.deed)?;
    format!(in alloc; "{worker} {conn} {now} {deed}\n")
}

/// A line for each entry of the journal.
pub fn entry_lines(alloc: Global, journal: &KeptJournal) -> Result<String, Fail> {
    let mut lines = String::new(alloc);
    for entry in journal.told().ok_or("no entries are told")? {
        lines.push_str(entry_line(alloc, entry)?.as_str())?;
    }
    Ok(lines)
}

/// A topic: its id, its name, its type, and the time and the value that it holds.
fn topic_line(alloc: Global, topic: &Topic) -> Result<String, AllocError> {
    let (id, name, typ) = (topic.id, topic.name.as_str(), topic.typ.as_str());
    match &topic.value {
        Some(held) => {
            let time = held.time;
            let value = value_line(alloc, &held.value)?;
            format!(in alloc; "{id} {name} {typ} {time} {value}\n")
        }
        None => format!(in alloc; "{id} {name} {typ}\n"),
    }
}

/// A line for each living topic.
pub fn topic_lines(alloc: Global, server: &Server) -> Result<String, AllocError> {
    let table = server.table();
    let mut lines = String::new(alloc);
    for i in 0..table.len() {
        lines.push_str(topic_line(alloc, table.at(i))?.as_str())?;
    }
    Ok(lines)
}
