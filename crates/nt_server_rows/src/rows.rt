//! Rows of acts, and what a server says to each of them, as a line.

ghost use Rattle.std.specs.Prelude.{IfOk};
ghost use Rattle.nt_rules.specs.history.Step.{MayAct};

use crate::large::{put_large, subscribe_all};
use crate::saved::{held_line, saved_lines};
use nt_control::ClientMsg;
use nt_frames::ValueMsg;
use nt_link::Frame;
use nt_rules::{Act, Batch, Change, Deed, Entry, Msg, StepOut};
use nt_server::{Server, Stepped};
use nt_session::frames_of;
use nt_subs::{Names, Options, Sub};
use nt_topics::{ClientName, Name, Props, TopicName, TypeName, Update, Version};
use nt_values::{Text, Value};
use std::alloc::{AllocError, Global};
use std::test::Fail;

/// The most bytes of a value that is put.
const MOST_SIZE: u64 = 131_072;

/// An act of a row. Connections come first, and then uids.
#[derive(Drop)]
pub enum Call {
    Open(&'static str),
    /// Name, type and properties.
    Publish(u32, i64, &'static str, &'static str, &'static str),
    Unpublish(u32, i64),
    SetProps(u32, &'static str, &'static str),
    /// Time and number.
    PutInt(u32, i64, u32, i64),
    /// Time and bits.
    PutDouble(u32, i64, u32, u64),
    /// Time and text.
    PutText(u32, i64, u32, &'static str),
    /// A name, and a letter for each option that is set: `a`, `t` and `p`.
    Subscribe(u32, i64, &'static str, &'static str),
    Unsubscribe(u32, i64),
    /// The budget.
    Drain(u32, u32),
    Close(u32),
    Permit,
    Shut,
}

/// A row, and the line that is wanted.
#[derive(Drop)]
pub enum Row {
    /// What a worker is answered at a moment, and the changes.
    Step(u32, u32, Call, &'static str),
    /// The entry that the act of a worker makes.
    Enters(u32, u32, Call, &'static str),
    /// What a connection is owed, and whether the server is shut.
    Look(u32, &'static str),
    /// Publisher 1 of connection 1 puts so many values of 131,072 bytes.
    PutsLarge(u32, &'static str),
    /// Connection 1 subscribes to nothing that there is, under so many uids from 0 on.
    Subscribes(u32, &'static str),
    /// The id, the time and the value of a topic.
    Holds(&'static str, &'static str),
    /// The topics that are saved.
    Saves(&'static str),
}

/// The properties of this text.
pub fn props_of(alloc: Global, text: &str) -> Result<Props, Fail> {
    let tree = serde_json::Value::from_str(alloc, text)?;
    Ok(Props::of(alloc, &tree)?.ok_or("no properties")?)
}

/// The update of this text.
fn update_of(alloc: Global, text: &str) -> Result<Update, Fail> {
    let tree = serde_json::Value::from_str(alloc, text)?;
    Ok(Update::of(alloc, &tree)?.ok_or("no update")?)
}

/// A subscription to one name.
fn sub_of(alloc: Global, name: &str, options: &str) -> Result<Sub, Fail> {
    let mut names = Names::empty(alloc);
    names.push(Name::of(alloc, name)?)?;
    let options = Options {
        all: options.contains('a'),
        topicsonly: options.contains('t'),
        prefix: options.contains('p'),
    };
    Ok(Sub { names, options })
}

/// A control message.
fn control(conn: u32, msg: ClientMsg) -> Act
    ensures { MayAct result }
{
    Act::Said {
        conn,
        msg: Msg::Control(msg),
    }
}

/// A publish.
fn publish(
    alloc: Global,
    conn: u32,
    uid: i64,
    name: &str,
    typ: &str,
    props: Props,
) -> Result<Act, Fail>
    ensures { IfOk result MayAct }
{
    let name = TopicName::of(alloc, name)?;
    let typ = TypeName::of(alloc, typ)?;
    Ok(control(
        conn,
        ClientMsg::Publish {
            name,
            uid,
            typ,
            props,
        },
    ))
}

/// A value that is put.
pub fn put(conn: u32, uid: i64, time: u32, value: Value) -> Result<Act, Fail>
    ensures { IfOk result MayAct }
{
    if value.size() > MOST_SIZE {
        return Err(Fail::from("a value too large"));
    }
    let msg = ValueMsg {
        id: uid,
        time: u64::from(time),
        value,
    };
    Ok(Act::Said {
        conn,
        msg: Msg::Put(msg),
    })
}

/// A change of subscriptions or properties.
fn control_of(alloc: Global, call: &Call) -> Result<Act, Fail>
    ensures { IfOk result MayAct }
{
    match call {
        Call::Unpublish(conn, uid) => Ok(control(*conn, ClientMsg::Unpublish { uid: *uid })),
        Call::SetProps(conn, name, update) => {
            let name = TopicName::of(alloc, name)?;
            let update = update_of(alloc, update)?;
            Ok(control(*conn, ClientMsg::SetProps { name, update }))
        }
        Call::Subscribe(conn, uid, name, options) => {
            let sub = sub_of(alloc, name, options)?;
            Ok(control(*conn, ClientMsg::Subscribe { uid: *uid, sub }))
        }
        Call::Unsubscribe(conn, uid) => Ok(control(*conn, ClientMsg::Unsubscribe { uid: *uid })),
        _ => Err(Fail::from("no control message")),
    }
}

/// The act of a row.
pub fn act_of(alloc: Global, call: &Call) -> Result<Act, Fail>
    ensures { IfOk result MayAct }
{
    match call {
        Call::Open(name) => {
            let name = ClientName::of(alloc, name)?;
            Ok(Act::Open {
                name,
                version: Version::V41,
            })
        }
        Call::Publish(conn, uid, name, typ, props) => {
            publish(alloc, *conn, *uid, name, typ, props_of(alloc, props)?)
        }
        Call::PutInt(conn, uid, time, number) => put(*conn, *uid, *time, Value::Int(*number)),
        Call::PutDouble(conn, uid, time, bits) => put(*conn, *uid, *time, Value::Double(*bits)),
        Call::PutText(conn, uid, time, text) => {
            put(*conn, *uid, *time, Value::Text(Text::of(alloc, text)?))
        }
        Call::Drain(conn, budget) => Ok(Act::Drain {
            conn: *conn,
            budget: (*budget).max(1),
        }),
        Call::Close(conn) => Ok(Act::Close { conn: *conn }),
        Call::Permit => Ok(Act::Permit),
        Call::Shut => Ok(Act::Shut),
        _ => control_of(alloc, call),
    }
}

/// A frame: its text, or its bytes in hexadecimal digits.
fn frame_line(alloc: Global, frame: &Frame) -> Result<String, AllocError> {
    match frame {
        Frame::Text(text) => String::from_str(alloc, text.as_str()),
        Frame::Binary(bytes) => {
            let mut line = String::new(alloc);
            for byte in bytes.as_bytes() {
                line.push_str(format!(in alloc; "{byte:02x}")?.as_str())?;
            }
            Ok(line)
        }
    }
}

/// The frames of a batch, with a blank before each.
fn batch_line(alloc: Global, batch: &Batch) -> Result<String, AllocError> {
    let frames = frames_of(alloc, batch)?;
    let mut line = String::new(alloc);
    for frame in &frames {
        line.push(' ')?;
        line.push_str(frame_line(alloc, frame)?.as_str())?;
    }
    Ok(line)
}

/// A change, with a blank before it.
fn change_line(alloc: Global, change: &Change) -> Result<String, AllocError> {
    match change {
        Change::Started { id, name, typ, .. } => {
            let (name, typ) = (name.as_str(), typ.as_str());
            format!(in alloc; " Started {id} {name} {typ}")
        }
        Change::Changed { id, name, time, .. } => {
            let name = name.as_str();
            format!(in alloc; " Changed {id} {name} {time}")
        }
        Change::Props { id, name, .. } => {
            let name = name.as_str();
            format!(in alloc; " Props {id} {name}")
        }
        Change::Ended { id, name } => {
            let name = name.as_str();
            format!(in alloc; " Ended {id} {name}")
        }
    }
}

/// What the server answered.
fn out_line(alloc: Global, out: &StepOut) -> Result<String, AllocError> {
    match out {
        StepOut::Opened { conn, name } => {
            let name = name.as_str();
            format!(in alloc; "Opened {conn} {name}")
        }
        StepOut::Done => String::from_str(alloc, "Done"),
        StepOut::Ignored(cause) => format!(in alloc; "{cause:?}"),
        StepOut::Drained(batch) => {
            let batch = batch_line(alloc, batch)?;
            format!(in alloc; "Drained{batch}")
        }
        StepOut::Closed => String::from_str(alloc, "Closed"),
        StepOut::Permitted => String::from_str(alloc, "Permitted"),
        StepOut::NoPermit => String::from_str(alloc, "NoPermit"),
        StepOut::Shut => String::from_str(alloc, "Shut"),
    }
}

/// What the server answered, and the changes.
fn stepped_line(alloc: Global, stepped: &Stepped) -> Result<String, AllocError> {
    let mut line = out_line(alloc, &stepped.out)?;
    for change in stepped.changes.as_slice() {
        line.push_str(change_line(alloc, change)?.as_str())?;
    }
    Ok(line)
}

/// What a worker is answered to an act, and the changes.
pub fn answer(
    alloc: Global,
    server: &mut Server,
    worker: u32,
    now: u32,
    act: Act,
) -> Result<String, AllocError>
    requires { MayAct act }
{
    let stepped = server.step(alloc, worker, u64::from(now), act)?;
    let line = stepped_line(alloc, &stepped);
    drop(stepped);
    line
}

/// What an entry tells.
fn deed_line(alloc: Global, deed: &Deed) -> Result<String, AllocError> {
    match deed {
        Deed::Opened(name) => {
            let name = name.as_str();
            format!(in alloc; "Opened {name}")
        }
        Deed::NotOpened => String::from_str(alloc, "NotOpened"),
        Deed::Said(Msg::Control(_)) => String::from_str(alloc, "Said"),
        Deed::Said(Msg::Put(msg)) => {
            let (id, time) = (msg.id, msg.time);
            format!(in alloc; "Said {id} {time}")
        }
        Deed::Drained(batch) => {
            let batch = batch_line(alloc, batch)?;
            format!(in alloc; "Drained{batch}")
        }
        Deed::Closed => String::from_str(alloc, "Closed"),
        Deed::Permitted => String::from_str(alloc, "Permitted"),
        Deed::NoPermit => String::from_str(alloc, "NoPermit"),
        Deed::Shut => String::from_str(alloc, "Shut"),
    }
}

/// An entry: its worker, its connection, its moment and what it tells.
fn entry_line(alloc: Global, entry: &Entry) -> Result<String, AllocError> {
    let (worker, conn, now) = (entry.worker, entry.conn, entry.now);
    let deed = deed_line(alloc, &entry.deed)?;
    format!(in alloc; "{worker} {conn} {now} {deed}")
}

/// The entry that the act of a worker makes.
fn entered(
    alloc: Global,
    server: &mut Server,
    worker: u32,
    now: u32,
    act: Act,
) -> Result<String, AllocError>
    requires { MayAct act }
{
    let stepped = server.step(alloc, worker, u64::from(now), act)?;
    let line = entry_line(alloc, &stepped.entry);
    drop(stepped);
    line
}

/// How many messages a connection is owed, what is queued for it, with what it fell behind, and
/// whether the server is shut.
fn look_line(alloc: Global, server: &Server, conn: u32) -> Result<String, AllocError> {
    let (pending, queued) = (server.pending(conn), server.queued(conn));
    let (behind, shut) = (server.is_behind(conn), server.is_shut());
    format!(in alloc; "{pending} {queued} {behind:?} {shut}")
}

/// What the server says to a row.
fn said(alloc: Global, server: &mut Server, row: &Row) -> Result<String, Fail> {
    match row {
        Row::Step(worker, now, call, _) => {
            let act = act_of(alloc, call)?;
            Ok(answer(alloc, server, *worker, *now, act)?)
        }
        Row::Enters(worker, now, call, _) => {
            let act = act_of(alloc, call)?;
            Ok(entered(alloc, server, *worker, *now, act)?)
        }
        Row::Look(conn, _) => Ok(look_line(alloc, server, *conn)?),
        Row::PutsLarge(count, _) => put_large(alloc, server, *count),
        Row::Subscribes(count, _) => subscribe_all(alloc, server, *count),
        Row::Holds(name, _) => held_line(alloc, server, name),
        Row::Saves(_) => Ok(saved_lines(alloc, &server.saved(alloc)?)?),
    }
}

/// The line that is wanted of a row.
fn wanted(row: &Row) -> &'static str {
    match row {
        Row::Step(_, _, _, wanted)
        | Row::Enters(_, _, _, wanted)
        | Row::Look(_, wanted)
        | Row::PutsLarge(_, wanted)
        | Row::Subscribes(_, wanted)
        | Row::Holds(_, wanted)
        | Row::Saves(wanted) => wanted,
    }
}

/// Runs the rows on this server: the first line that isn't the wanted one, behind its row's number,
/// or nothing.
pub fn first_other(alloc: Global, mut server: Server, rows: &[Row]) -> Result<String, Fail> {
    for (number, row) in rows.iter().enumerate() {
        let line = said(alloc, &mut server, row)?;
        if line.as_str() != wanted(row) {
            return Ok(format!(in alloc; "row {number}: {line}")?);
        }
    }
    Ok(String::new(alloc))
}
