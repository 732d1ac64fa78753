//! Acts of connections.

ghost use Rattle.std.specs.Prelude.{IfOk};
ghost use Rattle.nt_rules.specs.history.Step.{MayAct};

use nt_control::ClientMsg;
use nt_frames::ValueMsg;
use nt_rules::{Act, Msg, StepOut};
use nt_server::Server;
use nt_subs::{Names, Options, Sub};
use nt_topics::{ClientName, Name, NameFault, Props, TopicName, TypeName, Version};
use nt_values::Value;
use std::alloc::{AllocError, Global};

/// The worker of all connections, and the moment of all acts.
const WORKER: u32 = 1;

const NOW: u64 = 0;

/// Want of memory, since the names are as they must be.
fn memory(_fault: NameFault) -> AllocError {
    AllocError
}

/// Opens a connection.
pub fn open(alloc: Global, server: &mut Server) -> Result<u32, AllocError> {
    let name = ClientName::of(alloc, "client").map_err(memory)?;
    let version = Version::V41;
    let stepped = server.step(alloc, WORKER, NOW, Act::Open { name, version })?;
    Ok(match &stepped.out {
        StepOut::Opened { conn, .. } => *conn,
        _ => 0,
    })
}

/// A connection says a control message.
fn say(alloc: Global, server: &mut Server, conn: u32, msg: ClientMsg) -> Result<(), AllocError> {
    let msg = Msg::Control(msg);
    drop(server.step(alloc, WORKER, NOW, Act::Said { conn, msg })?);
    Ok(())
}

/// A connection publishes a topic of whole numbers.
pub fn publish(alloc: Global, server: &mut Server, conn: u32, uid: u32) -> Result<(), AllocError> {
    let name = format!(in alloc; "/SmartDashboard/drive/value {uid}")?;
    let msg = ClientMsg::Publish {
        name: TopicName::of(alloc, name.as_str()).map_err(memory)?,
        uid: i64::from(uid),
        typ: TypeName::of(alloc, "int").map_err(memory)?,
        props: Props::empty(alloc),
    };
    say(alloc, server, conn, msg)
}

/// A connection publishes it no longer.
pub fn unpublish(
    alloc: Global,
    server: &mut Server,
    conn: u32,
    uid: u32,
) -> Result<(), AllocError> {
    say(
        alloc,
        server,
        conn,
        ClientMsg::Unpublish {
            uid: i64::from(uid),
        },
    )
}

/// A connection subscribes to the names that begin with this one.
pub fn subscribe(
    alloc: Global,
    server: &mut Server,
    conn: u32,
    prefix: &str,
) -> Result<(), AllocError> {
    let mut names = Names::empty(alloc);
    names.push(Name::of(alloc, prefix)?)?;
    let options = Options {
        all: false,
        topicsonly: false,
        prefix: true,
    };
    let sub = Sub { names, options };
    say(alloc, server, conn, ClientMsg::Subscribe { uid: 1, sub })
}

/// A connection puts a number to the topic that it publishes under a uid.
pub fn put(
    alloc: Global,
    server: &mut Server,
    conn: u32,
    uid: u32,
    time: u32,
) -> Result<(), AllocError> {
    let msg = Msg::Put(ValueMsg {
        id: i64::from(uid),
        time: u64::from(time),
        value: Value::Int(i64::from(time)),
    });
    drop(server.step(alloc, WORKER, NOW, Act::Said { conn, msg })?);
    Ok(())
}

/// Hands a connection what it is owed, and says how many values that were.
pub fn drain(alloc: Global, server: &mut Server, conn: u32) -> Result<u64, AllocError> {
    let stepped = server.step(alloc, WORKER, NOW, Act::Drain { conn, budget: 256 })?;
    Ok(match &stepped.out {
        StepOut::Drained(batch) => batch.values.as_slice().len() as u64,
        _ => 0,
    })
}

/// Closes a connection.
pub fn close(alloc: Global, server: &mut Server, conn: u32) -> Result<(), AllocError> {
    drop(server.step(alloc, WORKER, NOW, Act::Close { conn })?);
    Ok(())
}
