//! Two workers of a hall, on one thread.

ghost use Rattle.std.specs.Prelude.{◌≡◌, ◌<◌, ◌^◌};
ghost use Rattle.nt_rules.specs.history.Step.{MayAct};
ghost use Rattle.nt_lock_rows.specs.Crowds.{IsSame};

use nt_control::ClientMsg;
use nt_frames::ValueMsg;
use nt_hall::{Hall, KeptJournal, Seat};
use nt_link::MemSink;
use nt_record::Recorder;
use nt_rules::{Act, Batch, Msg, StepOut};
use nt_server::Server;
use nt_subs::{Names, Options, Sub};
use nt_topics::{ClientName, Name, Props, TopicName, TypeName, Version};
use nt_values::Value;
use std::alloc::Global;
use std::sync::Wait;
use std::test::Fail;

/// A hall whose journal keeps its entries.
pub type KeptHall = Hall<KeptJournal, MemSink>;

/// The moment of each act but the last, in microseconds.
pub const MOMENT: u64 = 2_000_000;

/// What a hall gave as it closed.
#[derive(Drop)]
pub struct Closed {
    pub server: Server,
    pub journal: KeptJournal,
    pub recorder: Recorder<MemSink>,
    pub failed: bool,
}

/// A publish of the topic `/a`, of whole numbers, which is saved and outlives its publisher.
pub fn publication(alloc: Global) -> Result<ClientMsg, Fail> {
    let tree = serde_json::Value::from_str(alloc, r#"{"persistent":true,"retained":true}"#)?;
    Ok(ClientMsg::Publish {
        name: TopicName::of(alloc, "/a")?,
        uid: 1,
        typ: TypeName::of(alloc, "int")?,
        props: Props::of(alloc, &tree)?.ok_or("no properties")?,
    })
}

/// A subscription to all topics.
pub fn subscription(alloc: Global) -> Result<ClientMsg, Fail> {
    let mut names = Names::empty(alloc);
    names.push(Name::of(alloc, "")?)?;
    let options = Options {
        all: false,
        topicsonly: false,
        prefix: true,
    };
    Ok(ClientMsg::Subscribe {
        uid: 1,
        sub: Sub { names, options },
    })
}

/// One act at this moment.
fn answer<R: Wait>(
    rt: &R,
    alloc: Global,
    hall: &KeptHall,
    seat: &mut Seat,
    now: u64,
    act: Act,
) -> Result<StepOut, Fail>
    requires own { seat.old.lock ≡ hall.now }
    requires may { MayAct act }
    requires now { now < 2 ^ 63 }
    ensures { IsSame seat.old seat.new }
{
    Ok(hall.act(rt, alloc, seat, now, act)?)
}

/// Opens a connection of this name for the seat's worker, and says this. It gives the connection.
fn begin<R: Wait>(
    rt: &R,
    alloc: Global,
    hall: &KeptHall,
    seat: &mut Seat,
    name: &str,
    msg: ClientMsg,
) -> Result<u32, Fail>
    requires { seat.old.lock ≡ hall.now }
    ensures { IsSame seat.old seat.new }
{
    let open = Act::Open {
        name: ClientName::of(alloc, name)?,
        version: Version::V41,
    };
    let StepOut::Opened { conn, .. } = answer(rt, alloc, hall, seat, MOMENT, open)? else {
        return Err(Fail::from("not opened"));
    };
    let msg = Msg::Control(msg);
    let StepOut::Done = answer(rt, alloc, hall, seat, MOMENT, Act::Said { conn, msg })? else {
        return Err(Fail::from("not done"));
    };
    Ok(conn)
}

/// The first worker publishes and puts 5 at the time 7. The second subscribes, is handed what it is
/// owed and shuts the server.
fn speak<R: Wait>(
    rt: &R,
    alloc: Global,
    hall: &KeptHall,
    first: &mut Seat,
    second: &mut Seat,
) -> Result<Batch, Fail>
    requires first { first.old.lock ≡ hall.now }
    requires second { second.old.lock ≡ hall.now }
    ensures first { IsSame first.old first.new }
    ensures second { IsSame second.old second.new }
{
    begin(rt, alloc, hall, first, "robot", publication(alloc)?)?;
    let conn = begin(rt, alloc, hall, second, "dash", subscription(alloc)?)?;
    let msg = Msg::Put(ValueMsg {
        id: 1,
        time: 7,
        value: Value::Int(5),
    });
    answer(rt, alloc, hall, first, MOMENT, Act::Said { conn: 1, msg })?;
    let owed = hall.look(rt, second, conn);
    if owed.pending != 2 || owed.behind.is_some() || owed.shut || owed.failed {
        return Err(Fail::from("another look"));
    }
    let budget = 256;
    let StepOut::Drained(batch) = answer(
        rt,
        alloc,
        hall,
        second,
        MOMENT,
        Act::Drain { conn, budget },
    )?
    else {
        return Err(Fail::from("not drained"));
    };
    answer(rt, alloc, hall, second, MOMENT, Act::Shut)?;
    Ok(batch)
}

/// The first worker looks whether the server is shut, asks what is saved, and closes its connection at an
/// earlier moment. It gives how many topics are saved.
fn leave<R: Wait>(rt: &R, alloc: Global, hall: &KeptHall, first: &mut Seat) -> Result<u64, Fail>
    requires { first.old.lock ≡ hall.now }
    ensures { IsSame first.old first.new }
{
    let left = hall.look(rt, first, 1);
    if left.pending != 1 || left.behind.is_some() || !left.shut || left.failed {
        return Err(Fail::from("another look"));
    }
    let saved = hall.saved(rt, alloc, first)?;
    let StepOut::Closed = answer(rt, alloc, hall, first, MOMENT / 2, Act::Close { conn: 1 })? else {
        return Err(Fail::from("not closed"));
    };
    Ok(saved.len() as u64)
}

/// What a hall of two workers gave as it closed, what the second was handed, and how many topics were saved.
pub fn played<R: Wait>(rt: &R, alloc: Global) -> Result<(Closed, Batch, u64), Fail> {
    let server = Server::new(alloc, 0)?;
    let recorder = Recorder::off(MemSink::new(alloc, Vec::new(alloc)));
    let Ok((hall, mut seats)) = Hall::open(alloc, 2, server, KeptJournal::new(alloc), recorder)
    else {
        return Err(Fail::from("no memory"));
    };
    let Some(mut second) = seats.pop() else {
        return Err(Fail::from("no second seat"));
    };
    let Some(mut first) = seats.pop() else {
        return Err(Fail::from("no first seat"));
    };
    let batch = speak(rt, alloc, &hall, &mut first, &mut second)?;
    let saved = leave(rt, alloc, &hall, &mut first)?;
    let Ok(()) = seats.push(first) else {
        return Err(Fail::from("no room"));
    };
    let Ok(()) = seats.push(second) else {
        return Err(Fail::from("no room"));
    };
    let (server, journal, recorder, failed) = hall.close(seats);
    let closed = Closed {
        server,
        journal,
        recorder,
        failed,
    };
    Ok((closed, batch, saved))
}
