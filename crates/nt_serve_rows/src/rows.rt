//! Rows: what two workers of one hall do, one after the other, on one thread.

ghost use Rattle.std.specs.Prelude.{◌≡◌, IfOk};
ghost use Rattle.nt_rules.specs.history.Step.{MayAct};
ghost use Rattle.nt_lock_rows.specs.Crowds.{IsSame};

use crate::lines::{entry_lines, served_lines, topic_lines};
use nt_control::read_client;
use nt_frames::ValueMsg;
use nt_hall::{Hall, KeptJournal, Seat};
use nt_link::{Frame, MemSink};
use nt_record::Recorder;
use nt_rules::{Act, Msg};
use nt_serve::serve_connection;
use nt_server::Server;
use nt_topics::{ClientName, Version};
use nt_values::{Bytes, Text, Value};
use nt_wire::{MemClock, MemLink};
use std::alloc::{AllocError, Global};
use std::sync::Wait;
use std::test::Fail;

/// A hall whose journal keeps its entries.
pub type KeptHall = Hall<KeptJournal, MemSink>;

/// What a hall gave as it closed.
#[derive(Drop)]
pub struct Closed {
    pub server: Server,
    pub journal: KeptJournal,
    pub recorder: Recorder<MemSink>,
    pub failed: bool,
}

/// A frame that comes.
#[derive(Drop)]
pub enum Came {
    Text(&'static str),
    Binary(&'static [u8]),
}

/// A connection that is served: its name, the frames that come, the calls of its link that fail and those at which
/// nothing comes, by their numbers, and the moments that its clock says.
#[derive(Drop)]
pub struct Session {
    pub name: &'static str,
    pub frames: &'static [Came],
    pub failing_recvs: &'static [u64],
    pub failing_sends: &'static [u64],
    pub quiet_recvs: &'static [u64],
    pub moments: &'static [u64],
}

/// What is done.
#[derive(Drop)]
pub enum Row {
    /// The first worker opens a connection of this name.
    Opens(&'static str),
    /// Connection 1 says the one message of a text frame.
    Says(&'static str),
    /// Connection 1 puts the double of these bits under publisher 1 at time 1,000,000.
    Puts(u64),
    /// The first worker asks for a permit.
    Permits,
    /// The first worker shuts the server.
    Shuts,
    /// The second worker serves a connection.
    Serves(Session),
}

/// Rows over one server with so many permits, and the lines that are wanted: of each connection that is served its
/// number, the end and how much was ignored, and the frames that were sent; then the entries; then the topics that live.
#[derive(Drop)]
pub struct Run {
    pub permits: u32,
    pub rows: &'static [Row],
    pub wanted: &'static str,
}

/// The moment of each act of the first worker, in microseconds.
const MOMENT: u64 = 1;

/// A control message of connection 1.
fn said(alloc: Global, text: &str) -> Result<Act, Fail>
    ensures { IfOk result MayAct }
{
    let mut read = read_client(alloc, text.as_bytes())?;
    let msg = read.msgs.pop().ok_or("no message")?;
    Ok(Act::Said {
        conn: 1,
        msg: Msg::Control(msg),
    })
}

/// The act of the first worker that a row says.
fn act_of(alloc: Global, row: &Row) -> Result<Act, Fail>
    ensures { IfOk result MayAct }
{
    match row {
        Row::Opens(name) => Ok(Act::Open {
            name: ClientName::of(alloc, name)?,
            version: Version::V41,
        }),
        Row::Says(text) => said(alloc, text),
        Row::Puts(bits) => Ok(Act::Said {
            conn: 1,
            msg: Msg::Put(ValueMsg {
                id: 1,
                time: 1_000_000,
                value: Value::Double(*bits),
            }),
        }),
        Row::Permits => Ok(Act::Permit),
        Row::Shuts => Ok(Act::Shut),
        Row::Serves(_) => Err(Fail::from("no act")),
    }
}

/// The frame that comes.
fn frame_of(alloc: Global, came: &Came) -> Result<Frame, AllocError> {
    match came {
        Came::Text(text) => Ok(Frame::Text(Text::of(alloc, text)?)),
        Came::Binary(bytes) => Ok(Frame::Binary(Bytes::of(alloc, bytes)?)),
    }
}

/// The link over which a session's frames come.
fn link_of(alloc: Global, session: &Session) -> Result<MemLink, AllocError> {
    let mut frames = Vec::new(alloc);
    for came in session.frames {
        frames.push(frame_of(alloc, came)?)?;
    }
    let failing_recvs = Vec::from_slice(alloc, session.failing_recvs)?;
    let failing_sends = Vec::from_slice(alloc, session.failing_sends)?;
    let quiet_recvs = Vec::from_slice(alloc, session.quiet_recvs)?;
    Ok(MemLink::new(alloc, frames, failing_recvs, failing_sends, quiet_recvs))
}

/// Serves a connection, and tells what that came to.
fn serve<R: Wait>(
    rt: &R,
    alloc: Global,
    hall: &KeptHall,
    seat: &mut Seat,
    session: &Session,
) -> Result<String, Fail>
    requires { seat.old.lock ≡ hall.now }
    ensures { IsSame seat.old seat.new }
{
    let mut link = link_of(alloc, session)?;
    let mut clock = MemClock::new(Vec::from_slice(alloc, session.moments)?);
    let name = ClientName::of(alloc, session.name)?;
    let version = Version::V41;
    let served = serve_connection(rt, alloc, hall, seat, &mut link, &mut clock, &name, version);
    Ok(served_lines(alloc, &served, link.sent())?)
}

/// The first worker's act.
fn act<R: Wait>(
    rt: &R,
    alloc: Global,
    hall: &KeptHall,
    seat: &mut Seat,
    row: &Row,
) -> Result<(), Fail>
    requires { seat.old.lock ≡ hall.now }
    ensures { IsSame seat.old seat.new }
{
    let act = act_of(alloc, row)?;
    hall.act(rt, alloc, seat, MOMENT, act)?;
    Ok(())
}

/// Does what a row says. It tells what serving a connection came to.
fn play<R: Wait>(
    rt: &R,
    alloc: Global,
    hall: &KeptHall,
    first: &mut Seat,
    second: &mut Seat,
    row: &Row,
) -> Result<String, Fail>
    requires first { first.old.lock ≡ hall.now }
    requires second { second.old.lock ≡ hall.now }
    ensures first { IsSame first.old first.new }
    ensures second { IsSame second.old second.new }
{
    match row {
        Row::Serves(session) => Ok(serve(rt, alloc, hall, second, session)?),
        _ => {
            act(rt, alloc, hall, first, row)?;
            Ok(String::new(alloc))
        }
    }
}

/// Does what rows say, one after the other. It tells what serving their connections came to.
fn play_all<R: Wait>(
    rt: &R,
    alloc: Global,
    hall: &KeptHall,
    first: &mut Seat,
    second: &mut Seat,
    rows: &[Row],
) -> Result<String, Fail>
    requires first { first.old.lock ≡ hall.now }
    requires second { second.old.lock ≡ hall.now }
    ensures first { IsSame first.old first.new }
    ensures second { IsSame second.old second.new }
{
    let mut told = String::new(alloc);
    for row in rows {
        told.push_str(play(rt, alloc, hall, first, second, row)?.as_str())?;
    }
    Ok(told)
}

/// What serving the connections of these rows came to, over a server with so many permits, and what the hall gave as it
/// closed.
pub fn played<R: Wait>(
    rt: &R,
    alloc: Global,
    permits: u32,
    rows: &[Row],
) -> Result<(String, Closed), Fail> {
    let server = Server::new(alloc, permits)?;
    let recorder = Recorder::off(MemSink::new(alloc, Vec::new(alloc)));
    let Ok((hall, mut seats)) = Hall::open(alloc, 2, server, KeptJournal::new(alloc), recorder)
    else {
        return Err(Fail::from("no memory"));
    };
    let Some(mut second) = seats.pop() else {
        return Err(Fail::from("no second seat"));
    };
    let Some(mut first) = seats.pop() else {
        return Err(Fail::from("no first seat"));
    };
    let told = play_all(rt, alloc, &hall, &mut first, &mut second, rows)?;
    let Ok(()) = seats.push(first) else {
        return Err(Fail::from("no room"));
    };
    let Ok(()) = seats.push(second) else {
        return Err(Fail::from("no room"));
    };
    let (server, journal, recorder, failed) = hall.close(seats);
    let closed = Closed {
        server,
        journal,
        recorder,
        failed,
    };
    Ok((told, closed))
}

/// All that comes of these rows: what serving their connections came to, the entries, and the topics at the end.
pub fn told<R: Wait>(rt: &R, alloc: Global, run: &Run) -> Result<String, Fail> {
    let (mut told, closed) = played(rt, alloc, run.permits, run.rows)?;
    if closed.failed {
        return Err(Fail::from("the hall has failed"));
    }
    told.push_str(entry_lines(alloc, &closed.journal)?.as_str())?;
    told.push_str(topic_lines(alloc, &closed.server)?.as_str())?;
    Ok(told)
}
