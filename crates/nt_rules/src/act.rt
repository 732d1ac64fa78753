//! Acts, answers, and the entries of a history.

use crate::batch::Batch;
use crate::topic::Cause;
use nt_control::ClientMsg;
use nt_frames::ValueMsg;
use nt_topics::{ClientName, Name, Version};

/// What a connection says.
#[derive(Drop)]
pub enum Msg {
    /// A control message.
    Control(ClientMsg),
    /// A value, for the publisher whose uid is the message's id.
    Put(ValueMsg),
}

/// What a worker asks of the server.
#[derive(Drop)]
pub enum Act {
    /// A connection of this name, which speaks this version of the protocol, opens.
    Open { name: ClientName, version: Version },
    /// A connection says something.
    Said { conn: u32, msg: Msg },
    /// A connection is handed what it is owed, at most so many messages.
    Drain { conn: u32, budget: u32 },
    /// A connection closes.
    Close { conn: u32 },
    /// The worker asks to accept one connection more.
    Permit,
    /// The server shuts: no permit is granted any more.
    Shut,
}

/// What the server answers.
#[derive(Drop)]
pub enum StepOut {
    /// The connection is open, under this number and name.
    Opened { conn: u32, name: Name },
    /// What was said counts.
    Done,
    /// Nothing changes.
    Ignored(Cause),
    /// The connection is handed these messages.
    Drained(Batch),
    /// The connection is closed.
    Closed,
    /// The worker may accept one connection more.
    Permitted,
    /// It may not.
    NoPermit,
    /// The server is shut.
    Shut,
}

/// What an entry tells.
#[derive(Drop)]
pub enum Deed {
    /// A connection was opened, and given this name.
    Opened(Name),
    /// A connection wasn't opened.
    NotOpened,
    /// A connection said this.
    Said(Msg),
    /// A connection was handed these messages, none where the drain was ignored.
    Drained(Batch),
    /// A connection was closed, where it was open for the worker.
    Closed,
    /// A permit was granted.
    Permitted,
    /// It was not.
    NoPermit,
    /// The server was shut.
    Shut,
}

/// One entry of a history: who acted, for which connection (0 where there is none), when, and what
/// was done. The moment is in microseconds.
#[derive(Drop)]
pub struct Entry {
    pub worker: u32,
    pub conn: u32,
    pub now: u64,
    pub deed: Deed,
}
