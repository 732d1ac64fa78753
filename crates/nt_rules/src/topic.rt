//! Topics, their publishers, and what happens to them.

ghost use Rattle.std.specs.Prelude.{◌≡◌, IfOk};

use nt_topics::{Name, Props, TopicName, TypeName, Update};
use nt_values::{ListOf, Value};
use std::alloc::{AllocError, Global};

/// A publisher of a topic: its connection, its uid there, and the type that it publishes.
#[derive(Drop)]
pub struct Pub {
    pub conn: u32,
    pub uid: i64,
    pub typ: TypeName,
}

/// Publishers, in the order in which they came.
pub type Pubs = ListOf<Pub>;

/// A value with its time, in microseconds.
#[derive(Drop)]
pub struct Timed {
    pub time: u64,
    pub value: Value,
}

/// A living topic. Its id is never used again.
#[derive(Drop)]
pub struct Topic {
    pub id: u32,
    pub name: TopicName,
    pub typ: TypeName,
    pub props: Props,
    pub value: Option<Timed>,
    pub pubs: Pubs,
}

/// A topic as a server saves it and begins with it again.
#[derive(Drop)]
pub struct Saved {
    pub name: TopicName,
    pub typ: TypeName,
    pub props: Props,
    pub value: Option<Value>,
}

/// A change of a topic.
#[derive(Drop)]
pub enum Change {
    /// The topic begins.
    Started {
        id: i64,
        name: Name,
        typ: TypeName,
        props: Props,
    },
    /// A value of it was taken, with a time in microseconds.
    Changed {
        id: i64,
        name: Name,
        time: u64,
        value: Value,
    },
    /// Its properties are updated.
    Props {
        id: i64,
        name: Name,
        update: Update,
    },
    /// It ends.
    Ended {
        id: i64,
        name: Name,
    },
}

impl Change {
    /// An equal change.
    pub fn copy(&self, alloc: Global) -> Result<Change, AllocError>
        ensures { IfOk result (λ change. change ≡ self.now) }
    {
        match self {
            Change::Started {
                id,
                name,
                typ,
                props,
            } => Ok(Change::Started {
                id: *id,
                name: name.copy(alloc)?,
                typ: typ.copy(alloc)?,
                props: props.copy()?,
            }),
            Change::Changed {
                id,
                name,
                time,
                value,
            } => Ok(Change::Changed {
                id: *id,
                name: name.copy(alloc)?,
                time: *time,
                value: value.copy(alloc)?,
            }),
            Change::Props { id, name, update } => Ok(Change::Props {
                id: *id,
                name: name.copy(alloc)?,
                update: update.copy()?,
            }),
            Change::Ended { id, name } => Ok(Change::Ended {
                id: *id,
                name: name.copy(alloc)?,
            }),
        }
    }
}

/// Changes, in the order in which they come.
pub type Changes = ListOf<Change>;

/// Why a call is ignored.
#[derive(Clone, Copy, Debug, PartialEq, Eq)]
pub enum Cause {
    /// The connection isn't open for this worker.
    NoConn,
    /// The connections' numbers are used up.
    ConnsSpent,
    /// The name begins with `$`.
    Special,
    /// The connection has a publisher with this uid.
    UidInUse,
    /// The connection has as many publishers as it may have.
    PubsFull,
    /// The text of the properties would be too long.
    PropsFull,
    /// There are as many topics as there may be.
    TopicsFull,
    /// The topics' ids are used up.
    IdsSpent,
    /// The connection has no publisher, or no subscription, with this uid.
    NoSuchUid,
    /// No topic of this name lives.
    NoTopic,
    /// The publisher's type isn't the topic's, or the value isn't of it.
    OtherType,
    /// The topic holds a value with a greater time.
    Older,
    /// With this one, the connection would have too many subscriptions, or too much text in their names.
    TooMany,
    /// The connection has fallen behind.
    Behind,
}

/// What a call answers: the changes that it made, or why nothing changed.
#[derive(Drop)]
pub enum Outcome {
    Done(Changes),
    Ignored(Cause),
}
