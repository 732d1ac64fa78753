//! What the meta topics tell of: the open connections and the living topics.

use nt_subs::Sub;
use nt_topics::{Name, TopicName};
use nt_values::ListOf;

/// A publisher of a connection: its uid there, and its topic.
#[derive(Drop)]
pub struct PubRow {
    pub uid: i64,
    pub topic: TopicName,
}

/// The publishers of a connection.
pub type PubRows = ListOf<PubRow>;

/// A subscription of a connection, with its uid there.
#[derive(Drop)]
pub struct SubRow {
    pub uid: i64,
    pub sub: Sub,
}

/// The subscriptions of a connection.
pub type SubRows = ListOf<SubRow>;

/// An open connection: its number, the name that it was given, its publishers and subscriptions.
#[derive(Drop)]
pub struct ConnRow {
    pub conn: u32,
    pub name: Name,
    pub pubs: PubRows,
    pub subs: SubRows,
}

/// The open connections.
pub type Conns = ListOf<ConnRow>;

/// A living topic that is no meta topic.
#[derive(Drop)]
pub struct LifeRow {
    pub id: u32,
    pub name: TopicName,
}

/// The living topics.
pub type Lives = ListOf<LifeRow>;

/// The open connections and the living topics.
#[derive(Drop)]
pub struct Roster {
    pub conns: Conns,
    pub topics: Lives,
}
