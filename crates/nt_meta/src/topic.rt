//! The kinds of meta topics.

ghost use Rattle.std.specs.Prelude.{◌≡◌, ◌+◌, ◌<◌, ◌^◌, ◌++◌, IfOk};
ghost use Rattle.nt_rules.specs.declared.roster.Roster.{Roster};
ghost use Rattle.nt_meta.specs.Topics.{number_of, meta_of};

use crate::bytes::{array_of, empty_array, publishers, subscribers};
use nt_rules::{ConnRow, LifeRow, MetaNow, Roster};
use nt_topics::Name;
use nt_values::{Bytes, Text};
use std::alloc::{AllocError, Global};

/// How far apart the ids of two kinds of meta topics are.
const KIND: u32 = 268_435_456;

/// A meta topic (NetworkTables 4.1, "Server-Published Meta Topics").
#[derive(Clone, Copy)]
pub enum MetaTopic<'a> {
    /// Who publishes to a topic.
    TopicPub(&'a LifeRow),
    /// Who subscribes to a topic.
    TopicSub(&'a LifeRow),
    /// What a client publishes.
    ClientPub(&'a ConnRow),
    /// What a client subscribes to.
    ClientSub(&'a ConnRow),
    /// The clients.
    Clients,
    /// What the server publishes itself.
    ServerPub,
    /// What the server subscribes to itself.
    ServerSub,
}

impl MetaTopic<'_> {
    /// Its id: where the ids of its kind begin, and its number among them.
    fn parts(&self) -> (u32, u32)
        ensures { result.0 + result.1 ≡ number_of self.now }
    {
        match self {
            MetaTopic::TopicPub(life) => (2 * KIND, life.id),
            MetaTopic::TopicSub(life) => (3 * KIND, life.id),
            MetaTopic::ClientPub(conn) => (4 * KIND, conn.conn),
            MetaTopic::ClientSub(conn) => (5 * KIND, conn.conn),
            MetaTopic::Clients => (6 * KIND, 1),
            MetaTopic::ServerPub => (6 * KIND, 2),
            MetaTopic::ServerSub => (6 * KIND, 3),
        }
    }

    /// Its id.
    pub fn id(&self) -> u32
        requires { number_of self.now < 2 ^ 32 }
        ensures { result ≡ number_of self.now }
    {
        let (kind, number) = self.parts();
        kind + number
    }

    /// Its id, where that has 32 bits.
    fn checked_id(&self) -> Result<u32, AllocError>
        ensures { IfOk result (λ id. id ≡ number_of self.now) }
    {
        let (kind, number) = self.parts();
        match kind.checked_add(number) {
            Some(id) => Ok(id),
            None => Err(AllocError),
        }
    }

    /// Its name.
    fn name(&self, alloc: Global) -> Result<Name, AllocError>
        ensures { IfOk result (λ name. (r : Roster) → name ≡ (meta_of r self.now).name) }
    {
        match self {
            MetaTopic::TopicPub(life) => joined(alloc, "$pub$", life.name.as_str()),
            MetaTopic::TopicSub(life) => joined(alloc, "$sub$", life.name.as_str()),
            MetaTopic::ClientPub(conn) => joined(alloc, "$client_pub$", conn.name.as_str()),
            MetaTopic::ClientSub(conn) => joined(alloc, "$client_sub$", conn.name.as_str()),
            MetaTopic::Clients => Name::of(alloc, "$clients"),
            MetaTopic::ServerPub => Name::of(alloc, "$server_pub"),
            MetaTopic::ServerSub => Name::of(alloc, "$server_sub"),
        }
    }

    /// Its value. It fails for want of memory, and where a text or a list in it has a length of
    /// 2^32 or more, for which there is no spelling.
    pub fn bytes(&self, alloc: Global, roster: &Roster) -> Result<Bytes, AllocError>
        ensures { IfOk result (λ bytes. bytes ≡ (meta_of roster.now self.now).bytes) }
    {
        let conns = roster.conns.as_slice();
        match self {
            MetaTopic::TopicPub(life) => publishers(alloc, conns, life.name.as_str()),
            MetaTopic::TopicSub(life) => subscribers(alloc, conns, life.name.as_str()),
            MetaTopic::ClientPub(conn) => array_of(alloc, conn.pubs.as_slice()),
            MetaTopic::ClientSub(conn) => array_of(alloc, conn.subs.as_slice()),
            MetaTopic::Clients => array_of(alloc, conns),
            MetaTopic::ServerPub | MetaTopic::ServerSub => empty_array(alloc),
        }
    }

    /// All of it. It fails as its value does, and where its id would pass 32 bits, which no number
    /// of a living topic or an open connection makes it.
    pub fn now(&self, alloc: Global, roster: &Roster) -> Result<MetaNow, AllocError>
        ensures { IfOk result (λ now. now ≡ meta_of roster.now self.now) }
    {
        Ok(MetaNow {
            id: self.checked_id()?,
            name: self.name(alloc)?,
            bytes: self.bytes(alloc, roster)?,
        })
    }
}

/// A key behind a prefix, as a name.
fn joined(alloc: Global, prefix: &str, key: &str) -> Result<Name, AllocError>
    ensures { IfOk result (λ name. name ≡ prefix.now ++ key.now) }
{
    let mut text = String::from_str(alloc, prefix)?;
    text.push_str(key)?;
    Ok(Name::of_text(Text::of_string(text)))
}
