//! The elements of the lists that meta topics hold, each a map.

ghost use Rattle.std.specs.Prelude.{◌≡◌, ◌++◌, ◌<◌, List, length, OnOk};
ghost use Rattle.nt_msgpack.specs.Atoms.{AtomValue};
ghost use Rattle.nt_rules.specs.meta.Elements.{spelled};

use crate::put::{put_int_member, put_map, put_names_member, put_options_member, put_text_member};
use nt_rules::{ConnRow, PubRow, SubRow};
use std::alloc::{AllocError, Global};

/// An element of a list: a map (NetworkTables 4.1, "Server-Published Meta Topics").
pub trait Element {
    ghost atoms: { Self → List AtomValue };

    /// Appends the element's atoms, each in its shortest spelling. It fails for want of memory, and
    /// where a text or a list in it has a length of 2^32 or more, for which there is no spelling.
    fn put(&self, alloc: Global, out: &mut Vec<u8>) -> Result<(), AllocError>
        ensures ok { OnOk result (out.new.items ≡ out.old.items ++ spelled (atoms self.now)) }
        ensures more { OnOk result (length out.old.items < length out.new.items) };
}

// A connection among all.
impl Element for ConnRow {
    ghost use Rattle.nt_rules.specs.meta.Elements.{client_element};

    ghost atoms = { client_element };

    fn put(&self, alloc: Global, out: &mut Vec<u8>) -> Result<(), AllocError> {
        let number = format!(in alloc; "{}", self.conn)?;
        put_map(out, 2)?;
        put_text_member(out, "id", self.name.as_str())?;
        put_text_member(out, "conn", number.as_str())
    }
}

// A publisher among its connection's.
impl Element for PubRow {
    ghost use Rattle.nt_rules.specs.meta.Elements.{publisher_element};

    ghost atoms = { publisher_element };

    fn put(&self, _alloc: Global, out: &mut Vec<u8>) -> Result<(), AllocError> {
        put_map(out, 2)?;
        put_int_member(out, "uid", self.uid)?;
        put_text_member(out, "topic", self.topic.as_str())
    }
}

// A subscription among its connection's.
impl Element for SubRow {
    ghost use Rattle.nt_rules.specs.meta.Elements.{subscription_element};

    ghost atoms = { subscription_element };

    fn put(&self, _alloc: Global, out: &mut Vec<u8>) -> Result<(), AllocError> {
        put_map(out, 3)?;
        put_int_member(out, "uid", self.uid)?;
        put_names_member(out, "topics", &self.sub.names)?;
        put_options_member(out, "options", self.sub.options)
    }
}

/// A publisher among its topic's, with the name of its client.
#[derive(Drop)]
pub struct TopicPublisher<'a> {
    pub client: &'a str,
    pub row: &'a PubRow,
}

impl Element for TopicPublisher<'_> {
    ghost use Rattle.nt_rules.specs.meta.Elements.{topic_publisher};

    ghost atoms = { λ e. topic_publisher e.client.now e.row.now };

    fn put(&self, _alloc: Global, out: &mut Vec<u8>) -> Result<(), AllocError> {
        put_map(out, 2)?;
        put_text_member(out, "client", self.client)?;
        put_int_member(out, "pubuid", self.row.uid)
    }
}

/// A subscription among those that match a topic, with the name of its client.
#[derive(Drop)]
pub struct TopicSubscriber<'a> {
    pub client: &'a str,
    pub row: &'a SubRow,
}

impl Element for TopicSubscriber<'_> {
    ghost use Rattle.nt_rules.specs.meta.Elements.{topic_subscriber};

    ghost atoms = { λ e. topic_subscriber e.client.now e.row.now };

    fn put(&self, _alloc: Global, out: &mut Vec<u8>) -> Result<(), AllocError> {
        put_map(out, 3)?;
        put_text_member(out, "client", self.client)?;
        put_int_member(out, "subuid", self.row.uid)?;
        put_options_member(out, "options", self.row.sub.options)
    }
}
