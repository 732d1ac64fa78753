//! The names of messages that may be owed.

ghost use Rattle.std.specs.Prelude.{◌≡◌};
ghost use Rattle.nt_rules.specs.outbox.Keys.{announces, is_key, is_value};
ghost use Rattle.nt_outbox.specs.Kinds.{kind_of};

use std::marker::Model;

/// What a message tells.
#[derive(Clone, Copy, PartialEq, Eq)]
pub enum Kind {
    /// The end of a topic.
    End,
    /// The answer to a publish.
    Publish,
    /// A change of properties.
    Setting,
    /// A topic that is wanted.
    Topic,
    /// A value.
    Value,
}

/// The name of a message: what it tells, the id of its topic, and the place of what it tells.
#[derive(Drop)]
pub struct Key {
    pub kind: Kind,
    pub topic: u32,
    pub place: u64,
}

impl Model for Key {
    ghost use Rattle.nt_rules.specs.outbox.Keys.{Key};
    ghost use Rattle.nt_outbox.specs.Kinds.{kind_of};

    ghost Value = { Key };

    ghost view = { λ k. record { kind = kind_of k.kind; topic = k.topic; place = k.place } };
}

impl Key {
    /// Whether it names a value.
    pub fn is_value(&self) -> bool
        ensures { result ≡ is_value self.now }
    {
        matches!(self.kind, Kind::Value)
    }

    /// Whether it announces the topic of this id.
    pub fn announces(&self, id: u32) -> bool
        ensures { result ≡ announces id self.now }
    {
        matches!(self.kind, Kind::Publish | Kind::Topic) && self.topic == id
    }

    /// Whether it names the message of this kind of a topic.
    pub fn is(&self, kind: Kind, topic: u32, place: u64) -> bool
        ensures { result
            ≡ is_key (record { kind = kind_of kind; topic = topic; place = place }) self.now }
    {
        kind == self.kind && topic == self.topic && place == self.place
    }
}
