//! The table of topics.

ghost use Rattle.nt_rules.specs.declared.topic.Topic.{Topic};
ghost use Rattle.std.specs.Prelude.{ℕ, ◌≡◌, ◌+◌, ◌^◌, ◌<◌, true, false, [], OnOk, OnErr, IfOk, IfSome, option_copied, length, slice_get, Some};
ghost use Rattle.std.specs.List.{find, list_any};
ghost use Rattle.nt_topics.specs.Names.{is_special};
ghost use Rattle.nt_topics.specs.Properties.{is_cached};
ghost use Rattle.nt_rules.specs.topics.Topics.{TableState, is_named, if_counts, publish_cause, published, next_after, unpublish_cause, unpublished, update_cause, with_props, put_cause, with_put, dropped, restore_cause, restored};
ghost use Rattle.nt_rules.specs.topics.Changes.{outcome_of, publish_changes, unpublish_changes, update_changes, put_changes, drop_changes, restore_changes};

use crate::index::Index;
use crate::indexed::{close, publish, put, restore, set_props, topic_of_name, unpublish};
use crate::lookup;
use nt_rules::{Changes, Outcome, Pub, Saved, Topic};
use nt_topics::{Props, TopicName, TypeName, Update};
use nt_values::Value;
use std::alloc::{AllocError, Global};
use std::marker::Model;

/// The living topics. A table that met want of memory has failed for good: nothing is said of its
/// topics any more, and each later call that changes it fails too.
#[derive(Drop)]
pub struct Table {
    failed: bool,
    topics: Vec<Topic>,
    index: Index,
    next: u32,
}

impl Model for Table {
    ghost use Rattle.std.specs.Prelude.{◌≡◌, false};
    ghost use Rattle.nt_rules.specs.topics.Topics.{TableState};
    ghost use Rattle.nt_table.specs.Index.{IsIndexed};
    ghost use Rattle.nt_topics.specs.contracts.properties.Props as props;
    ghost use Rattle.std.specs.Coded.{codes};

    ghost Value = { TableState };

    ghost coded = { Prim.hlevel (codes, props.the_row.coded) };

    ghost invariant = { λ t. t.failed ≡ false → IsIndexed t.index t.topics.items t.next };

    ghost view = { λ t. record { failed = t.failed; topics = t.topics.items; next = t.next } };
}

impl Table {
    /// No topics. Ids begin at 1.
    pub fn new(alloc: Global) -> Table
        ensures { result ≡ record { failed = false; topics = []; next = 1 } }
    {
        Table {
            failed: false,
            topics: Vec::new(alloc),
            index: Index::new(alloc),
            next: 1,
        }
    }

    /// Begins a saved topic, with the next id and no publisher. Its value, which it has only where
    /// it is cached, has the time 0.
    ///
    /// It is ignored with the first of `TopicsFull`, `IdsSpent` and `OtherType` that holds.
    pub fn restore(&mut self, alloc: Global, saved: Saved) -> Result<Outcome, AllocError>
        requires unnamed { list_any (is_named saved.name) self.old.topics ≡ false }
        requires plain { is_special saved.name ≡ false }
        requires held { IfSome saved.value (λ v. is_cached saved.props ≡ true) }
        ensures answer { IfOk result (λ o. o ≡ outcome_of
            (restore_cause self.old.topics self.old.next saved)
            (restore_changes self.old.next saved)) }
        ensures topics { OnOk result (self.new.topics ≡ if_counts
            (restore_cause self.old.topics self.old.next saved)
            (restored self.old.topics self.old.next saved) self.old.topics) }
        ensures next { OnOk result (self.new.next ≡ if_counts
            (restore_cause self.old.topics self.old.next saved) (self.old.next + 1) self.old.next) }
        ensures well { OnOk result (self.old.failed ≡ false) }
        ensures still_well { OnOk result (self.new.failed ≡ false) }
        ensures failed { OnErr result (self.new.failed ≡ true) }
    {
        if self.failed {
            return Err(AllocError);
        }
        let outcome = restore(
            alloc,
            &mut self.topics,
            &mut self.index,
            &mut self.next,
            saved,
        );
        self.failed = outcome.is_err();
        outcome
    }

    /// Publishes to the topic of this name, which keeps its type and properties, or begins it with
    /// the next id and these (NetworkTables 4.1, "Publish Request Message").
    ///
    /// It is ignored with the first of `Special`, `UidInUse`, `PubsFull` and, where no topic of
    /// that name lives, `PropsFull`, `TopicsFull` and `IdsSpent` that holds.
    pub fn publish(
        &mut self,
        alloc: Global,
        conn: u32,
        uid: i64,
        name: TopicName,
        typ: TypeName,
        props: Props,
    ) -> Result<Outcome, AllocError>
        ensures answer { IfOk result (λ o. o ≡ outcome_of
            (publish_cause self.old.topics self.old.next conn uid name props)
            (publish_changes self.old.topics self.old.next name typ props)) }
        ensures topics { OnOk result (self.new.topics ≡ if_counts
            (publish_cause self.old.topics self.old.next conn uid name props)
            (published self.old.topics self.old.next name typ props
            (record { conn = conn; uid = uid; typ = typ }))
            self.old.topics) }
        ensures next { OnOk result (self.new.next ≡ if_counts
            (publish_cause self.old.topics self.old.next conn uid name props)
            (next_after self.old.topics self.old.next name) self.old.next) }
        ensures well { OnOk result (self.old.failed ≡ false) }
        ensures still_well { OnOk result (self.new.failed ≡ false) }
        ensures failed { OnErr result (self.new.failed ≡ true) }
    {
        if self.failed {
            return Err(AllocError);
        }
        let publisher = Pub { conn, uid, typ };
        let outcome = publish(
            alloc,
            &mut self.topics,
            &mut self.index,
            &mut self.next,
            name,
            props,
            publisher,
        );
        self.failed = outcome.is_err();
        outcome
    }

    /// Takes the publisher out, and ends its topic where nothing of it is left (NetworkTables 4.1,
    /// "Unpublish Request Message").
    ///
    /// It is ignored exactly with `NoSuchUid`.
    pub fn unpublish(&mut self, alloc: Global, conn: u32, uid: i64) -> Result<Outcome, AllocError>
        ensures answer { IfOk result (λ o. o ≡ outcome_of
            (unpublish_cause self.old.topics conn uid)
            (unpublish_changes self.old.topics conn uid)) }
        ensures topics { OnOk result (self.new.topics ≡ if_counts
            (unpublish_cause self.old.topics conn uid)
            (unpublished self.old.topics conn uid) self.old.topics) }
        ensures next { OnOk result (self.new.next ≡ self.old.next) }
        ensures well { OnOk result (self.old.failed ≡ false) }
        ensures still_well { OnOk result (self.new.failed ≡ false) }
        ensures failed { OnErr result (self.new.failed ≡ true) }
    {
        if self.failed {
            return Err(AllocError);
        }
        let outcome = unpublish(alloc, &mut self.topics, &mut self.index, conn, uid);
        self.failed = outcome.is_err();
        outcome
    }

    /// Updates the properties of the topic of this name, and ends it where nothing of it is left
    /// (NetworkTables 4.1, "Set Properties Message"). Where they change whether it is cached, its
    /// value goes, which isn't told.
    ///
    /// It is ignored with the first of `NoTopic` and `PropsFull` that holds.
    pub fn set_props(
        &mut self,
        alloc: Global,
        name: &TopicName,
        update: Update,
    ) -> Result<Outcome, AllocError>
        ensures answer { IfOk result (λ o. o ≡ outcome_of
            (update_cause self.old.topics name.now update)
            (update_changes self.old.topics name.now update)) }
        ensures topics { OnOk result (self.new.topics ≡ if_counts
            (update_cause self.old.topics name.now update)
            (with_props self.old.topics name.now update) self.old.topics) }
        ensures next { OnOk result (self.new.next ≡ self.old.next) }
        ensures well { OnOk result (self.old.failed ≡ false) }
        ensures still_well { OnOk result (self.new.failed ≡ false) }
        ensures failed { OnErr result (self.new.failed ≡ true) }
    {
        if self.failed {
            return Err(AllocError);
        }
        let outcome = set_props(alloc, &mut self.topics, &mut self.index, name, update);
        self.failed = outcome.is_err();
        outcome
    }

    /// Puts a value, with a time in microseconds, to the topic of the publisher (NetworkTables 4.1,
    /// "MessagePack Data"). It is told, and held where the topic is cached.
    ///
    /// It is ignored with the first of `NoSuchUid`, `OtherType` and `Older` that holds.
    pub fn put(
        &mut self,
        alloc: Global,
        conn: u32,
        uid: i64,
        time: u64,
        value: Value,
    ) -> Result<Outcome, AllocError>
        requires { time < 2 ^ 63 }
        ensures answer { IfOk result (λ o. o ≡ outcome_of
            (put_cause self.old.topics conn uid time value)
            (put_changes self.old.topics conn uid time value)) }
        ensures topics { OnOk result (self.new.topics ≡ if_counts
            (put_cause self.old.topics conn uid time value)
            (with_put self.old.topics conn uid time value) self.old.topics) }
        ensures next { OnOk result (self.new.next ≡ self.old.next) }
        ensures well { OnOk result (self.old.failed ≡ false) }
        ensures still_well { OnOk result (self.new.failed ≡ false) }
        ensures failed { OnErr result (self.new.failed ≡ true) }
    {
        if self.failed {
            drop(value);
            return Err(AllocError);
        }
        let outcome = put(alloc, &mut self.topics, &self.index, conn, uid, time, value);
        self.failed = outcome.is_err();
        outcome
    }

    /// Takes the connection's publishers out, and ends the topics of which nothing is left, by
    /// rising id.
    pub fn drop_conn(&mut self, alloc: Global, conn: u32) -> Result<Changes, AllocError>
        ensures changes { IfOk result (λ changes. changes ≡ drop_changes self.old.topics conn) }
        ensures topics { OnOk result (self.new.topics ≡ dropped self.old.topics conn) }
        ensures next { OnOk result (self.new.next ≡ self.old.next) }
        ensures well { OnOk result (self.old.failed ≡ false) }
        ensures still_well { OnOk result (self.new.failed ≡ false) }
        ensures failed { OnErr result (self.new.failed ≡ true) }
    {
        if self.failed {
            return Err(AllocError);
        }
        let changes = close(alloc, &mut self.topics, &mut self.index, conn);
        self.failed = changes.is_err();
        changes
    }

    /// The living topic of this name.
    pub fn topic(&self, name: &str) -> Option<&Topic>
        ensures { option_copied result ≡ find (is_named name.now) self.now.topics }
    {
        if self.failed {
            return lookup::topic_of_name(&self.topics, name);
        }
        topic_of_name(&self.topics, &self.index, name)
    }

    /// How many topics live.
    pub fn len(&self) -> usize
        ensures { result ≡ length self.now.topics }
    {
        self.topics.len()
    }

    /// The topic at this index, by rising id. In a table that hasn't failed its id is below those
    /// of the topics after it, and below the next one.
    pub fn at(&self, i: usize) -> &Topic
        requires { i < length self.now.topics }
        ensures topic { slice_get self.now.topics i ≡ Some result.now }
        ensures rising { self.now.failed ≡ false → (j : ℕ) → (t : Topic) → i < j
            → slice_get self.now.topics j ≡ Some t → result.now.id < t.id }
        ensures below { self.now.failed ≡ false → result.now.id < self.now.next }
    {
        &self.topics[i]
    }
}
