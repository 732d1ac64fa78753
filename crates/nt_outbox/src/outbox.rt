//! What one connection is owed.

ghost use Rattle.std.specs.Prelude.{◌≡◌, ◌≤◌, ◌↔◌, true, false, [], length, IfOk, OnOk, OnErr, None, option_copied, is_some, not, take};
ghost use Rattle.nt_rules.specs.outbox.Calls.{nothing_owed, id_of, behind, at_place, with_call, reached, noted, turned_to, rewanted_to, meta_rewanted, meta_changed, meta_ended, keys_of, weight_of, drained, drained_batch};
ghost use Rattle.nt_rules.specs.outbox.Marks.{keys, handed_all};
ghost use Rattle.nt_rules.specs.outbox.Messages.{batch_of};
ghost use Rattle.nt_rules.specs.outbox.Replies.{replied_to};
ghost use Rattle.nt_outbox.specs.Steps.{after, at_known, HasNoBlank};

use crate::call::{meta_step, meta_wish, rewant_step, setting, value_step};
use crate::kept::Kept;
use crate::message::batch_of;
use crate::step::Step;
use nt_rules::{Batch, Change, MOST_WEIGHT, MetaNow, Publish, Reply, Topic};
use nt_subs::Wanted;
use nt_table::Table;
use nt_topics::Update;
use std::alloc::{AllocError, Global};
use std::marker::Model;
use std::mem;

/// What one connection is owed. Its calls come at places, the positions of entries in their order.
///
/// An outbox that met want of memory has failed for good: it holds nothing any more, and each later
/// call that changes it fails too. So does one for which more would wait than a weight of 64 bits
/// tells, which fits into no memory.
#[derive(Drop)]
pub struct Outbox {
    failed: bool,
    /// The place of the last call.
    place: u64,
    /// The weight with which the connection fell behind at a place before that one.
    fell: Option<u64>,
    /// What is kept of each topic.
    kept: Kept,
}

impl Model for Outbox {
    ghost use Rattle.nt_rules.specs.outbox.Calls.{OutboxState};
    ghost use Rattle.nt_topics.specs.contracts.properties.Update as update;
    ghost use Rattle.std.specs.Coded.{codes};

    ghost Value = { OutboxState };

    ghost coded = { Prim.hlevel (codes, update.the_row.coded) };

    ghost use Rattle.nt_outbox.specs.Steps.{HasNoBlank};

    ghost view = { λ o. record {
      failed = o.failed;
      place = o.place;
      fell = o.fell;
      marks = o.kept;
    } };

    ghost invariant = { λ o. HasNoBlank o.kept };
}

impl Outbox {
    /// Nothing is owed. It takes no memory.
    pub fn new(alloc: Global) -> Outbox
        ensures { result ≡ nothing_owed }
    {
        Outbox {
            failed: false,
            place: 0,
            fell: None,
            kept: Kept::new(alloc),
        }
    }

    /// Want of memory was met: nothing is kept any more, and each later call fails.
    fn fail(&mut self) -> AllocError
        ensures { self.new.failed ≡ true }
    {
        self.failed = true;
        self.kept.clear();
        AllocError
    }

    /// A call at a place that tells nothing. It says whether the connection may be owed something: it
    /// hadn't fallen behind before. One that had keeps nothing. It takes no memory.
    pub fn reach(&mut self, place: u64) -> bool
        ensures open { result ≡ not (is_some (at_place place self.old).fell) }
        ensures owed { self.new ≡ reached place self.old }
    {
        if self.place < place {
            self.fell = self.behind();
            self.place = place;
        }
        if self.fell.is_some() {
            self.kept.clear();
            return false;
        }
        true
    }

    /// A step at a place changes the topic of this id and name. Without an id none changes.
    fn call(
        &mut self,
        alloc: Global,
        place: u64,
        id: Option<u32>,
        name: &str,
        step: Step,
    ) -> Result<(), AllocError>
        ensures owed { OnOk result
            (self.new ≡ with_call place (at_known id name.now (after step)) self.old) }
        ensures well { OnOk result (self.old.failed ≡ false) }
        ensures still_well { OnOk result (self.new.failed ≡ false) }
        ensures failed { OnErr result (self.new.failed ≡ true) }
    {
        if self.failed {
            return Err(AllocError);
        }
        if !self.reach(place) {
            return Ok(());
        }
        let Some(id) = id else {
            return Ok(());
        };
        let kept = mem::replace(&mut self.kept, Kept::new(alloc));
        match kept.changed(alloc, id, name, step) {
            Ok(kept) => {
                self.kept = kept;
                Ok(())
            }
            Err(_) => Err(self.fail()),
        }
    }

    /// A change of the table at a place, of a topic that is cached or not after it, and is wanted
    /// so much from now on.
    pub fn note(
        &mut self,
        alloc: Global,
        place: u64,
        change: &Change,
        cached: bool,
        wanted: Wanted,
    ) -> Result<(), AllocError>
        ensures owed { OnOk result (self.new ≡ noted place change.now cached wanted self.old) }
        ensures well { OnOk result (self.old.failed ≡ false) }
        ensures still_well { OnOk result (self.new.failed ≡ false) }
        ensures failed { OnErr result (self.new.failed ≡ true) }
    {
        match change {
            Change::Started { id, name, .. } => {
                self.call(alloc, place, id_of(*id), name.as_str(), Step::Wish(wanted))
            }
            Change::Changed {
                id,
                name,
                time,
                value,
            } => {
                let Ok(step) = value_step(alloc, place, *time, value, cached, wanted) else {
                    return Err(self.fail());
                };
                self.call(alloc, place, id_of(*id), name.as_str(), step)
            }
            Change::Props { id, name, update } => {
                let Ok(setting) = setting(place, false, update) else {
                    return Err(self.fail());
                };
                let step = Step::Told(setting, wanted);
                self.call(alloc, place, id_of(*id), name.as_str(), step)
            }
            Change::Ended { id, name } => {
                self.call(alloc, place, id_of(*id), name.as_str(), Step::Ended(place))
            }
        }
    }

    /// The topic of this id turned at a place: whether it is cached changed. No value of it is owed
    /// any more. It takes no memory.
    pub fn turned(&mut self, place: u64, id: u32)
        ensures owed { self.new ≡ turned_to place id self.old }
        ensures failed { self.new.failed ≡ self.old.failed }
    {
        if self.reach(place) {
            self.kept.turn(id);
        }
    }

    /// The answer at a place to the connection's own message about a topic. One to a change of
    /// properties comes with the update that it tells.
    pub fn reply(
        &mut self,
        alloc: Global,
        place: u64,
        topic: &Topic,
        reply: Reply,
        update: Option<&Update>,
    ) -> Result<(), AllocError>
        ensures owed { OnOk result (self.new
            ≡ replied_to place topic.now reply (option_copied update.entry) self.old) }
        ensures well { OnOk result (self.old.failed ≡ false) }
        ensures still_well { OnOk result (self.new.failed ≡ false) }
        ensures failed { OnErr result (self.new.failed ≡ true) }
    {
        let step = match (reply, update) {
            (Reply::Publish(uid), _) => Step::Published(Publish { place, uid }),
            (Reply::Ack, Some(update)) => {
                let Ok(setting) = setting(place, true, update) else {
                    return Err(self.fail());
                };
                Step::OwnSetting(setting)
            }
            (Reply::Ack, None) => {
                return if self.failed { Err(AllocError) } else { Ok(()) };
            }
        };
        self.call(alloc, place, Some(topic.id), topic.name.as_str(), step)
    }

    /// How much a topic is wanted changed at a place. Its held value, where it holds one, was taken
    /// at the place `taken`.
    pub fn rewant(
        &mut self,
        alloc: Global,
        place: u64,
        topic: &Topic,
        taken: u64,
        old: Wanted,
        new: Wanted,
    ) -> Result<(), AllocError>
        ensures owed { OnOk result (self.new ≡ rewanted_to place topic.now taken old new self.old) }
        ensures well { OnOk result (self.old.failed ≡ false) }
        ensures still_well { OnOk result (self.new.failed ≡ false) }
        ensures failed { OnErr result (self.new.failed ≡ true) }
    {
        let Ok(step) = rewant_step(alloc, topic, taken, old, new) else {
            return Err(self.fail());
        };
        self.call(alloc, place, Some(topic.id), topic.name.as_str(), step)
    }

    /// How much a meta topic is wanted changed at a place.
    pub fn meta_rewant(
        &mut self,
        alloc: Global,
        place: u64,
        meta: &MetaNow,
        old: Wanted,
        new: Wanted,
    ) -> Result<(), AllocError>
        ensures owed { OnOk result (self.new ≡ meta_rewanted place meta.now old new self.old) }
        ensures well { OnOk result (self.old.failed ≡ false) }
        ensures still_well { OnOk result (self.new.failed ≡ false) }
        ensures failed { OnErr result (self.new.failed ≡ true) }
    {
        let step = meta_step(old, new);
        self.call(alloc, place, Some(meta.id), meta.name.as_str(), step)
    }

    /// The bytes of a meta topic changed at a place, and it is wanted so much.
    pub fn meta_changed(
        &mut self,
        alloc: Global,
        place: u64,
        meta: &MetaNow,
        wanted: Wanted,
    ) -> Result<(), AllocError>
        ensures owed { OnOk result (self.new ≡ meta_changed place meta.now wanted self.old) }
        ensures well { OnOk result (self.old.failed ≡ false) }
        ensures still_well { OnOk result (self.new.failed ≡ false) }
        ensures failed { OnErr result (self.new.failed ≡ true) }
    {
        let step = Step::MetaChanged(meta_wish(wanted));
        self.call(alloc, place, Some(meta.id), meta.name.as_str(), step)
    }

    /// The meta topic of this id ended at a place.
    pub fn meta_ended(&mut self, alloc: Global, place: u64, id: u32) -> Result<(), AllocError>
        ensures owed { OnOk result (self.new ≡ meta_ended place id self.old) }
        ensures well { OnOk result (self.old.failed ≡ false) }
        ensures still_well { OnOk result (self.new.failed ≡ false) }
        ensures failed { OnErr result (self.new.failed ≡ true) }
    {
        self.call(alloc, place, Some(id), "", Step::Ended(place))
    }

    /// How many messages are owed: 0 where the connection has fallen behind.
    pub fn pending(&self) -> u64
        ensures { result ≡ length (keys_of self.now) }
    {
        if self.behind().is_some() {
            return 0;
        }
        self.kept.count()
    }

    /// The weight of what is queued: 0 where the connection has fallen behind.
    pub fn queued(&self) -> u64
        ensures { result ≡ weight_of self.now }
    {
        if self.behind().is_some() {
            return 0;
        }
        self.kept.weight()
    }

    /// The weight with which the connection has fallen behind: that after the last call of the
    /// first place at which it was more than 8,388,608.
    pub fn behind(&self) -> Option<u64>
        ensures { result ≡ behind self.now }
    {
        let queued = self.kept.weight();
        match self.fell {
            Some(weight) => Some(weight),
            None if queued > MOST_WEIGHT => Some(queued),
            None => None,
        }
    }

    /// Hands the first messages that are owed, at most `budget`, as the table and the meta topics
    /// tell them now: ends, then answers and changes of properties, then announces, then values. A
    /// value of a meta topic has `now`, in microseconds, as its time. Nothing is handed exactly
    /// where nothing is owed.
    pub fn drain(
        &mut self,
        alloc: Global,
        now: u64,
        budget: u32,
        table: &Table,
        metas: &[MetaNow],
    ) -> Result<Batch, AllocError>
        requires some { 1 ≤ budget }
        requires open { behind self.old ≡ None }
        ensures batch { IfOk result (λ b. b ≡ drained_batch
            (record { topics = table.now.topics; metas = metas.now }) now budget self.old) }
        ensures owed { OnOk result (self.new ≡ drained budget self.old) }
        ensures empty { IfOk result (λ b.
            ((b.texts ≡ []) × (b.values ≡ [])) ↔ (keys_of self.old ≡ [])) }
        ensures well { OnOk result (self.old.failed ≡ false) }
        ensures still_well { OnOk result (self.new.failed ≡ false) }
        ensures failed { OnErr result (self.new.failed ≡ true) }
    {
        if self.failed {
            return Err(AllocError);
        }
        let kept = mem::replace(&mut self.kept, Kept::new(alloc));
        match hand(alloc, now, budget, table, metas, kept) {
            Ok((batch, kept)) => {
                self.kept = kept;
                Ok(batch)
            }
            Err(_) => Err(self.fail()),
        }
    }
}

/// The id of a topic, where the number is one.
fn id_of(id: i64) -> Option<u32>
    ensures { result ≡ id_of id }
{
    u32::try_from(id).ok()
}

/// Hands the first messages that are owed, at most so many, and takes them out of what is kept.
fn hand(
    alloc: Global,
    now: u64,
    budget: u32,
    table: &Table,
    metas: &[MetaNow],
    kept: Kept,
) -> Result<(Batch, Kept), AllocError>
    requires { HasNoBlank kept }
    ensures batch { IfOk result (λ r. r.0 ≡ batch_of
        (record { topics = table.now.topics; metas = metas.now })
        now kept (take budget (keys kept))) }
    ensures kept { IfOk result (λ r. r.1 ≡ handed_all (take budget (keys kept)) kept) }
{
    let mut keys = kept.keys(alloc)?;
    keys.truncate(budget as usize);
    let batch = batch_of(alloc, table, metas, now, kept.marks(), &keys)?;
    let kept = kept.handed(alloc, keys)?;
    Ok((batch, kept))
}
