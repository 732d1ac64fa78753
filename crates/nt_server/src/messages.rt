//! What a connection says.

ghost use Rattle.std.specs.Prelude.{◌≡◌, ◌<◌, List, [], length, IfOk, OnOk};
ghost use Rattle.nt_rules.specs.topics.Changes.{outcome_of};
ghost use Rattle.nt_subs.specs.Subscriptions.{with_sub, without_sub};
ghost use Rattle.nt_rules.specs.history.Now.{subscribe_cause, unsubscribe_cause};
ghost use Rattle.nt_rules.specs.declared.topic.Topic.{Topic};
ghost use Rattle.nt_rules.specs.history.State.{Open, open_metas, subs_at, cause_at, changes_said, if_taken, subscribed, said_to};
ghost use Rattle.nt_rules.specs.history.Step.{IsPut};
ghost use Rattle.nt_server.specs.Connections.{number_at};
ghost use Rattle.nt_server.specs.MetaWishes.{WereKept};
ghost use Rattle.nt_server.specs.View.{state_of, IsKept, IsKeptAfter, cached_of, turned_since, settled};

use crate::inner::Inner;
use nt_control::ClientMsg;
use nt_rules::{Cause, Changes, Msg, Outcome};
use nt_subs::{Added, Sub, SubSet};
use nt_table::Table;
use std::alloc::{AllocError, Global};

/// Whether the topic whose properties a message sets is cached, where it is there.
fn cached_of(table: &Table, msg: &Msg) -> Option<bool>
    ensures { result ≡ cached_of table.now.topics msg.now }
{
    match msg {
        Msg::Control(ClientMsg::SetProps { name, .. }) => {
            let topic = table.topic(name.as_str())?;
            Some(topic.props.cached())
        }
        _other => None,
    }
}

/// The id of the topic that a message turned, over the topics after it, where it is known whether
/// it was cached before.
fn turned(table: &Table, msg: &Msg, was_cached: Option<bool>) -> Option<u32>
    ensures { result ≡ turned_since was_cached table.now.topics msg.now }
{
    let Msg::Control(ClientMsg::SetProps { name, .. }) = msg else {
        return None;
    };
    let was_cached = was_cached?;
    let topic = table.topic(name.as_str())?;
    if topic.props.cached() == was_cached {
        return None;
    }
    Some(topic.id)
}

impl Inner {
    /// Tells of a message to a topic, where it counted. A topic whose properties it set was cached
    /// before or wasn't.
    fn settle(
        &mut self,
        alloc: Global,
        place: u64,
        conn: u32,
        msg: &Msg,
        was_cached: Option<bool>,
        outcome: Outcome,
    ) -> Result<Outcome, AllocError>
        requires { IsKeptAfter msg.now outcome self.old }
        ensures outcome { IfOk result (λ o. o ≡ outcome) }
        ensures state { (os : List Open) (us : List Topic)
            → WereKept self.old.metas (open_metas os us) self.old.connections.opens
            → OnOk result (state_of self.new
            ≡ settled (open_metas os us) was_cached place conn msg.now outcome (state_of self.old)) }
        ensures kept { OnOk result (IsKept self.new) }
    {
        let Outcome::Done(changes) = &outcome else {
            return Ok(outcome);
        };
        let changes = changes.as_slice();
        let table = &self.table;
        let turned = turned(table, msg, was_cached);
        self.connections
            .tell_message(alloc, place, table, conn, msg, changes, turned)?;
        self.taken.take_changes(place, table, changes)?;
        if let Msg::Put(_) = msg {
            return Ok(outcome);
        }
        self.connections
            .refresh(alloc, place, &self.table, &mut self.metas)?;
        Ok(outcome)
    }

    /// Gives the connection that stands there other subscriptions in place of its own.
    fn resubscribe(
        &mut self,
        alloc: Global,
        place: u64,
        i: usize,
        subs: SubSet,
    ) -> Result<Outcome, AllocError>
        requires kept { IsKept self.old }
        requires within { i < length self.old.connections.opens }
        ensures outcome { IfOk result (λ o. o ≡ Outcome.Done []) }
        ensures state { OnOk result (state_of self.new ≡ subscribed (state_of self.old) place
            (number_at self.old.connections.opens i) subs) }
        ensures kept { OnOk result (IsKept self.new) }
    {
        self.connections.resubscribe(
            alloc,
            place,
            i,
            subs,
            &self.table,
            &self.taken,
            &mut self.metas,
        )?;
        Ok(Outcome::Done(Changes::empty(alloc)))
    }

    /// A subscription of the connection that stands there.
    fn subscribe(
        &mut self,
        alloc: Global,
        place: u64,
        i: usize,
        uid: i64,
        sub: &Sub,
    ) -> Result<Outcome, AllocError>
        requires kept { IsKept self.old }
        requires within { i < length self.old.connections.opens }
        ensures outcome { IfOk result (λ o. o ≡ outcome_of (subscribe_cause (with_sub uid sub.now
            (subs_at self.old.connections.opens (number_at self.old.connections.opens i)))) []) }
        ensures state { OnOk result (state_of self.new ≡ if_taken
            (subscribe_cause (with_sub uid sub.now
            (subs_at self.old.connections.opens (number_at self.old.connections.opens i))))
            (subscribed (state_of self.old) place (number_at self.old.connections.opens i)
            (with_sub uid sub.now
            (subs_at self.old.connections.opens (number_at self.old.connections.opens i))))
            (state_of self.old)) }
        ensures kept { OnOk result (IsKept self.new) }
    {
        let mut subs = self.connections.subs(i).copy(alloc)?;
        match subs.add(uid, sub.copy(alloc)?)? {
            Added::TooMany => Ok(Outcome::Ignored(Cause::TooMany)),
            Added::New | Added::Replaced => self.resubscribe(alloc, place, i, subs),
        }
    }

    /// The end of a subscription of the connection that stands there.
    fn unsubscribe(
        &mut self,
        alloc: Global,
        place: u64,
        i: usize,
        uid: i64,
    ) -> Result<Outcome, AllocError>
        requires kept { IsKept self.old }
        requires within { i < length self.old.connections.opens }
        ensures outcome { IfOk result (λ o. o ≡ outcome_of (unsubscribe_cause
            (subs_at self.old.connections.opens (number_at self.old.connections.opens i)) uid) []) }
        ensures state { OnOk result (state_of self.new ≡ if_taken
            (unsubscribe_cause
            (subs_at self.old.connections.opens (number_at self.old.connections.opens i)) uid)
            (subscribed (state_of self.old) place (number_at self.old.connections.opens i)
            (without_sub uid
            (subs_at self.old.connections.opens (number_at self.old.connections.opens i))))
            (state_of self.old)) }
        ensures kept { OnOk result (IsKept self.new) }
    {
        let mut subs = self.connections.subs(i).copy(alloc)?;
        if !subs.remove(uid) {
            return Ok(Outcome::Ignored(Cause::NoSuchUid));
        }
        self.resubscribe(alloc, place, i, subs)
    }

    /// What a connection says: the changes that it made, or the cause that refuses it.
    pub fn hear(
        &mut self,
        alloc: Global,
        worker: u32,
        place: u64,
        conn: u32,
        msg: &Msg,
    ) -> Result<Outcome, AllocError>
        requires put { IsPut msg.now }
        requires kept { IsKept self.old }
        ensures outcome { IfOk result (λ o. o ≡ outcome_of
            (cause_at (state_of self.old) worker conn msg.now)
            (changes_said self.old.table.topics self.old.table.next conn msg.now)) }
        ensures state { OnOk result (state_of self.new
            ≡ if_taken (cause_at (state_of self.old) worker conn msg.now)
            (said_to (state_of self.old) place conn msg.now) (state_of self.old)) }
        ensures kept { OnOk result (IsKept self.new) }
    {
        let Some(i) = self.connections.served(worker, conn) else {
            return Ok(Outcome::Ignored(Cause::NoConn));
        };
        let was_cached = cached_of(&self.table, msg);
        match msg {
            Msg::Control(ClientMsg::Subscribe { uid, sub }) => {
                self.subscribe(alloc, place, i, *uid, sub)
            }
            Msg::Control(ClientMsg::Unsubscribe { uid }) => {
                self.unsubscribe(alloc, place, i, *uid)
            }
            Msg::Control(
                ClientMsg::Publish {
                    name,
                    uid,
                    typ,
                    props,
                },
            ) => {
                let (name, typ) = (name.copy(alloc)?, typ.copy(alloc)?);
                let outcome = self
                    .table
                    .publish(alloc, conn, *uid, name, typ, props.copy()?)?;
                self.settle(alloc, place, conn, msg, was_cached, outcome)
            }
            Msg::Control(ClientMsg::Unpublish { uid }) => {
                let outcome = self.table.unpublish(alloc, conn, *uid)?;
                self.settle(alloc, place, conn, msg, was_cached, outcome)
            }
            Msg::Control(ClientMsg::SetProps { name, update }) => {
                let outcome = self.table.set_props(alloc, name, update.copy()?)?;
                self.settle(alloc, place, conn, msg, was_cached, outcome)
            }
            Msg::Put(v) => {
                let outcome = self
                    .table
                    .put(alloc, conn, v.id, v.time, v.value.copy(alloc)?)?;
                self.settle(alloc, place, conn, msg, was_cached, outcome)
            }
        }
    }
}
