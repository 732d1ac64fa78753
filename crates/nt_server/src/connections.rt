//! The open connections.

ghost use Rattle.std.specs.Prelude.{◌≡◌, ◌≤◌, ◌<◌, false, List, [], filter, length, map, not, if◌then◌else◌, MatchResult, IfOk, OnOk};
ghost use Rattle.std.specs.Option.{MatchOption};
ghost use Rattle.nt_subs.specs.Wishes.{wanted};
ghost use Rattle.nt_rules.specs.Sorted.{RisesFrom, IsMissedAt};
ghost use Rattle.nt_rules.specs.outbox.Calls.{nothing_owed, behind, drained_batch};
ghost use Rattle.nt_rules.specs.history.Answer.{drained_out};
ghost use Rattle.nt_rules.specs.history.State.{is_number, serves, subs_at, outbox_at, with_outbox, open_metas, with_subs_of, rewanting, refreshed, changes_noted, message_noted, turn_noted, drained_from};
ghost use Rattle.nt_laws.specs.Ids.{AreLowTopics};
ghost use Rattle.nt_rules.specs.declared.meta.MetaNow.{MetaNow};
ghost use Rattle.nt_rules.specs.declared.topic.Topic.{Topic};
ghost use Rattle.nt_server.specs.Connections.{number, number_at, IsOpenAt, IsServedAt, AreSpent, IsOpened, resubscribed, reached_all, told_metas, metas_if};
ghost use Rattle.nt_server.specs.MetaWishes.{WereKept, AreKept};

use crate::differences::{differences, tell_differences};
use crate::names::given_name;
use crate::open::Open;
use crate::roster::metas_of;
use crate::special::gives_special;
use crate::taken::TakenPlaces;
use crate::telling::{tell_changes, tell_message};
use crate::wishes::rewant;
use nt_outbox::Outbox;
use nt_rules::{Cause, Change, LAST_CONNECTION, MetaNow, Metas, Msg, StepOut};
use nt_subs::SubSet;
use nt_table::Table;
use nt_topics::{ClientName, Name};
use std::alloc::{AllocError, Global};
use std::marker::Model;
use std::mem;

/// The open connections, by rising number, and how many were opened.
#[derive(Drop)]
pub struct OpenConnections {
    opened: u32,
    list: Vec<Open>,
}

impl Model for OpenConnections {
    ghost use Rattle.nt_server.specs.Connections.{Connections, AreNumbered};
    ghost use Rattle.nt_topics.specs.contracts.properties.Update as update;
    ghost use Rattle.std.specs.Coded.{codes};

    ghost Value = { Connections };

    ghost coded = { Prim.hlevel (codes, update.the_row.coded) };

    ghost view = { λ c. record { opened = c.opened; opens = c.list.items } };

    ghost invariant = { λ c. AreNumbered c.opened c.list.items };
}

/// Where a connection stands, or else would stand.
fn index_of(list: &[Open], conn: u32) -> Result<usize, usize>
    requires { RisesFrom number 0 list.now }
    ensures { MatchResult result (IsOpenAt conn list.now) (IsMissedAt number conn list.now) }
{
    list.binary_search_by_key(&conn, |client| client.conn)
}

impl OpenConnections {
    /// None was opened yet.
    pub fn new(alloc: Global) -> OpenConnections
        ensures { result ≡ record { opened = 0; opens = [] } }
    {
        OpenConnections {
            opened: 0,
            list: Vec::new(alloc),
        }
    }

    /// Where a connection stands, if it is open for the worker.
    #[tactic(auto, using(crate::proofs::Numbers::number_found, crate::proofs::Numbers::serves_found, crate::proofs::Numbers::serves_missed))]
    pub fn served(&self, worker: u32, conn: u32) -> Option<usize>
        ensures { MatchOption result (serves self.now.opens worker conn ≡ false)
            (IsServedAt worker conn self.now.opens) }
    {
        match index_of(&self.list, conn) {
            Ok(i) => {
                let client = &self.list[i];
                if client.worker == worker {
                    return Some(i);
                }
                None
            }
            Err(_) => None,
        }
    }

    /// What a connection is owed, if it is open.
    #[tactic(auto, using(crate::proofs::Numbers::outbox_found, crate::proofs::Numbers::outbox_missed))]
    pub fn outbox(&self, conn: u32) -> Option<&Outbox>
        ensures { MatchOption result (outbox_at self.now.opens conn ≡ nothing_owed)
            (λ outbox. outbox.now ≡ outbox_at self.now.opens conn) }
    {
        match index_of(&self.list, conn) {
            Ok(i) => {
                let client = &self.list[i];
                Some(&client.outbox)
            }
            Err(_) => None,
        }
    }

    /// The subscriptions of the connection that stands there.
    #[tactic(auto, using(crate::proofs::Numbers::found_there, crate::proofs::Numbers::subs_found))]
    pub fn subs(&self, i: usize) -> &SubSet
        requires { i < length self.now.opens }
        ensures { result.now ≡ subs_at self.now.opens (number_at self.now.opens i) }
    {
        let client = &self.list[i];
        &client.subs
    }

    /// Opens a connection under the next number, and answers that and the name that it is given. It
    /// answers none where all numbers are spent.
    pub fn open(
        &mut self,
        alloc: Global,
        worker: u32,
        name: &ClientName,
    ) -> Result<Option<(u32, Name)>, AllocError>
        ensures { IfOk result (λ given. MatchOption given (AreSpent self.old self.new)
            (IsOpened self.old worker name.now self.new)) }
    {
        if self.opened >= LAST_CONNECTION {
            return Ok(None);
        }
        let given = given_name(alloc, &self.list, name)?;
        let conn = self.opened + 1;
        self.list.push(Open {
            conn,
            worker,
            name: given.copy(alloc)?,
            subs: SubSet::new(alloc),
            outbox: Outbox::new(alloc),
        })?;
        self.opened = conn;
        Ok(Some((conn, given)))
    }

    /// Closes a connection, and says whether it was open for the worker.
    pub fn close(&mut self, worker: u32, conn: u32) -> bool
        ensures served { result ≡ serves self.old.opens worker conn }
        ensures rest { self.new ≡ (if serves self.old.opens worker conn
            then record self.old { opens = filter (λ o. not (is_number conn o)) self.old.opens }
            else self.old) }
    {
        match self.served(worker, conn) {
            Some(i) => {
                let _closed = self.list.remove(i);
                true
            }
            None => false,
        }
    }

    /// Tells each connection of changes, over the topics after them. Where that fails, none is
    /// left.
    pub fn tell(
        &mut self,
        alloc: Global,
        place: u64,
        table: &Table,
        changes: &[Change],
    ) -> Result<(), AllocError>
        ensures { OnOk result (self.new ≡ record self.old {
          opens = map (changes_noted place table.now.topics changes.now) self.old.opens;
        }) }
    {
        let mut list = mem::replace(&mut self.list, Vec::new(alloc));
        for client in list.iter_mut() {
            tell_changes(alloc, client, place, table, changes)?;
        }
        self.list = list;
        Ok(())
    }

    /// Tells each connection of a message that counted, over the topics after it, and first of the
    /// topic that it turned, if any. Where that fails, none is left.
    pub fn tell_message(
        &mut self,
        alloc: Global,
        place: u64,
        table: &Table,
        conn: u32,
        msg: &Msg,
        changes: &[Change],
        turned: Option<u32>,
    ) -> Result<(), AllocError>
        ensures { OnOk result (self.new ≡ record self.old {
          opens = map (λ o. message_noted place table.now.topics conn msg.now changes.now
              (turn_noted place turned o)) self.old.opens;
        }) }
    {
        let mut list = mem::replace(&mut self.list, Vec::new(alloc));
        for client in list.iter_mut() {
            tell_message(alloc, client, place, table, conn, msg, changes, turned)?;
        }
        self.list = list;
        Ok(())
    }

    /// Brings each outbox to a place.
    fn reach(&mut self, alloc: Global, place: u64)
        ensures { self.new ≡ record self.old { opens = reached_all place self.old.opens } }
    {
        let mut list = mem::replace(&mut self.list, Vec::new(alloc));
        for client in list.iter_mut() {
            let _open = client.outbox.reach(place);
        }
        self.list = list;
    }

    /// Tells each connection what is different between these meta topics before and after, once it
    /// came to the place. Where that fails, none is left.
    fn tell_metas(
        &mut self,
        alloc: Global,
        place: u64,
        before: &[MetaNow],
        after: &[MetaNow],
    ) -> Result<(), AllocError>
        ensures { OnOk result (self.new ≡ record self.old {
          opens = told_metas place before.now after.now self.old.opens;
        }) }
    {
        let found = differences(alloc, before, after)?;
        let mut list = mem::replace(&mut self.list, Vec::new(alloc));
        for client in list.iter_mut() {
            tell_differences(alloc, &mut client.outbox, &client.subs, place, &found)?;
        }
        self.list = list;
        Ok(())
    }

    /// Makes the meta topics anew, and tells each connection what is different of them. Where none
    /// are made, no connection wants one, and each only comes to the place.
    pub fn refresh(
        &mut self,
        alloc: Global,
        place: u64,
        table: &Table,
        metas: &mut Option<Metas>,
    ) -> Result<(), AllocError>
        ensures connections { (os : List Open) (us : List Topic)
            → WereKept metas.old (open_metas os us) self.old.opens
            → OnOk result (self.new ≡ record self.old {
              opens = refreshed place (open_metas os us) table.now.topics self.old.opens;
            }) }
        ensures metas { (before : List MetaNow) → WereKept metas.old before self.old.opens
            → OnOk result (AreKept metas.new self.new.opens table.now.topics) }
    {
        let Some(before) = metas.take() else {
            self.reach(alloc, place);
            return Ok(());
        };
        let after = metas_of(alloc, &self.list, table)?;
        self.tell_metas(alloc, place, before.as_slice(), after.as_slice())?;
        *metas = Some(after);
        Ok(())
    }

    /// Gives the connection that stands there other subscriptions in place of its own, and tells it
    /// what is wanted more or less by them. It answers the meta topics after that: none where they
    /// are not to be made.
    fn rewant(
        &mut self,
        alloc: Global,
        place: u64,
        i: usize,
        subs: SubSet,
        table: &Table,
        taken: &TakenPlaces,
        makes: bool,
    ) -> Result<Metas, AllocError>
        requires { i < length self.old.opens }
        ensures metas { IfOk result (λ after. after ≡ metas_if makes
            (with_subs_of (number_at self.old.opens i) subs self.old.opens) table.now.topics) }
        ensures connections { IfOk result (λ after. self.new ≡ record self.old {
          opens = rewanting place taken.now table.now.topics after (number_at self.old.opens i)
              (subs_at self.old.opens (number_at self.old.opens i))
              (with_subs_of (number_at self.old.opens i) subs self.old.opens);
        }) }
    {
        let client = &mut self.list[i];
        let old = mem::replace(&mut client.subs, subs);
        let after = if makes {
            metas_of(alloc, &self.list, table)?
        } else {
            Metas::empty(alloc)
        };
        let client = &mut self.list[i];
        rewant(
            alloc,
            &mut client.outbox,
            place,
            table,
            taken,
            after.as_slice(),
            &old,
            &client.subs,
        )?;
        Ok(after)
    }

    /// Gives the connection that stands there other subscriptions in place of its own, and tells
    /// what is wanted more or less by them. Meta topics are made from the first on that gives a
    /// special name.
    pub fn resubscribe(
        &mut self,
        alloc: Global,
        place: u64,
        i: usize,
        subs: SubSet,
        table: &Table,
        taken: &TakenPlaces,
        metas: &mut Option<Metas>,
    ) -> Result<(), AllocError>
        requires within { i < length self.old.opens }
        requires kept { AreKept metas.old self.old.opens table.now.topics }
        requires ids { AreLowTopics table.now.topics }
        ensures connections { OnOk result (self.new ≡ record self.old {
          opens = resubscribed place (open_metas self.old.opens table.now.topics) taken.now
              table.now.topics (number_at self.old.opens i) subs self.old.opens;
        }) }
        ensures metas { OnOk result (AreKept metas.new self.new.opens table.now.topics) }
    {
        let before = match metas.take() {
            None if !gives_special(&subs) => {
                let _none = self.rewant(alloc, place, i, subs, table, taken, false)?;
                self.reach(alloc, place);
                return Ok(());
            }
            None => metas_of(alloc, &self.list, table)?,
            Some(before) => before,
        };
        let after = self.rewant(alloc, place, i, subs, table, taken, true)?;
        self.tell_metas(alloc, place, before.as_slice(), after.as_slice())?;
        *metas = Some(after);
        Ok(())
    }

    /// Hands a connection, where it is open for the worker, what it is owed, at most `budget`
    /// messages, and nothing where it has fallen behind. The moment is in microseconds.
    pub fn drain(
        &mut self,
        alloc: Global,
        worker: u32,
        conn: u32,
        moment: u64,
        budget: u32,
        table: &Table,
        metas: &[MetaNow],
    ) -> Result<StepOut, AllocError>
        requires { 1 ≤ budget }
        ensures out { IfOk result (λ out. out ≡ (if serves self.old.opens worker conn
            then drained_out (behind (outbox_at self.old.opens conn))
            (drained_batch (record { topics = table.now.topics; metas = metas.now }) moment budget
            (outbox_at self.old.opens conn))
            else StepOut.Ignored Cause.NoConn)) }
        ensures connections { OnOk result (self.new ≡ (if serves self.old.opens worker conn
            then record self.old { opens = map (drained_from conn budget) self.old.opens }
            else self.old)) }
    {
        let Some(i) = self.served(worker, conn) else {
            return Ok(StepOut::Ignored(Cause::NoConn));
        };
        let client = &self.list[i];
        if let Some(_weight) = client.outbox.behind() {
            return Ok(StepOut::Ignored(Cause::Behind));
        }
        let client = &mut self.list[i];
        let batch = client.outbox.drain(alloc, moment, budget, table, metas)?;
        Ok(StepOut::Drained(batch))
    }
}
