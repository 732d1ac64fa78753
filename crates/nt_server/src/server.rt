//! The server.

ghost use Rattle.std.specs.Prelude.{◌≡◌, ◌<◌, ◌^◌, true, false, List, [], length, IfOk, OnOk, OnErr};
ghost use Rattle.nt_rules.specs.declared.act.Entry.{Entry};
ghost use Rattle.nt_rules.specs.topics.Apart.{AreApart};
ghost use Rattle.nt_rules.specs.history.Changes.{added_changes};
ghost use Rattle.nt_rules.specs.history.Lives.{topics};
ghost use Rattle.nt_rules.specs.declared.start.Start.{Start};
ghost use Rattle.nt_rules.specs.history.Now.{now_of};
ghost use Rattle.nt_rules.specs.history.Owed.{owed, queued, behind};
ghost use Rattle.nt_rules.specs.history.Saved.{IsSavedSet, AreSaved};
ghost use Rattle.nt_rules.specs.history.Step.{MayAct, Represents, Steps, IsEntryOf};
ghost use Rattle.nt_laws.specs.Ids.{HaveLowIds};
ghost use Rattle.nt_server.specs.View.{begun};

use crate::acts::{Stepped, see_tree};
use crate::connections::OpenConnections;
use crate::inner::Inner;
use crate::restore::restored;
use crate::saved::saved_of;
use crate::taken::TakenPlaces;
use nt_rules::{Act, Saved};
use nt_table::Table;
use std::alloc::{AllocError, Global};
use std::marker::Model;

/// The server. One that met want of memory has failed for good: nothing is said of what it keeps
/// any more, and each later step fails too. Contracts see whether it failed, and its state.
#[derive(Drop)]
pub struct Server {
    failed: bool,
    inner: Inner,
}

impl Model for Server {
    ghost use Rattle.std.specs.Prelude.{◌≡◌, false};
    ghost use Rattle.nt_rules.specs.history.Step.{ServerState};
    ghost use Rattle.nt_topics.specs.contracts.properties.Props as props;
    ghost use Rattle.std.specs.Coded.{codes};

    ghost Value = { ServerState };

    ghost use Rattle.nt_server.specs.View.{state_of, IsKept};

    ghost coded = { Prim.hlevel (codes, props.the_row.coded) };

    ghost view = { λ s. record { failed = s.failed; state = state_of s.inner } };

    ghost invariant = { λ s. s.failed ≡ false → IsKept s.inner };
}

impl Server {
    /// A server without connections and topics, which grants so many permits.
    pub fn new(alloc: Global, permits: u32) -> Result<Server, AllocError>
        ensures { IfOk result
            (λ s. Represents s (record { permits = permits; saved = [] }) []) }
    {
        Ok(Server::over(alloc, permits, Table::new(alloc)))
    }

    /// A server without connections, over the topics that were saved: their ids are from 1, in the
    /// order of the list, and a value has the time 0. It grants so many permits.
    pub fn restore(alloc: Global, permits: u32, saved: Vec<Saved>) -> Result<Server, AllocError>
        requires { IsSavedSet saved.items }
        ensures { IfOk result
            (λ s. Represents s (record { permits = permits; saved = saved.items }) []) }
    {
        Ok(Server::over(alloc, permits, restored(alloc, saved)?))
    }

    /// A server without connections over these topics.
    fn over(alloc: Global, permits: u32, table: Table) -> Server
        requires { HaveLowIds table.topics table.next }
        ensures { result ≡ record {
          failed = false;
          state = record (begun permits []) { topics = table.topics; next = table.next };
        } }
    {
        Server {
            failed: false,
            inner: Inner {
                permits,
                granted: 0,
                shut: false,
                moment: 0,
                place: 0,
                table,
                connections: OpenConnections::new(alloc),
                taken: TakenPlaces::new(alloc),
                metas: None,
            },
        }
    }

    /// One act of a worker at this moment, in microseconds: what it is answered, its entry, and the
    /// changes that it makes. An entry's moment is never before that of the entry before it.
    ///
    /// # Errors
    ///
    /// Want of memory alone, and so too at the entry of the place 2^63 - 1. The
    /// server has then failed: each later step answers the same.
    pub fn step(
        &mut self,
        alloc: Global,
        worker: u32,
        now: u64,
        act: Act,
    ) -> Result<Stepped, AllocError>
        requires may { MayAct act }
        requires now { now < 2 ^ 63 }
        ensures steps { IfOk result (λ s. (start : Start) (past : List Entry)
            → Represents self.old start past
            → Steps start past worker now act s.out s.entry self.new) }
        ensures entry { IfOk result (λ s. IsEntryOf worker now act s.out s.entry) }
        ensures changes { IfOk result (λ s. (start : Start) (past : List Entry)
            → Represents self.old start past → s.changes ≡ added_changes start past s.entry) }
        ensures well { OnOk result (self.old.failed ≡ false) }
        ensures still_well { OnOk result (self.new.failed ≡ false) }
        ensures failed { OnErr result (self.new.failed ≡ true) }
    {
        if self.failed {
            drop(act);
            return Err(AllocError);
        }
        see_tree(&act);
        let stepped = self.inner.step_well(alloc, worker, now, act);
        self.failed = stepped.is_err();
        stepped
    }

    /// How many messages the connection is owed: none where it isn't open, or fell behind.
    pub fn pending(&self, conn: u32) -> u64
        ensures { (start : Start) (past : List Entry) → Represents self.now start past
            → result ≡ length (owed start past conn) }
    {
        match self.inner.connections.outbox(conn) {
            Some(outbox) => outbox.pending(),
            None => 0,
        }
    }

    /// What is queued for the connection weighs so much: nothing where it isn't open.
    pub fn queued(&self, conn: u32) -> u64
        ensures { (start : Start) (past : List Entry) → Represents self.now start past
            → result ≡ queued start past conn }
    {
        match self.inner.connections.outbox(conn) {
            Some(outbox) => outbox.queued(),
            None => 0,
        }
    }

    /// The weight with which the connection, where it is open, fell behind.
    pub fn is_behind(&self, conn: u32) -> Option<u64>
        ensures { (start : Start) (past : List Entry) → Represents self.now start past
            → result ≡ behind start past conn }
    {
        match self.inner.connections.outbox(conn) {
            Some(outbox) => outbox.behind(),
            None => None,
        }
    }

    /// Whether the server is shut.
    pub fn is_shut(&self) -> bool
        ensures { (start : Start) (past : List Entry) → Represents self.now start past
            → result ≡ (now_of start past).shut }
    {
        self.inner.shut
    }

    /// The topics that are saved: the persistent ones, by the bytes of their names, with their held
    /// values.
    pub fn saved(&self, alloc: Global) -> Result<Vec<Saved>, AllocError>
        ensures { IfOk result (λ saved. (start : Start) (past : List Entry)
            → Represents self.now start past
            → AreSaved (topics (now_of start past).lives) saved.items) }
    {
        saved_of(alloc, &self.inner.table)
    }

    /// The table of topics. They stand by rising id, and no two have one id or one name.
    pub fn table(&self) -> &Table
        ensures topics { (start : Start) (past : List Entry) → Represents self.now start past
            → result.now.topics ≡ topics (now_of start past).lives }
        ensures apart { (start : Start) (past : List Entry) → Represents self.now start past
            → AreApart result.now.topics }
    {
        &self.inner.table
    }
}
