//! What an act does to what a server keeps.

ghost use Rattle.std.specs.Prelude.{◌≡◌, ◌≤◌, ◌+◌, true, [], map, max, if◌then◌else◌, IfOk, OnOk};
ghost use Rattle.nt_rules.specs.history.Answer.{entry, drained_batch};
ghost use Rattle.nt_rules.specs.history.State.{serves, drained_from, drained_answer, may_grant, acted_at, acted, reply, changes_by};
ghost use Rattle.nt_rules.specs.history.Step.{IsPut, MayAct};
ghost use Rattle.nt_rules.specs.history.Trees.{BringsTree};
ghost use Rattle.nt_server.specs.MetaWishes.{known};
ghost use Rattle.nt_server.specs.View.{state_of, IsKept};

use crate::inner::Inner;
use nt_control::ClientMsg;
use nt_rules::{Act, Batch, Cause, Changes, Deed, Entry, MetaNow, Metas, Msg, Outcome, StepOut};
use nt_topics::{ClientName, Version};
use std::alloc::{AllocError, Global};

/// The last place of an entry: 2^63 - 2.
const LAST_PLACE: u64 = 9_223_372_036_854_775_806;

/// What an act is answered, its entry, and the changes that it makes.
#[derive(Drop)]
pub struct Stepped {
    pub out: StepOut,
    pub entry: Entry,
    pub changes: Changes,
}

/// The messages that an answer hands, as an entry tells them: none where nothing was handed.
fn handed(alloc: Global, out: &StepOut) -> Result<Batch, AllocError>
    ensures { IfOk result (λ batch. batch ≡ drained_batch out.now) }
{
    match out {
        StepOut::Drained(batch) => batch.copy(alloc),
        _other => Ok(Batch::empty(alloc)),
    }
}

/// The meta topics, as far as they are kept.
fn known(metas: &Option<Metas>) -> &[MetaNow]
    ensures { result.now ≡ known metas.now }
{
    match metas {
        Some(metas) => metas.as_slice(),
        None => &[],
    }
}

/// Sees that the keys of the properties that an act publishes rise, as those of all `Props` do.
pub fn see_tree(act: &Act)
    ensures { BringsTree act.now }
{
    match act {
        Act::Said {
            msg: Msg::Control(ClientMsg::Publish { props, .. }),
            ..
        } => {
            let _tree = props.tree();
        }
        _other => {}
    }
}

impl Inner {
    /// A connection of this name opens.
    fn open(
        &mut self,
        alloc: Global,
        worker: u32,
        place: u64,
        moment: u64,
        name: &ClientName,
        version: Version,
    ) -> Result<Stepped, AllocError>
        requires { IsKept self.old }
        ensures out { IfOk result
            (λ s. s.out ≡ reply (state_of self.old) worker moment (Act.Open name.now version)) }
        ensures entry { IfOk result (λ s. s.entry ≡ entry worker moment (Act.Open name.now version) s.out) }
        ensures changes { IfOk result (λ s. s.changes ≡ []) }
        ensures state { OnOk result
            (state_of self.new ≡ acted_at (state_of self.old) place worker (Act.Open name.now version)) }
        ensures kept { OnOk result (IsKept self.new) }
    {
        let Some((conn, name)) = self.connections.open(alloc, worker, name)? else {
            return Ok(Stepped {
                out: StepOut::Ignored(Cause::ConnsSpent),
                entry: Entry {
                    worker,
                    conn: 0,
                    now: moment,
                    deed: Deed::NotOpened,
                },
                changes: Changes::empty(alloc),
            });
        };
        self.connections
            .refresh(alloc, place, &self.table, &mut self.metas)?;
        Ok(Stepped {
            out: StepOut::Opened {
                conn,
                name: name.copy(alloc)?,
            },
            entry: Entry {
                worker,
                conn,
                now: moment,
                deed: Deed::Opened(name),
            },
            changes: Changes::empty(alloc),
        })
    }

    /// A connection says something.
    #[tactic(auto, using(crate::proofs::Counts::said_done, crate::proofs::Counts::said_ignored))]
    fn said(
        &mut self,
        alloc: Global,
        worker: u32,
        place: u64,
        moment: u64,
        conn: u32,
        msg: Msg,
    ) -> Result<Stepped, AllocError>
        requires put { IsPut msg }
        requires kept { IsKept self.old }
        ensures out { IfOk result
            (λ s. s.out ≡ reply (state_of self.old) worker moment (Act.Said conn msg)) }
        ensures entry { IfOk result (λ s. s.entry ≡ entry worker moment (Act.Said conn msg) s.out) }
        ensures changes { IfOk result
            (λ s. s.changes ≡ changes_by (state_of self.old) worker (Act.Said conn msg)) }
        ensures state { OnOk result
            (state_of self.new ≡ acted_at (state_of self.old) place worker (Act.Said conn msg)) }
        ensures kept { OnOk result (IsKept self.new) }
    {
        let outcome = self.hear(alloc, worker, place, conn, &msg)?;
        let entry = Entry {
            worker,
            conn,
            now: moment,
            deed: Deed::Said(msg),
        };
        match outcome {
            Outcome::Done(changes) => Ok(Stepped {
                out: StepOut::Done,
                entry,
                changes,
            }),
            Outcome::Ignored(cause) => Ok(Stepped {
                out: StepOut::Ignored(cause),
                entry,
                changes: Changes::empty(alloc),
            }),
        }
    }

    /// A connection is handed what it is owed.
    fn drain(
        &mut self,
        alloc: Global,
        worker: u32,
        moment: u64,
        conn: u32,
        budget: u32,
    ) -> Result<Stepped, AllocError>
        requires some { 1 ≤ budget }
        requires kept { IsKept self.old }
        ensures out { IfOk result (λ s. s.out ≡ (if serves self.old.connections.opens worker conn
            then drained_answer (state_of self.old) moment conn budget
            else StepOut.Ignored Cause.NoConn)) }
        ensures entry { IfOk result
            (λ s. s.entry ≡ entry worker moment (Act.Drain conn budget) s.out) }
        ensures changes { IfOk result (λ s. s.changes ≡ []) }
        ensures state { OnOk result (state_of self.new ≡ (if serves self.old.connections.opens worker conn
            then record (state_of self.old) {
              opens = map (drained_from conn budget) self.old.connections.opens;
            }
            else state_of self.old)) }
        ensures kept { OnOk result (IsKept self.new) }
    {
        let out = self.connections.drain(
            alloc,
            worker,
            conn,
            moment,
            budget,
            &self.table,
            known(&self.metas),
        )?;
        let batch = handed(alloc, &out)?;
        Ok(Stepped {
            out,
            entry: Entry {
                worker,
                conn,
                now: moment,
                deed: Deed::Drained(batch),
            },
            changes: Changes::empty(alloc),
        })
    }

    /// A connection closes.
    fn close(
        &mut self,
        alloc: Global,
        worker: u32,
        place: u64,
        moment: u64,
        conn: u32,
    ) -> Result<Stepped, AllocError>
        requires { IsKept self.old }
        ensures out { IfOk result
            (λ s. s.out ≡ reply (state_of self.old) worker moment (Act.Close conn)) }
        ensures entry { IfOk result (λ s. s.entry ≡ entry worker moment (Act.Close conn) s.out) }
        ensures changes { IfOk result
            (λ s. s.changes ≡ changes_by (state_of self.old) worker (Act.Close conn)) }
        ensures state { OnOk result
            (state_of self.new ≡ acted_at (state_of self.old) place worker (Act.Close conn)) }
        ensures kept { OnOk result (IsKept self.new) }
    {
        let entry = Entry {
            worker,
            conn,
            now: moment,
            deed: Deed::Closed,
        };
        if !self.connections.close(worker, conn) {
            return Ok(Stepped {
                out: StepOut::Ignored(Cause::NoConn),
                entry,
                changes: Changes::empty(alloc),
            });
        }
        let changes = self.table.drop_conn(alloc, conn)?;
        let told = changes.as_slice();
        self.connections.tell(alloc, place, &self.table, told)?;
        self.taken.take_changes(place, &self.table, told)?;
        self.connections
            .refresh(alloc, place, &self.table, &mut self.metas)?;
        Ok(Stepped {
            out: StepOut::Closed,
            entry,
            changes,
        })
    }

    /// A worker asks for a permit.
    fn permit(&mut self, alloc: Global, worker: u32, moment: u64) -> Stepped
        ensures out { result.out ≡ reply (state_of self.old) worker moment Act.Permit }
        ensures entry { result.entry ≡ entry worker moment Act.Permit result.out }
        ensures changes { result.changes ≡ [] }
        ensures state { state_of self.new ≡ (if may_grant (state_of self.old)
            then record (state_of self.old) { granted = self.old.granted + 1 }
            else state_of self.old) }
        ensures kept { IsKept self.old → IsKept self.new }
    {
        let (out, deed) = if self.granted < self.permits && !self.shut {
            self.granted += 1;
            (StepOut::Permitted, Deed::Permitted)
        } else {
            (StepOut::NoPermit, Deed::NoPermit)
        };
        Stepped {
            out,
            entry: Entry {
                worker,
                conn: 0,
                now: moment,
                deed,
            },
            changes: Changes::empty(alloc),
        }
    }

    /// The server shuts.
    fn shut_down(&mut self, alloc: Global, worker: u32, moment: u64) -> Stepped
        ensures out { result.out ≡ StepOut.Shut }
        ensures entry { result.entry ≡ entry worker moment Act.Shut result.out }
        ensures changes { result.changes ≡ [] }
        ensures state { state_of self.new ≡ record (state_of self.old) { shut = true } }
        ensures kept { IsKept self.old → IsKept self.new }
    {
        self.shut = true;
        Stepped {
            out: StepOut::Shut,
            entry: Entry {
                worker,
                conn: 0,
                now: moment,
                deed: Deed::Shut,
            },
            changes: Changes::empty(alloc),
        }
    }

    /// An act at this place, not yet counted.
    fn act(
        &mut self,
        alloc: Global,
        worker: u32,
        place: u64,
        now: u64,
        act: Act,
    ) -> Result<Stepped, AllocError>
        requires may { MayAct act }
        requires kept { IsKept self.old }
        ensures out { IfOk result (λ s. s.out ≡ reply (state_of self.old) worker now act) }
        ensures entry { IfOk result
            (λ s. s.entry ≡ entry worker (max self.old.moment now) act s.out) }
        ensures changes { IfOk result (λ s. s.changes ≡ changes_by (state_of self.old) worker act) }
        ensures state { OnOk result
            (state_of self.new ≡ acted_at (state_of self.old) place worker act) }
        ensures kept { OnOk result (IsKept self.new) }
    {
        let moment = self.moment.max(now);
        match act {
            Act::Open { name, version } => self.open(alloc, worker, place, moment, &name, version),
            Act::Said { conn, msg } => self.said(alloc, worker, place, moment, conn, msg),
            Act::Drain { conn, budget } => self.drain(alloc, worker, moment, conn, budget),
            Act::Close { conn } => self.close(alloc, worker, place, moment, conn),
            Act::Permit => Ok(self.permit(alloc, worker, moment)),
            Act::Shut => Ok(self.shut_down(alloc, worker, moment)),
        }
    }

    /// One act of a worker at this moment, in microseconds. It fails for want of memory alone, and
    /// so where there are 2^63 - 2 entries.
    pub fn step_well(
        &mut self,
        alloc: Global,
        worker: u32,
        now: u64,
        act: Act,
    ) -> Result<Stepped, AllocError>
        requires may { MayAct act }
        requires kept { IsKept self.old }
        ensures out { IfOk result (λ s. s.out ≡ reply (state_of self.old) worker now act) }
        ensures entry { IfOk result
            (λ s. s.entry ≡ entry worker (max self.old.moment now) act s.out) }
        ensures changes { IfOk result (λ s. s.changes ≡ changes_by (state_of self.old) worker act) }
        ensures state { OnOk result
            (state_of self.new ≡ acted (state_of self.old) worker now act) }
        ensures kept { OnOk result (IsKept self.new) }
    {
        if self.place >= LAST_PLACE {
            drop(act);
            return Err(AllocError);
        }
        let place = self.place + 1;
        let moment = self.moment.max(now);
        let stepped = self.act(alloc, worker, place, now, act)?;
        self.place = place;
        self.moment = moment;
        Ok(stepped)
    }
}
