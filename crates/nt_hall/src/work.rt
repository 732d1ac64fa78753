//! What is done in a turn.

ghost use Rattle.std.specs.Prelude.{◌≡◌, ◌+◌, ◌<◌, ◌^◌, List, IfOk, MatchResult};
ghost use Rattle.nt_rules.specs.declared.act.Entry.{Entry};
ghost use Rattle.nt_rules.specs.declared.start.Start.{Start};
ghost use Rattle.nt_record.specs.declared.recorder.RecState.TheVariants.{Off};
ghost use Rattle.nt_rules.specs.history.Step.{MayAct, Represents, Steps, IsEntryOf};
ghost use Rattle.nt_hall.specs.Journals.{GoesOn};
ghost use Rattle.nt_hall.specs.Locked.{DidAct, DidLook, DidSave, saved_list};

use crate::journal::Journal;
use crate::locked::{Last, Locked};
use nt_link::Sink;
use nt_lock::Work;
use nt_record::Recorder;
use nt_rules::{Act, Change, Entry, Saved, StepOut};
use nt_server::{Server, Stepped};
use std::alloc::{AllocError, Global};
use std::snapshot::Snapshot;

/// The last place of an entry: 2^63 - 2.
const LAST_PLACE: u64 = 9_223_372_036_854_775_806;

/// Notes changes of this moment.
fn note_all<S: Sink>(
    recorder: &mut Recorder<S>,
    now: u64,
    changes: &[Change],
) -> Result<(), AllocError>
    ensures { recorder.old.state ≡ Off → recorder.new ≡ recorder.old }
{
    for change in changes {
        recorder.note(now, change)?;
    }
    Ok(())
}

/// One step of the server: its changes are noted, and its entry goes to the journal.
fn step_noted<J: Journal, S: Sink>(
    server: &mut Server,
    journal: &mut J,
    recorder: &mut Recorder<S>,
    alloc: Global,
    worker: u32,
    now: u64,
    act: Act,
) -> Result<(StepOut, Snapshot<Entry>), AllocError>
    requires may { MayAct act }
    requires now { now < 2 ^ 63 }
    requires count { J.count journal.old < 2 ^ 63 }
    ensures steps { IfOk result (λ r. (start : Start) (past : List Entry)
        → Represents server.old start past
        → Steps start past worker now act r.0 r.1.value server.new) }
    ensures entry { IfOk result (λ r. IsEntryOf worker now act r.0 r.1.value) }
    ensures count { MatchResult result (λ _. J.count journal.new ≡ J.count journal.old + 1)
        (λ _. J.count journal.new ≡ J.count journal.old) }
    ensures told { MatchResult result
        (λ r. GoesOn (J.told journal.old) r.1.value (J.told journal.new))
        (λ _. J.told journal.new ≡ J.told journal.old) }
    ensures recorder { recorder.old.state ≡ Off → recorder.new ≡ recorder.old }
{
    let Stepped {
        out,
        entry,
        changes,
    } = server.step(alloc, worker, now, act)?;
    note_all(recorder, entry.now, changes.as_slice())?;
    let made = Snapshot::of(&entry);
    journal.append(entry)?;
    Ok((out, made))
}

/// An act of the worker at this moment.
pub(crate) struct Acting {
    pub alloc: Global,
    pub now: u64,
    pub act: Act,
}

impl<J: Journal, S: Sink> Work<Locked<J, S>> for Acting {
    type Reply = Result<StepOut, AllocError>;

    ghost may = { λ a. MayAct a.act × (a.now < 2 ^ 63) };

    ghost did = { λ a. DidAct a.now a.act };

    fn run(self, worker: u32, locked: &mut Locked<J, S>) -> Result<StepOut, AllocError> {
        let Acting { alloc, now, act } = self;
        let may = !locked.failed && locked.count < LAST_PLACE;
        // a turn that isn't done to its end was refused
        locked.failed = true;
        locked.last = Last::Refused;
        if !may {
            drop(act);
            return Err(AllocError);
        }
        let (out, made) = step_noted(
            &mut locked.server,
            &mut locked.journal,
            &mut locked.recorder,
            alloc,
            worker,
            now,
            act,
        )?;
        locked.count += 1;
        locked.failed = false;
        locked.last = Last::Made(made);
        Ok(out)
    }
}

/// What a look at a connection tells: how many messages it is owed, with which weight it fell
/// behind, whether the server is shut, and whether a turn of the hall was refused. Where one was,
/// nothing is said of the rest.
#[derive(Clone, Copy)]
pub struct Looked {
    pub pending: u64,
    pub behind: Option<u64>,
    pub shut: bool,
    pub failed: bool,
}

/// A look at a connection.
pub(crate) struct Looking {
    pub conn: u32,
}

impl<J: Journal, S: Sink> Work<Locked<J, S>> for Looking {
    type Reply = Looked;

    ghost may = { λ _. Unit {0} };

    ghost did = { λ l _. DidLook l.conn };

    fn run(self, _worker: u32, locked: &mut Locked<J, S>) -> Looked {
        let Looking { conn } = self;
        locked.last = Last::Looked(locked.failed);
        Looked {
            pending: locked.server.pending(conn),
            behind: locked.server.is_behind(conn),
            shut: locked.server.is_shut(),
            failed: locked.failed,
        }
    }
}

/// A look at the topics that are saved.
pub(crate) struct Saving {
    pub alloc: Global,
}

impl<J: Journal, S: Sink> Work<Locked<J, S>> for Saving {
    type Reply = Result<Vec<Saved>, AllocError>;

    ghost may = { λ _. Unit {0} };

    ghost did = { λ _ _ found reply. DidSave found (saved_list reply) };

    fn run(self, _worker: u32, locked: &mut Locked<J, S>) -> Result<Vec<Saved>, AllocError> {
        let Saving { alloc } = self;
        locked.last = Last::Unmarked;
        if locked.failed {
            return Err(AllocError);
        }
        locked.server.saved(alloc)
    }
}
