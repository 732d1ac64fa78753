//! The hall.

ghost use Rattle.std.specs.Prelude.{◌≡◌, ◌<◌, ◌≤◌, ◌^◌, [], List, true, false, IfOk, IfErr, IfSome, OnOk, OnErr};
ghost use Rattle.nt_rules.specs.declared.start.Start.{Start};
ghost use Rattle.nt_rules.specs.history.Step.{MayAct, Represents};
ghost use Rattle.nt_lock.specs.declared.view.Note.TheVariants as note;
ghost use Rattle.nt_lock.specs.Seats.{AreAll};
ghost use Rattle.nt_lock.specs.Turns.{any_turn, is_refused};
ghost use Rattle.nt_hall.specs.Histories.{IsLook, IsSaved};
ghost use Rattle.nt_hall.specs.Turns.{HasTurn, Acted, Opens, Ends};

use crate::journal::Journal;
use crate::locked::Locked;
use crate::work::{Acting, Looked, Looking, Saving};
use nt_link::Sink;
use nt_lock::{Lock, Seat, Unopened};
use nt_record::Recorder;
use nt_rules::{Act, Saved, StepOut};
use nt_server::Server;
use std::alloc::{AllocError, Global};
use std::marker::Model;
use std::sync::Wait;

/// A server that workers share, with its journal and its recorder: they take turns with it. Once an
/// act was refused for want of memory the hall has failed, and refuses each later act. Contracts see
/// of a hall which one it is.
#[derive(Drop)]
pub struct Hall<J: Journal, S: Sink> {
    lock: Lock<Locked<J, S>>,
}

impl<J: Journal, S: Sink> Model for Hall<J, S> {
    ghost use Rattle.atomic_table.specs.Seated.{TableId};

    ghost Value = { TableId };

    ghost view = { λ h. h.lock.table.shared.table_id };
}

impl<J: Journal + Drop, S: Sink + Drop> Hall<J, S> {
    /// A hall of so many workers, with their seats, numbered from 1.
    ///
    /// # Errors
    ///
    /// Want of memory alone. The recorder comes back.
    pub fn open(
        alloc: Global,
        workers: u32,
        server: Server,
        journal: J,
        recorder: Recorder<S>,
    ) -> Result<(Hall<J, S>, Vec<Seat>), (Recorder<S>, AllocError)>
        requires workers { (0 < workers) × (workers ≤ 64) }
        requires server { (start : Start) × Represents server start [] }
        requires journal { (J.count journal ≡ 0) × IfSome (J.told journal) (λ list. list ≡ []) }
        ensures opens { IfOk result (λ r. Opens r.0 server (S.taken recorder.sink)
            (S.faults recorder.sink) workers r.1.items) }
        ensures back { IfErr result (λ r. r.0 ≡ recorder) }
    {
        match Lock::open(alloc, workers, Locked::new(server, journal, recorder)) {
            Ok((lock, seats)) => Ok((Hall { lock }, seats)),
            Err(Unopened { locked }) => {
                let (_, _, recorder, _) = locked.into_parts();
                Err((recorder, AllocError))
            }
        }
    }

    /// One act of the seat's worker at this moment, in microseconds: one turn, which makes the act's
    /// entry. It may wait without end.
    ///
    /// # Errors
    ///
    /// Want of memory alone, and so too at the entry of the place 2^63 - 1. The turn makes no entry
    /// then, and the hall has failed.
    pub fn act<R: Wait>(
        &self,
        rt: &R,
        alloc: Global,
        seat: &mut Seat,
        now: u64,
        act: Act,
    ) -> Result<StepOut, AllocError>
        requires own { seat.old.lock ≡ self.now }
        requires may { MayAct act }
        requires now { now < 2 ^ 63 }
        ensures acted { IfOk result (Acted seat.old seat.new now act) }
        ensures refused { OnErr result (HasTurn seat.old seat.new note.Refused) }
        ensures again { OnOk result (any_turn is_refused seat.old.turns ≡ false) }
    {
        self.lock.turn(rt, seat, Acting { alloc, now, act })
    }

    /// Looks at a connection: one turn, which makes no entry and takes no memory. It may wait
    /// without end.
    pub fn look<R: Wait>(&self, rt: &R, seat: &mut Seat, conn: u32) -> Looked
        requires own { seat.old.lock ≡ self.now }
        ensures turn { HasTurn seat.old seat.new (note.Looked result.failed) }
        ensures look { result.failed ≡ false
            → IfSome seat.new.seen (λ list. IsLook seat.old.origin.start list conn result) }
        ensures failed { any_turn is_refused seat.old.turns ≡ true → result.failed ≡ true }
    {
        self.lock.turn(rt, seat, Looking { conn })
    }

    /// The topics that are saved: one turn, which makes no entry and changes nothing. It may wait
    /// without end.
    ///
    /// # Errors
    ///
    /// Want of memory alone, and so too where the hall has failed.
    pub fn saved<R: Wait>(
        &self,
        rt: &R,
        alloc: Global,
        seat: &mut Seat,
    ) -> Result<Vec<Saved>, AllocError>
        requires own { seat.old.lock ≡ self.now }
        ensures turn { HasTurn seat.old seat.new note.Unmarked }
        ensures saved { IfOk result (λ saved. IfSome seat.new.seen
            (λ list. IsSaved seat.old.origin.start list saved.items)) }
        ensures again { OnOk result (any_turn is_refused seat.old.turns ≡ false) }
    {
        self.lock.turn(rt, seat, Saving { alloc })
    }

    /// Takes all seats, in the order of their workers. It gives the server, the journal, the
    /// recorder, and whether the hall has failed.
    pub fn close(self, seats: Vec<Seat>) -> (Server, J, Recorder<S>, bool)
        requires { AreAll self seats.items }
        ensures { Ends S.taken S.faults seats.items result.0 (J.told result.1) (J.count result.1)
            result.2 result.3 }
    {
        let Hall { lock } = self;
        lock.close(seats).into_parts()
    }
}
