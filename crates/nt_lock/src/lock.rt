//! The lock.

ghost use Rattle.std.specs.Prelude.{◌≡◌, ℕ, ◌-◌, ◌<◌, ◌≤◌, [], true, false, Some, IfOk, IfErr, IfSome, vec_len, vec_capacity};
ghost use Rattle.nt_lock.specs.Notes.{is_made};
ghost use Rattle.nt_lock.specs.Seats.{new_seat, new_seats, IsNew, Took, AreAll, Closes};
ghost use Rattle.nt_lock.specs.Passes.{idle_pass, first_pass, IsIdle, HasEntered, holding, HasDone, TookTurn};

use crate::rule::{Count, Draw, Enter, Leave, Seats, Told, Turns};
use crate::seat::Seat;
use crate::view::View;
use crate::work::Work;
use atomic_table::{Badge, Refused, Table, TableRule};
use std::alloc::Global;
use std::snapshot::Snapshot;
use std::sync::{Mutex, Wait};
use std::{mem, thread};

/// The word of the ticket that is drawn next.
const TICKET: usize = 0;

/// The word of the ticket that is served.
const SERVING: usize = 1;

/// The word that counts the entries.
const COUNT: usize = 2;

/// A seat while it takes steps.
type Pass<L> = atomic_table::Seat<L, View>;

/// The table of a lock, and the gate before it, where threads wait. The gate is for speed alone, and
/// no clause speaks of it. The type is generic in its rule, as a type that threads share has to be.
#[derive(Drop)]
pub struct TicketLock<S, V, K, Q: TableRule<S, V, K>> {
    pub table: Table<S, V, K, Q, Global>,
    gate: Mutex<()>,
    ghost sized: { (table.shared.table_id.words ≡ 3) × (table.shared.table_id.slots ≡ 1) },
}

/// A lock over a value that tells its history.
pub type Lock<L> = TicketLock<L, View, Snapshot<L>, Turns<L>>;

/// There was no memory to open a lock. The value comes back.
#[derive(Drop)]
pub struct Unopened<L> {
    pub locked: L,
}

impl<L: Told + Drop> Lock<L> {
    // Waits until the seat's ticket is served.
    fn enter<R: Wait>(&self, rt: &R, pass: &mut Pass<L>)
        requires own { pass.old.table_id ≡ self.now.table.shared.table_id }
        requires idle { (worker : ℕ) × IsIdle pass.old.me worker }
        ensures own { (pass.new.table_id ≡ pass.old.table_id) × (pass.new.id ≡ pass.old.id) }
        ensures entered { HasEntered L.kept pass.old.me pass.new.me }
    {
        let ticket = self.table.shared.fetch_add::<Draw>(pass, TICKET, 1);
        for _ in rt.forever() {
            if self.table.shared.load::<Enter>(pass, SERVING) == ticket {
                return;
            }
            thread::yield_now();
        }
        unreachable!()
    }

    // Does the work on the value in the slot, which the pass has. It answers whether that made an
    // entry.
    fn work_on<W: Work<L>>(&self, pass: &mut Pass<L>, worker: u32, work: W) -> (W::Reply, bool)
        requires own { pass.old.table_id ≡ self.now.table.shared.table_id }
        requires slot { (found : L) × (pass.old.me ≡ holding found pass.old.me) }
        requires may { W.may work }
        ensures own { (pass.new.table_id ≡ pass.old.table_id) × (pass.new.id ≡ pass.old.id) }
        ensures done { (found : L) × (left : L) × (pass.old.me ≡ holding found pass.old.me)
            × (pass.new.me ≡ holding left pass.old.me) × (result.1 ≡ is_made (L.last left))
            × HasDone L.kept L.last (W.did work) worker found result.0 left }
    {
        let locked = pass.slot_mut(&self.table.shared, 0);
        let reply = work.run(worker, locked);
        (reply, locked.made_entry())
    }

    // One turn of a pass.
    fn take_turn<R: Wait, W: Work<L>>(
        &self,
        rt: &R,
        pass: &mut Pass<L>,
        worker: u32,
        work: W,
    ) -> W::Reply
        requires own { pass.old.table_id ≡ self.now.table.shared.table_id }
        requires idle { IsIdle pass.old.me worker }
        requires may { W.may work }
        ensures own { (pass.new.table_id ≡ pass.old.table_id) × (pass.new.id ≡ pass.old.id) }
        ensures took { TookTurn L.kept L.last (W.did work) worker pass.old.me pass.new.me result }
    {
        self.enter(rt, pass);
        let (reply, made) = self.work_on(pass, worker, work);
        self.table
            .shared
            .fetch_add::<Count>(pass, COUNT, made as u64);
        self.table.shared.fetch_add::<Leave>(pass, SERVING, 1);
        reply
    }

    /// One turn of the seat: waits until it is its turn, and does the work on the locked value.
    /// Nothing else happens to the value meanwhile. It may wait without end.
    ///
    /// What the seat saw before begins the list that the value tells, and in this list the worker's
    /// entries are those of its turns, each once, at their places; so it is afterwards, with this
    /// turn.
    ///
    /// The work must not wait for anything: no turn of the same lock, no channel, no socket.
    pub fn turn<R: Wait, W: Work<L>>(&self, rt: &R, seat: &mut Seat, work: W) -> W::Reply
        requires own { seat.old.lock ≡ self.now.table.shared.table_id }
        requires may { W.may work }
        ensures { Took L.kept L.last (W.did work) seat.old seat.new result }
    {
        let _gate = self.gate.lock(rt);
        let badge = mem::replace(&mut seat.badge, Badge::blank());
        let mut pass = badge.into_seat();
        let reply = self.take_turn(rt, &mut pass, seat.worker, work);
        seat.badge = pass.into_badge();
        reply
    }

    // Makes one more seat, for this worker.
    fn another(&self, first: &mut Pass<L>, worker: u32) -> Seat
        requires own { first.old.table_id ≡ self.now.table.shared.table_id }
        requires first { first.old.me ≡ first_pass first.old.me.0.origin (worker - 1) }
        requires worker { (1 < worker) × (worker ≤ 64) }
        ensures own { first.new.table_id ≡ first.old.table_id }
        ensures first { first.new.me ≡ first_pass first.old.me.0.origin worker }
        ensures seat { result
            ≡ new_seat self.now.table.shared.table_id first.old.me.0.origin worker 0 }
    {
        let pass = self.table.shared.split_seat::<Seats>(first);
        Seat {
            worker,
            badge: pass.into_badge(),
        }
    }

    // Makes the seats of all workers, in their order.
    fn seat_all(&self, mut first: Pass<L>, workers: u32, seats: &mut Vec<Seat>)
        requires own { first.table_id ≡ self.now.table.shared.table_id }
        requires first { first.me ≡ first_pass first.me.0.origin 1 }
        requires workers { (0 < workers) × (workers ≤ 64) }
        requires empty { (seats.old.items ≡ []) × (vec_len seats.old ≡ 0) }
        requires room { workers ≤ vec_capacity seats.old }
        ensures { seats.new.items
            ≡ new_seats self.now.table.shared.table_id first.me.0.origin workers }
    {
        let mut made = 1;
        while made < workers {
            made += 1;
            seats.push_reserved(self.another(&mut first, made));
        }
        seats.push_reserved(Seat {
            worker: 1,
            badge: first.into_badge(),
        });
        seats.rotate_right(1);
    }

    /// A lock over this value, with the seats of so many workers, numbered from 1. The value has no
    /// entries yet, and has not failed.
    ///
    /// # Errors
    ///
    /// Where there is no memory the value comes back.
    pub fn open(alloc: Global, workers: u32, locked: L) -> Result<(Lock<L>, Vec<Seat>), Unopened<L>>
        requires workers { (0 < workers) × (workers ≤ 64) }
        requires locked { IsNew (L.kept locked) }
        ensures lock { IfOk result (λ r. r.0.table.shared.key.value ≡ locked) }
        ensures seats { IfOk result (λ r. r.1.items
            ≡ new_seats r.0.table.shared.table_id (L.kept locked).origin workers) }
        ensures back { IfErr result (λ r. r.locked ≡ locked) }
    {
        let Ok(mut seats) = Vec::with_capacity(alloc, workers as usize) else {
            return Err(Unopened { locked });
        };
        let mut slots = Vec::new(alloc);
        let Ok(()) = slots.reserve(1) else {
            return Err(Unopened { locked });
        };
        let key = Snapshot::of(&locked);
        slots.push_reserved(locked);
        match Table::new(alloc, &[0, 0, 0], slots, &key) {
            Ok((table, first)) => {
                let lock = TicketLock {
                    table,
                    gate: Mutex::new(()),
                };
                lock.seat_all(first, workers, &mut seats);
                Ok((lock, seats))
            }
            Err(Refused { mut slots }) => {
                let locked = slots.pop().unwrap();
                Err(Unopened { locked })
            }
        }
    }

    fn pass_of(seat: Seat) -> Pass<L>
        ensures { (result.table_id ≡ seat.lock) × (result.me ≡ idle_pass seat) }
    {
        let Seat { worker: _, badge } = seat;
        badge.into_seat()
    }

    /// Takes all seats, in the order of their workers, and gives the locked value.
    pub fn close(self, mut seats: Vec<Seat>) -> L
        requires { AreAll self.table.shared.table_id seats.items }
        ensures { Closes seats.items (L.kept result) }
    {
        let TicketLock { table, gate: _ } = self;
        seats.reverse();
        let mut pass: Pass<L> = Self::pass_of(seats.pop().unwrap());
        while let Some(seat) = seats.pop() {
            table
                .shared
                .join_seat::<Seats>(&mut pass, Self::pass_of(seat));
        }
        let mut closed = table.close_with(pass);
        let locked = closed.take(0);
        closed.free();
        locked
    }
}
