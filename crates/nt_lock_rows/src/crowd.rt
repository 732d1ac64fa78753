//! All workers of a lock take their turns, on one thread or on many.

ghost use Rattle.std.specs.Prelude.{◌≡◌, ℕ, ◌<◌, ◌≤◌, All, length, slice_index_or};
ghost use Rattle.nt_lock.specs.Seats.{SeatView};
ghost use Rattle.nt_lock_rows.specs.Crowds.{IsSame};

use crate::board::{Board, Look, Put};
use nt_lock::{Lock, Seat};
use std::alloc::Global;
use std::sync::Wait;
use std::thread;
use std::thread::Threads;

// Puts this many entries, one in each turn, unless a turn was refused before, until one is refused.
fn put_some<R: Wait>(rt: &R, lock: &Lock<Board>, seat: &mut Seat, count: u64)
    requires { seat.old.lock ≡ lock.now.table.shared.table_id }
    ensures { IsSame seat.old seat.new }
{
    if lock.turn(rt, seat, Look) {
        return;
    }
    for _ in 0..count {
        if !lock.turn(rt, seat, Put) {
            return;
        }
    }
}

// Each seat puts this many.
fn put_all<R: Threads + Wait + Sync>(
    rt: &R,
    lock: &Lock<Board>,
    seats: &mut [Seat],
    threads: usize,
    count: u64,
)
    requires threads { 0 < threads }
    requires own { All (λ s. s.lock ≡ lock.now.table.shared.table_id) seats.old }
    ensures { (i : ℕ) (d : SeatView) → i < length seats.old
        → IsSame (slice_index_or seats.old i d) (slice_index_or seats.new i d) }
{
    thread::for_each_mut(
        rt,
        seats,
        threads,
        &|_, seat: &mut Seat|
            requires { seat.now.lock ≡ lock.now.table.shared.table_id }
            ensures { IsSame seat.entry.now seat.exit.now }
        { put_some(rt, lock, seat, count) },
    );
}

/// The board on which so many workers, on at most so many threads, put so many entries each. None
/// where there was no memory for a lock.
pub fn filled<R: Threads + Wait + Sync>(
    rt: &R,
    alloc: Global,
    workers: u32,
    threads: usize,
    count: u64,
) -> Option<Board>
    requires workers { (0 < workers) × (workers ≤ 64) }
    requires threads { 0 < threads }
{
    let Ok((lock, mut seats)) = Lock::open(alloc, workers, Board::new(alloc)) else {
        return None;
    };
    put_all(rt, &lock, seats.as_mut_slice(), threads, count);
    Some(lock.close(seats))
}
