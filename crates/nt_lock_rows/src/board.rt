//! A small locked value: a board that keeps entries while there is room. All but the worker of an
//! entry is the same in each, so that is all that it keeps of one.

ghost use Rattle.std.specs.Prelude.{◌≡◌, [], Some, false, length, map};
ghost use Rattle.nt_lock.specs.Notes.{is_made};
ghost use Rattle.nt_lock_rows.specs.Boards.{note_of, entry_of, nothing};

use nt_lock::{Told, Work};
use std::alloc::Global;

/// How many entries a board has room for.
pub const MOST: usize = 5;

/// What the last turn did: it made the entry of a worker, was refused, or looked.
#[derive(Clone, Copy)]
pub enum Last {
    Made(u32),
    Refused,
    Looked(bool),
}

#[derive(Drop)]
pub struct Board {
    pub workers: Vec<u32>,
    pub failed: bool,
    pub last: Last,
}

impl Board {
    /// A board without entries.
    pub fn new(alloc: Global) -> Board
        ensures { (result.workers.items ≡ []) × (result.failed ≡ false) }
    {
        Board {
            workers: Vec::new(alloc),
            failed: false,
            last: Last::Looked(false),
        }
    }
}

impl Told for Board {
    ghost kept = { λ b. record {
      origin = nothing;
      told = Some (map entry_of b.workers.items);
      count = length b.workers.items;
      failed = b.failed;
    } };

    ghost last = { λ b. note_of b.last };

    fn made_entry(&self) -> bool {
        matches!(&self.last, Last::Made(_))
    }
}

/// Puts an entry on the board, and answers whether there was room.
#[derive(Clone, Copy)]
pub struct Put;

impl Work<Board> for Put {
    type Reply = bool;

    ghost may = { λ _. Unit {0} };

    ghost did = { λ _ _ _ reply left. reply ≡ is_made (note_of left.last) };

    fn run(self, worker: u32, locked: &mut Board) -> bool {
        if locked.workers.len() < MOST && locked.workers.push(worker).is_ok() {
            locked.last = Last::Made(worker);
            return true;
        }
        locked.failed = true;
        locked.last = Last::Refused;
        false
    }
}

/// Answers whether a turn was refused before.
#[derive(Clone, Copy)]
pub struct Look;

impl Work<Board> for Look {
    type Reply = bool;

    ghost may = { λ _. Unit {0} };

    ghost did = { λ _ _ found reply _. reply ≡ found.failed };

    fn run(self, worker: u32, locked: &mut Board) -> bool {
        locked.last = Last::Looked(locked.failed);
        locked.failed
    }
}
