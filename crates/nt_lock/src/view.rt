//! What a seat knows. It is plain data of proofs: no value of these types is made.

use nt_rules::{Entry, Start};
use std::collections::LinkedList;

/// What one turn did.
pub enum Note {
    /// It made this entry.
    Made(Entry),
    /// It was refused, and made no entry.
    Refused,
    /// It looked, and found that a turn was refused before, or that none was.
    Looked(bool),
    /// It made no entry, and has no mark.
    Unmarked,
}

/// A turn, and its place: how many entries there were after it.
pub struct Turn {
    pub place: u64,
    pub note: Note,
}

/// What there was as the lock opened: what the server began with, what the sink of its log had
/// taken, where it tells, and how many of the sink's calls had failed.
pub struct Origin {
    pub start: Start,
    pub taken: Option<LinkedList<u8>>,
    pub faults: u64,
}

/// What the locked value tells.
pub struct Kept {
    /// What there was as the lock opened.
    pub origin: Origin,
    /// All entries, the newest last, while they are told.
    pub told: Option<LinkedList<Entry>>,
    /// How many entries there are.
    pub count: u64,
    /// Whether a turn was refused.
    pub failed: bool,
}

/// Where a seat is in its turn. The number is that of its ticket, and has no bound.
pub enum Stage {
    /// It has no ticket.
    Idle,
    /// It has a ticket, and waits.
    Waiting(u64),
    /// It is its turn, and what the locked value told as it took or last counted it is kept.
    Entered(u64, Kept),
}

/// A worker with its turns, in their order, and the entries that were told after the last of them.
pub struct Hand {
    pub worker: u32,
    pub turns: LinkedList<Turn>,
    pub seen: Option<LinkedList<Entry>>,
}

/// The hands of a seat: first its own worker's, then those of the seats that it took in. A seat that
/// another took in has none. The first seat counts the seats that were made; for any other `opened`
/// is 0.
pub struct Known {
    pub opened: u64,
    pub hands: LinkedList<Hand>,
}

/// All that a seat knows.
pub struct View {
    pub origin: Origin,
    pub stage: Stage,
    pub known: Known,
}
