//! What is done in a turn.

ghost use Rattle.std.specs.Prelude.{◌≡◌, ℕ, ◌<◌, ◌^◌, true};
ghost use Rattle.nt_lock.specs.Notes.{is_made, after, MayNote, Tells};

use crate::rule::Told;

/// What a worker does with the locked value in one turn.
pub trait Work<L: Told> {
    type Reply;

    /// The condition on it.
    ghost may: { Self → Type 0 };

    /// What it did: the work, the worker, the locked value as it was found, the reply, and the
    /// value as it was left.
    ghost did: { Self → ℕ → L → Self.Reply → L → Type 0 };

    /// Does it. The locked value then tells what its note of the turn says, the list with the entry
    /// or as it was, but that it may stop to tell its list. An entry is the worker's.
    fn run(self, worker: u32, locked: &mut L) -> Self::Reply
        requires may { may self }
        ensures did { did self worker locked.old result locked.new }
        ensures note { MayNote worker (L.kept locked.old).failed (L.last locked.new) }
        ensures tells { Tells (after (L.last locked.new) (L.kept locked.old)) (L.kept locked.new) }
        ensures room { is_made (L.last locked.new) ≡ true → (L.kept locked.old).count < 2 ^ 63 };
}
