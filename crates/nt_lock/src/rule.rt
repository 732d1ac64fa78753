//! The rule of the lock, and what each kind of step tells.
//!
//! The lock has three words: the ticket that is drawn next, the ticket that is served, and the
//! count of entries. Its one slot holds the locked value, which is away while a seat has its turn.

ghost use Rattle.nt_lock.specs.declared.view.Kept.{Kept};
ghost use Rattle.nt_lock.specs.declared.view.Note.{Note};

use crate::view::View;
use atomic_table::{Join, Play, Split, TableRule};
use std::marker::PhantomData;
use std::snapshot::Snapshot;

/// A value that can be locked. The rule knows nothing else of it.
pub trait Told {
    ghost use Rattle.std.specs.Prelude.{◌≡◌};
    ghost use Rattle.nt_lock.specs.Notes.{is_made};

    /// What it tells of its history.
    ghost kept: { Self → Kept };

    /// What its last turn did.
    ghost last: { Self → Note };

    /// Whether its last turn made an entry.
    fn made_entry(&self) -> bool
        ensures { result ≡ is_made (last self.now) };
}

/// The rule of a lock over `L`.
pub struct Turns<L> {
    locked: PhantomData<L>,
}

impl<L: Told> TableRule<L, View, Snapshot<L>> for Turns<L> {
    ghost use Rattle.nt_lock.specs.Rule.{LockRule};
    ghost use Rattle.nt_lock.specs.Steps.{opener};

    ghost holds = { λ k. LockRule L.kept (L.kept k.value).origin };

    ghost first = { λ k. opener (L.kept k.value).origin };
}

/// A seat draws a ticket.
pub struct Draw;

impl<L: Told> Play<L, View> for Draw {
    ghost use Rattle.nt_lock.specs.Steps.{drawn};

    ghost then = { drawn };
}

/// A seat looks whether its ticket is served, and then has its turn.
pub struct Enter;

impl<L: Told> Play<L, View> for Enter {
    ghost use Rattle.nt_lock.specs.Steps.{entered};

    ghost then = { entered L.kept };
}

/// A seat counts its entry, or none, and notes its turn.
pub struct Count;

impl<L: Told> Play<L, View> for Count {
    ghost use Rattle.nt_lock.specs.Steps.{counted};

    ghost then = { counted L.kept L.last };
}

/// A seat ends its turn, and the next ticket is served.
pub struct Leave;

impl<L: Told> Play<L, View> for Leave {
    ghost use Rattle.nt_lock.specs.Steps.{left};

    ghost then = { left };
}

/// How seats come and go: the first seat makes one more, and takes in each as the lock closes.
pub struct Seats;

impl Split<View> for Seats {
    ghost use Rattle.nt_lock.specs.Steps.{opener_after, newcomer};

    ghost left = { opener_after };

    ghost right = { newcomer };
}

impl Join<View> for Seats {
    ghost use Rattle.nt_lock.specs.Steps.{merged, spent};

    ghost both = { merged };

    ghost spent = { spent };
}
