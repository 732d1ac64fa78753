//! What hears of changes.

ghost use Rattle.std.specs.Prelude.{◌≡◌, ◌≤◌, ℕ, List, Option, Some, None, Result, MatchResult, MatchOption, IfErr};
ghost use Rattle.nt_link.specs.Causes.{Rose, StaysAtEnd};
ghost use Rattle.nt_rules.specs.declared.topic.Change.{Change};
ghost use Rattle.nt_listeners.specs.declared.listener.Refused.{Refused};
ghost use Rattle.nt_listeners.specs.declared.listener.Refused.TheVariants.{Failed, Memory};
ghost use Rattle.nt_listeners.specs.Matching.{with_change};

use nt_rules::Change;
use std::alloc::{AllocError, AllocFailed};
use thiserror::Error;

/// Why a listener did not hear a change.
#[derive(Clone, Copy, Debug, PartialEq, Eq, Error)]
pub enum Refused {
    /// It failed, and its count of refusals says so.
    #[error("the listener failed")]
    Failed,
    /// Want of memory.
    #[error("out of memory")]
    Memory,
}

impl From<AllocError> for Refused {
    ghost from_gives = { λ _ e. e ≡ Memory };

    fn from(_error: AllocError) -> Refused {
        Refused::Memory
    }
}

impl<T: Drop> From<AllocFailed<T>> for Refused {
    ghost from_gives = { λ _ e. e ≡ Memory };

    fn from(_error: AllocFailed<T>) -> Refused {
        Refused::Memory
    }
}

/// Who hears of changes.
pub trait Listener: Drop {
    /// The changes that it heard so far, in order, where it tells them.
    ghost heard: { Self → Option (List Change) };

    /// How many calls failed. It never falls, and stands still at 2^64 - 1.
    ghost refusals: { Self → ℕ };

    /// Whether it may answer so to a change.
    ghost may_answer: { Self → Change → Result (Unit {0}) Refused → Type 0 };

    /// Hears a change.
    ///
    /// # Errors
    ///
    /// `Failed` comes only where the count of refusals rose, or stood at its end, and `Memory` for
    /// want of memory. What it heard is then as before.
    fn hear(&mut self, change: &Change) -> Result<(), Refused>
        ensures heard { MatchResult result (λ _. heard self.new ≡ with_change change.now (heard self.old))
            (λ _. heard self.new ≡ heard self.old) }
        ensures answer { may_answer self.old change.now result }
        ensures cause { IfErr result (λ e. e ≡ Failed → Rose (refusals self.old) (refusals self.new)) }
        ensures later { refusals self.old ≤ refusals self.new }
        ensures end { StaysAtEnd (refusals self.old) (refusals self.new) };

    /// What it heard, where it tells.
    fn told(&self) -> Option<&[Change]>
        ensures { MatchOption result (heard self.now ≡ None) (λ list. heard self.now ≡ Some list.now) };
}

/// A box of any listener, which hears by what is in it.
impl Listener for Box<dyn Listener> {
    ghost heard = { λ b. (Listener-box b).heard b.value };

    ghost refusals = { λ b. (Listener-box b).refusals b.value };

    ghost may_answer = { λ b. (Listener-box b).may_answer b.value };

    fn hear(&mut self, change: &Change) -> Result<(), Refused> {
        (**self).hear(change)
    }

    fn told(&self) -> Option<&[Change]> {
        (**self).told()
    }
}
