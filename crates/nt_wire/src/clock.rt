//! Clocks.

ghost use Rattle.std.specs.Prelude.{◌≡◌, ◌<◌, ◌^◌};
ghost use Rattle.nt_wire.specs.Memory.{next_moment, moments_left};

use std::marker::Model;

/// What tells the time.
pub trait Clock {
    /// The moment, in microseconds. It may stand still, and go back.
    fn now(&mut self) -> u64
        ensures { result < 2 ^ 63 };
}

/// The last moment.
const LAST_MOMENT: u64 = 9_223_372_036_854_775_807;

/// A clock in memory, for tests: it says the moments that it was given, each once, and then the last
/// one again and again.
#[derive(Drop)]
pub struct MemClock {
    moments: Vec<u64>,
    at: usize,
    last: u64,
}

impl Model for MemClock {
    ghost use Rattle.std.specs.Prelude.{◌≤◌, ◌<◌, ◌^◌, drop, vec_len};
    ghost use Rattle.nt_wire.specs.Memory.{MemMoments};

    ghost Value = { MemMoments };

    ghost view = { λ c. record { left = drop c.at c.moments.items; last = c.last } };

    ghost invariant = { λ c. (c.at ≤ vec_len c.moments) × (c.last < 2 ^ 63) };
}

impl MemClock {
    /// A clock that says these moments, each at most 2^63 - 1. Without any it says 0.
    pub fn new(moments: Vec<u64>) -> MemClock
        ensures { result ≡ record { left = moments.items; last = 0 } }
    {
        MemClock {
            moments,
            at: 0,
            last: 0,
        }
    }
}

impl Clock for MemClock {
    fn now(&mut self) -> u64
        ensures bound { result < 2 ^ 63 }
        ensures told { result ≡ next_moment self.old.left self.old.last }
        ensures left { self.new.left ≡ moments_left self.old.left }
        ensures last { self.new.last ≡ result }
    {
        if self.at < self.moments.len() {
            self.last = self.moments[self.at].min(LAST_MOMENT);
            self.at += 1;
        }
        self.last
    }
}
