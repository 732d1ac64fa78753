//! Where connections come from.

ghost use Rattle.std.specs.Prelude.{◌≡◌, ℕ, List, Option, Ok};
ghost use Rattle.nt_link.specs.Causes.{Rose};
ghost use Rattle.nt_posts.specs.declared.acceptor.Caller.{Caller};
ghost use Rattle.nt_wire.specs.Frames.{Rises, HasCauseOfFault};
ghost use Rattle.nt_posts.specs.Arrivals.{followed, callers_in, came_after, GoesOn};

use nt_topics::{ClientName, Version};
use nt_wire::{Link, LinkFault};

/// A connection that came: its link, the name that its path gives, and the version that it speaks.
#[derive(Drop)]
pub struct Caller<L> {
    pub link: L,
    pub name: ClientName,
    pub version: Version,
}

/// What an acceptor gives.
#[derive(Drop)]
pub enum Arrival<L> {
    Came(Caller<L>),
    /// One came, and was refused.
    Refused,
    /// None came. That is no end.
    Quiet,
}

/// Where connections come from, and where their links go to.
pub trait Acceptor {
    type Link: Link;

    /// The connections that came, each as it came, where the acceptor tells them.
    ghost arrived: { Self → Option (List (Caller Self.Link)) };

    /// The links that were finished, each as it was then, while the acceptor tells them.
    ghost finished: { Self → Option (List Self.Link) };

    /// How many connections came. It stands still at 2^64 - 1.
    ghost came: { Self → ℕ };

    /// How many were refused. It never falls, and stands still at 2^64 - 1.
    ghost refusals: { Self → ℕ };

    /// How often none came. It never falls, and stands still at 2^64 - 1.
    ghost quiets: { Self → ℕ };

    /// How many calls failed. It never falls, and stands still at 2^64 - 1.
    ghost faults: { Self → ℕ };

    /// The next connection.
    ///
    /// # Errors
    ///
    /// `Failed` comes only where the count of faults rose, or stood at its end, and `Memory` for want
    /// of memory.
    fn accept(&mut self) -> Result<Arrival<Self::Link>, LinkFault>
        ensures arrived { arrived self.new ≡ followed (arrived self.old) (callers_in result) }
        ensures finished { finished self.new ≡ finished self.old }
        ensures came { came self.new ≡ came_after (came self.old) result }
        ensures refused { result ≡ Ok Arrival.Refused → Rose (refusals self.old) (refusals self.new) }
        ensures quiet { result ≡ Ok Arrival.Quiet → Rose (quiets self.old) (quiets self.new) }
        ensures cause { HasCauseOfFault (faults self.old) (faults self.new) result }
        ensures refusals { Rises (refusals self.old) (refusals self.new) }
        ensures quiets { Rises (quiets self.old) (quiets self.new) };

    /// Takes back a link whose connection is served no longer.
    fn finish(&mut self, link: Self::Link)
        ensures arrived { arrived self.new ≡ arrived self.old }
        ensures finished { GoesOn (finished self.old) link (finished self.new) }
        ensures came { came self.new ≡ came self.old }
        ensures refusals { Rises (refusals self.old) (refusals self.new) }
        ensures quiets { Rises (quiets self.old) (quiets self.new) }
        ensures faults { Rises (faults self.old) (faults self.new) };
}
