//! How often a name is given.

ghost use Rattle.std.specs.Prelude.{◌≡◌, ◌<◌, ◌-◌, ◌^◌};
ghost use Rattle.nt_subs.specs.Index.{count, more, less, strongest};

use crate::Wanted;

/// How often a name is given with each wish.
#[derive(Clone, Copy)]
pub(crate) struct Counts {
    topic_only: usize,
    newest: usize,
    all: usize,
}

/// A name that isn't given.
pub(crate) const NONE: Counts = Counts {
    topic_only: 0,
    newest: 0,
    all: 0,
};

impl Counts {
    /// Once more with this wish.
    pub(crate) fn more(&mut self, wish: Wanted)
        requires { count wish self.old < 2 ^ 64 - 1 }
        ensures { self.new ≡ more wish self.old }
    {
        match wish {
            Wanted::No => {}
            Wanted::TopicOnly => self.topic_only += 1,
            Wanted::Newest => self.newest += 1,
            Wanted::All => self.all += 1,
        }
    }

    /// Once less with this wish.
    pub(crate) fn less(&mut self, wish: Wanted)
        ensures { self.new ≡ less wish self.old }
    {
        match wish {
            Wanted::No => {}
            Wanted::TopicOnly => self.topic_only = self.topic_only.saturating_sub(1),
            Wanted::Newest => self.newest = self.newest.saturating_sub(1),
            Wanted::All => self.all = self.all.saturating_sub(1),
        }
    }

    /// The greatest wish with which the name is given.
    pub(crate) fn strongest(&self) -> Wanted
        ensures { result ≡ strongest self.now }
    {
        if self.all > 0 {
            Wanted::All
        } else if self.newest > 0 {
            Wanted::Newest
        } else if self.topic_only > 0 {
            Wanted::TopicOnly
        } else {
            Wanted::No
        }
    }
}
