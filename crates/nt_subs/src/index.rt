//! Where the names that subscriptions give are looked up.

ghost use Rattle.std.specs.Prelude.{◌≡◌, ◌+◌, ◌-◌, ℕ, Bool, List, length, OnOk, OnErr, []};
ghost use Rattle.nt_subs.specs.declared.wish.Wanted.{Wanted};
ghost use Rattle.nt_subs.specs.Index.{HasRoom, IsIndexed, given_by, part, times};

use crate::Sub;
use crate::given::Given;
use crate::wish::strength;
use std::alloc::{AllocError, Global};

/// The names that subscriptions give: whole ones and prefixes.
#[derive(Drop)]
pub(crate) struct Index {
    pub(crate) exact: Given,
    pub(crate) prefixes: Given,
}

impl Index {
    /// No names.
    pub(crate) fn new(alloc: Global) -> Index
        ensures { IsIndexed result [] }
    {
        Index {
            exact: Given::new(alloc),
            prefixes: Given::new(alloc),
        }
    }

    /// Notes a subscription. For want of memory it says what it said.
    pub(crate) fn note(&mut self, alloc: Global, sub: &Sub) -> Result<(), AllocError>
        requires { (prefix : Bool) → HasRoom (length sub.now.names) (part prefix self.old) }
        ensures ok { OnOk result ((prefix : Bool) (wish : Wanted) (name : List ℕ)
            → times prefix wish name self.new
            ≡ times prefix wish name self.old + given_by prefix wish name sub.now) }
        ensures err { OnErr result ((prefix : Bool) (wish : Wanted) (name : List ℕ)
            → times prefix wish name self.new ≡ times prefix wish name self.old) }
    {
        let wish = strength(sub.options);
        if sub.options.prefix {
            self.prefixes.note_all(alloc, sub.names.as_slice(), wish)
        } else {
            self.exact.note_all(alloc, sub.names.as_slice(), wish)
        }
    }

    /// Forgets a subscription.
    pub(crate) fn forget(&mut self, sub: &Sub)
        ensures { (prefix : Bool) (wish : Wanted) (name : List ℕ)
            → times prefix wish name self.new
            ≡ times prefix wish name self.old - given_by prefix wish name sub.now }
    {
        let wish = strength(sub.options);
        if sub.options.prefix {
            self.prefixes.forget_all(sub.names.as_slice(), wish);
        } else {
            self.exact.forget_all(sub.names.as_slice(), wish);
        }
    }
}
