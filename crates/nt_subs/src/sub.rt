//! Subscriptions.

ghost use Rattle.std.specs.Prelude.{◌≡◌, IfOk};
ghost use Rattle.nt_subs.specs.Wishes.{is_matched};

use crate::wish::is_meant;
use nt_topics::Name;
use nt_values::ListOf;
use std::alloc::{AllocError, Global};

/// Names of topics, or prefixes of such names.
pub type Names = ListOf<Name>;

/// The options of a subscription ("Subscribe Message", options).
#[derive(Clone, Copy, PartialEq, Eq)]
pub struct Options {
    /// All values are wanted, and not only the newest.
    pub all: bool,
    /// Announcements alone are wanted.
    pub topicsonly: bool,
    /// The names are prefixes.
    pub prefix: bool,
}

/// A subscription: its names and its options.
#[derive(Drop)]
pub struct Sub {
    pub names: Names,
    pub options: Options,
}

impl Sub {
    /// Whether one of the subscription's names means a topic. It takes no memory.
    pub fn is_matched(&self, name: &str) -> bool
        ensures { result ≡ is_matched self.now name.now }
    {
        for given in self.names.as_slice() {
            if is_meant(self.options.prefix, given.as_str(), name) {
                return true;
            }
        }
        false
    }

    /// An equal subscription.
    pub fn copy(&self, alloc: Global) -> Result<Sub, AllocError>
        ensures { IfOk result (λ sub. sub ≡ self.now) }
    {
        Ok(Sub {
            names: copy_names(alloc, &self.names)?,
            options: self.options,
        })
    }
}

/// Equal names.
pub fn copy_names(alloc: Global, names: &Names) -> Result<Names, AllocError>
    ensures { IfOk result (λ copied. copied ≡ names.now) }
{
    let mut copied = Names::empty(alloc);
    for name in names.as_slice() {
        copied.push(name.copy(alloc)?)?;
    }
    Ok(copied)
}
