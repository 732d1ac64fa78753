//! How much a topic is wanted.

ghost use Rattle.std.specs.Prelude.{◌≡◌};
ghost use Rattle.nt_subs.specs.Wishes.{is_meant, strength, greater};

use crate::Options;
use nt_topics::is_special;

/// How much a topic is wanted, from least to most ("Subscription Options").
#[derive(Clone, Copy, PartialEq, Eq, PartialOrd, Ord)]
pub enum Wanted {
    /// Not at all.
    No,
    /// It is announced, and no value is sent.
    TopicOnly,
    /// It is announced, and its newest value is sent; each one, where the topic isn't cached.
    Newest,
    /// It is announced, and each value is sent.
    All,
}

impl Wanted {
    /// The greater of two wishes.
    pub fn greater(self, other: Wanted) -> Wanted
        ensures { result ≡ greater self other }
    {
        match (self, other) {
            (Wanted::No, other) => other,
            (Wanted::All, _) => Wanted::All,
            (Wanted::TopicOnly, Wanted::No) => Wanted::TopicOnly,
            (Wanted::TopicOnly, other) => other,
            (Wanted::Newest, Wanted::All) => Wanted::All,
            (Wanted::Newest, _) => Wanted::Newest,
        }
    }
}

/// What the options ask for.
pub(crate) fn strength(options: Options) -> Wanted
    ensures { result ≡ strength options }
{
    if options.topicsonly {
        Wanted::TopicOnly
    } else if options.all {
        Wanted::All
    } else {
        Wanted::Newest
    }
}

/// Whether a name that a subscription gives means a topic: it is the topic's, or its prefix. A
/// special name has only special prefixes.
pub(crate) fn is_meant(prefix: bool, given: &str, name: &str) -> bool
    ensures { result ≡ is_meant prefix given.now name.now }
{
    if prefix {
        name.as_bytes().starts_with(given.as_bytes()) && (!is_special(name) || is_special(given))
    } else {
        given == name
    }
}
