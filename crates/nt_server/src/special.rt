//! Subscriptions that give special names.

ghost use Rattle.std.specs.Prelude.{◌≡◌};
ghost use Rattle.std.specs.List.{list_any};
ghost use Rattle.nt_topics.specs.Names.{is_special};
ghost use Rattle.nt_server.specs.MetaWishes.{give_special};

use nt_subs::{Sub, SubSet};
use nt_topics::is_special;

/// Whether a subscription gives a special name.
fn names_special(sub: &Sub) -> bool
    ensures { result ≡ list_any is_special sub.now.names }
{
    sub.names
        .as_slice()
        .iter()
        .any(|name| is_special(name.as_str()))
}

/// Whether one of the subscriptions gives a special name. Only such a one wants a meta topic.
pub fn gives_special(subs: &SubSet) -> bool
    ensures { result ≡ give_special subs.now }
{
    for i in 0..subs.len() {
        let (_uid, sub) = subs.at(i);
        if names_special(sub) {
            return true;
        }
    }
    false
}
