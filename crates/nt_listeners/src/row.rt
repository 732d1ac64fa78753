//! A listener among others.

ghost use Rattle.std.specs.Prelude.{◌≡◌, nat_eq};
ghost use Rattle.std.specs.List.{starts_with};
ghost use Rattle.nt_listeners.specs.Matching.{name_of};
ghost use Rattle.nt_listeners.specs.Telling.{IsTold};

use crate::listener::Listener;
use nt_rules::Change;
use nt_topics::Name;

/// A listener among others: its id, the prefix of the names of which it hears, and itself.
#[derive(Drop)]
pub struct Row<L> {
    pub id: u32,
    pub prefix: Name,
    pub listener: L,
}

impl<L: Listener> Row<L> {
    /// Tells the listener a change whose name its prefix begins. Answers whether the listener stays: it
    /// doesn't where it refused.
    pub(crate) fn stays_after(&mut self, change: &Change) -> bool
        ensures { IsTold L.heard L.refusals L.may_answer change.now self.old result self.new }
    {
        if !begins(self.prefix.as_str(), name_of(change)) {
            return true;
        }
        self.listener.hear(change).is_ok()
    }
}

/// The name of the topic that changes.
fn name_of(change: &Change) -> &str
    ensures { result.now ≡ name_of change.now }
{
    match change {
        Change::Started { name, .. }
        | Change::Changed { name, .. }
        | Change::Props { name, .. }
        | Change::Ended { name, .. } => name.as_str(),
    }
}

/// Whether a prefix begins a name.
fn begins(prefix: &str, name: &str) -> bool
    ensures { result ≡ starts_with nat_eq name.now prefix.now }
{
    name.as_bytes().starts_with(prefix.as_bytes())
}
