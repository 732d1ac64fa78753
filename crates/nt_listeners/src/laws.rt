//! What listeners hear. The function here does nothing: its contract is a law of the definitions.

ghost use Rattle.std.specs.Prelude.{List};
ghost use Rattle.nt_rules.specs.declared.topic.Change.{Change};
ghost use Rattle.nt_listeners.specs.declared.row.Row.{Row};
ghost use Rattle.nt_listeners.specs.Tellings.{AreToldAll, AreLeft};

use crate::listener::Listener;

/// Of all changes that listeners are told, one after another, each that is left heard, where it tells, exactly those
/// whose name begins with its prefix, each once and in their order.
pub fn listeners_hear_the_matching<L: Listener>()
    ensures { (changes : List Change) (rows left : List (Row L))
        → AreToldAll L.heard L.refusals L.may_answer changes rows left → AreLeft L.heard changes rows left }
{}
