//! The law of telling: what a subscriber holds by the messages that it was handed, and by those
//! that it is owed besides, is what it should hold. The function does nothing: its contract is the
//! law, and `proofs/` has the proof.
#![tactic(auto)]

ghost use Rattle.std.specs.Prelude.{◌≡◌, ℕ, true, List, None};
ghost use Rattle.nt_rules.specs.declared.start.Start.{Start};
ghost use Rattle.nt_rules.specs.declared.act.Entry.{Entry};
ghost use Rattle.nt_rules.specs.history.Now.{is_there, now_of};
ghost use Rattle.nt_rules.specs.history.Answer.{Legal};
ghost use Rattle.nt_rules.specs.history.Saved.{IsSavedSet};
ghost use Rattle.nt_rules.specs.history.Owed.{behind};
ghost use Rattle.nt_rules.specs.history.Step.{ServerState, Represents};
ghost use Rattle.nt_rules.specs.history.Trees.{AreTrees};
ghost use Rattle.nt_rules.specs.telling.Due.{Agrees, held_by};

/// In every lawful history a connection that is open and hasn't fallen behind holds, by what it
/// was handed and all that it is owed, exactly the topics that it should: the living ones that it
/// wants, each with its name, type, properties and value. The properties of topics are trees whose
/// keys rise, as those of JSON texts are. So it is in every history for which a server stands: its
/// properties are such trees.
pub fn law_of_telling()
    ensures law { (start : Start) (past : List Entry) (conn : ℕ) → IsSavedSet start.saved
        → AreTrees start past → Legal start past
        → is_there (now_of start past).connections conn ≡ true → behind start past conn ≡ None
        → Agrees start past conn (held_by start past conn) }
    ensures server { (server : ServerState) (start : Start) (past : List Entry) (conn : ℕ)
        → Represents server start past
        → is_there (now_of start past).connections conn ≡ true → behind start past conn ≡ None
        → Agrees start past conn (held_by start past conn) }
{}
