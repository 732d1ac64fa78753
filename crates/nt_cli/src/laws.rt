//! What is owed after a turn of the desk. The function here does nothing: its contract is a law of the definitions by
//! which the desk is stated.

ghost use Rattle.std.specs.Prelude.{◌≡◌, ℕ, true, List, []};
ghost use Rattle.nt_rules.specs.declared.act.Entry.{Entry};
ghost use Rattle.nt_rules.specs.history.Answer.{Legal};
ghost use Rattle.nt_rules.specs.history.Now.{now_of, is_open_for};
ghost use Rattle.nt_rules.specs.history.Owed.{owed};
ghost use Rattle.nt_cli.specs.Desk.{Decoding, start, worker, conn, after_turn};

/// After a turn of the desk nothing is owed: as many drains as messages were owed are enough. So
/// the bound on the drains of a turn leaves nothing unprinted.
pub fn nothing_is_owed_after_a_turn()
    ensures { (decode : Decoding) (past : List Entry) (number : ℕ) (line : List ℕ)
        → Legal start past → is_open_for (now_of start past).connections worker conn ≡ true
        → owed start (after_turn decode past number line) conn ≡ [] }
{}
