//! What holds of every lawful history. The functions here do nothing: their contracts are laws of
//! the definitions by which the server's calls are stated.

ghost use Rattle.std.specs.Prelude.{◌≡◌, ◌≢◌, ◌<◌, ◌≤◌, ℕ, true, List, [], length};
ghost use Rattle.nt_rules.specs.declared.act.Entry.{Entry};
ghost use Rattle.nt_rules.specs.declared.roster.Roster.{Roster};
ghost use Rattle.nt_rules.specs.declared.start.Start.{Start};
ghost use Rattle.nt_rules.specs.declared.topic.Saved.{Saved};
ghost use Rattle.nt_rules.specs.declared.topic.Topic.{Topic};
ghost use Rattle.nt_rules.specs.history.Answer.{Legal};
ghost use Rattle.nt_rules.specs.history.Drains.{with_drain, with_drains};
ghost use Rattle.nt_rules.specs.history.Lives.{topics};
ghost use Rattle.nt_rules.specs.history.Metas.{roster_now};
ghost use Rattle.nt_rules.specs.history.Now.{now_of, is_open_for};
ghost use Rattle.nt_rules.specs.history.Owed.{owed};
ghost use Rattle.nt_rules.specs.history.Saved.{IsSavedSet, AreSaved};
ghost use Rattle.nt_rules.specs.meta.Order.{ordered};
ghost use Rattle.nt_rules.specs.meta.Rosters.{HasSameRows, HaveTheirValues, IsInOrder, IsRoster};
ghost use Rattle.nt_rules.specs.topics.Apart.{AreApart};

/// Living topics stand by rising id, and no two have one name. Open connections stand by rising
/// number, and no two have one name; the publishers and the subscriptions of each stand by rising
/// uid. So each meta topic has the value that the roster has under its name, for which rows are put
/// in order; that keeps them all.
pub fn rosters_are_in_order()
    ensures topics { (start : Start) (past : List Entry) → IsSavedSet start.saved
        → AreApart (topics (now_of start past).lives) }
    ensures roster { (start : Start) (past : List Entry) → IsSavedSet start.saved → Legal start past
        → IsRoster (roster_now (now_of start past)) }
    ensures order { (start : Start) (past : List Entry) → IsSavedSet start.saved → Legal start past
        → IsInOrder (roster_now (now_of start past)) }
    ensures values { (start : Start) (past : List Entry) → IsSavedSet start.saved → Legal start past
        → HaveTheirValues (roster_now (now_of start past)) }
    ensures rows { (r : Roster) → HasSameRows r (ordered r) }
{}

/// Of topics with different names, as those of every history are, there is one saved set: what a
/// server saves is determined by its topics.
pub fn saved_sets_are_one()
    ensures { (ts : List Topic) (a b : List Saved) → AreApart ts → AreSaved ts a → AreSaved ts b
        → a ≡ b }
{}

/// A drain leaves fewer messages owed, where some are. So after as many drains as messages were
/// owed, at any moments, nothing is owed: all were handed, or the connection fell behind meanwhile
/// and is owed nothing any more.
pub fn drains_leave_nothing_owed()
    ensures fewer { (start : Start) (past : List Entry) (worker conn budget now : ℕ)
        → IsSavedSet start.saved → Legal start past
        → is_open_for (now_of start past).connections worker conn ≡ true → 1 ≤ budget
        → owed start past conn ≢ []
        → length (owed start (with_drain start worker conn budget now past) conn)
        < length (owed start past conn) }
    ensures nothing { (start : Start) (past : List Entry) (worker conn budget : ℕ)
        (moments : List ℕ) → IsSavedSet start.saved → Legal start past
        → is_open_for (now_of start past).connections worker conn ≡ true → 1 ≤ budget
        → length (owed start past conn) ≤ length moments
        → owed start (with_drains start worker conn budget moments past) conn ≡ [] }
{}
