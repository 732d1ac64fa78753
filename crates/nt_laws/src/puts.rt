//! What the puts to a topic come to. The functions here do nothing: their contracts are laws of the
//! definitions by which the table's calls are stated.

ghost use Rattle.std.specs.Prelude.{◌≡◌, ◌≢◌, true, false, List, ◌++◌, None};
ghost use Rattle.nt_topics.specs.Properties.{is_cached};
ghost use Rattle.nt_rules.specs.declared.topic.Topic.{Topic};
ghost use Rattle.nt_rules.specs.history.Lives.{Life, held_of, taken_of};
ghost use Rattle.nt_rules.specs.topics.Puts.{Put, Sent, newest, held, HasDifferentTimes, HasSameMembers, after_puts, fitting};

/// Two lists of puts whose times are all different and that have the same times with the same values
/// hold the same time and value, in whatever order they arrived.
pub fn same_puts_hold_the_same()
    ensures { (ps qs : List Put) → HasDifferentTimes ps → HasSameMembers ps qs
        → held ps ≡ held qs }
{}

/// After any puts to a topic, from whichever publishers, it holds the greatest of those that fit it
/// and of the earlier ones: by time, and of equal times the latest. The value of a topic that isn't
/// cached stays as it was.
pub fn puts_leave_the_greatest()
    ensures greatest { (t : Topic) (earlier : List Put) (sent : List Sent)
        → is_cached t.props ≡ true → t.value ≡ held earlier
        → (after_puts sent t).value ≡ held (fitting sent t ++ earlier) }
    ensures uncached_stays { (t : Topic) (sent : List Sent) → is_cached t.props ≡ false
        → (after_puts sent t).value ≡ t.value }
{}

/// Where a cached topic holds a value, that is the last of those that were taken.
pub fn the_last_taken_is_held()
    ensures { (l : Life) → is_cached l.props ≡ true → held_of l ≢ None
        → newest (taken_of l) ≡ held_of l }
{}
