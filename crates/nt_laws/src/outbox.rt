//! What drains come to. The function here does nothing: its contract is a law of the definitions by
//! which the calls of an outbox are stated.

ghost use Rattle.std.specs.Prelude.{◌≡◌, ℕ, true, false, None};
ghost use Rattle.nt_rules.specs.outbox.Keys.{Key, is_in};
ghost use Rattle.nt_rules.specs.outbox.Calls.{OutboxState, behind, keys_of, handed_keys, drained};

/// What is owed after a drain was owed before it and wasn't handed by it. So a message that is handed
/// is owed no more, and a drain makes nothing owed.
pub fn what_is_handed_is_owed_no_more()
    ensures { (budget : ℕ) (b : OutboxState) (k : Key) → behind b ≡ None
        → is_in (keys_of (drained budget b)) k ≡ true
        → (is_in (keys_of b) k ≡ true) × (is_in (handed_keys budget b) k ≡ false) }
{}
