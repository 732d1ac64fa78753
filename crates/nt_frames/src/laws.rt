//! What frames mean, by the grammar alone.

ghost use Rattle.std.specs.Prelude.{◌≡◌, ◌++◌, ◌≤◌, ℕ, List, Option, Some};
ghost use Rattle.nt_values.specs.Types.{size_of};
ghost use Rattle.nt_frames.specs.declared.message.ValueMsg.{ValueMsg};
ghost use Rattle.nt_frames.specs.declared.message.FrameFault.{FrameFault};
ghost use Rattle.nt_frames.specs.Frames.{IsMessage, IsFrame, Means};

/// Bytes mean one thing as a frame. No spelling of a message is a proper prefix of another's, each
/// spells one message, and where a frame has a fault no further message that is small enough
/// follows.
pub fn frames_have_one_meaning()
    ensures one { (most : ℕ) (bytes : List ℕ) (ms ns : List ValueMsg)
        (fault other : Option FrameFault)
        → Means most bytes ms fault → Means most bytes ns other → (ms ≡ ns) × (fault ≡ other) }
    ensures apart { (m n : ValueMsg) (x y r s : List ℕ) → IsMessage m x → IsMessage n y
        → x ++ r ≡ y ++ s → (m ≡ n) × (x ≡ y) }
    ensures longest { (most : ℕ) (bytes prefix rest x r : List ℕ) (ms : List ValueMsg)
        (fault : FrameFault) (m : ValueMsg)
        → Means most bytes ms (Some fault) → bytes ≡ prefix ++ rest → IsFrame most ms prefix
        → rest ≡ x ++ r → IsMessage m x → ¬ (size_of m.value ≤ most) }
{}

/// All bytes mean something as a frame, whatever size of values is taken: some messages, and then a
/// fault or none.
pub fn frames_have_a_meaning()
    ensures { (most : ℕ) (bytes : List ℕ) → (ms : List ValueMsg)
        × (fault : Option FrameFault) × Means most bytes ms fault }
{}
