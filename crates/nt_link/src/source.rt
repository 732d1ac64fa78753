//! Bytes that come in.

ghost use Rattle.std.specs.Prelude.{◌≡◌, List, ℕ};
ghost use Rattle.std.specs.declared.option.Option.{Option};
ghost use Rattle.std.specs.Io.{ReadsAtMost};
ghost use Rattle.std.specs.Io.KnownBytes.{ReadConsumes};
ghost use Rattle.nt_link.specs.Causes.{HasCause, StaysAtEnd, Aside};

use thiserror::Error;

/// The outside failed in this call, and its count of faults says so.
#[derive(Clone, Copy, Debug, PartialEq, Eq, Error)]
#[error("the outside failed")]
pub struct Failed;

/// Where bytes come from.
pub trait Source {
    /// The bytes that are left to be read, where the source tells them.
    ghost left: { Self → Option (List ℕ) };

    /// How many calls failed. It never falls, and stands still at 2^64 - 1.
    ghost faults: { Self → ℕ };

    /// The rest of the object, which no read changes: what was taken and the faults of an object
    /// that is a sink too, and else empty.
    ghost aside: { Self → Aside };

    /// Moves the first `n` bytes that are left to the front of the buffer and answers `n`, which is
    /// at most the buffer's length. 0 of a buffer that is not empty is the end.
    ///
    /// # Errors
    ///
    /// [`Failed`] comes only where the count of faults rose, or stood at its end. The bytes that are
    /// left are then as before.
    fn read(&mut self, buf: &mut [u8]) -> Result<usize, Failed>
        ensures bound { ReadsAtMost result buf.new }
        ensures bytes { ReadConsumes (left self.old) (left self.new) result buf.new }
        ensures cause { HasCause (faults self.old) (faults self.new) result }
        ensures end { StaysAtEnd (faults self.old) (faults self.new) }
        ensures aside { aside self.new ≡ aside self.old };
}
