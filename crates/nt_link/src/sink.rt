//! Bytes that go out.

ghost use Rattle.std.specs.Prelude.{◌≡◌, List, ℕ, ◌<◌, length, take, IfErr, OnOk};
ghost use Rattle.std.specs.declared.option.Option.{Option};
ghost use Rattle.std.specs.Io.{WritesAtMost};
ghost use Rattle.std.specs.Io.KnownBytes.{WriteAppends, Appends};
ghost use Rattle.nt_link.specs.Causes.{HasCause, HasCauseOfWrite, StaysAtEnd, Aside};

use crate::source::Failed;
use thiserror::Error;

/// Where bytes go.
pub trait Sink {
    /// The bytes that were taken so far, where the sink tells them.
    ghost taken: { Self → Option (List ℕ) };

    /// How many calls failed, or took nothing of a piece that was not empty. It never falls, and
    /// stands still at 2^64 - 1.
    ghost faults: { Self → ℕ };

    /// The rest of the object, which no write changes: what is left and the faults of an object
    /// that is a source too, and else empty.
    ghost aside: { Self → Aside };

    /// Takes the first `n` bytes of the piece and answers `n`, which is at most its length. Where
    /// that is 0 of a piece that is not empty, the count of faults rose.
    ///
    /// # Errors
    ///
    /// [`Failed`] comes only where the count of faults rose, or stood at its end. The bytes taken are
    /// then as before.
    fn write(&mut self, bytes: &[u8]) -> Result<usize, Failed>
        ensures bound { WritesAtMost result bytes.now }
        ensures bytes { WriteAppends (taken self.old) (taken self.new) result bytes.now }
        ensures cause { HasCauseOfWrite (faults self.old) (faults self.new) bytes.now result }
        ensures end { StaysAtEnd (faults self.old) (faults self.new) }
        ensures aside { aside self.new ≡ aside self.old };
}

/// A sink stopped before all bytes were written.
#[derive(Clone, Copy, Debug, PartialEq, Eq, Error)]
#[error("the sink stopped after {written} bytes")]
pub struct Stopped {
    /// How many of the bytes were taken.
    pub written: u64,
}

/// Writes all of the bytes, in as many calls as that takes. With no bytes there is no call.
///
/// # Errors
///
/// [`Stopped`] comes at the first write that failed or took nothing, so only where the sink's count
/// of faults rose. The sink then took exactly the first `written` bytes, which are not all.
pub fn write_all<S: Sink>(sink: &mut S, bytes: &[u8]) -> Result<(), Stopped>
    ensures ok { OnOk result (Appends (S.taken sink.old) (S.taken sink.new) bytes.now) }
    ensures written { IfErr result (λ s. s.written < length bytes.now) }
    ensures stopped { IfErr result (λ s. Appends (S.taken sink.old) (S.taken sink.new)
        (take s.written bytes.now)) }
    ensures cause { HasCause (S.faults sink.old) (S.faults sink.new) result }
    ensures end { StaysAtEnd (S.faults sink.old) (S.faults sink.new) }
    ensures aside { S.aside sink.new ≡ S.aside sink.old }
{
    let mut at = 0;
    while at < bytes.len() {
        let written = at as u64;
        match sink.write(&bytes[at..]) {
            Ok(0) | Err(Failed) => return Err(Stopped { written }),
            Ok(count) => at += count,
        }
    }
    Ok(())
}
