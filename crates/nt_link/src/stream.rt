//! Objects from which bytes come and to which bytes go.

ghost use Rattle.std.specs.Prelude.{◌≡◌};

use crate::sink::Sink;
use crate::source::Source;

/// A source that is a sink too, such as a connection. What each of its two traits has aside is what
/// the other one tells. So each read, whatever it answers, leaves the bytes taken and the sink's
/// count of faults as before, and each write the bytes left and the source's count.
pub trait Stream: Source + Sink {
    /// What no read changes.
    ghost aside_of_reads: { (s : Self) →
        Self.Source.aside s ≡ record { bytes = Self.taken s; faults = Self.Sink.faults s } };

    /// What no write changes.
    ghost aside_of_writes: { (s : Self) →
        Self.Sink.aside s ≡ record { bytes = Self.left s; faults = Self.Source.faults s } };
}
