//! A stream in memory, for tests.

ghost use Rattle.std.specs.Prelude.{◌≡◌, ◌<◌, ◌↔◌, ◌⊎◌, min, length, Some, IsErr, IfOk, OnErr, Contains, refl};
ghost use Rattle.std.specs.Io.{ReadsAtMost, WritesAtMost};
ghost use Rattle.std.specs.Io.KnownBytes.{ReadConsumes, WriteAppends};
ghost use Rattle.nt_link.specs.Causes.{HasCause, HasCauseOfWrite, StaysAtEnd, next_count, faults_after};

use crate::memory::{MemSink, MemSource};
use crate::sink::Sink;
use crate::source::{Failed, Source};
use crate::stream::Stream;
use std::marker::Model;

/// A source and a sink in memory as one object. Its reads are those of the source and its writes
/// those of the sink, and each counts its own calls and faults.
#[derive(Drop)]
pub struct MemStream {
    source: MemSource,
    sink: MemSink,
}

impl Model for MemStream {
    ghost use Rattle.nt_link.specs.Memory.{MemBoth};

    ghost Value = { MemBoth };

    ghost view = { λ s. record { reads = s.source; writes = s.sink } };
}

impl MemStream {
    /// A stream that reads from `source` and writes to `sink`.
    pub fn new(source: MemSource, sink: MemSink) -> MemStream
        ensures { result ≡ record { reads = source; writes = sink } }
    {
        MemStream { source, sink }
    }

    /// What it reads from.
    pub fn source(&self) -> &MemSource
        ensures { result.now ≡ self.now.reads }
    {
        &self.source
    }

    /// What it writes to.
    pub fn sink(&self) -> &MemSink
        ensures { result.now ≡ self.now.writes }
    {
        &self.sink
    }
}

impl Source for MemStream {
    ghost left = { λ s. Some s.reads.left };

    ghost faults = { λ s. s.reads.faults };

    ghost aside = { λ s. record { bytes = Some s.writes.taken; faults = s.writes.faults } };

    /// A read of the source, which leaves the sink as it is.
    fn read(&mut self, buf: &mut [u8]) -> Result<usize, Failed>
        ensures bound { ReadsAtMost result buf.new }
        ensures bytes { ReadConsumes (Some self.old.reads.left) (Some self.new.reads.left) result buf.new }
        ensures cause { HasCause self.old.reads.faults self.new.reads.faults result }
        ensures end { StaysAtEnd self.old.reads.faults self.new.reads.faults }
        ensures aside { self.new.writes ≡ self.old.writes }

        ensures listed { IsErr result ↔ Contains self.old.reads.fails self.old.reads.calls }
        ensures count { IfOk result (λ n. n ≡ min (length self.old.reads.left) (length buf.new)) }
        ensures fails { self.new.reads.fails ≡ self.old.reads.fails }
        ensures calls { self.new.reads.calls ≡ next_count self.old.reads.calls }
        ensures faults { self.new.reads.faults ≡ faults_after result self.old.reads.faults }
    {
        self.source.read(buf)
    }
}

impl Sink for MemStream {
    ghost taken = { λ s. Some s.writes.taken };

    ghost faults = { λ s. s.writes.faults };

    ghost aside = { λ s. record { bytes = Some s.reads.left; faults = s.reads.faults } };

    /// A write to the sink, which leaves the source as it is.
    fn write(&mut self, bytes: &[u8]) -> Result<usize, Failed>
        ensures bound { WritesAtMost result bytes.now }
        ensures bytes { WriteAppends (Some self.old.writes.taken) (Some self.new.writes.taken)
            result bytes.now }
        ensures cause { HasCauseOfWrite self.old.writes.faults self.new.writes.faults bytes.now result }
        ensures end { StaysAtEnd self.old.writes.faults self.new.writes.faults }
        ensures aside { self.new.reads ≡ self.old.reads }

        ensures listed { Contains self.old.writes.fails self.old.writes.calls → IsErr result }
        ensures unlisted { OnErr result (Contains self.old.writes.fails self.old.writes.calls ⊎
            (self.old.writes.room < length bytes.now)) }
        ensures whole { IfOk result (λ n. n ≡ length bytes.now) }
        ensures fails { self.new.writes.fails ≡ self.old.writes.fails }
        ensures calls { self.new.writes.calls ≡ next_count self.old.writes.calls }
        ensures faults { self.new.writes.faults ≡ faults_after result self.old.writes.faults }
    {
        self.sink.write(bytes)
    }
}

impl Stream for MemStream {
    ghost aside_of_reads = { λ s. refl };

    ghost aside_of_writes = { λ s. refl };
}
