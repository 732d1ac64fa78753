//! The recorder.

ghost use Rattle.std.specs.Prelude.{◌≡◌, Ok};
ghost use Rattle.nt_record.specs.declared.recorder.RecState.TheVariants.{Off};

use nt_link::Sink;
use nt_rules::Change;
use std::alloc::AllocError;
use std::marker::Model;

/// Whether a recorder writes.
#[derive(Clone, Copy)]
pub enum RecState {
    /// It writes nothing.
    Off,
}

/// A recorder of changes into a sink.
#[derive(Drop)]
pub struct Recorder<S: Sink> {
    state: RecState,
    sink: S,
}

impl<S: Sink> Model for Recorder<S> {
    ghost use Rattle.nt_record.specs.Recording.{Recording};

    ghost Value = { Recording S };

    ghost view = { λ r. record { state = r.state; sink = r.sink } };
}

impl<S: Sink> Recorder<S> {
    /// A recorder that is off.
    pub fn off(sink: S) -> Recorder<S>
        ensures { result ≡ record { state = Off; sink = sink } }
    {
        Recorder {
            state: RecState::Off,
            sink,
        }
    }

    /// Records a change that came at this moment, in microseconds. One that is off makes no call of
    /// its sink, and takes no memory.
    pub fn note(&mut self, _now: u64, _change: &Change) -> Result<(), AllocError>
        ensures off { self.old.state ≡ Off → self.new ≡ self.old }
        ensures ok { self.old.state ≡ Off → result ≡ Ok tt }
    {
        match self.state {
            RecState::Off => Ok(()),
        }
    }

    /// Whether it writes.
    pub fn state(&self) -> RecState
        ensures { result ≡ self.now.state }
    {
        self.state
    }

    /// The sink.
    pub fn into_sink(self) -> S
        ensures { result ≡ self.sink }
    {
        self.sink
    }
}
