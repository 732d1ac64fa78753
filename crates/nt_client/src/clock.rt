//! The server's time.

ghost use Rattle.std.specs.Prelude.{◌≡◌, ◌<◌, ◌^◌, ℤ, None, Some, IfSome, option_map};
ghost use Rattle.nt_client.specs.Clock.{Allows, IsSound, IsWithin, answered, better, bound_by, counts, offset_by, said_by};

use std::marker::Model;

/// A question for the server's time that was answered: when it was sent, the time that the server
/// told, and when the answer came, all in microseconds.
#[derive(Clone, Copy)]
pub struct Sample {
    pub sent: u64,
    pub server: u64,
    pub came: u64,
}

/// What a client knows of the server's time. It keeps the sample whose offset may be wrong by the
/// least, the later of two that are equal in this.
#[derive(Drop)]
pub struct ClockSync {
    asked: Option<u64>,
    kept: Option<Sample>,
}

impl Model for ClockSync {
    ghost use Rattle.std.specs.Prelude.{IfSome};
    ghost use Rattle.nt_client.specs.Clock.{ClockState, IsSound};

    ghost Value = { ClockState };

    ghost view = { λ c. record { asked = c.asked; kept = c.kept } };

    ghost invariant = { λ c. IfSome c.kept IsSound };
}

impl Sample {
    /// By how much the offset may be wrong.
    fn bound(&self) -> u64
        requires { IsSound self.now }
        ensures { result ≡ bound_by self.now }
    {
        let took = self.came - self.sent;
        took - took / 2
    }

    /// The offset, as if the server had told its time halfway.
    fn offset(&self) -> i64
        requires { IsSound self.now }
        ensures offset { result ≡ offset_by self.now }
        ensures close { (t : ℤ) → Allows self.now t → IsWithin (offset_by self.now) t (bound_by self.now) }
    {
        let halfway = self.sent + (self.came - self.sent) / 2;
        self.server as i64 - halfway as i64
    }

    /// The one that may be wrong by less, or this one where both are equal in this.
    fn better(self, kept: Option<Sample>) -> Sample
        requires sound { IsSound self }
        requires kept { IfSome kept IsSound }
        ensures { result ≡ better self kept }
    {
        match kept {
            Some(kept) if kept.bound() < self.bound() => kept,
            _ => self,
        }
    }
}

impl ClockSync {
    /// Nothing was asked, and nothing is known.
    pub fn new() -> ClockSync
        ensures { result ≡ record { asked = None; kept = None } }
    {
        ClockSync {
            asked: None,
            kept: None,
        }
    }

    /// Asks at this moment, and says the value to send with the question.
    pub fn ask(&mut self, now: u64) -> u64
        ensures value { result ≡ now }
        ensures clock { self.new ≡ record self.old { asked = Some now } }
    {
        self.asked = Some(now);
        now
    }

    /// Takes the answer to the question that was sent with this value: the server's time, which came
    /// at this moment. It says whether it counts, which it does exactly where the value is the last
    /// one asked and the answer comes no earlier.
    pub fn answer(&mut self, sent: u64, server: u64, now: u64) -> bool
        requires sent { sent < 2 ^ 63 }
        requires server { server < 2 ^ 63 }
        requires now { now < 2 ^ 63 }
        ensures counts { result
            ≡ counts (record { sent = sent; server = server; came = now }) self.old }
        ensures clock { self.new
            ≡ answered (record { sent = sent; server = server; came = now }) self.old }
    {
        if self.asked != Some(sent) || now < sent {
            return false;
        }
        let sample = Sample {
            sent,
            server,
            came: now,
        };
        self.kept = Some(sample.better(self.kept));
        true
    }

    /// What is to be added to the client's time for the server's, and by how much that may be wrong.
    /// It is as close as that to each offset that the kept sample allows.
    pub fn offset(&self) -> Option<(i64, u64)>
        ensures said { result ≡ option_map said_by self.now.kept }
        ensures close { IfSome self.now.kept (λ s. (t : ℤ) → Allows s t
            → IfSome result (λ r. IsWithin r.0 t r.1)) }
    {
        match &self.kept {
            Some(sample) => Some((sample.offset(), sample.bound())),
            None => None,
        }
    }
}
