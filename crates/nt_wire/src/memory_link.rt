//! A link in memory, for tests.

ghost use Rattle.std.specs.Prelude.{◌≡◌, [], ◌∷◌, Ok, Err, Some, IfOk, IfSome, Contains};
ghost use Rattle.nt_link.specs.Causes.{Rose, next_count};
ghost use Rattle.nt_link.specs.declared.frame.Frame.{Frame};
ghost use Rattle.nt_wire.specs.Frames.{in_front, behind, frames_in, heard_frames, sent_frames, Rises, HasCauseOfFault};

use crate::link::{Heard, Link, LinkFault};
use nt_link::Frame;
use std::alloc::{AllocError, Global};
use std::marker::Model;

/// A link over which given frames come, and then its end. It keeps what is sent. Some calls fail, and
/// at some nothing comes, by lists of their numbers.
#[derive(Drop)]
pub struct MemLink {
    alloc: Global,
    frames: Vec<Frame>,
    at: usize,
    sent: Vec<Frame>,
    failing_recvs: Vec<u64>,
    failing_sends: Vec<u64>,
    quiet_recvs: Vec<u64>,
    recvs: u64,
    sends: u64,
    faults: u64,
    quiets: u64,
}

impl Model for MemLink {
    ghost use Rattle.std.specs.Prelude.{◌≤◌, take, drop, vec_len};
    ghost use Rattle.nt_wire.specs.Memory.{MemFrames};

    ghost Value = { MemFrames };

    ghost view = { λ l. record {
      coming = drop l.at l.frames.items;
      received = take l.at l.frames.items;
      sent = l.sent.items;
      failing_recvs = l.failing_recvs.items;
      failing_sends = l.failing_sends.items;
      quiet_recvs = l.quiet_recvs.items;
      recvs = l.recvs;
      sends = l.sends;
      faults = l.faults;
      quiets = l.quiets;
    } };

    ghost invariant = { λ l. l.at ≤ vec_len l.frames };
}

impl MemLink {
    /// A link over which these frames come. The calls of `recv` and of `send` with the numbers in
    /// the lists fail, and at those of `quiet_recvs` that don't, nothing comes.
    pub fn new(
        alloc: Global,
        frames: Vec<Frame>,
        failing_recvs: Vec<u64>,
        failing_sends: Vec<u64>,
        quiet_recvs: Vec<u64>,
    ) -> MemLink
        ensures { result ≡ record {
          coming = frames.items;
          received = [];
          sent = [];
          failing_recvs = failing_recvs.items;
          failing_sends = failing_sends.items;
          quiet_recvs = quiet_recvs.items;
          recvs = 0;
          sends = 0;
          faults = 0;
          quiets = 0;
        } }
    {
        MemLink {
            alloc,
            frames,
            at: 0,
            sent: Vec::new(alloc),
            failing_recvs,
            failing_sends,
            quiet_recvs,
            recvs: 0,
            sends: 0,
            faults: 0,
            quiets: 0,
        }
    }

    /// The frames that were sent.
    pub fn sent(&self) -> &[Frame]
        ensures { result.now ≡ self.now.sent }
    {
        self.sent.as_slice()
    }

    /// How many frames came.
    pub fn received(&self) -> usize {
        self.at
    }

    /// How many calls failed.
    pub fn faults(&self) -> u64
        ensures { result ≡ self.now.faults }
    {
        self.faults
    }
}

/// An equal frame, as it is heard.
fn heard(alloc: Global, frame: &Frame) -> Result<Heard, AllocError>
    ensures { IfOk result (λ heard. frames_in heard ≡ frame.now ∷ []) }
{
    match frame {
        Frame::Text(text) => Ok(Heard::Text(text.copy(alloc)?)),
        Frame::Binary(bytes) => Ok(Heard::Binary(bytes.copy(alloc)?)),
    }
}

impl Link for MemLink {
    ghost coming = { λ l. Some l.coming };

    ghost received = { λ l. Some l.received };

    ghost sent = { λ l. Some l.sent };

    ghost faults = { λ l. l.faults };

    ghost quiets = { λ l. l.quiets };

    ghost recvs = { λ l. l.recvs };

    fn recv(&mut self) -> Result<Heard, LinkFault>
        ensures coming { Some self.old.coming ≡ in_front (heard_frames result) (Some self.new.coming) }
        ensures received { Some self.new.received
            ≡ behind (Some self.old.received) (heard_frames result) }
        ensures sent { Some self.new.sent ≡ Some self.old.sent }
        ensures ended { result ≡ Ok Heard.Ended
            → IfSome (Some self.old.coming) (λ frames. frames ≡ []) }
        ensures quiet { result ≡ Ok Heard.Quiet → Rose self.old.quiets self.new.quiets }
        ensures cause { HasCauseOfFault self.old.faults self.new.faults result }
        ensures quiets { Rises self.old.quiets self.new.quiets }
        ensures recvs { self.new.recvs ≡ next_count self.old.recvs }

        ensures listed { Contains self.old.failing_recvs self.old.recvs
            → result ≡ Err LinkFault.Failed }
        ensures unlisted { result ≡ Err LinkFault.Failed
            → Contains self.old.failing_recvs self.old.recvs }
    {
        let call = self.recvs;
        self.recvs = call.saturating_add(1);
        if self.failing_recvs.contains(&call) {
            self.faults = self.faults.saturating_add(1);
            return Err(LinkFault::Failed);
        }
        if self.quiet_recvs.contains(&call) {
            self.quiets = self.quiets.saturating_add(1);
            return Ok(Heard::Quiet);
        }
        if self.at == self.frames.len() {
            return Ok(Heard::Ended);
        }
        let heard = heard(self.alloc, &self.frames[self.at])?;
        self.at += 1;
        Ok(heard)
    }

    fn send(&mut self, frame: &Frame) -> Result<(), LinkFault>
        ensures coming { Some self.new.coming ≡ Some self.old.coming }
        ensures received { Some self.new.received ≡ Some self.old.received }
        ensures sent { Some self.new.sent
            ≡ behind (Some self.old.sent) (sent_frames frame.now result) }
        ensures cause { HasCauseOfFault self.old.faults self.new.faults result }
        ensures quiets { Rises self.old.quiets self.new.quiets }
        ensures recvs { self.new.recvs ≡ self.old.recvs }

        ensures listed { Contains self.old.failing_sends self.old.sends
            → result ≡ Err LinkFault.Failed }
        ensures unlisted { result ≡ Err LinkFault.Failed
            → Contains self.old.failing_sends self.old.sends }
    {
        let call = self.sends;
        self.sends = call.saturating_add(1);
        if self.failing_sends.contains(&call) {
            self.faults = self.faults.saturating_add(1);
            return Err(LinkFault::Failed);
        }
        let copy = frame.copy(self.alloc)?;
        self.sent.reserve(1)?;
        self.sent.push_reserved(copy);
        Ok(())
    }
}
