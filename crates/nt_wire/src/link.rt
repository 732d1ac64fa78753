//! A connection's frames.

ghost use Rattle.std.specs.Prelude.{◌≡◌, ℕ, [], List, Option, Ok, Err, IfSome};
ghost use Rattle.nt_link.specs.Causes.{Rose, next_count};
ghost use Rattle.nt_link.specs.declared.frame.Frame.{Frame};
ghost use Rattle.nt_wire.specs.Frames.{in_front, behind, heard_frames, sent_frames, Rises, HasCauseOfFault};
ghost use Rattle.nt_wire.specs.declared.link.LinkFault.TheVariants.{Memory};

use nt_link::Frame;
use nt_values::{Bytes, Text};
use std::alloc::AllocError;

/// What a link gives: a frame, or none for now, or none any more.
#[derive(Drop)]
pub enum Heard {
    Text(Text),
    Binary(Bytes),
    /// Nothing came. That is no end.
    Quiet,
    /// No frame comes any more.
    Ended,
}

/// Why a link gives or takes no frame.
#[derive(Clone, Copy)]
pub enum LinkFault {
    /// The outside failed.
    Failed,
    /// Want of memory.
    Memory,
}

impl From<AllocError> for LinkFault {
    ghost from_gives = { λ _ e. e ≡ Memory };

    fn from(_error: AllocError) -> LinkFault {
        LinkFault::Memory
    }
}

/// Where a connection's frames come from and go to.
pub trait Link {
    /// The frames that are still to come, where the link tells them.
    ghost coming: { Self → Option (List Frame) };

    /// The frames that came, where the link tells them.
    ghost received: { Self → Option (List Frame) };

    /// The frames that were sent, where the link tells them.
    ghost sent: { Self → Option (List Frame) };

    /// How many calls failed. It never falls, and stands still at 2^64 - 1.
    ghost faults: { Self → ℕ };

    /// How often nothing came. It never falls, and stands still at 2^64 - 1.
    ghost quiets: { Self → ℕ };

    /// How often a frame was asked for. It stands still at 2^64 - 1.
    ghost recvs: { Self → ℕ };

    /// The next frame. It goes from the front of those to come to the end of those that came.
    ///
    /// # Errors
    ///
    /// `Failed` comes only where the count of faults rose, or stood at its end, and `Memory` for want
    /// of memory. The frames are then as before.
    fn recv(&mut self) -> Result<Heard, LinkFault>
        ensures coming { coming self.old ≡ in_front (heard_frames result) (coming self.new) }
        ensures received { received self.new ≡ behind (received self.old) (heard_frames result) }
        ensures sent { sent self.new ≡ sent self.old }
        ensures ended { result ≡ Ok Heard.Ended → IfSome (coming self.old) (λ frames. frames ≡ []) }
        ensures quiet { result ≡ Ok Heard.Quiet → Rose (quiets self.old) (quiets self.new) }
        ensures cause { HasCauseOfFault (faults self.old) (faults self.new) result }
        ensures quiets { Rises (quiets self.old) (quiets self.new) }
        ensures recvs { recvs self.new ≡ next_count (recvs self.old) };

    /// Sends a frame.
    ///
    /// # Errors
    ///
    /// As for `recv`. The frame wasn't sent then.
    fn send(&mut self, frame: &Frame) -> Result<(), LinkFault>
        ensures coming { coming self.new ≡ coming self.old }
        ensures received { received self.new ≡ received self.old }
        ensures sent { sent self.new ≡ behind (sent self.old) (sent_frames frame.now result) }
        ensures cause { HasCauseOfFault (faults self.old) (faults self.new) result }
        ensures quiets { Rises (quiets self.old) (quiets self.new) }
        ensures recvs { recvs self.new ≡ recvs self.old };
}
