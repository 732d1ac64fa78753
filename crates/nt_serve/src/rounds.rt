//! Rounds: a frame is taken, the worker looks, and what is owed is handed.

ghost use Rattle.std.specs.Prelude.{◌≡◌, ◌≤◌, ℕ, false, [], Ok, Err, Some, IfOk, IfErr, IfSome, IsErrOf};
ghost use Rattle.nt_link.specs.Causes.{Rose};
ghost use Rattle.nt_session.specs.Laid.{frames_in};
ghost use Rattle.nt_rules.specs.history.Answer.{drained_batch};
ghost use Rattle.nt_serve.specs.Steps.{at, Reaches};
ghost use Rattle.nt_serve.specs.Rounds.{IsHeardAs, IsHeard, IsDrained, IsAnyRound};
ghost use Rattle.nt_serve.specs.Handing.{Sends, SendsSome};
ghost use Rattle.nt_serve.specs.Sessions.{IsCut, IsRoundAs, IsLastOf, AreRounds, end_of};

use crate::messages::{take_binary, take_text};
use crate::served::{Break, ServedEnd};
use nt_hall::{Hall, Journal, Seat};
use nt_link::{Frame, Sink};
use nt_rules::{Act, StepOut};
use nt_session::frames_of;
use nt_wire::{Clock, Heard, Link, LinkFault};
use std::alloc::{AllocError, Global};
use std::sync::Wait;

/// Takes what the link gives, and answers whether that is no end.
fn hear<R: Wait, L: Link, C: Clock, J: Journal + Drop, S: Sink + Drop>(
    rt: &R,
    alloc: Global,
    hall: &Hall<J, S>,
    seat: &mut Seat,
    link: &mut L,
    clock: &mut C,
    conn: u32,
    ignored: &mut u64,
) -> Result<bool, Break>
    requires own { seat.old.lock ≡ hall.now }
    ensures own { seat.new.lock ≡ seat.old.lock }
    ensures heard { IfOk result (λ more. Reaches
        (at L.coming L.received L.sent seat.old link.old ignored.old)
        (at L.coming L.received L.sent seat.new link.new ignored.new) (IsHeardAs more conn)) }
    ensures ended { result ≡ Ok false → IfSome (L.coming link.new) (λ frames. frames ≡ []) }
    ensures cut { IfErr result (λ b. Reaches
        (at L.coming L.received L.sent seat.old link.old ignored.old)
        (at L.coming L.received L.sent seat.new link.new ignored.new) (IsCut b (IsHeard conn))) }
    ensures later { L.faults link.old ≤ L.faults link.new }
    ensures cause { IsErrOf result Break.Link → Rose (L.faults link.old) (L.faults link.new) }
{
    match link.recv()? {
        Heard::Text(text) => {
            let text = text.as_str().as_bytes();
            take_text(rt, alloc, hall, seat, link, clock, conn, text, ignored)?;
            Ok(true)
        }
        Heard::Binary(bytes) => {
            let bytes = bytes.as_bytes();
            take_binary(rt, alloc, hall, seat, link, clock, conn, bytes, ignored)?;
            Ok(true)
        }
        Heard::Quiet => Ok(true),
        Heard::Ended => Ok(false),
    }
}

/// The most messages of one drain.
const BUDGET: u32 = 256;

/// The frames of what a drain that was answered so hands.
fn frames_handed(alloc: Global, out: &StepOut) -> Result<Vec<Frame>, AllocError>
    ensures { IfOk result (λ frames. frames.items ≡ frames_in (drained_batch out.now)) }
{
    match out {
        StepOut::Drained(batch) => frames_of(alloc, batch),
        _ => Ok(Vec::new(alloc)),
    }
}

/// Sends frames, in order.
fn send_all<L: Link>(link: &mut L, frames: Vec<Frame>) -> Result<(), LinkFault>
    ensures sent { IfOk result (λ _. Sends L.coming L.received L.sent frames.items link.old link.new) }
    ensures some { IfErr result (λ _. SendsSome L.coming L.received L.sent frames.items link.old link.new) }
    ensures later { L.faults link.old ≤ L.faults link.new }
    ensures cause { result ≡ Err LinkFault.Failed → Rose (L.faults link.old) (L.faults link.new) }
{
    for frame in frames {
        link.send(&frame)?;
    }
    Ok(())
}

/// Hands the connection what it is owed: one drain, whose frames are sent.
fn drain<R: Wait, L: Link, C: Clock, J: Journal + Drop, S: Sink + Drop>(
    rt: &R,
    alloc: Global,
    hall: &Hall<J, S>,
    seat: &mut Seat,
    link: &mut L,
    clock: &mut C,
    conn: u32,
) -> Result<(), Break>
    requires own { seat.old.lock ≡ hall.now }
    ensures own { seat.new.lock ≡ seat.old.lock }
    ensures drained { (ignored : ℕ) → IfOk result (λ _. Reaches
        (at L.coming L.received L.sent seat.old link.old ignored)
        (at L.coming L.received L.sent seat.new link.new ignored) (IsDrained conn)) }
    ensures cut { (ignored : ℕ) → IfErr result (λ b. Reaches
        (at L.coming L.received L.sent seat.old link.old ignored)
        (at L.coming L.received L.sent seat.new link.new ignored) (IsCut b (IsDrained conn))) }
    ensures later { L.faults link.old ≤ L.faults link.new }
    ensures cause { IsErrOf result Break.Link → Rose (L.faults link.old) (L.faults link.new) }
{
    let now = clock.now();
    let act = Act::Drain {
        conn,
        budget: BUDGET,
    };
    match hall.act(rt, alloc, seat, now, act) {
        Ok(out) => {
            let frames = frames_handed(alloc, &out)?;
            send_all(link, frames)?;
            Ok(())
        }
        Err(_) => Err(Break::Failed),
    }
}

/// One round. It answers the end, where the session doesn't go on.
fn turn<R: Wait, L: Link, C: Clock, J: Journal + Drop, S: Sink + Drop>(
    rt: &R,
    alloc: Global,
    hall: &Hall<J, S>,
    seat: &mut Seat,
    link: &mut L,
    clock: &mut C,
    conn: u32,
    ignored: &mut u64,
) -> Result<Option<ServedEnd>, Break>
    requires own { seat.old.lock ≡ hall.now }
    ensures own { seat.new.lock ≡ seat.old.lock }
    ensures round { IfOk result (λ end. Reaches
        (at L.coming L.received L.sent seat.old link.old ignored.old)
        (at L.coming L.received L.sent seat.new link.new ignored.new) (IsRoundAs end conn)) }
    ensures ended { result ≡ Ok (Some ServedEnd.Ended)
        → IfSome (L.coming link.new) (λ frames. frames ≡ []) }
    ensures cut { IfErr result (λ b. Reaches
        (at L.coming L.received L.sent seat.old link.old ignored.old)
        (at L.coming L.received L.sent seat.new link.new ignored.new) (IsCut b (IsAnyRound conn))) }
    ensures later { L.faults link.old ≤ L.faults link.new }
    ensures cause { IsErrOf result Break.Link → Rose (L.faults link.old) (L.faults link.new) }
    ensures whole { result ≡ Ok (Some ServedEnd.LinkFault) → ⊥ }
{
    if !hear(rt, alloc, hall, seat, link, clock, conn, ignored)? {
        return Ok(Some(ServedEnd::Ended));
    }
    let look = hall.look(rt, seat, conn);
    if look.failed {
        return Err(Break::Failed);
    }
    if look.shut {
        return Ok(Some(ServedEnd::Shut));
    }
    if let Some(weight) = look.behind {
        return Ok(Some(ServedEnd::Behind(weight)));
    }
    if look.pending > 0 {
        drain(rt, alloc, hall, seat, link, clock, conn)?;
    }
    Ok(None)
}

/// What a session ends with whose round was cut, and nothing where the hall has failed.
fn end_of(cut: Break) -> Option<ServedEnd>
    ensures { result ≡ end_of cut }
{
    match cut {
        Break::Link => Some(ServedEnd::LinkFault),
        Break::Memory => Some(ServedEnd::Memory),
        Break::Failed => None,
    }
}

/// Round after round, to the end of the session. It answers nothing where the hall has failed.
pub(crate) fn serve_rounds<R: Wait, L: Link, C: Clock, J: Journal + Drop, S: Sink + Drop>(
    rt: &R,
    alloc: Global,
    hall: &Hall<J, S>,
    seat: &mut Seat,
    link: &mut L,
    clock: &mut C,
    conn: u32,
    ignored: &mut u64,
) -> Option<ServedEnd>
    requires own { seat.old.lock ≡ hall.now }
    ensures own { seat.new.lock ≡ seat.old.lock }
    ensures rounds { Reaches (at L.coming L.received L.sent seat.old link.old ignored.old)
        (at L.coming L.received L.sent seat.new link.new ignored.new)
        (AreRounds (IsLastOf result conn) conn) }
    ensures ended { result ≡ Some ServedEnd.Ended
        → IfSome (L.coming link.new) (λ frames. frames ≡ []) }
    ensures later { L.faults link.old ≤ L.faults link.new }
    ensures cause { result ≡ Some ServedEnd.LinkFault
        → Rose (L.faults link.old) (L.faults link.new) }
{
    for _ in rt.forever() {
        match turn(rt, alloc, hall, seat, link, clock, conn, ignored) {
            Ok(None) => {}
            Ok(Some(end)) => return Some(end),
            Err(cut) => return end_of(cut),
        }
    }
    unreachable!()
}
