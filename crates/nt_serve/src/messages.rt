//! The messages of frames.

ghost use Rattle.std.specs.Prelude.{◌≡◌, ◌≤◌, ◌+◌, ◌-◌, ◌^◌, min, IfOk, IfErr, IsErrOf};
ghost use Rattle.nt_link.specs.Causes.{Rose};
ghost use Rattle.nt_rules.specs.history.Step.{IsPut};
ghost use Rattle.nt_serve.specs.Steps.{at, ignored_out, Reaches};
ghost use Rattle.nt_serve.specs.Rounds.{faults_in, reply_to, IsOneStep, IsTaken};
ghost use Rattle.nt_serve.specs.Sessions.{IsCut, IsLastTurn};

use crate::served::Break;
use nt_control::read_client;
use nt_frames::{FrameFault, frames_have_a_meaning, read_frame};
use nt_hall::{Hall, Journal, Seat};
use nt_link::{Frame, Sink};
use nt_rules::{Act, MOST_VALUE, Msg, StepOut};
use nt_session::clock_answer;
use nt_wire::{Clock, Link};
use std::alloc::{AllocError, Global};
use std::sync::Wait;

/// The answer at this moment to a message that asks for the server's time.
fn reply_to(alloc: Global, now: u64, msg: &Msg) -> Result<Option<Frame>, AllocError>
    ensures { IfOk result (λ answer. answer ≡ reply_to now msg.now) }
{
    match msg {
        Msg::Put(value) if value.id == -1 => Ok(Some(clock_answer(alloc, value, now)?)),
        _ => Ok(None),
    }
}

/// How much was ignored, after a message that was answered so.
fn ignored_after(ignored: u64, out: &StepOut) -> u64
    ensures { result ≡ min (ignored + ignored_out out.now) (2 ^ 64 - 1) }
{
    match out {
        StepOut::Ignored(_) => ignored.saturating_add(1),
        _ => ignored,
    }
}

/// Says a message, or answers it where it asks for the time.
fn take_message<R: Wait, L: Link, C: Clock, J: Journal + Drop, S: Sink + Drop>(
    rt: &R,
    alloc: Global,
    hall: &Hall<J, S>,
    seat: &mut Seat,
    link: &mut L,
    clock: &mut C,
    conn: u32,
    msg: Msg,
    ignored: &mut u64,
) -> Result<(), Break>
    requires own { seat.old.lock ≡ hall.now }
    requires put { IsPut msg }
    ensures own { seat.new.lock ≡ seat.old.lock }
    ensures taken { IfOk result (λ _. Reaches
        (at L.coming L.received L.sent seat.old link.old ignored.old)
        (at L.coming L.received L.sent seat.new link.new ignored.new) (IsOneStep conn msg)) }
    ensures cut { IfErr result (λ b. Reaches
        (at L.coming L.received L.sent seat.old link.old ignored.old)
        (at L.coming L.received L.sent seat.new link.new ignored.new) (IsLastTurn b)) }
    ensures later { L.faults link.old ≤ L.faults link.new }
    ensures cause { IsErrOf result Break.Link → Rose (L.faults link.old) (L.faults link.new) }
{
    let now = clock.now();
    if let Some(answer) = reply_to(alloc, now, &msg)? {
        drop(msg);
        link.send(&answer)?;
        return Ok(());
    }
    match hall.act(rt, alloc, seat, now, Act::Said { conn, msg }) {
        Ok(out) => {
            *ignored = ignored_after(*ignored, &out);
            Ok(())
        }
        Err(_) => Err(Break::Failed),
    }
}

/// Takes the messages of a text frame, in order.
pub(crate) fn take_text<R: Wait, L: Link, C: Clock, J: Journal + Drop, S: Sink + Drop>(
    rt: &R,
    alloc: Global,
    hall: &Hall<J, S>,
    seat: &mut Seat,
    link: &mut L,
    clock: &mut C,
    conn: u32,
    text: &[u8],
    ignored: &mut u64,
) -> Result<(), Break>
    requires own { seat.old.lock ≡ hall.now }
    ensures own { seat.new.lock ≡ seat.old.lock }
    ensures taken { IfOk result (λ _. Reaches
        (at L.coming L.received L.sent seat.old link.old ignored.old)
        (at L.coming L.received L.sent seat.new link.new ignored.new)
        (IsTaken conn (Frame.Text text.now))) }
    ensures cut { IfErr result (λ b. Reaches
        (at L.coming L.received L.sent seat.old link.old ignored.old)
        (at L.coming L.received L.sent seat.new link.new ignored.new)
        (IsCut b (IsTaken conn (Frame.Text text.now)))) }
    ensures later { L.faults link.old ≤ L.faults link.new }
    ensures cause { IsErrOf result Break.Link → Rose (L.faults link.old) (L.faults link.new) }
{
    let read = read_client(alloc, text)?;
    *ignored = ignored.saturating_add(u64::from(read.ignored));
    for msg in read.msgs {
        take_message(
            rt,
            alloc,
            hall,
            seat,
            link,
            clock,
            conn,
            Msg::Control(msg),
            ignored,
        )?;
    }
    Ok(())
}

/// How much was ignored, after a binary frame that stops so.
fn with_fault(ignored: u64, fault: Option<FrameFault>) -> u64
    ensures { result ≡ min (ignored + faults_in fault) (2 ^ 64 - 1) }
{
    match fault {
        Some(_) => ignored.saturating_add(1),
        None => ignored,
    }
}

/// Takes the messages of a binary frame up to its fault, if it has one, in order.
pub(crate) fn take_binary<R: Wait, L: Link, C: Clock, J: Journal + Drop, S: Sink + Drop>(
    rt: &R,
    alloc: Global,
    hall: &Hall<J, S>,
    seat: &mut Seat,
    link: &mut L,
    clock: &mut C,
    conn: u32,
    bytes: &[u8],
    ignored: &mut u64,
) -> Result<(), Break>
    requires own { seat.old.lock ≡ hall.now }
    ensures own { seat.new.lock ≡ seat.old.lock }
    ensures taken { IfOk result (λ _. Reaches
        (at L.coming L.received L.sent seat.old link.old ignored.old)
        (at L.coming L.received L.sent seat.new link.new ignored.new)
        (IsTaken conn (Frame.Binary bytes.now))) }
    ensures cut { IfErr result (λ b. Reaches
        (at L.coming L.received L.sent seat.old link.old ignored.old)
        (at L.coming L.received L.sent seat.new link.new ignored.new)
        (IsCut b (IsTaken conn (Frame.Binary bytes.now)))) }
    ensures later { L.faults link.old ≤ L.faults link.new }
    ensures cause { IsErrOf result Break.Link → Rose (L.faults link.old) (L.faults link.new) }
{
    frames_have_a_meaning();
    let read = read_frame(alloc, bytes, MOST_VALUE)?;
    *ignored = with_fault(*ignored, read.fault);
    for msg in read.messages {
        take_message(
            rt,
            alloc,
            hall,
            seat,
            link,
            clock,
            conn,
            Msg::Put(msg),
            ignored,
        )?;
    }
    Ok(())
}
