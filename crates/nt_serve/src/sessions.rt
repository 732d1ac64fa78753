//! Sessions, from the opening of a connection to its close.

ghost use Rattle.std.specs.Prelude.{◌≡◌, ◌≤◌, [], IfSome, MatchOption};
ghost use Rattle.nt_link.specs.Causes.{Rose};
ghost use Rattle.nt_serve.specs.Steps.{at};
ghost use Rattle.nt_serve.specs.Sessions.{IsOpened, IsUnopened, Serves};

use crate::rounds::serve_rounds;
use crate::served::{Served, ServedEnd};
use nt_hall::{Hall, Journal, Seat};
use nt_link::Sink;
use nt_rules::{Act, StepOut};
use nt_topics::{ClientName, Version};
use nt_wire::{Clock, Link};
use std::alloc::Global;
use std::sync::Wait;

/// The number of the connection that was opened, if one was.
fn opened(out: &StepOut) -> Option<u32>
    ensures { MatchOption result (IsUnopened out.now) (IsOpened out.now) }
{
    match out {
        StepOut::Opened { conn, .. } => Some(*conn),
        _ => None,
    }
}

/// Serves a connection of this name, which comes over the link and speaks this version, by the
/// seat's worker: opens it, takes frame after frame and hands what is owed, and closes it. It may
/// wait without end.
///
/// It takes one frame, or finds that none came; says its messages, one by one, and answers at once
/// those that ask for the time; looks; and where something is owed hands at most 256 messages, whose
/// frames are sent before the next frame is asked for.
pub fn serve_connection<R: Wait, L: Link, C: Clock, J: Journal + Drop, S: Sink + Drop>(
    rt: &R,
    alloc: Global,
    hall: &Hall<J, S>,
    seat: &mut Seat,
    link: &mut L,
    clock: &mut C,
    name: &ClientName,
    version: Version,
) -> Served
    requires own { seat.old.lock ≡ hall.now }
    ensures own { seat.new.lock ≡ seat.old.lock }
    ensures served { Serves (at L.coming L.received L.sent seat.old link.old 0)
        (at L.coming L.received L.sent seat.new link.new result.ignored) name.now version result }
    ensures ended { result.end ≡ ServedEnd.Ended
        → IfSome (L.coming link.new) (λ frames. frames ≡ []) }
    ensures later { L.faults link.old ≤ L.faults link.new }
    ensures cause { result.end ≡ ServedEnd.LinkFault
        → Rose (L.faults link.old) (L.faults link.new) }
{
    let Ok(name) = name.copy(alloc) else {
        return Served::new(0, 0, ServedEnd::Memory);
    };
    let now = clock.now();
    let Ok(out) = hall.act(rt, alloc, seat, now, Act::Open { name, version }) else {
        return Served::new(0, 0, ServedEnd::Memory);
    };
    let Some(conn) = opened(&out) else {
        return Served::new(0, 0, ServedEnd::NotOpened);
    };
    let mut ignored = 0;
    let Some(end) = serve_rounds(rt, alloc, hall, seat, link, clock, conn, &mut ignored) else {
        return Served::new(conn, ignored, ServedEnd::Memory);
    };
    let now = clock.now();
    match hall.act(rt, alloc, seat, now, Act::Close { conn }) {
        Ok(_) => Served::new(conn, ignored, end),
        Err(_) => Served::new(conn, ignored, ServedEnd::Memory),
    }
}
