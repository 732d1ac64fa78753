//! A worker's seat.

use crate::view::View;
use atomic_table::Badge;
use std::marker::Model;

/// A worker's right to take turns, and what it knows of them. It has no bytes but the worker's
/// number, and may go to another thread.
#[derive(Drop)]
pub struct Seat {
    pub(crate) worker: u32,
    pub(crate) badge: Badge<View>,
}

impl Model for Seat {
    ghost use Rattle.std.specs.Prelude.{◌≡◌, [], ◌∷◌};
    ghost use Rattle.std.specs.Coded.{codes};
    ghost use Rattle.nt_topics.specs.contracts.properties.Props as props;
    ghost use Rattle.nt_lock.specs.Seats.{SeatView, seat_view, idle_view};

    ghost Value = { SeatView };

    ghost coded = { Prim.hlevel (codes, props.the_row.coded) };

    ghost view = { λ s. seat_view s.badge.table_id s.worker s.badge.views };

    ghost invariant = { λ s. s.badge.views
        ≡ idle_view (seat_view s.badge.table_id s.worker s.badge.views) ∷ [] };
}
