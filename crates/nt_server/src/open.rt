//! Open connections.

use nt_outbox::Outbox;
use nt_subs::SubSet;
use nt_topics::Name;
use std::marker::Model;

/// An open connection: its number, the worker that serves it, the name that it was given, its
/// subscriptions and what it is owed.
#[derive(Drop)]
pub struct Open {
    pub conn: u32,
    pub worker: u32,
    pub name: Name,
    pub subs: SubSet,
    pub outbox: Outbox,
}

impl Model for Open {
    ghost use Rattle.nt_rules.specs.history.State as state;
    ghost use Rattle.nt_topics.specs.contracts.properties.Update as update;
    ghost use Rattle.std.specs.Coded.{codes};

    ghost Value = { state.Open };

    ghost coded = { Prim.hlevel (codes, update.the_row.coded) };

    ghost view = { λ o. record {
      conn = o.conn;
      worker = o.worker;
      name = o.name;
      subs = o.subs;
      outbox = o.outbox;
    } };
}
