//! A listener in memory, for tests.

ghost use Rattle.std.specs.Prelude.{◌≡◌, ◌≤◌, [], Some, MatchResult, IfErr};
ghost use Rattle.nt_link.specs.Causes.{Rose, StaysAtEnd, next_count};
ghost use Rattle.nt_listeners.specs.Matching.{with_change};
ghost use Rattle.nt_listeners.specs.Memory.{fails_where_told};
ghost use Rattle.nt_listeners.specs.declared.listener.Refused.TheVariants.{Failed};

use crate::listener::{Listener, Refused};
use nt_rules::Change;
use std::alloc::Global;
use std::marker::Model;

/// A listener that keeps what it heard. The calls fail whose numbers, from 0, are in a list.
#[derive(Drop)]
pub struct MemListener {
    alloc: Global,
    heard: Vec<Change>,
    fails: Vec<u64>,
    calls: u64,
    refusals: u64,
}

impl Model for MemListener {
    ghost use Rattle.std.specs.Coded.{codes};
    ghost use Rattle.nt_topics.specs.contracts.properties.Props as props;
    ghost use Rattle.nt_topics.specs.contracts.properties.Update as update;
    ghost use Rattle.nt_listeners.specs.Memory.{MemHeard};

    ghost Value = { MemHeard };

    ghost coded = { Prim.hlevel (codes, props.the_row.coded, update.the_row.coded) };

    ghost view = { λ l. record {
      heard = l.heard.items;
      fails = l.fails.items;
      calls = l.calls;
      refusals = l.refusals;
    } };
}

impl MemListener {
    /// A listener that has heard nothing and whose calls with these numbers fail. It takes no memory.
    pub fn new(alloc: Global, fails: Vec<u64>) -> MemListener
        ensures { result ≡ record { heard = []; fails = fails.items; calls = 0; refusals = 0 } }
    {
        MemListener {
            alloc,
            heard: Vec::new(alloc),
            fails,
            calls: 0,
            refusals: 0,
        }
    }
}

impl Listener for MemListener {
    ghost heard = { λ l. Some l.heard };

    ghost refusals = { λ l. l.refusals };

    ghost may_answer = { λ l _ result. fails_where_told l.fails l.calls result };

    /// A call fails exactly where its number is in the list. Each other hears the change, where there is memory.
    fn hear(&mut self, change: &Change) -> Result<(), Refused>
        ensures heard { MatchResult result (λ _. Some self.new.heard ≡ with_change change.now (Some self.old.heard))
            (λ _. Some self.new.heard ≡ Some self.old.heard) }
        ensures answer { fails_where_told self.old.fails self.old.calls result }
        ensures cause { IfErr result (λ e. e ≡ Failed → Rose self.old.refusals self.new.refusals) }
        ensures later { self.old.refusals ≤ self.new.refusals }
        ensures end { StaysAtEnd self.old.refusals self.new.refusals }

        ensures fails { self.new.fails ≡ self.old.fails }
        ensures calls { self.new.calls ≡ next_count self.old.calls }
    {
        let call = self.calls;
        self.calls = call.saturating_add(1);
        if self.fails.contains(&call) {
            self.refusals = self.refusals.saturating_add(1);
            return Err(Refused::Failed);
        }
        let heard = change.copy(self.alloc)?;
        self.heard.push(heard)?;
        Ok(())
    }

    /// The changes that it heard, in order.
    fn told(&self) -> Option<&[Change]> {
        Some(self.heard.as_slice())
    }
}
