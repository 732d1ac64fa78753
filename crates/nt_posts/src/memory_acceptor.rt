//! An acceptor in memory, for tests.

ghost use Rattle.std.specs.Prelude.{◌≡◌, [], ◌++◌, Ok, Err, Some, IfOk, IfErr, MatchOption, Contains};
ghost use Rattle.nt_link.specs.Causes.{Rose, next_count};
ghost use Rattle.nt_wire.specs.Frames.{Rises, HasCauseOfFault};
ghost use Rattle.nt_posts.specs.Arrivals.{followed, callers_in, came_after, GoesOn};
ghost use Rattle.nt_posts.specs.Memory.{Gives};

use crate::acceptor::{Acceptor, Arrival, Caller};
use nt_wire::{Link, LinkFault};
use std::alloc::{AllocError, Global};
use std::marker::Model;
use std::snapshot::Snapshot;
use std::vec;

/// An acceptor to which given connections come, and then none any more. It keeps the links that are
/// finished. Some calls of `accept` fail, at some a connection is refused, and at some none comes, by
/// lists of their numbers.
#[derive(Drop)]
pub struct MemAcceptor<L: Link> {
    waiting: vec::IntoIter<Caller<L>>,
    all: Snapshot<Vec<Caller<L>>>,
    at: usize,
    finished: Vec<L>,
    lost: bool,
    failing: Vec<u64>,
    refused: Vec<u64>,
    quiet: Vec<u64>,
    accepts: u64,
    came: u64,
    refusals: u64,
    quiets: u64,
    faults: u64,
}

impl<L: Link> Model for MemAcceptor<L> {
    ghost use Rattle.std.specs.Prelude.{◌≡◌, take, drop};
    ghost use Rattle.std.specs.Coded.{codes};
    ghost use Rattle.std.specs.Vec.Iter.{into_iter_items};
    ghost use Rattle.nt_posts.specs.Memory.{MemArrivals, kept_links};

    ghost Value = { MemArrivals L };

    ghost view = { λ a. record {
      coming = into_iter_items a.waiting;
      arrived = take a.at a.all.value.items;
      finished = kept_links a.lost a.finished.items;
      failing = a.failing.items;
      refused = a.refused.items;
      quiet = a.quiet.items;
      accepts = a.accepts;
      came = a.came;
      refusals = a.refusals;
      quiets = a.quiets;
      faults = a.faults;
    } };

    ghost invariant = { λ a. into_iter_items a.waiting ≡ drop a.at a.all.value.items };
}

impl<L: Link + Drop> MemAcceptor<L> {
    /// An acceptor to which these connections come. The calls of `accept` with the numbers in
    /// `failing` fail; of the others, those in `refused` refuse a connection that isn't one of these,
    /// and of the rest at those in `quiet` none comes. There is room from the start for all links
    /// that can be finished.
    ///
    /// # Errors
    ///
    /// Want of memory alone.
    pub fn new(
        alloc: Global,
        callers: Vec<Caller<L>>,
        failing: Vec<u64>,
        refused: Vec<u64>,
        quiet: Vec<u64>,
    ) -> Result<MemAcceptor<L>, AllocError>
        ensures { IfOk result (λ a. a ≡ record {
          coming = callers.items;
          arrived = [];
          finished = Some [];
          failing = failing.items;
          refused = refused.items;
          quiet = quiet.items;
          accepts = 0;
          came = 0;
          refusals = 0;
          quiets = 0;
          faults = 0;
        }) }
    {
        let finished = Vec::with_capacity(alloc, callers.len())?;
        let all = Snapshot::of(&callers);
        Ok(MemAcceptor {
            waiting: callers.into_iter(),
            all,
            at: 0,
            finished,
            lost: false,
            failing,
            refused,
            quiet,
            accepts: 0,
            came: 0,
            refusals: 0,
            quiets: 0,
            faults: 0,
        })
    }

    /// The links that were finished, and None where there was no room for one.
    pub fn finished(&self) -> Option<&[L]> {
        if self.lost {
            None
        } else {
            Some(self.finished.as_slice())
        }
    }

    /// How many connections came.
    pub fn came(&self) -> u64
        ensures { result ≡ self.now.came }
    {
        self.came
    }

    // The next connection, if there is one.
    fn next(&mut self) -> Option<Caller<L>>
        ensures { MatchOption result (self.new ≡ self.old) (Gives self.old self.new) }
    {
        let caller = self.waiting.next()?;
        self.at += 1;
        self.came = self.came.saturating_add(1);
        Some(caller)
    }
}

impl<L: Link + Drop> Acceptor for MemAcceptor<L> {
    type Link = L;

    ghost arrived = { λ a. Some a.arrived };

    ghost finished = { λ a. a.finished };

    ghost came = { λ a. a.came };

    ghost refusals = { λ a. a.refusals };

    ghost quiets = { λ a. a.quiets };

    ghost faults = { λ a. a.faults };

    fn accept(&mut self) -> Result<Arrival<L>, LinkFault>
        ensures arrived { Some self.new.arrived ≡ followed (Some self.old.arrived) (callers_in result) }
        ensures finished { self.new.finished ≡ self.old.finished }
        ensures came { self.new.came ≡ came_after self.old.came result }
        ensures refused { result ≡ Ok Arrival.Refused → Rose self.old.refusals self.new.refusals }
        ensures quiet { result ≡ Ok Arrival.Quiet → Rose self.old.quiets self.new.quiets }
        ensures cause { HasCauseOfFault self.old.faults self.new.faults result }
        ensures refusals { Rises self.old.refusals self.new.refusals }
        ensures quiets { Rises self.old.quiets self.new.quiets }

        ensures coming { self.old.coming ≡ callers_in result ++ self.new.coming }
        ensures listed { Contains self.old.failing self.old.accepts → result ≡ Err LinkFault.Failed }
        ensures unlisted { IfErr result (λ _. Contains self.old.failing self.old.accepts) }
    {
        let call = self.accepts;
        self.accepts = call.saturating_add(1);
        if self.failing.contains(&call) {
            self.faults = self.faults.saturating_add(1);
            return Err(LinkFault::Failed);
        }
        if self.refused.contains(&call) {
            self.refusals = self.refusals.saturating_add(1);
            return Ok(Arrival::Refused);
        }
        if !self.quiet.contains(&call)
            && let Some(caller) = self.next()
        {
            return Ok(Arrival::Came(caller));
        }
        self.quiets = self.quiets.saturating_add(1);
        Ok(Arrival::Quiet)
    }

    fn finish(&mut self, link: L)
        ensures arrived { Some self.new.arrived ≡ Some self.old.arrived }
        ensures finished { GoesOn self.old.finished link self.new.finished }
        ensures came { self.new.came ≡ self.old.came }
        ensures refusals { Rises self.old.refusals self.new.refusals }
        ensures quiets { Rises self.old.quiets self.new.quiets }
        ensures faults { Rises self.old.faults self.new.faults }
    {
        if self.finished.push(link).is_err() {
            self.lost = true;
        }
    }
}
