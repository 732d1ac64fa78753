//! Where entries go.

ghost use Rattle.std.specs.Prelude.{◌≡◌, ℕ, ◌+◌, ◌<◌, ◌^◌, List, [], Option, Some, None, OnOk, MatchOption, MatchResult};
ghost use Rattle.nt_rules.specs.declared.act.Entry.{Entry};
ghost use Rattle.nt_hall.specs.Journals.{GoesOn, kept_with};

use crate::weight::entry_weight;
use nt_rules::Entry;
use std::alloc::{AllocError, Global};
use std::marker::Model;

/// The most entries that a journal keeps.
pub const MOST_ENTRIES: u64 = 4_194_304;

/// The most that they may weigh together.
pub const MOST_WEIGHT: u64 = 268_435_456;

/// The list of entries of a server. It may stop to tell them, and then never tells them again.
pub trait Journal {
    /// How many entries there are.
    ghost count: { Self → ℕ };

    /// All entries, the newest last, while they are told.
    ghost told: { Self → Option (List Entry) };

    /// Adds an entry. For want of memory it leaves the journal as it was.
    fn append(&mut self, entry: Entry) -> Result<(), AllocError>
        requires { count self.old < 2 ^ 63 }
        ensures count { MatchResult result (λ _. count self.new ≡ count self.old + 1)
            (λ _. count self.new ≡ count self.old) }
        ensures told { MatchResult result (λ _. GoesOn (told self.old) entry (told self.new))
            (λ _. told self.new ≡ told self.old) };
}

/// A journal that keeps its entries, up to a number and a weight. With the first entry past one of
/// them it drops all.
#[derive(Drop)]
pub struct KeptJournal {
    entries: Option<Vec<Entry>>,
    count: u64,
    weight: u64,
}

impl Model for KeptJournal {
    ghost use Rattle.std.specs.Coded.{codes};
    ghost use Rattle.nt_topics.specs.contracts.properties.Props as props;
    ghost use Rattle.nt_hall.specs.Journals.{Keeping};
    ghost use Rattle.nt_hall.specs.Kept.{items_of, IsKept};

    ghost Value = { Keeping };

    ghost coded = { Prim.hlevel (codes, props.the_row.coded) };

    ghost view = { λ j. record { count = j.count; told = items_of j.entries } };

    ghost invariant = { λ j. IsKept (items_of j.entries) j.count j.weight };
}

impl KeptJournal {
    /// A journal without entries.
    pub fn new(alloc: Global) -> KeptJournal
        ensures { result ≡ record { count = 0; told = Some [] } }
    {
        KeptJournal {
            entries: Some(Vec::new(alloc)),
            count: 0,
            weight: 0,
        }
    }

    /// All entries, the newest last, while they are kept.
    pub fn told(&self) -> Option<&[Entry]>
        ensures { MatchOption result (self.now.told ≡ None) (λ list. self.now.told ≡ Some list.now) }
    {
        match &self.entries {
            Some(entries) => Some(entries.as_slice()),
            None => None,
        }
    }

    /// How many entries there were, also where they aren't kept any more.
    pub fn count(&self) -> u64
        ensures { result ≡ self.now.count }
    {
        self.count
    }
}

impl Journal for KeptJournal {
    ghost count = { λ j. j.count };

    ghost told = { λ j. j.told };

    fn append(&mut self, entry: Entry) -> Result<(), AllocError>
        requires { self.old.count < 2 ^ 63 }
        ensures count { MatchResult result (λ _. self.new.count ≡ self.old.count + 1)
            (λ _. self.new.count ≡ self.old.count) }
        ensures told { MatchResult result (λ _. GoesOn self.old.told entry self.new.told)
            (λ _. self.new.told ≡ self.old.told) }
        ensures kept { OnOk result (self.new.told ≡ kept_with self.old.told entry) }
    {
        let weight = self.weight.saturating_add(entry_weight(&entry));
        if self.count >= MOST_ENTRIES || weight > MOST_WEIGHT {
            self.entries = None;
        }
        match &mut self.entries {
            Some(entries) => entries.push(entry)?,
            None => drop(entry),
        }
        self.count += 1;
        self.weight = weight;
        Ok(())
    }
}

/// A journal that only counts its entries, and never tells them. Contracts see the count.
#[derive(Drop)]
pub struct MuteJournal {
    count: u64,
}

impl Model for MuteJournal {
    ghost use Rattle.std.specs.Prelude.{ℕ};

    ghost Value = { ℕ };

    ghost view = { λ j. j.count };
}

impl MuteJournal {
    /// A journal without entries.
    pub fn new() -> MuteJournal
        ensures { result ≡ 0 }
    {
        MuteJournal { count: 0 }
    }
}

impl Journal for MuteJournal {
    ghost count = { λ j. j };

    ghost told = { λ _. None };

    fn append(&mut self, entry: Entry) -> Result<(), AllocError> {
        drop(entry);
        self.count += 1;
        Ok(())
    }
}
