//! At which places the held values were taken.

ghost use Rattle.std.specs.Prelude.{◌≡◌, [], MatchResult, OnOk};
ghost use Rattle.nt_rules.specs.outbox.Calls.{id_of};
ghost use Rattle.nt_rules.specs.history.State.{taken_at, with_taken, without_taken, taken_by, taken_after};
ghost use Rattle.nt_rules.specs.Sorted.{RisesFrom};
ghost use Rattle.nt_server.specs.TakenPlaces.{id_of_place, IsFoundAt, IsMissedAt};

use crate::telling::holds_in;
use nt_rules::{Change, Taken};
use nt_table::Table;
use std::alloc::{AllocError, Global};
use std::marker::Model;

/// The places at which the values that topics hold were taken. Contracts see the list of them, by
/// rising id of the topics.
#[derive(Drop)]
pub struct TakenPlaces {
    list: Vec<Taken>,
}

impl Model for TakenPlaces {
    ghost use Rattle.std.specs.Prelude.{List};
    ghost use Rattle.nt_rules.specs.declared.taken.Taken.{Taken};
    ghost use Rattle.nt_rules.specs.Sorted.{RisesFrom};
    ghost use Rattle.nt_server.specs.TakenPlaces.{id_of_place};

    ghost Value = { List Taken };

    ghost view = { λ p. p.list.items };

    ghost invariant = { λ p. RisesFrom id_of_place 0 p.list.items };
}

/// Where the place of a topic stands, or else would stand.
fn index_of(taken: &[Taken], topic: u32) -> Result<usize, usize>
    requires { RisesFrom id_of_place 0 taken.now }
    ensures { MatchResult result (IsFoundAt topic taken.now) (IsMissedAt topic taken.now) }
{
    taken.binary_search_by_key(&topic, |one| one.topic)
}

/// The id of a topic. A number that is none names no topic.
fn id_of(id: i64) -> Option<u32>
    ensures { result ≡ id_of id }
{
    u32::try_from(id).ok()
}

impl TakenPlaces {
    /// No places.
    pub fn new(alloc: Global) -> TakenPlaces
        ensures { result ≡ [] }
    {
        TakenPlaces {
            list: Vec::new(alloc),
        }
    }

    /// The place at which the value of a topic was taken, and 0 where none was.
    pub fn at(&self, topic: u32) -> u64
        ensures { result ≡ taken_at topic self.now }
    {
        match index_of(&self.list, topic) {
            Ok(i) => self.list[i].place,
            Err(_) => 0,
        }
    }

    /// Keeps the place at which the value of a topic was taken.
    fn take(&mut self, topic: u32, place: u64) -> Result<(), AllocError>
        ensures { OnOk result (self.new ≡ with_taken topic place self.old) }
    {
        let new = Taken { topic, place };
        match index_of(&self.list, topic) {
            Ok(i) => self.list[i] = new,
            Err(i) => self.list.insert(i, new)?,
        }
        Ok(())
    }

    /// Forgets the place of a topic.
    fn forget(&mut self, topic: u32)
        ensures { self.new ≡ without_taken topic self.old }
    {
        if let Ok(i) = index_of(&self.list, topic) {
            let _gone = self.list.remove(i);
        }
    }

    /// Keeps the place of a value that was taken there and is held, over the topics after a change,
    /// and forgets that of a topic that holds none or ended.
    fn take_change(&mut self, place: u64, table: &Table, change: &Change) -> Result<(), AllocError>
        ensures { OnOk result (self.new ≡ taken_by place table.now.topics change.now self.old) }
    {
        match change {
            Change::Changed { id, name, .. } => match id_of(*id) {
                Some(topic) if holds_in(table, name.as_str()) => self.take(topic, place),
                _other => Ok(()),
            },
            Change::Props { id, name, .. } => {
                match id_of(*id) {
                    Some(topic) if !holds_in(table, name.as_str()) => self.forget(topic),
                    _other => {}
                }
                Ok(())
            }
            Change::Ended { id, .. } => {
                if let Some(topic) = id_of(*id) {
                    self.forget(topic);
                }
                Ok(())
            }
            _other => Ok(()),
        }
    }

    /// Keeps the places of values that were taken there and are held, over the topics after these
    /// changes, and forgets those of topics that hold none or ended.
    pub fn take_changes(
        &mut self,
        place: u64,
        table: &Table,
        changes: &[Change],
    ) -> Result<(), AllocError>
        ensures { OnOk result
            (self.new ≡ taken_after place table.now.topics changes.now self.old) }
    {
        for change in changes {
            self.take_change(place, table, change)?;
        }
        Ok(())
    }
}
