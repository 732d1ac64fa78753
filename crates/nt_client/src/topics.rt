//! The topics that a client holds.

ghost use Rattle.std.specs.Prelude.{◌≡◌, ◌≤◌, ◌<◌, ℕ, [], MatchOption, MatchResult, OnOk, IfSome, false, vec_len, length, get_or};
ghost use Rattle.std.specs.List.{list_any};
ghost use Rattle.nt_rules.specs.telling.Told.{is_called};
ghost use Rattle.nt_rules.specs.declared.held.Held.{Held};
ghost use Rattle.nt_client.specs.Kept.{AreNoted, IsCalledAt, IsCalledNowhere, IsKept, IsLastAt, IsStored, id_of};
ghost use Rattle.nt_client.specs.Names.{AreInOrder};
ghost use Rattle.nt_client.specs.Sorted.{IsFoundAt, IsMissedAt, Rise};

use crate::names::Names;
use nt_rules::Held;
use std::alloc::{AllocError, Global};

/// The topics that a client holds, by rising id, and the names under which it finds them.
#[derive(Drop)]
pub struct Topics {
    pub held: Vec<Held>,
    pub names: Names,
    /// Whether each is noted under its name, as none is once a frame was refused.
    pub is_noted: bool,
}

/// Where the topic of an id is if the ids up to it rise by one, as those of a server do that is told
/// of all its topics.
fn place_in_row(held: &[Held], id: i64) -> Option<usize>
    ensures { IfSome result (λ at. (at < length held.now)
        × ((h : Held) → id_of (get_or held.now at h) ≡ id)) }
{
    let first = held.first()?.id;
    let at = usize::try_from(id.checked_sub(first)?).ok()?;
    if held.get(at)?.id == id {
        Some(at)
    } else {
        None
    }
}

/// Where the topic of an id is, or else would stand.
pub fn place_of(held: &[Held], id: i64) -> Result<usize, usize>
    requires { Rise id_of held.now }
    ensures { MatchResult result (IsFoundAt id_of id held.now) (IsMissedAt id_of id held.now) }
{
    match place_in_row(held, id) {
        Some(at) => Ok(at),
        None => held.binary_search_by_key(&id, |h| h.id),
    }
}

/// Whether the topic of this id is held under this name, and where.
fn place_called(held: &[Held], id: i64, name: &str) -> Option<usize>
    requires { Rise id_of held.now }
    ensures { MatchOption result (IsCalledNowhere id name.now held.now) (IsCalledAt id name.now held.now) }
{
    match place_of(held, id) {
        Ok(at) => {
            if held[at].name.as_str() == name {
                Some(at)
            } else {
                None
            }
        }
        Err(_) => None,
    }
}

/// Notes these topics under their names.
fn note_all(alloc: Global, names: &mut Names, held: &[Held]) -> Result<(), AllocError>
    requires { AreInOrder names.old }
    ensures in_order { AreInOrder names.new }
    ensures noted { OnOk result (AreNoted names.new held.now) }
{
    for topic in held {
        names.note(alloc, topic.name.as_str(), topic.id)?;
    }
    Ok(())
}

impl Topics {
    /// None.
    pub fn new(alloc: Global) -> Topics
        ensures held { result.held.items ≡ [] }
        ensures stored { IsStored result }
    {
        Topics {
            held: Vec::new(alloc),
            names: Names::new(alloc),
            is_noted: true,
        }
    }

    /// Notes each topic under its name again, where none is.
    pub fn note_again(&mut self, alloc: Global) -> Result<(), AllocError>
        requires { IsStored self.old }
        ensures held { self.new.held.items ≡ self.old.held.items }
        ensures stored { IsStored self.new }
        ensures kept { OnOk result (IsKept self.new.names self.new.held.items) }
    {
        if !self.is_noted {
            note_all(alloc, &mut self.names, &self.held)?;
            self.is_noted = true;
        }
        Ok(())
    }

    /// Where the last topic of this name is.
    pub fn place_of_name(&self, name: &str) -> Option<usize>
        requires { IsKept self.now.names self.now.held.items }
        ensures { MatchOption result (list_any (is_called name.now) self.now.held.items ≡ false)
            (IsLastAt name.now self.now.held.items) }
    {
        let ids = self.names.ids(name);
        let mut left = ids.len();
        while left > 0 {
            left -= 1;
            if let Some(at) = place_called(&self.held, ids[left], name) {
                return Some(at);
            }
        }
        None
    }

    /// Forgets all.
    pub fn clear(&mut self)
        ensures held { self.new.held.items ≡ [] }
        ensures stored { IsStored self.new }
    {
        self.held.clear();
        self.names.clear();
        self.is_noted = true;
    }
}
