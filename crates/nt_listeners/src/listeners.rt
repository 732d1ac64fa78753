//! Listeners, each with the prefix of the names of which it hears.

ghost use Rattle.std.specs.Prelude.{◌≡◌, ◌+◌, ◌-◌, ◌<◌, ◌^◌, ◌==◌, [], ◌∷◌, ◌++◌, length, option_map, MatchResult};
ghost use Rattle.std.specs.List.{find, position};
ghost use Rattle.nt_listeners.specs.Rosters.{without};
ghost use Rattle.nt_listeners.specs.Telling.{AreTold};

use crate::listener::Listener;
use crate::row::Row;
use nt_rules::Change;
use nt_topics::Name;
use std::alloc::{AllocError, Global};
use std::marker::Model;

/// Listeners of one type, in the order in which they were added. Contracts see the list of them, and how many
/// were ever added.
#[derive(Drop)]
pub struct ListenersOf<L> {
    rows: Vec<Row<L>>,
    added: u32,
}

/// Listeners of any types.
pub type Listeners = ListenersOf<Box<dyn Listener>>;

impl<L> Model for ListenersOf<L> {
    ghost use Rattle.std.specs.Prelude.{◌≤◌, vec_len};
    ghost use Rattle.nt_listeners.specs.Rosters.{Roster};

    ghost Value = { Roster L };

    ghost view = { λ l. record { rows = l.rows.items; added = l.added } };

    ghost invariant = { λ l. vec_len l.rows ≤ l.added };
}

/// The position of the listener of this id.
fn position_of<L>(rows: &[Row<L>], id: u32) -> Option<usize>
    ensures { result ≡ position (λ row. row.id == id) rows.now }
{
    rows.iter().position(|row| row.id == id)
}

impl<L: Listener> ListenersOf<L> {
    /// No listeners. It takes no memory.
    pub fn new(alloc: Global) -> ListenersOf<L>
        ensures { result ≡ record { rows = []; added = 0 } }
    {
        ListenersOf {
            rows: Vec::new(alloc),
            added: 0,
        }
    }

    /// Adds a listener, which from now on hears of the changes whose name begins with the prefix. Answers its
    /// id: the first is 1, and each further one is greater by 1.
    ///
    /// # Errors
    ///
    /// For want of memory the listener is handed back, and all is as before.
    pub fn add(&mut self, prefix: Name, listener: L) -> Result<u32, (L, AllocError)>
        requires { self.old.added < 2 ^ 32 - 1 }
        ensures { MatchResult result
            (λ id. (id ≡ self.old.added + 1) × (self.new ≡ record {
              rows = self.old.rows ++ record { id = id; prefix = prefix; listener = listener } ∷ [];
              added = id;
            }))
            (λ refused. (refused.0 ≡ listener) × (self.new ≡ self.old)) }
    {
        let id = self.added + 1;
        let row = Row {
            id,
            prefix,
            listener,
        };
        match self.rows.push(row) {
            Ok(()) => {
                self.added = id;
                Ok(id)
            }
            Err(refused) => Err((refused.value.listener, AllocError)),
        }
    }

    /// Takes out the listener of this id, where it is there.
    pub fn remove(&mut self, id: u32) -> Option<L>
        ensures listener { result ≡ option_map (λ row. row.listener) (find (λ row. row.id == id) self.old.rows) }
        ensures others { self.new ≡ record self.old { rows = without id self.old.rows } }
    {
        match position_of(&self.rows, id) {
            Some(i) => {
                let row = self.rows.remove(i);
                Some(row.listener)
            }
            None => None,
        }
    }

    /// Tells a change. Each listener whose prefix begins the name hears it once, in the order of their ids. One
    /// that refuses is dropped. Answers how many were.
    pub fn tell(&mut self, change: &Change) -> u32
        ensures told { AreTold L.heard L.refusals L.may_answer change.now self.old.rows self.new.rows }
        ensures count { result ≡ length self.old.rows - length self.new.rows }
        ensures added { self.new.added ≡ self.old.added }
    {
        let before = self.rows.len();
        self.rows.retain_mut(|row| row.stays_after(change));
        (before - self.rows.len()) as u32
    }

    /// Drops all listeners.
    pub fn clear(&mut self)
        ensures { self.new ≡ record self.old { rows = [] } }
    {
        self.rows.clear();
    }
}
