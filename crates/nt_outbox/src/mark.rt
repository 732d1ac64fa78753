//! What is kept of one topic for one connection.

ghost use Rattle.std.specs.Prelude.{◌≡◌, ◌&&◌, nat_le, not, IfOk};
ghost use Rattle.nt_rules.specs.outbox.Marks.{is_wish, is_valued, is_blank, is_empty, fresh, place_from};
ghost use Rattle.nt_outbox.specs.Steps.{next_of};

use nt_rules::{Placed, Publish, Setting};
use nt_subs::Wanted;
use nt_topics::Name;
use nt_values::ListOf;
use std::alloc::{AllocError, Global};
use std::marker::Model;

/// What is kept of one topic for one connection.
#[derive(Drop)]
pub struct Mark {
    pub id: u32,
    pub name: Name,
    /// Whether it was announced to the connection.
    pub is_announced: bool,
    /// The place of its end, where it was announced and its end isn't told.
    pub over: Option<u64>,
    /// The publishes that aren't answered, the oldest first.
    pub publishes: ListOf<Publish>,
    /// The changes of its properties that aren't told, the oldest first.
    pub settings: ListOf<Setting>,
    /// The last place of a value that was handed. The value of a meta topic stands at the place 0,
    /// and this is that place where its bytes were handed since they changed.
    pub last: Option<u64>,
    /// How much the connection wants it.
    pub wish: Wanted,
    /// The values that are owed one by one, the oldest first: under `All`, and of a topic that
    /// isn't cached.
    pub values: ListOf<Placed>,
    /// The place of the value of a cached topic that is owed under `Newest`.
    pub newest: Option<u64>,
}

impl Model for Mark {
    ghost use Rattle.nt_rules.specs.outbox.Marks as marks;
    ghost use Rattle.nt_topics.specs.contracts.properties.Update as update;
    ghost use Rattle.std.specs.Coded.{codes};
    ghost use Rattle.nt_outbox.specs.Steps.{next_of};

    ghost Value = { marks.Mark };

    ghost coded = { Prim.hlevel (codes, update.the_row.coded) };

    ghost view = { λ m. record {
      id = m.id;
      name = m.name;
      is_announced = m.is_announced;
      over = m.over;
      publishes = m.publishes;
      settings = m.settings;
      next = next_of m.last;
      wish = m.wish;
      values = m.values;
      newest = m.newest;
    } };
}

/// A topic of which nothing was heard.
pub fn fresh(alloc: Global, id: u32, name: &str) -> Result<Mark, AllocError>
    ensures { IfOk result (λ m. m ≡ fresh id name.now) }
{
    Ok(Mark {
        id,
        name: Name::of(alloc, name)?,
        is_announced: false,
        over: None,
        publishes: ListOf::empty(alloc),
        settings: ListOf::empty(alloc),
        last: None,
        wish: Wanted::No,
        values: ListOf::empty(alloc),
        newest: None,
    })
}

/// Whether a topic is wanted at all.
fn is_wish(wish: Wanted) -> bool
    ensures { result ≡ is_wish wish }
{
    match wish {
        Wanted::No => false,
        Wanted::TopicOnly | Wanted::Newest | Wanted::All => true,
    }
}

/// Whether a topic's values are wanted.
pub fn is_valued(wish: Wanted) -> bool
    ensures { result ≡ is_valued wish }
{
    match wish {
        Wanted::No | Wanted::TopicOnly => false,
        Wanted::Newest | Wanted::All => true,
    }
}

/// Whether nothing of the topic has to be kept.
pub fn is_blank(mark: &Mark) -> bool
    ensures { result ≡ is_blank mark.now }
{
    !mark.is_announced
        && mark.over.is_none()
        && mark.publishes.as_slice().is_empty()
        && mark.settings.as_slice().is_empty()
        && mark.last.is_none()
        && !is_wish(mark.wish)
        && mark.values.as_slice().is_empty()
        && mark.newest.is_none()
}

/// Whether an announce of the topic is owed.
pub fn owes_topic(mark: &Mark) -> bool
    ensures { result
        ≡ (is_wish mark.now.wish && not mark.now.is_announced && is_empty mark.now.publishes) }
{
    is_wish(mark.wish) && !mark.is_announced && mark.publishes.as_slice().is_empty()
}

/// Whether a place is after the last one, where there is one.
pub fn is_after(place: u64, last: Option<u64>) -> bool
    ensures { result ≡ nat_le (next_of last) place }
{
    match last {
        Some(last) => last < place,
        None => true,
    }
}

/// A place, where it is after the last one.
pub fn place_after(place: Option<u64>, last: Option<u64>) -> Option<u64>
    ensures { result ≡ place_from (next_of last) place }
{
    match place {
        Some(place) if is_after(place, last) => Some(place),
        _ => None,
    }
}
