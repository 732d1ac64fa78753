//! Taking what was handed out of what is kept.

ghost use Rattle.std.specs.Prelude.{◌≡◌, filter, max, not};
ghost use Rattle.std.specs.List.{list_any};
ghost use Rattle.nt_rules.specs.outbox.Keys.{announces, is_in, next_value};
ghost use Rattle.nt_rules.specs.outbox.Marks.{handed, is_blank, without};
ghost use Rattle.nt_outbox.specs.Kinds.{kind_of};
ghost use Rattle.nt_outbox.specs.Steps.{next_of, run_of};

use crate::key::{Key, Kind};
use crate::mark::{Mark, is_after, is_blank, place_after};
use nt_values::ListOf;
use std::alloc::Global;
use std::mem;

/// Whether the message of this kind is among the keys.
fn is_in(keys: &[Key], kind: Kind, topic: u32, place: u64) -> bool
    ensures { result
        ≡ is_in keys.now (record { kind = kind_of kind; topic = topic; place = place }) }
{
    keys.iter().any(|key| key.is(kind, topic, place))
}

/// Whether one of the keys announces the topic.
fn is_announced(keys: &[Key], id: u32) -> bool
    ensures { result ≡ list_any (announces id) keys.now }
{
    keys.iter().any(|key| key.announces(id))
}

/// The last place of the topic's values among the keys.
fn last_value(keys: &[Key], id: u32) -> Option<u64>
    ensures { next_of result ≡ next_value keys.now id }
{
    let mut last = None;
    for key in keys {
        if key.is_value() && key.topic == id && is_after(key.place, last) {
            last = Some(key.place);
        }
    }
    last
}

/// The later one of two places.
fn later(a: Option<u64>, b: Option<u64>) -> Option<u64>
    ensures { next_of result ≡ max (next_of a) (next_of b) }
{
    match b {
        Some(place) if is_after(place, a) => b,
        _ => a,
    }
}

/// The place of an end, where it wasn't handed.
fn without(keys: &[Key], over: Option<u64>, id: u32) -> Option<u64>
    ensures { result ≡ without keys.now over id }
{
    match over {
        Some(place) if is_in(keys, Kind::End, id, place) => None,
        Some(place) => Some(place),
        None => None,
    }
}

/// Takes what was handed out of what is kept of a topic.
pub fn hand(alloc: Global, mark: &mut Mark, keys: &[Key])
    ensures { mark.new ≡ handed keys.now mark.old }
{
    let id = mark.id;
    let last = last_value(keys, id);
    mark.is_announced = mark.is_announced || is_announced(keys, id);
    mark.over = without(keys, mark.over, id);
    let mut publishes = mem::replace(&mut mark.publishes, ListOf::empty(alloc)).into_vec();
    publishes.retain(|p| !is_in(keys, Kind::Publish, id, p.place));
    mark.publishes = ListOf::of_vec(publishes);
    let mut settings = mem::replace(&mut mark.settings, ListOf::empty(alloc)).into_vec();
    settings.retain(|s| !is_in(keys, Kind::Setting, id, s.place));
    mark.settings = ListOf::of_vec(settings);
    mark.last = later(mark.last, last);
    let mut values = mem::replace(&mut mark.values, ListOf::empty(alloc)).into_vec();
    values.retain(|p| is_after(p.place, last));
    mark.values = ListOf::of_vec(values);
    mark.newest = place_after(mark.newest, last);
}

/// Takes the topics out of which nothing has to be kept.
pub fn keep_marks(marks: &mut Vec<Mark>)
    ensures { marks.new.items ≡ filter (λ m. not (is_blank m)) marks.old.items }
{
    marks.retain(|mark| !is_blank(mark));
}

/// How many of the first keys are of the topic of this id.
pub fn run_len(keys: &[Key], id: u32) -> usize
    ensures { result ≡ run_of id keys.now }
{
    for (i, key) in keys.iter().enumerate() {
        if key.topic != id {
            return i;
        }
    }
    keys.len()
}
