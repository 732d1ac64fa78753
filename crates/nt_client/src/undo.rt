//! Changes of the topics that a client holds, which can be undone without memory.

ghost use Rattle.std.specs.Prelude.{◌≡◌, ◌<◌, ◌≤◌, ◌∷◌, [], List, OnOk, OnErr, insert, map, remove, vec_capacity, vec_len};
ghost use Rattle.nt_client.specs.Kept.{CanUndo, IsStored, IsWayBack, LeadsBack, at_index, before, id_of, outline, undo};
ghost use Rattle.nt_client.specs.Sorted.{Rise};
ghost use Rattle.nt_rules.specs.telling.Told.{with_properties};
ghost use Rattle.nt_client.specs.declared.undo.Undo.{Undo};

use crate::topics::Topics;
use nt_rules::{Held, Timed};
use nt_topics::Props;
use std::alloc::AllocError;
use std::mem;

/// A change, as it is undone.
#[derive(Drop)]
pub enum Undo {
    /// A topic was added at this index.
    Added(usize),
    /// This topic was taken out from this index.
    Removed(usize, Held),
    /// The topic at this index had these properties.
    Props(usize, Props),
    /// The topic at this index had this value.
    Value(usize, Option<Timed>),
}

/// Adds a topic at an index.
pub fn add(
    held: &mut Vec<Held>,
    log: &mut Vec<Undo>,
    at: usize,
    topic: Held,
) -> Result<(), AllocError>
    requires { at ≤ vec_len held.old }
    ensures ok { OnOk result (held.new.items ≡ insert held.old.items at topic) }
    ensures same { OnErr result (held.new.items ≡ held.old.items) }
    ensures leads { LeadsBack held.old log.old.items held.new log.new.items }
{
    log.reserve(1)?;
    held.insert(at, topic)?;
    log.push_reserved(Undo::Added(at));
    Ok(())
}

/// Takes the topic at an index out.
pub fn remove(held: &mut Vec<Held>, log: &mut Vec<Undo>, at: usize) -> Result<(), AllocError>
    requires { at < vec_len held.old }
    ensures ok { OnOk result (held.new.items ≡ remove held.old.items at) }
    ensures same { OnErr result (held.new.items ≡ held.old.items) }
    ensures leads { LeadsBack held.old log.old.items held.new log.new.items }
{
    log.reserve(1)?;
    let topic = held.remove(at);
    log.push_reserved(Undo::Removed(at, topic));
    Ok(())
}

/// Gives the topic at an index other properties. Where the newest change is one of these, the way
/// back is noted already.
fn set_props(
    held: &mut Vec<Held>,
    log: &mut Vec<Undo>,
    at: usize,
    props: Props,
) -> Result<(), AllocError>
    requires { at < vec_len held.old }
    ensures ok { OnOk result
        (held.new.items ≡ at_index (λ h. record h { props = props }) at held.old.items) }
    ensures same { OnErr result (held.new.items ≡ held.old.items) }
    ensures leads { LeadsBack held.old log.old.items held.new log.new.items }
{
    if let Some(Undo::Props(noted, _)) = log.last()
        && *noted == at
    {
        held[at].props = props;
        return Ok(());
    }
    log.reserve(1)?;
    let props = mem::replace(&mut held[at].props, props);
    log.push_reserved(Undo::Props(at, props));
    Ok(())
}

/// Gives the topic at an index another value.
pub fn set_value(
    held: &mut Vec<Held>,
    log: &mut Vec<Undo>,
    at: usize,
    value: Option<Timed>,
) -> Result<(), AllocError>
    requires { at < vec_len held.old }
    ensures ok { OnOk result
        (held.new.items ≡ at_index (λ h. record h { value = value }) at held.old.items) }
    ensures same { OnErr result (held.new.items ≡ held.old.items) }
    ensures leads { LeadsBack held.old log.old.items held.new log.new.items }
{
    log.reserve(1)?;
    let value = mem::replace(&mut held[at].value, value);
    log.push_reserved(Undo::Value(at, value));
    Ok(())
}

/// Gives the topic at an index other properties. It keeps its value only where it is cached.
pub fn update_props(
    held: &mut Vec<Held>,
    log: &mut Vec<Undo>,
    at: usize,
    props: Props,
) -> Result<(), AllocError>
    requires { at < vec_len held.old }
    ensures ok { OnOk result (held.new.items ≡ at_index (with_properties props) at held.old.items) }
    ensures same { OnErr result (map outline held.new.items ≡ map outline held.old.items) }
    ensures leads { LeadsBack held.old log.old.items held.new log.new.items }
{
    if !props.cached() && held[at].value.is_some() {
        set_value(held, log, at, None)?;
    }
    set_props(held, log, at, props)
}

/// Undoes a change.
fn take_back(held: &mut Vec<Held>, change: Undo)
    requires { CanUndo (vec_capacity held.old) (vec_len held.old) (change ∷ []) }
    ensures held { held.new.items ≡ undo change held.old.items }
    ensures way { (changes : List Undo)
        → CanUndo (vec_capacity held.old) (vec_len held.old) (change ∷ changes)
        → CanUndo (vec_capacity held.new) (vec_len held.new) changes }
{
    match change {
        Undo::Added(at) => {
            held.remove(at);
        }
        Undo::Removed(at, topic) => {
            let _put = held.insert(at, topic);
        }
        Undo::Props(at, props) => held[at].props = props,
        Undo::Value(at, value) => held[at].value = value,
    }
}

/// Undoes all changes, the newest first.
fn undo_all(held: &mut Vec<Held>, log: Vec<Undo>)
    requires { IsWayBack held.old log.items }
    ensures { held.new.items ≡ before log.items held.old.items }
{
    let mut log = log;
    while let Some(change) = log.pop() {
        take_back(held, change);
    }
}

/// Undoes what a refused frame changed. Names, which could be noted again only with memory, are
/// forgotten, until the next frame comes.
pub fn refuse(topics: &mut Topics, log: Vec<Undo>)
    requires way { IsWayBack topics.old.held log.items }
    requires rising { Rise id_of (before log.items topics.old.held.items) }
    ensures held { topics.new.held.items ≡ before log.items topics.old.held.items }
    ensures stored { IsStored topics.new }
{
    undo_all(&mut topics.held, log);
    topics.names.clear();
    topics.is_noted = false;
}
