//! Topics that are saved.

ghost use Rattle.std.specs.Prelude.{◌≡◌, [], ◌∷◌, ◌++◌, option_map, IfOk, OnOk};
ghost use Rattle.std.specs.Ordering.{nat_cmp};
ghost use Rattle.std.specs.Cmp.Lexicographic.{slice_cmp};
ghost use Rattle.nt_rules.specs.history.Saved.{saved_topic, persistent_ones, AreSaved};

use nt_rules::{Saved, Timed, Topic};
use nt_table::Table;
use nt_values::Value;
use std::alloc::{AllocError, Global};
use std::cmp::Ordering;

/// A held value without its time.
fn saved_value(alloc: Global, held: &Option<Timed>) -> Result<Option<Value>, AllocError>
    ensures { IfOk result (λ value. value ≡ option_map (λ v. v.value) held.now) }
{
    match held {
        Some(held) => Ok(Some(held.value.copy(alloc)?)),
        None => Ok(None),
    }
}

/// A topic, as it is saved.
fn saved_topic(alloc: Global, topic: &Topic) -> Result<Saved, AllocError>
    ensures { IfOk result (λ saved. saved ≡ saved_topic topic.now) }
{
    Ok(Saved {
        name: topic.name.copy(alloc)?,
        typ: topic.typ.copy(alloc)?,
        props: topic.props.copy()?,
        value: saved_value(alloc, &topic.value)?,
    })
}

/// Adds a topic to those that are saved, where it is persistent.
fn save(alloc: Global, saved: &mut Vec<Saved>, topic: &Topic) -> Result<(), AllocError>
    ensures { OnOk result (saved.new.items ≡ saved.old.items ++ persistent_ones (topic.now ∷ [])) }
{
    if topic.props.persistent() {
        saved.push(saved_topic(alloc, topic)?)?;
    }
    Ok(())
}

/// The persistent topics, by rising id.
fn persistent_ones(alloc: Global, table: &Table) -> Result<Vec<Saved>, AllocError>
    ensures { IfOk result (λ saved. saved.items ≡ persistent_ones table.now.topics) }
{
    let mut saved = Vec::new(alloc);
    for i in 0..table.len() {
        save(alloc, &mut saved, table.at(i))?;
    }
    Ok(saved)
}

/// The order of two by the bytes of their names.
fn by_name(one: &Saved, other: &Saved) -> Ordering
    ensures { result ≡ slice_cmp nat_cmp one.now.name other.now.name }
{
    one.name.as_str().cmp(other.name.as_str())
}

/// The persistent topics, by the bytes of their names.
pub fn saved_of(alloc: Global, table: &Table) -> Result<Vec<Saved>, AllocError>
    ensures { IfOk result (λ saved. AreSaved table.now.topics saved.items) }
{
    let mut saved = persistent_ones(alloc, table)?;
    saved.sort_by(|one, other| by_name(one, other))?;
    Ok(saved)
}
