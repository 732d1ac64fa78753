//! What the calls of an outbox do to a topic.

ghost use Rattle.std.specs.Prelude.{◌≡◌, IfOk, option_map};
ghost use Rattle.nt_topics.specs.Properties.{is_cached};
ghost use Rattle.nt_rules.specs.outbox.Marks.{noted_value, rewanted, placed, meta_wish, rewanted_meta, same_wish};
ghost use Rattle.nt_outbox.specs.Steps.{after, rewanted_passing};

use crate::mark::is_valued;
use crate::step::Step;
use nt_rules::{Placed, Setting, Topic};
use nt_subs::Wanted;
use nt_topics::Update;
use nt_values::Value;
use std::alloc::{AllocError, Global};

/// A change of properties at a place.
pub fn setting(place: u64, is_own: bool, update: &Update) -> Result<Setting, AllocError>
    ensures { IfOk result
        (λ s. s ≡ record { place = place; is_own = is_own; update = update.now }) }
{
    Ok(Setting {
        place,
        is_own,
        update: update.copy()?,
    })
}

/// A value at a place.
fn placed(alloc: Global, place: u64, time: u64, value: &Value) -> Result<Placed, AllocError>
    ensures { IfOk result (λ p. p ≡ record { place = place; time = time; value = value.now }) }
{
    Ok(Placed {
        place,
        time,
        value: value.copy(alloc)?,
    })
}

/// A value was taken of a topic that is cached or not, and is wanted so much. It is copied only
/// where each value is owed.
pub fn value_step(
    alloc: Global,
    place: u64,
    time: u64,
    value: &Value,
    cached: bool,
    wanted: Wanted,
) -> Result<Step, AllocError>
    ensures { IfOk result
        (λ s. after s
        ≡ noted_value (record { place = place; time = time; value = value.now }) cached wanted) }
{
    match wanted {
        Wanted::No => Ok(Step::Wish(Wanted::No)),
        Wanted::TopicOnly => Ok(Step::Wish(Wanted::TopicOnly)),
        Wanted::Newest if cached => Ok(Step::NewestAt(place)),
        Wanted::Newest => Ok(Step::Value(placed(alloc, place, time, value)?, Wanted::Newest)),
        Wanted::All => Ok(Step::Value(placed(alloc, place, time, value)?, Wanted::All)),
    }
}

/// Whether two wishes are the same.
fn is_same(a: Wanted, b: Wanted) -> bool
    ensures { result ≡ same_wish a b }
{
    a == b
}

/// How much a topic that isn't cached is wanted changed. What is queued of it stays where its
/// values were wanted before and are now.
fn passing_step(old: Wanted, new: Wanted) -> Step
    ensures { after result ≡ rewanted_passing old new }
{
    if is_valued(old) && is_valued(new) {
        Step::Keep(new)
    } else {
        Step::Rewant(new, None, None)
    }
}

/// How much a topic is wanted changed. Its held value is copied only where each value is owed.
pub fn rewant_step(
    alloc: Global,
    topic: &Topic,
    taken: u64,
    old: Wanted,
    new: Wanted,
) -> Result<Step, AllocError>
    ensures { IfOk result
        (λ s. after s
        ≡ rewanted (is_cached topic.now.props) (option_map (placed taken) topic.now.value)
        old new) }
{
    if is_same(old, new) {
        return Ok(Step::Nothing);
    }
    if !topic.props.cached() {
        return Ok(passing_step(old, new));
    }
    match new {
        Wanted::No => Ok(Step::Rewant(Wanted::No, None, None)),
        Wanted::TopicOnly => Ok(Step::Rewant(Wanted::TopicOnly, None, None)),
        Wanted::Newest => match &topic.value {
            Some(_) => Ok(Step::Rewant(Wanted::Newest, None, Some(taken))),
            None => Ok(Step::Rewant(Wanted::Newest, None, None)),
        },
        Wanted::All => match &topic.value {
            Some(held) => {
                let held = placed(alloc, taken, held.time, &held.value)?;
                Ok(Step::Rewant(Wanted::All, Some(held), None))
            }
            None => Ok(Step::Rewant(Wanted::All, None, None)),
        },
    }
}

/// A meta topic is wanted under `All` as it is under `Newest`.
pub fn meta_wish(wish: Wanted) -> Wanted
    ensures { result ≡ meta_wish wish }
{
    match wish {
        Wanted::All => Wanted::Newest,
        other => other,
    }
}

/// How much a meta topic is wanted changed.
pub fn meta_step(old: Wanted, new: Wanted) -> Step
    ensures { after result ≡ rewanted_meta old new }
{
    let wish = meta_wish(new);
    if is_same(meta_wish(old), wish) {
        Step::Nothing
    } else {
        Step::MetaRewant(wish)
    }
}
