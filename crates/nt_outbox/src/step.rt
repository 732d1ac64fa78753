//! What happens to what is kept of a topic. Each step is given the weight of all that is queued,
//! and tells it anew.

ghost use Rattle.std.specs.Prelude.{◌≡◌, ◌+◌, ◌*◌, ◌≤◌, length, IfOk, OnOk};
ghost use Rattle.nt_rules.specs.outbox.Marks.{mark_weight, settings_weight, values_weight, queued, turned, ended, newest_of};
ghost use Rattle.nt_outbox.specs.Steps.{after, next_of};

use crate::mark::{Mark, is_after, place_after};
use crate::weight::{LEAST, mark_weight, sum, values_weight, without_values};
use nt_rules::{Placed, Publish, Setting};
use nt_subs::Wanted;
use nt_values::ListOf;
use std::alloc::{AllocError, Global};
use std::mem;

/// What happens to what is kept of a topic.
#[derive(Drop)]
pub enum Step {
    /// It is wanted so much from now on.
    Wish(Wanted),
    /// A value was taken, and each is owed. The topic is wanted so much.
    Value(Placed, Wanted),
    /// A value was taken at this place, and the newest is owed.
    NewestAt(u64),
    /// Its properties changed, and it is wanted so much.
    Told(Setting, Wanted),
    /// It ended at this place.
    Ended(u64),
    /// The connection published it.
    Published(Publish),
    /// The connection changed its properties.
    OwnSetting(Setting),
    /// It is wanted so much, and these are owed where they were not handed: this value, where each
    /// value is owed, and the one at this place, where the newest is.
    Rewant(Wanted, Option<Placed>, Option<u64>),
    /// It is wanted so much, and what is queued of its values stays.
    Keep(Wanted),
    /// A meta topic is wanted so much.
    MetaRewant(Wanted),
    /// A meta topic's bytes changed, and it is wanted so much.
    MetaChanged(Wanted),
    /// Nothing.
    Nothing,
}

/// A value more is queued. One at the place of the last one stands for it.
fn queue_value(
    alloc: Global,
    values: &mut ListOf<Placed>,
    weight: u64,
    placed: Placed,
) -> Result<u64, AllocError>
    requires { values_weight values.old ≤ weight }
    ensures values { OnOk result (values.new ≡ queued (λ p. p.place) placed values.old) }
    ensures weight { IfOk result
        (λ w. w + values_weight values.old ≡ weight + values_weight values.new) }
{
    let more = sum(LEAST, placed.value.size())?;
    let mut others = weight;
    let mut items = mem::replace(values, ListOf::empty(alloc)).into_vec();
    if let Some(last) = items.pop() {
        if last.place == placed.place {
            others -= sum(LEAST, last.value.size())?;
            drop(last);
        } else {
            items.push(last)?;
        }
    }
    items.push(placed)?;
    *values = ListOf::of_vec(items);
    sum(others, more)
}

/// A change of properties more is queued. One at the place of the last one stands for it.
fn queue_setting(
    alloc: Global,
    settings: &mut ListOf<Setting>,
    weight: u64,
    setting: Setting,
) -> Result<u64, AllocError>
    requires { settings_weight settings.old ≤ weight }
    ensures settings { OnOk result (settings.new ≡ queued (λ s. s.place) setting settings.old) }
    ensures weight { IfOk result
        (λ w. w + settings_weight settings.old ≡ weight + settings_weight settings.new) }
{
    let more = sum(LEAST, setting.update.text_len())?;
    let mut others = weight;
    let mut items = mem::replace(settings, ListOf::empty(alloc)).into_vec();
    if let Some(last) = items.pop() {
        if last.place == setting.place {
            others -= sum(LEAST, last.update.text_len())?;
            drop(last);
        } else {
            items.push(last)?;
        }
    }
    items.push(setting)?;
    *settings = ListOf::of_vec(items);
    sum(others, more)
}

/// An answer to a publish more is queued. One at the place of the last one stands for it.
fn queue_publish(
    alloc: Global,
    publishes: &mut ListOf<Publish>,
    weight: u64,
    publish: Publish,
) -> Result<u64, AllocError>
    requires { 64 * length publishes.old ≤ weight }
    ensures publishes { OnOk result (publishes.new ≡ queued (λ p. p.place) publish publishes.old) }
    ensures weight { IfOk result
        (λ w. w + 64 * length publishes.old ≡ weight + 64 * length publishes.new) }
{
    let mut others = weight;
    let mut items = mem::replace(publishes, ListOf::empty(alloc)).into_vec();
    if let Some(last) = items.pop() {
        if last.place == publish.place {
            others -= LEAST;
        } else {
            items.push(last)?;
        }
    }
    items.push(publish)?;
    *publishes = ListOf::of_vec(items);
    sum(others, LEAST)
}

/// The topic ended: nothing of it is owed any more, but for its end where it was announced.
fn end(alloc: Global, mark: &mut Mark, weight: u64, place: u64) -> Result<u64, AllocError>
    requires { mark_weight mark.old ≤ weight }
    ensures mark { OnOk result (mark.new ≡ ended place mark.old) }
    ensures weight { IfOk result (λ w. w + mark_weight mark.old ≡ weight + mark_weight mark.new) }
{
    let others = weight - mark_weight(mark)?;
    if mark.is_announced {
        mark.over = Some(place);
    }
    mark.is_announced = false;
    mark.publishes = ListOf::empty(alloc);
    mark.settings = ListOf::empty(alloc);
    mark.last = None;
    mark.wish = Wanted::No;
    mark.values = ListOf::empty(alloc);
    mark.newest = None;
    sum(others, if mark.over.is_some() { LEAST } else { 0 })
}

/// The place of the value that is owed under `Newest`.
fn newest_of(wish: Wanted, last: Option<u64>, place: Option<u64>) -> Option<u64>
    ensures { result ≡ newest_of wish (next_of last) place }
{
    match wish {
        Wanted::Newest => place_after(place, last),
        Wanted::No | Wanted::TopicOnly | Wanted::All => None,
    }
}

/// The topic is wanted so much, and these values are owed where they were not handed.
fn rewant(
    alloc: Global,
    mark: &mut Mark,
    weight: u64,
    wish: Wanted,
    held: Option<Placed>,
    place: Option<u64>,
) -> Result<u64, AllocError>
    requires { mark_weight mark.old ≤ weight }
    ensures mark { OnOk result (mark.new ≡ after (Step.Rewant wish held place) mark.old) }
    ensures weight { IfOk result (λ w. w + mark_weight mark.old ≡ weight + mark_weight mark.new) }
{
    let others = without_values(mark.values.as_slice(), weight);
    mark.wish = wish;
    mark.newest = newest_of(wish, mark.last, place);
    mark.values = ListOf::empty(alloc);
    if let Some(placed) = held {
        if is_after(placed.place, mark.last) {
            mark.values.push(placed)?;
        }
    }
    sum(others, values_weight(mark.values.as_slice())?)
}

/// It turned: no value of it is owed any more. It takes no memory.
pub fn turned(alloc: Global, mark: &mut Mark, weight: u64) -> u64
    requires { mark_weight mark.old ≤ weight }
    ensures mark { mark.new ≡ turned mark.old }
    ensures weight { result + mark_weight mark.old ≡ weight + mark_weight mark.new }
{
    let others = without_values(mark.values.as_slice(), weight);
    mark.values = ListOf::empty(alloc);
    mark.newest = None;
    others
}

/// A step changes what is kept of a topic.
pub fn apply(alloc: Global, mark: &mut Mark, weight: u64, step: Step) -> Result<u64, AllocError>
    requires { mark_weight mark.old ≤ weight }
    ensures mark { OnOk result (mark.new ≡ after step mark.old) }
    ensures weight { IfOk result (λ w. w + mark_weight mark.old ≡ weight + mark_weight mark.new) }
{
    match step {
        Step::Wish(wish) => mark.wish = wish,
        Step::Value(placed, wish) => {
            mark.wish = wish;
            return queue_value(alloc, &mut mark.values, weight, placed);
        }
        Step::NewestAt(place) => {
            mark.wish = Wanted::Newest;
            mark.newest = Some(place);
        }
        Step::Told(setting, wish) => {
            mark.wish = wish;
            if mark.is_announced || !mark.settings.as_slice().is_empty() {
                return queue_setting(alloc, &mut mark.settings, weight, setting);
            }
        }
        Step::Ended(place) => return end(alloc, mark, weight, place),
        Step::Published(publish) => {
            return queue_publish(alloc, &mut mark.publishes, weight, publish);
        }
        Step::OwnSetting(setting) => {
            return queue_setting(alloc, &mut mark.settings, weight, setting);
        }
        Step::Rewant(wish, held, place) => return rewant(alloc, mark, weight, wish, held, place),
        Step::Keep(wish) => {
            mark.wish = wish;
            mark.newest = None;
        }
        Step::MetaRewant(wish) => {
            mark.wish = wish;
            mark.newest = newest_of(wish, mark.last, Some(0));
        }
        Step::MetaChanged(wish) => {
            mark.wish = wish;
            mark.last = None;
            mark.newest = newest_of(wish, None, Some(0));
        }
        Step::Nothing => {}
    }
    Ok(weight)
}
