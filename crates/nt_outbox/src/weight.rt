//! What messages weigh.

ghost use Rattle.std.specs.Prelude.{◌≡◌, ◌+◌, ◌≤◌, IfOk};
ghost use Rattle.nt_rules.specs.outbox.Marks.{mark_weight, settings_weight, values_weight};

use crate::mark::Mark;
use nt_rules::{Placed, Setting};
use std::alloc::AllocError;

/// What each queued message weighs beside what it tells.
pub const LEAST: u64 = 64;

/// The sum of two weights. One of more than 64 bits, which nothing that fits into memory has, is
/// told as want of memory.
pub fn sum(a: u64, b: u64) -> Result<u64, AllocError>
    ensures { IfOk result (λ w. w ≡ a + b) }
{
    a.checked_add(b).ok_or(AllocError)
}

/// The weight of changes of properties.
fn settings_weight(settings: &[Setting]) -> Result<u64, AllocError>
    ensures { IfOk result (λ w. w ≡ settings_weight settings.now) }
{
    let mut weight = 0;
    for setting in settings {
        weight = sum(weight, sum(LEAST, setting.update.text_len())?)?;
    }
    Ok(weight)
}

/// The weight of values.
pub fn values_weight(values: &[Placed]) -> Result<u64, AllocError>
    ensures { IfOk result (λ w. w ≡ values_weight values.now) }
{
    let mut weight = 0;
    for placed in values {
        weight = sum(weight, sum(LEAST, placed.value.size())?)?;
    }
    Ok(weight)
}

/// A weight without that of values which are a part of it.
pub fn without_values(values: &[Placed], weight: u64) -> u64
    requires { values_weight values.now ≤ weight }
    ensures { result + values_weight values.now ≡ weight }
{
    let mut others = weight;
    for placed in values {
        others -= LEAST;
        others -= placed.value.size();
    }
    others
}

/// The weight of what is queued of a topic.
pub fn mark_weight(mark: &Mark) -> Result<u64, AllocError>
    ensures { IfOk result (λ w. w ≡ mark_weight mark.now) }
{
    let publishes = mark.publishes.as_slice().len() as u64;
    let plain = sum(u64::from(mark.over.is_some()), publishes)?;
    let plain = LEAST.checked_mul(plain).ok_or(AllocError)?;
    let weight = sum(plain, settings_weight(mark.settings.as_slice())?)?;
    sum(weight, values_weight(mark.values.as_slice())?)
}
