//! The topics of which something is kept, by rising id.

ghost use Rattle.std.specs.Prelude.{◌≡◌, ◌≤◌, ◌<◌, ◌-◌, ◌^◌, [], false, min, map, vec_len, insert, IfOk, OnOk, length, option_copied, if◌then◌else◌};
ghost use Rattle.std.specs.List.Sorted.{IsSearchInRange};
ghost use Rattle.nt_rules.specs.topics.Topics.{change_at};
ghost use Rattle.nt_rules.specs.outbox.Marks.{is_blank, mark_weight, turned, weight, at_id, handed};
ghost use Rattle.nt_rules.specs.outbox.Messages.{mark_at};
ghost use Rattle.nt_outbox.specs.Steps.{after, left_of, left_after, position_of, RiseFrom, mark_count, count_at, AreOf, HasNoBlank};

use crate::delivery::hand;
use crate::key::Key;
use crate::mark::{Mark, fresh, is_blank, owes_topic};
use crate::step::{Step, apply, turned};
use crate::weight::{mark_weight, sum};
use std::alloc::{AllocError, Global};

/// The index of the topic of this id, or else the one where it would stand.
pub fn position(marks: &[Mark], id: u32) -> Result<usize, usize>
    requires { RiseFrom 0 marks.now }
    ensures position { result ≡ position_of id marks.now }
    ensures within { IsSearchInRange result (length marks.now) }
{
    marks.binary_search_by_key(&id, |mark| mark.id)
}

/// What is kept of the topic of this id.
pub fn mark_at(marks: &[Mark], id: u32) -> Option<&Mark>
    requires { RiseFrom 0 marks.now }
    ensures { option_copied result ≡ mark_at id marks.now }
{
    match position(marks, id) {
        Ok(i) => Some(&marks[i]),
        Err(_) => None,
    }
}

/// How many messages are owed of a topic, or the greatest number where there are more.
fn mark_count(mark: &Mark) -> u64
    ensures { result ≡ min (mark_count mark.now) (2 ^ 64 - 1) }
{
    let replies = (mark.publishes.as_slice().len() as u64).saturating_add(
        mark.settings.as_slice().len() as u64,
    );
    let values = (mark.values.as_slice().len() as u64).saturating_add(u64::from(
        mark.newest.is_some(),
    ));
    u64::from(mark.over.is_some())
        .saturating_add(replies)
        .saturating_add(u64::from(owes_topic(mark)))
        .saturating_add(values)
}

/// How many messages are owed of the topic of this id, or the greatest number where there are more.
pub fn count_at(marks: &[Mark], id: u32) -> u64
    requires { RiseFrom 0 marks.now }
    ensures { result ≡ min (count_at id marks.now) (2 ^ 64 - 1) }
{
    match mark_at(marks, id) {
        Some(mark) => mark_count(mark),
        None => 0,
    }
}

/// Takes the topic at an index out where nothing of it has to be kept.
fn settle(marks: &mut Vec<Mark>, i: usize)
    requires { i < vec_len marks.old }
    ensures { marks.new.items ≡ change_at left_of i marks.old.items }
{
    if is_blank(&marks[i]) {
        drop(marks.remove(i));
    }
}

/// A step changes the topic at an index. It answers the weight of all that is queued.
fn change_at(
    alloc: Global,
    marks: &mut Vec<Mark>,
    queued: u64,
    i: usize,
    step: Step,
) -> Result<u64, AllocError>
    requires within { i < vec_len marks.old }
    requires weighed { queued ≡ weight marks.old.items }
    ensures marks { OnOk result (marks.new.items ≡ change_at (left_after step) i marks.old.items) }
    ensures weighed { IfOk result (λ w. w ≡ weight marks.new.items) }
{
    let weight = apply(alloc, &mut marks[i], queued, step)?;
    settle(marks, i);
    Ok(weight)
}

/// The topic of this id turned. It answers the weight of all that is queued, and takes no memory.
pub fn turned_at(alloc: Global, marks: &mut Vec<Mark>, queued: u64, id: u32) -> u64
    requires rising { RiseFrom 0 marks.old.items }
    requires weighed { queued ≡ weight marks.old.items }
    ensures marks { marks.new.items ≡ at_id id [] turned marks.old.items }
    ensures weighed { result ≡ weight marks.new.items }
    ensures rising { RiseFrom 0 marks.new.items }
{
    match position(marks, id) {
        Ok(i) => {
            let weight = turned(alloc, &mut marks[i], queued);
            settle(marks, i);
            weight
        }
        Err(_) => queued,
    }
}

/// A step changes a topic of which nothing is kept, and which would stand at an index.
fn change_fresh(
    alloc: Global,
    marks: &mut Vec<Mark>,
    queued: u64,
    i: usize,
    mut mark: Mark,
    step: Step,
) -> Result<u64, AllocError>
    requires within { i ≤ vec_len marks.old }
    requires weighed { queued ≡ weight marks.old.items }
    requires fresh { mark_weight mark ≡ 0 }
    ensures marks { OnOk result (marks.new.items
        ≡ (if is_blank (after step mark) then marks.old.items
        else insert marks.old.items i (after step mark))) }
    ensures weighed { IfOk result (λ w. w ≡ weight marks.new.items) }
{
    let weight = apply(alloc, &mut mark, queued, step)?;
    if !is_blank(&mark) {
        marks.insert(i, mark)?;
    }
    Ok(weight)
}

/// A step changes the topic of this id and name. It answers the weight of all that is queued.
pub fn change(
    alloc: Global,
    marks: &mut Vec<Mark>,
    queued: u64,
    id: u32,
    name: &str,
    step: Step,
) -> Result<u64, AllocError>
    requires rising { RiseFrom 0 marks.old.items }
    requires weighed { queued ≡ weight marks.old.items }
    ensures marks { OnOk result (marks.new.items ≡ at_id id name.now (after step) marks.old.items) }
    ensures weighed { IfOk result (λ w. w ≡ weight marks.new.items) }
    ensures rising { OnOk result (RiseFrom 0 marks.new.items) }
{
    match position(marks, id) {
        Ok(i) => change_at(alloc, marks, queued, i, step),
        Err(i) => match fresh(alloc, id, name) {
            Ok(mark) => change_fresh(alloc, marks, queued, i, mark, step),
            Err(error) => {
                drop(step);
                Err(error)
            }
        },
    }
}

/// Keys of the topic of this id are handed. It answers the weight of all that is queued, and
/// whether nothing of the topic has to be kept any more.
pub fn hand_at(
    alloc: Global,
    marks: &mut Vec<Mark>,
    queued: u64,
    id: u32,
    keys: &[Key],
) -> Result<(u64, bool), AllocError>
    requires rising { RiseFrom 0 marks.old.items }
    requires weighed { queued ≡ weight marks.old.items }
    requires topic { AreOf id keys.now }
    ensures marks { OnOk result (marks.new.items ≡ map (handed keys.now) marks.old.items) }
    ensures weighed { IfOk result (λ r. r.0 ≡ weight marks.new.items) }
    ensures blank { IfOk result (λ r.
        r.1 ≡ false → HasNoBlank marks.old.items → HasNoBlank marks.new.items) }
{
    match position(marks, id) {
        Ok(i) => {
            let mark = &mut marks[i];
            let before = mark_weight(mark)?;
            hand(alloc, mark, keys);
            let after = mark_weight(mark)?;
            let weight = sum(queued - before, after)?;
            Ok((weight, is_blank(mark)))
        }
        Err(_) => Ok((queued, false)),
    }
}
