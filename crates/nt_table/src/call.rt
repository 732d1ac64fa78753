//! The calls on a list of topics.

ghost use Rattle.std.specs.Prelude.{◌≡◌, ◌+◌, ◌<◌, vec_len, pos, option_map, None, Some, [], ◌∷◌, ◌++◌, IfOk, OnOk};
ghost use Rattle.std.specs.List.{position, find};
ghost use Rattle.std.specs.List.Sorted.{IsStrictlyIncreasing};
ghost use Rattle.nt_table.specs.Index.{is_at, left_by, IsRising, AreAmong};
ghost use Rattle.nt_rules.specs.topics.Topics.{is_named, has_publisher, change_at, change_first, if_counts, if_it_lives_on, with_update, new_topic, publish_cause, published, next_after, unpublish_cause, unpublished, update_cause, with_props, put_cause, with_put, dropped, restore_cause, restored, restored_topic, at_zero};
ghost use Rattle.nt_topics.specs.Properties.{updated};
ghost use Rattle.nt_rules.specs.topics.Changes.{outcome_of, if_found, update_change, publish_changes, unpublish_changes, update_changes, put_changes, drop_changes, restored_value, restore_changes};

use crate::edit::{
    add_publisher, changed, drop_publisher, end_of, ended, leave, one, put_to, settle, started,
    tell_end,
};
use crate::lookup::{is_too_long, lives_on, position_at};
use nt_rules::{Cause, Change, Changes, Outcome, Pub, Pubs, Saved, Timed, Topic};
use nt_topics::{Name, Props, TopicName, Update};
use nt_values::Value;
use std::alloc::{AllocError, Global};

/// Begins a topic with its first publisher, which has its type, and tells its start.
fn begin(
    alloc: Global,
    topics: &mut Vec<Topic>,
    id: u32,
    name: TopicName,
    props: Props,
    publisher: Pub,
) -> Result<Changes, AllocError>
    ensures topics { OnOk result (topics.new.items
        ≡ topics.old.items ++ new_topic id name publisher.typ props (publisher ∷ []) ∷ []) }
    ensures changes { IfOk result
        (λ changes. changes ≡ Change.Started (pos id) name publisher.typ props ∷ []) }
{
    let typ = publisher.typ.copy(alloc)?;
    let changes = one(alloc, started(alloc, id, &name, &typ, &props)?)?;
    let mut pubs = Pubs::empty(alloc);
    pubs.push(publisher)?;
    topics.push(Topic {
        id,
        name,
        typ,
        props,
        value: None,
        pubs,
    })?;
    Ok(changes)
}

/// Publishes to the topic of this name, which is at this position, or begins it with the next id,
/// where no cause refuses it.
pub fn publish_to(
    alloc: Global,
    topics: &mut Vec<Topic>,
    next: &mut u32,
    name: TopicName,
    at: Option<usize>,
    props: Props,
    publisher: Pub,
) -> Result<Changes, AllocError>
    requires found { at ≡ position (is_named name) topics.old.items }
    requires counts { publish_cause topics.old.items next.old publisher.conn publisher.uid name props
        ≡ None }
    ensures changes { IfOk result
        (λ changes. changes ≡ publish_changes topics.old.items next.old name publisher.typ props) }
    ensures topics { OnOk result (topics.new.items
        ≡ published topics.old.items next.old name publisher.typ props publisher) }
    ensures next { OnOk result (next.new ≡ next_after topics.old.items next.old name) }
{
    match at {
        Some(i) => {
            add_publisher(&mut topics[i], publisher)?;
            Ok(Changes::empty(alloc))
        }
        None => {
            let changes = begin(alloc, topics, *next, name, props, publisher)?;
            *next += 1;
            Ok(changes)
        }
    }
}

/// Takes the publisher out of its topic, which is at this position, and the topic where nothing of
/// it is left.
pub fn unpublish(
    alloc: Global,
    topics: &mut Vec<Topic>,
    at: Option<usize>,
    conn: u32,
    uid: i64,
) -> Result<Outcome, AllocError>
    requires { at ≡ position (has_publisher conn uid) topics.old.items }
    ensures answer { IfOk result (λ o. o ≡ outcome_of
        (unpublish_cause topics.old.items conn uid) (unpublish_changes topics.old.items conn uid)) }
    ensures topics { OnOk result (topics.new.items ≡ if_counts
        (unpublish_cause topics.old.items conn uid)
        (unpublished topics.old.items conn uid) topics.old.items) }
{
    match at {
        Some(i) => {
            drop_publisher(alloc, &mut topics[i], conn, uid);
            let changes = end_of(alloc, &topics[i])?;
            settle(topics, i);
            Ok(Outcome::Done(changes))
        }
        None => Ok(Outcome::Ignored(Cause::NoSuchUid)),
    }
}

/// Gives the topic its updated properties, and tells it and then its end where it doesn't live on.
/// Its value goes where they change whether it is cached.
fn update_topic(
    alloc: Global,
    topic: &mut Topic,
    props: Props,
    update: Update,
) -> Result<Changes, AllocError>
    requires { props ≡ updated topic.old.props update }
    ensures topic { OnOk result (topic.new ≡ with_update update topic.old) }
    ensures changes { IfOk result (λ changes. changes ≡ update_change update topic.old) }
{
    if props.cached() != topic.props.cached() {
        drop(topic.value.take());
    }
    topic.props = props;
    let mut changes = one(
        alloc,
        Change::Props {
            id: i64::from(topic.id),
            name: Name::of(alloc, topic.name.as_str())?,
            update,
        },
    )?;
    if !lives_on(topic) {
        changes.push(ended(alloc, topic)?)?;
    }
    Ok(changes)
}

/// Updates the properties of the topic of this name, which is at this position, and takes it out
/// where nothing of it is left.
pub fn set_props(
    alloc: Global,
    topics: &mut Vec<Topic>,
    at: Option<usize>,
    name: &TopicName,
    update: Update,
) -> Result<Outcome, AllocError>
    requires { at ≡ position (is_named name.now) topics.old.items }
    ensures answer { IfOk result (λ o. o ≡ outcome_of
        (update_cause topics.old.items name.now update)
        (update_changes topics.old.items name.now update)) }
    ensures topics { OnOk result (topics.new.items ≡ if_counts
        (update_cause topics.old.items name.now update)
        (with_props topics.old.items name.now update) topics.old.items) }
{
    match at {
        Some(i) => {
            let props = topics[i].props.updated(alloc, &update)?;
            if is_too_long(&props) {
                return Ok(Outcome::Ignored(Cause::PropsFull));
            }
            let changes = update_topic(alloc, &mut topics[i], props, update)?;
            settle(topics, i);
            Ok(Outcome::Done(changes))
        }
        None => Ok(Outcome::Ignored(Cause::NoTopic)),
    }
}

/// Puts a value to the topic of the publisher, which is at this position.
pub fn put(
    alloc: Global,
    topics: &mut Vec<Topic>,
    at: Option<usize>,
    conn: u32,
    uid: i64,
    time: u64,
    value: Value,
) -> Result<Outcome, AllocError>
    requires { at ≡ position (has_publisher conn uid) topics.old.items }
    ensures answer { IfOk result (λ o. o ≡ outcome_of
        (put_cause topics.old.items conn uid time value)
        (put_changes topics.old.items conn uid time value)) }
    ensures topics { OnOk result (topics.new.items ≡ if_counts
        (put_cause topics.old.items conn uid time value)
        (with_put topics.old.items conn uid time value) topics.old.items) }
{
    match at {
        Some(i) => put_to(alloc, &mut topics[i], conn, uid, time, value),
        None => {
            drop(value);
            Ok(Outcome::Ignored(Cause::NoSuchUid))
        }
    }
}

/// Takes the connection's publishers out of the topic of this id, where it lives, and the topic
/// where it ends with them, and tells the end.
fn leave_topic(
    alloc: Global,
    topics: &mut Vec<Topic>,
    id: u32,
    conn: u32,
    changes: &mut Changes,
) -> Result<(), AllocError>
    requires { IsRising 0 topics.old.items }
    ensures changes { OnOk result (changes.new ≡ changes.old
        ++ if_found (λ t. drop_changes (t ∷ []) conn) (find (is_at (Some id)) topics.old.items)) }
    ensures topics { OnOk result (topics.new.items
        ≡ change_first (is_at (Some id)) (left_by conn) topics.old.items) }
{
    match position_at(topics, Some(id)) {
        Some(i) => {
            tell_end(alloc, &topics[i], conn, changes)?;
            leave(alloc, topics, i, conn);
            Ok(())
        }
        None => Ok(()),
    }
}

/// Takes the connection's publishers out of the topics of these ids, which are all to which it
/// publishes, and the topics that end with them.
pub fn close(
    alloc: Global,
    topics: &mut Vec<Topic>,
    ids: &[u32],
    conn: u32,
) -> Result<Changes, AllocError>
    requires rising { IsRising 0 topics.old.items }
    requires sorted { IsStrictlyIncreasing ids.now }
    requires among { AreAmong ids.now conn topics.old.items }
    ensures changes { IfOk result (λ changes. changes ≡ drop_changes topics.old.items conn) }
    ensures topics { OnOk result (topics.new.items ≡ dropped topics.old.items conn) }
{
    let mut changes = Changes::empty(alloc);
    for id in ids {
        leave_topic(alloc, topics, *id, conn, &mut changes)?;
    }
    Ok(changes)
}

/// What a restored topic tells.
fn restore_changes(alloc: Global, id: u32, saved: &Saved) -> Result<Changes, AllocError>
    ensures { IfOk result (λ changes. changes ≡ restore_changes id saved.now) }
{
    let start = started(alloc, id, &saved.name, &saved.typ, &saved.props)?;
    let mut changes = one(alloc, start)?;
    if let Some(value) = &saved.value {
        changes.push(changed(alloc, id, &saved.name, 0, value)?)?;
    }
    Ok(changes)
}

/// A restored value has the time 0.
fn at_zero(value: Option<Value>) -> Option<Timed>
    ensures { result ≡ option_map at_zero value }
{
    match value {
        Some(value) => Some(Timed { time: 0, value }),
        None => None,
    }
}

/// A saved topic, as it begins again.
fn restored_topic(alloc: Global, id: u32, saved: Saved) -> Topic
    ensures { result ≡ restored_topic id saved }
{
    Topic {
        id,
        name: saved.name,
        typ: saved.typ,
        props: saved.props,
        value: at_zero(saved.value),
        pubs: Pubs::empty(alloc),
    }
}

/// Begins a saved topic with the next id, where no cause refuses it.
pub fn restore(
    alloc: Global,
    topics: &mut Vec<Topic>,
    next: &mut u32,
    saved: Saved,
) -> Result<Changes, AllocError>
    requires { restore_cause topics.old.items next.old saved ≡ None }
    ensures changes { IfOk result (λ changes. changes ≡ restore_changes next.old saved) }
    ensures topics { OnOk result (topics.new.items ≡ restored topics.old.items next.old saved) }
    ensures next { OnOk result (next.new ≡ next.old + 1) }
{
    let changes = restore_changes(alloc, *next, &saved)?;
    topics.push(restored_topic(alloc, *next, saved))?;
    *next += 1;
    Ok(changes)
}
