//! The calls on a list of topics and its index.

ghost use Rattle.std.specs.Prelude.{◌≡◌, ◌+◌, ℕ, List, false, option_copied, IfOk, OnOk};
ghost use Rattle.std.specs.List.{list_any, find, position};
ghost use Rattle.serde_json.specs.Data.{Data};
ghost use Rattle.nt_table.specs.Index.{id_named, id_of, is_at, IsRising, IsIndexed, StaysIndexed, AreSaid};
ghost use Rattle.nt_rules.specs.topics.Topics.{is_named, has_publisher, if_counts, publish_cause, published, next_after, unpublish_cause, unpublished, update_cause, with_props, put_cause, with_put, dropped, restore_cause, restored};
ghost use Rattle.nt_rules.specs.topics.Changes.{outcome_of, publish_changes, unpublish_changes, update_changes, put_changes, drop_changes, restore_changes};

use crate::call;
use crate::cause::{publish_cause, restore_cause};
use crate::edit::{ends_of_conn, leave_everywhere};
use crate::index::Index;
use crate::lookup::position_at;
use nt_rules::{Change, Changes, Outcome, Pub, Saved, Topic};
use nt_topics::{Props, TopicName, Update};
use nt_values::Value;
use std::alloc::{AllocError, Global};

/// As many topics are taken out one by one. Each moves those after it, so that for more of them
/// one walk over all is cheaper.
const FEW_TOPICS: usize = 64;

/// The position of the topic of this name.
fn position_of_name(topics: &[Topic], index: &Index, name: &str) -> Option<usize>
    requires rising { IsRising 0 topics.now }
    requires indexed { position (is_at (id_named index.now name.now)) topics.now
        ≡ position (is_named name.now) topics.now }
    ensures { result ≡ position (is_named name.now) topics.now }
{
    position_at(topics, index.id_named(name))
}

/// The topic of this name.
pub fn topic_of_name<'a>(topics: &'a [Topic], index: &Index, name: &str) -> Option<&'a Topic>
    requires rising { IsRising 0 topics.now }
    requires indexed { position (is_at (id_named index.now name.now)) topics.now
        ≡ position (is_named name.now) topics.now }
    ensures { option_copied result ≡ find (is_named name.now) topics.now }
{
    match position_of_name(topics, index, name) {
        Some(i) => Some(&topics[i]),
        None => None,
    }
}

/// The position of the topic of this publisher.
fn position_of_publisher(topics: &[Topic], index: &Index, conn: u32, uid: i64) -> Option<usize>
    requires rising { IsRising 0 topics.now }
    requires indexed { position (is_at (id_of index.now conn uid)) topics.now
        ≡ position (has_publisher conn uid) topics.now }
    ensures { result ≡ position (has_publisher conn uid) topics.now }
{
    position_at(topics, index.id_of(conn, uid))
}

/// Forgets the name where no topic has the id that it is said to have.
fn forget_unless_living(topics: &[Topic], index: &mut Index, name: &str)
    requires { IsRising 0 topics.now }
    ensures { StaysIndexed index.old topics.now index.new topics.now }
{
    if position_at(topics, index.id_named(name)).is_none() {
        index.forget_name(name);
    }
}

/// Forgets the names of the topics that ended.
fn forget_ended(topics: &[Topic], index: &mut Index, changes: &[Change])
    requires { IsRising 0 topics.now }
    ensures { StaysIndexed index.old topics.now index.new topics.now }
{
    for change in changes {
        if let Change::Ended { name, .. } = change {
            forget_unless_living(topics, index, name.as_str());
        }
    }
}

/// The changes of a call that counts.
fn told(outcome: &Outcome) -> &[Change] {
    match outcome {
        Outcome::Done(changes) => changes.as_slice(),
        Outcome::Ignored(_) => &[],
    }
}

/// Notes a publisher that comes, and the name of the topic that begins with it.
fn note(
    alloc: Global,
    topics: &[Topic],
    index: &mut Index,
    next: u32,
    name: &TopicName,
    at: Option<usize>,
    publisher: &Pub,
) -> Result<(), AllocError>
    requires indexed { IsIndexed index.old topics.now next }
    requires found { at ≡ position (is_named name.now) topics.now }
    requires fresh { list_any (has_publisher publisher.now.conn publisher.now.uid) topics.now
        ≡ false }
    ensures { (typ : List ℕ) → (props : Data) → OnOk result (IsIndexed index.new
        (published topics.now next name.now typ props publisher.now)
        (next_after topics.now next name.now)) }
{
    match at {
        Some(i) => index.note(alloc, publisher, topics[i].id),
        None => {
            index.note_name(alloc, name.as_str(), next)?;
            index.note(alloc, publisher, next)
        }
    }
}

/// Publishes to the topic of this name, or begins it with the next id.
pub fn publish(
    alloc: Global,
    topics: &mut Vec<Topic>,
    index: &mut Index,
    next: &mut u32,
    name: TopicName,
    props: Props,
    publisher: Pub,
) -> Result<Outcome, AllocError>
    requires { IsIndexed index.old topics.old.items next.old }
    ensures answer { IfOk result (λ o. o ≡ outcome_of
        (publish_cause topics.old.items next.old publisher.conn publisher.uid name props)
        (publish_changes topics.old.items next.old name publisher.typ props)) }
    ensures topics { OnOk result (topics.new.items ≡ if_counts
        (publish_cause topics.old.items next.old publisher.conn publisher.uid name props)
        (published topics.old.items next.old name publisher.typ props publisher) topics.old.items) }
    ensures next { OnOk result (next.new ≡ if_counts
        (publish_cause topics.old.items next.old publisher.conn publisher.uid name props)
        (next_after topics.old.items next.old name) next.old) }
    ensures indexed { OnOk result (IsIndexed index.new topics.new.items next.new) }
{
    let at = position_of_name(topics, index, name.as_str());
    match publish_cause(topics, index, *next, &publisher, &name, at, &props) {
        Some(cause) => Ok(Outcome::Ignored(cause)),
        None => {
            note(alloc, topics, index, *next, &name, at, &publisher)?;
            let changes = call::publish_to(alloc, topics, next, name, at, props, publisher)?;
            Ok(Outcome::Done(changes))
        }
    }
}

/// Takes the publisher out of its topic, and the topic where nothing of it is left.
pub fn unpublish(
    alloc: Global,
    topics: &mut Vec<Topic>,
    index: &mut Index,
    conn: u32,
    uid: i64,
) -> Result<Outcome, AllocError>
    requires rising { IsRising 0 topics.old.items }
    requires indexed { position (is_at (id_of index.old conn uid)) topics.old.items
        ≡ position (has_publisher conn uid) topics.old.items }
    ensures answer { IfOk result (λ o. o ≡ outcome_of
        (unpublish_cause topics.old.items conn uid) (unpublish_changes topics.old.items conn uid)) }
    ensures topics { OnOk result (topics.new.items ≡ if_counts
        (unpublish_cause topics.old.items conn uid)
        (unpublished topics.old.items conn uid) topics.old.items) }
    ensures indexed { OnOk result
        (StaysIndexed index.old topics.old.items index.new topics.new.items) }
{
    let at = position_of_publisher(topics, index, conn, uid);
    let outcome = call::unpublish(alloc, topics, at, conn, uid)?;
    index.forget(conn, uid);
    forget_ended(topics, index, told(&outcome));
    Ok(outcome)
}

/// Updates the properties of the topic of this name, and takes it out where nothing of it is left.
pub fn set_props(
    alloc: Global,
    topics: &mut Vec<Topic>,
    index: &mut Index,
    name: &TopicName,
    update: Update,
) -> Result<Outcome, AllocError>
    requires rising { IsRising 0 topics.old.items }
    requires indexed { position (is_at (id_named index.old name.now)) topics.old.items
        ≡ position (is_named name.now) topics.old.items }
    ensures answer { IfOk result (λ o. o ≡ outcome_of
        (update_cause topics.old.items name.now update)
        (update_changes topics.old.items name.now update)) }
    ensures topics { OnOk result (topics.new.items ≡ if_counts
        (update_cause topics.old.items name.now update)
        (with_props topics.old.items name.now update) topics.old.items) }
    ensures indexed { OnOk result
        (StaysIndexed index.old topics.old.items index.new topics.new.items) }
{
    let at = position_of_name(topics, index, name.as_str());
    let outcome = call::set_props(alloc, topics, at, name, update)?;
    forget_ended(topics, index, told(&outcome));
    Ok(outcome)
}

/// Puts a value to the topic of the publisher.
pub fn put(
    alloc: Global,
    topics: &mut Vec<Topic>,
    index: &Index,
    conn: u32,
    uid: i64,
    time: u64,
    value: Value,
) -> Result<Outcome, AllocError>
    requires rising { IsRising 0 topics.old.items }
    requires indexed { position (is_at (id_of index.now conn uid)) topics.old.items
        ≡ position (has_publisher conn uid) topics.old.items }
    ensures answer { IfOk result (λ o. o ≡ outcome_of
        (put_cause topics.old.items conn uid time value)
        (put_changes topics.old.items conn uid time value)) }
    ensures topics { OnOk result (topics.new.items ≡ if_counts
        (put_cause topics.old.items conn uid time value)
        (with_put topics.old.items conn uid time value) topics.old.items) }
{
    let at = position_of_publisher(topics, index, conn, uid);
    call::put(alloc, topics, at, conn, uid, time, value)
}

/// Takes the connection's publishers out, and the topics that end with them.
pub fn close(
    alloc: Global,
    topics: &mut Vec<Topic>,
    index: &mut Index,
    conn: u32,
) -> Result<Changes, AllocError>
    requires rising { IsRising 0 topics.old.items }
    requires indexed { AreSaid (id_of index.old conn) conn topics.old.items }
    ensures changes { IfOk result (λ changes. changes ≡ drop_changes topics.old.items conn) }
    ensures topics { OnOk result (topics.new.items ≡ dropped topics.old.items conn) }
    ensures indexed { OnOk result
        (StaysIndexed index.old topics.old.items index.new topics.new.items) }
{
    let changes = close_topics(alloc, topics, index, conn)?;
    index.forget_conn(conn);
    forget_ended(topics, index, changes.as_slice());
    Ok(changes)
}

/// Takes the publishers out of the topics: where these are few, out of each alone.
fn close_topics(
    alloc: Global,
    topics: &mut Vec<Topic>,
    index: &Index,
    conn: u32,
) -> Result<Changes, AllocError>
    requires rising { IsRising 0 topics.old.items }
    requires indexed { AreSaid (id_of index.now conn) conn topics.old.items }
    ensures changes { IfOk result (λ changes. changes ≡ drop_changes topics.old.items conn) }
    ensures topics { OnOk result (topics.new.items ≡ dropped topics.old.items conn) }
{
    let ids = index.ids_of_conn(alloc, conn)?;
    if ids.len() > FEW_TOPICS {
        let changes = ends_of_conn(alloc, topics, conn)?;
        leave_everywhere(alloc, topics, conn);
        return Ok(changes);
    }
    call::close(alloc, topics, ids.as_slice(), conn)
}

/// Begins a saved topic with the next id.
pub fn restore(
    alloc: Global,
    topics: &mut Vec<Topic>,
    index: &mut Index,
    next: &mut u32,
    saved: Saved,
) -> Result<Outcome, AllocError>
    requires indexed { IsIndexed index.old topics.old.items next.old }
    requires unnamed { list_any (is_named saved.name) topics.old.items ≡ false }
    ensures answer { IfOk result (λ o. o ≡ outcome_of
        (restore_cause topics.old.items next.old saved) (restore_changes next.old saved)) }
    ensures topics { OnOk result (topics.new.items ≡ if_counts
        (restore_cause topics.old.items next.old saved)
        (restored topics.old.items next.old saved) topics.old.items) }
    ensures next { OnOk result (next.new ≡ if_counts
        (restore_cause topics.old.items next.old saved) (next.old + 1) next.old) }
    ensures indexed { OnOk result (IsIndexed index.new topics.new.items next.new) }
{
    if let Some(cause) = restore_cause(topics, *next, &saved) {
        return Ok(Outcome::Ignored(cause));
    }
    index.note_name(alloc, saved.name.as_str(), *next)?;
    let changes = call::restore(alloc, topics, next, saved)?;
    Ok(Outcome::Done(changes))
}
