//! Changing topics, and telling the changes.

ghost use Rattle.std.specs.Prelude.{◌≡◌, ◌<◌, vec_len, remove, map, filter, not, pos, None, [], ◌∷◌, ◌++◌, IfOk, OnOk};
ghost use Rattle.nt_rules.specs.topics.Topics.{change_at, is_publisher, is_of, if_it_lives_on, if_counts, put_cause_to, with_value, with_publisher, without_publisher, without_conn, new_topic, outlives, dropped};
ghost use Rattle.nt_table.specs.Index.{left_by};
ghost use Rattle.nt_rules.specs.topics.Changes.{outcome_of, ended, end_of, put_change, drop_changes};

use crate::cause::put_cause;
use crate::lookup::{is_publisher, lives_on, outlives};
use nt_rules::{Change, Changes, Outcome, Pub, Pubs, Timed, Topic};
use nt_topics::{Name, Props, TopicName, TypeName};
use nt_values::Value;
use std::alloc::{AllocError, Global};
use std::mem;

/// One change.
pub fn one(alloc: Global, change: Change) -> Result<Changes, AllocError>
    ensures { IfOk result (λ changes. changes ≡ change ∷ []) }
{
    let mut changes = Changes::empty(alloc);
    changes.push(change)?;
    Ok(changes)
}

/// The end of a topic.
pub fn ended(alloc: Global, topic: &Topic) -> Result<Change, AllocError>
    ensures { IfOk result (λ change. change ≡ ended topic.now) }
{
    Ok(Change::Ended {
        id: i64::from(topic.id),
        name: Name::of(alloc, topic.name.as_str())?,
    })
}

/// The end of a topic, where it doesn't live on.
pub fn end_of(alloc: Global, topic: &Topic) -> Result<Changes, AllocError>
    ensures { IfOk result (λ changes. changes ≡ end_of topic.now) }
{
    if lives_on(topic) {
        return Ok(Changes::empty(alloc));
    }
    one(alloc, ended(alloc, topic)?)
}

/// The start of a topic.
pub fn started(
    alloc: Global,
    id: u32,
    name: &TopicName,
    typ: &TypeName,
    props: &Props,
) -> Result<Change, AllocError>
    ensures { IfOk result (λ change. change ≡ Change.Started (pos id) name.now typ.now props.now) }
{
    Ok(Change::Started {
        id: i64::from(id),
        name: Name::of(alloc, name.as_str())?,
        typ: typ.copy(alloc)?,
        props: props.copy()?,
    })
}

/// A value of a topic that was taken.
pub fn changed(
    alloc: Global,
    id: u32,
    name: &TopicName,
    time: u64,
    value: &Value,
) -> Result<Change, AllocError>
    ensures { IfOk result (λ change. change ≡ Change.Changed (pos id) name.now time value.now) }
{
    Ok(Change::Changed {
        id: i64::from(id),
        name: Name::of(alloc, name.as_str())?,
        time,
        value: value.copy(alloc)?,
    })
}

/// Adds a publisher to a topic.
pub fn add_publisher(topic: &mut Topic, publisher: Pub) -> Result<(), AllocError>
    ensures { OnOk result (topic.new ≡ with_publisher publisher topic.old) }
{
    topic.pubs.push(publisher)
}

/// Takes a publisher out of those of a topic.
pub fn drop_publisher(alloc: Global, topic: &mut Topic, conn: u32, uid: i64)
    ensures { topic.new ≡ without_publisher conn uid topic.old }
{
    let mut publishers = mem::replace(&mut topic.pubs, Pubs::empty(alloc)).into_vec();
    publishers.retain(|p| !is_publisher(p, conn, uid));
    topic.pubs = Pubs::of_vec(publishers);
}

/// Takes a connection's publishers out of those of a topic.
fn drop_conn(alloc: Global, topic: &mut Topic, conn: u32)
    ensures { topic.new ≡ without_conn conn topic.old }
{
    let mut publishers = mem::replace(&mut topic.pubs, Pubs::empty(alloc)).into_vec();
    publishers.retain(|p| p.conn != conn);
    topic.pubs = Pubs::of_vec(publishers);
}

/// Puts a value to its publisher's topic, which holds it where it is cached, or says why it is
/// refused.
pub fn put_to(
    alloc: Global,
    topic: &mut Topic,
    conn: u32,
    uid: i64,
    time: u64,
    value: Value,
) -> Result<Outcome, AllocError>
    ensures answer { IfOk result
        (λ o. o ≡ outcome_of (put_cause_to conn uid time value topic.old)
        (put_change time value topic.old)) }
    ensures topic { OnOk result (topic.new
        ≡ if_counts (put_cause_to conn uid time value topic.old)
        (with_value time value topic.old) topic.old) }
{
    if let Some(cause) = put_cause(topic, conn, uid, time, &value) {
        drop(value);
        return Ok(Outcome::Ignored(cause));
    }
    let changes = one(alloc, changed(alloc, topic.id, &topic.name, time, &value)?)?;
    if topic.props.cached() {
        topic.value = Some(Timed { time, value });
    } else {
        drop(value);
    }
    Ok(Outcome::Done(changes))
}

/// Takes the topic at a position out where nothing of it is left.
pub fn settle(topics: &mut Vec<Topic>, i: usize)
    requires { i < vec_len topics.old }
    ensures { topics.new.items ≡ change_at if_it_lives_on i topics.old.items }
{
    if !lives_on(&topics[i]) {
        let _gone = topics.remove(i);
    }
}

/// Tells the end of a topic, where it ends with the connection's publishers.
pub fn tell_end(
    alloc: Global,
    topic: &Topic,
    conn: u32,
    changes: &mut Changes,
) -> Result<(), AllocError>
    ensures { OnOk result (changes.new ≡ changes.old ++ drop_changes (topic.now ∷ []) conn) }
{
    if !outlives(topic, conn) {
        changes.push(ended(alloc, topic)?)?;
    }
    Ok(())
}

/// Takes the connection's publishers out of the topic at a position, and the topic where it ends
/// with them.
pub fn leave(alloc: Global, topics: &mut Vec<Topic>, i: usize, conn: u32)
    requires { i < vec_len topics.old }
    ensures { topics.new.items ≡ change_at (left_by conn) i topics.old.items }
{
    if outlives(&topics[i], conn) {
        drop_conn(alloc, &mut topics[i], conn);
    } else {
        let _gone = topics.remove(i);
    }
}

/// The ends that the end of a connection makes, by rising id.
pub fn ends_of_conn(alloc: Global, topics: &[Topic], conn: u32) -> Result<Changes, AllocError>
    ensures { IfOk result (λ changes. changes ≡ drop_changes topics.now conn) }
{
    let mut changes = Changes::empty(alloc);
    for topic in topics {
        if !outlives(topic, conn) {
            changes.push(ended(alloc, topic)?)?;
        }
    }
    Ok(changes)
}

/// Takes the connection's publishers out of all topics, and the topics that end with them.
pub fn leave_everywhere(alloc: Global, topics: &mut Vec<Topic>, conn: u32)
    ensures { topics.new.items ≡ dropped topics.old.items conn }
{
    keep_outliving(topics, conn);
    leave_all(alloc, topics, conn);
}

fn keep_outliving(topics: &mut Vec<Topic>, conn: u32)
    ensures { topics.new.items ≡ filter (outlives conn) topics.old.items }
{
    topics.retain(|t| outlives(t, conn));
}

fn leave_all(alloc: Global, topics: &mut [Topic], conn: u32)
    ensures { topics.new ≡ map (without_conn conn) topics.old }
{
    for topic in topics.iter_mut() {
        drop_conn(alloc, topic, conn);
    }
}
