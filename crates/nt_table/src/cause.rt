//! The causes that refuse a call, in the order of the rules.

ghost use Rattle.std.specs.Prelude.{◌≡◌};
ghost use Rattle.std.specs.List.{position};
ghost use Rattle.nt_table.specs.Index.{IsIndexed};
ghost use Rattle.nt_rules.specs.topics.Topics.{is_named, room_cause, new_cause, publish_cause, put_cause_to, restore_cause};

use crate::index::Index;
use crate::lookup::{is_fit, is_older, is_saved_fit, is_too_long};
use nt_rules::{Cause, LAST_ID, MOST_PUBLISHERS, MOST_TOPICS, Pub, Saved, Topic};
use nt_topics::{Props, TopicName, is_special};
use nt_values::Value;

/// The first cause that refuses a further topic, where there are so many and this id is next.
fn room_cause(count: usize, next: u32) -> Option<Cause>
    ensures { result ≡ room_cause count next }
{
    if count >= MOST_TOPICS {
        Some(Cause::TopicsFull)
    } else if next > LAST_ID {
        Some(Cause::IdsSpent)
    } else {
        None
    }
}

/// The first cause that refuses a new topic with these properties.
fn new_cause(count: usize, next: u32, props: &Props) -> Option<Cause>
    ensures { result ≡ new_cause count next props.now }
{
    if is_too_long(props) {
        return Some(Cause::PropsFull);
    }
    room_cause(count, next)
}

/// The first cause that refuses a publish, where the topic of this name is at this position.
pub fn publish_cause(
    topics: &[Topic],
    index: &Index,
    next: u32,
    publisher: &Pub,
    name: &TopicName,
    at: Option<usize>,
    props: &Props,
) -> Option<Cause>
    requires indexed { IsIndexed index.now topics.now next }
    requires found { at ≡ position (is_named name.now) topics.now }
    ensures { result ≡ publish_cause topics.now next publisher.now.conn publisher.now.uid
        name.now props.now }
{
    if is_special(name.as_str()) {
        return Some(Cause::Special);
    }
    if index.id_of(publisher.conn, publisher.uid).is_some() {
        return Some(Cause::UidInUse);
    }
    if index.count_of(publisher.conn) >= MOST_PUBLISHERS {
        return Some(Cause::PubsFull);
    }
    if at.is_some() {
        return None;
    }
    new_cause(topics.len(), next, props)
}

/// The first cause that refuses a put to the publisher's topic.
pub fn put_cause(topic: &Topic, conn: u32, uid: i64, time: u64, value: &Value) -> Option<Cause>
    ensures { result ≡ put_cause_to conn uid time value.now topic.now }
{
    if !is_fit(topic, conn, uid, value) {
        Some(Cause::OtherType)
    } else if is_older(topic, time) {
        Some(Cause::Older)
    } else {
        None
    }
}

/// The first cause that refuses a saved topic.
pub fn restore_cause(topics: &[Topic], next: u32, saved: &Saved) -> Option<Cause>
    ensures { result ≡ restore_cause topics.now next saved.now }
{
    match room_cause(topics.len(), next) {
        Some(cause) => Some(cause),
        None if is_saved_fit(&saved.value, saved.typ.as_str()) => None,
        None => Some(Cause::OtherType),
    }
}
