//! Looking through topics.

ghost use Rattle.std.specs.Prelude.{◌≡◌, ◌<◌, Some, IfSome, not, option_copied, filter, length, ◌&&◌, bytes_eq};
ghost use Rattle.std.specs.List.{list_any, find, position};
ghost use Rattle.nt_table.specs.Index.{IsRising, is_at};
ghost use Rattle.nt_rules.specs.topics.Topics.{is_publisher, is_of, has_conn, is_named, lives_on, outlives, is_fit, is_older, is_value_of, is_too_long, is_saved_fit};

use nt_rules::{MOST_PROPERTIES, Pub, Topic};
use nt_topics::Props;
use nt_values::Value;

/// Whether the publisher is this connection's, with this uid.
pub fn is_publisher(publisher: &Pub, conn: u32, uid: i64) -> bool
    ensures { result ≡ is_publisher conn uid publisher.now }
{
    publisher.conn == conn && publisher.uid == uid
}

/// The position of the topic at which an id was found, if it was, where ids rise.
pub fn position_at(topics: &[Topic], id: Option<u32>) -> Option<usize>
    requires { IsRising 0 topics.now }
    ensures { result ≡ position (is_at id) topics.now }
{
    match id {
        Some(id) => position_of_id(topics, id),
        None => None,
    }
}

/// The position of the topic of this id, where ids rise.
fn position_of_id(topics: &[Topic], id: u32) -> Option<usize>
    requires { IsRising 0 topics.now }
    ensures { result ≡ position (is_at (Some id)) topics.now }
{
    match position_without_gaps(topics, id) {
        Some(i) if topics[i].id == id => Some(i),
        _ => topics.binary_search_by_key(&id, |t| t.id).ok(),
    }
}

/// Where the topic of this id is, unless an id before it is missing.
fn position_without_gaps(topics: &[Topic], id: u32) -> Option<usize>
    ensures { IfSome result (λ i. i < length topics.now) }
{
    let first = topics.first()?.id;
    let i = id.checked_sub(first)? as usize;
    if i < topics.len() { Some(i) } else { None }
}

/// Whether the connection publishes to the topic.
fn has_conn(topic: &Topic, conn: u32) -> bool
    ensures { result ≡ has_conn conn topic.now }
{
    topic.pubs.as_slice().iter().any(|p| p.conn == conn)
}

/// How many publishers are of other connections.
fn others_in(publishers: &[Pub], conn: u32) -> usize
    ensures { result ≡ length (filter (λ p. not (is_of conn p)) publishers.now) }
{
    let mut count: usize = 0;
    for publisher in publishers {
        if publisher.conn != conn {
            count += 1;
        }
    }
    count
}

/// The position of the topic of this name, with no index.
fn position_of_name(topics: &[Topic], name: &str) -> Option<usize>
    ensures { result ≡ position (is_named name.now) topics.now }
{
    topics.iter().position(|t| t.name.as_str() == name)
}

/// The topic of this name, with no index.
pub fn topic_of_name<'a>(topics: &'a [Topic], name: &str) -> Option<&'a Topic>
    ensures { option_copied result ≡ find (is_named name.now) topics.now }
{
    match position_of_name(topics, name) {
        Some(i) => Some(&topics[i]),
        None => None,
    }
}

/// Whether the topic lives on: it has a publisher, or a flag keeps it.
pub fn lives_on(topic: &Topic) -> bool
    ensures { result ≡ lives_on topic.now }
{
    topic.pubs.as_slice().len() > 0 || topic.props.persistent() || topic.props.retained()
}

/// Whether the topic goes on when the connection ends.
pub fn outlives(topic: &Topic, conn: u32) -> bool
    ensures { result ≡ outlives conn topic.now }
{
    !has_conn(topic, conn)
        || others_in(topic.pubs.as_slice(), conn) > 0
        || topic.props.persistent()
        || topic.props.retained()
}

/// Whether the compact text of the properties is too long.
pub fn is_too_long(props: &Props) -> bool
    ensures { result ≡ is_too_long props.now }
{
    props.text_len() > MOST_PROPERTIES
}

/// Whether a saved value, where there is one, is of the type.
pub fn is_saved_fit(value: &Option<Value>, typ: &str) -> bool
    ensures { result ≡ is_saved_fit typ.now value.now }
{
    match value {
        Some(value) => value.fits(typ),
        None => true,
    }
}

/// Whether the publisher has the topic's type, and the value is of it.
pub fn is_fit(topic: &Topic, conn: u32, uid: i64, value: &Value) -> bool
    ensures { result ≡ is_fit conn uid value.now topic.now }
{
    publishes_as(topic.pubs.as_slice(), topic.typ.as_str(), conn, uid)
        && value.fits(topic.typ.as_str())
}

/// Whether such a publisher has this type.
fn publishes_as(publishers: &[Pub], typ: &str, conn: u32, uid: i64) -> bool
    ensures { result
        ≡ list_any (λ p. is_publisher conn uid p && bytes_eq p.typ typ.now) publishers.now }
{
    publishers
        .iter()
        .any(|p| is_publisher(p, conn, uid) && p.typ.as_str() == typ)
}

/// Whether this time is older than that of the held value.
pub fn is_older(topic: &Topic, time: u64) -> bool
    ensures { result ≡ is_older time topic.now.value }
{
    match &topic.value {
        None => false,
        Some(held) => time < held.time,
    }
}
