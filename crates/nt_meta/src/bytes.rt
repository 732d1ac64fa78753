//! The values of meta topics.

ghost use Rattle.std.specs.Prelude.{◌≡◌, [], map, filter, bytes_eq, IfOk};
ghost use Rattle.nt_subs.specs.Wishes.{is_matched};
ghost use Rattle.nt_rules.specs.meta.Elements.{topic_publisher, topic_subscriber, publishers_of, subscribers_of};
ghost use Rattle.nt_rules.specs.meta.Packing.{array_bytes};
ghost use Rattle.nt_meta.specs.Packing.{with_elements};

use crate::element::{Element, TopicPublisher, TopicSubscriber};
use crate::list::Packed;
use nt_rules::ConnRow;
use nt_values::Bytes;
use std::alloc::{AllocError, Global};

/// The array of these elements.
#[tactic(auto, using(crate::proofs::Packing::packed_array))]
pub fn array_of<E: Element>(alloc: Global, elements: &[E]) -> Result<Bytes, AllocError>
    ensures { IfOk result (λ bytes. bytes ≡ array_bytes (map E.atoms elements.now)) }
{
    let packed = Packed::new(alloc).with_all(alloc, elements)?;
    packed.finish(alloc)
}

/// The array of no elements.
#[tactic(auto, using(crate::proofs::Packing::packed_array))]
pub fn empty_array(alloc: Global) -> Result<Bytes, AllocError>
    ensures { IfOk result (λ bytes. bytes ≡ array_bytes []) }
{
    Packed::new(alloc).finish(alloc)
}

/// The publishers of a topic, connection by connection.
#[tactic(auto, using(crate::proofs::Packing::packed_array))]
pub fn publishers(alloc: Global, conns: &[ConnRow], topic: &str) -> Result<Bytes, AllocError>
    ensures { IfOk result (λ bytes. bytes ≡ array_bytes (publishers_of conns.now topic.now)) }
{
    let mut packed = Packed::new(alloc);
    for conn in conns {
        packed = with_publishers(alloc, packed, conn, topic)?;
    }
    packed.finish(alloc)
}

/// The subscriptions that match a topic, connection by connection.
#[tactic(auto, using(crate::proofs::Packing::packed_array))]
pub fn subscribers(alloc: Global, conns: &[ConnRow], topic: &str) -> Result<Bytes, AllocError>
    ensures { IfOk result (λ bytes. bytes ≡ array_bytes (subscribers_of conns.now topic.now)) }
{
    let mut packed = Packed::new(alloc);
    for conn in conns {
        packed = with_subscribers(alloc, packed, conn, topic)?;
    }
    packed.finish(alloc)
}

/// With the connection's publishers of a topic.
fn with_publishers(
    alloc: Global,
    packed: Packed,
    conn: &ConnRow,
    topic: &str,
) -> Result<Packed, AllocError>
    ensures { IfOk result (λ p. p ≡ with_elements packed (map (topic_publisher conn.now.name)
        (filter (λ row. bytes_eq row.topic topic.now) conn.now.pubs))) }
{
    let client = conn.name.as_str();
    let mut packed = packed;
    for row in conn.pubs.as_slice() {
        if row.topic.as_str() == topic {
            packed = packed.with(alloc, &TopicPublisher { client, row })?;
        }
    }
    Ok(packed)
}

/// With the connection's subscriptions that match a topic.
fn with_subscribers(
    alloc: Global,
    packed: Packed,
    conn: &ConnRow,
    topic: &str,
) -> Result<Packed, AllocError>
    ensures { IfOk result (λ p. p ≡ with_elements packed (map (topic_subscriber conn.now.name)
        (filter (λ row. is_matched row.sub topic.now) conn.now.subs))) }
{
    let client = conn.name.as_str();
    let mut packed = packed;
    for row in conn.subs.as_slice() {
        if row.sub.is_matched(topic) {
            packed = packed.with(alloc, &TopicSubscriber { client, row })?;
        }
    }
    Ok(packed)
}
