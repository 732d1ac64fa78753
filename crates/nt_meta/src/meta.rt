//! The meta topics.

ghost use Rattle.std.specs.Prelude.{◌≡◌, ◌++◌, map, option_map, IfOk, OnOk};
ghost use Rattle.nt_rules.specs.meta.Meta.{IsNumbered, metas, named_in, meta_bytes, meta_number, topic_pub, topic_sub, client_pub, client_sub};

use crate::find::meta_topic;
use crate::order::ordered_roster;
use crate::topic::MetaTopic;
use nt_rules::{MetaNow, Metas, Roster};
use nt_values::Bytes;
use std::alloc::{AllocError, Global};

/// The value of the meta topic of this name, and None exactly where none lives. Its rows are told
/// by rising number of the connection and then by rising uid, in whatever order the roster has
/// them. It fails for want of memory, and where a text or a list in it has a length of 2^32 or
/// more, for which there is no spelling.
pub fn meta_value(alloc: Global, name: &str, roster: &Roster) -> Result<Option<Bytes>, AllocError>
    ensures { IfOk result (λ value. value ≡ meta_bytes roster.now name.now) }
{
    let ordered = ordered_roster(alloc, roster)?;
    value_in(alloc, name, &ordered)
}

/// The same, with the rows told as they stand. It fails as `meta_value` does.
fn value_in(alloc: Global, name: &str, roster: &Roster) -> Result<Option<Bytes>, AllocError>
    ensures { IfOk result (λ value. value
        ≡ option_map (λ m. m.bytes) (named_in roster.now name.now)) }
{
    match meta_topic(name, roster) {
        Some(topic) => Ok(Some(topic.bytes(alloc, roster)?)),
        None => Ok(None),
    }
}

/// The id of the meta topic of this name, and None exactly where none lives.
pub fn meta_id(name: &str, roster: &Roster) -> Option<u32>
    requires { IsNumbered roster.now }
    ensures { result ≡ meta_number roster.now name.now }
{
    match meta_topic(name, roster) {
        Some(topic) => Some(topic.id()),
        None => None,
    }
}

/// All meta topics that live, their rows told as they stand in the roster. It fails as `meta_value`
/// does, and where an id would pass 32 bits.
pub fn all_metas(alloc: Global, roster: &Roster) -> Result<Metas, AllocError>
    ensures { IfOk result (λ all. all ≡ metas roster.now) }
{
    let mut all = Metas::empty(alloc);
    add_topic_pubs(alloc, &mut all, roster)?;
    add_topic_subs(alloc, &mut all, roster)?;
    add_client_pubs(alloc, &mut all, roster)?;
    add_client_subs(alloc, &mut all, roster)?;
    all.push(MetaTopic::Clients.now(alloc, roster)?)?;
    all.push(MetaTopic::ServerPub.now(alloc, roster)?)?;
    all.push(MetaTopic::ServerSub.now(alloc, roster)?)?;
    Ok(all)
}

/// Adds who publishes to each topic.
fn add_topic_pubs(alloc: Global, all: &mut Metas, roster: &Roster) -> Result<(), AllocError>
    ensures { OnOk result (all.new ≡ all.old ++ map (topic_pub roster.now) roster.now.topics) }
{
    for life in roster.topics.as_slice() {
        all.push(MetaTopic::TopicPub(life).now(alloc, roster)?)?;
    }
    Ok(())
}

/// Adds who subscribes to each topic.
fn add_topic_subs(alloc: Global, all: &mut Metas, roster: &Roster) -> Result<(), AllocError>
    ensures { OnOk result (all.new ≡ all.old ++ map (topic_sub roster.now) roster.now.topics) }
{
    for life in roster.topics.as_slice() {
        all.push(MetaTopic::TopicSub(life).now(alloc, roster)?)?;
    }
    Ok(())
}

/// Adds what each client publishes.
fn add_client_pubs(alloc: Global, all: &mut Metas, roster: &Roster) -> Result<(), AllocError>
    ensures { OnOk result (all.new ≡ all.old ++ map client_pub roster.now.conns) }
{
    for conn in roster.conns.as_slice() {
        all.push(MetaTopic::ClientPub(conn).now(alloc, roster)?)?;
    }
    Ok(())
}

/// Adds what each client subscribes to.
fn add_client_subs(alloc: Global, all: &mut Metas, roster: &Roster) -> Result<(), AllocError>
    ensures { OnOk result (all.new ≡ all.old ++ map client_sub roster.now.conns) }
{
    for conn in roster.conns.as_slice() {
        all.push(MetaTopic::ClientSub(conn).now(alloc, roster)?)?;
    }
    Ok(())
}
