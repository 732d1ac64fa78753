//! Topics that are saved, and what topics hold.

ghost use Rattle.std.specs.Prelude.{IfOk};
ghost use Rattle.nt_rules.specs.history.Saved.{IsRestorable};

use crate::rows::props_of;
use nt_rules::{Saved, Timed};
use nt_server::Server;
use nt_topics::{TopicName, TypeName, is_special};
use nt_values::Value;
use std::alloc::{AllocError, Global};
use std::test::Fail;

/// The most bytes of the properties of a topic.
const MOST_PROPERTIES: u64 = 65_536;

/// A saved topic of whole numbers, with one or without. It has one only where it is cached.
fn saved(alloc: Global, name: &str, props: &str, number: Option<i64>) -> Result<Saved, Fail>
    ensures { IfOk result IsRestorable }
{
    let props = props_of(alloc, props)?;
    if is_special(name) || props.text_len() > MOST_PROPERTIES {
        return Err(Fail::from("no topic that can be restored"));
    }
    let name = TopicName::of(alloc, name)?;
    let typ = TypeName::of(alloc, "int")?;
    match number {
        Some(number) => {
            let value = Value::Int(number);
            if !props.cached() || !value.fits("int") {
                return Err(Fail::from("no value that can be restored"));
            }
            Ok(Saved {
                name,
                typ,
                props,
                value: Some(value),
            })
        }
        None => Ok(Saved {
            name,
            typ,
            props,
            value: None,
        }),
    }
}

/// A server that begins with one topic of whole numbers, and grants one permit.
pub fn restored(
    alloc: Global,
    name: &str,
    props: &str,
    number: Option<i64>,
) -> Result<Server, Fail> {
    let topic = saved(alloc, name, props, number)?;
    Ok(Server::restore(alloc, 1, vec![in alloc; topic]?)?)
}

/// A value, where it is a whole number.
fn value_line(alloc: Global, value: &Value) -> Result<String, AllocError> {
    match value {
        Value::Int(number) => format!(in alloc; "{number}"),
        _ => String::from_str(alloc, "another value"),
    }
}

/// The value of a saved topic.
fn saved_value(alloc: Global, topic: &Saved) -> Result<String, AllocError> {
    match &topic.value {
        Some(value) => value_line(alloc, value),
        None => String::from_str(alloc, "none"),
    }
}

/// A saved topic: name, type, the length of the properties' text, whether they say that the topic
/// is persistent, and the value.
fn saved_line(alloc: Global, topic: &Saved) -> Result<String, AllocError> {
    let (name, typ) = (topic.name.as_str(), topic.typ.as_str());
    let (length, persistent) = (topic.props.text_len(), topic.props.persistent());
    let value = saved_value(alloc, topic)?;
    format!(in alloc; "{name} {typ} {length} {persistent} {value};")
}

/// Saved topics, one behind another.
pub fn saved_lines(alloc: Global, topics: &[Saved]) -> Result<String, AllocError> {
    let mut lines = String::new(alloc);
    for topic in topics {
        lines.push_str(saved_line(alloc, topic)?.as_str())?;
    }
    Ok(lines)
}

/// The id, the time and the value of a topic.
pub fn held_line(alloc: Global, server: &Server, name: &str) -> Result<String, Fail> {
    let topic = server.table().topic(name).ok_or("no such topic")?;
    let id = topic.id;
    match &topic.value {
        Some(Timed { time, value }) => {
            let value = value_line(alloc, value)?;
            Ok(format!(in alloc; "{id} {time} {value}")?)
        }
        None => Ok(format!(in alloc; "{id} none")?),
    }
}
