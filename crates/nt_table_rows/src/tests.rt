//! Rows of the table: one call after another, and what each of them is answered.

use nt_rules::{Change, Outcome};
use nt_table::Table;
use nt_topics::{Props, TopicName, TypeName, Update};
use nt_values::{Text, Value};
use std::alloc::{AllocError, Global};
use std::test::Fail;

/// The properties of this text.
fn props_of(alloc: Global, text: &str) -> Result<Props, Fail> {
    let tree = serde_json::Value::from_str(alloc, text)?;
    Ok(Props::of(alloc, &tree)?.ok_or("no properties")?)
}

/// The update of this text.
fn update_of(alloc: Global, text: &str) -> Result<Update, Fail> {
    let tree = serde_json::Value::from_str(alloc, text)?;
    Ok(Update::of(alloc, &tree)?.ok_or("no update")?)
}

/// A change, as a line.
fn change_line(alloc: Global, change: &Change) -> Result<String, AllocError> {
    match change {
        Change::Started { id, name, typ, .. } => {
            let (name, typ) = (name.as_str(), typ.as_str());
            format!(in alloc; "Started {id} {name} {typ};")
        }
        Change::Changed { id, name, time, .. } => {
            let name = name.as_str();
            format!(in alloc; "Changed {id} {name} {time};")
        }
        Change::Props { id, name, .. } => {
            let name = name.as_str();
            format!(in alloc; "Props {id} {name};")
        }
        Change::Ended { id, name } => {
            let name = name.as_str();
            format!(in alloc; "Ended {id} {name};")
        }
    }
}

/// Changes, as one line.
fn changes_line(alloc: Global, changes: &[Change]) -> Result<String, AllocError> {
    let mut line = String::new(alloc);
    for change in changes {
        line.push_str(change_line(alloc, &change.copy(alloc)?)?.as_str())?;
    }
    Ok(line)
}

/// What a call answered: its changes, or the cause.
fn outcome_line(alloc: Global, outcome: &Outcome) -> Result<String, AllocError> {
    match outcome {
        Outcome::Done(changes) => changes_line(alloc, changes.as_slice()),
        Outcome::Ignored(cause) => format!(in alloc; "{cause:?}"),
    }
}

/// A call of a row.
enum Call {
    Publish(u32, i64, &'static str, &'static str, &'static str),
    Unpublish(u32, i64),
    PutInt(u32, i64, u32, i64),
    PutText(u32, i64, u32, &'static str),
    SetProps(&'static str, &'static str),
    Drop(u32),
    Held(&'static str),
}

/// The time of the value that the topic of this name holds.
fn held_line(alloc: Global, table: &Table, name: &str) -> Result<String, AllocError> {
    match table.topic(name) {
        Some(topic) => match &topic.value {
            Some(held) => {
                let time = held.time;
                format!(in alloc; "held at {time}")
            }
            None => format!(in alloc; "held none"),
        },
        None => format!(in alloc; "no topic"),
    }
}

fn put(
    alloc: Global,
    table: &mut Table,
    publisher: (u32, i64),
    time: u32,
    value: Value,
) -> Result<String, Fail> {
    let outcome = table.put(alloc, publisher.0, publisher.1, u64::from(time), value)?;
    Ok(outcome_line(alloc, &outcome)?)
}

/// Makes a call, and says what it answered.
fn answer(alloc: Global, table: &mut Table, call: &Call) -> Result<String, Fail> {
    match call {
        Call::Publish(conn, uid, name, typ, props) => {
            let name = TopicName::of(alloc, name)?;
            let typ = TypeName::of(alloc, typ)?;
            let props = props_of(alloc, props)?;
            let outcome = table.publish(alloc, *conn, *uid, name, typ, props)?;
            Ok(outcome_line(alloc, &outcome)?)
        }
        Call::Unpublish(conn, uid) => {
            let outcome = table.unpublish(alloc, *conn, *uid)?;
            Ok(outcome_line(alloc, &outcome)?)
        }
        Call::PutInt(conn, uid, time, number) => {
            put(alloc, table, (*conn, *uid), *time, Value::Int(*number))
        }
        Call::PutText(conn, uid, time, text) => {
            let text = Value::Text(Text::of(alloc, text)?);
            put(alloc, table, (*conn, *uid), *time, text)
        }
        Call::SetProps(name, update) => {
            let name = TopicName::of(alloc, name)?;
            let update = update_of(alloc, update)?;
            let outcome = table.set_props(alloc, &name, update)?;
            Ok(outcome_line(alloc, &outcome)?)
        }
        Call::Drop(conn) => {
            let changes = table.drop_conn(alloc, *conn)?;
            Ok(changes_line(alloc, changes.as_slice())?)
        }
        Call::Held(name) => Ok(held_line(alloc, table, name)?),
    }
}

/// The life of a topic, value by value, and the one that follows it.
const LIFE: &[(Call, &str)] = &[
    (Call::Publish(1, 1, "/a", "int", "{}"), "Started 1 /a int;"),
    (Call::Publish(2, 1, "/a", "string", "{}"), ""),
    (Call::PutText(2, 1, 5, "x"), "OtherType"),
    (Call::PutInt(1, 1, 20, 7), "Changed 1 /a 20;"),
    (Call::PutInt(1, 1, 10, 8), "Older"),
    (Call::PutInt(1, 1, 20, 9), "Changed 1 /a 20;"),
    (Call::Unpublish(1, 1), ""),
    (Call::Drop(2), "Ended 1 /a;"),
    (
        Call::Publish(1, 2, "/a", "string", "{}"),
        "Started 2 /a string;",
    ),
    (Call::SetProps("/b", "{}"), "NoTopic"),
];

/// Refusals, and topics that a flag keeps.
const EDGES: &[(Call, &str)] = &[
    (Call::Publish(1, 1, "$a", "int", "{}"), "Special"),
    (
        Call::Publish(1, 1, "/a", "int", r#"{"retained":true}"#),
        "Started 1 /a int;",
    ),
    (Call::Publish(1, 1, "$a", "int", "{}"), "Special"),
    (Call::Publish(1, 1, "/b", "int", "{}"), "UidInUse"),
    (Call::Publish(1, 2, "/b", "int", "{}"), "Started 2 /b int;"),
    (Call::PutText(1, 1, 0, "x"), "OtherType"),
    (Call::PutInt(1, 1, 0, 1), "Changed 1 /a 0;"),
    (
        Call::PutInt(1, 1, 4_294_967_295, 2),
        "Changed 1 /a 4294967295;",
    ),
    (Call::PutInt(1, 3, 0, 3), "NoSuchUid"),
    (Call::PutInt(2, 1, 0, 3), "NoSuchUid"),
    (Call::Unpublish(2, 1), "NoSuchUid"),
    (Call::Unpublish(1, 1), ""),
    (Call::Unpublish(1, 1), "NoSuchUid"),
    (Call::SetProps("/a", "{}"), "Props 1 /a;"),
    (
        Call::SetProps("/a", r#"{"persistent":true,"retained":null}"#),
        "Props 1 /a;",
    ),
    (
        Call::SetProps("/a", r#"{"persistent":false}"#),
        "Props 1 /a;Ended 1 /a;",
    ),
    (Call::SetProps("/a", "{}"), "NoTopic"),
    (
        Call::Publish(1, 1, "/a", "int", r#"{"retained":true}"#),
        "Started 3 /a int;",
    ),
    (Call::Unpublish(1, 1), ""),
    (
        Call::SetProps("/a", r#"{"retained":null}"#),
        "Props 3 /a;Ended 3 /a;",
    ),
    (Call::Publish(1, 1, "/a", "int", "{}"), "Started 4 /a int;"),
    (Call::Drop(2), ""),
    (Call::Drop(1), "Ended 2 /b;Ended 4 /a;"),
    (Call::Publish(1, 1, "/b", "int", "{}"), "Started 5 /b int;"),
];

/// A topic that isn't cached from its start: an earlier time after a later one is taken, and none
/// of its values is held. It is cached again where the key goes.
const UNCACHED: &[(Call, &str)] = &[
    (
        Call::Publish(1, 1, "/a", "int", r#"{"cached":false}"#),
        "Started 1 /a int;",
    ),
    (Call::Held("/a"), "held none"),
    (Call::PutInt(1, 1, 20, 1), "Changed 1 /a 20;"),
    (Call::Held("/a"), "held none"),
    (Call::PutInt(1, 1, 10, 2), "Changed 1 /a 10;"),
    (Call::PutInt(1, 1, 0, 3), "Changed 1 /a 0;"),
    (Call::PutText(1, 1, 30, "x"), "OtherType"),
    (Call::PutInt(1, 2, 30, 1), "NoSuchUid"),
    (Call::Held("/a"), "held none"),
    // another key, what is so already, and a number that isn't whole, which is passed over
    (Call::SetProps("/a", r#"{"x":1}"#), "Props 1 /a;"),
    (Call::SetProps("/a", r#"{"cached":false}"#), "Props 1 /a;"),
    (Call::SetProps("/a", r#"{"cached":0.5}"#), "Props 1 /a;"),
    (Call::PutInt(1, 1, 20, 4), "Changed 1 /a 20;"),
    (Call::PutInt(1, 1, 5, 5), "Changed 1 /a 5;"),
    (Call::Held("/a"), "held none"),
    (Call::SetProps("/a", r#"{"cached":null}"#), "Props 1 /a;"),
    (Call::Held("/a"), "held none"),
    (Call::PutInt(1, 1, 3, 6), "Changed 1 /a 3;"),
    (Call::Held("/a"), "held at 3"),
    (Call::PutInt(1, 1, 2, 7), "Older"),
    // a publish to a living topic says nothing of its properties
    (Call::Publish(2, 1, "/a", "int", r#"{"cached":false}"#), ""),
    (Call::Held("/a"), "held at 3"),
];

/// Updates of a topic that holds a value: only false drops it, and what isn't false brings back a
/// topic that is cached and holds none.
const TURNS: &[(Call, &str)] = &[
    (Call::Publish(1, 1, "/a", "int", "{}"), "Started 1 /a int;"),
    (Call::PutInt(1, 1, 20, 1), "Changed 1 /a 20;"),
    (Call::SetProps("/a", r#"{"x":false}"#), "Props 1 /a;"),
    (Call::SetProps("/a", r#"{"cached":0}"#), "Props 1 /a;"),
    (Call::SetProps("/a", r#"{"cached":"false"}"#), "Props 1 /a;"),
    (
        Call::SetProps("/a", r#"{"cached":{"x":null}}"#),
        "Props 1 /a;",
    ),
    (Call::SetProps("/a", r#"{"cached":true}"#), "Props 1 /a;"),
    (Call::SetProps("/a", r#"{"cached":null}"#), "Props 1 /a;"),
    (Call::Held("/a"), "held at 20"),
    (Call::PutInt(1, 1, 10, 2), "Older"),
    (Call::SetProps("/a", r#"{"cached":false}"#), "Props 1 /a;"),
    (Call::Held("/a"), "held none"),
    (Call::PutInt(1, 1, 10, 3), "Changed 1 /a 10;"),
    (Call::SetProps("/a", r#"{"cached":true}"#), "Props 1 /a;"),
    (Call::Held("/a"), "held none"),
    (Call::PutInt(1, 1, 5, 4), "Changed 1 /a 5;"),
    (Call::Held("/a"), "held at 5"),
    (Call::SetProps("/a", r#"{"cached":false}"#), "Props 1 /a;"),
    (
        Call::SetProps("/a", r#"{"cached":{"x":null}}"#),
        "Props 1 /a;",
    ),
    (Call::Held("/a"), "held none"),
    (Call::PutInt(1, 1, 1, 5), "Changed 1 /a 1;"),
    (Call::Held("/a"), "held at 1"),
];

/// A turn of a topic without a publisher, which a flag keeps, and one that takes the flag away.
const RETAINED: &[(Call, &str)] = &[
    (
        Call::Publish(1, 1, "/a", "int", r#"{"retained":true}"#),
        "Started 1 /a int;",
    ),
    (Call::PutInt(1, 1, 20, 1), "Changed 1 /a 20;"),
    (Call::Unpublish(1, 1), ""),
    (Call::Held("/a"), "held at 20"),
    (Call::SetProps("/a", r#"{"cached":false}"#), "Props 1 /a;"),
    (Call::Held("/a"), "held none"),
    (Call::Publish(2, 1, "/a", "int", "{}"), ""),
    (Call::PutInt(2, 1, 30, 2), "Changed 1 /a 30;"),
    (Call::Drop(2), ""),
    (Call::Held("/a"), "held none"),
    (Call::SetProps("/a", r#"{"cached":null}"#), "Props 1 /a;"),
    (Call::Publish(2, 1, "/a", "int", "{}"), ""),
    (Call::PutInt(2, 1, 10, 3), "Changed 1 /a 10;"),
    (Call::Unpublish(2, 1), ""),
    (Call::Held("/a"), "held at 10"),
    (
        Call::SetProps("/a", r#"{"cached":false,"retained":null}"#),
        "Props 1 /a;Ended 1 /a;",
    ),
    (Call::Held("/a"), "no topic"),
    (Call::Publish(1, 1, "/a", "int", "{}"), "Started 2 /a int;"),
    (Call::Held("/a"), "held none"),
    (Call::PutInt(1, 1, 0, 4), "Changed 2 /a 0;"),
    (Call::Held("/a"), "held at 0"),
];

/// After 16,384 publishers of connection 1 to one topic.
const MOST_PUBLISHERS: &[(Call, &str)] = &[
    (Call::Publish(1, 16_384, "/0", "int", "{}"), "PubsFull"),
    (Call::Publish(2, 16_384, "/0", "int", "{}"), ""),
    (Call::Unpublish(1, 16_383), ""),
    (Call::Publish(1, 16_384, "/0", "int", "{}"), ""),
    (Call::Publish(1, 16_385, "/0", "int", "{}"), "PubsFull"),
    (Call::PutInt(1, 16_383, 0, 1), "NoSuchUid"),
    (Call::PutInt(1, 16_384, 0, 1), "Changed 1 /0 0;"),
    (Call::Drop(1), ""),
    (Call::Drop(2), "Ended 1 /0;"),
    (Call::Publish(3, 0, "/0", "int", "{}"), "Started 2 /0 int;"),
];

/// After 16,384 topics of connection 1.
const MOST_TOPICS: &[(Call, &str)] = &[
    (Call::Publish(2, 0, "/b", "int", "{}"), "TopicsFull"),
    (Call::Publish(2, 0, "/16383", "int", "{}"), ""),
    (Call::Unpublish(1, 16_383), ""),
    (Call::Publish(2, 1, "/b", "int", "{}"), "TopicsFull"),
    (Call::PutInt(2, 0, 0, 1), "Changed 16384 /16383 0;"),
    (Call::Unpublish(2, 0), "Ended 16384 /16383;"),
    (
        Call::Publish(2, 1, "/b", "int", "{}"),
        "Started 16385 /b int;",
    ),
    (Call::Publish(2, 2, "/c", "int", "{}"), "TopicsFull"),
    (Call::PutInt(1, 16_382, 0, 1), "Changed 16383 /16382 0;"),
    (Call::Drop(2), "Ended 16385 /b;"),
];

/// Makes the calls of a row one after another, and says what the first of them answered that
/// answered anything else than is wanted.
fn first_other(
    alloc: Global,
    table: &mut Table,
    rows: &[(Call, &'static str)],
) -> Result<String, Fail> {
    for (call, wanted) in rows {
        let answer = answer(alloc, table, call)?;
        if answer.as_str() != *wanted {
            return Ok(format!(in alloc; "{answer} in place of {wanted}")?);
        }
    }
    Ok(String::new(alloc))
}

/// Publishes for connection 1 with each uid below this one, to as many topics or to one.
fn publish_all(alloc: Global, table: &mut Table, uids: u32, topics: u32) -> Result<(), Fail> {
    for uid in 0..uids {
        let number = uid.min(topics);
        let name = format!(in alloc; "/{number}")?;
        let name = TopicName::of(alloc, name.as_str())?;
        let typ = TypeName::of(alloc, "int")?;
        table.publish(alloc, 1, i64::from(uid), name, typ, Props::empty(alloc))?;
    }
    Ok(())
}

/// Properties, or an update of them, whose text has this many bytes and eight.
fn long_text(alloc: Global, count: u32) -> Result<String, AllocError> {
    let mut text = String::new(alloc);
    text.push_str("{\"a\":\"")?;
    for _ in 0..count {
        text.push_str("x")?;
    }
    text.push_str("\"}")?;
    Ok(text)
}

/// What a publish of a topic with properties of this text answers, and an update by this text.
fn long_answers(alloc: Global, count: u32) -> Result<String, Fail> {
    let mut table = Table::new(alloc);
    let text = long_text(alloc, count)?;
    let (one, two) = (TopicName::of(alloc, "/a")?, TopicName::of(alloc, "/b")?);
    let typ = TypeName::of(alloc, "int")?;
    let props = props_of(alloc, text.as_str())?;
    let mut line = outcome_line(alloc, &table.publish(alloc, 1, 1, one, typ, props)?)?;
    let typ = TypeName::of(alloc, "int")?;
    table.publish(alloc, 1, 2, two, typ, Props::empty(alloc))?;
    let two = TopicName::of(alloc, "/b")?;
    let update = update_of(alloc, text.as_str())?;
    line.push_str(" ")?;
    line.push_str(outcome_line(alloc, &table.set_props(alloc, &two, update)?)?.as_str())?;
    Ok(line)
}

#[test]
fn answers_each_call(rt: HostRuntime) -> Result<(), Fail> {
    let alloc = rt.alloc();
    for rows in [LIFE, EDGES, UNCACHED, TURNS, RETAINED] {
        let mut table = Table::new(alloc);
        assert_eq!(rt; first_other(alloc, &mut table, rows)?.as_str(), "");
        assert_eq!(rt; table.len(), 1);
    }
    Ok(())
}

#[test]
fn refuses_a_publisher_past_the_most(rt: HostRuntime) -> Result<(), Fail> {
    let alloc = rt.alloc();
    let mut table = Table::new(alloc);
    publish_all(alloc, &mut table, 16_384, 0)?;
    assert_eq!(rt;
        first_other(alloc, &mut table, MOST_PUBLISHERS)?.as_str(),
        ""
    );
    Ok(())
}

#[test]
fn refuses_a_topic_past_the_most(rt: HostRuntime) -> Result<(), Fail> {
    let alloc = rt.alloc();
    let mut table = Table::new(alloc);
    publish_all(alloc, &mut table, 16_384, 16_384)?;
    assert_eq!(rt; first_other(alloc, &mut table, MOST_TOPICS)?.as_str(), "");
    Ok(())
}

#[test]
fn refuses_properties_past_the_most(rt: HostRuntime) -> Result<(), Fail> {
    let alloc = rt.alloc();
    let answers = long_answers(alloc, 65_528)?;
    assert_eq!(rt; answers.as_str(), "Started 1 /a int; Props 2 /b;");
    let answers = long_answers(alloc, 65_529)?;
    assert_eq!(rt; answers.as_str(), "PropsFull PropsFull");
    Ok(())
}

#[test]
fn takes_the_first_and_the_last_time(rt: HostRuntime) -> Result<(), Fail> {
    let alloc = rt.alloc();
    let mut table = Table::new(alloc);
    publish_all(alloc, &mut table, 1, 1)?;
    let mut line = String::new(alloc);
    for time in [0, 9_223_372_036_854_775_807, 0, 9_223_372_036_854_775_807] {
        let outcome = table.put(alloc, 1, 0, time, Value::Int(1))?;
        line.push_str(outcome_line(alloc, &outcome)?.as_str())?;
    }
    let wanted =
        "Changed 1 /0 0;Changed 1 /0 9223372036854775807;OlderChanged 1 /0 9223372036854775807;";
    assert_eq!(rt; line.as_str(), wanted);
    Ok(())
}
