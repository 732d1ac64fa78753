//! The messages that keys name.

ghost use Rattle.std.specs.Prelude.{◌≡◌, ◌==◌, List, option_copied, IfOk};
ghost use Rattle.std.specs.List.{find};
ghost use Rattle.nt_rules.specs.declared.meta.MetaNow.{MetaNow};
ghost use Rattle.nt_rules.specs.outbox.Messages.{unannounced, announced, uid_at, properties, text_by, no_value, held_value, meta_value, placed_value, value_by, text_of, value_of, batch_of};
ghost use Rattle.nt_outbox.specs.Kinds.{kind_of};
ghost use Rattle.nt_outbox.specs.Steps.{RiseFrom};

use crate::key::{Key, Kind};
use crate::mark::Mark;
use crate::marks::mark_at;
use nt_control::ServerMsg;
use nt_frames::ValueMsg;
use nt_rules::{Batch, FIRST_META, MetaNow, Placed, Publish, Setting, Timed};
use nt_table::Table;
use nt_topics::{Name, Props, TypeName};
use nt_values::{ListOf, Value};
use std::alloc::{AllocError, Global};

/// The type of a meta topic.
const META_TYPE: &str = "msgpack";

/// The end of a topic.
fn unannounced(alloc: Global, mark: &Mark) -> Result<ServerMsg, AllocError>
    ensures { IfOk result (λ m. m ≡ unannounced mark.now) }
{
    Ok(ServerMsg::Unannounce {
        name: mark.name.copy(alloc)?,
        id: i64::from(mark.id),
    })
}

/// The announce of a topic or a meta topic, as it is now.
fn announced(
    alloc: Global,
    table: &Table,
    mark: &Mark,
    pubuid: Option<i64>,
) -> Result<ServerMsg, AllocError>
    ensures { IfOk result (λ m. (metas : List MetaNow)
        → m ≡ announced (record { topics = table.now.topics; metas = metas }) mark.now pubuid) }
{
    if mark.id >= FIRST_META {
        let Ok(typ) = TypeName::of(alloc, META_TYPE) else {
            return Err(AllocError);
        };
        return Ok(ServerMsg::Announce {
            name: mark.name.copy(alloc)?,
            id: i64::from(mark.id),
            typ,
            pubuid,
            props: Props::empty(alloc),
        });
    }
    match table.topic(mark.name.as_str()) {
        Some(topic) => Ok(ServerMsg::Announce {
            name: Name::of(alloc, topic.name.as_str())?,
            id: i64::from(topic.id),
            typ: topic.typ.copy(alloc)?,
            pubuid,
            props: topic.props.copy()?,
        }),
        None => unannounced(alloc, mark),
    }
}

/// The uid of the publish at a place.
fn uid_at(place: u64, publishes: &[Publish]) -> Option<i64>
    ensures { result ≡ uid_at place publishes.now }
{
    for publish in publishes {
        if publish.place == place {
            return Some(publish.uid);
        }
    }
    None
}

/// The change of properties at a place.
fn setting_at(place: u64, settings: &[Setting]) -> Option<&Setting>
    ensures { option_copied result ≡ find (λ s. s.place == place) settings.now }
{
    for setting in settings {
        if setting.place == place {
            return Some(setting);
        }
    }
    None
}

/// The value at a place.
fn value_at(place: u64, values: &[Placed]) -> Option<&Placed>
    ensures { option_copied result ≡ find (λ p. p.place == place) values.now }
{
    for placed in values {
        if placed.place == place {
            return Some(placed);
        }
    }
    None
}

/// The meta topic of this id.
fn meta_at(id: u32, metas: &[MetaNow]) -> Option<&MetaNow>
    ensures { option_copied result ≡ find (λ t. t.id == id) metas.now }
{
    for meta in metas {
        if meta.id == id {
            return Some(meta);
        }
    }
    None
}

/// The change of a topic's properties at a place.
fn properties(alloc: Global, mark: &Mark, place: u64) -> Result<ServerMsg, AllocError>
    ensures { IfOk result
        (λ m. m ≡ properties mark.now (find (λ s. s.place == place) mark.now.settings)) }
{
    match setting_at(place, mark.settings.as_slice()) {
        Some(setting) => Ok(ServerMsg::Properties {
            name: mark.name.copy(alloc)?,
            ack: setting.is_own,
            update: setting.update.copy()?,
        }),
        None => unannounced(alloc, mark),
    }
}

/// The text that tells this of a topic.
fn text_by(
    alloc: Global,
    table: &Table,
    mark: &Mark,
    kind: Kind,
    place: u64,
) -> Result<ServerMsg, AllocError>
    ensures { IfOk result (λ m. (metas : List MetaNow)
        → m ≡ text_by (record { topics = table.now.topics; metas = metas })
        mark.now (kind_of kind) place) }
{
    match kind {
        Kind::End | Kind::Value => unannounced(alloc, mark),
        Kind::Publish => {
            let pubuid = uid_at(place, mark.publishes.as_slice());
            announced(alloc, table, mark, pubuid)
        }
        Kind::Setting => properties(alloc, mark, place),
        Kind::Topic => announced(alloc, table, mark, None),
    }
}

/// The value that a topic holds.
fn held_value(alloc: Global, id: u32, held: &Option<Timed>) -> Result<ValueMsg, AllocError>
    ensures { IfOk result (λ m. m ≡ held_value id held.now) }
{
    match held {
        Some(held) => Ok(ValueMsg {
            id: i64::from(id),
            time: held.time,
            value: held.value.copy(alloc)?,
        }),
        None => Ok(no_value(id)),
    }
}

/// What stands for a value that isn't there.
fn no_value(id: u32) -> ValueMsg
    ensures { result ≡ no_value id }
{
    ValueMsg {
        id: i64::from(id),
        time: 0,
        value: Value::Int(0),
    }
}

/// The value of a meta topic, with this moment as its time.
fn meta_value(alloc: Global, now: u64, id: u32, metas: &[MetaNow]) -> Result<ValueMsg, AllocError>
    ensures { IfOk result (λ m. m ≡ meta_value now id (find (λ t. t.id == id) metas.now)) }
{
    match meta_at(id, metas) {
        Some(meta) => Ok(ValueMsg {
            id: i64::from(id),
            time: now,
            value: Value::Bytes(meta.bytes.copy(alloc)?),
        }),
        None => Ok(no_value(id)),
    }
}

/// The value at a place that was kept, or else the one that the topic holds.
fn topic_value(
    alloc: Global,
    table: &Table,
    mark: &Mark,
    place: u64,
) -> Result<ValueMsg, AllocError>
    ensures { IfOk result (λ m. (metas : List MetaNow)
        → m ≡ placed_value (record { topics = table.now.topics; metas = metas }) mark.now
        (find (λ p. p.place == place) mark.now.values)) }
{
    if let Some(placed) = value_at(place, mark.values.as_slice()) {
        return Ok(ValueMsg {
            id: i64::from(mark.id),
            time: placed.time,
            value: placed.value.copy(alloc)?,
        });
    }
    match table.topic(mark.name.as_str()) {
        Some(topic) => held_value(alloc, mark.id, &topic.value),
        None => Ok(no_value(mark.id)),
    }
}

/// The value of a topic at a place.
fn value_by(
    alloc: Global,
    table: &Table,
    metas: &[MetaNow],
    now: u64,
    mark: &Mark,
    place: u64,
) -> Result<ValueMsg, AllocError>
    ensures { IfOk result (λ m. m
        ≡ value_by (record { topics = table.now.topics; metas = metas.now }) now mark.now place) }
{
    if mark.id >= FIRST_META {
        meta_value(alloc, now, mark.id, metas)
    } else {
        topic_value(alloc, table, mark, place)
    }
}

/// The text that a key names.
fn text_of(alloc: Global, table: &Table, marks: &[Mark], key: &Key) -> Result<ServerMsg, AllocError>
    requires { RiseFrom 0 marks.now }
    ensures { IfOk result (λ m. (metas : List MetaNow)
        → m ≡ text_of (record { topics = table.now.topics; metas = metas }) marks.now key.now) }
{
    match mark_at(marks, key.topic) {
        Some(mark) => text_by(alloc, table, mark, key.kind, key.place),
        None => Ok(ServerMsg::Unannounce {
            name: Name::of(alloc, "")?,
            id: i64::from(key.topic),
        }),
    }
}

/// The value that a key names.
fn value_of(
    alloc: Global,
    table: &Table,
    metas: &[MetaNow],
    now: u64,
    marks: &[Mark],
    key: &Key,
) -> Result<ValueMsg, AllocError>
    requires { RiseFrom 0 marks.now }
    ensures { IfOk result (λ m. m
        ≡ value_of (record { topics = table.now.topics; metas = metas.now })
        now marks.now key.now) }
{
    match mark_at(marks, key.topic) {
        Some(mark) => value_by(alloc, table, metas, now, mark, key.place),
        None => Ok(no_value(key.topic)),
    }
}

/// The messages of keys: the texts and the values, each in their order.
pub fn batch_of(
    alloc: Global,
    table: &Table,
    metas: &[MetaNow],
    now: u64,
    marks: &[Mark],
    keys: &[Key],
) -> Result<Batch, AllocError>
    requires { RiseFrom 0 marks.now }
    ensures { IfOk result (λ b. b ≡ batch_of
        (record { topics = table.now.topics; metas = metas.now }) now marks.now keys.now) }
{
    let mut texts = ListOf::empty(alloc);
    let mut values = ListOf::empty(alloc);
    for key in keys {
        if key.is_value() {
            values.push(value_of(alloc, table, metas, now, marks, key)?)?;
        } else {
            texts.push(text_of(alloc, table, marks, key)?)?;
        }
    }
    Ok(Batch { texts, values })
}
