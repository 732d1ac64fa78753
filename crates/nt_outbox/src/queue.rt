//! Which messages are owed, in the order in which they are handed.

ghost use Rattle.std.specs.Prelude.{◌≡◌, ◌++◌, IfOk, OnOk};
ghost use Rattle.nt_rules.specs.outbox.Keys.{in_order};
ghost use Rattle.nt_rules.specs.outbox.Marks.{end_keys, reply_keys, topic_keys, value_keys, newest_keys, keys};
ghost use Rattle.nt_outbox.specs.Steps.{owing_ids, RiseFrom};

use crate::key::{Key, Kind};
use crate::mark::{Mark, owes_topic};
use crate::marks::mark_at;
use std::alloc::{AllocError, Global};

/// Puts keys in order: by place, and at one place by the topic's id.
fn in_order(keys: &mut Vec<Key>) -> Result<(), AllocError>
    ensures { OnOk result (keys.new.items ≡ in_order keys.old.items) }
{
    keys.sort_by_key(|key| (key.place, key.topic))
}

/// The answers to publishes and the changes of properties that are owed of a topic.
fn add_replies(keys: &mut Vec<Key>, mark: &Mark) -> Result<(), AllocError>
    ensures { OnOk result (keys.new.items ≡ keys.old.items ++ reply_keys mark.now) }
{
    let topic = mark.id;
    for publish in mark.publishes.as_slice() {
        let place = publish.place;
        keys.push(Key {
            kind: Kind::Publish,
            topic,
            place,
        })?;
    }
    for setting in mark.settings.as_slice() {
        let place = setting.place;
        keys.push(Key {
            kind: Kind::Setting,
            topic,
            place,
        })?;
    }
    Ok(())
}

/// The values that are owed of a topic one by one.
fn add_values(keys: &mut Vec<Key>, mark: &Mark) -> Result<(), AllocError>
    ensures { OnOk result (keys.new.items ≡ keys.old.items ++ value_keys mark.now) }
{
    let topic = mark.id;
    for placed in mark.values.as_slice() {
        let place = placed.place;
        keys.push(Key {
            kind: Kind::Value,
            topic,
            place,
        })?;
    }
    Ok(())
}

/// All that is owed of a topic, each kind behind what is owed of others.
fn add_owed(
    ends: &mut Vec<Key>,
    replies: &mut Vec<Key>,
    announces: &mut Vec<Key>,
    values: &mut Vec<Key>,
    newest: &mut Vec<Key>,
    mark: &Mark,
) -> Result<(), AllocError>
    ensures ends { OnOk result (ends.new.items ≡ ends.old.items ++ end_keys mark.now) }
    ensures replies { OnOk result (replies.new.items ≡ replies.old.items ++ reply_keys mark.now) }
    ensures announces { OnOk result
        (announces.new.items ≡ announces.old.items ++ topic_keys mark.now) }
    ensures values { OnOk result (values.new.items ≡ values.old.items ++ value_keys mark.now) }
    ensures newest { OnOk result (newest.new.items ≡ newest.old.items ++ newest_keys mark.now) }
{
    let topic = mark.id;
    if let Some(place) = mark.over {
        ends.push(Key {
            kind: Kind::End,
            topic,
            place,
        })?;
    }
    add_replies(replies, mark)?;
    if owes_topic(mark) {
        announces.push(Key {
            kind: Kind::Topic,
            topic,
            place: 0,
        })?;
    }
    add_values(values, mark)?;
    if let Some(place) = mark.newest {
        newest.push(Key {
            kind: Kind::Value,
            topic,
            place,
        })?;
    }
    Ok(())
}

/// All that is owed, in the order in which it is handed. It walks the topics of these ids, those of
/// which something is owed, and no others.
pub fn keys(alloc: Global, marks: &[Mark], owing: &[u32]) -> Result<Vec<Key>, AllocError>
    requires rising { RiseFrom 0 marks.now }
    requires owing { owing.now ≡ owing_ids marks.now }
    ensures { IfOk result (λ ks. ks.items ≡ keys marks.now) }
{
    let mut keys = Vec::new(alloc);
    let mut replies = Vec::new(alloc);
    let mut announces = Vec::new(alloc);
    let mut values = Vec::new(alloc);
    let mut newest = Vec::new(alloc);
    for id in owing {
        if let Some(mark) = mark_at(marks, *id) {
            add_owed(
                &mut keys,
                &mut replies,
                &mut announces,
                &mut values,
                &mut newest,
                mark,
            )?;
        }
    }
    in_order(&mut keys)?;
    in_order(&mut replies)?;
    in_order(&mut values)?;
    keys.append(&mut replies)?;
    keys.append(&mut announces)?;
    keys.append(&mut values)?;
    keys.append(&mut newest)?;
    Ok(keys)
}
