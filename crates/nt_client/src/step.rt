//! What one message changes of the topics that a client holds.

ghost use Rattle.std.specs.Prelude.{◌≡◌, ◌++◌, true, not, filter, IfOk, OnOk};
ghost use Rattle.std.specs.List.{list_any};
ghost use Rattle.std.specs.Ordering.{int_eq};
ghost use Rattle.nt_rules.specs.telling.Told.{after_announce, after_properties, is_called};
ghost use Rattle.nt_client.specs.Kept.{GoesOn, IsKept};
ghost use Rattle.nt_client.specs.Taking.{end_by, has_id, start_by, update_by};

use crate::topics::{Topics, place_of};
use crate::undo::{Undo, add, remove, update_props};
use nt_rules::{Change, Changes, Held};
use nt_topics::{Name, Props, TypeName, Update};
use std::alloc::{AllocError, Global};

/// Takes an announce: a new topic is added, and a held one gets these properties.
pub fn announce(
    alloc: Global,
    topics: &mut Topics,
    log: &mut Vec<Undo>,
    changes: &mut Changes,
    name: Name,
    id: i64,
    typ: TypeName,
    props: Props,
) -> Result<bool, AllocError>
    requires { IsKept topics.old.names topics.old.held.items }
    ensures known { IfOk result (λ known. known ≡ true) }
    ensures held { OnOk result (topics.new.held.items
        ≡ after_announce name id typ props topics.old.held.items) }
    ensures changes { OnOk result
        (changes.new ≡ changes.old ++ start_by name id typ props topics.old.held.items) }
    ensures goes_on { GoesOn topics.old log.old.items topics.new log.new.items }
{
    match place_of(&topics.held, id) {
        Ok(at) => update_props(&mut topics.held, log, at, props)?,
        Err(at) => {
            changes.push(Change::Started {
                id,
                name: name.copy(alloc)?,
                typ: typ.copy(alloc)?,
                props: props.copy()?,
            })?;
            topics.names.note(alloc, name.as_str(), id)?;
            let topic = Held {
                id,
                name,
                typ,
                props,
                value: None,
            };
            add(&mut topics.held, log, at, topic)?;
        }
    }
    Ok(true)
}

/// Takes an unannounce: the topic of this id is taken out.
pub fn unannounce(
    alloc: Global,
    topics: &mut Topics,
    log: &mut Vec<Undo>,
    changes: &mut Changes,
    id: i64,
) -> Result<bool, AllocError>
    requires { IsKept topics.old.names topics.old.held.items }
    ensures known { IfOk result (λ known. known ≡ list_any (has_id id) topics.old.held.items) }
    ensures held { OnOk result (topics.new.held.items
        ≡ filter (λ h. not (int_eq h.id id)) topics.old.held.items) }
    ensures changes { OnOk result (changes.new ≡ changes.old ++ end_by id topics.old.held.items) }
    ensures goes_on { GoesOn topics.old log.old.items topics.new log.new.items }
{
    match place_of(&topics.held, id) {
        Ok(at) => {
            let name = topics.held[at].name.copy(alloc)?;
            remove(&mut topics.held, log, at)?;
            topics.names.forget(name.as_str(), id);
            changes.push(Change::Ended { id, name })?;
            Ok(true)
        }
        Err(_) => Ok(false),
    }
}

/// Takes a properties message: the last topic of this name is updated.
pub fn set_properties(
    alloc: Global,
    topics: &mut Topics,
    log: &mut Vec<Undo>,
    changes: &mut Changes,
    name: Name,
    update: Update,
) -> Result<bool, AllocError>
    requires { IsKept topics.old.names topics.old.held.items }
    ensures known { IfOk result
        (λ known. known ≡ list_any (is_called name) topics.old.held.items) }
    ensures held { OnOk result (topics.new.held.items
        ≡ after_properties name update topics.old.held.items) }
    ensures changes { OnOk result
        (changes.new ≡ changes.old ++ update_by name update topics.old.held.items) }
    ensures goes_on { GoesOn topics.old log.old.items topics.new log.new.items }
{
    match topics.place_of_name(name.as_str()) {
        Some(at) => {
            let id = topics.held[at].id;
            let props = topics.held[at].props.updated(alloc, &update)?;
            changes.push(Change::Props { id, name, update })?;
            update_props(&mut topics.held, log, at, props)?;
            Ok(true)
        }
        None => Ok(false),
    }
}
