//! What the values of a frame change of the topics that a client holds: first all of it is told,
//! which takes memory, and then the values are kept, which takes none.

ghost use Rattle.std.specs.Prelude.{◌≡◌, ◌++◌, filter, map, IfOk, OnOk};
ghost use Rattle.std.specs.List.{list_any};
ghost use Rattle.nt_rules.specs.telling.Told.{Value, told_from, with_message};
ghost use Rattle.nt_client.specs.Kept.{id_of, outline};
ghost use Rattle.nt_client.specs.Sorted.{Rise};
ghost use Rattle.nt_client.specs.Taking.{changes_from, has_id, ignored_from, is_clock, value_by};

use crate::topics::place_of;
use nt_frames::ValueMsg;
use nt_rules::{Change, Changes, Held, Timed};
use std::alloc::{AllocError, Global};

/// The id of the messages by which the clock answers.
const CLOCK: i64 = -1;

/// Tells what a value changes, and says whether its topic is held.
fn tell(
    alloc: Global,
    held: &[Held],
    changes: &mut Changes,
    msg: &ValueMsg,
) -> Result<bool, AllocError>
    requires { Rise id_of held.now }
    ensures known { IfOk result (λ known. known ≡ list_any (has_id msg.now.id) held.now) }
    ensures changes { OnOk result (changes.new ≡ changes.old ++ value_by msg.now held.now) }
{
    match place_of(held, msg.id) {
        Ok(at) => {
            changes.push(Change::Changed {
                id: msg.id,
                name: held[at].name.copy(alloc)?,
                time: msg.time,
                value: msg.value.copy(alloc)?,
            })?;
            Ok(true)
        }
        Err(_) => Ok(false),
    }
}

/// Tells what values change, and adds to a count how many are ignored. Those with the clock's id
/// are its answers, and values too of a topic that is held with that id.
pub fn tell_all(
    alloc: Global,
    held: &[Held],
    changes: &mut Changes,
    clock: &mut Vec<ValueMsg>,
    msgs: &[ValueMsg],
    ignored: u32,
) -> Result<u32, AllocError>
    requires { Rise id_of held.now }
    ensures ignored { IfOk result (λ count. count
        ≡ ignored_from held.now (map Value msgs.now) ignored) }
    ensures changes { OnOk result
        (changes.new ≡ changes.old ++ changes_from held.now (map Value msgs.now)) }
    ensures clock { OnOk result (clock.new.items ≡ clock.old.items ++ filter is_clock msgs.now) }
{
    let mut ignored = ignored;
    for msg in msgs {
        let is_answer = msg.id == CLOCK;
        if is_answer {
            clock.push(msg.copy(alloc)?)?;
        }
        if !tell(alloc, held, changes, msg)? && !is_answer {
            ignored = ignored.saturating_add(1);
        }
    }
    Ok(ignored)
}

/// Keeps a value where its topic is held, and cached.
fn keep(held: &mut Vec<Held>, msg: ValueMsg)
    requires { Rise id_of held.old.items }
    ensures { held.new.items ≡ map (with_message msg) held.old.items }
{
    if let Ok(at) = place_of(held, msg.id)
        && held[at].props.cached()
    {
        held[at].value = Some(Timed {
            time: msg.time,
            value: msg.value,
        });
    }
}

/// Keeps values, one after another.
pub fn keep_all(held: &mut Vec<Held>, msgs: Vec<ValueMsg>)
    requires { Rise id_of held.old.items }
    ensures held { held.new.items ≡ told_from held.old.items (map Value msgs.items) }
    ensures outlines { map outline held.new.items ≡ map outline held.old.items }
{
    for msg in msgs {
        keep(held, msg);
    }
}
