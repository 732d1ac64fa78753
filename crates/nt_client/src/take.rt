//! What a client takes from the frames of the server.

ghost use Rattle.std.specs.Prelude.{◌≡◌, ◌++◌, ◌-◌, ◌^◌, ◌+◌, ℕ, List, [], filter, map, IfOk, IfErr, OnOk, OnErr};
ghost use Rattle.nt_frames.specs.declared.message.FrameFault.{FrameFault};
ghost use Rattle.nt_rules.specs.telling.Told.{Text, Value, after_message, told_from};
ghost use Rattle.nt_client.specs.Kept.{GoesOn, IsKept, IsStored};
ghost use Rattle.nt_client.specs.Taking.{changes_from, faults, changes_by, ignored_from, is_clock, is_known};

use crate::step::{announce, set_properties, unannounce};
use crate::topics::Topics;
use crate::undo::{Undo, refuse};
use crate::values::{keep_all, tell_all};
use nt_control::{ServerMsg, ServerRead};
use nt_frames::{FrameRead, ValueMsg};
use nt_rules::Changes;
use std::alloc::{AllocError, Global};

/// What a client took from a frame: what changed of the topics that it holds, the answers of the
/// clock, and how many frames, elements and messages were ignored (at most the greatest number of
/// the type).
#[derive(Drop)]
pub struct Taken {
    pub changes: Changes,
    pub clock: Vec<ValueMsg>,
    pub ignored: u32,
}

/// Takes a control message, and says whether it is about a topic that is held, or a new one.
fn text(
    alloc: Global,
    topics: &mut Topics,
    log: &mut Vec<Undo>,
    changes: &mut Changes,
    msg: ServerMsg,
) -> Result<bool, AllocError>
    requires { IsKept topics.old.names topics.old.held.items }
    ensures known { IfOk result (λ known. known ≡ is_known (Text msg) topics.old.held.items) }
    ensures held { OnOk result
        (topics.new.held.items ≡ after_message (Text msg) topics.old.held.items) }
    ensures changes { OnOk result
        (changes.new ≡ changes.old ++ changes_by (Text msg) topics.old.held.items) }
    ensures goes_on { GoesOn topics.old log.old.items topics.new log.new.items }
{
    match msg {
        ServerMsg::Announce {
            name,
            id,
            typ,
            props,
            pubuid: _,
        } => announce(alloc, topics, log, changes, name, id, typ, props),
        ServerMsg::Unannounce { id, name: _ } => unannounce(alloc, topics, log, changes, id),
        ServerMsg::Properties {
            name,
            update,
            ack: _,
        } => set_properties(alloc, topics, log, changes, name, update),
    }
}

/// Takes control messages, and adds to a count how many are ignored.
fn texts(
    alloc: Global,
    topics: &mut Topics,
    log: &mut Vec<Undo>,
    changes: &mut Changes,
    msgs: Vec<ServerMsg>,
    ignored: u32,
) -> Result<u32, AllocError>
    requires { IsKept topics.old.names topics.old.held.items }
    ensures ignored { IfOk result (λ count. count
        ≡ ignored_from topics.old.held.items (map Text msgs.items) ignored) }
    ensures held { OnOk result
        (topics.new.held.items ≡ told_from topics.old.held.items (map Text msgs.items)) }
    ensures changes { OnOk result (changes.new
        ≡ changes.old ++ changes_from topics.old.held.items (map Text msgs.items)) }
    ensures goes_on { GoesOn topics.old log.old.items topics.new log.new.items }
{
    let mut ignored = ignored;
    for msg in msgs {
        if !text(alloc, topics, log, changes, msg)? {
            ignored = ignored.saturating_add(1);
        }
    }
    Ok(ignored)
}

/// Takes what a text frame says. For want of memory it leaves the topics as they were.
pub fn take_texts(alloc: Global, topics: &mut Topics, read: ServerRead) -> Result<Taken, AllocError>
    requires { IsKept topics.old.names topics.old.held.items }
    ensures changes { IfOk result (λ taken. taken.changes
        ≡ changes_from topics.old.held.items (map Text read.msgs.items)) }
    ensures clock { IfOk result (λ taken. taken.clock.items ≡ []) }
    ensures ignored { IfOk result (λ taken. taken.ignored
        ≡ ignored_from topics.old.held.items (map Text read.msgs.items) read.ignored) }
    ensures held { OnOk result
        (topics.new.held.items ≡ told_from topics.old.held.items (map Text read.msgs.items)) }
    ensures err { OnErr result (topics.new.held.items ≡ topics.old.held.items) }
    ensures stored { IsStored topics.new }
{
    let mut log = Vec::new(alloc);
    let mut changes = Changes::empty(alloc);
    match texts(
        alloc,
        topics,
        &mut log,
        &mut changes,
        read.msgs,
        read.ignored,
    ) {
        Ok(ignored) => Ok(Taken {
            changes,
            clock: Vec::new(alloc),
            ignored,
        }),
        Err(error) => {
            refuse(topics, log);
            Err(error)
        }
    }
}

/// Takes what a binary frame says. For want of memory it leaves the topics as they were.
pub fn take_values(alloc: Global, topics: &mut Topics, read: FrameRead) -> Result<Taken, AllocError>
    requires { IsKept topics.old.names topics.old.held.items }
    ensures changes { IfOk result (λ taken. taken.changes ≡ changes_from topics.old.held.items
        (map Value read.messages.items)) }
    ensures clock { IfOk result (λ taken. taken.clock.items ≡ filter is_clock read.messages.items) }
    ensures ignored { IfOk result (λ taken. taken.ignored ≡ ignored_from topics.old.held.items
        (map Value read.messages.items) (faults read.fault)) }
    ensures held { OnOk result (topics.new.held.items ≡ told_from topics.old.held.items
        (map Value read.messages.items)) }
    ensures err { OnErr result (topics.new.held.items ≡ topics.old.held.items) }
    ensures stored { IsStored topics.new }
{
    let mut changes = Changes::empty(alloc);
    let mut clock = Vec::new(alloc);
    let faults = u32::from(read.fault.is_some());
    let ignored = tell_all(
        alloc,
        &topics.held,
        &mut changes,
        &mut clock,
        &read.messages,
        faults,
    )?;
    keep_all(&mut topics.held, read.messages);
    Ok(Taken {
        changes,
        clock,
        ignored,
    })
}
