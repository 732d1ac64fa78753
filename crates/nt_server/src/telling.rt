//! What an outbox is told of changes and turns, and of its connection's own messages.

ghost use Rattle.std.specs.Prelude.{◌≡◌, filter, OnOk};
ghost use Rattle.nt_subs.specs.Wishes.{wanted};
ghost use Rattle.nt_rules.specs.history.State.{cached_in, changes_noted, holds_in, is_end, message_noted, name_in, noted_all, sender_noted, turn_noted};

use crate::open::Open;
use nt_control::ClientMsg;
use nt_outbox::Outbox;
use nt_rules::{Change, Msg, Reply};
use nt_subs::{SubSet, Wanted};
use nt_table::Table;
use std::alloc::{AllocError, Global};

/// The name of the topic that changes.
fn name_in(change: &Change) -> &str
    ensures { result.now ≡ name_in change.now }
{
    match change {
        Change::Started { name, .. } => name.as_str(),
        Change::Changed { name, .. } => name.as_str(),
        Change::Props { name, .. } => name.as_str(),
        Change::Ended { name, .. } => name.as_str(),
    }
}

/// Whether the topic of a name is cached, as each is that isn't there.
fn cached_in(table: &Table, name: &str) -> bool
    ensures { result ≡ cached_in table.now.topics name.now }
{
    match table.topic(name) {
        Some(topic) => topic.props.cached(),
        None => true,
    }
}

/// Whether the topic of a name holds a value.
pub fn holds_in(table: &Table, name: &str) -> bool
    ensures { result ≡ holds_in table.now.topics name.now }
{
    match table.topic(name) {
        Some(topic) => topic.value.is_some(),
        None => false,
    }
}

/// Tells an outbox of changes, over the topics after them.
pub fn note_all(
    alloc: Global,
    outbox: &mut Outbox,
    subs: &SubSet,
    place: u64,
    table: &Table,
    changes: &[Change],
) -> Result<(), AllocError>
    ensures { OnOk result (outbox.new
        ≡ noted_all place table.now.topics (wanted subs.now) changes.now outbox.old) }
{
    for change in changes {
        let name = name_in(change);
        let wish = subs.matches(name);
        outbox.note(alloc, place, change, cached_in(table, name), wish)?;
    }
    Ok(())
}

/// Tells an outbox of the ends among changes.
fn note_ends(
    alloc: Global,
    outbox: &mut Outbox,
    subs: &SubSet,
    place: u64,
    table: &Table,
    changes: &[Change],
) -> Result<(), AllocError>
    ensures { OnOk result (outbox.new
        ≡ noted_all place table.now.topics (wanted subs.now) (filter is_end changes.now)
        outbox.old) }
{
    for change in changes {
        if let Change::Ended { name, .. } = change {
            let wish = subs.matches(name.as_str());
            outbox.note(alloc, place, change, cached_in(table, name.as_str()), wish)?;
        }
    }
    Ok(())
}

/// Tells a connection of changes, over the topics after them.
pub fn tell_changes(
    alloc: Global,
    client: &mut Open,
    place: u64,
    table: &Table,
    changes: &[Change],
) -> Result<(), AllocError>
    ensures { OnOk result (client.new
        ≡ changes_noted place table.now.topics changes.now client.old) }
{
    note_all(
        alloc,
        &mut client.outbox,
        &client.subs,
        place,
        table,
        changes,
    )
}

/// Tells the sender of a message that counted. What it did itself it is answered, and isn't told
/// besides.
fn tell_sender(
    alloc: Global,
    client: &mut Open,
    place: u64,
    table: &Table,
    msg: &Msg,
    changes: &[Change],
) -> Result<(), AllocError>
    ensures { OnOk result (client.new
        ≡ sender_noted place table.now.topics msg.now changes.now client.old) }
{
    let outbox = &mut client.outbox;
    let subs = &client.subs;
    match msg {
        Msg::Control(ClientMsg::Publish { name, uid, .. }) => {
            let Some(topic) = table.topic(name.as_str()) else {
                return Ok(());
            };
            outbox.reply(alloc, place, topic, Reply::Publish(*uid), None)?;
            if changes.is_empty() {
                return Ok(());
            }
            let wish = subs.matches(topic.name.as_str());
            outbox.rewant(alloc, place, topic, 0, Wanted::No, wish)
        }
        Msg::Control(ClientMsg::SetProps { name, update }) => {
            if let Some(topic) = table.topic(name.as_str()) {
                outbox.reply(alloc, place, topic, Reply::Ack, Some(update))?;
            }
            note_ends(alloc, outbox, subs, place, table, changes)
        }
        _other => note_all(alloc, outbox, subs, place, table, changes),
    }
}

/// Tells a connection of a message of `conn` that counted, over the topics after it, and first of
/// the topic that it turned, if any.
pub fn tell_message(
    alloc: Global,
    client: &mut Open,
    place: u64,
    table: &Table,
    conn: u32,
    msg: &Msg,
    changes: &[Change],
    turned: Option<u32>,
) -> Result<(), AllocError>
    ensures { OnOk result (client.new ≡ message_noted place table.now.topics conn msg.now
        changes.now (turn_noted place turned client.old)) }
{
    if let Some(id) = turned {
        client.outbox.turned(place, id);
    }
    if client.conn == conn {
        tell_sender(alloc, client, place, table, msg, changes)
    } else {
        tell_changes(alloc, client, place, table, changes)
    }
}
