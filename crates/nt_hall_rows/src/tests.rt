//! What a hall of two workers gives as it closes.

use crate::pair::{Closed, MOMENT, played};
use nt_control::{ClientMsg, ServerMsg};
use nt_rules::{Batch, Deed, Entry, Msg};
use nt_server::Server;
use nt_values::Value;
use std::test::Fail;

/// Whether the entry is of this worker and connection. Each has the moment of the entry before it, where the one that
/// is handed in is earlier.
fn is_of(entry: &Entry, worker: u32, conn: u32) -> bool {
    entry.worker == worker && entry.conn == conn && entry.now == MOMENT
}

/// Whether a connection of this name was opened.
fn opens(deed: &Deed, name: &str) -> bool {
    match deed {
        Deed::Opened(given) => given.as_str() == name,
        _ => false,
    }
}

/// Whether these are the entries of both workers, in the order of their turns.
fn are_played(entries: &[Entry]) -> bool {
    let [
        robot,
        publishes,
        dash,
        subscribes,
        puts,
        drained,
        shut,
        closed,
    ] = entries
    else {
        return false;
    };
    is_of(robot, 1, 1)
        && opens(&robot.deed, "robot")
        && is_of(publishes, 1, 1)
        && matches!(
            &publishes.deed,
            Deed::Said(Msg::Control(ClientMsg::Publish { .. }))
        )
        && is_of(dash, 2, 2)
        && opens(&dash.deed, "dash")
        && is_of(subscribes, 2, 2)
        && matches!(
            &subscribes.deed,
            Deed::Said(Msg::Control(ClientMsg::Subscribe { .. }))
        )
        && is_of(puts, 1, 1)
        && matches!(&puts.deed, Deed::Said(Msg::Put(_)))
        && is_of(drained, 2, 2)
        && matches!(&drained.deed, Deed::Drained(_))
        && is_of(shut, 2, 0)
        && matches!(&shut.deed, Deed::Shut)
        && is_of(closed, 1, 1)
        && matches!(&closed.deed, Deed::Closed)
}

/// Whether an announce of `/a` and its value 5 were handed.
fn is_handed(batch: &Batch) -> bool {
    let ([ServerMsg::Announce { name, id, .. }], [message]) = (
        batch.texts.as_slice(),
        batch.values.as_slice(),
    ) else {
        return false;
    };
    name.as_str() == "/a"
        && *id == 1
        && message.id == 1
        && message.time == 7
        && matches!(&message.value, Value::Int(5))
}

/// Whether the server holds `/a` with its value 5, and is shut.
fn holds_the_value(server: &Server) -> bool {
    match server.table().topic("/a") {
        Some(topic) => match &topic.value {
            Some(held) => server.is_shut()
                && held.time == 7
                && matches!(&held.value, Value::Int(5)),
            None => false,
        },
        None => false,
    }
}

#[test]
fn two_workers_act_one_after_the_other(rt: HostRuntime) -> Result<(), Fail> {
    let (closed, batch, saved) = played(&rt, rt.alloc())?;
    let Closed {
        server,
        journal,
        recorder,
        failed,
    } = closed;
    assert!(rt; is_handed(&batch) && saved == 1 && !failed);
    assert!(rt; journal.count() == 8);
    assert!(rt; are_played(journal.told().ok_or("no entries")?));
    assert!(rt; holds_the_value(&server));
    let sink = recorder.into_sink();
    assert!(rt; sink.taken().is_empty());
    Ok(())
}
