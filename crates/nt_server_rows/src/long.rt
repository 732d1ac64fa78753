//! A million values, each handed to a subscriber as soon as it was put.

use crate::rows::{Call, act_of, answer, put};
use nt_rules::{Act, StepOut};
use nt_server::Server;
use nt_values::Value;
use std::alloc::Global;
use std::test::Fail;

/// How many values are put.
const PUTS: u32 = 1_000_000;

/// Connection 1 publishes the topic, and connection 2 subscribes to it.
const BEGINNING: [Call; 4] = [
    Call::Open("robot"),
    Call::Open("dash"),
    Call::Publish(1, 1, "/a", "int", "{}"),
    Call::Subscribe(2, 1, "/a", ""),
];

/// What the subscriber is owed: how many messages, and their weight.
fn owed(server: &Server) -> (u64, u64) {
    (server.pending(2), server.queued(2))
}

/// One value is put, and it alone is handed, the first one behind the announce of its topic.
fn put_and_drain(alloc: Global, server: &mut Server, i: u32) -> Result<(), Fail> {
    let said = put(1, 1, i, Value::Int(i64::from(i)))?;
    drop(server.step(alloc, 1, 0, said)?);
    let (messages, announces) = if i == 1 { (2, 1) } else { (1, 0) };
    if owed(server) != (messages, 0) {
        return Err(Fail::from("another number is owed"));
    }
    let stepped = server.step(
        alloc,
        1,
        0,
        Act::Drain {
            conn: 2,
            budget: 256,
        },
    )?;
    let StepOut::Drained(batch) = &stepped.out else {
        return Err(Fail::from("nothing was handed"));
    };
    let [value] = batch.values.as_slice() else {
        return Err(Fail::from("not one value"));
    };
    let is_it = matches!(value.value, Value::Int(number) if number == i64::from(i));
    if !is_it || value.id != 1 || value.time != u64::from(i) {
        return Err(Fail::from("another value"));
    }
    if batch.texts.as_slice().len() != announces {
        return Err(Fail::from("not one announce at first"));
    }
    drop(stepped);
    if owed(server) != (0, 0) {
        return Err(Fail::from("something is still owed"));
    }
    Ok(())
}

#[test]
fn a_million_values_are_handed_one_by_one(rt: HostRuntime) -> Result<(), Fail> {
    let alloc = rt.alloc();
    let mut server = Server::new(alloc, 1)?;
    for call in &BEGINNING {
        let act = act_of(alloc, call)?;
        drop(answer(alloc, &mut server, 1, 0, act)?);
    }
    for i in 1..=PUTS {
        put_and_drain(alloc, &mut server, i)?;
    }
    Ok(())
}
