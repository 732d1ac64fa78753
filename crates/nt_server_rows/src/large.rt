//! Acts at the limits of one connection.

use crate::rows::{Call, act_of, answer, put};
use nt_server::Server;
use nt_values::{Bytes, Value};
use std::alloc::Global;
use std::test::Fail;

/// Puts one value of 131,072 bytes, and tells the answer.
fn put_one(alloc: Global, server: &mut Server, time: u32) -> Result<String, Fail> {
    let bytes = Bytes::of_vec(vec![in alloc; 0; 131_072]?);
    let act = put(1, 1, time, Value::Bytes(bytes))?;
    Ok(answer(alloc, server, 1, 0, act)?)
}

/// Puts so many values of 131,072 bytes, and tells the last answer.
pub fn put_large(alloc: Global, server: &mut Server, count: u32) -> Result<String, Fail> {
    let mut last = String::new(alloc);
    for time in 0..count {
        last = put_one(alloc, server, time)?;
    }
    Ok(last)
}

/// Subscribes under one uid to a topic that there isn't, and tells the answer.
fn subscribe_one(alloc: Global, server: &mut Server, uid: i64) -> Result<String, Fail> {
    let act = act_of(alloc, &Call::Subscribe(1, uid, "", ""))?;
    Ok(answer(alloc, server, 1, 0, act)?)
}

/// Subscribes under so many uids to a topic that there isn't, and tells the last answer.
pub fn subscribe_all(alloc: Global, server: &mut Server, count: u32) -> Result<String, Fail> {
    let mut last = String::new(alloc);
    for uid in 0..count {
        last = subscribe_one(alloc, server, i64::from(uid))?;
    }
    Ok(last)
}
