//! Runs of acts.

use crate::acts::{close, drain, open, publish, put, subscribe, unpublish};
use nt_server::Server;
use std::alloc::{AllocError, Global};

/// How many values are put before each drain.
const RUN: u32 = 64;

/// A server of so many connections. The first ones of them want the topics, and the others only
/// topics that there aren't.
fn connected(alloc: Global, connections: u32, wanting: u32) -> Result<Server, AllocError> {
    let mut server = Server::new(alloc, 0)?;
    for index in 0..connections {
        let conn = open(alloc, &mut server)?;
        let prefix = if index < wanting { "/Smart" } else { "/none" };
        subscribe(alloc, &mut server, conn, prefix)?;
    }
    Ok(server)
}

/// Hands the first connections what they are owed, and says how many values that were.
fn drain_first(alloc: Global, server: &mut Server, wanting: u32) -> Result<u64, AllocError> {
    let mut handed: u64 = 0;
    for index in 0..wanting {
        handed = handed.wrapping_add(drain(alloc, server, index.wrapping_add(1))?);
    }
    Ok(handed)
}

/// So many values are put to a topic, and handed to those who want it.
pub fn puts(alloc: Global, connections: u32, wanting: u32, times: u32) -> Result<u64, AllocError> {
    let mut server = connected(alloc, connections, wanting)?;
    let robot = open(alloc, &mut server)?;
    publish(alloc, &mut server, robot, 1)?;
    let mut handed: u64 = 0;
    for time in 0..times {
        put(alloc, &mut server, robot, 1, time)?;
        if time % RUN == 0 {
            handed = handed.wrapping_add(drain_first(alloc, &mut server, wanting)?);
        }
    }
    Ok(handed)
}

/// A connection opens and closes so often, beside so many others and topics.
pub fn opens(alloc: Global, topics: u32, connections: u32, times: u32) -> Result<u64, AllocError> {
    let mut server = connected(alloc, connections, connections)?;
    let robot = open(alloc, &mut server)?;
    for uid in 0..topics {
        publish(alloc, &mut server, robot, uid)?;
    }
    for _ in 0..times {
        let conn = open(alloc, &mut server)?;
        subscribe(alloc, &mut server, conn, "/Smart")?;
        close(alloc, &mut server, conn)?;
    }
    Ok(server.pending(1))
}

/// So many topics of different names begin and end, one behind the other.
pub fn lives(alloc: Global, times: u32) -> Result<u64, AllocError> {
    let mut server = connected(alloc, 1, 1)?;
    let robot = open(alloc, &mut server)?;
    let mut handed: u64 = 0;
    for uid in 0..times {
        publish(alloc, &mut server, robot, uid)?;
        put(alloc, &mut server, robot, uid, 1)?;
        handed = handed.wrapping_add(drain(alloc, &mut server, 1)?);
        unpublish(alloc, &mut server, robot, uid)?;
    }
    Ok(handed)
}
