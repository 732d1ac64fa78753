//! Topics that are saved, and a server that begins with them.

use crate::rows::Call::{Close, Drain, Open, Permit, Publish, PutInt, SetProps, Subscribe};
use crate::rows::Row::{self, Holds, Saves, Step};
use crate::rows::first_other;
use crate::saved::restored;
use nt_server::Server;
use std::test::Fail;

/// A server that begins with one topic.
const RESTORED: &[Row] = &[
    Holds("/a", "1 0 5"),
    Saves("/a int 19 true 5;"),
    Step(1, 0, Permit, "Permitted"),
    Step(1, 0, Permit, "NoPermit"),
    Step(1, 0, Open("a"), "Opened 1 a"),
    Step(1, 0, Subscribe(1, 1, "", "p"), "Done"),
    Step(
        1,
        0,
        Drain(1, 256),
        r#"Drained [{"method":"announce","params":{"id":1,"name":"/a","properties":{"persistent":true},"type":"int"}}] 9401000205"#,
    ),
    Step(
        1,
        0,
        Publish(1, 1, "/b", "int", "{}"),
        "Done Started 2 /b int",
    ),
];

/// Topics that are persistent, and others.
const PERSISTENT: &[Row] = &[
    Step(1, 0, Open("a"), "Opened 1 a"),
    Step(
        1,
        0,
        Publish(1, 1, "/b", "int", r#"{"persistent":true}"#),
        "Done Started 1 /b int",
    ),
    Step(
        1,
        0,
        Publish(1, 2, "/a", "int", r#"{"retained":true}"#),
        "Done Started 2 /a int",
    ),
    Step(
        1,
        0,
        Publish(1, 3, "/B", "int", r#"{"persistent":true,"x":1}"#),
        "Done Started 3 /B int",
    ),
    Step(
        1,
        0,
        Publish(1, 4, "/bb", "double", "{}"),
        "Done Started 4 /bb double",
    ),
    Step(1, 0, PutInt(1, 1, 20, 7), "Done Changed 1 /b 20"),
    Step(1, 0, PutInt(1, 1, 10, 8), "Older"),
    Step(
        1,
        0,
        SetProps(1, "/bb", r#"{"persistent":true}"#),
        "Done Props 4 /bb",
    ),
    Step(1, 0, Close(1), "Closed"),
    Saves("/B int 25 true none;/b int 19 true 7;/bb double 19 true none;"),
];

#[test]
fn topics_are_saved(rt: HostRuntime) -> Result<(), Fail> {
    let alloc = rt.alloc();
    let server = restored(alloc, "/a", r#"{"persistent":true}"#, Some(5))?;
    let other = first_other(alloc, server, RESTORED)?;
    assert_eq!(rt; other.as_str(), "", "a_server_begins_with_saved_topics");
    let other = first_other(alloc, Server::new(alloc, 0)?, PERSISTENT)?;
    assert_eq!(rt; other.as_str(), "", "persistent_topics_are_saved_by_name");
    Ok(())
}
