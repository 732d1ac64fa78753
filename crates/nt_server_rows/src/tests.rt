//! Runs of acts, and what the server says to each.

use crate::rows::Call::{
    Close, Drain, Open, Permit, Publish, PutDouble, PutInt, PutText, SetProps, Shut, Subscribe,
    Unpublish, Unsubscribe,
};
use crate::rows::Row::{self, Enters, Look, PutsLarge, Step, Subscribes};
use crate::rows::first_other;
use nt_server::Server;
use std::test::Fail;

/// A publisher and a subscriber, on two connections.
const TWO_CONNECTIONS: &[Row] = &[
    Step(1, 0, Open("robot"), "Opened 1 robot"),
    Step(2, 0, Open("dash"), "Opened 2 dash"),
    Step(
        1,
        0,
        Publish(1, 1, "/SmartDashboard/x", "double", "{}"),
        "Done Started 1 /SmartDashboard/x double",
    ),
    Step(
        1,
        0,
        PutDouble(1, 1, 1_000_000, 0x3ff0_0000_0000_0000),
        "Done Changed 1 /SmartDashboard/x 1000000",
    ),
    Look(2, "0 0 None false"),
    Step(2, 0, Subscribe(2, 1, "", "p"), "Done"),
    Look(2, "2 0 None false"),
    Step(
        2,
        0,
        Drain(2, 256),
        r#"Drained [{"method":"announce","params":{"id":1,"name":"/SmartDashboard/x","properties":{},"type":"double"}}] 9401ce000f424001cb3ff0000000000000"#,
    ),
    Step(2, 0, Drain(2, 256), "Drained"),
    Look(2, "0 0 None false"),
];

/// Publishers on two connections that both subscribe. Of equal times the later value is held.
const TWO_PUBLISHERS: &[Row] = &[
    Step(1, 0, Open("a"), "Opened 1 a"),
    Step(2, 0, Open("b"), "Opened 2 b"),
    Step(
        1,
        0,
        Publish(1, 1, "/a", "int", "{}"),
        "Done Started 1 /a int",
    ),
    Step(
        2,
        0,
        Publish(2, 5, "/a", "int", r#"{"retained":true}"#),
        "Done",
    ),
    Step(1, 0, Subscribe(1, 1, "/a", ""), "Done"),
    Step(2, 0, Subscribe(2, 1, "/a", ""), "Done"),
    Step(1, 0, PutInt(1, 1, 10, 1), "Done Changed 1 /a 10"),
    Step(
        1,
        0,
        Drain(1, 256),
        r#"Drained [{"method":"announce","params":{"id":1,"name":"/a","properties":{},"pubuid":1,"type":"int"}}] 94010a0201"#,
    ),
    Step(2, 0, PutInt(2, 5, 10, 2), "Done Changed 1 /a 10"),
    Step(1, 0, PutInt(1, 1, 9, 3), "Older"),
    Step(1, 0, Drain(1, 256), "Drained 94010a0202"),
    Step(
        2,
        0,
        Drain(2, 256),
        r#"Drained [{"method":"announce","params":{"id":1,"name":"/a","properties":{},"pubuid":5,"type":"int"}}] 94010a0202"#,
    ),
    Look(1, "0 0 None false"),
];

/// A topic ends and is published again while a connection that knew it doesn't want it.
const ANOTHER_LIFE: &[Row] = &[
    Step(1, 0, Open("a"), "Opened 1 a"),
    Step(2, 0, Open("b"), "Opened 2 b"),
    Step(
        1,
        0,
        Publish(1, 1, "/a", "int", "{}"),
        "Done Started 1 /a int",
    ),
    Step(2, 0, Subscribe(2, 1, "/a", ""), "Done"),
    Step(
        2,
        0,
        Drain(2, 256),
        r#"Drained [{"method":"announce","params":{"id":1,"name":"/a","properties":{},"type":"int"}}]"#,
    ),
    Step(2, 0, Unsubscribe(2, 1), "Done"),
    Step(1, 0, Unpublish(1, 1), "Done Ended 1 /a"),
    Look(2, "1 64 None false"),
    Step(
        1,
        0,
        Publish(1, 1, "/a", "int", "{}"),
        "Done Started 2 /a int",
    ),
    Step(1, 0, PutInt(1, 1, 10, 7), "Done Changed 2 /a 10"),
    Step(2, 0, Subscribe(2, 1, "/a", ""), "Done"),
    Step(
        2,
        0,
        Drain(2, 256),
        r#"Drained [{"method":"unannounce","params":{"id":1,"name":"/a"}},{"method":"announce","params":{"id":2,"name":"/a","properties":{},"type":"int"}}] 94020a0207"#,
    ),
    // The publish whose topic ended before its answer isn't answered.
    Step(
        1,
        0,
        Drain(1, 256),
        r#"Drained [{"method":"announce","params":{"id":2,"name":"/a","properties":{},"pubuid":1,"type":"int"}}]"#,
    ),
];

/// A publish of a living topic with another type.
const OTHER_TYPE: &[Row] = &[
    Step(1, 0, Open("desk"), "Opened 1 desk"),
    Step(
        1,
        0,
        Publish(1, 1, "/a", "int", "{}"),
        "Done Started 1 /a int",
    ),
    Step(1, 0, Publish(1, 2, "/a", "string", "{}"), "Done"),
    Step(
        1,
        0,
        Drain(1, 256),
        r#"Drained [{"method":"announce","params":{"id":1,"name":"/a","properties":{},"pubuid":1,"type":"int"}},{"method":"announce","params":{"id":1,"name":"/a","properties":{},"pubuid":2,"type":"int"}}]"#,
    ),
    Step(1, 0, PutText(1, 2, 10, "x"), "OtherType"),
    Step(1, 0, PutInt(1, 2, 10, 1), "OtherType"),
    Step(1, 0, PutText(1, 1, 10, "x"), "OtherType"),
    Step(1, 0, PutInt(1, 1, 10, 7), "Done Changed 1 /a 10"),
    // It is the wrong type before it is too old.
    Step(1, 0, PutText(1, 1, 9, "x"), "OtherType"),
];

/// The end of a connection: its topics end in order of id, and its subscriptions are gone.
const A_CLOSE: &[Row] = &[
    Step(1, 0, Open("a"), "Opened 1 a"),
    Step(2, 0, Open("b"), "Opened 2 b"),
    Step(
        1,
        0,
        Publish(1, 1, "/z", "int", "{}"),
        "Done Started 1 /z int",
    ),
    Step(
        1,
        0,
        Publish(1, 2, "/b", "int", r#"{"retained":true}"#),
        "Done Started 2 /b int",
    ),
    Step(
        1,
        0,
        Publish(1, 3, "/a", "int", "{}"),
        "Done Started 3 /a int",
    ),
    Step(
        1,
        0,
        Publish(1, 4, "/c", "int", "{}"),
        "Done Started 4 /c int",
    ),
    Step(2, 0, Publish(2, 4, "/c", "int", "{}"), "Done"),
    Step(1, 0, PutInt(1, 2, 10, 8), "Done Changed 2 /b 10"),
    Step(1, 0, Subscribe(1, 1, "/b", ""), "Done"),
    Step(2, 0, Subscribe(2, 1, "$sub$/b", ""), "Done"),
    Step(
        2,
        3,
        Drain(2, 1),
        r#"Drained [{"method":"announce","params":{"id":4,"name":"/c","properties":{},"pubuid":4,"type":"int"}}]"#,
    ),
    // One of client `a` with subuid 1 and no options.
    Step(
        2,
        3,
        Drain(2, 256),
        r#"Drained [{"method":"announce","params":{"id":805306370,"name":"$sub$/b","properties":{},"type":"msgpack"}}] 94ce300000020305c41c9183a6636c69656e74a161a673756275696401a76f7074696f6e7380"#,
    ),
    Step(1, 0, Close(1), "Closed Ended 1 /z Ended 3 /a"),
    Step(2, 4, Drain(2, 256), "Drained 94ce300000020405c40190"),
    Step(1, 0, Close(1), "NoConn"),
    Step(1, 0, Drain(1, 256), "NoConn"),
    Step(1, 0, Publish(1, 9, "/a", "int", "{}"), "NoConn"),
    Look(1, "0 0 None false"),
    Step(2, 0, Subscribe(2, 2, "", "p"), "Done"),
    // What lives on, with its value; and `$sub$/b` tells of this subscription.
    Step(
        2,
        5,
        Drain(2, 256),
        r#"Drained [{"method":"announce","params":{"id":2,"name":"/b","properties":{"retained":true},"type":"int"}}] 94020a020894ce300000020505c4249183a6636c69656e74a162a673756275696402a76f7074696f6e7381a6707265666978c3"#,
    ),
];

/// Names that no open connection has, under numbers that aren't used again.
const NAMES: &[Row] = &[
    Step(1, 0, Open("dash"), "Opened 1 dash"),
    Step(1, 0, Open("dash"), "Opened 2 dash@1"),
    Step(1, 0, Open("dash@1"), "Opened 3 dash@1@1"),
    Step(7, 0, Open("dash"), "Opened 4 dash@2"),
    Step(1, 0, Close(2), "Closed"),
    Step(1, 0, Close(4), "NoConn"),
    Step(1, 0, Open("dash"), "Opened 5 dash@1"),
    Step(7, 0, Close(4), "Closed"),
    Step(1, 0, Close(1), "Closed"),
    Step(1, 0, Open("dash"), "Opened 6 dash"),
];

/// Of the causes that hold, the first refuses.
const CAUSES: &[Row] = &[
    Step(1, 0, Publish(1, 7, "/a", "int", "{}"), "NoConn"),
    Step(1, 0, Open("a"), "Opened 1 a"),
    Step(
        1,
        0,
        Publish(1, 7, "/a", "int", "{}"),
        "Done Started 1 /a int",
    ),
    Step(1, 0, Publish(1, 7, "/b", "int", "{}"), "UidInUse"),
    Step(1, 0, Publish(1, 7, "$b", "int", "{}"), "Special"),
    Step(2, 0, Publish(1, 7, "$b", "int", "{}"), "NoConn"),
    Step(1, 0, SetProps(1, "/b", "{}"), "NoTopic"),
    Step(1, 0, SetProps(1, "$clients", "{}"), "NoTopic"),
    Step(2, 0, SetProps(1, "/b", "{}"), "NoConn"),
    Step(1, 0, PutInt(1, 7, 10, 1), "Done Changed 1 /a 10"),
    Step(1, 0, PutInt(1, 7, 9, 1), "Older"),
    Step(1, 0, PutText(1, 7, 9, "x"), "OtherType"),
    Step(1, 0, PutText(1, 8, 9, "x"), "NoSuchUid"),
    Step(2, 0, PutText(1, 8, 9, "x"), "NoConn"),
    Step(1, 0, Unpublish(1, 8), "NoSuchUid"),
    Step(2, 0, Unpublish(1, 7), "NoConn"),
    Step(1, 0, Unsubscribe(1, 7), "NoSuchUid"),
    Step(2, 0, Unsubscribe(1, 7), "NoConn"),
    Step(2, 0, Subscribe(1, 7, "", ""), "NoConn"),
    Step(2, 0, Drain(1, 256), "NoConn"),
    Step(2, 0, Close(1), "NoConn"),
    Step(1, 0, Unpublish(1, 7), "Done Ended 1 /a"),
    Step(1, 0, PutInt(1, 7, 10, 1), "NoSuchUid"),
];

/// Properties: the sender is answered with `ack`, and who knows the topic is told.
const PROPERTIES: &[Row] = &[
    Step(1, 0, Open("a"), "Opened 1 a"),
    Step(2, 0, Open("b"), "Opened 2 b"),
    Step(
        1,
        0,
        Publish(1, 1, "/a", "int", "{}"),
        "Done Started 1 /a int",
    ),
    Step(2, 0, Subscribe(2, 1, "/a", "t"), "Done"),
    Step(
        1,
        0,
        Drain(1, 256),
        r#"Drained [{"method":"announce","params":{"id":1,"name":"/a","properties":{},"pubuid":1,"type":"int"}}]"#,
    ),
    // The second connection isn't told of it, since the topic wasn't announced to it before.
    Step(
        1,
        0,
        SetProps(1, "/a", r#"{"retained":true,"x":0.5}"#),
        "Done Props 1 /a",
    ),
    Look(1, "1 81 None false"),
    Step(
        1,
        0,
        Drain(1, 256),
        r#"Drained [{"method":"properties","params":{"ack":true,"name":"/a","update":{"retained":true}}}]"#,
    ),
    Step(
        2,
        0,
        Drain(2, 256),
        r#"Drained [{"method":"announce","params":{"id":1,"name":"/a","properties":{"retained":true},"type":"int"}}]"#,
    ),
    Step(1, 0, SetProps(1, "/a", "{}"), "Done Props 1 /a"),
    Look(2, "1 66 None false"),
    Step(
        2,
        0,
        Drain(2, 256),
        r#"Drained [{"method":"properties","params":{"name":"/a","update":{}}}]"#,
    ),
    Step(1, 0, Unpublish(1, 1), "Done"),
    Step(
        2,
        0,
        SetProps(2, "/a", r#"{"retained":null}"#),
        "Done Props 1 /a Ended 1 /a",
    ),
    // What was owed of the topic's life has gone with it.
    Step(
        1,
        0,
        Drain(1, 256),
        r#"Drained [{"method":"unannounce","params":{"id":1,"name":"/a"}}]"#,
    ),
    Step(
        2,
        0,
        Drain(2, 256),
        r#"Drained [{"method":"unannounce","params":{"id":1,"name":"/a"}}]"#,
    ),
    Step(1, 0, SetProps(1, "/a", "{}"), "NoTopic"),
];

/// What is owed comes in order, whatever the budgets: all values by place, then the newest by id.
const ORDER: &[Row] = &[
    Step(1, 0, Open("a"), "Opened 1 a"),
    Step(2, 0, Open("b"), "Opened 2 b"),
    Step(
        1,
        0,
        Publish(1, 1, "/a", "int", "{}"),
        "Done Started 1 /a int",
    ),
    Step(
        1,
        0,
        Publish(1, 2, "/b", "int", "{}"),
        "Done Started 2 /b int",
    ),
    Step(2, 0, Subscribe(2, 1, "/b", "a"), "Done"),
    Step(2, 0, Subscribe(2, 2, "/a", ""), "Done"),
    Step(1, 0, PutInt(1, 1, 10, 1), "Done Changed 1 /a 10"),
    Step(1, 0, PutInt(1, 2, 10, 2), "Done Changed 2 /b 10"),
    Step(1, 0, PutInt(1, 1, 11, 3), "Done Changed 1 /a 11"),
    Step(1, 0, PutInt(1, 2, 10, 4), "Done Changed 2 /b 10"),
    Look(2, "5 144 None false"),
    Step(
        2,
        0,
        Drain(2, 1),
        r#"Drained [{"method":"announce","params":{"id":1,"name":"/a","properties":{},"type":"int"}}]"#,
    ),
    Step(
        2,
        0,
        Drain(2, 2),
        r#"Drained [{"method":"announce","params":{"id":2,"name":"/b","properties":{},"type":"int"}}] 94020a0202"#,
    ),
    Look(2, "2 72 None false"),
    Step(2, 0, Drain(2, 2), "Drained 94020a020494010b0203"),
    Look(2, "0 0 None false"),
    // A greater wish hands nothing again, and a lesser one drops what waits.
    Step(2, 0, Subscribe(2, 2, "/a", "a"), "Done"),
    Step(2, 0, Subscribe(2, 1, "/b", "at"), "Done"),
    Step(1, 0, PutInt(1, 1, 11, 5), "Done Changed 1 /a 11"),
    Step(1, 0, PutInt(1, 2, 11, 6), "Done Changed 2 /b 11"),
    Step(1, 0, PutInt(1, 1, 11, 7), "Done Changed 1 /a 11"),
    Look(2, "2 144 None false"),
    Step(2, 0, Subscribe(2, 2, "/a", ""), "Done"),
    Look(2, "1 0 None false"),
    Step(2, 0, Drain(2, 256), "Drained 94010b0207"),
];

/// The values of meta topics, each with the moment of the drain as its time.
const META: &[Row] = &[
    Step(1, 0, Open("dash"), "Opened 1 dash"),
    Step(
        1,
        0,
        Publish(1, 1, "/a", "int", "{}"),
        "Done Started 1 /a int",
    ),
    Step(
        1,
        0,
        Drain(1, 1),
        r#"Drained [{"method":"announce","params":{"id":1,"name":"/a","properties":{},"pubuid":1,"type":"int"}}]"#,
    ),
    Step(1, 0, Subscribe(1, 1, "$clients", ""), "Done"),
    Step(1, 0, Subscribe(1, 2, "$client_pub$dash", "a"), "Done"),
    Step(1, 0, Subscribe(1, 3, "$pub$/a", ""), "Done"),
    Look(1, "6 0 None false"),
    Step(
        1,
        7,
        Drain(1, 3),
        r#"Drained [{"method":"announce","params":{"id":536870913,"name":"$pub$/a","properties":{},"type":"msgpack"}},{"method":"announce","params":{"id":1073741825,"name":"$client_pub$dash","properties":{},"type":"msgpack"}},{"method":"announce","params":{"id":1610612737,"name":"$clients","properties":{},"type":"msgpack"}}]"#,
    ),
    Step(
        1,
        8,
        Drain(1, 256),
        "Drained 94ce200000010805c4169182a6636c69656e74a464617368a670756275696401\
         94ce400000010805c4109182a375696401a5746f706963a22f61\
         94ce600000010805c4119182a26964a464617368a4636f6e6ea131",
    ),
    Step(1, 8, PutInt(1, 1, 10, 1), "Done Changed 1 /a 10"),
    Look(1, "0 0 None false"),
    Step(2, 8, Open("b"), "Opened 2 b"),
    Step(
        1,
        9,
        Drain(1, 256),
        "Drained 94ce600000010905c41e9282a26964a464617368a4636f6e6ea13182a26964a162a4636f6e6ea132",
    ),
    // The topic ends, and its meta topics with it.
    Step(1, 9, Unpublish(1, 1), "Done Ended 1 /a"),
    Step(
        1,
        9,
        Drain(1, 256),
        r#"Drained [{"method":"unannounce","params":{"id":1,"name":"/a"}},{"method":"unannounce","params":{"id":536870913,"name":"$pub$/a"}}] 94ce400000010905c40190"#,
    ),
    Step(2, 9, Subscribe(2, 1, "", "pt"), "Done"),
    Look(2, "0 0 None false"),
    Step(2, 9, Subscribe(2, 1, "$", "pt"), "Done"),
    Look(2, "7 0 None false"),
];

/// Permits stop at their number.
const PERMITS: &[Row] = &[
    Step(1, 0, Permit, "Permitted"),
    Step(2, 0, Permit, "Permitted"),
    Step(1, 0, Permit, "NoPermit"),
    Step(1, 0, Shut, "Shut"),
    Step(1, 0, Permit, "NoPermit"),
];

/// No permit is granted by a server that is shut; all else goes on.
const SHUT: &[Row] = &[
    Step(1, 0, Permit, "Permitted"),
    Step(1, 0, Open("a"), "Opened 1 a"),
    Look(1, "0 0 None false"),
    Step(1, 0, Shut, "Shut"),
    Look(1, "0 0 None true"),
    Step(1, 0, Permit, "NoPermit"),
    Step(1, 0, Open("b"), "Opened 2 b"),
    Step(
        1,
        0,
        Publish(1, 1, "/a", "int", "{}"),
        "Done Started 1 /a int",
    ),
    Step(1, 0, Shut, "Shut"),
    Look(1, "1 64 None true"),
];

/// Each act makes one entry, also one that is ignored, at a moment that isn't before the last.
const ENTRIES: &[Row] = &[
    Enters(3, 5, Open("dash"), "3 1 5 Opened dash"),
    Enters(3, 4, Publish(1, 1, "/a", "int", "{}"), "3 1 5 Said"),
    Enters(2, 9, Publish(1, 1, "/a", "int", "{}"), "2 1 9 Said"),
    Enters(3, 0, PutInt(1, 1, 10, 1), "3 1 9 Said 1 10"),
    Enters(3, 0, PutInt(1, 1, 9, 1), "3 1 9 Said 1 9"),
    Enters(2, 8, Drain(1, 5), "2 1 9 Drained"),
    Enters(
        3,
        9,
        Drain(1, 5),
        r#"3 1 9 Drained [{"method":"announce","params":{"id":1,"name":"/a","properties":{},"pubuid":1,"type":"int"}}]"#,
    ),
    Enters(2, 10, Close(1), "2 1 10 Closed"),
    Enters(3, 10, Close(1), "3 1 10 Closed"),
    Enters(3, 10, Close(1), "3 1 10 Closed"),
    Enters(4, 11, Permit, "4 0 11 Permitted"),
    Enters(4, 0, Permit, "4 0 11 NoPermit"),
    Enters(4, 12, Shut, "4 0 12 Shut"),
    Enters(4, 11, Open("dash"), "4 2 12 Opened dash"),
];

/// A connection to which all values of a topic are owed, and that isn't drained.
const BEHIND: &[Row] = &[
    Step(1, 0, Open("a"), "Opened 1 a"),
    Step(
        1,
        0,
        Publish(1, 1, "/a", "raw", "{}"),
        "Done Started 1 /a raw",
    ),
    Step(1, 0, Subscribe(1, 1, "/a", "a"), "Done"),
    Step(
        1,
        0,
        Drain(1, 256),
        r#"Drained [{"method":"announce","params":{"id":1,"name":"/a","properties":{},"pubuid":1,"type":"raw"}}]"#,
    ),
    PutsLarge(63, "Done Changed 1 /a 62"),
    Look(1, "63 8261568 None false"),
    PutsLarge(64, "Done Changed 1 /a 63"),
    Look(1, "0 0 Some(8392704) false"),
    Step(1, 0, Drain(1, 256), "Behind"),
    // It is still heard.
    Step(1, 0, Unpublish(1, 1), "Done Ended 1 /a"),
    Look(1, "0 0 Some(8392704) false"),
    Step(1, 0, Close(1), "Closed"),
    Look(1, "0 0 None false"),
];

/// A connection has 1,024 subscriptions.
const SUBSCRIPTIONS: &[Row] = &[
    Step(1, 0, Open("a"), "Opened 1 a"),
    Subscribes(1_023, "Done"),
    Step(1, 0, Subscribe(1, -7, "", ""), "Done"),
    Step(1, 0, Subscribe(1, 1_024, "", ""), "TooMany"),
    Step(1, 0, Subscribe(1, 5, "/b", "p"), "Done"),
    Step(1, 0, Unsubscribe(1, 9), "Done"),
    Step(1, 0, Subscribe(1, 1_024, "", ""), "Done"),
];

#[test]
fn acts_are_answered(rt: HostRuntime) -> Result<(), Fail> {
    let alloc = rt.alloc();
    let runs: [(&str, u32, &[Row]); 15] = [
        (
            "a_subscriber_is_told_the_topic_and_its_value",
            0,
            TWO_CONNECTIONS,
        ),
        ("of_equal_times_the_later_value_is_held", 0, TWO_PUBLISHERS),
        ("one_drain_tells_an_end_and_the_next_life", 0, ANOTHER_LIFE),
        ("a_living_topic_keeps_its_type", 0, OTHER_TYPE),
        ("a_close_takes_publishers_and_subscriptions", 0, A_CLOSE),
        ("names_are_those_that_no_open_connection_has", 0, NAMES),
        ("the_first_cause_refuses", 0, CAUSES),
        ("properties_are_told_to_who_knows_the_topic", 0, PROPERTIES),
        ("what_is_owed_comes_in_order", 0, ORDER),
        ("meta_topics_tell_clients_and_publishers", 0, META),
        ("permits_stop_at_their_number_and_at_shut", 2, PERMITS),
        ("permits_stop_at_their_number_and_at_shut", 2, SHUT),
        ("each_act_makes_an_entry", 1, ENTRIES),
        ("a_connection_falls_behind", 0, BEHIND),
        ("a_connection_has_1024_subscriptions", 0, SUBSCRIPTIONS),
    ];
    for (name, permits, rows) in &runs {
        let other = first_other(alloc, Server::new(alloc, *permits)?, rows)?;
        assert_eq!(rt; other.as_str(), "", "{name}");
    }
    Ok(())
}
