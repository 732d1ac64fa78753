//! Runs of calls, and what a client answers to each.

use crate::rows::Call::{
    Binary, Held, Joined, Lost, Outgoing, Publish, SetInt, SetText, Subscribe, Text, Unpublish,
    Unsubscribe,
};
use crate::rows::{Row, first_other, takes};
use nt_client::{Client, ClockSync};
use nt_link::Frame;
use nt_values::{Bytes, Text as Content};
use std::alloc::{AllocError, Global};
use std::test::Fail;

/// An announce, its value, and what is no message of a topic that is held.
const TOLD: &[Row] = &[
    Row(
        Text(
            r#"[{"method":"announce","params":{"id":1,"name":"/SmartDashboard/x","properties":{},"type":"double"}}]"#,
        ),
        "Started 1 /SmartDashboard/x double {};0",
    ),
    Row(
        Binary(&[
            0x94, 0x01, 0xce, 0x00, 0x0f, 0x42, 0x40, 0x01, 0xcb, 0x3f, 0xf0, 0, 0, 0, 0, 0, 0,
        ]),
        "Changed 1 /SmartDashboard/x 1000000 3ff0000000000000;0",
    ),
    Row(
        Held,
        "1 /SmartDashboard/x double {} 1000000 3ff0000000000000;",
    ),
    Row(Binary(&[0x94, 0x09, 0x0a, 0x02, 0x07]), "1"),
    Row(Text("{"), "1"),
    Row(
        Held,
        "1 /SmartDashboard/x double {} 1000000 3ff0000000000000;",
    ),
];

/// A connection is lost, and there is another.
const REJOINED: &[Row] = &[
    Row(Subscribe(1, "/", "p"), "Done"),
    Row(Publish(1, "/a", "int", "{}"), "Done"),
    Row(SetInt(1, 10, 7), "Done"),
    Row(Lost, "Done"),
    Row(Outgoing, ""),
    Row(Joined, "Done"),
    Row(
        Outgoing,
        r#"[{"method":"subscribe","params":{"options":{"prefix":true},"subuid":1,"topics":["/"]}},{"method":"publish","params":{"name":"/a","properties":{},"pubuid":1,"type":"int"}}]
94010a0207
"#,
    ),
    Row(Outgoing, ""),
];

/// What is refused changes nothing.
const REFUSED: &[Row] = &[
    Row(Publish(1, "/a", "int", "{}"), "Done"),
    Row(Publish(1, "/b", "int", "{}"), "UidInUse"),
    Row(Unpublish(5), "NoSuchUid"),
    Row(Unsubscribe(5), "NoSuchUid"),
    Row(SetText(1, 0, "x"), "WrongType"),
    Row(SetInt(5, 0, 1), "NoSuchUid"),
    Row(
        Outgoing,
        r#"[{"method":"publish","params":{"name":"/a","properties":{},"pubuid":1,"type":"int"}}]
"#,
    ),
];

/// Messages of one kind go in one frame, in the order in which they were said.
const RUNS: &[Row] = &[
    Row(Publish(1, "/a", "int", "{}"), "Done"),
    Row(Publish(-2, "/b", "string", r#"{"retained":true}"#), "Done"),
    Row(SetInt(1, 10, 7), "Done"),
    Row(SetText(-2, 11, "x"), "Done"),
    Row(Subscribe(3, "", "pa"), "Done"),
    Row(Unpublish(1), "Done"),
    Row(SetText(-2, 12, "y"), "Done"),
    Row(
        Outgoing,
        r#"[{"method":"publish","params":{"name":"/a","properties":{},"pubuid":1,"type":"int"}},{"method":"publish","params":{"name":"/b","properties":{"retained":true},"pubuid":-2,"type":"string"}}]
94010a020794fe0b04a178
[{"method":"subscribe","params":{"options":{"all":true,"prefix":true},"subuid":3,"topics":[""]}},{"method":"unpublish","params":{"pubuid":1}}]
94fe0c04a179
"#,
    ),
    Row(Unsubscribe(3), "Done"),
    Row(
        Outgoing,
        r#"[{"method":"unsubscribe","params":{"subuid":3}}]
"#,
    ),
];

/// On a new connection all is said by uid: of values the last ones, of publishers that are cached.
const SAID_ANEW: &[Row] = &[
    Row(Publish(4, "/d", "int", r#"{"cached":false}"#), "Done"),
    Row(Publish(3, "/c", "int", "{}"), "Done"),
    Row(Publish(2, "/b", "int", "{}"), "Done"),
    Row(Publish(1, "/a", "int", r#"{"cached":true}"#), "Done"),
    Row(Subscribe(2, "/b", "t"), "Done"),
    Row(Subscribe(1, "/x", ""), "Done"),
    Row(Subscribe(1, "/a", ""), "Done"),
    Row(SetInt(4, 1, 4), "Done"),
    Row(SetInt(3, 2, 3), "Done"),
    Row(SetInt(2, 3, 2), "Done"),
    Row(SetInt(2, 1, 5), "Done"),
    Row(SetInt(1, 4, 1), "Done"),
    Row(Unpublish(3), "Done"),
    Row(Publish(3, "/c", "int", "{}"), "Done"),
    Row(Lost, "Done"),
    Row(Joined, "Done"),
    Row(
        Outgoing,
        r#"[{"method":"subscribe","params":{"options":{},"subuid":1,"topics":["/a"]}},{"method":"subscribe","params":{"options":{"topicsonly":true},"subuid":2,"topics":["/b"]}},{"method":"publish","params":{"name":"/a","properties":{"cached":true},"pubuid":1,"type":"int"}},{"method":"publish","params":{"name":"/b","properties":{},"pubuid":2,"type":"int"}},{"method":"publish","params":{"name":"/c","properties":{},"pubuid":3,"type":"int"}},{"method":"publish","params":{"name":"/d","properties":{"cached":false},"pubuid":4,"type":"int"}}]
94010402019402010205
"#,
    ),
];

/// A topic that isn't cached has no value.
const UNCACHED: &[Row] = &[
    Row(
        Text(
            r#"[{"method":"announce","params":{"id":1,"name":"/u","properties":{"cached":false},"type":"int"}}]"#,
        ),
        r#"Started 1 /u int {"cached":false};0"#,
    ),
    Row(
        Binary(&[0x94, 1, 0x14, 2, 7, 0x94, 1, 0x0a, 2, 8]),
        "Changed 1 /u 20 7;Changed 1 /u 10 8;0",
    ),
    Row(Held, r#"1 /u int {"cached":false};"#),
];

/// A topic that is uncached for a while loses its value.
const TURNED: &[Row] = &[
    Row(
        Text(
            r#"[{"method":"announce","params":{"id":1,"name":"/a","properties":{},"type":"int"}}]"#,
        ),
        "Started 1 /a int {};0",
    ),
    Row(Binary(&[0x94, 1, 0x14, 2, 7]), "Changed 1 /a 20 7;0"),
    Row(
        Text(
            r#"[{"method":"properties","params":{"name":"/a","update":{"cached":false}}},{"method":"properties","params":{"name":"/a","update":{"cached":null}}}]"#,
        ),
        r#"Props 1 /a {"cached":false};Props 1 /a {"cached":null};0"#,
    ),
    Row(Held, "1 /a int {};"),
    Row(Binary(&[0x94, 1, 0x0a, 2, 8]), "Changed 1 /a 10 8;0"),
    Row(Held, "1 /a int {} 10 8;"),
    Row(
        Text(
            r#"[{"method":"announce","params":{"id":1,"name":"/a","properties":{"cached":false},"type":"int"}}]"#,
        ),
        "0",
    ),
    Row(Held, r#"1 /a int {"cached":false};"#),
];

/// An announce tells the properties as they are, and the updates that follow come to the same.
const UPDATED: &[Row] = &[
    Row(
        Text(
            r#"[{"method":"announce","params":{"id":1,"name":"/a","properties":{"x":2},"pubuid":1,"type":"int"}},{"method":"properties","params":{"ack":true,"name":"/a","update":{"x":1}}},{"method":"properties","params":{"name":"/a","update":{"x":2}}}]"#,
        ),
        r#"Started 1 /a int {"x":2};Props 1 /a {"x":1};Props 1 /a {"x":2};0"#,
    ),
    Row(Held, r#"1 /a int {"x":2};"#),
];

/// A server lies about what it announced.
const LIES: &[Row] = &[
    // Nothing is held under these ids and names.
    Row(
        Text(
            r#"[{"method":"unannounce","params":{"id":5,"name":"/a"}},{"method":"properties","params":{"name":"/a","update":{}}},{"method":"announce","params":{"id":9223372036854775808,"name":"/a","type":"int"}},7]"#,
        ),
        "4",
    ),
    Row(
        Binary(&[0x94, 5, 1, 2, 7, 0x94, 0, 1, 2, 7, 0x94, 0xfe, 1, 2, 7]),
        "3",
    ),
    Row(Binary(&[0x94, 0xff, 1, 2, 7]), "Clock 1 7;0"),
    // A second announce of an id changes neither name nor type, and keeps the value.
    Row(
        Text(
            r#"[{"method":"announce","params":{"id":5,"name":"/a","type":"int"}},{"method":"announce","params":{"id":5,"name":"/a","type":"int"}}]"#,
        ),
        "Started 5 /a int {};0",
    ),
    Row(Binary(&[0x94, 5, 0x0a, 2, 7]), "Changed 5 /a 10 7;0"),
    Row(
        Text(
            r#"[{"method":"announce","params":{"id":5,"name":"/b","type":"string","properties":{"x":1}}},{"method":"properties","params":{"name":"/b","update":{"x":2}}}]"#,
        ),
        "1",
    ),
    Row(Held, r#"5 /a int {"x":1} 10 7;"#),
    // A value of another type, and an earlier one, are taken as they come.
    Row(
        Binary(&[0x94, 5, 1, 4, 0xa1, 0x78, 0x94, 5, 1, 4, 0xa1, 0x78]),
        "Changed 5 /a 1 x;Changed 5 /a 1 x;0",
    ),
    Row(Held, r#"5 /a int {"x":1} 1 x;"#),
    // Ids stand at the ends of their range, and come in no order.
    Row(
        Text(
            r#"[{"method":"announce","params":{"id":9223372036854775807,"name":"/z","type":"int"}},{"method":"announce","params":{"id":-9223372036854775808,"name":"","type":"int"}},{"method":"announce","params":{"id":-1,"name":"$clock","type":"int"}}]"#,
        ),
        "Started 9223372036854775807 /z int {};Started -9223372036854775808  int {};Started -1 $clock int {};0",
    ),
    // What comes with id -1 is the clock's answer, and a value too where that id is held.
    Row(
        Binary(&[
            0x94, 0xff, 0x0a, 2, 7, 0x94, 0xd3, 0x80, 0, 0, 0, 0, 0, 0, 0, 9, 2, 8, 0x94, 0xff,
            0x0b, 2, 9,
        ]),
        "Changed -1 $clock 10 7;Changed -9223372036854775808  9 8;Changed -1 $clock 11 9;Clock 10 7;Clock 11 9;0",
    ),
    Row(
        Held,
        r#"-9223372036854775808  int {} 9 8;-1 $clock int {} 11 9;5 /a int {"x":1} 1 x;9223372036854775807 /z int {};"#,
    ),
    // An end tells the name that is held.
    Row(
        Text(
            r#"[{"method":"unannounce","params":{"id":9223372036854775807,"name":"/other"}},{"method":"unannounce","params":{"id":9223372036854775807,"name":"/z"}}]"#,
        ),
        "Ended 9223372036854775807 /z;1",
    ),
];

/// What is no message stands beside what is one, and ids stand past every range.
const BESIDE: &[Row] = &[
    Row(
        Text(
            r#"[{"method":"announce","params":{"id":7,"name":"/g","type":"int"}},{"method":"announce","params":{"id":8,"name":"/n"}},{"method":"announce","params":{"id":8,"name":"/n","type":""}},{"method":"announce","params":{"id":8.0,"name":"/n","type":"int"}},{"method":"properties","params":{"name":"/g","update":{"x":1}}},{"method":"announce","params":{"id":-9223372036854775809,"name":"/n","type":"int"}},{"method":"announce","params":{"id":18446744073709551616,"name":"/n","type":"int"}},{"method":"unannounce","params":{"id":18446744073709551616,"name":"/g"}},{"method":"properties","params":{"name":"/g","update":7}},{"method":"properties","params":{"name":"/g","update":{"x":2}}}]"#,
        ),
        r#"Started 7 /g int {};Props 7 /g {"x":1};Props 7 /g {"x":2};7"#,
    ),
    Row(Text("{}"), "1"),
    Row(Text("7"), "1"),
    Row(Text(""), "1"),
    Row(
        Binary(&[
            0x94, 7, 0x0a, 2, 7, 0x94, 8, 0x0a, 2, 8, 0x94, 0xff, 0x0a, 2, 9, 0x94, 7, 0x0b, 2, 10,
        ]),
        "Changed 7 /g 10 7;Changed 7 /g 11 10;Clock 10 9;1",
    ),
    Row(Held, r#"7 /g int {"x":2} 11 10;"#),
];

/// Properties nest, and hold what is none.
const NESTED: &[Row] = &[
    Row(
        Text(
            r#"[{"method":"announce","params":{"id":1,"name":"/a","properties":{"n":null,"f":1.5,"g":[[0.5]],"o":{"b":[1,{"c":null},[[]]],"d":{}}},"type":"int"}}]"#,
        ),
        r#"Started 1 /a int {"o":{"b":[1,{"c":null},[[]]],"d":{}}};0"#,
    ),
    Row(
        Text(
            r#"[{"method":"properties","params":{"name":"/a","update":{"o":{"e":[[[{"k":"v"}]]]},"p":[{},[]]}}},{"method":"properties","params":{"name":"/a","update":{"p":null}}}]"#,
        ),
        r#"Props 1 /a {"o":{"e":[[[{"k":"v"}]]]},"p":[{},[]]};Props 1 /a {"p":null};0"#,
    ),
    Row(Held, r#"1 /a int {"o":{"e":[[[{"k":"v"}]]]}};"#),
];

/// A new connection is told all once, also where calls still wait.
const WAITED: &[Row] = &[
    Row(Publish(1, "/a", "int", "{}"), "Done"),
    Row(SetInt(1, 10, 7), "Done"),
    Row(SetInt(1, 11, 8), "Done"),
    Row(Joined, "Done"),
    Row(
        Outgoing,
        r#"[{"method":"publish","params":{"name":"/a","properties":{},"pubuid":1,"type":"int"}}]
94010b0208
"#,
    ),
];

/// Several topics of one name are held.
const ONE_NAME: &[Row] = &[
    Row(
        Text(
            r#"[{"method":"announce","params":{"id":3,"name":"/a","type":"int"}},{"method":"announce","params":{"id":1,"name":"/a","type":"int"}},{"method":"announce","params":{"id":2,"name":"/a","type":"int"}},{"method":"properties","params":{"name":"/a","update":{"x":1}}},{"method":"unannounce","params":{"id":3,"name":"/a"}},{"method":"properties","params":{"name":"/a","update":{"x":2}}}]"#,
        ),
        r#"Started 3 /a int {};Started 1 /a int {};Started 2 /a int {};Props 3 /a {"x":1};Ended 3 /a;Props 2 /a {"x":2};0"#,
    ),
    Row(Held, r#"1 /a int {};2 /a int {"x":2};"#),
    // An id ends and begins again under another name.
    Row(
        Text(
            r#"[{"method":"unannounce","params":{"id":2,"name":"/a"}},{"method":"announce","params":{"id":2,"name":"/b","type":"int"}},{"method":"properties","params":{"name":"/a","update":{"x":3}}},{"method":"unannounce","params":{"id":1,"name":"/a"}},{"method":"properties","params":{"name":"/a","update":{"x":4}}},{"method":"properties","params":{"name":"/b","update":{"x":5}}}]"#,
        ),
        r#"Ended 2 /a;Started 2 /b int {};Props 1 /a {"x":3};Ended 1 /a;Props 2 /b {"x":5};1"#,
    ),
    Row(Held, r#"2 /b int {"x":5};"#),
    Row(
        Text(r#"[{"method":"properties","params":{"name":"/a","update":{"x":6}}}]"#),
        "1",
    ),
    Row(Lost, "Done"),
    Row(Held, ""),
    Row(
        Text(r#"[{"method":"properties","params":{"name":"/b","update":{"x":6}}}]"#),
        "1",
    ),
];

/// Binary frames that have a fault.
const FAULTS: &[Row] = &[
    Row(
        Text(r#"[{"method":"announce","params":{"id":1,"name":"/a","type":"int"}}]"#),
        "Started 1 /a int {};0",
    ),
    Row(Binary(&[]), "0"),
    Row(Binary(&[0xc1]), "1"),
    Row(Binary(&[0x94, 1, 0x0a, 2, 7, 0xc1]), "Changed 1 /a 10 7;1"),
    Row(
        Binary(&[
            0x94, 2, 0x0a, 2, 7, 0x94, 1, 0x0a, 2, 8, 0x94, 1, 0x0a, 2, 0xc3, 0x94, 1, 0x0a, 2, 9,
        ]),
        "Changed 1 /a 10 8;2",
    ),
    Row(Binary(&[0x94, 1, 0x0a, 2]), "1"),
    // An id that is a boolean, and one of 2^63.
    Row(
        Binary(&[0x94, 1, 0x0a, 2, 9, 0x94, 0xc3, 0x0a, 2, 7]),
        "Changed 1 /a 10 9;1",
    ),
    Row(
        Binary(&[0x94, 0xcf, 0x80, 0, 0, 0, 0, 0, 0, 0, 0x0a, 2, 7]),
        "1",
    ),
    // A time below zero, one of 2^63, and a data type number that is none.
    Row(Binary(&[0x94, 1, 0xff, 2, 7]), "1"),
    Row(
        Binary(&[0x94, 1, 0xcf, 0x80, 0, 0, 0, 0, 0, 0, 0, 2, 7]),
        "1",
    ),
    Row(Binary(&[0x94, 1, 0x0a, 6, 7]), "1"),
    Row(Held, "1 /a int {} 10 9;"),
];

#[test]
fn calls_are_answered(rt: HostRuntime) -> Result<(), Fail> {
    let alloc = rt.alloc();
    let runs: [(&str, &[Row]); 14] = [
        ("a_topic_is_told_with_its_value", TOLD),
        ("all_is_said_on_a_new_connection", REJOINED),
        ("a_refused_call_says_nothing", REFUSED),
        ("runs_are_laid_in_the_order_of_calls", RUNS),
        ("last_values_are_those_of_cached_publishers", SAID_ANEW),
        ("an_uncached_topic_has_no_value", UNCACHED),
        ("a_turn_drops_the_value", TURNED),
        ("updates_follow_an_announce", UPDATED),
        ("lies_are_ignored_or_taken", LIES),
        ("what_is_no_message_stands_beside_what_is_one", BESIDE),
        ("properties_nest", NESTED),
        ("a_new_connection_is_told_all_once", WAITED),
        ("of_several_topics_of_a_name_the_last_is_meant", ONE_NAME),
        ("a_fault_ends_a_frame", FAULTS),
    ];
    for (name, rows) in &runs {
        let other = first_other(alloc, rows)?;
        assert_eq!(rt; other.as_str(), "", "{name}");
    }
    Ok(())
}

/// A frame of so many elements, in turn an announce, an update and an end of a topic of one name,
/// and a list; and behind them a number. The topics' ids rise or fall.
fn many_elements(alloc: Global, count: u32, falling: bool) -> Result<Frame, AllocError> {
    let mut text = String::from_str(alloc, "[")?;
    for i in 0..count {
        let topic = if falling {
            count.saturating_sub(i / 4)
        } else {
            i / 4
        };
        let element = match i % 4 {
            0 => format!(in alloc;
                "{{\"method\":\"announce\",\"params\":{{\"id\":{topic},\"name\":\"/a\",\"type\":\"int\"}}}},"
            )?,
            1 => String::from_str(
                alloc,
                "{\"method\":\"properties\",\"params\":{\"name\":\"/a\",\"update\":{\"x\":1}}},",
            )?,
            2 => format!(in alloc;
                "{{\"method\":\"unannounce\",\"params\":{{\"id\":{topic},\"name\":\"/a\"}}}},"
            )?,
            _ => String::from_str(alloc, "[],")?,
        };
        text.push_str(element.as_str())?;
    }
    text.push_str("0]")?;
    Ok(Frame::Text(Content::of_string(text)))
}

/// A frame that announces one topic so many times, with properties of so many levels.
fn announces(alloc: Global, count: u32, levels: u32) -> Result<Frame, AllocError> {
    let mut text = String::new(alloc);
    for i in 0..count {
        text.push_str(if i == 0 { "[" } else { "," })?;
        text.push_str("{\"method\":\"announce\",\"params\":{\"id\":3,\"name\":\"/a\",")?;
        text.push_str("\"properties\":{\"p\":")?;
        for _ in 1..levels {
            text.push('[')?;
        }
        for _ in 1..levels {
            text.push(']')?;
        }
        text.push_str("},\"type\":\"int\"}}")?;
    }
    text.push(']')?;
    Ok(Frame::Text(Content::of_string(text)))
}

/// A frame with a value of so many bytes.
fn bytes_of(alloc: Global, size: u32) -> Result<Frame, AllocError> {
    let mut bytes = Vec::new(alloc);
    bytes.extend_from_slice(&[0x94, 0xfb, 0x0a, 5, 0xc6])?;
    bytes.extend_from_slice(&size.to_be_bytes())?;
    bytes.resize(9 + size as usize, 0)?;
    Ok(Frame::Binary(Bytes::of(alloc, bytes.as_slice())?))
}

/// How many changes a frame tells a client that holds a topic, how much is ignored, and how many
/// topics it holds then. It takes the next frame too.
fn counts(alloc: Global, frame: &Frame) -> Result<(usize, u32, usize), Fail> {
    let mut client = Client::new(alloc);
    let held = r#"[{"method":"announce","params":{"id":-5,"name":"/h","type":"raw"}}]"#;
    let told = takes(alloc, &mut client, &Frame::Text(Content::of(alloc, held)?))?;
    if told.as_str() != "Started -5 /h raw {};0" {
        return Err(Fail::from("the topic isn't held"));
    }
    let taken = client.take(alloc, frame)?;
    let counts = (
        taken.changes.as_slice().len(),
        taken.ignored,
        client.held().len(),
    );
    let next = takes(alloc, &mut client, &Frame::Text(Content::of(alloc, "[]")?))?;
    if next.as_str() != "0" {
        return Err(Fail::from("the next frame isn't taken"));
    }
    Ok(counts)
}

#[test]
fn great_frames_are_taken(rt: HostRuntime) -> Result<(), Fail> {
    let alloc = rt.alloc();
    // Ids that ended are of no cost to an update, also where ids fall.
    let many = [
        (10_000, false, (7_500, 2_501, 1)),
        (10_000, true, (7_500, 2_501, 1)),
    ];
    for (count, falling, told) in many {
        let frame = many_elements(alloc, count, falling)?;
        assert!(rt; counts(alloc, &frame)? == told, "{falling}");
    }
    // What is announced again and again begins once.
    assert!(rt; counts(alloc, &announces(alloc, 10_000, 2)?)? == (1, 0, 2));
    // Properties nest as deep as the reader takes them.
    assert!(rt; counts(alloc, &announces(alloc, 1, 124)?)? == (1, 0, 2));
    assert!(rt; counts(alloc, &announces(alloc, 1, 125)?)? == (0, 1, 1));
    // The greatest value, and one that is greater.
    assert!(rt; counts(alloc, &bytes_of(alloc, 2_097_152)?)? == (1, 0, 1));
    assert!(rt; counts(alloc, &bytes_of(alloc, 2_097_153)?)? == (0, 1, 1));
    Ok(())
}

/// An exchange with the clock: when it was asked, the value that came back, the server's time, and
/// when the answer came; whether it counts; and the offset and bound after it.
type Exchange = (u32, u32, u32, u32, bool, Option<(i64, u64)>);

const EXCHANGES: &[Exchange] = &[
    (1_000_000, 999_999, 5_000_000, 1_000_301, false, None),
    (1_000_000, 1_000_000, 5_000_000, 999_999, false, None),
    (
        1_000_000,
        1_000_000,
        5_000_000,
        1_000_301,
        true,
        Some((3_999_850, 151)),
    ),
    // A greater bound is of no use.
    (
        2_000_000,
        2_000_000,
        7_000_000,
        2_000_303,
        true,
        Some((3_999_850, 151)),
    ),
    // Of two equal ones the later is kept, also where it took one less.
    (
        3_000_000,
        3_000_000,
        6_999_000,
        3_000_302,
        true,
        Some((3_998_849, 151)),
    ),
    (
        4_000_000,
        4_000_000,
        3_000_000,
        4_000_000,
        true,
        Some((-1_000_000, 0)),
    ),
    (
        4_000_001,
        4_000_000,
        3_000_000,
        4_000_000,
        false,
        Some((-1_000_000, 0)),
    ),
    (0, 0, 0, 4_294_967_295, true, Some((-1_000_000, 0))),
];

#[test]
fn the_clock_keeps_the_least_bound(rt: HostRuntime) -> Result<(), Fail> {
    let mut clock = ClockSync::new();
    assert!(rt; clock.offset().is_none());
    for (asked, sent, server, now, counts, offset) in EXCHANGES {
        let value = clock.ask(u64::from(*asked));
        assert_eq!(rt; value, u64::from(*asked));
        let answer = clock.answer(u64::from(*sent), u64::from(*server), u64::from(*now));
        assert_eq!(rt; answer, *counts);
        assert!(rt; clock.offset() == *offset);
    }
    Ok(())
}
