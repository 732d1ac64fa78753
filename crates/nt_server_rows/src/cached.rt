//! Topics that aren't cached, and turns: runs of acts, and what the server says to each.

use crate::rows::Call::{
    Drain, Open, Publish, PutInt, SetProps, Subscribe, Unpublish, Unsubscribe,
};
use crate::rows::Row::{self, Holds, Look, PutsLarge, Saves, Step};
use crate::rows::first_other;
use crate::saved::restored;
use nt_server::Server;
use std::test::Fail;

/// Values of a topic that isn't cached: each is taken, also one with an older time, and none is
/// held. They wait by their places and with their weights, also where only the newest is wanted. A
/// newcomer is told the topic alone.
const HELD_BY_NOBODY: &[Row] = &[
    Step(1, 0, Open("a"), "Opened 1 a"),
    Step(2, 0, Open("b"), "Opened 2 b"),
    Step(
        1,
        0,
        Publish(1, 1, "/u", "int", r#"{"cached":false}"#),
        "Done Started 1 /u int",
    ),
    Step(2, 0, Subscribe(2, 1, "/u", ""), "Done"),
    Step(
        2,
        0,
        Drain(2, 256),
        r#"Drained [{"method":"announce","params":{"id":1,"name":"/u","properties":{"cached":false},"type":"int"}}]"#,
    ),
    Step(1, 0, PutInt(1, 1, 20, 7), "Done Changed 1 /u 20"),
    Step(1, 0, PutInt(1, 1, 10, 8), "Done Changed 1 /u 10"),
    Holds("/u", "1 none"),
    Look(2, "2 144 None false"),
    Step(2, 0, Drain(2, 256), "Drained 940114020794010a0208"),
    Look(2, "0 0 None false"),
    Step(3, 0, Open("c"), "Opened 3 c"),
    Step(3, 0, Subscribe(3, 1, "/u", ""), "Done"),
    Look(3, "1 0 None false"),
    Step(3, 0, Subscribe(3, 1, "/u", "a"), "Done"),
    Look(3, "1 0 None false"),
    Step(
        3,
        0,
        Drain(3, 256),
        r#"Drained [{"method":"announce","params":{"id":1,"name":"/u","properties":{"cached":false},"type":"int"}}]"#,
    ),
    Step(3, 0, Drain(3, 256), "Drained"),
];

/// A topic turns there and back. The value that it held is gone, and so is its time: an older one
/// counts. Each change of the properties is told.
const THERE_AND_BACK: &[Row] = &[
    Step(1, 0, Open("a"), "Opened 1 a"),
    Step(2, 0, Open("b"), "Opened 2 b"),
    Step(
        1,
        0,
        Publish(1, 1, "/a", "int", "{}"),
        "Done Started 1 /a int",
    ),
    Step(2, 0, Subscribe(2, 1, "/a", ""), "Done"),
    Step(1, 0, PutInt(1, 1, 20, 7), "Done Changed 1 /a 20"),
    Holds("/a", "1 20 7"),
    Step(
        2,
        0,
        Drain(2, 256),
        r#"Drained [{"method":"announce","params":{"id":1,"name":"/a","properties":{},"type":"int"}}] 9401140207"#,
    ),
    Step(
        1,
        0,
        SetProps(1, "/a", r#"{"cached":false}"#),
        "Done Props 1 /a",
    ),
    Holds("/a", "1 none"),
    Step(
        1,
        0,
        SetProps(1, "/a", r#"{"cached":null}"#),
        "Done Props 1 /a",
    ),
    Holds("/a", "1 none"),
    Step(1, 0, PutInt(1, 1, 10, 8), "Done Changed 1 /a 10"),
    Holds("/a", "1 10 8"),
    Look(2, "3 159 None false"),
    Step(
        2,
        0,
        Drain(2, 256),
        r#"Drained [{"method":"properties","params":{"name":"/a","update":{"cached":false}}},{"method":"properties","params":{"name":"/a","update":{"cached":null}}}] 94010a0208"#,
    ),
    Step(
        1,
        0,
        Drain(1, 256),
        r#"Drained [{"method":"announce","params":{"id":1,"name":"/a","properties":{},"pubuid":1,"type":"int"}},{"method":"properties","params":{"ack":true,"name":"/a","update":{"cached":false}}},{"method":"properties","params":{"ack":true,"name":"/a","update":{"cached":null}}}]"#,
    ),
];

/// A connection that sets properties before the topic is announced to it is told of each later
/// change, while a change is owed to it.
const SET_BEFORE_THE_ANNOUNCE: &[Row] = &[
    Step(1, 0, Open("a"), "Opened 1 a"),
    Step(2, 0, Open("b"), "Opened 2 b"),
    Step(3, 0, Open("c"), "Opened 3 c"),
    Step(4, 0, Open("d"), "Opened 4 d"),
    Step(
        1,
        0,
        Publish(1, 1, "/a", "int", "{}"),
        "Done Started 1 /a int",
    ),
    Step(3, 0, Subscribe(3, 1, "/a", "t"), "Done"),
    Step(2, 0, Publish(2, 1, "/a", "int", "{}"), "Done"),
    Step(2, 0, SetProps(2, "/a", r#"{"x":1}"#), "Done Props 1 /a"),
    Step(1, 0, SetProps(1, "/a", r#"{"x":2}"#), "Done Props 1 /a"),
    Look(2, "3 206 None false"),
    Step(
        2,
        0,
        Drain(2, 256),
        r#"Drained [{"method":"announce","params":{"id":1,"name":"/a","properties":{"x":2},"pubuid":1,"type":"int"}},{"method":"properties","params":{"ack":true,"name":"/a","update":{"x":1}}},{"method":"properties","params":{"name":"/a","update":{"x":2}}}]"#,
    ),
    // The change before its own isn't told to the first, and none to one that set nothing.
    Step(
        1,
        0,
        Drain(1, 256),
        r#"Drained [{"method":"announce","params":{"id":1,"name":"/a","properties":{"x":2},"pubuid":1,"type":"int"}},{"method":"properties","params":{"ack":true,"name":"/a","update":{"x":2}}}]"#,
    ),
    Look(3, "1 0 None false"),
    // One that never hears of the topic is told while its own change waits, and then no more.
    Step(4, 0, SetProps(4, "/a", r#"{"y":1}"#), "Done Props 1 /a"),
    Step(1, 0, SetProps(1, "/a", r#"{"y":2}"#), "Done Props 1 /a"),
    Look(4, "2 142 None false"),
    Step(
        4,
        0,
        Drain(4, 256),
        r#"Drained [{"method":"properties","params":{"ack":true,"name":"/a","update":{"y":1}}},{"method":"properties","params":{"name":"/a","update":{"y":2}}}]"#,
    ),
    Step(1, 0, SetProps(1, "/a", r#"{"y":3}"#), "Done Props 1 /a"),
    Look(4, "0 0 None false"),
];

/// Topics turn while values wait for their own publisher: for `/a` the newest, for `/b` all. `/a`
/// turns back by null, and `/b` by true.
const TURNS_OF_ONE_CONNECTION: &[Row] = &[
    Step(1, 0, Open("a"), "Opened 1 a"),
    Step(
        1,
        0,
        Publish(1, 1, "/a", "int", "{}"),
        "Done Started 1 /a int",
    ),
    Step(
        1,
        0,
        Publish(1, 2, "/b", "int", "{}"),
        "Done Started 2 /b int",
    ),
    Step(1, 0, Subscribe(1, 1, "/a", ""), "Done"),
    Step(1, 0, Subscribe(1, 2, "/b", "a"), "Done"),
    Step(
        1,
        0,
        Drain(1, 256),
        r#"Drained [{"method":"announce","params":{"id":1,"name":"/a","properties":{},"pubuid":1,"type":"int"}},{"method":"announce","params":{"id":2,"name":"/b","properties":{},"pubuid":2,"type":"int"}}]"#,
    ),
    Step(1, 0, PutInt(1, 1, 10, 1), "Done Changed 1 /a 10"),
    Step(1, 0, PutInt(1, 2, 10, 2), "Done Changed 2 /b 10"),
    Step(1, 0, PutInt(1, 2, 11, 3), "Done Changed 2 /b 11"),
    Look(1, "3 144 None false"),
    Step(
        1,
        0,
        SetProps(1, "/a", r#"{"cached":false}"#),
        "Done Props 1 /a",
    ),
    Look(1, "3 224 None false"),
    Step(
        1,
        0,
        SetProps(1, "/b", r#"{"cached":false}"#),
        "Done Props 2 /b",
    ),
    Look(1, "2 160 None false"),
    Step(1, 0, PutInt(1, 1, 10, 4), "Done Changed 1 /a 10"),
    Step(1, 0, PutInt(1, 1, 9, 5), "Done Changed 1 /a 9"),
    Step(1, 0, PutInt(1, 2, 9, 6), "Done Changed 2 /b 9"),
    Look(1, "5 376 None false"),
    Step(
        1,
        0,
        SetProps(1, "/a", r#"{"cached":null}"#),
        "Done Props 1 /a",
    ),
    Look(1, "4 311 None false"),
    Step(
        1,
        0,
        SetProps(1, "/b", r#"{"cached":true}"#),
        "Done Props 2 /b",
    ),
    Look(1, "4 318 None false"),
    Holds("/a", "1 none"),
    Holds("/b", "2 none"),
    Step(1, 0, PutInt(1, 1, 1, 7), "Done Changed 1 /a 1"),
    Step(1, 0, PutInt(1, 2, 1, 8), "Done Changed 2 /b 1"),
    Step(1, 0, PutInt(1, 2, 0, 9), "Older"),
    Look(1, "6 390 None false"),
    Step(
        1,
        0,
        Drain(1, 256),
        r#"Drained [{"method":"properties","params":{"ack":true,"name":"/a","update":{"cached":false}}},{"method":"properties","params":{"ack":true,"name":"/b","update":{"cached":false}}},{"method":"properties","params":{"ack":true,"name":"/a","update":{"cached":null}}},{"method":"properties","params":{"ack":true,"name":"/b","update":{"cached":true}}}] 94020102089401010207"#,
    ),
];

/// A topic turns while values wait for its publisher, for a connection that wants the newest, and
/// for one that wants all. None of them is handed any of these.
const TURNS_OF_THREE_CONNECTIONS: &[Row] = &[
    Step(1, 0, Open("a"), "Opened 1 a"),
    Step(2, 0, Open("b"), "Opened 2 b"),
    Step(3, 0, Open("c"), "Opened 3 c"),
    Step(
        1,
        0,
        Publish(1, 1, "/a", "int", "{}"),
        "Done Started 1 /a int",
    ),
    Step(1, 0, Subscribe(1, 1, "/a", "a"), "Done"),
    Step(2, 0, Subscribe(2, 1, "/a", ""), "Done"),
    Step(3, 0, Subscribe(3, 1, "/a", "a"), "Done"),
    Step(1, 0, PutInt(1, 1, 10, 1), "Done Changed 1 /a 10"),
    Step(1, 0, PutInt(1, 1, 11, 2), "Done Changed 1 /a 11"),
    Look(1, "3 208 None false"),
    Look(2, "2 0 None false"),
    Look(3, "3 144 None false"),
    Step(
        1,
        0,
        SetProps(1, "/a", r#"{"cached":false}"#),
        "Done Props 1 /a",
    ),
    Look(1, "2 144 None false"),
    Look(2, "1 0 None false"),
    Look(3, "1 0 None false"),
    Step(1, 0, PutInt(1, 1, 5, 3), "Done Changed 1 /a 5"),
    Look(1, "3 216 None false"),
    Look(2, "2 72 None false"),
    Look(3, "2 72 None false"),
    Step(
        1,
        0,
        SetProps(1, "/a", r#"{"cached":true}"#),
        "Done Props 1 /a",
    ),
    Look(1, "3 223 None false"),
    Look(2, "1 0 None false"),
    Look(3, "1 0 None false"),
    // The value of time 5 came before the turn, so one of time 4 isn't older.
    Step(1, 0, PutInt(1, 1, 4, 4), "Done Changed 1 /a 4"),
    Step(1, 0, PutInt(1, 1, 3, 9), "Older"),
    Holds("/a", "1 4 4"),
    Look(2, "2 0 None false"),
    Look(3, "2 72 None false"),
    Step(
        1,
        0,
        Drain(1, 256),
        r#"Drained [{"method":"announce","params":{"id":1,"name":"/a","properties":{"cached":true},"pubuid":1,"type":"int"}},{"method":"properties","params":{"ack":true,"name":"/a","update":{"cached":false}}},{"method":"properties","params":{"ack":true,"name":"/a","update":{"cached":true}}}] 9401040204"#,
    ),
    Step(
        2,
        0,
        Drain(2, 256),
        r#"Drained [{"method":"announce","params":{"id":1,"name":"/a","properties":{"cached":true},"type":"int"}}] 9401040204"#,
    ),
    Step(
        3,
        0,
        Drain(3, 256),
        r#"Drained [{"method":"announce","params":{"id":1,"name":"/a","properties":{"cached":true},"type":"int"}}] 9401040204"#,
    ),
];

/// A topic isn't cached only where its `cached` is false: an object with a null in it is none, and
/// neither is a number. An update that leaves a topic cached, or uncached, is no turn.
const WHAT_IS_A_TURN: &[Row] = &[
    Step(1, 0, Open("a"), "Opened 1 a"),
    Step(
        1,
        0,
        Publish(1, 1, "/a", "int", r#"{"cached":0}"#),
        "Done Started 1 /a int",
    ),
    Step(1, 0, Subscribe(1, 1, "/a", ""), "Done"),
    Step(1, 0, PutInt(1, 1, 10, 1), "Done Changed 1 /a 10"),
    Step(1, 0, PutInt(1, 1, 9, 2), "Older"),
    Step(
        1,
        0,
        Drain(1, 256),
        r#"Drained [{"method":"announce","params":{"id":1,"name":"/a","properties":{"cached":0},"pubuid":1,"type":"int"}}] 94010a0201"#,
    ),
    Step(
        1,
        0,
        SetProps(1, "/a", r#"{"cached":{"x":null}}"#),
        "Done Props 1 /a",
    ),
    Holds("/a", "1 10 1"),
    Step(1, 0, PutInt(1, 1, 9, 2), "Older"),
    Look(1, "1 85 None false"),
    Step(
        1,
        0,
        SetProps(1, "/a", r#"{"cached":false}"#),
        "Done Props 1 /a",
    ),
    Holds("/a", "1 none"),
    Step(1, 0, PutInt(1, 1, 9, 2), "Done Changed 1 /a 9"),
    Look(1, "3 237 None false"),
    Step(
        1,
        0,
        SetProps(1, "/a", r#"{"cached":false,"x":1}"#),
        "Done Props 1 /a",
    ),
    Look(1, "4 323 None false"),
    Step(
        1,
        0,
        SetProps(1, "/a", r#"{"cached":{"x":null}}"#),
        "Done Props 1 /a",
    ),
    Look(1, "4 336 None false"),
    Step(1, 0, PutInt(1, 1, 1, 3), "Done Changed 1 /a 1"),
    Step(1, 0, PutInt(1, 1, 0, 4), "Older"),
    Holds("/a", "1 1 3"),
    Step(
        1,
        0,
        Drain(1, 256),
        r#"Drained [{"method":"properties","params":{"ack":true,"name":"/a","update":{"cached":{"x":null}}}},{"method":"properties","params":{"ack":true,"name":"/a","update":{"cached":false}}},{"method":"properties","params":{"ack":true,"name":"/a","update":{"cached":false,"x":1}}},{"method":"properties","params":{"ack":true,"name":"/a","update":{"cached":{"x":null}}}}] 9401010203"#,
    ),
];

/// Values of a topic that isn't cached wait as long as its values are wanted without a break, by
/// whichever subscription and how much so ever. With a break they are lost.
const WISHES: &[Row] = &[
    Step(1, 0, Open("a"), "Opened 1 a"),
    Step(2, 0, Open("b"), "Opened 2 b"),
    Step(2, 0, Subscribe(2, 1, "/u", ""), "Done"),
    Step(
        1,
        0,
        Publish(1, 1, "/u", "int", r#"{"cached":false}"#),
        "Done Started 1 /u int",
    ),
    Step(
        2,
        0,
        Drain(2, 256),
        r#"Drained [{"method":"announce","params":{"id":1,"name":"/u","properties":{"cached":false},"type":"int"}}]"#,
    ),
    Step(1, 0, PutInt(1, 1, 10, 1), "Done Changed 1 /u 10"),
    Step(1, 0, PutInt(1, 1, 9, 2), "Done Changed 1 /u 9"),
    Look(2, "2 144 None false"),
    Step(2, 0, Subscribe(2, 1, "/u", "a"), "Done"),
    Look(2, "2 144 None false"),
    Step(1, 0, PutInt(1, 1, 8, 3), "Done Changed 1 /u 8"),
    Step(2, 0, Subscribe(2, 2, "/", "p"), "Done"),
    Step(2, 0, Unsubscribe(2, 1), "Done"),
    Look(2, "3 216 None false"),
    Step(2, 0, Drain(2, 1), "Drained 94010a0201"),
    Look(2, "2 144 None false"),
    // The announces alone.
    Step(2, 0, Subscribe(2, 2, "/u", "t"), "Done"),
    Look(2, "0 0 None false"),
    Step(1, 0, PutInt(1, 1, 7, 4), "Done Changed 1 /u 7"),
    Step(2, 0, Subscribe(2, 2, "/u", "a"), "Done"),
    Look(2, "0 0 None false"),
    Step(1, 0, PutInt(1, 1, 6, 5), "Done Changed 1 /u 6"),
    Look(2, "1 72 None false"),
    // Nothing at all.
    Step(2, 0, Unsubscribe(2, 2), "Done"),
    Look(2, "0 0 None false"),
    Step(1, 0, PutInt(1, 1, 5, 6), "Done Changed 1 /u 5"),
    Step(2, 0, Subscribe(2, 1, "/u", ""), "Done"),
    Look(2, "0 0 None false"),
    Step(1, 0, PutInt(1, 1, 4, 7), "Done Changed 1 /u 4"),
    Step(2, 0, Drain(2, 256), "Drained 9401040207"),
    // The topic ends, and another has its name.
    Step(1, 0, PutInt(1, 1, 3, 8), "Done Changed 1 /u 3"),
    Step(1, 0, Unpublish(1, 1), "Done Ended 1 /u"),
    Look(2, "1 64 None false"),
    Step(
        1,
        0,
        Publish(1, 1, "/u", "int", "{}"),
        "Done Started 2 /u int",
    ),
    Step(1, 0, PutInt(1, 1, 1, 9), "Done Changed 2 /u 1"),
    Step(
        2,
        0,
        Drain(2, 256),
        r#"Drained [{"method":"unannounce","params":{"id":1,"name":"/u"}},{"method":"announce","params":{"id":2,"name":"/u","properties":{},"type":"int"}}] 9402010209"#,
    ),
];

/// Values of topics that aren't cached are handed by place among those where all are wanted, before
/// the newest ones. Of `/n` and `/u` the newest is wanted, and of `/v` and `/w` all; `/u` and `/w`
/// aren't cached, until `/u` turns.
const ORDER: &[Row] = &[
    Step(1, 0, Open("a"), "Opened 1 a"),
    Step(2, 0, Open("b"), "Opened 2 b"),
    Step(
        1,
        0,
        Publish(1, 1, "/n", "int", "{}"),
        "Done Started 1 /n int",
    ),
    Step(
        1,
        0,
        Publish(1, 2, "/u", "int", r#"{"cached":false}"#),
        "Done Started 2 /u int",
    ),
    Step(
        1,
        0,
        Publish(1, 3, "/v", "int", "{}"),
        "Done Started 3 /v int",
    ),
    Step(
        1,
        0,
        Publish(1, 4, "/w", "int", r#"{"cached":false}"#),
        "Done Started 4 /w int",
    ),
    Step(2, 0, Subscribe(2, 1, "/", "p"), "Done"),
    Step(2, 0, Subscribe(2, 2, "/v", "a"), "Done"),
    Step(2, 0, Subscribe(2, 3, "/w", "a"), "Done"),
    Step(1, 0, PutInt(1, 1, 10, 1), "Done Changed 1 /n 10"),
    Step(1, 0, PutInt(1, 4, 10, 2), "Done Changed 4 /w 10"),
    Step(1, 0, PutInt(1, 3, 10, 3), "Done Changed 3 /v 10"),
    Step(1, 0, PutInt(1, 2, 10, 4), "Done Changed 2 /u 10"),
    Step(1, 0, PutInt(1, 1, 11, 5), "Done Changed 1 /n 11"),
    Step(1, 0, PutInt(1, 2, 9, 6), "Done Changed 2 /u 9"),
    Step(1, 0, PutInt(1, 3, 11, 7), "Done Changed 3 /v 11"),
    Look(2, "10 360 None false"),
    Step(
        2,
        0,
        Drain(2, 7),
        r#"Drained [{"method":"announce","params":{"id":1,"name":"/n","properties":{},"type":"int"}},{"method":"announce","params":{"id":2,"name":"/u","properties":{"cached":false},"type":"int"}},{"method":"announce","params":{"id":3,"name":"/v","properties":{},"type":"int"}},{"method":"announce","params":{"id":4,"name":"/w","properties":{"cached":false},"type":"int"}}] 94040a020294030a020394020a0204"#,
    ),
    Look(2, "3 144 None false"),
    Step(
        1,
        0,
        SetProps(1, "/u", r#"{"cached":null}"#),
        "Done Props 2 /u",
    ),
    Look(2, "3 151 None false"),
    Step(1, 0, PutInt(1, 2, 8, 8), "Done Changed 2 /u 8"),
    Look(2, "4 151 None false"),
    Step(
        2,
        0,
        Drain(2, 256),
        r#"Drained [{"method":"properties","params":{"name":"/u","update":{"cached":null}}}] 94030b020794010b02059402080208"#,
    ),
];

/// Retained topics turn without publishers: `/a` goes on, and `/b` ends by the same update.
const RETAINED: &[Row] = &[
    Step(1, 0, Open("a"), "Opened 1 a"),
    Step(2, 0, Open("b"), "Opened 2 b"),
    Step(
        1,
        0,
        Publish(1, 1, "/a", "int", r#"{"retained":true}"#),
        "Done Started 1 /a int",
    ),
    Step(
        1,
        0,
        Publish(1, 2, "/b", "int", r#"{"retained":true}"#),
        "Done Started 2 /b int",
    ),
    Step(2, 0, Subscribe(2, 1, "/", "pa"), "Done"),
    Step(1, 0, PutInt(1, 1, 10, 5), "Done Changed 1 /a 10"),
    Step(1, 0, PutInt(1, 2, 10, 6), "Done Changed 2 /b 10"),
    Step(1, 0, Unpublish(1, 1), "Done"),
    Step(1, 0, Unpublish(1, 2), "Done"),
    Step(
        2,
        0,
        Drain(2, 2),
        r#"Drained [{"method":"announce","params":{"id":1,"name":"/a","properties":{"retained":true},"type":"int"}},{"method":"announce","params":{"id":2,"name":"/b","properties":{"retained":true},"type":"int"}}]"#,
    ),
    Holds("/a", "1 10 5"),
    Look(2, "2 144 None false"),
    Step(
        1,
        0,
        SetProps(1, "/a", r#"{"cached":false}"#),
        "Done Props 1 /a",
    ),
    Holds("/a", "1 none"),
    Look(2, "2 152 None false"),
    Step(
        1,
        0,
        SetProps(1, "/b", r#"{"cached":false,"retained":null}"#),
        "Done Props 2 /b Ended 2 /b",
    ),
    Look(2, "2 144 None false"),
    Step(
        2,
        0,
        Drain(2, 256),
        r#"Drained [{"method":"unannounce","params":{"id":2,"name":"/b"}},{"method":"properties","params":{"name":"/a","update":{"cached":false}}}]"#,
    ),
    Step(2, 0, Publish(2, 7, "/a", "int", "{}"), "Done"),
    Step(2, 0, PutInt(2, 7, 3, 8), "Done Changed 1 /a 3"),
    Step(
        2,
        0,
        Drain(2, 256),
        r#"Drained [{"method":"announce","params":{"id":1,"name":"/a","properties":{"cached":false,"retained":true},"pubuid":7,"type":"int"}}] 9401030208"#,
    ),
];

/// The newest value alone is wanted of a topic, and its values weigh all the same while it isn't
/// cached. A connection that fell behind stays so at a turn.
const BEHIND: &[Row] = &[
    Step(1, 0, Open("a"), "Opened 1 a"),
    Step(
        1,
        0,
        Publish(1, 1, "/u", "raw", r#"{"cached":false}"#),
        "Done Started 1 /u raw",
    ),
    Step(1, 0, Subscribe(1, 1, "/u", ""), "Done"),
    Step(
        1,
        0,
        Drain(1, 256),
        r#"Drained [{"method":"announce","params":{"id":1,"name":"/u","properties":{"cached":false},"pubuid":1,"type":"raw"}}]"#,
    ),
    PutsLarge(63, "Done Changed 1 /u 62"),
    Look(1, "63 8261568 None false"),
    PutsLarge(1, "Done Changed 1 /u 0"),
    Look(1, "0 0 Some(8392704) false"),
    Step(
        1,
        0,
        SetProps(1, "/u", r#"{"cached":null}"#),
        "Done Props 1 /u",
    ),
    Look(1, "0 0 Some(8392704) false"),
    Step(1, 0, Drain(1, 256), "Behind"),
];

/// Of persistent topics those that aren't cached, or weren't since their last value, are saved
/// without a value.
const SAVED: &[Row] = &[
    Step(1, 0, Open("a"), "Opened 1 a"),
    Step(
        1,
        0,
        Publish(1, 1, "/a", "int", r#"{"cached":false,"persistent":true}"#),
        "Done Started 1 /a int",
    ),
    Step(
        1,
        0,
        Publish(1, 2, "/b", "int", r#"{"persistent":true}"#),
        "Done Started 2 /b int",
    ),
    Step(
        1,
        0,
        Publish(1, 3, "/c", "int", r#"{"persistent":true}"#),
        "Done Started 3 /c int",
    ),
    Step(1, 0, PutInt(1, 1, 20, 7), "Done Changed 1 /a 20"),
    Step(1, 0, PutInt(1, 2, 20, 8), "Done Changed 2 /b 20"),
    Step(1, 0, PutInt(1, 3, 20, 9), "Done Changed 3 /c 20"),
    Saves("/a int 34 true none;/b int 19 true 8;/c int 19 true 9;"),
    Step(
        1,
        0,
        SetProps(1, "/b", r#"{"cached":false}"#),
        "Done Props 2 /b",
    ),
    Saves("/a int 34 true none;/b int 34 true none;/c int 19 true 9;"),
    Step(
        1,
        0,
        SetProps(1, "/b", r#"{"cached":null}"#),
        "Done Props 2 /b",
    ),
    Saves("/a int 34 true none;/b int 19 true none;/c int 19 true 9;"),
];

/// A server that begins with a topic that isn't cached.
const RESTORED_UNCACHED: &[Row] = &[
    Holds("/a", "1 none"),
    Saves("/a int 34 true none;"),
    Step(1, 0, Open("a"), "Opened 1 a"),
    Step(1, 0, Subscribe(1, 1, "", "p"), "Done"),
    Look(1, "1 0 None false"),
    Step(
        1,
        0,
        Drain(1, 256),
        r#"Drained [{"method":"announce","params":{"id":1,"name":"/a","properties":{"cached":false,"persistent":true},"type":"int"}}]"#,
    ),
    Step(1, 0, Publish(1, 1, "/a", "int", "{}"), "Done"),
    Step(1, 0, PutInt(1, 1, 20, 7), "Done Changed 1 /a 20"),
    Step(1, 0, PutInt(1, 1, 10, 8), "Done Changed 1 /a 10"),
    Look(1, "3 208 None false"),
    Step(
        1,
        0,
        Drain(1, 256),
        r#"Drained [{"method":"announce","params":{"id":1,"name":"/a","properties":{"cached":false,"persistent":true},"pubuid":1,"type":"int"}}] 940114020794010a0208"#,
    ),
    Saves("/a int 34 true none;"),
];

/// A server that begins with a topic whose `cached` is true, and that holds a value. That it is
/// deleted is no turn. The turn after that drops the value.
const RESTORED_CACHED: &[Row] = &[
    Holds("/a", "1 0 5"),
    Saves("/a int 33 true 5;"),
    Step(1, 0, Open("a"), "Opened 1 a"),
    Step(1, 0, Subscribe(1, 1, "/a", "a"), "Done"),
    Look(1, "2 72 None false"),
    Step(
        1,
        0,
        SetProps(1, "/a", r#"{"cached":null}"#),
        "Done Props 1 /a",
    ),
    Holds("/a", "1 0 5"),
    Saves("/a int 19 true 5;"),
    Look(1, "3 151 None false"),
    Step(
        1,
        0,
        SetProps(1, "/a", r#"{"cached":false}"#),
        "Done Props 1 /a",
    ),
    Holds("/a", "1 none"),
    Saves("/a int 34 true none;"),
    Look(1, "3 159 None false"),
    Step(
        1,
        0,
        SetProps(1, "/a", r#"{"cached":true}"#),
        "Done Props 1 /a",
    ),
    Step(1, 0, Subscribe(1, 1, "/a", ""), "Done"),
    Step(1, 0, Publish(1, 1, "/a", "int", "{}"), "Done"),
    Step(1, 0, PutInt(1, 1, 0, 6), "Done Changed 1 /a 0"),
    Look(1, "5 302 None false"),
    // The answer to the publish comes behind the changes of properties, by its place.
    Step(
        1,
        0,
        Drain(1, 256),
        r#"Drained [{"method":"properties","params":{"ack":true,"name":"/a","update":{"cached":null}}},{"method":"properties","params":{"ack":true,"name":"/a","update":{"cached":false}}},{"method":"properties","params":{"ack":true,"name":"/a","update":{"cached":true}}},{"method":"announce","params":{"id":1,"name":"/a","properties":{"cached":true,"persistent":true},"pubuid":1,"type":"int"}}] 9401000206"#,
    ),
    Saves("/a int 33 true 6;"),
];

#[test]
fn uncached_topics_are_held_by_nobody(rt: HostRuntime) -> Result<(), Fail> {
    let alloc = rt.alloc();
    let runs: [(&str, &[Row]); 11] = [
        ("a_newcomer_is_told_an_uncached_topic_alone", HELD_BY_NOBODY),
        ("a_turn_drops_the_held_value", THERE_AND_BACK),
        (
            "a_change_behind_an_owed_one_is_told",
            SET_BEFORE_THE_ANNOUNCE,
        ),
        ("a_turn_drops_what_waits", TURNS_OF_ONE_CONNECTION),
        ("a_turn_is_told_to_each", TURNS_OF_THREE_CONNECTIONS),
        ("false_alone_is_uncached", WHAT_IS_A_TURN),
        ("another_wish_keeps_what_waits", WISHES),
        ("uncached_values_go_by_place", ORDER),
        ("a_topic_turns_without_publishers", RETAINED),
        ("uncached_values_weigh", BEHIND),
        ("an_uncached_topic_is_saved_without_a_value", SAVED),
    ];
    for (name, rows) in &runs {
        let other = first_other(alloc, Server::new(alloc, 0)?, rows)?;
        assert_eq!(rt; other.as_str(), "", "{name}");
    }
    let server = restored(alloc, "/a", r#"{"cached":false,"persistent":true}"#, None)?;
    let other = first_other(alloc, server, RESTORED_UNCACHED)?;
    assert_eq!(rt;
        other.as_str(),
        "",
        "a_server_begins_with_an_uncached_topic"
    );
    let server = restored(alloc, "/a", r#"{"cached":true,"persistent":true}"#, Some(5))?;
    let other = first_other(alloc, server, RESTORED_CACHED)?;
    assert_eq!(rt; other.as_str(), "", "a_restored_value_is_dropped_by_a_turn");
    Ok(())
}
