//! What is said, sent and entered of connections that are served.

use crate::rows::Came::{Binary, Text};
use crate::rows::Row::{Opens, Permits, Puts, Says, Serves, Shuts};
use crate::rows::{Came, Run, Session, told};
use std::test::Fail;

/// A publish of `/a`, of whole numbers, under publisher 1.
const PUBLISH: Came = Text(
    r#"[{"method":"publish","params":{"name":"/a","properties":{},"pubuid":1,"type":"int"}}]"#,
);

/// A question for the server's time.
const QUESTION: Came = Binary(&[0x94, 0xff, 0x00, 0x02, 0xce, 0x00, 0x0f, 0x42, 0x40]);

/// A connection over a link that doesn't fail, to which nothing comes.
const SILENT: Session = Session {
    name: "desk",
    frames: &[],
    failing_recvs: &[],
    failing_sends: &[],
    quiet_recvs: &[],
    moments: &[1],
};

/// A question for the time is answered with the moment, and makes no entry.
const TIME: Run = Run {
    permits: 0,
    rows: &[Serves(Session {
        frames: &[QUESTION],
        moments: &[2_000_000],
        ..SILENT
    })],
    wanted: "1 Ended, ignored 0
hex 94 ff ce 00 1e 84 80 02 ce 00 0f 42 40
2 1 2000000 Opened desk
2 1 2000000 Closed
",
};

/// A topic is announced to its publisher, before the end of the link is found.
const ANNOUNCED: Run = Run {
    permits: 1,
    rows: &[
        Permits,
        Serves(Session {
            name: "desk1",
            frames: &[PUBLISH],
            moments: &[2, 3, 4, 5],
            ..SILENT
        }),
        Permits,
    ],
    wanted: r#"1 Ended, ignored 0
[{"method":"announce","params":{"id":1,"name":"/a","properties":{},"pubuid":1,"type":"int"}}]
1 0 1 Permitted
2 1 2 Opened desk1
2 1 3 Said
2 1 4 Drained 1 0
2 1 5 Closed
1 0 5 NoPermit
"#,
};

/// The same, and then a shut, after which no permit is granted.
const ANNOUNCED_AND_SHUT: Run = Run {
    permits: 268_435_455,
    rows: &[
        Permits,
        Serves(Session {
            name: "desk1",
            frames: &[PUBLISH],
            moments: &[2, 3, 4, 5],
            ..SILENT
        }),
        Shuts,
        Permits,
    ],
    wanted: r#"1 Ended, ignored 0
[{"method":"announce","params":{"id":1,"name":"/a","properties":{},"pubuid":1,"type":"int"}}]
1 0 1 Permitted
2 1 2 Opened desk1
2 1 3 Said
2 1 4 Drained 1 0
2 1 5 Closed
1 0 5 Shut
1 0 5 NoPermit
"#,
};

/// What one connection publishes and puts, another that subscribes to all is sent.
const TWO_CONNECTIONS: Run = Run {
    permits: 0,
    rows: &[
        Opens("robot"),
        Says(
            r#"[{"method":"publish","params":{"name":"/SmartDashboard/x","properties":{},"pubuid":1,"type":"double"}}]"#,
        ),
        Puts(0x3ff0_0000_0000_0000),
        Serves(Session {
            name: "dash",
            frames: &[Text(
                r#"[{"method":"subscribe","params":{"topics":[""],"subuid":1,"options":{"periodic":0.1,"prefix":true}}}]"#,
            )],
            ..SILENT
        }),
    ],
    wanted: r#"2 Ended, ignored 0
[{"method":"announce","params":{"id":1,"name":"/SmartDashboard/x","properties":{},"type":"double"}}]
hex 94 01 ce 00 0f 42 40 01 cb 3f f0 00 00 00 00 00 00
1 1 1 Opened robot
1 1 1 Said
1 1 1 Put 1 1000000 3ff0000000000000
2 2 1 Opened dash
2 2 1 Said
2 2 1 Drained 1 1
2 2 1 Closed
1 /SmartDashboard/x double 1000000 3ff0000000000000
"#,
};

/// A topic ends and begins anew within one frame: one drain tells both, and the value that comes then has the new id.
const RENEWED: Run = Run {
    permits: 0,
    rows: &[Serves(Session {
        frames: &[
            Text(
                r#"[{"method":"publish","params":{"name":"/a","properties":{},"pubuid":1,"type":"int"}},
                {"method":"subscribe","params":{"topics":["/a"],"subuid":1}}]"#,
            ),
            Text(
                r#"[{"method":"unsubscribe","params":{"subuid":1}},{"method":"unpublish","params":{"pubuid":1}},
                {"method":"publish","params":{"name":"/a","properties":{},"pubuid":2,"type":"int"}},
                {"method":"subscribe","params":{"topics":["/a"],"subuid":1}}]"#,
            ),
            Binary(&[0x94, 0x02, 0x0a, 0x02, 0x07]),
        ],
        ..SILENT
    })],
    wanted: r#"1 Ended, ignored 0
[{"method":"announce","params":{"id":1,"name":"/a","properties":{},"pubuid":1,"type":"int"}}]
[{"method":"unannounce","params":{"id":1,"name":"/a"}},{"method":"announce","params":{"id":2,"name":"/a","properties":{},"pubuid":2,"type":"int"}}]
hex 94 02 0a 02 07
2 1 1 Opened desk
2 1 1 Said
2 1 1 Said
2 1 1 Drained 1 0
2 1 1 Said
2 1 1 Said
2 1 1 Said
2 1 1 Said
2 1 1 Drained 2 0
2 1 1 Put 2 10 7
2 1 1 Drained 0 1
2 1 1 Closed
"#,
};

/// A second publish of a topic under another type is answered with the topic's own. A value of a type that isn't known
/// is no message, and one of another type than the topic's is ignored.
const ANOTHER_TYPE: Run = Run {
    permits: 0,
    rows: &[Serves(Session {
        frames: &[
            PUBLISH,
            Text(
                r#"[{"method":"publish","params":{"name":"/a","properties":{},"pubuid":2,"type":"string"}}]"#,
            ),
            Binary(&[0x94, 0x02, 0x0a, 0xa1, 0x04, 0xa1, 0x78]),
            Binary(&[0x94, 0x02, 0x0a, 0x04, 0xa1, 0x78]),
        ],
        ..SILENT
    })],
    wanted: r#"1 Ended, ignored 2
[{"method":"announce","params":{"id":1,"name":"/a","properties":{},"pubuid":1,"type":"int"}}]
[{"method":"announce","params":{"id":1,"name":"/a","properties":{},"pubuid":2,"type":"int"}}]
2 1 1 Opened desk
2 1 1 Said
2 1 1 Drained 1 0
2 1 1 Said
2 1 1 Drained 1 0
2 1 1 Put 2 10 size 1
2 1 1 Closed
"#,
};

/// What comes before the fault of a binary frame is taken.
const BEFORE_A_FAULT: Run = Run {
    permits: 0,
    rows: &[Serves(Session {
        frames: &[PUBLISH, Binary(&[0x94, 0x01, 0x0a, 0x02, 0x07, 0xc1])],
        ..SILENT
    })],
    wanted: r#"1 Ended, ignored 1
[{"method":"announce","params":{"id":1,"name":"/a","properties":{},"pubuid":1,"type":"int"}}]
2 1 1 Opened desk
2 1 1 Said
2 1 1 Drained 1 0
2 1 1 Put 1 10 7
2 1 1 Closed
"#,
};

/// A text that is no JSON, two elements that are no messages, and a message that is ignored.
const IGNORED: Run = Run {
    permits: 0,
    rows: &[Serves(Session {
        frames: &[
            Text("x"),
            Text(r#"[1,{"method":"unpublish","params":{"pubuid":9}},{}]"#),
        ],
        ..SILENT
    })],
    wanted: "1 Ended, ignored 4
2 1 1 Opened desk
2 1 1 Said
2 1 1 Closed
",
};

/// The first frame that is asked for fails: the connection is opened and closed.
const FAILING_RECV: Run = Run {
    permits: 0,
    rows: &[Serves(Session {
        frames: &[PUBLISH],
        failing_recvs: &[0],
        ..SILENT
    })],
    wanted: "1 LinkFault, ignored 0
2 1 1 Opened desk
2 1 1 Closed
",
};

/// The first frame that is sent fails: what is handed is lost, and the next frame isn't asked for.
const FAILING_SEND: Run = Run {
    permits: 0,
    rows: &[Serves(Session {
        frames: &[PUBLISH, QUESTION],
        failing_sends: &[0],
        ..SILENT
    })],
    wanted: "1 LinkFault, ignored 0
2 1 1 Opened desk
2 1 1 Said
2 1 1 Drained 1 0
2 1 1 Closed
",
};

/// The answer to a question fails: what comes after it in the same frame isn't said.
const FAILING_ANSWER: Run = Run {
    permits: 0,
    rows: &[Serves(Session {
        frames: &[Binary(&[0x94, 0xff, 0x00, 0x02, 0x07, 0x94, 0x01, 0x0a, 0x02, 0x07])],
        failing_sends: &[0],
        ..SILENT
    })],
    wanted: "1 LinkFault, ignored 0
2 1 1 Opened desk
2 1 1 Closed
",
};

/// Where nothing comes, nothing is done but a look. The clock goes back, and the moments of entries don't.
const QUIET: Run = Run {
    permits: 0,
    rows: &[Serves(Session {
        frames: &[PUBLISH, QUESTION],
        quiet_recvs: &[0, 2],
        moments: &[5, 3, 9, 7, 8],
        ..SILENT
    })],
    wanted: r#"1 Ended, ignored 0
[{"method":"announce","params":{"id":1,"name":"/a","properties":{},"pubuid":1,"type":"int"}}]
hex 94 ff 07 02 ce 00 0f 42 40
2 1 5 Opened desk
2 1 5 Said
2 1 9 Drained 1 0
2 1 9 Closed
"#,
};

/// A server that is shut ends a session after its first frame, whose messages are said, and hands nothing.
const SHUT: Run = Run {
    permits: 0,
    rows: &[
        Shuts,
        Serves(Session {
            frames: &[PUBLISH, QUESTION],
            moments: &[2, 3, 4],
            ..SILENT
        }),
    ],
    wanted: "1 Shut, ignored 0
1 0 1 Shut
2 1 2 Opened desk
2 1 3 Said
2 1 4 Closed
",
};

/// A second open connection of a name is given another. With the only publisher of `/a` and of a retained `/b`, `/a`
/// ends, and `/b` lives with its value, which the next connection is sent.
const LOST_PUBLISHER: Run = Run {
    permits: 0,
    rows: &[
        Opens("dash"),
        Serves(Session {
            name: "dash",
            frames: &[
                Text(
                    r#"[{"method":"publish","params":{"name":"/a","properties":{},"pubuid":1,"type":"int"}},
                    {"method":"publish","params":{"name":"/b","properties":{"retained":true},"pubuid":2,"type":"int"}}]"#,
                ),
                Binary(&[0x94, 0x01, 0x0a, 0x02, 0x05, 0x94, 0x02, 0x0a, 0x02, 0x06]),
            ],
            ..SILENT
        }),
        Serves(Session {
            name: "dash",
            frames: &[Text(
                r#"[{"method":"subscribe","params":{"topics":["/"],"subuid":1,"options":{"prefix":true}}}]"#,
            )],
            ..SILENT
        }),
    ],
    wanted: r#"2 Ended, ignored 0
[{"method":"announce","params":{"id":1,"name":"/a","properties":{},"pubuid":1,"type":"int"}},{"method":"announce","params":{"id":2,"name":"/b","properties":{"retained":true},"pubuid":2,"type":"int"}}]
3 Ended, ignored 0
[{"method":"announce","params":{"id":2,"name":"/b","properties":{"retained":true},"type":"int"}}]
hex 94 02 0a 02 06
1 1 1 Opened dash
2 2 1 Opened dash@1
2 2 1 Said
2 2 1 Said
2 2 1 Drained 2 0
2 2 1 Put 1 10 5
2 2 1 Put 2 10 6
2 2 1 Closed
2 3 1 Opened dash@1
2 3 1 Said
2 3 1 Drained 1 1
2 3 1 Closed
2 /b int 10 6
"#,
};

#[test]
fn sessions_say_and_hand_what_they_must(rt: HostRuntime) -> Result<(), Fail> {
    let runs: [Run; 14] = [
        TIME,
        ANNOUNCED,
        ANNOUNCED_AND_SHUT,
        TWO_CONNECTIONS,
        RENEWED,
        ANOTHER_TYPE,
        BEFORE_A_FAULT,
        IGNORED,
        FAILING_RECV,
        FAILING_SEND,
        FAILING_ANSWER,
        QUIET,
        SHUT,
        LOST_PUBLISHER,
    ];
    for run in &runs {
        assert_eq!(rt; told(&rt, rt.alloc(), run)?.as_str(), run.wanted);
    }
    Ok(())
}
