//! Value frames, by NetworkTables 4.1 and the MessagePack specification.

use nt_frames::{FrameFault, FrameKind, ValueMsg, read_frame, write_frame};
use nt_values::{Bools, Bytes, Doubles, Floats, Ints, Text, Texts, Value};
use std::alloc::{AllocError, Global};
use std::test::Fail;

/// The greatest size of a value that a server takes.
const SERVER_LIMIT: u64 = 131_072;

/// Frames with a fault: the bytes, how many messages stand before it, its place and its kind.
const FAULTS: &[(&[u8], usize, u64, FrameKind)] = &[
    // Cut short: the head, the id, the timestamp, the type, the value.
    (&[0xdc, 0x00], 0, 0, FrameKind::Short),
    (&[0x94], 0, 0, FrameKind::Short),
    (&[0x94, 0xcd, 0x01], 0, 0, FrameKind::Short),
    (&[0x94, 0x01, 0x0a], 0, 0, FrameKind::Short),
    (&[0x94, 0x01, 0x0a, 0x02], 0, 0, FrameKind::Short),
    (
        &[0x94, 0x01, 0x0a, 0x10, 0x92, 0xc3],
        0,
        0,
        FrameKind::Short,
    ),
    // A text that isn't all there is short, whatever it has so far.
    (
        &[0x94, 0x01, 0x0a, 0x04, 0xa2, 0xff],
        0,
        0,
        FrameKind::Short,
    ),
    // Lengths that the bytes don't hold.
    (
        &[0x94, 0x05, 0x00, 0x05, 0xc6, 0xff, 0xff, 0xff, 0xff],
        0,
        0,
        FrameKind::Short,
    ),
    (
        &[0x94, 0x01, 0x0a, 0x10, 0xdd, 0xff, 0xff, 0xff, 0xff],
        0,
        0,
        FrameKind::Short,
    ),
    (
        &[
            0x94, 0x01, 0x0a, 0x12, 0xdd, 0xff, 0xff, 0xff, 0xff, 0x01, 0x02,
        ],
        0,
        0,
        FrameKind::Short,
    ),
    // No array of four.
    (&[0x93, 0x01, 0x0a, 0x02], 0, 0, FrameKind::NotArray4),
    (&[0x95, 0x01, 0x0a, 0x02, 0x07], 0, 0, FrameKind::NotArray4),
    (&[0x84, 0x01, 0x0a, 0x02, 0x07], 0, 0, FrameKind::NotArray4),
    (&[0xdd, 0xff, 0xff, 0xff, 0xff], 0, 0, FrameKind::NotArray4),
    (&[0xc1], 0, 0, FrameKind::NotArray4),
    // No id: a truth value, 2^63, nil.
    (&[0x94, 0xc3, 0x0a, 0x02, 0x07], 0, 0, FrameKind::BadId),
    (
        &[0x94, 0xcf, 0x80, 0, 0, 0, 0, 0, 0, 0, 0x0a, 0x02, 0x07],
        0,
        0,
        FrameKind::BadId,
    ),
    (&[0x94, 0xc0, 0x0a, 0x02, 0x07], 0, 0, FrameKind::BadId),
    // No timestamp: -1, 2^63, a double.
    (&[0x94, 0x01, 0xff, 0x02, 0x07], 0, 0, FrameKind::BadTime),
    (
        &[0x94, 0x01, 0xcf, 0x80, 0, 0, 0, 0, 0, 0, 0, 0x02, 0x07],
        0,
        0,
        FrameKind::BadTime,
    ),
    (
        &[0x94, 0x01, 0xcb, 0, 0, 0, 0, 0, 0, 0, 0, 0x02, 0x07],
        0,
        0,
        FrameKind::BadTime,
    ),
    // No data type: 6, 15, 21, 256, -1, the name of one.
    (&[0x94, 0x01, 0x0a, 0x06, 0x07], 0, 0, FrameKind::BadType),
    (&[0x94, 0x01, 0x0a, 0x0f, 0x90], 0, 0, FrameKind::BadType),
    (&[0x94, 0x01, 0x0a, 0x15, 0x90], 0, 0, FrameKind::BadType),
    (
        &[0x94, 0x01, 0x0a, 0xcd, 0x01, 0x00, 0xc3],
        0,
        0,
        FrameKind::BadType,
    ),
    (&[0x94, 0x01, 0x0a, 0xff, 0x07], 0, 0, FrameKind::BadType),
    (
        &[0x94, 0x01, 0x0a, 0xa1, 0x78, 0x07],
        0,
        0,
        FrameKind::BadType,
    ),
    // A value of another type: of an int, 2^63, a whole number for a boolean, an array for a single
    // value.
    (&[0x94, 0x01, 0x0a, 0x02, 0xc3], 0, 0, FrameKind::BadValue),
    (
        &[0x94, 0x01, 0x0a, 0x02, 0xcf, 0x80, 0, 0, 0, 0, 0, 0, 0],
        0,
        0,
        FrameKind::BadValue,
    ),
    (
        &[0x94, 0x01, 0x0a, 0x02, 0xca, 0, 0, 0, 0],
        0,
        0,
        FrameKind::BadValue,
    ),
    (&[0x94, 0x01, 0x0a, 0x00, 0x01], 0, 0, FrameKind::BadValue),
    (
        &[0x94, 0x01, 0x0a, 0x01, 0xa1, 0x31],
        0,
        0,
        FrameKind::BadValue,
    ),
    (
        &[0x94, 0x01, 0x0a, 0x04, 0xc4, 0x00],
        0,
        0,
        FrameKind::BadValue,
    ),
    (
        &[0x94, 0x01, 0x0a, 0x04, 0xa1, 0xff],
        0,
        0,
        FrameKind::BadValue,
    ),
    (&[0x94, 0x01, 0x0a, 0x05, 0xa0], 0, 0, FrameKind::BadValue),
    (&[0x94, 0x01, 0x0a, 0x10, 0xc3], 0, 0, FrameKind::BadValue),
    (
        &[0x94, 0x01, 0x0a, 0x12, 0x92, 0x01, 0xc3],
        0,
        0,
        FrameKind::BadValue,
    ),
    // Behind whole messages: their place is that of the message, and what stands before it is kept.
    (
        &[0x94, 0x01, 0x0a, 0x02, 0x07, 0xc1],
        1,
        5,
        FrameKind::NotArray4,
    ),
    (
        &[0x94, 0x01, 0x0a, 0x02, 0x07, 0x94, 0x01, 0xff],
        1,
        5,
        FrameKind::BadTime,
    ),
    (
        &[
            0x94, 0x01, 0x0a, 0x02, 0x07, 0x94, 0x02, 0x0b, 0x00, 0xc3, 0x94, 0x01, 0x0a, 0x04,
        ],
        2,
        10,
        FrameKind::Short,
    ),
];

#[test]
fn tells_what_is_wrong_and_where(rt: HostRuntime) -> Result<(), Fail> {
    for (bytes, before, at, kind) in FAULTS {
        let read = read_frame(rt.alloc(), bytes, SERVER_LIMIT)?;
        let fault = FrameFault {
            at: *at,
            kind: *kind,
        };
        assert_eq!(rt; read.fault, Some(fault), "{bytes:?}");
        assert_eq!(rt; read.messages.len(), *before, "{bytes:?}");
    }
    Ok(())
}

/// The frame has one message with this id and timestamp, and no fault.
fn is_read(alloc: Global, bytes: &[u8], id: i64, time: u64) -> Result<Option<Value>, AllocError> {
    let read = read_frame(alloc, bytes, SERVER_LIMIT)?;
    let mut messages = read.messages;
    match (messages.pop(), read.fault) {
        (Some(message), None) => {
            let whole = messages.is_empty() && message.id == id && message.time == time;
            Ok(if whole { Some(message.value) } else { None })
        }
        _ => Ok(None),
    }
}

/// Messages with an int, some of them longer than they need be: the bytes, id, timestamp and value.
const INTS: &[(&[u8], i64, u64, i64)] = &[
    (
        &[0x94, 0x05, 0xce, 0x00, 0x0f, 0x42, 0x40, 0x02, 0x2a],
        5,
        1_000_000,
        42,
    ),
    (
        &[
            0x94, 0x05, 0xce, 0x00, 0x0f, 0x42, 0x40, 0x02, 0xd3, 0, 0, 0, 0, 0, 0, 0, 0x2a,
        ],
        5,
        1_000_000,
        42,
    ),
    (
        &[
            0xdd, 0, 0, 0, 4, 0xcc, 0x05, 0xcd, 0, 1, 0xcc, 0x02, 0xd0, 0xff,
        ],
        5,
        1,
        -1,
    ),
    // The edges of ids, timestamps and values.
    (
        &[
            0x94, 0xd3, 0x80, 0, 0, 0, 0, 0, 0, 0, 0x00, 0x02, 0xd3, 0x80, 0, 0, 0, 0, 0, 0, 0,
        ],
        -9_223_372_036_854_775_808,
        0,
        -9_223_372_036_854_775_808,
    ),
    (
        &[
            0x94, 0xcf, 0x7f, 0xff, 0xff, 0xff, 0xff, 0xff, 0xff, 0xff, 0xcf, 0x7f, 0xff, 0xff,
            0xff, 0xff, 0xff, 0xff, 0xff, 0x02, 0xcf, 0x7f, 0xff, 0xff, 0xff, 0xff, 0xff, 0xff,
            0xff,
        ],
        9_223_372_036_854_775_807,
        9_223_372_036_854_775_807,
        9_223_372_036_854_775_807,
    ),
];

#[test]
fn reads_ints_at_the_edges(rt: HostRuntime) -> Result<(), Fail> {
    for (bytes, id, time, number) in INTS {
        let read = match is_read(rt.alloc(), bytes, *id, *time)? {
            Some(Value::Int(number)) => Some(number),
            _ => None,
        };
        assert_eq!(rt; read, Some(*number), "{bytes:?}");
    }
    Ok(())
}

/// Doubles as they may be spelled, and their bits: 2^53 + 1 as a whole number, 1.5 in both widths.
const DOUBLES: &[(&[u8], u64)] = &[
    (
        &[0xcf, 0x00, 0x20, 0, 0, 0, 0, 0, 0x01],
        0x4340_0000_0000_0000,
    ),
    (&[0xcb, 0x3f, 0xf8, 0, 0, 0, 0, 0, 0], 0x3ff8_0000_0000_0000),
    (&[0xca, 0x3f, 0xc0, 0, 0], 0x3ff8_0000_0000_0000),
    (&[0x00], 0),
    (&[0xff], 0xbff0_0000_0000_0000),
    (
        &[0xcf, 0xff, 0xff, 0xff, 0xff, 0xff, 0xff, 0xff, 0xff],
        0x43f0_0000_0000_0000,
    ),
];

/// Floats as they may be spelled, and their bits: 2^24 + 1 as a whole number, 1.5 in both widths.
const FLOATS: &[(&[u8], u32)] = &[
    (&[0xce, 0x01, 0x00, 0x00, 0x01], 0x4b80_0000),
    (&[0xca, 0x3f, 0xc0, 0, 0], 0x3fc0_0000),
    (&[0xcb, 0x3f, 0xf8, 0, 0, 0, 0, 0, 0], 0x3fc0_0000),
    (&[0xff], 0xbf80_0000),
];

#[test]
fn reads_doubles_and_floats_by_either_width(rt: HostRuntime) -> Result<(), Fail> {
    for (spelling, bits) in DOUBLES {
        let mut bytes = Vec::from_slice(rt.alloc(), &[0x94, 0x05, 0x00, 0x01])?;
        bytes.extend_from_slice(spelling)?;
        let read = match is_read(rt.alloc(), &bytes, 5, 0)? {
            Some(Value::Double(bits)) => Some(bits),
            _ => None,
        };
        assert_eq!(rt; read, Some(*bits), "{spelling:?}");
    }
    for (spelling, bits) in FLOATS {
        let mut bytes = Vec::from_slice(rt.alloc(), &[0x94, 0x05, 0x00, 0x03])?;
        bytes.extend_from_slice(spelling)?;
        let read = match is_read(rt.alloc(), &bytes, 5, 0)? {
            Some(Value::Float(bits)) => Some(bits),
            _ => None,
        };
        assert_eq!(rt; read, Some(*bits), "{spelling:?}");
    }
    Ok(())
}

#[test]
fn takes_values_up_to_the_limit(rt: HostRuntime) -> Result<(), Fail> {
    let too_large = Some(FrameFault {
        at: 0,
        kind: FrameKind::TooLarge,
    });
    for (len, fault) in [(131_072_usize, None), (131_073, too_large)] {
        let raw = Bytes::of_vec(vec![in rt.alloc(); 7; len]?);
        let messages = [ValueMsg {
            id: 1,
            time: 10,
            value: Value::Bytes(raw),
        }];
        let frame = write_frame(rt.alloc(), &messages)?;
        let read = read_frame(rt.alloc(), frame.as_bytes(), SERVER_LIMIT)?;
        assert_eq!(rt; read.fault, fault, "{len}");
        // The last byte is missing: too short, however large it would be.
        let cut = &frame.as_bytes()[..frame.as_bytes().len() / 2];
        let read = read_frame(rt.alloc(), cut, SERVER_LIMIT)?;
        assert_eq!(rt;
            read.fault.map(|fault| fault.kind),
            Some(FrameKind::Short),
            "{len}"
        );
    }
    // A wrong element is known before the size.
    let read = read_frame(rt.alloc(), &[0x94, 0x01, 0x0a, 0x12, 0x92, 0x01, 0xc3], 0)?;
    assert_eq!(rt;
        read.fault.map(|fault| fault.kind),
        Some(FrameKind::BadValue)
    );
    Ok(())
}

/// One message of each data type, in its shortest spelling.
const EACH_TYPE: &[u8] = &[
    0x94, 0x01, 0x0a, 0x00, 0xc3, // true
    0x94, 0x02, 0x0a, 0x01, 0xcb, 0x3f, 0xf8, 0, 0, 0, 0, 0, 0, // 1.5
    0x94, 0xff, 0x00, 0x02, 0xd0, 0xdf, // -33
    0x94, 0x03, 0xcc, 0x80, 0x03, 0xca, 0x3f, 0xc0, 0, 0, // 1.5
    0x94, 0x04, 0xcd, 0x01, 0x00, 0x04, 0xa2, 0xc3, 0xa9, // "é"
    0x94, 0x05, 0x0a, 0x05, 0xc4, 0x01, 0xff, // one byte
    0x94, 0x06, 0x0a, 0x10, 0x92, 0xc3, 0xc2, // true, false
    0x94, 0x07, 0x0a, 0x11, 0x91, 0xcb, 0x3f, 0xf8, 0, 0, 0, 0, 0, 0, // 1.5
    0x94, 0x08, 0x0a, 0x12, 0x93, 0x7f, 0xcc, 0x80, 0xff, // 127, 128, -1
    0x94, 0x09, 0x0a, 0x13, 0x90, // no float
    0x94, 0x0a, 0x0a, 0x14, 0x92, 0xa0, 0xa1, 0x61, // "", "a"
];

fn lists(alloc: Global) -> Result<Vec<Value>, AllocError> {
    let mut bools = Bools::empty(alloc);
    bools.push(true)?;
    bools.push(false)?;
    let mut doubles = Doubles::empty(alloc);
    doubles.push(0x3ff8_0000_0000_0000)?;
    let mut ints = Ints::empty(alloc);
    for number in [127, 128, -1] {
        ints.push(number)?;
    }
    let mut texts = Texts::empty(alloc);
    texts.push(Text::of(alloc, "")?)?;
    texts.push(Text::of(alloc, "a")?)?;
    let mut values = Vec::new(alloc);
    values.push(Value::Bools(bools))?;
    values.push(Value::Doubles(doubles))?;
    values.push(Value::Ints(ints))?;
    values.push(Value::Floats(Floats::empty(alloc)))?;
    values.push(Value::Texts(texts))?;
    Ok(values)
}

/// The messages of `EACH_TYPE`.
fn each_type(alloc: Global) -> Result<Vec<ValueMsg>, AllocError> {
    let mut values = Vec::new(alloc);
    values.push((1, 10, Value::Bool(true)))?;
    values.push((2, 10, Value::Double(0x3ff8_0000_0000_0000)))?;
    values.push((-1, 0, Value::Int(-33)))?;
    values.push((3, 128, Value::Float(0x3fc0_0000)))?;
    values.push((4, 256, Value::Text(Text::of(alloc, "é")?)))?;
    values.push((5, 10, Value::Bytes(Bytes::of(alloc, &[0xff])?)))?;
    let mut id = 6;
    for list in lists(alloc)? {
        values.push((id, 10, list))?;
        id = if id < 10 { id + 1 } else { 6 };
    }
    let mut messages = Vec::new(alloc);
    for (id, time, value) in values {
        messages.push(ValueMsg { id, time, value })?;
    }
    Ok(messages)
}

#[test]
fn writes_each_type_and_reads_it_back(rt: HostRuntime) -> Result<(), Fail> {
    let messages = each_type(rt.alloc())?;
    let frame = write_frame(rt.alloc(), &messages)?;
    assert_eq!(rt; frame.as_bytes(), EACH_TYPE);
    let read = read_frame(rt.alloc(), EACH_TYPE, SERVER_LIMIT)?;
    assert_eq!(rt; read.fault, None);
    let again = write_frame(rt.alloc(), &read.messages)?;
    assert_eq!(rt; again.as_bytes(), EACH_TYPE);
    Ok(())
}

#[test]
fn writes_the_shortest_spelling(rt: HostRuntime) -> Result<(), Fail> {
    let mut messages = Vec::new(rt.alloc());
    messages.push(ValueMsg {
        id: 5,
        time: 1_000_000,
        value: Value::Int(42),
    })?;
    let frame = write_frame(rt.alloc(), &messages)?;
    assert_eq!(rt;
        frame.as_bytes(),
        [0x94, 0x05, 0xce, 0x00, 0x0f, 0x42, 0x40, 0x02, 0x2a].as_slice()
    );
    Ok(())
}

#[test]
fn copies_messages(rt: HostRuntime) -> Result<(), Fail> {
    let mut copies = Vec::new(rt.alloc());
    for message in &each_type(rt.alloc())? {
        copies.push(message.copy(rt.alloc())?)?;
    }
    let frame = write_frame(rt.alloc(), &copies)?;
    assert_eq!(rt; frame.as_bytes(), EACH_TYPE);
    Ok(())
}

#[test]
fn an_empty_frame_has_no_message(rt: HostRuntime) -> Result<(), Fail> {
    let read = read_frame(rt.alloc(), &[], SERVER_LIMIT)?;
    assert_eq!(rt; (read.messages.len(), read.fault), (0, None));
    assert!(rt; write_frame(rt.alloc(), &[])?.as_bytes().is_empty());
    Ok(())
}
