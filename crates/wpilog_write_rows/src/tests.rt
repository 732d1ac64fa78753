use nt_link::MemSink;
use nt_values::{Bools, Bytes, Doubles, Floats, Ints, Text};
use std::alloc::{AllocError, Global};
use std::test::Fail;
use wpilog_write::{ByteTexts, LogItem, LogValue, LogWriter, WriteRefused};

/// A writer into memory, whose calls with these numbers fail.
fn writer(alloc: Global, extra: &[u8], fails: Vec<u64>) -> Result<LogWriter<MemSink>, AllocError> {
    match LogWriter::new(alloc, MemSink::new(alloc, fails), extra) {
        Ok(writer) => Ok(writer),
        Err((_sink, _refused)) => Err(AllocError),
    }
}

/// A Start at time 0.
fn start(alloc: Global, id: u32, typ: &str) -> Result<LogItem, AllocError> {
    Ok(LogItem::Start {
        time: 0,
        id,
        name: Text::of(alloc, "gen")?,
        typ: Text::of(alloc, typ)?,
        meta: Text::of(alloc, "")?,
    })
}

/// A value of entry 1.
fn value(time: u64, value: LogValue) -> LogItem {
    LogItem::Value { time, id: 1, value }
}

#[test]
fn writes_the_shortest_records(rt: HostRuntime) -> Result<(), Fail> {
    let alloc = rt.alloc();
    let mut log = writer(alloc, b"", vec![in alloc;]?)?;
    assert!(rt; log.put(&start(alloc, 1, "int64")?).is_ok());
    assert!(rt; log.put(&value(20, LogValue::Int64(7))).is_ok());
    let meta = LogItem::SetMeta {
        time: 300,
        id: 1,
        meta: Text::of(alloc, "x")?,
    };
    assert!(rt; log.put(&meta).is_ok());
    assert!(rt; log.put(&LogItem::Finish { time: 1, id: 1 }).is_ok());
    let again = LogItem::Start {
        time: 1_000_000,
        id: 1,
        name: Text::of(alloc, "test")?,
        typ: Text::of(alloc, "int64")?,
        meta: Text::of(alloc, "")?,
    };
    assert!(rt; log.put(&again).is_ok());
    let sink = log.finish();
    let records: [&[u8]; 6] = [
        &[0x57, 0x50, 0x49, 0x4c, 0x4f, 0x47, 0, 1, 0, 0, 0, 0],
        &[
            0, 0, 0x19, 0, 0, 1, 0, 0, 0, 3, 0, 0, 0, 0x67, 0x65, 0x6e, 5, 0, 0, 0, 0x69, 0x6e,
            0x74, 0x36, 0x34, 0, 0, 0, 0,
        ],
        &[0, 1, 8, 20, 7, 0, 0, 0, 0, 0, 0, 0],
        &[0x10, 0, 10, 0x2c, 1, 2, 1, 0, 0, 0, 1, 0, 0, 0, 0x78],
        &[0, 0, 5, 1, 1, 1, 0, 0, 0],
        &[
            0x20, 0, 0x1a, 0x40, 0x42, 0x0f, 0, 1, 0, 0, 0, 4, 0, 0, 0, 0x74, 0x65, 0x73, 0x74, 5,
            0, 0, 0, 0x69, 0x6e, 0x74, 0x36, 0x34, 0, 0, 0, 0,
        ],
    ];
    let mut expected = Vec::new(alloc);
    for bytes in records {
        expected.extend_from_slice(bytes)?;
    }
    assert_eq!(rt; sink.taken(), expected.as_slice());
    Ok(())
}

/// The payload of a value of an entry of this type, which follows the four bytes of its head.
fn payload_of(alloc: Global, typ: &str, item: LogValue) -> Result<Vec<u8>, AllocError> {
    let mut log = writer(alloc, b"", vec![in alloc;]?)?;
    let started = log.put(&start(alloc, 1, typ)?).is_ok();
    let written = log.put(&value(0, item)).is_ok();
    let sink = log.finish();
    if !started || !written {
        return Err(AllocError);
    }
    // The header, and the Start with its name of three bytes.
    let before = 12 + 4 + 5 + 4 + 3 + 4 + typ.len() + 4;
    Vec::from_slice(alloc, sink.taken().get(before + 4..).unwrap_or(&[]))
}

#[test]
fn writes_each_type(rt: HostRuntime) -> Result<(), Fail> {
    let alloc = rt.alloc();
    let texts = vec![in alloc; Bytes::of(alloc, b"a")?, Bytes::of(alloc, b"")?]?;
    let rows: [(&str, LogValue, &[u8]); 9] = [
        ("boolean", LogValue::Boolean(true), &[1]),
        ("float", LogValue::Float(0x3f80_0001), &[1, 0, 0x80, 0x3f]),
        (
            "double",
            LogValue::Double(0x3ff0_0000_0000_0002),
            &[2, 0, 0, 0, 0, 0, 0xf0, 0x3f],
        ),
        (
            "raw",
            LogValue::Bytes(Bytes::of(alloc, &[1, 255])?),
            &[1, 255],
        ),
        (
            "boolean[]",
            LogValue::Booleans(Bools::of_vec(vec![in alloc; true, false]?)),
            &[1, 0],
        ),
        (
            "int64[]",
            LogValue::Int64s(Ints::of_vec(vec![in alloc; -2]?)),
            &[0xfe, 255, 255, 255, 255, 255, 255, 255],
        ),
        (
            "float[]",
            LogValue::Floats(Floats::of_vec(vec![in alloc; 1, 2]?)),
            &[1, 0, 0, 0, 2, 0, 0, 0],
        ),
        (
            "double[]",
            LogValue::Doubles(Doubles::of_vec(vec![in alloc; 3]?)),
            &[3, 0, 0, 0, 0, 0, 0, 0],
        ),
        (
            "string[]",
            LogValue::Strings(ByteTexts::of_vec(texts)),
            &[2, 0, 0, 0, 1, 0, 0, 0, 0x61, 0, 0, 0, 0],
        ),
    ];
    for (typ, item, payload) in rows {
        let written = payload_of(alloc, typ, item)?;
        assert_eq!(rt; written.as_slice(), payload, "{typ}");
    }
    Ok(())
}

#[test]
fn refuses_each_cause_and_writes_nothing(rt: HostRuntime) -> Result<(), Fail> {
    let alloc = rt.alloc();
    let mut log = writer(alloc, b"extra", vec![in alloc;]?)?;
    assert!(rt; log.put(&start(alloc, 1, "int64")?).is_ok());
    let other = LogItem::Value {
        time: 0,
        id: 2,
        value: LogValue::Int64(1),
    };
    let long = Bytes::of_vec(vec![in alloc; 0; 16_777_217]?);
    let items = vec![in alloc;
        (start(alloc, 0, "int64")?, WriteRefused::IdZero),
        (start(alloc, 1, "int64")?, WriteRefused::Live),
        (other, WriteRefused::NotLive),
        (LogItem::Finish { time: 0, id: 0 }, WriteRefused::NotLive),
        (value(0, LogValue::Boolean(true)), WriteRefused::Misfit),
        (value(0, LogValue::Bytes(long)), WriteRefused::Misfit),
    ]?;
    for (item, cause) in items {
        assert_eq!(rt; log.put(&item).err(), Some(cause));
    }
    let large = LogItem::Start {
        time: 0,
        id: 2,
        name: Text::of_string(String::from_utf8(vec![in alloc; 0x61; 16_777_216]?).unwrap_or(
            String::new(alloc),
        )),
        typ: Text::of(alloc, "raw")?,
        meta: Text::of(alloc, "")?,
    };
    assert_eq!(rt; log.put(&large).err(), Some(WriteRefused::TooLarge));
    // The header with its extra header, and the one Start.
    assert_eq!(rt; log.finish().taken().len(), 17 + 29);
    Ok(())
}

#[test]
fn refuses_what_passes_a_limit(rt: HostRuntime) -> Result<(), Fail> {
    let alloc = rt.alloc();
    let mut log = writer(alloc, b"", vec![in alloc;]?)?;
    for id in 1..65_537 {
        assert!(rt; log.put(&start(alloc, id, "raw")?).is_ok());
    }
    assert_eq!(rt;
        log.put(&start(alloc, 65_537, "raw")?).err(),
        Some(WriteRefused::TooManyLive)
    );
    // Each Start has 4 bytes before its payload, and there 17 bytes of numbers and 6 of texts.
    let extra = vec![in alloc; 0; 16_777_217]?;
    let refused = LogWriter::new(alloc, log.finish(), &extra);
    match refused {
        Ok(_writer) => assert!(rt; false),
        Err((sink, cause)) => {
            assert_eq!(rt; cause, WriteRefused::TooLarge);
            assert_eq!(rt; sink.taken().len(), 12 + 65_536 * 27);
        }
    }
    Ok(())
}

#[test]
fn answers_failed_after_a_fault(rt: HostRuntime) -> Result<(), Fail> {
    let alloc = rt.alloc();
    let mut log = writer(alloc, b"", vec![in alloc; 1]?)?;
    let item = start(alloc, 1, "int64")?;
    assert_eq!(rt; log.put(&item).err(), Some(WriteRefused::WriteFault));
    assert_eq!(rt; log.put(&item).err(), Some(WriteRefused::Failed));
    assert_eq!(rt; log.finish().taken().len(), 12);
    Ok(())
}
