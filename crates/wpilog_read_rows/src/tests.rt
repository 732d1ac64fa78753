use super::*;
use nt_values::{Bytes, Text};
use std::alloc::{AllocError, Global};
use std::test::Fail;
use wpilog_read::{ItemAt, LogFault, LogKind, LogRead, LogReader, NextFault, read_pieces};
use wpilog_write::{LogItem, LogValue};

/// The header and the three records.
fn whole_log(alloc: Global) -> Result<Vec<u8>, AllocError> {
    let mut log = Vec::from_slice(alloc, &HEADER)?;
    log.extend_from_slice(&START)?;
    log.extend_from_slice(&VALUE)?;
    log.extend_from_slice(&FINISH)?;
    Ok(log)
}

fn is_start(x: &ItemAt) -> bool {
    match &x.item {
        LogItem::Start {
            time,
            id,
            name,
            typ,
            meta,
        } => {
            x.at == 12
                && *time == 1_000_000
                && *id == 1
                && name.as_str() == "test"
                && typ.as_str() == "int64"
                && meta.as_str().is_empty()
        }
        _ => false,
    }
}

fn is_value(x: &ItemAt) -> bool {
    match &x.item {
        LogItem::Value {
            time,
            id,
            value: LogValue::Int64(number),
        } => x.at == 44 && *time == 1_000_000 && *id == 1 && *number == 3,
        _ => false,
    }
}

fn is_finish(x: &ItemAt) -> bool {
    match &x.item {
        LogItem::Finish { time, id } => x.at == 58 && *time == 1_000_000 && *id == 1,
        _ => false,
    }
}

fn is_whole_log(log: &LogRead) -> bool {
    match log.items.as_slice() {
        [first, second, third] => {
            is_start(first)
                && is_value(second)
                && is_finish(third)
                && log.fault.is_none()
                && log.extra.is_some()
        }
        _ => false,
    }
}

#[test]
fn reads_the_same_items_however_the_log_is_cut(rt: HostRuntime) -> Result<(), Fail> {
    let alloc = rt.alloc();
    let log = whole_log(alloc)?;
    let pieces = vec![in alloc; Bytes::of(alloc, &log)?]?;
    assert!(rt; is_whole_log(&read_pieces(alloc, &pieces)?));
    for cut in 0..=log.len() {
        let (prefix, back) = log.split_at(cut);
        let pieces = vec![in alloc; Bytes::of(alloc, prefix)?, Bytes::of(alloc, back)?]?;
        assert!(rt; is_whole_log(&read_pieces(alloc, &pieces)?), "cut at {cut}");
    }
    Ok(())
}

/// The fault that `next` answers.
fn fault_of(alloc: Global, reader: &mut LogReader) -> Option<LogFault> {
    match reader.next(alloc) {
        Err(NextFault::Log(fault)) => Some(fault),
        _ => None,
    }
}

#[test]
fn answers_a_fault_again(rt: HostRuntime) -> Result<(), Fail> {
    let alloc = rt.alloc();
    let fault = Some(LogFault {
        at: 12,
        kind: LogKind::NotLive,
    });
    let mut reader = LogReader::new(alloc);
    reader.feed(&HEADER)?;
    reader.feed(&VALUE)?;
    assert_eq!(rt; fault_of(alloc, &mut reader), fault);
    reader.feed(&START)?;
    assert_eq!(rt; fault_of(alloc, &mut reader), fault);
    let Err(NextFault::Log(_)) = reader.next(alloc) else {
        panic!(rt; "the fault is answered again");
    };
    assert_eq!(rt; reader.finish().err(), fault);
    Ok(())
}

#[test]
fn copies_are_equal(rt: HostRuntime) -> Result<(), Fail> {
    let alloc = rt.alloc();
    let item = LogItem::Start {
        time: 1_000_000,
        id: 1,
        name: Text::of(alloc, "test")?,
        typ: Text::of(alloc, "int64")?,
        meta: Text::of(alloc, "")?,
    };
    let copy = ItemAt {
        at: 12,
        item: item.copy(alloc)?,
    };
    assert!(rt; is_start(&copy));
    assert_eq!(rt; Bytes::of(alloc, &VALUE)?.as_bytes(), VALUE.as_slice());
    Ok(())
}

/// The fault of the header with these bytes after it, in one piece.
fn fault_after(alloc: Global, bytes: &[u8]) -> Result<Option<LogFault>, AllocError> {
    let mut log = Vec::from_slice(alloc, &HEADER)?;
    log.extend_from_slice(bytes)?;
    let pieces = vec![in alloc; Bytes::of_vec(log)]?;
    Ok(read_pieces(alloc, &pieces)?.fault)
}

#[test]
fn names_each_fault_of_the_header(rt: HostRuntime) -> Result<(), Fail> {
    let alloc = rt.alloc();
    let logs: [(&[u8], u64, LogKind); 9] = [
        (&[], 0, LogKind::Truncated),
        (b"WP", 0, LogKind::Truncated),
        (b"WPX", 0, LogKind::BadMagic),
        (b"WPILOH", 0, LogKind::BadMagic),
        (b"WPILOG\x00\x02", 6, LogKind::BadVersion),
        (b"WPILOG\x07\x01\x00\x00", 0, LogKind::Truncated),
        (b"WPILOG\x00\x01\x00\x00\x00\x01", 0, LogKind::Truncated),
        (b"WPILOG\x00\x01\x01\x00\x00\x01", 8, LogKind::TooLarge),
        (b"WPILOG\x00\x01\x02\x00\x00\x00a", 0, LogKind::Truncated),
    ];
    for (bytes, at, kind) in logs {
        let pieces = vec![in alloc; Bytes::of(alloc, bytes)?]?;
        let fault = read_pieces(alloc, &pieces)?.fault;
        assert_eq!(rt; fault, Some(LogFault { at, kind }), "{kind} at {at}");
    }
    Ok(())
}

#[test]
fn names_each_fault_of_a_record(rt: HostRuntime) -> Result<(), Fail> {
    let alloc = rt.alloc();
    let records: [(&[u8], LogKind); 19] = [
        (&[0x80], LogKind::SpareBit),
        (&[0xff, 1, 1, 1], LogKind::SpareBit),
        (&[0], LogKind::Truncated),
        (&[0, 1, 8], LogKind::Truncated),
        (&[0, 1, 8, 0], LogKind::NotLive),
        (&[0x0c, 0, 1, 0, 0, 1, 0], LogKind::TooLarge),
        (&[0x0c, 1, 1, 0, 0, 1, 0], LogKind::TooLarge),
        (&[0x0c, 0, 0, 0, 0, 1, 0], LogKind::Truncated),
        (&[0, 0, 0, 0], LogKind::ControlShort),
        (&[0, 0, 1, 0, 3], LogKind::UnknownControl),
        (&[0, 0, 4, 0, 1, 1, 0, 0], LogKind::ControlShort),
        (&[0, 0, 5, 0, 1, 1, 0, 0, 0], LogKind::NotLive),
        (&[0, 0, 6, 0, 1, 1, 0, 0, 0, 9], LogKind::ControlLong),
        (&[0, 0, 9, 0, 2, 1, 0, 0, 0, 0, 0, 0, 0], LogKind::NotLive),
        (
            &[0, 0, 10, 0, 2, 1, 0, 0, 0, 1, 0, 0, 0, 0xff],
            LogKind::BadText,
        ),
        (
            &[0, 0, 10, 0, 2, 1, 0, 0, 0, 0, 0, 0, 0, 9],
            LogKind::ControlLong,
        ),
        (
            &[0, 0, 9, 0, 2, 1, 0, 0, 0, 1, 0, 0, 0],
            LogKind::ControlShort,
        ),
        (
            &[
                0, 0, 17, 0, 0, 0, 0, 0, 0, 0, 0, 0, 0, 0, 0, 0, 0, 0, 0, 0, 0,
            ],
            LogKind::IdZero,
        ),
        (
            &[
                0, 0, 18, 0, 0, 0, 0, 0, 0, 1, 0, 0, 0, 0xff, 0, 0, 0, 0, 0, 0, 0, 0,
            ],
            LogKind::BadText,
        ),
    ];
    for (bytes, kind) in records {
        let fault = fault_after(alloc, bytes)?;
        assert_eq!(rt; fault, Some(LogFault { at: 12, kind }), "{kind}");
    }
    Ok(())
}

#[test]
fn names_the_faults_of_a_live_entry(rt: HostRuntime) -> Result<(), Fail> {
    let alloc = rt.alloc();
    let records: [(&[u8], LogKind); 2] = [
        (&START, LogKind::StartTwice),
        (&[0, 1, 1, 0, 7], LogKind::Misfit),
    ];
    for (bytes, kind) in records {
        let mut log = Vec::from_slice(alloc, &START)?;
        log.extend_from_slice(bytes)?;
        let fault = fault_after(alloc, &log)?;
        assert_eq!(rt; fault, Some(LogFault { at: 44, kind }), "{kind}");
    }
    Ok(())
}

/// What a data record with this payload says, of an entry of this type.
fn value_of(alloc: Global, typ: &str, payload: &[u8]) -> Result<Option<LogValue>, AllocError> {
    let mut log = Vec::new(alloc);
    let len = u8::try_from(typ.len()).unwrap_or(0);
    let size = len.wrapping_add(17);
    log.extend_from_slice(&[0, 0, size, 0, 0, 1, 0, 0, 0, 0, 0, 0, 0, len, 0, 0, 0])?;
    log.extend_from_slice(typ.as_bytes())?;
    let size = u8::try_from(payload.len()).unwrap_or(0);
    log.extend_from_slice(&[0, 0, 0, 0, 0, 1, size, 0])?;
    log.extend_from_slice(payload)?;
    let mut reader = LogReader::new(alloc);
    reader.feed(&HEADER)?;
    reader.feed(&log)?;
    let _start = reader.next(alloc);
    match reader.next(alloc) {
        Ok(
            Some(
                ItemAt {
                    item: LogItem::Value { value, .. },
                    ..
                },
            ),
        ) => Ok(Some(value)),
        _ => Ok(None),
    }
}

#[test]
fn reads_a_payload_exactly_where_it_is_of_its_type(rt: HostRuntime) -> Result<(), Fail> {
    let alloc = rt.alloc();
    let rows: [(&str, &[u8], bool); 22] = [
        ("boolean", &[1], true),
        ("boolean", &[2], false),
        ("boolean", &[0, 0], false),
        ("int64", &[1, 2, 3, 4, 5, 6, 7, 8], true),
        ("int64", &[1, 2, 3, 4], false),
        ("float", &[1, 2, 3, 4], true),
        ("float", &[], false),
        ("double", &[1, 2, 3, 4, 5, 6, 7, 8], true),
        ("double", &[1, 2, 3, 4], false),
        ("boolean[]", &[0, 1, 1], true),
        ("boolean[]", &[0, 2], false),
        ("int64[]", &[], true),
        ("int64[]", &[1, 2, 3, 4, 5, 6, 7], false),
        ("float[]", &[1, 2, 3, 4, 5, 6, 7, 8], true),
        ("double[]", &[1, 2, 3, 4, 5, 6, 7, 8], true),
        ("string[]", &[0, 0, 0, 0], true),
        ("string[]", &[], false),
        ("string[]", &[1, 0, 0, 0, 1, 0, 0, 0, 0xff], true),
        ("string[]", &[1, 0, 0, 0, 1, 0, 0, 0, 0xff, 0], false),
        ("string[]", &[2, 0, 0, 0, 0, 0, 0, 0], false),
        ("string", &[0xff], true),
        ("Boolean", &[2], true),
    ];
    for (typ, payload, is) in rows {
        let value = value_of(alloc, typ, payload)?;
        assert_eq!(rt; value.is_some(), is, "{typ}");
    }
    Ok(())
}

#[test]
fn keeps_only_what_is_not_whole(rt: HostRuntime) -> Result<(), Fail> {
    let alloc = rt.alloc();
    let log = whole_log(alloc)?;
    let mut reader = LogReader::new(alloc);
    let mut ends = Vec::new(alloc);
    for (last, byte) in log.as_slice().iter().enumerate() {
        reader.feed(&[*byte])?;
        if let Ok(Some(_item)) = reader.next(alloc) {
            ends.push(last)?;
        }
    }
    assert_eq!(rt; ends.as_slice(), [43, 57, 68].as_slice());
    let mut reader = LogReader::new(alloc);
    reader.feed(&HEADER)?;
    reader.feed(&START[..5])?;
    assert!(rt; reader.next(alloc).is_ok_and(|item| item.is_none()));
    assert_eq!(rt; reader.kept(), 5);
    assert_eq!(rt; reader.extra(), Some([].as_slice()));
    Ok(())
}
