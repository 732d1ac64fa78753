//! Words, and what the commands answer where a call of the source or of the output fails.

ghost use Rattle.std.specs.Prelude.{None};
ghost use Rattle.nt_link.specs.Causes.{empty_aside};

use nt_cli::{UsageFault, run_tool, tool_files};
use nt_link::{Failed, MemSink, MemSource, Source};
use std::alloc::{AllocError, Global};
use std::test::Fail;
use wpilog_read_rows::{FINISH, HEADER, START, VALUE};

pub const PUBLISH_A: &str =
    r#"[{"method":"publish","params":{"name":"/a","properties":{},"pubuid":1,"type":"int"}}]"#;

pub const ANNOUNCE_A: &str =
    r#"[{"method":"announce","params":{"id":1,"name":"/a","properties":{},"pubuid":1,"type":"int"}}]"#;

pub const PUBLISH_B: &str =
    r#"[{"method":"publish","params":{"name":"/b","pubuid":-2,"type":"double"}}]"#;

pub const ANNOUNCE_B: &str =
    r#"[{"method":"announce","params":{"id":2,"name":"/b","properties":{},"pubuid":-2,"type":"double"}}]"#;

/// Words that no tool has.
const OTHER_WORDS: [&[&str]; 10] = [
    &[],
    &["frob"],
    &["check"],
    &["check", "a", "b"],
    &["show"],
    &["show", "a", "b"],
    &["desk", "a"],
    &["gen", "7", "0"],
    &["gen", "7", "100000001", "a"],
    &["gen", "+7", "0", "a"],
];

/// The log that `gen 7 0` makes: the header, a Start and a Finish.
const EMPTY_GEN: [u8; 50] = [
    0x57, 0x50, 0x49, 0x4c, 0x4f, 0x47, 0x00, 0x01, 0x00, 0x00, 0x00, 0x00, 0x00, 0x00, 0x19, 0x00,
    0x00, 0x01, 0x00, 0x00, 0x00, 0x03, 0x00, 0x00, 0x00, 0x67, 0x65, 0x6e, 0x05, 0x00, 0x00, 0x00,
    0x69, 0x6e, 0x74, 0x36, 0x34, 0x00, 0x00, 0x00, 0x00, 0x00, 0x00, 0x05, 0x01, 0x01, 0x01, 0x00,
    0x00, 0x00,
];

fn strings(alloc: Global, words: &[&str]) -> Result<Vec<String>, AllocError> {
    let mut strings = Vec::new(alloc);
    for word in words {
        strings.push(String::from_str(alloc, word)?)?;
    }
    Ok(strings)
}

pub fn joined(alloc: Global, parts: &[&[u8]]) -> Result<Vec<u8>, AllocError> {
    let mut bytes = Vec::new(alloc);
    for part in parts {
        bytes.extend_from_slice(part)?;
    }
    Ok(bytes)
}

/// Runs these words over these bytes, where these calls of the source and of the output fail, and compares the
/// printed text and the status.
pub fn prints(
    alloc: Global,
    words: &[&str],
    bytes: &[&[u8]],
    source_fails: &[u64],
    out_fails: &[u64],
    text: &str,
    status: u8,
) -> Result<bool, AllocError> {
    let words = strings(alloc, words)?;
    let bytes = joined(alloc, bytes)?;
    let mut source = MemSource::new(bytes, Vec::from_slice(alloc, source_fails)?);
    let mut sink = MemSink::new(alloc, Vec::new(alloc));
    let mut out = MemSink::new(alloc, Vec::from_slice(alloc, out_fails)?);
    let answer = run_tool(alloc, &words, &mut source, &mut sink, &mut out);
    Ok(answer == status && out.taken() == text.as_bytes())
}

#[test]
fn tools_name_their_file(rt: HostRuntime) -> Result<(), Fail> {
    let alloc = rt.alloc();
    for words in &OTHER_WORDS {
        let strings = strings(alloc, words)?;
        assert_eq!(rt; tool_files(alloc, &strings).err(), Some(UsageFault::Words));
    }
    for command in ["check", "show"] {
        let words = strings(alloc, &[command, "log.wpilog"])?;
        let files = tool_files(alloc, &words)?;
        assert_eq!(rt;
            files.source.as_ref().map(|path| path.as_str()),
            Some("log.wpilog")
        );
        assert!(rt; files.sink.is_none());
    }
    let files = tool_files(alloc, &strings(alloc, &["desk"])?)?;
    assert!(rt; files.source.is_none() && files.sink.is_none());
    let files = tool_files(alloc, &strings(alloc, &["gen", "007", "100000000", "a"])?)?;
    assert!(rt; files.source.is_none());
    assert_eq!(rt; files.sink.as_ref().map(|path| path.as_str()), Some("a"));
    Ok(())
}

#[test]
fn gen_makes_a_log_and_stops_where_a_write_fails(rt: HostRuntime) -> Result<(), Fail> {
    let alloc = rt.alloc();
    let words = strings(alloc, &["gen", "7", "0", "a"])?;
    let rows: [(&[u64], &[u64], &[u8], &str, u8); 3] = [
        (&[], &[], &EMPTY_GEN, "items 2 bytes 50\n", 0),
        (&[0], &[], &[], "", 4),
        (&[], &[0], &EMPTY_GEN, "", 4),
    ];
    for (sink_fails, out_fails, log, text, status) in &rows {
        let mut source = MemSource::new(Vec::new(alloc), Vec::from_slice(alloc, &[0])?);
        let mut sink = MemSink::new(alloc, Vec::from_slice(alloc, sink_fails)?);
        let mut out = MemSink::new(alloc, Vec::from_slice(alloc, out_fails)?);
        let answer = run_tool(alloc, &words, &mut source, &mut sink, &mut out);
        assert_eq!(rt; answer, *status);
        assert_eq!(rt; (sink.taken(), out.taken()), (*log, text.as_bytes()));
    }
    Ok(())
}

#[test]
fn failed_calls_end_with_4(rt: HostRuntime) -> Result<(), Fail> {
    let alloc = rt.alloc();
    let rows: [(&[u64], &[u64], &str); 3] = [
        (&[0], &[], "the first read"),
        (&[1], &[], "the second read"),
        (&[], &[0], "the first write"),
    ];
    for command in ["check", "show"] {
        for (source_fails, out_fails, why) in &rows {
            let log: [&[u8]; 2] = [&HEADER, &START];
            assert!(rt;
                prints(
                    alloc,
                    &[command, "log"],
                    &log,
                    source_fails,
                    out_fails,
                    "",
                    4
                )?,
                "{command}: {why}"
            );
        }
    }
    Ok(())
}

#[test]
fn show_stops_where_a_later_write_fails(rt: HostRuntime) -> Result<(), Fail> {
    let alloc = rt.alloc();
    let words = strings(alloc, &["show", "log"])?;
    let mut log = joined(alloc, &[&HEADER, &START])?;
    for _ in 0..6_000 {
        log.extend_from_slice(&VALUE)?;
    }
    let mut whole = MemSink::new(alloc, Vec::new(alloc));
    let mut cut = MemSink::new(alloc, Vec::from_slice(alloc, &[1])?);
    let mut sink = MemSink::new(alloc, Vec::new(alloc));
    let mut source = MemSource::new(Vec::from_slice(alloc, &log)?, Vec::new(alloc));
    let answer = run_tool(alloc, &words, &mut source, &mut sink, &mut whole);
    assert_eq!(rt; answer, 0);
    let mut source = MemSource::new(log, Vec::new(alloc));
    let answer = run_tool(alloc, &words, &mut source, &mut sink, &mut cut);
    assert_eq!(rt; answer, 4);
    assert!(rt; whole.taken().ends_with(b"\n@84030 D 1000000 1 i64:3\n"));
    assert!(rt; cut.taken().len() >= 65_536 && cut.taken().len() < 131_072);
    assert!(rt; cut.taken().len() < whole.taken().len());
    assert!(rt; whole.taken().starts_with(cut.taken()));
    Ok(())
}

#[test]
fn show_prints_items_before_a_read_that_fails(rt: HostRuntime) -> Result<(), Fail> {
    let alloc = rt.alloc();
    let words = strings(alloc, &["show", "log"])?;
    let mut log = joined(alloc, &[&HEADER, &START])?;
    for _ in 0..6_000 {
        log.extend_from_slice(&VALUE)?;
    }
    let mut source = MemSource::new(log, Vec::from_slice(alloc, &[1])?);
    let mut sink = MemSink::new(alloc, Vec::new(alloc));
    let mut out = MemSink::new(alloc, Vec::new(alloc));
    let answer = run_tool(alloc, &words, &mut source, &mut sink, &mut out);
    assert_eq!(rt; answer, 4);
    let first = b"@12 S 1000000 1 test int64 -\n@44 D 1000000 1 i64:3\n";
    assert!(rt; out.taken().starts_with(first));
    Ok(())
}

/// A source that gives a byte in a call.
#[derive(Drop)]
struct Drip {
    bytes: Vec<u8>,
    at: usize,
}

impl Source for Drip {
    ghost left = { λ _. None };

    ghost faults = { λ _. 0 };

    ghost aside = { λ _. empty_aside };

    fn read(&mut self, buf: &mut [u8]) -> Result<usize, Failed> {
        if buf.is_empty() || self.at >= self.bytes.len() {
            return Ok(0);
        }
        buf[0] = self.bytes[self.at];
        self.at += 1;
        Ok(1)
    }
}

#[test]
fn desk_reads_lines_that_come_byte_by_byte(rt: HostRuntime) -> Result<(), Fail> {
    let alloc = rt.alloc();
    let bytes = joined(
        alloc,
        &[PUBLISH_A.as_bytes(), b"\n[\n", PUBLISH_B.as_bytes()],
    )?;
    let told = format!(in alloc; "{ANNOUNCE_A}\n{ANNOUNCE_B}\n")?;
    let mut source = Drip { bytes, at: 0 };
    let mut sink = MemSink::new(alloc, Vec::new(alloc));
    let mut out = MemSink::new(alloc, Vec::new(alloc));
    let words = strings(alloc, &["desk"])?;
    let status = run_tool(alloc, &words, &mut source, &mut sink, &mut out);
    assert_eq!(rt; (status, out.taken()), (0, told.as_bytes()));
    Ok(())
}

/// Runs these words over bytes that come one by one, and compares the printed text and the status,
/// which is to be 0.
fn drips(alloc: Global, words: &[&str], bytes: Vec<u8>, text: &str) -> Result<bool, AllocError> {
    let words = strings(alloc, words)?;
    let mut source = Drip { bytes, at: 0 };
    let mut sink = MemSink::new(alloc, Vec::new(alloc));
    let mut out = MemSink::new(alloc, Vec::new(alloc));
    let answer = run_tool(alloc, &words, &mut source, &mut sink, &mut out);
    Ok(answer == 0 && out.taken() == text.as_bytes())
}

#[test]
fn logs_are_read_that_come_byte_by_byte(rt: HostRuntime) -> Result<(), Fail> {
    let alloc = rt.alloc();
    let log = joined(alloc, &[&HEADER, &START, &VALUE, &FINISH])?;
    assert!(rt; drips(alloc, &["check", "log"], log, "items 3 bytes 69\n")?);
    let log = joined(alloc, &[&HEADER, &START, &VALUE, &FINISH])?;
    let lines = "@12 S 1000000 1 test int64 -\n@44 D 1000000 1 i64:3\n@58 F 1000000 1\n";
    assert!(rt; drips(alloc, &["show", "log"], log, lines)?);
    Ok(())
}
