//! What no clause says: what files hold, and that calls succeed.

ghost use Rattle.std.specs.Prelude.{None};
ghost use Rattle.nt_link.specs.Causes.{empty_aside};

use crate::{Failed, FileSink, FileSource, MemSink, MemSource, Sink, Source, Stopped, write_all};
use nt_values::Text;
use std::test::Fail;
use std::{env, fs, process};

/// A path in the folder for temporary files that no other process has.
fn own_path(rt: &HostRuntime, name: &str) -> Result<String, Fail> {
    let folder = env::temp_dir(rt)?;
    let id = process::id(rt.process());
    Ok(format!(in rt.alloc(); "{}/nt_link_{id}_{name}", folder.as_str())?)
}

#[test]
fn file_source_reads_its_file_and_counts_faults(rt: HostRuntime) -> Result<(), Fail> {
    let path = own_path(&rt, "source")?;
    let mut source = FileSource::new(&rt, Text::of(rt.alloc(), path.as_str())?);
    let mut buf = [0; 4];
    assert_eq!(rt;
        (source.read(&mut buf), source.faults()),
        (Err(Failed), 1),
        "no file"
    );
    fs::write(&rt, path.as_str(), "abc")?;
    assert_eq!(rt;
        (source.read(&mut buf), source.faults()),
        (Ok(3), 1),
        "it is there now"
    );
    assert_eq!(rt; (source.read(&mut buf), buf), (Ok(0), *b"abc\0"), "the end");
    fs::remove_file(&rt, path.as_str())?;
    Ok(())
}

/// What a file that held `old` holds once these pieces were written to it.
fn content_after(rt: &HostRuntime, path: &str, pieces: &[&[u8]]) -> Result<String, Fail> {
    fs::write(rt, path, "old")?;
    let mut sink = FileSink::new(rt, Text::of(rt.alloc(), path)?);
    for piece in pieces {
        write_all(&mut sink, piece)?;
    }
    let content = fs::read_to_string(rt, path)?;
    fs::remove_file(rt, path)?;
    Ok(content)
}

#[test]
fn file_sink_empties_its_file_at_the_first_byte(rt: HostRuntime) -> Result<(), Fail> {
    let path = own_path(&rt, "sink")?;
    assert_eq!(rt; content_after(&rt, path.as_str(), &[b""])?.as_str(), "old");
    assert_eq!(rt;
        content_after(&rt, path.as_str(), &[b"abc", b"de"])?.as_str(),
        "abcde"
    );
    Ok(())
}

#[test]
fn a_folder_is_no_file(rt: HostRuntime) -> Result<(), Fail> {
    let mut source = FileSource::new(&rt, Text::of(rt.alloc(), ".")?);
    assert_eq!(rt; (source.read(&mut [0]), source.faults()), (Err(Failed), 1));
    let mut sink = FileSink::new(&rt, Text::of(rt.alloc(), ".")?);
    assert_eq!(rt; (sink.write(b"abc"), sink.faults()), (Err(Failed), 1));
    Ok(())
}

#[test]
fn memory_sink_fails_as_listed(rt: HostRuntime) -> Result<(), Fail> {
    let mut sink = MemSink::new(rt.alloc(), Vec::from_slice(rt.alloc(), &[1])?);
    let stopped = Stopped { written: 0 };
    for (call, answer) in [Ok(()), Err(stopped), Ok(())].into_iter().enumerate() {
        assert_eq!(rt; write_all(&mut sink, b"ab"), answer, "call {call}");
    }
    assert_eq!(rt; (sink.taken(), sink.faults()), (b"abab".as_slice(), 1));
    Ok(())
}

#[test]
fn memory_source_fails_as_listed(rt: HostRuntime) -> Result<(), Fail> {
    let bytes = Vec::from_slice(rt.alloc(), b"abc")?;
    let mut source = MemSource::new(bytes, Vec::from_slice(rt.alloc(), &[1])?);
    let mut buf = [0; 2];
    for answer in [
        (Ok(2), *b"ab"),
        (Err(Failed), *b"ab"),
        (Ok(1), *b"cb"),
        (Ok(0), *b"cb"),
    ] {
        assert_eq!(rt; (source.read(&mut buf), buf), answer);
    }
    assert_eq!(rt; source.faults(), 1);
    Ok(())
}

/// A sink that takes at most two bytes in a call while it has room, and then nothing.
#[derive(Drop)]
struct Narrow {
    room: usize,
    faults: u64,
}

impl Sink for Narrow {
    ghost taken = { λ _. None };

    ghost faults = { λ s. s.faults };

    ghost aside = { λ _. empty_aside };

    fn write(&mut self, bytes: &[u8]) -> Result<usize, Failed> {
        let count = bytes.len().min(self.room).min(2);
        self.room -= count;
        if count == 0 {
            self.faults = self.faults.saturating_add(1);
        }
        Ok(count)
    }
}

#[test]
fn a_sink_that_takes_nothing_stops_the_writing(rt: HostRuntime) {
    let mut sink = Narrow { room: 7, faults: 0 };
    assert_eq!(rt; write_all(&mut sink, b"abcd"), Ok(()));
    let stopped = Stopped { written: 3 };
    assert_eq!(rt; write_all(&mut sink, b"efgh"), Err(stopped));
}
