//! The program `nt`: makes the real source, sink and output, and runs the tool that its words ask for.
#![tactic(auto)]

use nt_cli::{ToolFiles, UsageFault, run_tool, tool_files};
use nt_link::{FileSink, FileSource, MemSink, MemSource, ReaderSource, WriterSink};
use std::alloc::AllocError;
use std::io::{ErrorKind, Input};
use std::process::ExitCode;
use std::rt::{Env, Files};
use std::{env, io};

/// The status for want of memory.
const OUT_OF_MEMORY: u8 = 3;

fn main(rt: HostRuntime) -> ExitCode {
    ExitCode::from(match words(&rt) {
        Ok(words) => run(&rt, words.as_slice()),
        Err(AllocError) => OUT_OF_MEMORY,
    })
}

/// The words behind the program's name. No tool has a word that is not text, so then there are none.
fn words<R: Env + AllocGlobal>(rt: &R) -> Result<Vec<String>, AllocError> {
    match env::args(rt) {
        Ok(words) => words.skip(1).collect(rt.alloc()),
        Err(error) if error.kind() == ErrorKind::OutOfMemory => Err(AllocError),
        Err(_) => Ok(Vec::new(rt.alloc())),
    }
}

/// Runs the tool that these words ask for. Words that no tool has get an empty source.
fn run<R: Files + Input + Print + AllocGlobal>(rt: &R, words: &[String]) -> u8 {
    let alloc = rt.alloc();
    match tool_files(alloc, words) {
        Ok(files) => run_over(rt, words, files),
        Err(UsageFault::Words) => {
            let mut source = MemSource::new(Vec::new(alloc), Vec::new(alloc));
            let mut sink = MemSink::new(alloc, Vec::new(alloc));
            let mut out = WriterSink::new(io::writer(rt));
            run_tool(alloc, words, &mut source, &mut sink, &mut out)
        }
        Err(UsageFault::Memory) => OUT_OF_MEMORY,
    }
}

/// Runs a tool over the file that it reads or the one that it writes, or else over standard input, and
/// standard output.
fn run_over<R: Files + Input + Print + AllocGlobal>(
    rt: &R,
    words: &[String],
    files: ToolFiles,
) -> u8 {
    let alloc = rt.alloc();
    let ToolFiles {
        source: read,
        sink: written,
    } = files;
    let mut out = WriterSink::new(io::writer(rt));
    if let Some(path) = read {
        let mut source = FileSource::new(rt, path);
        let mut sink = MemSink::new(alloc, Vec::new(alloc));
        return run_tool(alloc, words, &mut source, &mut sink, &mut out);
    }
    if let Some(path) = written {
        let mut source = MemSource::new(Vec::new(alloc), Vec::new(alloc));
        let mut sink = FileSink::new(rt, path);
        return run_tool(alloc, words, &mut source, &mut sink, &mut out);
    }
    let mut source = ReaderSource::new(rt.reader());
    let mut sink = MemSink::new(alloc, Vec::new(alloc));
    run_tool(alloc, words, &mut source, &mut sink, &mut out)
}
