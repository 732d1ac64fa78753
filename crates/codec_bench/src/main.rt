//! Times the codecs: reads or writes frames as often as it is told, and prints what came of it.
//!
//! Its words are a mode and how often, as `read 1000`. With no words it does each mode once.
#![tactic(auto)]

mod texts;
mod values;

use std::io::ErrorKind;
use std::rt::Env;
use std::{env, io};
use texts::{parse_often, read_texts_often};
use values::{read_often, write_often};

/// What is timed.
#[derive(Clone, Copy)]
enum Mode {
    /// Value frames are read.
    Read,
    /// They are written.
    Write,
    /// Text frames are read as control messages.
    Control,
    /// The same texts are read as JSON alone.
    Json,
}

/// The mode that a word names.
fn mode_of(word: &str) -> Option<Mode> {
    match word {
        "read" => Some(Mode::Read),
        "write" => Some(Mode::Write),
        "control" => Some(Mode::Control),
        "json" => Some(Mode::Json),
        _ => None,
    }
}

/// Does what the mode says so many times, and prints the sums.
fn run<R: Print + AllocGlobal>(rt: &R, mode: Mode, times: u64) -> io::Result<()> {
    let alloc = rt.alloc();
    match mode {
        Mode::Read => {
            let sums = read_often(alloc, times)?;
            let messages = sums.messages;
            let checksum = sums.checksum;
            println!(rt; "read messages {messages} checksum {checksum}")
        }
        Mode::Write => {
            let bytes = write_often(alloc, times)?;
            println!(rt; "write bytes {bytes}")
        }
        Mode::Control => {
            let sums = read_texts_often(alloc, times)?;
            let messages = sums.messages;
            let ignored = sums.ignored;
            println!(rt; "control messages {messages} ignored {ignored}")
        }
        Mode::Json => {
            let arrays = parse_often(alloc, times)?;
            println!(rt; "json arrays {arrays}")
        }
    }
}

/// The words behind the program's name.
fn words<R: Env + AllocGlobal>(rt: &R) -> io::Result<Vec<String>> {
    Ok(env::args(rt)?.skip(1).collect(rt.alloc())?)
}

/// The error of words that are none of the program's.
fn unknown_words() -> io::Error {
    io::Error::new(
        ErrorKind::InvalidInput,
        "words: read|write|control|json TIMES",
    )
}

fn main(rt: HostRuntime) -> io::Result<()> {
    let words = words(&rt)?;
    match words.as_slice() {
        [] => {
            for mode in [Mode::Read, Mode::Write, Mode::Control, Mode::Json] {
                run(&rt, mode, 1)?;
            }
            Ok(())
        }
        [mode, times] => match (mode_of(mode.as_str()), times.parse::<u64>()) {
            (Some(mode), Ok(times)) => run(&rt, mode, times),
            _ => Err(unknown_words()),
        },
        _ => Err(unknown_words()),
    }
}
