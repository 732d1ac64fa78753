//! Times look-ups among subscriptions: gives so many names, half of them as prefixes, looks names up
//! as often as it is told, and prints what came of it.
//!
//! Its words are how many names, how many look-ups, and how many bytes the names that are looked up
//! have at least, as `10000 1000000 20`. With no words it looks a few names up among two and among
//! ten.
#![tactic(auto)]

mod lookups;

use lookups::{Sums, look_up_often};
use std::io::ErrorKind;
use std::rt::Env;
use std::{env, io};

/// Looks so many names up among so many, and prints the sums.
fn run<R: Print + AllocGlobal>(rt: &R, names: u32, lookups: u64, bytes: u64) -> io::Result<()> {
    let Sums { newest, all } = look_up_often(rt.alloc(), names, lookups, bytes)?;
    println!(rt; "names {names} newest {newest} all {all}")
}

/// The words behind the program's name.
fn words<R: Env + AllocGlobal>(rt: &R) -> io::Result<Vec<String>> {
    Ok(env::args(rt)?.skip(1).collect(rt.alloc())?)
}

/// The error of words that are none of the program's.
fn unknown_words() -> io::Error {
    io::Error::new(ErrorKind::InvalidInput, "words: NAMES LOOKUPS BYTES")
}

fn main(rt: HostRuntime) -> io::Result<()> {
    let words = words(&rt)?;
    match words.as_slice() {
        [] => {
            run(&rt, 2, 10, 4)?;
            run(&rt, 10, 100, 4)
        }
        [names, lookups, bytes] => {
            match (
                names.parse::<u32>(),
                lookups.parse::<u64>(),
                bytes.parse::<u64>(),
            ) {
                (Ok(names), Ok(lookups), Ok(bytes)) => run(&rt, names, lookups, bytes),
                _ => Err(unknown_words()),
            }
        }
        _ => Err(unknown_words()),
    }
}
