//! Times what a client takes from a server's values: is told of so many topics, takes a frame of
//! 4,000 values as often as it is told, and prints what came of it.
//!
//! Its words are how many topics and how many frames, as `1000 250`. With no words it takes a frame
//! or two of one topic and of three.
#![tactic(auto)]

mod takes;

use std::io::ErrorKind;
use std::rt::Env;
use std::{env, io};
use takes::{Sums, take_often};

/// Takes so many frames about so many topics, and prints the sums.
fn run<R: Print + AllocGlobal>(rt: &R, topics: u32, frames: u64) -> io::Result<()> {
    let Sums { taken, checksum } = take_often(rt.alloc(), topics, frames)?;
    println!(rt; "topics {topics} taken {taken} checksum {checksum}")
}

/// The words behind the program's name.
fn words<R: Env + AllocGlobal>(rt: &R) -> io::Result<Vec<String>> {
    Ok(env::args(rt)?.skip(1).collect(rt.alloc())?)
}

/// The error of words that are none of the program's.
fn unknown_words() -> io::Error {
    io::Error::new(ErrorKind::InvalidInput, "words: TOPICS FRAMES")
}

fn main(rt: HostRuntime) -> io::Result<()> {
    let words = words(&rt)?;
    match words.as_slice() {
        [] => {
            run(&rt, 1, 1)?;
            run(&rt, 3, 2)
        }
        [topics, frames] => match (topics.parse::<u32>(), frames.parse::<u64>()) {
            (Ok(topics), Ok(frames)) => run(&rt, topics, frames),
            _ => Err(unknown_words()),
        },
        _ => Err(unknown_words()),
    }
}
