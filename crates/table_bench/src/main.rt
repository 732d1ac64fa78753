//! Times puts to a table: publishes so many topics, puts to them as often as it is told, and prints
//! what came of it.
//!
//! Its words are how many topics, how many puts, and how far on each put's topic is from the one
//! before it, as `16384 1000000 1`. With no words it puts a few values to one topic and to two.
#![tactic(auto)]

mod puts;

use puts::{Sums, put_often};
use std::io::ErrorKind;
use std::rt::Env;
use std::{env, io};

/// Puts so many values to so many topics, and prints the sums.
fn run<R: Print + AllocGlobal>(rt: &R, topics: u32, puts: u64, step: u64) -> io::Result<()> {
    let Sums { taken, checksum } = put_often(rt.alloc(), topics, puts, step)?;
    println!(rt; "topics {topics} taken {taken} checksum {checksum}")
}

/// The words behind the program's name.
fn words<R: Env + AllocGlobal>(rt: &R) -> io::Result<Vec<String>> {
    Ok(env::args(rt)?.skip(1).collect(rt.alloc())?)
}

/// The error of words that are none of the program's.
fn unknown_words() -> io::Error {
    io::Error::new(ErrorKind::InvalidInput, "words: TOPICS PUTS STEP")
}

fn main(rt: HostRuntime) -> io::Result<()> {
    let words = words(&rt)?;
    match words.as_slice() {
        [] => {
            run(&rt, 1, 3, 1)?;
            run(&rt, 2, 5, 1)
        }
        [topics, puts, step] => {
            match (
                topics.parse::<u32>(),
                puts.parse::<u64>(),
                step.parse::<u64>(),
            ) {
                (Ok(topics), Ok(puts), Ok(step)) => run(&rt, topics, puts, step),
                _ => Err(unknown_words()),
            }
        }
        _ => Err(unknown_words()),
    }
}
