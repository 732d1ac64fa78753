//! Times a server's calls: makes a run of acts as often as it is told, and prints what came of it.
//!
//! Its words are a kind of run and numbers:
//!
//! - `puts CONNECTIONS WANTING PUTS`: one more connection puts values to a topic that so many of the
//!   connections want;
//! - `opens TOPICS CONNECTIONS TIMES`: a connection opens and closes beside the others, which
//!   subscribe to all of the topics;
//! - `lives TIMES`: topics, each of another name, that begin and end one behind the other.
//!
//! With no words it makes a few of each.
#![tactic(auto)]

mod acts;
mod runs;

use runs::{lives, opens, puts};
use std::io::ErrorKind;
use std::rt::Env;
use std::{env, io};

/// Makes a run of three numbers, the last of which says how often.
fn run<R: Print + AllocGlobal>(
    rt: &R,
    kind: &str,
    one: u32,
    other: u32,
    times: u32,
) -> io::Result<()> {
    let alloc = rt.alloc();
    let handed = match kind {
        "puts" => puts(alloc, one, other, times)?,
        "opens" => opens(alloc, one, other, times)?,
        "lives" => lives(alloc, times)?,
        _ => return Err(unknown_words()),
    };
    println!(rt; "{kind} {times} handed {handed}")
}

/// The error of words that are none of the program's.
fn unknown_words() -> io::Error {
    io::Error::new(
        ErrorKind::InvalidInput,
        "words: puts | opens | lives, and three numbers",
    )
}

fn main(rt: HostRuntime) -> io::Result<()> {
    let words: Vec<String> = env::args(&rt)?.skip(1).collect(rt.alloc())?;
    match words.as_slice() {
        [] => {
            run(&rt, "puts", 3, 2, 5)?;
            run(&rt, "opens", 2, 3, 4)?;
            run(&rt, "lives", 0, 0, 3)
        }
        [kind, one, other, times] => {
            match (
                one.parse::<u32>(),
                other.parse::<u32>(),
                times.parse::<u32>(),
            ) {
                (Ok(one), Ok(other), Ok(times)) => run(&rt, kind.as_str(), one, other, times),
                _ => Err(unknown_words()),
            }
        }
        _ => Err(unknown_words()),
    }
}
