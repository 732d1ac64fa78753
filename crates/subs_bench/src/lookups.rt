//! Subscriptions to many names, and look-ups among them.

use nt_subs::{Names, Options, Sub, SubSet, Wanted};
use nt_topics::Name;
use std::alloc::{AllocError, Global};

/// How many names are looked up in turn.
const TURNS: u64 = 1_000;

/// What came of the look-ups.
#[derive(Clone, Copy, Debug)]
pub struct Sums {
    /// How many names are wanted for their newest value.
    pub newest: u64,
    /// How many are wanted for all values.
    pub all: u64,
}

/// A subscription to the numbers from one up to another, in decimal.
fn numbered(alloc: Global, from: u32, to: u32, options: Options) -> Result<Sub, AllocError> {
    let mut names = Names::empty(alloc);
    for number in from..to {
        let name = format!(in alloc; "{number}")?;
        names.push(Name::of(alloc, name.as_str())?)?;
    }
    Ok(Sub { names, options })
}

/// Subscriptions to so many names: to half of them whole for all values, and to the others as
/// prefixes.
fn subscribe(alloc: Global, names: u32) -> Result<SubSet, AllocError> {
    let half = names / 2;
    let exact = Options {
        all: true,
        topicsonly: false,
        prefix: false,
    };
    let prefix = Options {
        all: false,
        topicsonly: false,
        prefix: true,
    };
    let mut subs = SubSet::new(alloc);
    subs.add(1, numbered(alloc, 0, half, exact)?)?;
    subs.add(2, numbered(alloc, half, names, prefix)?)?;
    Ok(subs)
}

/// The names that are looked up: numbers that are spread over those that are given and twice as many
/// more, each with letters behind it up to so many bytes, but for one in four.
fn wanted_names(alloc: Global, names: u32, bytes: u64) -> Result<Vec<String>, AllocError> {
    let spread = u64::from(names.max(1)) * 3;
    let mut wanted = Vec::new(alloc);
    for turn in 0..TURNS {
        let number = turn.wrapping_mul(7_919) % spread;
        let mut name = format!(in alloc; "{number}")?;
        if turn % 4 != 0 {
            for _ in name.len() as u64..bytes {
                name.push_str("x")?;
            }
        }
        wanted.push(name)?;
    }
    Ok(wanted)
}

/// Looks so many names up, of at least so many bytes, among subscriptions to so many.
pub fn look_up_often(
    alloc: Global,
    names: u32,
    lookups: u64,
    bytes: u64,
) -> Result<Sums, AllocError> {
    let subs = subscribe(alloc, names)?;
    let wanted = wanted_names(alloc, names, bytes)?;
    let mut sums = Sums { newest: 0, all: 0 };
    for index in 0..lookups {
        let Some(name) = wanted.get((index % TURNS) as usize) else {
            return Ok(sums);
        };
        match subs.matches(name.as_str()) {
            Wanted::Newest => sums.newest = sums.newest.wrapping_add(1),
            Wanted::All => sums.all = sums.all.wrapping_add(1),
            _ => {}
        }
    }
    Ok(sums)
}
