//! What is wanted of a name, where subscriptions give many.

ghost use Rattle.std.specs.Prelude.{◌<◌};

use crate::tests::{EXACT, PREFIX};
use nt_subs::{Added, Names, Options, Sub, SubSet, Wanted};
use nt_topics::Name;
use std::alloc::{AllocError, Global};
use std::test::Fail;

/// What a list of subscriptions wants, by the rule itself: the greatest wish of any.
fn plainly(subs: &SubSet, name: &str) -> Wanted {
    let mut greatest = Wanted::No;
    for index in 0..subs.len() {
        let (_, sub) = subs.at(index);
        if sub.is_matched(name) {
            let wish = match (sub.options.topicsonly, sub.options.all) {
                (true, _) => Wanted::TopicOnly,
                (false, true) => Wanted::All,
                (false, false) => Wanted::Newest,
            };
            greatest = greatest.greater(wish);
        }
    }
    greatest
}

/// Numbers that look random.
#[derive(Drop)]
struct Numbers {
    last: u64,
}

impl Numbers {
    /// The next number below a limit.
    fn below(&mut self, limit: u64) -> u64
        requires { 0 < limit }
        ensures { result < limit }
    {
        let mixed = self.last.wrapping_mul(6_364_136_223_846_793_005);
        self.last = mixed.wrapping_add(1_442_695_040_888_963_407);
        (self.last >> 33) % limit
    }
}

/// The parts of names. Some are parts of others, and one has bytes that aren't ASCII.
const PARTS: [&str; 6] = ["$", "/", "a", "ab", "\u{e9}", "\u{e8}"];

/// A name of up to three parts.
fn some_name(alloc: Global, numbers: &mut Numbers) -> Result<String, AllocError> {
    let mut name = String::new(alloc);
    for _ in 0..numbers.below(4) {
        name.push_str(PARTS[numbers.below(6) as usize])?;
    }
    Ok(name)
}

/// A subscription to up to four names.
fn some_sub(alloc: Global, numbers: &mut Numbers) -> Result<Sub, AllocError> {
    let mut names = Names::empty(alloc);
    for _ in 0..numbers.below(5) {
        let name = some_name(alloc, numbers)?;
        names.push(Name::of(alloc, name.as_str())?)?;
    }
    let options = Options {
        all: numbers.below(2) == 0,
        topicsonly: numbers.below(3) == 0,
        prefix: numbers.below(2) == 0,
    };
    Ok(Sub { names, options })
}

/// Whether a set and a copy of it want of some names what the rule says.
fn agrees(alloc: Global, subs: &SubSet, numbers: &mut Numbers) -> Result<bool, AllocError> {
    let copied = subs.copy(alloc)?;
    for _ in 0..8u8 {
        let name = some_name(alloc, numbers)?;
        let wish = plainly(subs, name.as_str());
        if subs.matches(name.as_str()) != wish || copied.matches(name.as_str()) != wish {
            return Ok(false);
        }
    }
    Ok(true)
}

#[test]
fn changes_of_a_set_are_matched_as_the_rule_says(rt: HostRuntime) -> Result<(), Fail> {
    let alloc = rt.alloc();
    let mut numbers = Numbers { last: 1 };
    for set in 0..100u32 {
        let mut subs = SubSet::new(alloc);
        for step in 0..30u32 {
            let uid = numbers.below(6) as i64;
            if numbers.below(3) == 0 {
                subs.remove(uid);
            } else {
                subs.add(uid, some_sub(alloc, &mut numbers)?)?;
            }
            assert!(rt;
                agrees(alloc, &subs, &mut numbers)?,
                "set {set}, step {step}"
            );
        }
    }
    Ok(())
}

const DIGITS: [&str; 10] = ["0", "1", "2", "3", "4", "5", "6", "7", "8", "9"];

/// A number of one to six digits, in decimal.
fn decimal(alloc: Global, number: u32) -> Result<String, AllocError> {
    let tens = number / 10;
    let hundreds = number / 100;
    let thousands = number / 1_000;
    let mut name = String::new(alloc);
    for head in [
        number / 100_000,
        number / 10_000,
        thousands,
        hundreds,
        tens,
        number,
    ] {
        if head > 0 {
            name.push_str(DIGITS[(head % 10) as usize])?;
        }
    }
    Ok(name)
}

/// A subscription to the numbers from one up to another, as names.
fn numbered(alloc: Global, from: u32, to: u32, options: Options) -> Result<Sub, AllocError> {
    let mut names = Names::empty(alloc);
    for number in from..to {
        let name = decimal(alloc, number)?;
        names.push(Name::of(alloc, name.as_str())?)?;
    }
    Ok(Sub { names, options })
}

#[test]
fn ten_thousand_names_are_looked_up_often(rt: HostRuntime) -> Result<(), Fail> {
    let alloc = rt.alloc();
    let mut subs = SubSet::new(alloc);
    assert!(rt; subs.add(1, numbered(alloc, 10_000, 15_000, EXACT)?)? == Added::New);
    assert!(rt; subs.add(2, numbered(alloc, 15_000, 20_000, PREFIX)?)? == Added::New);
    let mut newest = 0u32;
    let mut none = 0u32;
    for tens in 1..20_001u32 {
        let name = decimal(alloc, tens * 10)?;
        match subs.matches(name.as_str()) {
            Wanted::Newest => newest = newest.wrapping_add(1),
            Wanted::No => none = none.wrapping_add(1),
            _ => {}
        }
    }
    // 10,000 to 19,990, and 150,000 to 199,990
    assert_eq!(rt; newest, 6_000);
    assert_eq!(rt; none, 14_000);
    Ok(())
}
