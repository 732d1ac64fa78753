//! Names that subscriptions give, and how often.

ghost use Rattle.std.specs.Prelude.{◌≡◌, ◌<◌, ◌+◌, ◌-◌, ◌^◌, ℕ, List, length, OnOk, OnErr, bytes_eq, if◌then◌else◌};
ghost use Rattle.nt_subs.specs.declared.wish.Wanted.{Wanted};
ghost use Rattle.nt_subs.specs.Index.{HasRoom, count, heads_wish, less, more, none, said, said_in, strongest, times_in};

use crate::Wanted;
use crate::counts::{Counts, NONE};
use nt_topics::{Name, is_special};
use std::alloc::{AllocError, Global};
use std::collections::BTreeMap;

/// Names, each with how often it is given.
type Tally = BTreeMap<Vec<u8>, Counts>;

/// Names, each with how often it is given, by their lengths. So a name is compared with few others,
/// and where they are prefixes, only those of its first bytes are looked up that some have.
#[derive(Drop)]
pub(crate) struct Given {
    by_length: BTreeMap<usize, Tally>,
}

/// Notes that a name is given once more.
fn note_in(tally: &mut Tally, alloc: Global, name: &[u8], wish: Wanted) -> Result<(), AllocError>
    requires { count wish (said_in tally.old name.now) < 2 ^ 64 - 1 }
    ensures ok { OnOk result ((n : List ℕ) → said_in tally.new n
        ≡ (if bytes_eq name.now n then more wish (said_in tally.old n) else said_in tally.old n)) }
    ensures err { OnErr result ((n : List ℕ) → said_in tally.new n ≡ said_in tally.old n) }
{
    if let Some(counts) = tally.get_mut(name) {
        counts.more(wish);
        return Ok(());
    }
    let mut counts = NONE;
    counts.more(wish);
    tally.insert(Vec::from_slice(alloc, name)?, counts)?;
    Ok(())
}

/// Notes that a name is given once less, and forgets it where it isn't given any more.
fn forget_in(tally: &mut Tally, name: &[u8], wish: Wanted)
    ensures { (n : List ℕ) → said_in tally.new n
        ≡ (if bytes_eq name.now n then less wish (said_in tally.old n) else said_in tally.old n) }
{
    if let Some(counts) = tally.get_mut(name) {
        counts.less(wish);
        if counts.strongest() == Wanted::No {
            tally.remove(name);
        }
    }
}

/// The greatest wish with which a name is given.
fn wish_in(tally: &Tally, name: &[u8]) -> Wanted
    ensures { result ≡ strongest (said_in tally.now name.now) }
{
    match tally.get(name) {
        Some(counts) => counts.strongest(),
        None => Wanted::No,
    }
}

impl Given {
    /// No names.
    pub(crate) fn new(alloc: Global) -> Given
        ensures { (n : List ℕ) → said result n ≡ none }
    {
        Given {
            by_length: BTreeMap::new(alloc),
        }
    }

    /// Notes that each of these names is given once more. For want of memory it says what it said.
    pub(crate) fn note_all(
        &mut self,
        alloc: Global,
        names: &[Name],
        wish: Wanted,
    ) -> Result<(), AllocError>
        requires { HasRoom (length names.now) self.old }
        ensures ok { OnOk result ((w : Wanted) (n : List ℕ) → count w (said self.new n)
            ≡ count w (said self.old n) + times_in w n wish names.now) }
        ensures err { OnErr result ((w : Wanted) (n : List ℕ) → count w (said self.new n)
            ≡ count w (said self.old n)) }
    {
        for (place, name) in names.iter().enumerate() {
            if let Err(error) = self.note(alloc, name.as_str().as_bytes(), wish) {
                self.forget_all(&names[..place], wish);
                return Err(error);
            }
        }
        Ok(())
    }

    /// Notes that each of these names is given once less.
    pub(crate) fn forget_all(&mut self, names: &[Name], wish: Wanted)
        ensures { (w : Wanted) (n : List ℕ) → count w (said self.new n)
            ≡ count w (said self.old n) - times_in w n wish names.now }
    {
        for name in names {
            self.forget(name.as_str().as_bytes(), wish);
        }
    }

    /// The greatest wish with which a name is given.
    pub(crate) fn wish_of(&self, name: &[u8]) -> Wanted
        ensures { result ≡ strongest (said self.now name.now) }
    {
        match self.by_length.get(&name.len()) {
            Some(tally) => wish_in(tally, name),
            None => Wanted::No,
        }
    }

    /// The greatest wish with which a name's first bytes are given as a prefix. A special name has
    /// no prefix of no bytes.
    pub(crate) fn wish_of_heads(&self, name: &str) -> Wanted
        ensures { result ≡ heads_wish self.now name.now (length name.now) }
    {
        let bytes = name.as_bytes();
        let least = if is_special(name) { 1 } else { 0 };
        let mut greatest = Wanted::No;
        for (length, tally) in self.by_length.iter() {
            if least <= *length && *length <= bytes.len() {
                greatest = greatest.greater(wish_in(tally, &bytes[..*length]));
            }
        }
        greatest
    }

    /// Notes that a name is given once more.
    fn note(&mut self, alloc: Global, name: &[u8], wish: Wanted) -> Result<(), AllocError>
        requires { count wish (said self.old name.now) < 2 ^ 64 - 1 }
        ensures ok { OnOk result ((n : List ℕ) → said self.new n
            ≡ (if bytes_eq name.now n then more wish (said self.old n) else said self.old n)) }
        ensures err { OnErr result ((n : List ℕ) → said self.new n ≡ said self.old n) }
    {
        match self.by_length.get_mut(&name.len()) {
            Some(tally) => note_in(tally, alloc, name, wish)?,
            None => {
                let mut tally = BTreeMap::new(alloc);
                note_in(&mut tally, alloc, name, wish)?;
                self.by_length.insert(name.len(), tally)?;
            }
        }
        Ok(())
    }

    /// Notes that a name is given once less.
    fn forget(&mut self, name: &[u8], wish: Wanted)
        ensures { (n : List ℕ) → said self.new n
            ≡ (if bytes_eq name.now n then less wish (said self.old n) else said self.old n) }
    {
        if let Some(tally) = self.by_length.get_mut(&name.len()) {
            forget_in(tally, name, wish);
            if tally.is_empty() {
                self.by_length.remove(&name.len());
            }
        }
    }
}
