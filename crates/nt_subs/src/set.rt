//! The subscriptions of a connection.

ghost use Rattle.std.specs.Prelude.{◌≡◌, ◌<◌, ◌≤◌, ◌+◌, ◌-◌, ◌^◌, true, [], length, min, slice_get, Some, IfOk, OnOk, OnErr, Ok, Err};
ghost use Rattle.nt_subs.specs.Index.{IsIndexed};
ghost use Rattle.nt_subs.specs.Subscriptions.{AreByUid, added, after, are_within, has_uid, index_of, size_of, total_size, without_sub};
ghost use Rattle.nt_subs.specs.Wishes.{wanted};

use crate::index::Index;
use crate::{Sub, Wanted};
use std::alloc::{AllocError, Global};
use std::cmp::Ordering;
use std::marker::Model;

/// The most subscriptions of a connection.
pub const MOST_SUBS: usize = 1024;

/// The most bytes of a connection's subscription names, where each counts 8 more.
pub const MOST_SIZE: usize = 131_072;

/// What adding a subscription is answered.
#[derive(Clone, Copy, PartialEq, Eq)]
pub enum Added {
    /// It is new.
    New,
    /// It stands in place of the one that had its uid.
    Replaced,
    /// A limit would be passed, and nothing was changed.
    TooMany,
}

/// The subscriptions of a connection. Contracts see the list of each with its uid, by rising uid.
#[derive(Drop)]
pub struct SubSet {
    entries: Vec<(i64, Sub)>,
    // the sum of the sizes
    size: usize,
    // where their names are looked up
    names: Index,
}

impl Model for SubSet {
    ghost use Rattle.nt_subs.specs.Index.{IsIndexed};
    ghost use Rattle.nt_subs.specs.Subscriptions.{Subs, IsKept};

    ghost Value = { Subs };

    ghost view = { λ s. s.entries.items };

    ghost invariant = { λ s. IsKept s.entries.items s.size × IsIndexed s.names s.entries.items };
}

impl SubSet {
    /// No subscriptions.
    pub fn new(alloc: Global) -> SubSet
        ensures { result ≡ [] }
    {
        SubSet {
            entries: Vec::new(alloc),
            size: 0,
            names: Index::new(alloc),
        }
    }

    /// An equal set.
    pub fn copy(&self, alloc: Global) -> Result<SubSet, AllocError>
        ensures { IfOk result (λ subs. subs ≡ self.now) }
    {
        Ok(SubSet {
            entries: copy_entries(alloc, &self.entries)?,
            size: self.size,
            names: indexed(alloc, &self.entries)?,
        })
    }

    /// Adds a subscription at its uid, in place of any that stands there. `TooMany` comes exactly
    /// where afterwards there would be more than 1,024, or their names would have more than 131,072
    /// bytes, each with 8 more. For want of memory, and at `TooMany`, the set is as it was.
    pub fn add(&mut self, uid: i64, sub: Sub) -> Result<Added, AllocError>
        ensures answer { IfOk result (λ answer. answer ≡ added uid sub self.old) }
        ensures subs { OnOk result (self.new ≡ after uid sub self.old) }
        ensures err { OnErr result (self.new ≡ self.old) }
    {
        match index_of(self.entries.as_slice(), uid) {
            Ok(index) => self.replace(index, uid, sub),
            Err(index) => self.insert(index, uid, sub),
        }
    }

    /// Takes out the subscription of this uid, and says whether there was one.
    pub fn remove(&mut self, uid: i64) -> bool
        ensures found { result ≡ has_uid uid self.old }
        ensures subs { self.new ≡ without_sub uid self.old }
    {
        match index_of(self.entries.as_slice(), uid) {
            Ok(index) => {
                let sub = &self.entries[index].1;
                self.size -= size(sub);
                self.names.forget(sub);
                self.entries.remove(index);
                true
            }
            Err(_) => false,
        }
    }

    /// How much a topic is wanted: the greatest wish of all subscriptions. It takes no memory.
    pub fn matches(&self, name: &str) -> Wanted
        ensures { result ≡ wanted self.now name.now }
    {
        let exact = self.names.exact.wish_of(name.as_bytes());
        exact.greater(self.names.prefixes.wish_of_heads(name))
    }

    /// The number of subscriptions.
    pub fn len(&self) -> usize
        ensures count { result ≡ length self.now }
        ensures within { are_within self.now ≡ true }
        ensures by_uid { AreByUid self.now }
    {
        self.entries.len()
    }

    /// The subscription at an index, by rising uid, and its uid.
    pub fn at(&self, index: usize) -> (i64, &Sub)
        requires { index < length self.now }
        ensures { slice_get self.now index ≡ Some (result.0, result.1.now) }
    {
        let entry = &self.entries[index];
        (entry.0, &entry.1)
    }

    /// Adds a subscription in place of the one that stands there.
    fn replace(&mut self, index: usize, uid: i64, sub: Sub) -> Result<Added, AllocError>
        requires { index_of uid self.old ≡ Ok index }
        ensures answer { IfOk result (λ answer. answer ≡ added uid sub self.old) }
        ensures subs { OnOk result (self.new ≡ after uid sub self.old) }
        ensures err { OnErr result (self.new ≡ self.old) }
    {
        let old = &self.entries[index].1;
        let others = self.size - size(old);
        let size = size(&sub);
        if MOST_SIZE - others < size {
            return Ok(Added::TooMany);
        }
        self.names.note(*self.entries.allocator(), &sub)?;
        self.names.forget(old);
        self.entries[index] = (uid, sub);
        self.size = others + size;
        Ok(Added::Replaced)
    }

    /// Adds a subscription where none stands.
    fn insert(&mut self, index: usize, uid: i64, sub: Sub) -> Result<Added, AllocError>
        requires { index_of uid self.old ≡ Err index }
        ensures answer { IfOk result (λ answer. answer ≡ added uid sub self.old) }
        ensures subs { OnOk result (self.new ≡ after uid sub self.old) }
        ensures err { OnErr result (self.new ≡ self.old) }
    {
        let size = size(&sub);
        if self.entries.len() >= MOST_SUBS || MOST_SIZE - self.size < size {
            return Ok(Added::TooMany);
        }
        self.names.note(*self.entries.allocator(), &sub)?;
        if let Err(refused) = self.entries.insert(index, (uid, sub)) {
            self.names.forget(&refused.value.1);
            return Err(AllocError);
        }
        self.size += size;
        Ok(Added::New)
    }
}

/// Equal subscriptions.
fn copy_entries(alloc: Global, entries: &[(i64, Sub)]) -> Result<Vec<(i64, Sub)>, AllocError>
    ensures { IfOk result (λ copied. copied.items ≡ entries.now) }
{
    let mut copied = Vec::new(alloc);
    for entry in entries {
        copied.push((entry.0, entry.1.copy(alloc)?))?;
    }
    Ok(copied)
}

/// An index of these subscriptions.
fn indexed(alloc: Global, entries: &[(i64, Sub)]) -> Result<Index, AllocError>
    requires { total_size entries.now ≤ 131_072 }
    ensures { IfOk result (λ names. IsIndexed names entries.now) }
{
    let mut names = Index::new(alloc);
    for entry in entries {
        names.note(alloc, &entry.1)?;
    }
    Ok(names)
}

/// The index of a uid, or else the one where it would stand.
fn index_of(entries: &[(i64, Sub)], uid: i64) -> Result<usize, usize>
    ensures { result ≡ index_of uid entries.now }
{
    for (index, entry) in entries.iter().enumerate() {
        match uid.cmp(&entry.0) {
            Ordering::Less => return Err(index),
            Ordering::Equal => return Ok(index),
            Ordering::Greater => {}
        }
    }
    Err(entries.len())
}

/// The bytes of a subscription's names, and 8 for each name, or the greatest number where they are
/// more.
fn size(sub: &Sub) -> usize
    ensures { result ≡ min (size_of sub.now) (2 ^ 64 - 1) }
{
    let mut size: usize = 0;
    for name in sub.names.as_slice() {
        size = size.saturating_add(8).saturating_add(name.as_str().len());
    }
    size
}
