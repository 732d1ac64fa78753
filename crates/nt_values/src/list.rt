//! Owned lists.

ghost use Rattle.std.specs.Prelude.{◌≡◌, [], ◌∷◌, ◌++◌, IfOk, OnOk, OnErr};

use crate::Text;
use std::alloc::{AllocError, Global};
use std::marker::Model;

/// A list that is owned, and that contracts see as the list of its items.
#[derive(Drop)]
pub struct ListOf<T> {
    inner: Vec<T>,
}

impl<T> Model for ListOf<T> {
    ghost use Rattle.std.specs.Prelude.{List};

    ghost Value = { List T };

    ghost view = { λ l. l.inner.items };
}

/// A list of truth values.
pub type Bools = ListOf<bool>;

/// A list of the bit patterns of doubles.
pub type Doubles = ListOf<u64>;

/// A list of signed whole numbers.
pub type Ints = ListOf<i64>;

/// A list of the bit patterns of floats.
pub type Floats = ListOf<u32>;

/// A list of texts.
pub type Texts = ListOf<Text>;

impl<T> ListOf<T> {
    /// The empty list. It takes no memory.
    pub fn empty(alloc: Global) -> ListOf<T>
        ensures { result ≡ [] }
    {
        ListOf {
            inner: Vec::new(alloc),
        }
    }

    /// The items of a vector, in their order. It takes no memory.
    pub fn of_vec(items: Vec<T>) -> ListOf<T>
        ensures { result ≡ items.items }
    {
        ListOf { inner: items }
    }

    /// The items as a vector, in their order. It takes no memory.
    pub fn into_vec(self) -> Vec<T>
        ensures { result.items ≡ self }
    {
        self.inner
    }

    /// The items, borrowed.
    pub fn as_slice(&self) -> &[T]
        ensures { result.now ≡ self.now }
    {
        self.inner.as_slice()
    }
}

impl<T: Drop> ListOf<T> {
    /// Adds an item at the end. For want of memory it leaves the list as it was.
    pub fn push(&mut self, item: T) -> Result<(), AllocError>
        ensures ok { OnOk result (self.new ≡ self.old ++ item ∷ []) }
        ensures err { OnErr result (self.new ≡ self.old) }
    {
        self.inner.push(item)?;
        Ok(())
    }
}

impl<T: Copy> ListOf<T> {
    /// An equal list.
    pub fn copy(&self, alloc: Global) -> Result<ListOf<T>, AllocError>
        ensures { IfOk result (λ list. list ≡ self.now) }
    {
        Ok(ListOf {
            inner: Vec::from_slice(alloc, self.inner.as_slice())?,
        })
    }
}

impl ListOf<Text> {
    /// An equal list.
    pub fn copy(&self, alloc: Global) -> Result<Texts, AllocError>
        ensures { IfOk result (λ list. list ≡ self.now) }
    {
        let mut copied = Vec::new(alloc);
        for text in self.inner.as_slice() {
            copied.push(text.copy(alloc)?)?;
        }
        Ok(ListOf { inner: copied })
    }
}
