//! Names. Their limits count the bytes of their UTF-8.

ghost use Rattle.std.specs.Prelude.{◌≡◌, ◌<◌, ◌≤◌, List, ℕ, [], length, IfOk, Err, IsErrOf};
ghost use Rattle.nt_topics.specs.Names.{is_special, limited};
ghost use Rattle.nt_topics.specs.declared.name.NameFault.TheVariants.{Memory};

use nt_values::Text;
use std::alloc::{AllocError, Global};
use std::marker::{Model, PhantomData};
use thiserror::Error;

/// The most bytes of a topic's name, and of a type string.
pub const MOST_TOPIC_BYTES: usize = 1024;

/// The most bytes of a client's name.
pub const MOST_CLIENT_BYTES: usize = 256;

/// Why a text is not a name.
#[derive(Clone, Copy, Debug, PartialEq, Eq, Error)]
pub enum NameFault {
    /// It is empty.
    #[error("an empty name")]
    Empty,
    /// It has more bytes than such a name may have.
    #[error("a name of too many bytes")]
    TooLong,
    /// Want of memory.
    #[error("out of memory")]
    Memory,
}

impl From<AllocError> for NameFault {
    ghost from_gives = { λ _ e. e ≡ Memory };

    fn from(_error: AllocError) -> NameFault {
        NameFault::Memory
    }
}

/// Any text, as a name.
#[derive(Drop)]
pub struct Name {
    text: Text,
}

impl Model for Name {
    ghost Value = { List ℕ };

    ghost view = { λ n. n.text };
}

impl Name {
    /// This text.
    pub fn of(alloc: Global, text: &str) -> Result<Name, AllocError>
        ensures { IfOk result (λ n. n ≡ text.now) }
    {
        Ok(Name {
            text: Text::of(alloc, text)?,
        })
    }

    /// This text, as a name. It takes no memory.
    pub fn of_text(text: Text) -> Name
        ensures { result ≡ text }
    {
        Name { text }
    }

    /// The text of the name.
    pub fn as_str(&self) -> &str
        ensures { result.now ≡ self.now }
    {
        self.text.as_str()
    }

    /// An equal name.
    pub fn copy(&self, alloc: Global) -> Result<Name, AllocError>
        ensures { IfOk result (λ n. n ≡ self.now) }
    {
        Name::of(alloc, self.as_str())
    }
}

/// A name of at least one byte and at most `MOST`, of what the kind says.
#[derive(Drop)]
pub struct Limited<K, const MOST: usize> {
    text: Text,
    kind: PhantomData<K>,
}

/// The kind of a topic's name.
pub enum OfTopic {}

/// The kind of a type string.
pub enum OfType {}

/// The kind of a client's name.
pub enum OfClient {}

/// The name of a topic: 1 to 1,024 bytes.
pub type TopicName = Limited<OfTopic, MOST_TOPIC_BYTES>;

/// A type string: 1 to 1,024 bytes.
pub type TypeName = Limited<OfType, MOST_TOPIC_BYTES>;

/// The name of a client, as a connection gives it: 1 to 256 bytes.
pub type ClientName = Limited<OfClient, MOST_CLIENT_BYTES>;

impl<K, const MOST: usize> Model for Limited<K, MOST> {
    ghost use Rattle.std.specs.Prelude.{◌<◌, ◌≤◌, List, ℕ, length};

    ghost Value = { List ℕ };

    ghost view = { λ n. n.text };

    ghost invariant = { λ n. (0 < length n.text) × (length n.text ≤ MOST) };
}

impl<K, const MOST: usize> Limited<K, MOST> {
    /// This text, as such a name.
    ///
    /// # Errors
    ///
    /// `Empty` exactly for the empty text, `TooLong` exactly for one of more than `MOST` bytes, and
    /// want of memory.
    pub fn of(alloc: Global, text: &str) -> Result<Limited<K, MOST>, NameFault>
        ensures ok { IfOk result (λ n. n ≡ text.now) }
        ensures within { IfOk result (λ n. (0 < length n) × (length n ≤ MOST)) }
        ensures empty { IsErrOf result NameFault.Empty → length text.now ≡ 0 }
        ensures is_empty { length text.now ≡ 0 → result ≡ Err NameFault.Empty }
        ensures too_long { IsErrOf result NameFault.TooLong → MOST < length text.now }
        ensures is_too_long { MOST < length text.now → result ≡ Err NameFault.TooLong }
    {
        if text.is_empty() {
            return Err(NameFault::Empty);
        }
        if text.len() > MOST {
            return Err(NameFault::TooLong);
        }
        Ok(Limited {
            text: Text::of(alloc, text)?,
            kind: PhantomData,
        })
    }

    /// This text, as such a name, where it is within the limits. It takes no memory.
    pub fn of_text(text: Text) -> Option<Limited<K, MOST>>
        ensures { result ≡ limited MOST text }
    {
        let length = text.as_str().len();
        if length == 0 || length > MOST {
            return None;
        }
        Some(Limited {
            text,
            kind: PhantomData,
        })
    }

    /// The text of the name.
    pub fn as_str(&self) -> &str
        ensures text { result.now ≡ self.now }
        ensures within { (0 < length self.now) × (length self.now ≤ MOST) }
    {
        self.text.as_str()
    }

    /// An equal name.
    pub fn copy(&self, alloc: Global) -> Result<Limited<K, MOST>, AllocError>
        ensures { IfOk result (λ n. n ≡ self.now) }
    {
        Ok(Limited {
            text: Text::of(alloc, self.text.as_str())?,
            kind: PhantomData,
        })
    }
}

/// Whether a name is special: it begins with `$`.
pub fn is_special(name: &str) -> bool
    ensures { result ≡ is_special name.now }
{
    name.as_bytes().first() == Some(&b'$')
}
