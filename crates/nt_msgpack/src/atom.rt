//! Atoms, and what reading one answers.

/// One unit of MessagePack ("Formats"). Arrays and maps are told by their heads alone.
#[derive(Clone, Copy, Debug, PartialEq)]
pub enum Atom<'a> {
    /// A whole number from -2^63 to 2^64 - 1.
    Int(i128),
    Bool(bool),
    /// The bits of a float of 32 bits.
    F32(u32),
    /// The bits of a float of 64 bits.
    F64(u64),
    Text(&'a str),
    Bytes(&'a [u8]),
    /// An array of so many elements begins.
    ArrayHead(u32),
    /// A map of so many pairs begins.
    MapHead(u32),
}

/// What stands at the start of bytes.
#[derive(Clone, Copy, Debug, PartialEq)]
pub enum AtomRead<'a> {
    /// This atom, spelled by so many bytes.
    Got { atom: Atom<'a>, used: usize },
    /// The bytes end before the atom does.
    Short,
    /// No atom, whatever follows. `byte` is the first byte.
    Bad { byte: u8 },
}
