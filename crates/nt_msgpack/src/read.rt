//! Reading one atom from the start of bytes.

ghost use Rattle.std.specs.Prelude.{◌≡◌, ℕ, ◌+◌, ◌≤◌, ◌<◌, List, length, take, drop, ◌↔◌, Option, MatchOption};
ghost use Rattle.nt_msgpack.specs.Atoms.{AtomValue, text, binary, number, format_of, value_of, Spells};
ghost use Rattle.nt_msgpack.specs.Reading.{Reading, got, short, bad, reading_of, answer_of, IsShort, IsBad, fixed_at, after_first, atom_at};

use crate::atom::{Atom, AtomRead};

/// The number in the first byte.
#[inline]
fn u8_at(bytes: &[u8]) -> Option<u8>
    ensures { MatchOption result (length bytes.now < 1)
        (λ n. (1 ≤ length bytes.now) × (n ≡ number (take 1 bytes.now))) }
{
    bytes.first().copied()
}

/// The number in the first 2 bytes.
#[inline]
fn u16_at(bytes: &[u8]) -> Option<u16>
    ensures { MatchOption result (length bytes.now < 2)
        (λ n. (2 ≤ length bytes.now) × (n ≡ number (take 2 bytes.now))) }
{
    match bytes {
        [a, b, ..] => Some(u16::from_be_bytes([*a, *b])),
        _ => None,
    }
}

/// The number in the first 4 bytes.
#[inline]
fn u32_at(bytes: &[u8]) -> Option<u32>
    ensures { MatchOption result (length bytes.now < 4)
        (λ n. (4 ≤ length bytes.now) × (n ≡ number (take 4 bytes.now))) }
{
    match bytes {
        [a, b, c, d, ..] => Some(u32::from_be_bytes([*a, *b, *c, *d])),
        _ => None,
    }
}

/// The number in the first 8 bytes.
#[inline]
fn u64_at(bytes: &[u8]) -> Option<u64>
    ensures { MatchOption result (length bytes.now < 8)
        (λ n. (8 ≤ length bytes.now) × (n ≡ number (take 8 bytes.now))) }
{
    match bytes {
        [a, b, c, d, e, f, g, h, ..] => {
            Some(u64::from_be_bytes([*a, *b, *c, *d, *e, *f, *g, *h]))
        }
        _ => None,
    }
}

/// So many bytes after those of their length.
fn body_at(at: usize, len: usize, bytes: &[u8]) -> Option<&[u8]>
    requires { at ≤ length bytes.now }
    ensures { MatchOption result (length bytes.now < at + len)
        (λ body. (at + len ≤ length bytes.now) × (body.now ≡ take len (drop at bytes.now))) }
{
    bytes[at..].get(..len)
}

/// An atom that is all there, with the number of its bytes.
#[inline]
fn got(atom: Atom<'_>, used: usize) -> Option<AtomRead<'_>>
    ensures { answer_of result ≡ got (value_of atom.entry) used }
{
    Some(AtomRead::Got { atom, used })
}

/// Bytes after those of their length.
fn binary_at(at: usize, len: usize, bytes: &[u8]) -> Option<AtomRead<'_>>
    requires { at ≤ length bytes.now }
    ensures { (first : ℕ)
        → answer_of result ≡ fixed_at first len binary (drop at bytes.now) (1 + at) }
{
    let body = body_at(at, len, bytes)?;
    got(Atom::Bytes(body), 1 + at + len)
}

/// A text after the bytes of its length.
fn text_at(first: u8, at: usize, len: usize, bytes: &[u8]) -> Option<AtomRead<'_>>
    requires { at ≤ length bytes.now }
    ensures { answer_of result ≡ fixed_at first len text (drop at bytes.now) (1 + at) }
{
    let body = body_at(at, len, bytes)?;
    match str::from_utf8(body) {
        Ok(text) => got(Atom::Text(text), 1 + at + len),
        Err(_) => Some(AtomRead::Bad { byte: first }),
    }
}

/// A whole number after its first byte ("int format family"). None as in `atom_after`.
#[inline(always)]
#[tactic(auto, unfolding(crate::specs::Atoms::format_of))]
fn int_after(first: u8, bytes: &[u8]) -> Option<AtomRead<'_>>
    requires from { 0xcc ≤ first }
    requires to { first < 0xd4 }
    ensures { answer_of result ≡ after_first first (format_of first) bytes.now }
{
    match first {
        0xcc => got(Atom::Int(i128::from(u8_at(bytes)?)), 2),
        0xcd => got(Atom::Int(i128::from(u16_at(bytes)?)), 3),
        0xce => got(Atom::Int(i128::from(u32_at(bytes)?)), 5),
        0xcf => got(Atom::Int(i128::from(u64_at(bytes)?)), 9),
        0xd0 => got(Atom::Int(i128::from(u8_at(bytes)?.cast_signed())), 2),
        0xd1 => got(Atom::Int(i128::from(u16_at(bytes)?.cast_signed())), 3),
        0xd2 => got(Atom::Int(i128::from(u32_at(bytes)?.cast_signed())), 5),
        _ => got(Atom::Int(i128::from(u64_at(bytes)?.cast_signed())), 9),
    }
}

/// What is after a first byte ("Overview"). None where the stated bytes aren't all there.
#[inline(always)]
#[tactic(auto, unfolding(crate::specs::Atoms::format_of))]
fn atom_after(first: u8, bytes: &[u8]) -> Option<AtomRead<'_>>
    ensures { answer_of result ≡ after_first first (format_of first) bytes.now }
{
    match first {
        0x00..=0x7f => got(Atom::Int(i128::from(first)), 1),
        0x80..=0x8f => got(Atom::MapHead(u32::from(first - 0x80)), 1),
        0x90..=0x9f => got(Atom::ArrayHead(u32::from(first - 0x90)), 1),
        0xa0..=0xbf => text_at(first, 0, usize::from(first - 0xa0), bytes),
        0xc2 | 0xc3 => got(Atom::Bool(first == 0xc3), 1),
        0xc4 => binary_at(1, usize::from(u8_at(bytes)?), bytes),
        0xc5 => binary_at(2, usize::from(u16_at(bytes)?), bytes),
        0xc6 => binary_at(4, u32_at(bytes)? as usize, bytes),
        0xca => got(Atom::F32(u32_at(bytes)?), 5),
        0xcb => got(Atom::F64(u64_at(bytes)?), 9),
        0xcc..=0xd3 => int_after(first, bytes),
        0xd9 => text_at(first, 1, usize::from(u8_at(bytes)?), bytes),
        0xda => text_at(first, 2, usize::from(u16_at(bytes)?), bytes),
        0xdb => text_at(first, 4, u32_at(bytes)? as usize, bytes),
        0xdc => got(Atom::ArrayHead(u32::from(u16_at(bytes)?)), 3),
        0xdd => got(Atom::ArrayHead(u32_at(bytes)?), 5),
        0xde => got(Atom::MapHead(u32::from(u16_at(bytes)?)), 3),
        0xdf => got(Atom::MapHead(u32_at(bytes)?), 5),
        0xe0..=0xff => got(Atom::Int(i128::from(first) - 0x100), 1),
        0xc0 | 0xc1 | 0xc7..=0xc9 | 0xd4..=0xd8 => Some(AtomRead::Bad { byte: first }),
    }
}

/// What stands at the start of the bytes.
#[inline(always)]
fn first_atom(bytes: &[u8]) -> AtomRead<'_>
    ensures { reading_of result ≡ atom_at bytes.now }
{
    let [first, after @ ..] = bytes else {
        return AtomRead::Short;
    };
    atom_after(*first, after).unwrap_or(AtomRead::Short)
}

/// The atom at the start of the bytes, in one pass, with no copy. Every width is read; nil and the
/// extensions aren't ("Formats").
#[inline(always)]
pub fn read_atom(bytes: &[u8]) -> AtomRead<'_>
    ensures reading { reading_of result ≡ atom_at bytes.now }

    // The same by the formats alone.
    ensures got { (atom : AtomValue) (used : ℕ) → (reading_of result ≡ got atom used)
        ↔ ((0 < used) × (used ≤ length bytes.now) × Spells atom (take used bytes.now)) }
    ensures short { (reading_of result ≡ short) ↔ IsShort bytes.now }
    ensures bad { (first : ℕ) → (reading_of result ≡ bad first) ↔ IsBad bytes.now first }
{
    first_atom(bytes)
}
