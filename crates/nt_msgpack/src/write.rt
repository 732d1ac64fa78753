//! Writing one atom at the end of bytes.

ghost use Rattle.std.specs.Prelude.{◌≡◌, ℕ, ◌+◌, ◌<◌, ◌≤◌, ◌^◌, ℤ, pos, ◌<ℤ◌, ◌≤ℤ◌, [], ◌∷◌, ◌++◌, length, take, OnOk, OnErr};
ghost use Rattle.std.specs.Int.{w16, w32, w64, to_be_bytes};
ghost use Rattle.nt_msgpack.specs.Atoms.{int, text, binary, value_of, shortest, length_spelling, head_spelling, Fits};

use crate::atom::Atom;
use std::alloc::AllocError;

/// A first byte and a number in one byte.
fn put_u8(out: &mut Vec<u8>, first: u8, n: u8) -> Result<(), AllocError>
    ensures ok { OnOk result (out.new.items ≡ out.old.items ++ first ∷ n ∷ []) }
    ensures err { OnErr result (out.new.items ≡ out.old.items) }
{
    out.extend_from_slice(&[first, n])
}

/// A first byte and a number in 2 bytes.
fn put_u16(out: &mut Vec<u8>, first: u8, n: u16) -> Result<(), AllocError>
    ensures ok { OnOk result (out.new.items ≡ out.old.items ++ first ∷ to_be_bytes w16 n) }
    ensures err { OnErr result (out.new.items ≡ out.old.items) }
{
    let [a, b] = n.to_be_bytes();
    out.extend_from_slice(&[first, a, b])
}

/// A first byte and a number in 4 bytes.
fn put_u32(out: &mut Vec<u8>, first: u8, n: u32) -> Result<(), AllocError>
    ensures ok { OnOk result (out.new.items ≡ out.old.items ++ first ∷ to_be_bytes w32 n) }
    ensures err { OnErr result (out.new.items ≡ out.old.items) }
{
    let [a, b, c, d] = n.to_be_bytes();
    out.extend_from_slice(&[first, a, b, c, d])
}

/// A first byte and a number in 8 bytes.
fn put_u64(out: &mut Vec<u8>, first: u8, n: u64) -> Result<(), AllocError>
    ensures ok { OnOk result (out.new.items ≡ out.old.items ++ first ∷ to_be_bytes w64 n) }
    ensures err { OnErr result (out.new.items ≡ out.old.items) }
{
    let [a, b, c, d, e, f, g, h] = n.to_be_bytes();
    out.extend_from_slice(&[first, a, b, c, d, e, f, g, h])
}

/// A whole number from 0 on.
#[inline(always)]
#[tactic(auto, unfolding(crate::specs::Atoms::shortest))]
fn put_unsigned(out: &mut Vec<u8>, n: u64) -> Result<(), AllocError>
    ensures ok { OnOk result (out.new.items ≡ out.old.items ++ shortest (int (pos n))) }
    ensures err { OnErr result (out.new.items ≡ out.old.items) }
{
    if n < 0x80 {
        out.extend_from_slice(&[n as u8])
    } else if n < 0x100 {
        put_u8(out, 0xcc, n as u8)
    } else if n < 0x1_0000 {
        put_u16(out, 0xcd, n as u16)
    } else if n < 0x1_0000_0000 {
        put_u32(out, 0xce, n as u32)
    } else {
        put_u64(out, 0xcf, n)
    }
}

/// A whole number below 0.
#[tactic(auto, unfolding(crate::specs::Atoms::shortest))]
fn put_negative(out: &mut Vec<u8>, n: i64) -> Result<(), AllocError>
    requires { n <ℤ pos 0 }
    ensures ok { OnOk result (out.new.items ≡ out.old.items ++ shortest (int n)) }
    ensures err { OnErr result (out.new.items ≡ out.old.items) }
{
    if n >= -0x20 {
        out.extend_from_slice(&[(n as i8).cast_unsigned()])
    } else if n >= -0x80 {
        put_u8(out, 0xd0, (n as i8).cast_unsigned())
    } else if n >= -0x8000 {
        put_u16(out, 0xd1, (n as i16).cast_unsigned())
    } else if n >= -0x8000_0000 {
        put_u32(out, 0xd2, (n as i32).cast_unsigned())
    } else {
        put_u64(out, 0xd3, n.cast_unsigned())
    }
}

/// A whole number ("int format family").
#[inline(always)]
fn put_int(out: &mut Vec<u8>, n: i128) -> Result<(), AllocError>
    requires { Fits (int n) }
    ensures ok { OnOk result (out.new.items ≡ out.old.items ++ shortest (int n)) }
    ensures err { OnErr result (out.new.items ≡ out.old.items) }
{
    if n < 0 {
        put_negative(out, n as i64)
    } else {
        put_unsigned(out, n as u64)
    }
}

/// A length, by the first bytes of its widths.
fn put_length(
    out: &mut Vec<u8>,
    len: usize,
    in_one: u8,
    in_two: u8,
    in_four: u8,
) -> Result<(), AllocError>
    requires { len < 2 ^ 32 }
    ensures ok { OnOk result
        (out.new.items ≡ out.old.items ++ length_spelling len in_one in_two in_four) }
    ensures err { OnErr result (out.new.items ≡ out.old.items) }
{
    if len < 0x100 {
        put_u8(out, in_one, len as u8)
    } else if len < 0x1_0000 {
        put_u16(out, in_two, len as u16)
    } else {
        put_u32(out, in_four, len as u32)
    }
}

/// Appends a body, or cuts `out` back to its length before the body's head.
fn put_body(out: &mut Vec<u8>, body: &[u8], before: usize) -> Result<(), AllocError>
    ensures ok { OnOk result (out.new.items ≡ out.old.items ++ body.now) }
    ensures err { OnErr result (out.new.items ≡ take before out.old.items) }
{
    let done = out.extend_from_slice(body);
    if done.is_err() {
        out.truncate(before);
    }
    done
}

/// A text ("str format family").
#[tactic(auto, unfolding(crate::specs::Atoms::shortest))]
fn put_text(out: &mut Vec<u8>, body: &[u8]) -> Result<(), AllocError>
    requires { length body.now < 2 ^ 32 }
    ensures ok { OnOk result (out.new.items ≡ out.old.items ++ shortest (text body.now)) }
    ensures err { OnErr result (out.new.items ≡ out.old.items) }
{
    let before = out.len();
    if body.len() < 0x20 {
        out.extend_from_slice(&[0xa0 + body.len() as u8])?;
    } else {
        put_length(out, body.len(), 0xd9, 0xda, 0xdb)?;
    }
    put_body(out, body, before)
}

/// Bytes ("bin format family").
#[tactic(auto, unfolding(crate::specs::Atoms::shortest))]
fn put_binary(out: &mut Vec<u8>, body: &[u8]) -> Result<(), AllocError>
    requires { length body.now < 2 ^ 32 }
    ensures ok { OnOk result (out.new.items ≡ out.old.items ++ shortest (binary body.now)) }
    ensures err { OnErr result (out.new.items ≡ out.old.items) }
{
    let before = out.len();
    put_length(out, body.len(), 0xc4, 0xc5, 0xc6)?;
    put_body(out, body, before)
}

/// The head of an array or a map, by its first bytes ("array format family", "map format family").
#[inline(always)]
fn put_head(
    out: &mut Vec<u8>,
    n: u32,
    alone_from: u8,
    in_two: u8,
    in_four: u8,
) -> Result<(), AllocError>
    requires { alone_from ≤ 0xf0 }
    ensures ok { OnOk result
        (out.new.items ≡ out.old.items ++ head_spelling n alone_from in_two in_four) }
    ensures err { OnErr result (out.new.items ≡ out.old.items) }
{
    if n < 16 {
        out.extend_from_slice(&[alone_from + n as u8])
    } else if n < 0x1_0000 {
        put_u16(out, in_two, n as u16)
    } else {
        put_u32(out, in_four, n)
    }
}

/// Appends the shortest spelling of an atom. After an error `out` is unchanged.
#[inline(always)]
#[tactic(auto, unfolding(crate::specs::Atoms::shortest))]
pub fn put_atom(out: &mut Vec<u8>, atom: &Atom<'_>) -> Result<(), AllocError>
    requires { Fits (value_of atom.now) }
    ensures ok { OnOk result (out.new.items ≡ out.old.items ++ shortest (value_of atom.now)) }
    ensures err { OnErr result (out.new.items ≡ out.old.items) }
{
    match atom {
        Atom::Int(n) => put_int(out, *n),
        Atom::Bool(b) => out.extend_from_slice(&[if *b { 0xc3 } else { 0xc2 }]),
        Atom::F32(bits) => put_u32(out, 0xca, *bits),
        Atom::F64(bits) => put_u64(out, 0xcb, *bits),
        Atom::Text(text) => put_text(out, text.as_bytes()),
        Atom::Bytes(bytes) => put_binary(out, bytes),
        Atom::ArrayHead(n) => put_head(out, *n, 0x90, 0xdc, 0xdd),
        Atom::MapHead(n) => put_head(out, *n, 0x80, 0xde, 0xdf),
    }
}
