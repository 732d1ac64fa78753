//! Single values as atoms: alone, or as the elements of lists.

ghost use Rattle.std.specs.Prelude.{◌≡◌, ◌++◌, ◌^◌, ◌<◌, ℕ, true, false, MatchOption, IfOk, OnOk};
ghost use Rattle.nt_msgpack.specs.Atoms.{AtomValue, value_of, shortest, Fits};
ghost use Rattle.nt_frames.specs.Frames.{may_stand, CanSpell};

use nt_msgpack::{Atom, put_atom};
use nt_values::{Bytes, Text, double_of_float, double_of_int, float_of_double, float_of_int};
use std::alloc::{AllocError, Global};

/// A single value of one data type (NetworkTables 4.1, "Supported Data Types").
pub trait Element: Sized + Drop {
    ghost number: { ℕ };

    ghost stands: { Self → AtomValue → Type 0 };

    ghost written: { Self → AtomValue };

    /// The value that an atom stands for, or None where it may stand for no value of this type.
    fn of_atom(alloc: Global, atom: &Atom<'_>) -> Result<Option<Self>, AllocError>
        requires { Fits (value_of atom.now) }
        ensures { IfOk result (λ x. MatchOption x
            (may_stand number (value_of atom.now) ≡ false)
            (λ v. (may_stand number (value_of atom.now) ≡ true) × stands v (value_of atom.now))) };

    /// Appends the value's own atom. It fails for want of memory, or where the atom has no
    /// spelling.
    fn put(&self, out: &mut Vec<u8>) -> Result<(), AllocError>
        ensures ok { OnOk result (out.new.items ≡ out.old.items ++ shortest (written self.now)) }
        ensures spelled { OnOk result (CanSpell (written self.now)) }
        ensures stands { OnOk result (may_stand number (written self.now) ≡ true) };
}

impl Element for bool {
    ghost use Rattle.nt_msgpack.specs.Atoms.{boolean};
    ghost use Rattle.nt_frames.specs.Frames.{IsBool};

    ghost number = { 0 };

    ghost stands = { IsBool };

    ghost written = { boolean };

    fn of_atom(_alloc: Global, atom: &Atom<'_>) -> Result<Option<bool>, AllocError> {
        match atom {
            Atom::Bool(truth) => Ok(Some(*truth)),
            _ => Ok(None),
        }
    }

    fn put(&self, out: &mut Vec<u8>) -> Result<(), AllocError> {
        put_atom(out, &Atom::Bool(*self))
    }
}

// A double.
impl Element for u64 {
    ghost use Rattle.nt_msgpack.specs.Atoms.{float64};
    ghost use Rattle.nt_frames.specs.Frames.{IsDouble};

    ghost number = { 1 };

    ghost stands = { IsDouble };

    ghost written = { float64 };

    fn of_atom(_alloc: Global, atom: &Atom<'_>) -> Result<Option<u64>, AllocError> {
        match atom {
            Atom::F64(bits) => Ok(Some(*bits)),
            Atom::F32(bits) => Ok(Some(double_of_float(*bits))),
            Atom::Int(number) => Ok(Some(double_of_int(*number))),
            _ => Ok(None),
        }
    }

    fn put(&self, out: &mut Vec<u8>) -> Result<(), AllocError> {
        put_atom(out, &Atom::F64(*self))
    }
}

impl Element for i64 {
    ghost use Rattle.nt_msgpack.specs.Atoms.{int};
    ghost use Rattle.nt_frames.specs.Frames.{IsInt};

    ghost number = { 2 };

    ghost stands = { IsInt };

    ghost written = { int };

    fn of_atom(_alloc: Global, atom: &Atom<'_>) -> Result<Option<i64>, AllocError> {
        match atom {
            Atom::Int(number) => Ok(i64::try_from(*number).ok()),
            _ => Ok(None),
        }
    }

    fn put(&self, out: &mut Vec<u8>) -> Result<(), AllocError> {
        put_atom(out, &Atom::Int(i128::from(*self)))
    }
}

// A float.
impl Element for u32 {
    ghost use Rattle.nt_msgpack.specs.Atoms.{float32};
    ghost use Rattle.nt_frames.specs.Frames.{IsFloat};

    ghost number = { 3 };

    ghost stands = { IsFloat };

    ghost written = { float32 };

    fn of_atom(_alloc: Global, atom: &Atom<'_>) -> Result<Option<u32>, AllocError> {
        match atom {
            Atom::F32(bits) => Ok(Some(*bits)),
            Atom::F64(bits) => Ok(Some(float_of_double(*bits))),
            Atom::Int(number) => Ok(Some(float_of_int(*number))),
            _ => Ok(None),
        }
    }

    fn put(&self, out: &mut Vec<u8>) -> Result<(), AllocError> {
        put_atom(out, &Atom::F32(*self))
    }
}

impl Element for Text {
    ghost use Rattle.nt_msgpack.specs.Atoms.{text};
    ghost use Rattle.nt_frames.specs.Frames.{IsText};

    ghost number = { 4 };

    ghost stands = { IsText };

    ghost written = { text };

    fn of_atom(alloc: Global, atom: &Atom<'_>) -> Result<Option<Text>, AllocError> {
        match atom {
            Atom::Text(text) => Ok(Some(Text::of(alloc, text)?)),
            _ => Ok(None),
        }
    }

    fn put(&self, out: &mut Vec<u8>) -> Result<(), AllocError> {
        let text = self.as_str();
        length_of(text.len())?;
        put_atom(out, &Atom::Text(text))
    }
}

impl Element for Bytes {
    ghost use Rattle.nt_msgpack.specs.Atoms.{binary};
    ghost use Rattle.nt_frames.specs.Frames.{IsBinary};

    ghost number = { 5 };

    ghost stands = { IsBinary };

    ghost written = { binary };

    fn of_atom(alloc: Global, atom: &Atom<'_>) -> Result<Option<Bytes>, AllocError> {
        match atom {
            Atom::Bytes(bytes) => Ok(Some(Bytes::of(alloc, bytes)?)),
            _ => Ok(None),
        }
    }

    fn put(&self, out: &mut Vec<u8>) -> Result<(), AllocError> {
        let bytes = self.as_bytes();
        length_of(bytes.len())?;
        put_atom(out, &Atom::Bytes(bytes))
    }
}

/// A length as MessagePack counts it. From 2^32 on there is no spelling, and want of memory is
/// answered.
pub fn length_of(length: usize) -> Result<u32, AllocError>
    ensures value { IfOk result (λ n. n ≡ length) }
    ensures small { OnOk result (length < 2 ^ 32) }
{
    u32::try_from(length).map_err(|_| AllocError)
}
