//! Atoms that are appended to bytes, each in its shortest spelling.

ghost use Rattle.std.specs.Prelude.{◌≡◌, [], ◌∷◌, ◌++◌, ◌<◌, ◌^◌, length, IfOk, OnOk};
ghost use Rattle.nt_msgpack.specs.Atoms.{int, text, map_head, shortest};
ghost use Rattle.nt_rules.specs.meta.Elements.{spelled, option_name, option_pairs, options_atoms, texts_atoms, true_options};

use nt_msgpack::{Atom, put_atom};
use nt_subs::{Names, Options};
use nt_topics::Name;
use std::alloc::AllocError;

/// Appends the head of a map.
pub fn put_map(out: &mut Vec<u8>, count: u32) -> Result<(), AllocError>
    ensures ok { OnOk result (out.new.items ≡ out.old.items ++ shortest (map_head count)) }
    ensures more { OnOk result (length out.old.items < length out.new.items) }
{
    put_atom(out, &Atom::MapHead(count))
}

/// Appends a key and a text. It fails for want of memory, and for a text of 2^32 bytes or more.
pub fn put_text_member(out: &mut Vec<u8>, key: &str, value: &str) -> Result<(), AllocError>
    ensures { OnOk result (out.new.items ≡ out.old.items
        ++ spelled (text key.now ∷ text value.now ∷ [])) }
{
    put_text(out, key)?;
    put_text(out, value)
}

/// Appends a key and a whole number.
pub fn put_int_member(out: &mut Vec<u8>, key: &str, value: i64) -> Result<(), AllocError>
    ensures { OnOk result (out.new.items ≡ out.old.items
        ++ spelled (text key.now ∷ int value ∷ [])) }
{
    put_text(out, key)?;
    put_atom(out, &Atom::Int(i128::from(value)))
}

/// Appends a key and an array of names. It fails for want of memory, and where a length is 2^32 or
/// more.
pub fn put_names_member(out: &mut Vec<u8>, key: &str, names: &Names) -> Result<(), AllocError>
    ensures { OnOk result (out.new.items ≡ out.old.items
        ++ spelled (text key.now ∷ texts_atoms names.now)) }
{
    put_text(out, key)?;
    put_names(out, names.as_slice())
}

/// Appends a key and a map of the options that are true.
pub fn put_options_member(out: &mut Vec<u8>, key: &str, options: Options) -> Result<(), AllocError>
    ensures { OnOk result (out.new.items ≡ out.old.items
        ++ spelled (text key.now ∷ options_atoms options)) }
{
    put_text(out, key)?;
    put_options(out, options)
}

/// Appends a text. It fails for want of memory, and for a text of 2^32 bytes or more.
fn put_text(out: &mut Vec<u8>, value: &str) -> Result<(), AllocError>
    ensures { OnOk result (out.new.items ≡ out.old.items ++ shortest (text value.now)) }
{
    length_of(value.len())?;
    put_atom(out, &Atom::Text(value))
}

/// Appends an array of names. It fails for want of memory, and where a length is 2^32 or more.
fn put_names(out: &mut Vec<u8>, names: &[Name]) -> Result<(), AllocError>
    ensures { OnOk result (out.new.items ≡ out.old.items ++ spelled (texts_atoms names.now)) }
{
    let count = length_of(names.len())?;
    put_atom(out, &Atom::ArrayHead(count))?;
    for name in names {
        put_text(out, name.as_str())?;
    }
    Ok(())
}

/// Appends a map of the options that are true.
fn put_options(out: &mut Vec<u8>, options: Options) -> Result<(), AllocError>
    ensures { OnOk result (out.new.items ≡ out.old.items ++ spelled (options_atoms options)) }
{
    put_map(out, option_count(options))?;
    put_option(out, "all", options.all)?;
    put_option(out, "prefix", options.prefix)?;
    put_option(out, "topicsonly", options.topicsonly)
}

/// How many options are true.
fn option_count(options: Options) -> u32
    ensures { result ≡ length (true_options options) }
{
    u32::from(options.all) + u32::from(options.prefix) + u32::from(options.topicsonly)
}

/// Appends an option's name and true, where it is true.
fn put_option(out: &mut Vec<u8>, name: &str, is_set: bool) -> Result<(), AllocError>
    ensures { OnOk result (out.new.items ≡ out.old.items
        ++ spelled (option_pairs (option_name name.now is_set))) }
{
    if is_set {
        put_text(out, name)?;
        put_atom(out, &Atom::Bool(true))?;
    }
    Ok(())
}

/// A length as MessagePack counts it. From 2^32 on there is no spelling, and want of memory is
/// answered.
fn length_of(length: usize) -> Result<u32, AllocError>
    ensures value { IfOk result (λ n. n ≡ length) }
    ensures small { OnOk result (length < 2 ^ 32) }
{
    u32::try_from(length).map_err(|_| AllocError)
}
