//! Arrays of elements, cut where they get too long.

ghost use Rattle.std.specs.Prelude.{◌≡◌, map, IfOk};
ghost use Rattle.nt_rules.specs.meta.Packing.{array_bytes};
ghost use Rattle.nt_meta.specs.Packing.{none_packed, with_element, with_elements, packed_bytes};
ghost use Rattle.nt_rules.specs.meta.Elements.{spelled};

use crate::element::Element;
use nt_msgpack::{Atom, put_atom};
use nt_rules::MOST_BYTES;
use nt_values::Bytes;
use std::alloc::{AllocError, Global};
use std::marker::Model;

/// An array that is written element by element. From the first element on with which the bytes get
/// too long, none is kept.
#[derive(Drop)]
pub struct Packed {
    count: u32,
    bytes: Vec<u8>,
    is_full: bool,
}

impl Model for Packed {
    ghost use Rattle.std.specs.Prelude.{◌≤◌, length};
    ghost use Rattle.nt_rules.specs.Limits.{most_bytes};
    ghost use Rattle.nt_meta.specs.Packing as packing;

    ghost Value = { packing.Packed };

    ghost view = { λ p. record { count = p.count; bytes = p.bytes.items; is_full = p.is_full } };

    ghost invariant = { λ p. (p.count ≤ length p.bytes.items)
        × (length p.bytes.items ≤ most_bytes) };
}

impl Packed {
    /// No elements.
    pub fn new(alloc: Global) -> Packed
        ensures { result ≡ none_packed }
    {
        Packed {
            count: 0,
            bytes: Vec::new(alloc),
            is_full: false,
        }
    }

    /// With one more element, unless the bytes get too long with it or did before. It fails for
    /// want of memory, and where the element has no spelling.
    pub fn with<E: Element>(self, alloc: Global, element: &E) -> Result<Packed, AllocError>
        ensures { IfOk result (λ p. p ≡ with_element self (spelled (E.atoms element.now))) }
    {
        if self.is_full {
            return Ok(self);
        }
        let Packed {
            count,
            mut bytes,
            ..
        } = self;
        let before = bytes.len();
        element.put(alloc, &mut bytes)?;
        let is_full = bytes.len() > MOST_BYTES;
        if is_full {
            bytes.truncate(before);
            return Ok(Packed {
                count,
                bytes,
                is_full,
            });
        }
        Ok(Packed {
            count: count + 1,
            bytes,
            is_full,
        })
    }

    /// With each of these elements.
    pub fn with_all<E: Element>(self, alloc: Global, elements: &[E]) -> Result<Packed, AllocError>
        ensures { IfOk result (λ p. p ≡ with_elements self (map E.atoms elements.now)) }
    {
        let mut packed = self;
        for element in elements {
            packed = packed.with(alloc, element)?;
        }
        Ok(packed)
    }

    /// The array: its head and its elements.
    pub fn finish(&self, alloc: Global) -> Result<Bytes, AllocError>
        ensures { IfOk result (λ bytes. bytes ≡ packed_bytes self.now) }
    {
        let mut out = Vec::new(alloc);
        put_atom(&mut out, &Atom::ArrayHead(self.count))?;
        out.extend_from_slice(self.bytes.as_slice())?;
        Ok(Bytes::of_vec(out))
    }
}
