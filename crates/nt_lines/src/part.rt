//! The parts of values, as they stand in a line.

ghost use Rattle.std.specs.Prelude.{◌≡◌, ◌++◌, List, ℕ, OnOk, string_bytes};
ghost use Rattle.nt_lines.specs.ItemLines.{truth, float_bits, double_bits, field, listed, list_text};

use crate::field::Field;
use nt_values::Bytes;
use std::alloc::AllocError;

/// What stands in a value, alone or as an element of a list.
pub trait Part {
    /// Its text.
    ghost text: { Self → List ℕ };

    /// Appends the text.
    fn append(&self, out: &mut String) -> Result<(), AllocError>
        ensures { OnOk result (string_bytes out.new ≡ string_bytes out.old ++ text self.now) };
}

impl Part for bool {
    ghost text = { λ b. truth b };

    fn append(&self, out: &mut String) -> Result<(), AllocError> {
        write!(out, "{self}")
    }
}

impl Part for i64 {
    ghost use Rattle.std.specs.Fmt.{signed_decimal};

    ghost text = { λ n. signed_decimal n };

    fn append(&self, out: &mut String) -> Result<(), AllocError> {
        write!(out, "{self}")
    }
}

/// The bits of a float.
impl Part for u32 {
    ghost text = { λ bits. float_bits bits };

    #[tactic(auto, unfolding(crate::specs::ItemLines::float_bits))]
    fn append(&self, out: &mut String) -> Result<(), AllocError> {
        let alloc = *out.allocator();
        let digits = hex::encode(alloc, self.to_be_bytes())?;
        out.push_str(digits.as_str())
    }
}

/// The bits of a double.
impl Part for u64 {
    ghost text = { λ bits. double_bits bits };

    #[tactic(auto, unfolding(crate::specs::ItemLines::double_bits))]
    fn append(&self, out: &mut String) -> Result<(), AllocError> {
        let alloc = *out.allocator();
        let digits = hex::encode(alloc, self.to_be_bytes())?;
        out.push_str(digits.as_str())
    }
}

impl Part for Bytes {
    ghost text = { λ bytes. field bytes };

    fn append(&self, out: &mut String) -> Result<(), AllocError> {
        let field = Field(self.as_bytes());
        write!(out, "{field}")
    }
}

/// Appends a list: its elements between its label and a bracket.
pub fn append_list<T: Part>(out: &mut String, label: &str, list: &[T]) -> Result<(), AllocError>
    ensures { OnOk result (string_bytes out.new
        ≡ string_bytes out.old ++ list_text label.now (T.text) list.now) }
{
    out.push_str(label)?;
    append_elements(out, list)?;
    out.push_str("]")
}

/// Appends elements, with a comma between them.
fn append_elements<T: Part>(out: &mut String, list: &[T]) -> Result<(), AllocError>
    ensures { OnOk result (string_bytes out.new ≡ string_bytes out.old ++ listed (T.text) list.now) }
{
    let [first, rest @ ..] = list else {
        return Ok(());
    };
    first.append(out)?;
    for part in rest {
        out.push_str(",")?;
        part.append(out)?;
    }
    Ok(())
}
