//! The values of topics, as they stand in a line.

ghost use Rattle.std.specs.Prelude.{◌≡◌, ◌++◌, List, ℕ, OnOk, codes, string_bytes};
ghost use Rattle.nt_lines.specs.ItemLines.{truth, float_bits, double_bits, field, listed, list_text, value_text};
ghost use Rattle.nt_change_lines.specs.ChangeLines.{logged};

use nt_lines::Field;
use nt_values::{Text, Value};
use std::alloc::AllocError;

/// An element of a list.
trait Element {
    /// Its text.
    ghost text: { Self → List ℕ };

    /// Appends the text.
    fn append(&self, out: &mut String) -> Result<(), AllocError>
        ensures { OnOk result (string_bytes out.new ≡ string_bytes out.old ++ text self.now) };
}

impl Element for bool {
    ghost text = { λ b. truth b };

    fn append(&self, out: &mut String) -> Result<(), AllocError> {
        write!(out, "{self}")
    }
}

impl Element for i64 {
    ghost use Rattle.std.specs.Fmt.{signed_decimal};

    ghost text = { λ n. signed_decimal n };

    fn append(&self, out: &mut String) -> Result<(), AllocError> {
        write!(out, "{self}")
    }
}

/// The bits of a float.
impl Element for u32 {
    ghost text = { λ bits. float_bits bits };

    #[tactic(auto, unfolding(nt_lines::specs::ItemLines::float_bits))]
    fn append(&self, out: &mut String) -> Result<(), AllocError> {
        let alloc = *out.allocator();
        let digits = hex::encode(alloc, self.to_be_bytes())?;
        out.push_str(digits.as_str())
    }
}

/// The bits of a double.
impl Element for u64 {
    ghost text = { λ bits. double_bits bits };

    #[tactic(auto, unfolding(nt_lines::specs::ItemLines::double_bits))]
    fn append(&self, out: &mut String) -> Result<(), AllocError> {
        let alloc = *out.allocator();
        let digits = hex::encode(alloc, self.to_be_bytes())?;
        out.push_str(digits.as_str())
    }
}

impl Element for Text {
    ghost text = { λ text. field text };

    fn append(&self, out: &mut String) -> Result<(), AllocError> {
        let field = Field(self.as_str().as_bytes());
        write!(out, "{field}")
    }
}

/// Appends a value: its type, and what it is.
pub fn append_value(text: &mut String, value: &Value) -> Result<(), AllocError>
    ensures { OnOk result (string_bytes text.new ≡ string_bytes text.old ++ value_text (logged value.now)) }
{
    match value {
        Value::Bool(truth) => truth.append(text),
        Value::Int(number) => {
            text.push_str("i64:")?;
            number.append(text)
        }
        Value::Float(bits) => {
            text.push_str("f32:")?;
            bits.append(text)
        }
        Value::Double(bits) => {
            text.push_str("f64:")?;
            bits.append(text)
        }
        Value::Text(string) => append_bytes(text, string.as_str().as_bytes()),
        Value::Bytes(bytes) => append_bytes(text, bytes.as_bytes()),
        Value::Bools(list) => append_list(text, "b[", list.as_slice()),
        Value::Ints(list) => append_list(text, "i64[", list.as_slice()),
        Value::Floats(list) => append_list(text, "f32[", list.as_slice()),
        Value::Doubles(list) => append_list(text, "f64[", list.as_slice()),
        Value::Texts(list) => append_list(text, "s[", list.as_slice()),
    }
}

/// Appends bytes, or a text as its bytes.
fn append_bytes(out: &mut String, bytes: &[u8]) -> Result<(), AllocError>
    ensures { OnOk result (string_bytes out.new ≡ string_bytes out.old ++ (codes "bytes:" ++ field bytes.now)) }
{
    let field = Field(bytes);
    write!(out, "bytes:{field}")
}

/// Appends a list: its elements between its label and a bracket.
fn append_list<T: Element>(out: &mut String, label: &str, list: &[T]) -> Result<(), AllocError>
    ensures { OnOk result (string_bytes out.new
        ≡ string_bytes out.old ++ list_text label.now (T.text) list.now) }
{
    out.push_str(label)?;
    append_elements(out, list)?;
    out.push_str("]")
}

/// Appends elements, with a comma between them.
fn append_elements<T: Element>(out: &mut String, list: &[T]) -> Result<(), AllocError>
    ensures { OnOk result (string_bytes out.new ≡ string_bytes out.old ++ listed (T.text) list.now) }
{
    let [first, rest @ ..] = list else {
        return Ok(());
    };
    first.append(out)?;
    for part in rest {
        out.push_str(",")?;
        part.append(out)?;
    }
    Ok(())
}
