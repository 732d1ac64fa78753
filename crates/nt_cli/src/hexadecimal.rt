//! Lines that are binary frames: `hex `, and then bytes by two lower-case hexadecimal digits each.

ghost use Rattle.std.specs.Prelude.{◌≡◌, ◌<◌, ℕ, List, true, false, MatchOption, IfOk, IfSome, option_map, string_bytes};
ghost use Rattle.nt_cli.specs.Hexadecimal.{is_binary, digits_in, is_blank, digit_of as digit_value, byte_of as byte_value, spaced_bytes, hex_bytes, hex_line};

use std::alloc::{AllocError, Global};

/// What stands after `hex ` in a line that begins with it.
pub fn digits_in(line: &[u8]) -> Option<&[u8]>
    ensures { MatchOption result (is_binary line.now ≡ false)
        (λ digits. (is_binary line.now ≡ true) × (digits.now ≡ digits_in line.now)) }
{
    line.strip_prefix(b"hex ")
}

/// The bytes of a text of two digits each, with any number of blanks between bytes and nowhere
/// else. It is None where the text isn't so.
pub fn hex_bytes(alloc: Global, text: &[u8]) -> Result<Option<Vec<u8>>, AllocError>
    ensures { IfOk result (λ bytes. option_map (λ b. b.items) bytes ≡ hex_bytes text.now) }
{
    match text {
        [first, ..] if is_blank(*first) => Ok(None),
        _ => spaced_bytes(alloc, text),
    }
}

/// The same with any number of blanks before each byte.
fn spaced_bytes(alloc: Global, text: &[u8]) -> Result<Option<Vec<u8>>, AllocError>
    ensures { IfOk result (λ bytes. option_map (λ b. b.items) bytes ≡ spaced_bytes text.now) }
{
    let mut bytes = Vec::new(alloc);
    let mut rest = text;
    while let [first, second, after @ ..] = rest {
        if is_blank(*first) {
            rest = &rest[1..];
        } else {
            let Some(byte) = byte_of(*first, *second) else {
                return Ok(None);
            };
            bytes.push(byte)?;
            rest = after;
        }
    }
    if rest.is_empty() {
        Ok(Some(bytes))
    } else {
        Ok(None)
    }
}

/// Whether a byte of a line is a space or a tab.
fn is_blank(byte: u8) -> bool
    ensures { result ≡ is_blank byte }
{
    byte == b' ' || byte == b'\t'
}

/// The byte of two digits.
fn byte_of(high: u8, low: u8) -> Option<u8>
    ensures { result ≡ byte_value (digit_value high) (digit_value low) }
{
    match (digit_of(high), digit_of(low)) {
        (Some(high), Some(low)) => Some(high * 16 + low),
        _ => None,
    }
}

/// The worth of a digit.
fn digit_of(digit: u8) -> Option<u8>
    ensures worth { result ≡ digit_value digit }
    ensures low { IfSome result (λ worth. worth < 16) }
{
    match digit {
        b'0'..=b'9' => Some(digit - b'0'),
        b'a'..=b'f' => Some(digit - b'a' + 10),
        _ => None,
    }
}

/// The line of a binary frame.
pub fn hex_line(alloc: Global, bytes: &[u8]) -> Result<String, AllocError>
    ensures { IfOk result (λ line. string_bytes line ≡ hex_line bytes.now) }
{
    let digits = hex::encode(alloc, bytes)?;
    format!(in alloc; "hex {digits}\n")
}
