//! Bytes as a field of a line.

ghost use Rattle.std.specs.Prelude.{◌≡◌};
ghost use Rattle.percent_encoding.specs.Iter.{encoded_text};
ghost use Rattle.nt_lines.specs.ItemLines.{escaped};

use percent_encoding::{AsciiSet, CONTROLS, PercentEncode, ascii_set, percent_encode};
use std::fmt;

/// The ASCII bytes that a field escapes. Bytes past ASCII are escaped too.
const ESCAPED: AsciiSet = ascii_set!(CONTROLS.add(b' ').add(b'%').add(b','));

/// Bytes as a field of a line: escaped, and never empty.
#[derive(Clone, Copy)]
pub struct Field<'a>(pub &'a [u8]);

impl fmt::Display for Field<'_> {
    ghost use Rattle.std.specs.Prelude.{Some};
    ghost use Rattle.nt_lines.specs.ItemLines.{field};

    ghost output = { λ text. Some (field text.0.now) };

    fn fmt<W: fmt::Write>(&self, f: &mut fmt::Formatter<W>) -> fmt::Result {
        match self.0 {
            [] => write!(f, "-"),
            [b'-'] => write!(f, "%2D"),
            text => {
                let escaped = with_escapes(text);
                write!(f, "{escaped}")
            }
        }
    }
}

/// A text with its escapes.
fn with_escapes(text: &[u8]) -> PercentEncode<'_>
    ensures { encoded_text result ≡ escaped text.now }
{
    percent_encode(text, ESCAPED)
}
