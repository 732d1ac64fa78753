//! Reading a head, one byte after another, so that no byte behind it is taken.

ghost use Rattle.std.specs.Prelude.{◌≡◌, ◌≤◌, ◌++◌, [], ◌∷◌, length, IfOk, IfErr, OnErr, IfSome, IfNone, vec_len};
ghost use Rattle.std.specs.Io.KnownBytes.{Consumes, IsAtEnd};
ghost use Rattle.nt_link.specs.Causes.{Rose, IsLater};
ghost use Rattle.nt_ws.specs.Ends.{most_bytes, is_empty_line, IsHead, IsBegun, GoesOn, GivesNone};

use crate::fault::HeadFault;
use nt_link::{Failed, Source};
use std::alloc::{AllocError, Global};

/// The most bytes of a head.
const MOST_BYTES: usize = 8192;

/// A head that is being read.
#[derive(Drop)]
struct Head {
    /// What was read so far.
    bytes: Vec<u8>,
    /// Where the line begins that isn't whole.
    line: usize,
    /// A line that isn't empty has come.
    begun: bool,
}

/// Whether a line is empty: nothing or one CR stands before its end.
fn is_empty_line(line: &[u8]) -> bool
    ensures { result ≡ is_empty_line line.now }
{
    line.is_empty() || line == b"\r".as_slice()
}

impl Head {
    /// Adds a byte, and says whether the head is whole now.
    fn push(&mut self, byte: u8) -> Result<bool, AllocError>
        requires { IsBegun self.old.bytes.items self.old.line self.old.begun }
        ensures { IfOk result (λ whole. (self.new.bytes.items ≡ self.old.bytes.items ++ byte ∷ [])
            × GoesOn whole self.new.bytes.items self.new.line self.new.begun) }
    {
        let is_empty = is_empty_line(&self.bytes[self.line..]);
        self.bytes.push(byte)?;
        if byte != b'\n' {
            return Ok(false);
        }
        self.line = self.bytes.len();
        let is_whole = self.begun && is_empty;
        self.begun |= !is_empty;
        Ok(is_whole)
    }
}

/// The next byte of a source, where it isn't at its end.
fn next_byte<R: Source>(source: &mut R) -> Result<Option<u8>, Failed>
    ensures byte { IfOk result (λ next. IfSome next (λ byte.
        Consumes (R.left source.old) (R.left source.new) (byte ∷ []))) }
    ensures end { IfOk result (λ next. IfNone next
        (Consumes (R.left source.old) (R.left source.new) [] × IsAtEnd (R.left source.new))) }
    ensures failed { OnErr result (Consumes (R.left source.old) (R.left source.new) []
        × Rose (R.faults source.old) (R.faults source.new)) }
    ensures source { IsLater R.faults R.aside source.old source.new }
{
    let mut buf = [0];
    let count = source.read(&mut buf)?;
    Ok(if count == 0 { None } else { Some(buf[0]) })
}

/// Reads a head: up to the end of the first empty line behind one that isn't empty.
///
/// # Errors
///
/// `TooLong` where 8,192 bytes came and no such line ended, `NotHttp` where the source is at its end
/// before, `Read` where a read failed, and want of memory.
pub(crate) fn read_head<R: Source>(alloc: Global, source: &mut R) -> Result<Vec<u8>, HeadFault>
    ensures head { IfOk result (λ head. IsHead head.items × (vec_len head ≤ most_bytes)
        × Consumes (R.left source.old) (R.left source.new) head.items) }
    ensures none { IfErr result (GivesNone (R.left source.old) (R.left source.new)) }
    ensures failed { result ≡ Err HeadFault.Read →
        Rose (R.faults source.old) (R.faults source.new) }
    ensures source { IsLater R.faults R.aside source.old source.new }
{
    let mut head = Head {
        bytes: Vec::new(alloc),
        line: 0,
        begun: false,
    };
    while head.bytes.len() < MOST_BYTES {
        match next_byte(source) {
            Ok(Some(byte)) => if head.push(byte)? {
                return Ok(head.bytes);
            },
            Ok(None) => return Err(HeadFault::NotHttp),
            Err(Failed) => return Err(HeadFault::Read),
        }
    }
    Err(HeadFault::TooLong)
}
