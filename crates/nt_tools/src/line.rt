//! Reading lines.

ghost use Rattle.std.specs.Prelude.{◌≡◌, ◌≢◌, ◌≤◌, ◌<◌, ◌+◌, ◌-◌, ◌++◌, ◌⊎◌, ◌↔◌, [], length, take, drop, true, false, IfOk, IfErr, OnOk, OnErr, IsErrOf, IsTrue};
ghost use Rattle.std.specs.List.{position};
ghost use Rattle.std.specs.Io.KnownBytes.{Consumes, Keeps, IsAtEnd};
ghost use Rattle.nt_link.specs.Causes.{Rose, IsLater};
ghost use Rattle.nt_tools.specs.Input.{most_bytes, piece_bytes};
ghost use Rattle.nt_tools.specs.LineReading.{most_line, is_feed, Reads, Gathers, feed_gathered, feed_read, IsTooLong};
ghost use Rattle.nt_tools.specs.declared.line.LineFault.TheVariants.{Memory};

use crate::input::MOST_BYTES;
use crate::piece::Piece;
use nt_link::Source;
use std::alloc::{AllocError, Global};
use std::marker::Model;

/// The most bytes of a line, without its line feed.
const MOST_LINE: usize = 1 << 20;

/// How a line ended.
#[derive(Clone, Copy)]
pub enum LineEnd {
    /// By a line feed.
    Feed,
    /// By the end of the source. There may have been no byte of it.
    Input,
}

/// Why no line was read.
#[derive(Clone, Copy)]
pub enum LineFault {
    /// The line has more bytes than a line may have.
    TooLong,
    /// The source has more bytes than a tool reads.
    TooMany,
    /// A read failed.
    Failed,
    /// Want of memory.
    Memory,
}

impl From<AllocError> for LineFault {
    ghost from_gives = { λ _ e. e ≡ Memory };

    fn from(_error: AllocError) -> LineFault {
        LineFault::Memory
    }
}

/// Reads the lines of a source, which has more bytes than a tool reads where they don't fit into
/// the room. It reads on only where what is ahead holds no whole line.
#[derive(Drop)]
pub struct LineReader {
    piece: Piece,
    room: usize,
}

impl Model for LineReader {
    ghost use Rattle.nt_tools.specs.LineReading.{Ahead};

    ghost Value = { Ahead };

    ghost view = { λ r. record { bytes = r.piece; room = r.room } };
}

impl LineReader {
    /// A reader that has taken nothing.
    pub fn new(alloc: Global) -> Result<LineReader, AllocError>
        ensures { IfOk result (λ r. r ≡ record { bytes = []; room = most_bytes }) }
    {
        Ok(LineReader {
            piece: Piece::new(alloc)?,
            room: MOST_BYTES,
        })
    }

    /// Reads the next line into `line`, in place of what stood there. A line is answered before more
    /// of the source is read.
    ///
    /// # Errors
    ///
    /// `TooLong` comes as soon as more bytes came than a line may have, and `TooMany` where bytes
    /// came that don't fit into the room. `Failed` comes only where the source's count of faults
    /// rose. The line then holds the bytes that were moved so far, and nothing is lost.
    pub fn read_line<R: Source>(
        &mut self,
        source: &mut R,
        line: &mut Vec<u8>,
    ) -> Result<LineEnd, LineFault>
        ensures reads { Reads (R.left source.old) (R.left source.new) self.old self.new
            line.new.items (feed_read result) }
        ensures ended { result ≡ Ok LineEnd.Input →
            IsAtEnd (R.left source.new) × (self.new.bytes ≡ []) }
        ensures too_long { IsErrOf result LineFault.TooLong → IsTooLong line.new.items self.new }
        ensures too_many { IsErrOf result LineFault.TooMany →
            (self.new.room ≡ 0) × (0 < length self.new.bytes) }
        ensures failed { IsErrOf result LineFault.Failed →
            Rose (R.faults source.old) (R.faults source.new) }
        ensures most { length self.new.bytes ≤ piece_bytes }

        ensures source { IsLater R.faults R.aside source.old source.new }
    {
        line.clear();
        loop {
            if self.gather(line)? {
                return Ok(LineEnd::Feed);
            }
            if !self.refill(source)? {
                return Ok(LineEnd::Input);
            }
        }
    }

    /// Moves what is ahead to the end of the line, up to the first line feed, which is given too,
    /// and says whether it came.
    fn gather(&mut self, line: &mut Vec<u8>) -> Result<bool, LineFault>
        requires { length line.old.items ≤ most_line }
        ensures gathers { Gathers self.old self.new line.old.items line.new.items
            (feed_gathered result) }
        ensures all { result ≡ Ok false → self.new.bytes ≡ [] }
        ensures short { length line.new.items ≤ most_line }
        ensures too_long { IsErrOf result LineFault.TooLong → IsTooLong line.new.items self.new }
        ensures too_many { IsErrOf result LineFault.TooMany →
            (self.new.room ≡ 0) × (0 < length self.new.bytes) }
        ensures not_failed { IsErrOf result LineFault.Failed → ⊥ }
        ensures most { length self.new.bytes ≤ piece_bytes }
    {
        let within = self.within();
        match line_feed(within) {
            Some(count) => {
                extend(line, &within[..count])?;
                self.give(count + 1);
                Ok(true)
            }
            None => {
                let count = within.len();
                extend(line, within)?;
                self.give(count);
                if self.piece.is_empty() {
                    Ok(false)
                } else {
                    Err(LineFault::TooMany)
                }
            }
        }
    }

    /// What is ahead within the room.
    fn within(&self) -> &[u8]
        ensures bytes { result.now ≡ take self.now.room self.now.bytes }
        ensures most { length self.now.bytes ≤ piece_bytes }
    {
        let ahead = self.piece.as_slice();
        &ahead[..ahead.len().min(self.room)]
    }

    /// Gives the first so many bytes.
    fn give(&mut self, count: usize)
        requires there { count ≤ length self.old.bytes }
        requires within { count ≤ self.old.room }
        ensures { self.new ≡
            record { bytes = drop count self.old.bytes; room = self.old.room - count } }
    {
        self.piece.advance(count);
        self.room -= count;
    }

    /// Reads on, where nothing is ahead, and says whether there were more bytes.
    fn refill<R: Source>(&mut self, source: &mut R) -> Result<bool, LineFault>
        requires { self.old.bytes ≡ [] }
        ensures taken { IfOk result (λ _.
            Consumes (R.left source.old) (R.left source.new) self.new.bytes) }
        ensures more { IfOk result (λ more. IsTrue more ↔ (self.new.bytes ≢ [])) }
        ensures ended { result ≡ Ok false → IsAtEnd (R.left source.new) }
        ensures failed { IfErr result (λ e. (e ≡ LineFault.Failed)
            × Rose (R.faults source.old) (R.faults source.new)
            × Keeps (R.left source.old) (R.left source.new) × (self.new.bytes ≡ [])) }
        ensures room { self.new.room ≡ self.old.room }
        ensures most { length self.new.bytes ≤ piece_bytes }

        ensures source { IsLater R.faults R.aside source.old source.new }
    {
        if self.piece.refill(source).is_err() {
            return Err(LineFault::Failed);
        }
        Ok(!self.piece.is_empty())
    }
}

/// Adds bytes to a line, which stays as it was where they are too many.
fn extend(line: &mut Vec<u8>, bytes: &[u8]) -> Result<(), LineFault>
    requires { length line.old.items ≤ most_line }
    ensures ok { OnOk result (line.new.items ≡ line.old.items ++ bytes.now) }
    ensures short { length line.new.items ≤ most_line }
    ensures err { OnErr result (line.new.items ≡ line.old.items) }
    ensures too_long { IsErrOf result LineFault.TooLong →
        most_line < length line.old.items + length bytes.now }
    ensures no_other { IfErr result (λ e. (e ≡ LineFault.TooLong) ⊎ (e ≡ LineFault.Memory)) }
{
    if bytes.len() > MOST_LINE - line.len() {
        return Err(LineFault::TooLong);
    }
    line.extend_from_slice(bytes)?;
    Ok(())
}

/// The index of the first line feed.
fn line_feed(bytes: &[u8]) -> Option<usize>
    ensures { result ≡ position is_feed bytes.now }
{
    bytes.iter().position(|b| *b == b'\n')
}
