//! Reading a log of a source, piece by piece.

ghost use Rattle.std.specs.Prelude.{IfOk, OnErr, IsErrOf, ◌≤◌, ◌++◌, ◌≡◌, List, ℕ, length};
ghost use Rattle.std.specs.Io.KnownBytes.{Consumes};
ghost use Rattle.nt_link.specs.Causes.{Rose, IsLater};
ghost use Rattle.nt_tools.specs.Input.{piece_bytes};
ghost use Rattle.nt_log_tools.specs.LogRun.{Feeds};

use nt_link::Source;
use nt_tools::{PIECE, ToolFault};
use wpilog_read::LogReader;

/// What came of a source in one read.
#[derive(Clone, Copy)]
pub enum Came {
    /// Bytes, all of which may still be read.
    Bytes,
    /// More bytes than may still be read.
    Beyond,
    /// The end.
    End,
}

/// Reads a piece of the source, and hands the reader as much of it as there is room for.
pub fn feed_piece<R: Source>(
    source: &mut R,
    piece: &mut [u8; PIECE],
    reader: &mut LogReader,
    room: &mut usize,
) -> Result<Came, ToolFault>
    ensures feeds { IfOk result (λ came. Feeds came (R.left source.old) (R.left source.new)
        reader.old reader.new room.old room.new) }
    ensures taken { OnErr result ((bytes : List ℕ) × (length bytes ≤ piece_bytes)
        × Consumes (R.left source.old) (R.left source.new) bytes) }
    ensures read { IsErrOf result ToolFault.Read → Rose (R.faults source.old) (R.faults source.new) }
    ensures no_write { IsErrOf result ToolFault.Write → ⊥ }
    ensures source { IsLater R.faults R.aside source.old source.new }
{
    let Ok(count) = source.read(piece) else {
        return Err(ToolFault::Read);
    };
    if count == 0 {
        return Ok(Came::End);
    }
    if count > *room {
        reader.feed(&piece[..*room])?;
        *room = 0;
        return Ok(Came::Beyond);
    }
    reader.feed(&piece[..count])?;
    *room -= count;
    Ok(Came::Bytes)
}
