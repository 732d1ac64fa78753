//! Whole logs: all items that follow, and a log that comes in pieces.

ghost use Rattle.std.specs.Prelude.{◌≡◌, ◌++◌, ◌+◌, ◌≤◌, List, ℕ, Option, OnOk, IfOk, length};
ghost use Rattle.std.specs.List.{flat_map};
ghost use Rattle.wpilog_read.specs.declared.item_at.ItemAt.{ItemAt as Item};
ghost use Rattle.wpilog_read.specs.declared.fault.LogFault.{LogFault as Fault};
ghost use Rattle.wpilog_read.specs.Meaning.{Means};
ghost use Rattle.wpilog_read.specs.Run.{Stands, IsEnded};

use crate::fault::{LogFault, NextFault};
use crate::item_at::ItemAt;
use crate::reader::LogReader;
use nt_values::Bytes;
use std::alloc::{AllocError, Global};

/// Takes the items that are whole now, and counts them.
pub fn count_items(alloc: Global, reader: &mut LogReader) -> Result<u64, AllocError>
    ensures counts { IfOk result (λ n. (bytes : List ℕ) (items : List Item) → Stands bytes items reader.old
        → (more : List Item) × (length more ≡ n) × Stands bytes (items ++ more) reader.new) }
    ensures most { IfOk result (λ n. reader.old.at + n ≤ reader.new.at) }
    ensures ended { OnOk result (IsEnded reader.new) }

    // Also for want of memory only whole items were taken.
    ensures kept { (bytes : List ℕ) (items : List Item) → Stands bytes items reader.old
        → (more : List Item) × Stands bytes (items ++ more) reader.new }
{
    let mut count = 0;
    loop {
        match reader.next(alloc) {
            Ok(Some(_item)) => count += 1,
            Ok(None) | Err(NextFault::Log(_)) => return Ok(count),
            Err(NextFault::Memory) => return Err(AllocError),
        }
    }
}

/// Takes the items that are whole now, onto the end of `items`.
pub fn take_items(
    alloc: Global,
    reader: &mut LogReader,
    items: &mut Vec<ItemAt>,
) -> Result<(), AllocError>
    ensures stands { OnOk result ((bytes : List ℕ) (before : List Item) → Stands bytes before reader.old
        → (more : List Item) × (items.new.items ≡ items.old.items ++ more)
        × Stands bytes (before ++ more) reader.new) }
    ensures ended { OnOk result (IsEnded reader.new) }

    // For want of memory the last item that was taken may be lost.
    ensures kept { (bytes : List ℕ) (before : List Item) → Stands bytes before reader.old
        → (more : List Item) × (lost : List Item) × (items.new.items ≡ items.old.items ++ more)
        × (length lost ≤ 1) × Stands bytes (before ++ (more ++ lost)) reader.new }
{
    loop {
        match reader.next(alloc) {
            Ok(Some(item)) => items.push(item)?,
            Ok(None) | Err(NextFault::Log(_)) => return Ok(()),
            Err(NextFault::Memory) => return Err(AllocError),
        }
    }
}

/// What a log in pieces was read as.
#[derive(Drop)]
pub struct LogRead {
    /// The extra header, where the header is whole and lawful.
    pub extra: Option<Bytes>,
    /// All items before the end or the fault, in their order.
    pub items: Vec<ItemAt>,
    /// None where the log is whole.
    pub fault: Option<LogFault>,
}

/// The extra header, once the header was read.
fn copy_extra(alloc: Global, reader: &LogReader) -> Result<Option<Bytes>, AllocError>
    ensures { IfOk result (λ extra. extra ≡ reader.now.extra) }
{
    match reader.extra() {
        Some(extra) => Ok(Some(Bytes::of(alloc, extra)?)),
        None => Ok(None),
    }
}

/// Reads a log that comes in these pieces, however it was cut.
pub fn read_pieces(alloc: Global, pieces: &[Bytes]) -> Result<LogRead, AllocError>
    ensures meaning { IfOk result
        (λ log. Means (flat_map (λ piece. piece) pieces.now) log.extra log.items.items log.fault) }
    ensures only { IfOk result (λ log. (extra : Option (List ℕ)) (items : List Item)
        (fault : Option Fault) → Means (flat_map (λ piece. piece) pieces.now) extra items fault
        → (extra ≡ log.extra) × (items ≡ log.items.items) × (fault ≡ log.fault)) }
{
    let mut reader = LogReader::new(alloc);
    let mut items = Vec::new(alloc);
    take_items(alloc, &mut reader, &mut items)?;
    for piece in pieces {
        reader.feed(piece.as_bytes())?;
        take_items(alloc, &mut reader, &mut items)?;
    }
    let extra = copy_extra(alloc, &reader)?;
    Ok(LogRead {
        extra,
        items,
        fault: reader.finish().err(),
    })
}
