//! Items with their offsets.

use wpilog_write::LogItem;

/// An item, and the offset of its record's first byte.
#[derive(Drop)]
pub struct ItemAt {
    pub at: u64,
    pub item: LogItem,
}
