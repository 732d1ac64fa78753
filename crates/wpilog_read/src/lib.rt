//! Reads a WPILOG data log that comes in pieces.
#![tactic(auto)]

mod fault;
mod field;
mod item;
mod item_at;
mod laws;
mod reader;
mod value;
mod whole;

pub use fault::{LogFault, LogKind, NextFault};
pub use item_at::ItemAt;
pub use laws::{entries_are_live, reading_is_meaning, step_is_unit};
pub use reader::LogReader;
pub use whole::{LogRead, count_items, read_pieces, take_items};
