//! The lines of a log's items.
#![tactic(auto)]

mod field;
mod item_line;
mod laws;
mod part;

pub use field::Field;
pub use item_line::append_item;
pub use laws::line_tells_item;
