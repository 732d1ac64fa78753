//! Listeners, which hear of changes.
#![tactic(auto)]

mod laws;
mod listener;
mod listeners;
mod memory;
mod printer;
mod row;

pub use laws::listeners_hear_the_matching;
pub use listener::{Listener, Refused};
pub use listeners::{Listeners, ListenersOf};
pub use memory::MemListener;
pub use printer::Printer;
pub use row::Row;
