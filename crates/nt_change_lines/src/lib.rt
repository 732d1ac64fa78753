//! The lines by which changes of topics are printed.
#![tactic(auto)]

mod line;
mod value;

pub use line::{append_change, change_line};
