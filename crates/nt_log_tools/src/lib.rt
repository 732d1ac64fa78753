//! The commands that read a log, `check` and `show`, over any source and output.
#![tactic(auto)]

mod command;
mod input;
mod item_line;
mod laws;
mod log_end;
mod log_items;
mod log_tool;

pub use command::LogTool;
pub use laws::line_tells_item;
pub use log_tool::run_log_tool;
