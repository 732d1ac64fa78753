//! The commands of the program `nt`, over any source and sinks.
#![tactic(auto)]

mod desk;
mod desk_output;
mod hexadecimal;
mod laws;
mod messages;
mod tool;
mod turn;
mod words;

pub use laws::nothing_is_owed_after_a_turn;
pub use tool::run_tool;
pub use words::{ToolFiles, UsageFault, tool_files};
