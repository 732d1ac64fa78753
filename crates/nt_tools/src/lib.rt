//! What the commands of the program `nt` share: statuses, printing, and reading a source up to a limit, by lines too.
#![tactic(auto)]

mod input;
mod line;
mod output;
mod piece;
mod status;

pub use input::{MOST_BYTES, PIECE};
pub use line::{LineEnd, LineFault, LineReader};
pub use output::{TOO_LONG, print, tell, write};
pub use status::{Status, ToolFault};
