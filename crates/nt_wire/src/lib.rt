//! Links, over which frames come and go, and clocks. Each link counts its faults, and an answer that
//! says that it failed comes only where that count rose.
#![tactic(auto)]

mod clock;
mod link;
mod memory_link;

pub use clock::{Clock, MemClock};
pub use link::{Heard, Link, LinkFault};
pub use memory_link::MemLink;
