//! A connection's frames: what a server hands to it, laid into frames.
#![tactic(auto)]

mod frames;
mod laws;

pub use frames::{clock_answer, frames_of};
pub use laws::values_are_laid_in_order;
