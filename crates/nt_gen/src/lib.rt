//! The command `gen`, which writes a log of given values, over any sinks.
#![tactic(auto)]

mod draft;
mod generate;
mod log;

pub use generate::run_gen;
