//! Worked rows of the lock: workers put entries on a board, on one thread and on many.
#![tactic(auto)]

pub mod board;
pub mod crowd;
#[cfg(test)]
mod tests;
