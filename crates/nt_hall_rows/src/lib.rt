//! Worked rows of the hall: two workers act and look, one after the other.
#![tactic(auto)]

pub mod pair;
#[cfg(test)]
mod tests;
