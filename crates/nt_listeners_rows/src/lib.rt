//! Worked rows of listeners that are told changes.
#![tactic(auto)]

#[cfg(test)]
mod tests;
