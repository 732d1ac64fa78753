//! Worked rows of meta topics: their ids and values.
#![tactic(auto)]

#[cfg(test)]
mod tests;
