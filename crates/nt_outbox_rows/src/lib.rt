//! Worked rows of the outbox: what a connection is owed after each of its calls, and what it is
//! handed.
#![tactic(auto)]

#[cfg(test)]
mod tests;
