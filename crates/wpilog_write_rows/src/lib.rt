//! Tests of the writer of logs.
#![tactic(auto)]

#[cfg(test)]
mod tests;
