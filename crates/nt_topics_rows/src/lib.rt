//! Worked rows of properties, of names in paths, and of subscriptions.
#![tactic(auto)]

#[cfg(test)]
mod match_tests;
#[cfg(test)]
mod tests;
