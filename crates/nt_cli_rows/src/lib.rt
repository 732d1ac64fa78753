//! Tests of the commands over sources and sinks in memory: calls that fail, and limits whose inputs are large. What
//! the program itself can show stands as cases in the folder tests/ at the top.
#![tactic(auto)]

#[cfg(test)]
mod limit_tests;
#[cfg(test)]
mod tests;
