//! Worked rows of frames that a server hands to a connection.
#![tactic(auto)]

#[cfg(test)]
mod tests;
