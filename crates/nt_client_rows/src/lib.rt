//! Worked rows of the client: what it takes, what it says, and the server's time.
#![tactic(auto)]

#[cfg(test)]
mod rows;
#[cfg(test)]
mod tests;
