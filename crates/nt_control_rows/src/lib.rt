//! Text frames, with what the protocol says of them, against the crate that reads and writes them.
#![tactic(auto)]

#[cfg(test)]
mod tests;
