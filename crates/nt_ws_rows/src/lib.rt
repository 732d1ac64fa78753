//! Worked rows of the heads of WebSocket connections.
#![tactic(auto)]

#[cfg(test)]
mod tests;
