//! Worked rows of a world: what is on its wires and what its clients hold, step by step.
#![tactic(auto)]

#[cfg(test)]
mod rows;
#[cfg(test)]
mod tests;
