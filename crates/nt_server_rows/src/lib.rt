//! Worked rows of the server: whole runs of acts.
#![tactic(auto)]

#[cfg(test)]
mod cached;
#[cfg(test)]
mod large;
#[cfg(test)]
mod long;
#[cfg(test)]
mod rows;
#[cfg(test)]
mod saved;
#[cfg(test)]
mod saved_tests;
#[cfg(test)]
mod tests;
