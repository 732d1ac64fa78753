//! Worked rows of connections that are served: what comes over a link, and what goes out, is entered and is held.
#![tactic(auto)]

#[cfg(test)]
mod lines;
#[cfg(test)]
mod rows;
#[cfg(test)]
mod tests;
