//! Worked rows of the codecs: what the standards give, against the crates that read and write it.
#![tactic(auto)]

#[cfg(test)]
mod atoms;
#[cfg(test)]
mod conversions;
#[cfg(test)]
mod frames;
