//! Worked rows of the table: what each of its calls answers, one after another.
#![tactic(auto)]

#[cfg(test)]
mod tests;
