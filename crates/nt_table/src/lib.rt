//! The topics of a server on one thread: who publishes what, which value each topic holds, and when
//! a topic begins and ends.
#![tactic(auto)]

mod call;
mod cause;
mod edit;
mod index;
mod indexed;
mod lookup;
mod table;

pub use table::Table;
