//! What a connection wants: its subscriptions.
#![tactic(auto)]

mod counts;
mod given;
mod index;
mod set;
mod sub;
mod wish;

pub use set::{Added, SubSet};
pub use sub::{Names, Options, Sub, copy_names};
pub use wish::Wanted;
