//! The laws of the rules: what the definitions of `nt_rules` come to over all histories. The
//! functions here do nothing; their contracts are the laws, and `proofs/` has their proofs.
#![tactic(auto)]

mod history;
mod meta;
mod outbox;
mod puts;

pub use history::{drains_leave_nothing_owed, rosters_are_in_order, saved_sets_are_one};
pub use meta::{metas_are_apart, other_metas_stay, rows_in_order_stay, the_longest_prefix_is_kept};
pub use outbox::what_is_handed_is_owed_no_more;
pub use puts::{puts_leave_the_greatest, same_puts_hold_the_same, the_last_taken_is_held};
