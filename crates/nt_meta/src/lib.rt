//! Meta topics: what a server tells of its own connections, publishers and subscriptions.
#![tactic(auto)]

mod bytes;
mod element;
mod find;
mod list;
mod meta;
mod order;
mod put;
mod topic;

pub use meta::{all_metas, meta_id, meta_value};
pub use order::{Row, insert_row};
