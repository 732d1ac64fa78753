//! The server: each act of each connection is one entry of one history.
#![tactic(auto)]

mod acts;
mod connections;
mod differences;
mod inner;
mod messages;
mod names;
mod open;
mod restore;
mod roster;
mod saved;
mod server;
mod special;
mod taken;
mod telling;
mod wishes;

pub use acts::Stepped;
pub use server::Server;
