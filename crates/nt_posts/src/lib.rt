//! Where connections come from, and where bytes are kept. Each counts its faults, and an answer that says
//! that it failed comes only where that count rose.
#![tactic(auto)]

mod acceptor;
mod keeper;
mod memory_acceptor;

pub use acceptor::{Acceptor, Arrival, Caller};
pub use keeper::{Keeper, MemKeeper};
pub use memory_acceptor::MemAcceptor;
