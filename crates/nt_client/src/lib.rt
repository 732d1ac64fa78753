//! The core of a client: what it says, what it takes from the server's frames, and what it holds by
//! them. And the server's time, as a client knows it.
#![tactic(auto)]

mod client;
mod clock;
mod fault;
mod names;
mod publisher;
mod queue;
mod step;
mod take;
mod topics;
mod undo;
mod values;

pub use client::Client;
pub use clock::ClockSync;
pub use fault::ClientFault;
pub use take::Taken;
