//! What a connection is owed: which messages wait for it, in which order, and what they weigh.
#![tactic(auto)]

mod call;
mod delivery;
mod kept;
mod key;
mod mark;
mod marks;
mod message;
mod outbox;
mod owing;
mod queue;
mod step;
mod weight;

pub use outbox::Outbox;
