//! A server and its clients on one thread, with wires of frames between them.
#![tactic(auto)]

mod host;
mod laws;
mod peer;
mod step;
mod world;

pub use laws::frames_are_decoded;
pub use step::{ClientAct, WorldStep};
pub use world::World;
