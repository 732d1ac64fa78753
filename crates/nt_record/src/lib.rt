//! A recorder of what changes in a server. One that is off writes nothing.
#![tactic(auto)]

mod recorder;

pub use recorder::{RecState, Recorder};
