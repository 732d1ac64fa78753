//! Connections served: each worker takes the frames of a link, and is handed what its connection is
//! owed.
#![tactic(auto)]

mod laws;
mod messages;
mod rounds;
mod served;
mod sessions;

pub use laws::sessions_are_told;
pub use served::{Served, ServedEnd};
pub use sessions::serve_connection;
