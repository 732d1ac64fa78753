//! Heads of WebSocket connections: a server greets a peer, and a client joins a server.
#![tactic(auto)]

mod answer;
mod fault;
mod field;
mod greeting;
mod head;
mod request;
mod text;

pub use answer::read_answer;
pub use fault::HeadFault;
pub use greeting::{greet, join};
pub use request::{Request, read_request};
pub use text::{answer_bytes, request_bytes};
