//! The control messages of the protocol, which are the elements of a text frame.
#![tactic(auto)]

mod client;
mod client_text;
mod frame;
mod message;
mod params;
mod server;
mod server_text;
mod subscription;
mod write;

pub use client::{ClientRead, read_client};
pub use client_text::write_client;
pub use message::{ClientMsg, ServerMsg};
pub use server::{ServerRead, read_server};
pub use server_text::write_server;
