//! The names of topics, types and clients, the properties of topics, and versions of the protocol.
#![tactic(auto)]

mod name;
mod path;
mod properties;
mod tree;
mod version;

pub use name::{ClientName, Limited, Name, NameFault, TopicName, TypeName, is_special};
pub use path::{PathFault, path_name};
pub use properties::{Props, Update};
pub use version::Version;
