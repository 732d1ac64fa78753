//! MessagePack atoms: the units by which frames are spelled.
#![tactic(auto)]

mod atom;
mod laws;
mod read;
mod write;

pub use atom::{Atom, AtomRead};
pub use laws::{shortest_is_least, spelling_is_reading, spellings_are_apart};
pub use read::read_atom;
pub use write::put_atom;
