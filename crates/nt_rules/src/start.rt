//! What a server begins with.

use crate::topic::Saved;
use nt_values::ListOf;

/// What a server begins with: how many permits it grants, and the topics that were saved.
#[derive(Drop)]
pub struct Start {
    pub permits: u32,
    pub saved: ListOf<Saved>,
}
