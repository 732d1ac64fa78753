//! What a server keeps.

use crate::connections::OpenConnections;
use crate::taken::TakenPlaces;
use nt_rules::Metas;
use nt_table::Table;

/// What a server keeps: the permits and how many were granted, whether it is shut, the last moment
/// in microseconds and how many entries there are, the topics, the open connections, the places of
/// held values, and the meta topics as they are. Until a connection gives a special name no meta
/// topics are made.
#[derive(Drop)]
pub struct Inner {
    pub permits: u32,
    pub granted: u32,
    pub shut: bool,
    pub moment: u64,
    pub place: u64,
    pub table: Table,
    pub connections: OpenConnections,
    pub taken: TakenPlaces,
    pub metas: Option<Metas>,
}
