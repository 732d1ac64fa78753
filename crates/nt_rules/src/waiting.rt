//! What may wait for a connection, with the place in the history of what it tells.

use nt_topics::Update;
use nt_values::Value;

/// A publish of the connection that isn't answered: the place of its entry, and its uid.
#[derive(Clone, Copy)]
pub struct Publish {
    pub place: u64,
    pub uid: i64,
}

/// A change of properties that isn't told: the place of its entry, and whether the connection sent
/// it itself.
#[derive(Drop)]
pub struct Setting {
    pub place: u64,
    pub is_own: bool,
    pub update: Update,
}

/// A value that was taken at a place.
#[derive(Drop)]
pub struct Placed {
    pub place: u64,
    pub time: u64,
    pub value: Value,
}
