//! Meta topics that live.

use nt_topics::Name;
use nt_values::{Bytes, ListOf};

/// A meta topic that lives, and its value.
#[derive(Drop)]
pub struct MetaNow {
    pub id: u32,
    pub name: Name,
    pub bytes: Bytes,
}

/// Meta topics.
pub type Metas = ListOf<MetaNow>;

/// What became of a meta topic.
#[derive(Drop)]
pub enum Difference {
    /// It began.
    Began(MetaNow),
    /// Its bytes changed.
    Changed(MetaNow),
    /// The one of this id ended.
    Ended(u32),
}
