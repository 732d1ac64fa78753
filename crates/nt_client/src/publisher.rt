//! The publishers of a client.

use nt_rules::Timed;
use nt_topics::{Props, TopicName, TypeName};

/// A publisher: its topic's name, the type and the properties that were given with it, and the last
/// value that was set.
#[derive(Drop)]
pub struct Publisher {
    pub name: TopicName,
    pub typ: TypeName,
    pub props: Props,
    pub last: Option<Timed>,
}
