//! Topics as a client holds them.

use crate::topic::Timed;
use nt_topics::{Name, Props, TypeName};

/// A topic that a client was told of, with the value that it holds, if any.
#[derive(Drop)]
pub struct Held {
    pub id: i64,
    pub name: Name,
    pub typ: TypeName,
    pub props: Props,
    pub value: Option<Timed>,
}
