//! Versions of the protocol.

/// The version of the protocol that a connection speaks.
#[derive(Clone, Copy, PartialEq, Eq)]
pub enum Version {
    /// NetworkTables 4.1.
    V41,
}
