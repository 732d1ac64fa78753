//! How much of a source a tool reads.

/// The most bytes that a tool reads.
pub const MOST_BYTES: usize = 1 << 40;

/// How many bytes are asked for at a time.
pub const PIECE: usize = 1 << 16;
