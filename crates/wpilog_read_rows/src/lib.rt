//! The records of a small log, and tests of the reader on them.
#![tactic(auto)]

#[cfg(test)]
mod tests;

/// The header ("Header").
pub const HEADER: [u8; 12] = [0x57, 0x50, 0x49, 0x4c, 0x4f, 0x47, 0, 1, 0, 0, 0, 0];

/// At 1,000,000 microseconds the entry 1 begins: `test` of type `int64`, with no metadata ("Start").
pub const START: [u8; 32] = [
    0x20, 0, 0x1a, 0x40, 0x42, 0x0f, 0, 1, 0, 0, 0, 4, 0, 0, 0, 0x74, 0x65, 0x73, 0x74, 5, 0, 0, 0,
    0x69, 0x6e, 0x74, 0x36, 0x34, 0, 0, 0, 0,
];

/// At the same time its value is 3 ("Data Types").
pub const VALUE: [u8; 14] = [0x20, 1, 8, 0x40, 0x42, 0x0f, 3, 0, 0, 0, 0, 0, 0, 0];

/// At the same time it ends ("Finish").
pub const FINISH: [u8; 11] = [0x20, 0, 5, 0x40, 0x42, 0x0f, 1, 1, 0, 0, 0];
