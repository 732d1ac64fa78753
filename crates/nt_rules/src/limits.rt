//! The limits of a server, as `specs/Limits.antt` defines them. Those of names and subscriptions
//! stand with them, in nt_topics and nt_subs.

/// The most publishers of one connection.
pub const MOST_PUBLISHERS: usize = 16_384;

/// The most living topics.
pub const MOST_TOPICS: usize = 16_384;

/// The last id of a topic. Meta topics have theirs above.
pub const LAST_ID: u32 = 268_435_455;

/// The most bytes of the compact text of a topic's properties.
pub const MOST_PROPERTIES: u64 = 65_536;

/// The greatest size of a value that is put or restored.
pub const MOST_VALUE: u64 = 131_072;

/// The last number of a connection.
pub const LAST_CONNECTION: u32 = 268_435_455;

/// The most that what is queued for a connection may weigh.
pub const MOST_WEIGHT: u64 = 8_388_608;

/// The id of the first meta topic.
pub const FIRST_META: u32 = 536_870_912;

/// The most bytes of the elements of one list that a meta topic tells.
pub const MOST_BYTES: usize = 1_048_576;
