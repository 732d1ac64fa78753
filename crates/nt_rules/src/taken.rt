//! Where in the history held values were taken.

/// The place of the entry at which the value that a topic holds was taken.
#[derive(Clone, Copy)]
pub struct Taken {
    pub topic: u32,
    pub place: u64,
}
