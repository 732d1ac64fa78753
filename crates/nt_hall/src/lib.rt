//! The server that connections share: a lock over it with its journal and its recorder.
#![tactic(auto)]

mod hall;
mod journal;
mod locked;
mod weight;
mod work;

pub use hall::Hall;
pub use journal::{Journal, KeptJournal, MOST_ENTRIES, MOST_WEIGHT, MuteJournal};
pub use locked::Locked;
pub use nt_lock::Seat;
pub use work::Looked;
