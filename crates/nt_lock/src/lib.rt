//! A lock with a history: workers take turns with a locked value, and each worker knows which
//! entries of the one list are its own. What the locked value is stands above: here it is any type
//! that tells a list of entries and what its last turn did.
#![tactic(auto)]

mod lock;
mod rule;
mod seat;
mod view;
mod work;

pub use lock::{Lock, TicketLock, Unopened};
pub use rule::{Told, Turns};
pub use seat::Seat;
pub use view::{Hand, Kept, Known, Note, Origin, Stage, Turn, View};
pub use work::Work;
