//! The rules of the server: the types that they speak of, and their definitions in `specs/`, each
//! rule in one place. Nothing here runs but copies; the crates above meet the definitions.
#![tactic(auto)]

mod act;
mod batch;
mod held;
mod limits;
mod meta;
mod roster;
mod start;
mod taken;
mod topic;
mod waiting;

pub use act::{Act, Deed, Entry, Msg, StepOut};
pub use batch::{Batch, Reply};
pub use held::Held;
pub use limits::{
    FIRST_META, LAST_CONNECTION, LAST_ID, MOST_BYTES, MOST_PROPERTIES, MOST_PUBLISHERS,
    MOST_TOPICS, MOST_VALUE, MOST_WEIGHT,
};
pub use meta::{Difference, MetaNow, Metas};
pub use roster::{ConnRow, Conns, LifeRow, Lives, PubRow, PubRows, Roster, SubRow, SubRows};
pub use start::Start;
pub use taken::Taken;
pub use topic::{Cause, Change, Changes, Outcome, Pub, Pubs, Saved, Timed, Topic};
pub use waiting::{Placed, Publish, Setting};
