//! Topics, each with one publisher, and puts that go round them.

use nt_rules::{Change, Outcome};
use nt_table::Table;
use nt_topics::{NameFault, Props, TopicName, TypeName};
use nt_values::Value;
use std::alloc::{AllocError, Global};

/// The connection of all publishers.
const CONN: u32 = 1;

/// Times stay below it.
const END_OF_TIME: u64 = 1 << 62;

/// What came of the puts.
#[derive(Clone, Copy, Debug)]
pub struct Sums {
    /// How many were taken.
    pub taken: u64,
    /// The sum of the ids, times and bits that were told, modulo 2^64.
    pub checksum: u64,
}

/// Want of memory, since the names are as they must be.
fn memory(_fault: NameFault) -> AllocError {
    AllocError
}

/// Publishes a topic for each uid below this one.
fn publish(alloc: Global, table: &mut Table, topics: u32) -> Result<(), AllocError> {
    for uid in 0..topics {
        let name = format!(in alloc; "/SmartDashboard/drive/value {uid}")?;
        let name = TopicName::of(alloc, name.as_str()).map_err(memory)?;
        let typ = TypeName::of(alloc, "double").map_err(memory)?;
        let props = Props::empty(alloc);
        table.publish(alloc, CONN, i64::from(uid), name, typ, props)?;
    }
    Ok(())
}

/// Adds what was told to the sums.
fn add(sums: &mut Sums, outcome: &Outcome) {
    let Outcome::Done(changes) = outcome else {
        return;
    };
    for change in changes.as_slice() {
        if let Change::Changed {
            id,
            time,
            value: Value::Double(bits),
            ..
        } = change
        {
            sums.taken = sums.taken.wrapping_add(1);
            let sum = id.cast_unsigned().wrapping_add(*time).wrapping_add(*bits);
            sums.checksum = sums.checksum.wrapping_add(sum);
        }
    }
}

/// Publishes so many topics, and puts so many values to them, with times that rise. Each put's topic
/// is so many behind that of the put before it.
pub fn put_often(alloc: Global, topics: u32, puts: u64, step: u64) -> Result<Sums, AllocError> {
    let mut table = Table::new(alloc);
    publish(alloc, &mut table, topics)?;
    let mut sums = Sums {
        taken: 0,
        checksum: 0,
    };
    let count = u64::from(topics.max(1));
    for index in 0..puts {
        let uid = index.wrapping_mul(step) % count;
        let value = Value::Double(index.wrapping_mul(0x9e37_79b9_7f4a_7c15));
        let time = index % END_OF_TIME;
        let outcome = table.put(alloc, CONN, uid as i64, time, value)?;
        add(&mut sums, &outcome);
    }
    Ok(sums)
}
