//! What an outbox is told of other subscriptions of its connection.

ghost use Rattle.std.specs.Prelude.{◌≡◌, OnOk};
ghost use Rattle.nt_subs.specs.Wishes.{wanted};
ghost use Rattle.nt_rules.specs.history.State.{rewanted_all, meta_rewanted_all};

use crate::taken::TakenPlaces;
use nt_outbox::Outbox;
use nt_rules::MetaNow;
use nt_subs::SubSet;
use nt_table::Table;
use std::alloc::{AllocError, Global};

/// Tells an outbox how much each topic and meta topic was wanted, and is now.
#[tactic(auto, using(crate::proofs::Lists::drop_at))]
pub fn rewant(
    alloc: Global,
    outbox: &mut Outbox,
    place: u64,
    table: &Table,
    taken: &TakenPlaces,
    metas: &[MetaNow],
    old: &SubSet,
    new: &SubSet,
) -> Result<(), AllocError>
    ensures { OnOk result (outbox.new
        ≡ meta_rewanted_all place (wanted old.now) (wanted new.now) metas.now
        (rewanted_all place taken.now (wanted old.now) (wanted new.now) table.now.topics outbox.old)) }
{
    for i in 0..table.len() {
        let topic = table.at(i);
        let name = topic.name.as_str();
        let at = taken.at(topic.id);
        outbox.rewant(
            alloc,
            place,
            topic,
            at,
            old.matches(name),
            new.matches(name),
        )?;
    }
    for meta in metas {
        let name = meta.name.as_str();
        outbox.meta_rewant(alloc, place, meta, old.matches(name), new.matches(name))?;
    }
    Ok(())
}
