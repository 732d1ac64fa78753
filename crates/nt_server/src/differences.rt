//! What is different between the meta topics before an act and those after it.

ghost use Rattle.std.specs.Prelude.{◌≡◌, ◌++◌, ◌≤◌, List, drop, length, map, IfOk, OnOk};
ghost use Rattle.nt_subs.specs.Wishes.{wanted};
ghost use Rattle.nt_rules.specs.declared.meta.MetaNow.{MetaNow};
ghost use Rattle.nt_rules.specs.outbox.Calls.{reached};
ghost use Rattle.nt_rules.specs.history.State.{difference_of, differences_from, differences, noted_difference, noted_differences};

use nt_outbox::Outbox;
use nt_rules::{Difference, MetaNow};
use nt_subs::{SubSet, Wanted};
use std::alloc::{AllocError, Global};

/// An equal meta topic.
fn copy_of(alloc: Global, meta: &MetaNow) -> Result<MetaNow, AllocError>
    ensures { IfOk result (λ copied. copied ≡ meta.now) }
{
    Ok(MetaNow {
        id: meta.id,
        name: meta.name.copy(alloc)?,
        bytes: meta.bytes.copy(alloc)?,
    })
}

/// Finds what is different up to a meta topic that was there, and answers how many of those after
/// were passed.
fn find_up_to(
    alloc: Global,
    found: &mut Vec<Difference>,
    before: &MetaNow,
    after: &[MetaNow],
) -> Result<usize, AllocError>
    ensures within { IfOk result (λ passed. passed ≤ length after.now) }
    ensures found { IfOk result (λ passed. (rest : List MetaNow → List Difference)
        → found.new.items ++ rest (drop passed after.now)
        ≡ found.old.items ++ differences_from rest before.now after.now) }
{
    for (passed, meta) in after.iter().enumerate() {
        if before.id == meta.id {
            if before.bytes.as_bytes() != meta.bytes.as_bytes() {
                found.push(Difference::Changed(copy_of(alloc, meta)?))?;
            }
            return Ok(passed + 1);
        }
        if before.id < meta.id {
            found.push(Difference::Ended(before.id))?;
            return Ok(passed);
        }
        found.push(Difference::Began(copy_of(alloc, meta)?))?;
    }
    found.push(Difference::Ended(before.id))?;
    Ok(after.len())
}

/// What is different between the meta topics before and those after, each by rising id.
pub fn differences(
    alloc: Global,
    before: &[MetaNow],
    after: &[MetaNow],
) -> Result<Vec<Difference>, AllocError>
    ensures { IfOk result (λ found. found.items ≡ differences before.now after.now) }
{
    let mut found = Vec::new(alloc);
    let mut passed: usize = 0;
    for meta in before {
        passed += find_up_to(alloc, &mut found, meta, &after[passed..])?;
    }
    let rest = &after[passed..];
    for one in rest {
        found.push(Difference::Began(copy_of(alloc, one)?))?;
    }
    Ok(found)
}

/// Tells an outbox of a difference.
fn tell_difference(
    alloc: Global,
    outbox: &mut Outbox,
    subs: &SubSet,
    place: u64,
    difference: &Difference,
) -> Result<(), AllocError>
    ensures { OnOk result
        (outbox.new ≡ noted_difference place (wanted subs.now) difference.now outbox.old) }
{
    match difference {
        Difference::Began(meta) => {
            let wish = subs.matches(meta.name.as_str());
            outbox.meta_rewant(alloc, place, meta, Wanted::No, wish)
        }
        Difference::Changed(meta) => {
            let wish = subs.matches(meta.name.as_str());
            outbox.meta_changed(alloc, place, meta, wish)
        }
        Difference::Ended(id) => outbox.meta_ended(alloc, place, *id),
    }
}

/// Tells an outbox of differences, after it came to the place.
pub fn tell_differences(
    alloc: Global,
    outbox: &mut Outbox,
    subs: &SubSet,
    place: u64,
    found: &[Difference],
) -> Result<(), AllocError>
    ensures { OnOk result
        (outbox.new ≡ noted_differences place (wanted subs.now) found.now (reached place outbox.old)) }
{
    let _open = outbox.reach(place);
    for difference in found {
        tell_difference(alloc, outbox, subs, place, difference)?;
    }
    Ok(())
}
