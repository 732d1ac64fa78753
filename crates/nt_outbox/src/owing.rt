//! The ids of the topics of which something is owed, by rising id.

ghost use Rattle.std.specs.Prelude.{◌≡◌, OnOk, if◌then◌else◌};
ghost use Rattle.nt_outbox.specs.Owing.{RiseIds, with_id, without_id};

use std::alloc::AllocError;

/// Nothing is owed of the topic of this id.
pub fn forget(owing: &mut Vec<u32>, id: u32)
    requires { RiseIds 0 owing.old.items }
    ensures { owing.new.items ≡ without_id id owing.old.items }
{
    if let Ok(i) = owing.binary_search(&id) {
        owing.remove(i);
    }
}

/// Something is owed of the topic of this id, or nothing.
pub fn note(owing: &mut Vec<u32>, id: u32, owes: bool) -> Result<(), AllocError>
    requires { RiseIds 0 owing.old.items }
    ensures { OnOk result (owing.new.items
        ≡ (if owes then with_id id owing.old.items else without_id id owing.old.items)) }
{
    if !owes {
        forget(owing, id);
        return Ok(());
    }
    if let Err(i) = owing.binary_search(&id) {
        owing.insert(i, id)?;
    }
    Ok(())
}
