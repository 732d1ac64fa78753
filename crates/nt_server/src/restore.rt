//! Saved topics that begin again.

ghost use Rattle.std.specs.Prelude.{◌≡◌, ◌+◌, true, false, None, length, IfOk, IfSome, OnOk};
ghost use Rattle.std.specs.List.{list_any};
ghost use Rattle.nt_topics.specs.Names.{is_special};
ghost use Rattle.nt_topics.specs.Properties.{is_cached};
ghost use Rattle.nt_topics.specs.Trees.{IsOrdered};
ghost use Rattle.nt_rules.specs.topics.Topics.{is_named, restore_cause, restored as restored_in};
ghost use Rattle.nt_rules.specs.history.Lives.{topics, restored};
ghost use Rattle.nt_rules.specs.history.Saved.{IsSavedSet};
ghost use Rattle.nt_rules.specs.history.Trees.{HaveTrees};

use nt_rules::Saved;
use nt_table::Table;
use std::alloc::{AllocError, Global};

/// Begins a saved topic that no cause refuses. The keys of its properties rise.
fn begin(alloc: Global, table: &mut Table, saved: Saved) -> Result<(), AllocError>
    requires unnamed { list_any (is_named saved.name) table.old.topics ≡ false }
    requires plain { is_special saved.name ≡ false }
    requires held { IfSome saved.value (λ v. is_cached saved.props ≡ true) }
    requires counts { restore_cause table.old.topics table.old.next saved ≡ None }
    ensures topics { OnOk result
        (table.new.topics ≡ restored_in table.old.topics table.old.next saved) }
    ensures next { OnOk result (table.new.next ≡ table.old.next + 1) }
    ensures tree { OnOk result (IsOrdered saved.props) }
{
    let _tree = saved.props.tree();
    let _done = table.restore(alloc, saved)?;
    Ok(())
}

/// The table of topics that were saved, with ids from 1 in the order of the list.
pub fn restored(alloc: Global, saved: Vec<Saved>) -> Result<Table, AllocError>
    requires { IsSavedSet saved.items }
    ensures topics { IfOk result (λ table. table.topics ≡ topics (restored 1 saved.items)) }
    ensures next { IfOk result (λ table. table.next ≡ length saved.items + 1) }
    ensures trees { OnOk result (HaveTrees saved.items) }
{
    let mut table = Table::new(alloc);
    for one in saved {
        begin(alloc, &mut table, one)?;
    }
    Ok(table)
}
