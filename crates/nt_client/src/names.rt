//! Where topics are looked up by name.

ghost use Rattle.std.specs.Prelude.{◌≡◌, ◌⊎◌, ℕ, ℤ, List, [], OnOk, IsTrue};
ghost use Rattle.std.specs.List.{Contains};
ghost use Rattle.nt_client.specs.Names.{AreInOrder, IsNoted, OthersStayNoted, StaysNoted, ids_at, itself};
ghost use Rattle.nt_client.specs.Sorted.{Rise};

use std::alloc::{AllocError, Global};
use std::collections::BTreeMap;

/// The ids that were noted under each name, in order.
#[derive(Drop)]
pub struct Names {
    ids: BTreeMap<String, Vec<i64>>,
}

/// Puts an id among others, where it isn't there.
fn put_id(ids: &mut Vec<i64>, id: i64) -> Result<(), AllocError>
    requires { Rise itself ids.old.items }
    ensures rising { Rise itself ids.new.items }
    ensures put { OnOk result (Contains ids.new.items id) }
    ensures others { (k : ℤ) → Contains ids.old.items k → Contains ids.new.items k }
{
    if let Err(at) = ids.binary_search(&id) {
        ids.insert(at, id)?;
    }
    Ok(())
}

/// Takes an id out, and says whether none is left.
fn drop_id(ids: &mut Vec<i64>, id: i64) -> bool
    requires { Rise itself ids.old.items }
    ensures rising { Rise itself ids.new.items }
    ensures others { (k : ℤ) → Contains ids.old.items k → (k ≡ id) ⊎ Contains ids.new.items k }
    ensures empty { IsTrue result → ids.new.items ≡ [] }
{
    if let Ok(at) = ids.binary_search(&id) {
        ids.remove(at);
    }
    ids.is_empty()
}

impl Names {
    /// No names.
    pub fn new(alloc: Global) -> Names
        ensures none { (name : List ℕ) → ids_at result name ≡ [] }
    {
        Names {
            ids: BTreeMap::new(alloc),
        }
    }

    /// The ids that are noted under a name.
    pub fn ids(&self, name: &str) -> &[i64]
        ensures { result.now ≡ ids_at self.now name.now }
    {
        match self.ids.get(name) {
            Some(ids) => ids.as_slice(),
            None => &[],
        }
    }

    /// Notes an id under a name.
    pub fn note(&mut self, alloc: Global, name: &str, id: i64) -> Result<(), AllocError>
        requires { AreInOrder self.old }
        ensures in_order { AreInOrder self.new }
        ensures noted { OnOk result (IsNoted self.new name.now id) }
        ensures others { StaysNoted self.old self.new }
    {
        if let Some(ids) = self.ids.get_mut(name) {
            return put_id(ids, id);
        }
        let mut ids = Vec::new(alloc);
        ids.push(id)?;
        self.ids.insert(String::from_str(alloc, name)?, ids)?;
        Ok(())
    }

    /// Forgets an id under a name, and the name where that was its last.
    pub fn forget(&mut self, name: &str, id: i64)
        requires { AreInOrder self.old }
        ensures in_order { AreInOrder self.new }
        ensures others { OthersStayNoted name.now id self.old self.new }
    {
        let is_last = match self.ids.get_mut(name) {
            Some(ids) => drop_id(ids, id),
            None => false,
        };
        if is_last {
            self.ids.remove(name);
        }
    }

    /// Forgets all names.
    pub fn clear(&mut self)
        ensures none { (name : List ℕ) → ids_at self.new name ≡ [] }
    {
        self.ids.clear();
    }
}
