//! The properties of a topic, and updates of them.

ghost use Rattle.std.specs.Prelude.{◌≡◌, false, true, ℕ, List, IfOk, OnOk, OnErr, Some, length};
ghost use Rattle.serde_json.specs.Data.{Data, object, no_members};
ghost use Rattle.serde_json.specs.Find.{get, get_member};
ghost use Rattle.serde_json.specs.View.{view, members_view};
ghost use Rattle.serde_json.specs.Written.{compact_text, has_float};
ghost use Rattle.nt_topics.specs.Properties.{properties_of, update_of, is_properties, is_update, is_property, is_change, all_pass, updated, changed, changed_by, members_in, decided, decided_by, flag, is_persistent, is_retained, is_cached};
ghost use Rattle.nt_topics.specs.Trees.{IsOrdered};

use crate::tree::{keep_changes, keep_properties, text_length};
use serde_json::{Map, Value};
use std::alloc::{AllocError, Global};
use std::marker::Model;

/// The properties of a topic: a JSON object without null, whose numbers are whole and whose keys
/// rise. Contracts see its tree.
#[derive(Drop)]
pub struct Props {
    tree: Value,
    // the length of the compact text
    len: usize,
}

impl Model for Props {
    ghost use Rattle.std.specs.Prelude.{◌≡◌, true, length};
    ghost use Rattle.serde_json.specs.Data.{Data};
    ghost use Rattle.serde_json.specs.View.{view as data_of};
    ghost use Rattle.serde_json.specs.Written.{compact_text};
    ghost use Rattle.nt_topics.specs.Properties.{is_properties};
    ghost use Rattle.nt_topics.specs.Trees.{IsOrdered};
    ghost use Rattle.nt_topics.specs.TreeCode.{data_coded};

    ghost Value = { Data };

    ghost coded = { data_coded };

    ghost view = { λ p. data_of p.tree };

    ghost invariant = { λ p. (is_properties (data_of p.tree) ≡ true)
        × (p.len ≡ length (compact_text (data_of p.tree))) × IsOrdered (data_of p.tree) };
}

impl Props {
    /// No properties.
    pub fn empty(alloc: Global) -> Props
        ensures { result ≡ object no_members }
    {
        Props {
            tree: Value::Object(Map::new(alloc)),
            len: "{}".len(),
        }
    }

    /// The properties that a tree says, or none where it is no object. A member that is null is
    /// passed over, and one that holds, at any depth, a number that isn't whole or doesn't fit 64
    /// bits.
    pub fn of(alloc: Global, tree: &Value) -> Result<Option<Props>, AllocError>
        ensures { IfOk result (λ props. props ≡ properties_of (view tree.now)) }
    {
        let tree = tree.clone()?;
        Props::of_tree(alloc, tree)
    }

    /// The same of a tree that is given away, whose parts are moved.
    pub fn of_tree(alloc: Global, tree: Value) -> Result<Option<Props>, AllocError>
        ensures { IfOk result (λ props. props ≡ properties_of (view tree)) }
    {
        match tree {
            Value::Object(members) => {
                let mut members = members;
                keep_properties(&mut members);
                Ok(Some(Props::of_members(alloc, members)?))
            }
            _other => Ok(None),
        }
    }

    /// The properties of these members.
    fn of_members(alloc: Global, members: Map<String, Value>) -> Result<Props, AllocError>
        requires { all_pass is_property (members_view members.entries) ≡ true }
        ensures { IfOk result (λ props. props ≡ object (members_view members.entries)) }
    {
        // a map says with its count that its keys rise
        let _count = members.len();
        let tree = Value::Object(members);
        let len = text_length(alloc, &tree)?;
        Ok(Props { tree, len })
    }

    /// The properties after an update, key by key: null deletes a key, and any other value is put
    /// there.
    pub fn updated(&self, alloc: Global, update: &Update) -> Result<Props, AllocError>
        ensures updated { IfOk result (λ props. props ≡ updated self.now update.now) }
        ensures keys { IfOk result (λ props. (key : List ℕ)
            → get key props ≡ decided (get key update.now) (get key self.now)) }
    {
        let tree = self.tree.clone()?;
        match tree {
            Value::Object(members) => {
                let mut members = members;
                change_tree(alloc, &mut members, &update.tree)?;
                Props::of_members(alloc, members)
            }
            _other => self.copy(),
        }
    }

    /// Updates the properties as `updated` says. For want of memory it leaves them as they were.
    pub fn update(&mut self, alloc: Global, update: &Update) -> Result<(), AllocError>
        ensures ok { OnOk result (self.new ≡ updated self.old update.now) }
        ensures keys { OnOk result ((key : List ℕ)
            → get key self.new ≡ decided (get key update.now) (get key self.old)) }
        ensures err { OnErr result (self.new ≡ self.old) }
    {
        *self = self.updated(alloc, update)?;
        Ok(())
    }

    /// Whether a topic is saved by the server: `persistent` is true.
    pub fn persistent(&self) -> bool
        ensures { result ≡ is_persistent self.now }
    {
        flag(&self.tree, "persistent", false)
    }

    /// Whether a topic stays without a publisher: `retained` is true.
    pub fn retained(&self) -> bool
        ensures { result ≡ is_retained self.now }
    {
        flag(&self.tree, "retained", false)
    }

    /// Whether the last value is kept: `cached` isn't false.
    pub fn cached(&self) -> bool
        ensures { result ≡ is_cached self.now }
    {
        flag(&self.tree, "cached", true)
    }

    /// The length of the compact text, in bytes. It takes no memory and walks nothing.
    pub fn text_len(&self) -> u64
        ensures { result ≡ length (compact_text self.now) }
    {
        self.len as u64
    }

    /// The tree. It says these properties again, holds no float, and its keys rise.
    pub fn tree(&self) -> &Value
        ensures tree { view result.now ≡ self.now }
        ensures properties { is_properties self.now ≡ true }
        ensures again { properties_of self.now ≡ Some self.now }
        ensures whole { has_float self.now ≡ false }
        ensures ordered { IsOrdered self.now }
    {
        &self.tree
    }

    /// Equal properties.
    pub fn copy(&self) -> Result<Props, AllocError>
        ensures { IfOk result (λ props. props ≡ self.now) }
    {
        Ok(Props {
            tree: self.tree.clone()?,
            len: self.len,
        })
    }
}

/// An update of properties: a JSON object whose numbers are whole, where null deletes a key.
/// Contracts see its tree.
#[derive(Drop)]
pub struct Update {
    tree: Value,
    // the length of the compact text
    len: usize,
}

impl Model for Update {
    ghost use Rattle.std.specs.Prelude.{◌≡◌, true, length};
    ghost use Rattle.serde_json.specs.Data.{Data};
    ghost use Rattle.serde_json.specs.View.{view as data_of};
    ghost use Rattle.serde_json.specs.Written.{compact_text};
    ghost use Rattle.nt_topics.specs.Properties.{is_update};
    ghost use Rattle.nt_topics.specs.TreeCode.{data_coded};

    ghost Value = { Data };

    ghost coded = { data_coded };

    ghost view = { λ u. data_of u.tree };

    ghost invariant = { λ u. (is_update (data_of u.tree) ≡ true)
        × (u.len ≡ length (compact_text (data_of u.tree))) };
}

impl Update {
    /// The update that a tree says, or none where it is no object. A member is passed over that
    /// holds, at any depth, a number that isn't whole or doesn't fit 64 bits.
    pub fn of(alloc: Global, tree: &Value) -> Result<Option<Update>, AllocError>
        ensures { IfOk result (λ update. update ≡ update_of (view tree.now)) }
    {
        let tree = tree.clone()?;
        Update::of_tree(alloc, tree)
    }

    /// The same of a tree that is given away, whose parts are moved.
    pub fn of_tree(alloc: Global, tree: Value) -> Result<Option<Update>, AllocError>
        ensures { IfOk result (λ update. update ≡ update_of (view tree)) }
    {
        match tree {
            Value::Object(members) => {
                let mut members = members;
                keep_changes(&mut members);
                Ok(Some(Update::of_members(alloc, members)?))
            }
            _other => Ok(None),
        }
    }

    /// The update of these members.
    fn of_members(alloc: Global, members: Map<String, Value>) -> Result<Update, AllocError>
        requires { all_pass is_change (members_view members.entries) ≡ true }
        ensures { IfOk result (λ update. update ≡ object (members_view members.entries)) }
    {
        let tree = Value::Object(members);
        let len = text_length(alloc, &tree)?;
        Ok(Update { tree, len })
    }

    /// The length of the compact text, in bytes. It takes no memory and walks nothing.
    pub fn text_len(&self) -> u64
        ensures { result ≡ length (compact_text self.now) }
    {
        self.len as u64
    }

    /// The tree. It says this update again, and holds no float.
    pub fn tree(&self) -> &Value
        ensures tree { view result.now ≡ self.now }
        ensures update { is_update self.now ≡ true }
        ensures again { update_of self.now ≡ Some self.now }
        ensures whole { has_float self.now ≡ false }
    {
        &self.tree
    }

    /// An equal update.
    pub fn copy(&self) -> Result<Update, AllocError>
        ensures { IfOk result (λ update. update ≡ self.now) }
    {
        Ok(Update {
            tree: self.tree.clone()?,
            len: self.len,
        })
    }
}

/// A flag of a tree of properties, or the default where its member is no truth value.
fn flag(tree: &Value, name: &str, default: bool) -> bool
    ensures { result ≡ flag name.now default (view tree.now) }
{
    tree.get(name).and_then(Value::as_bool).unwrap_or(default)
}

/// Makes one change: null deletes the key, and any other value is put there.
fn change_member(
    alloc: Global,
    members: &mut Map<String, Value>,
    key: &str,
    value: &Value,
) -> Result<(), AllocError>
    ensures ok { OnOk result (members_view members.new.entries
        ≡ changed key.now (view value.now) (members_view members.old.entries)) }
    ensures keys { OnOk result ((k : List ℕ) → get_member k (members_view members.new.entries)
        ≡ decided_by key.now (view value.now) k (get_member k (members_view members.old.entries))) }
{
    if value.is_null() {
        members.remove(key);
        return Ok(());
    }
    serde_json::put(members, alloc, key, value.clone()?)?;
    Ok(())
}

/// Makes each of the changes.
fn change_members(
    alloc: Global,
    members: &mut Map<String, Value>,
    changes: &Map<String, Value>,
) -> Result<(), AllocError>
    ensures ok { OnOk result (members_view members.new.entries
        ≡ changed_by (members_view members.old.entries) (members_view changes.now.entries)) }
    ensures keys { OnOk result ((k : List ℕ) → get_member k (members_view members.new.entries)
        ≡ decided (get_member k (members_view changes.now.entries))
        (get_member k (members_view members.old.entries))) }
{
    for (key, value) in changes.iter() {
        change_member(alloc, members, key.as_str(), value)?;
    }
    Ok(())
}

/// Makes each of the changes of a tree, where it is an object.
fn change_tree(
    alloc: Global,
    members: &mut Map<String, Value>,
    changes: &Value,
) -> Result<(), AllocError>
    ensures ok { OnOk result (members_view members.new.entries
        ≡ changed_by (members_view members.old.entries) (members_in (view changes.now))) }
    ensures keys { OnOk result ((k : List ℕ) → get_member k (members_view members.new.entries)
        ≡ decided (get_member k (members_in (view changes.now)))
        (get_member k (members_view members.old.entries))) }
{
    match changes.as_object() {
        Some(changes) => change_members(alloc, members, changes),
        None => Ok(()),
    }
}
