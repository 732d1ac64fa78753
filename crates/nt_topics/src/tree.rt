//! Trees of `serde_json`, and what of them properties take.

ghost use Rattle.std.specs.Prelude.{◌≡◌, IfOk, false, length};
ghost use Rattle.serde_json.specs.View.{view, items_view, members_view};
ghost use Rattle.serde_json.specs.Written.{compact_text, has_float, items_have_float, members_have_float};
ghost use Rattle.nt_topics.specs.Properties.{is_property, is_change, kept};

use serde_json::{Map, Value};
use std::alloc::{AllocError, Global};

/// Whether a tree holds a float, at any depth.
#[cycle(floats)]
fn holds_float(tree: &Value) -> bool
    ensures { result ≡ has_float (view tree.now) }
{
    match tree {
        Value::Null => false,
        Value::Bool(_) => false,
        Value::Number(number) => number.is_f64(),
        Value::String(_) => false,
        Value::Array(items) => items_hold_float(items),
        Value::Object(members) => members_hold_float(members),
    }
}

#[cycle(floats)]
fn items_hold_float(items: &Vec<Value>) -> bool
    ensures { result ≡ items_have_float (items_view items.now.items) }
{
    for item in items {
        if holds_float(item) {
            return true;
        }
    }
    false
}

#[cycle(floats)]
fn members_hold_float(members: &Map<String, Value>) -> bool
    ensures { result ≡ members_have_float (members_view members.now.entries) }
{
    for (_key, member) in members.iter() {
        if holds_float(member) {
            return true;
        }
    }
    false
}

/// Whether a property may have this value.
fn is_property(tree: &Value) -> bool
    ensures { result ≡ is_property (view tree.now) }
{
    !tree.is_null() && !holds_float(tree)
}

/// Takes out the members whose value no property may have.
pub fn keep_properties(members: &mut Map<String, Value>)
    ensures { members_view members.new.entries
        ≡ kept is_property (members_view members.old.entries) }
{
    members.retain(|_key, value| is_property(value));
}

/// Takes out the members whose value no update may give.
pub fn keep_changes(members: &mut Map<String, Value>)
    ensures { members_view members.new.entries ≡ kept is_change (members_view members.old.entries) }
{
    members.retain(|_key, value| !holds_float(value));
}

/// The length of a tree's compact text, in bytes.
pub fn text_length(alloc: Global, tree: &Value) -> Result<usize, AllocError>
    ensures { IfOk result
        (λ n. has_float (view tree.now) ≡ false → n ≡ length (compact_text (view tree.now))) }
{
    Ok(tree.to_string(alloc)?.len())
}
