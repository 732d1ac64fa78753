//! The values of a message's params, as they are read. Texts and trees are moved out of the params.

ghost use Rattle.std.specs.Prelude.{◌≡◌, codes, option_map, option_and_then, string_bytes, IfOk};
ghost use Rattle.serde_json.specs.Find.{get_member, as_str, as_array, as_object};
ghost use Rattle.serde_json.specs.View.{view, items_view, members_view};
ghost use Rattle.nt_topics.specs.Names.{limited};
ghost use Rattle.nt_topics.specs.Properties.{update_of};
ghost use Rattle.nt_control.specs.Params.{KeepsOthers, text_at, integer_at, integer_of, integer_if, flag_if, is_number_if, properties_if};

use nt_topics::{Limited, Name, Props, Update};
use nt_values::Text;
use serde_json::{Map, Value};
use std::alloc::{AllocError, Global};

/// The text that a value is, where it is one.
pub fn into_text(value: Value) -> Option<String>
    ensures { option_map string_bytes result ≡ as_str (view value) }
{
    match value {
        Value::String(text) => Some(text),
        _other => None,
    }
}

/// The items of a value, where it is an array.
pub fn into_items(value: Value) -> Option<Vec<Value>>
    ensures { option_map (λ items. items_view items.items) result ≡ as_array (view value) }
{
    match value {
        Value::Array(items) => Some(items),
        _other => None,
    }
}

/// The members of a value, where it is an object.
pub fn into_object(value: Value) -> Option<Map<String, Value>>
    ensures { option_map (λ members. members_view members.entries) result
        ≡ as_object (view value) }
{
    match value {
        Value::Object(members) => Some(members),
        _other => None,
    }
}

/// Takes the value at a key out of an object.
pub fn take(members: &mut Map<String, Value>, key: &str) -> Option<Value>
    ensures value { option_map view result
        ≡ get_member key.now (members_view members.old.entries) }
    ensures others { KeepsOthers key.now
        (members_view members.old.entries) (members_view members.new.entries) }
{
    members.remove(key)
}

/// Takes the text at a key out of an object.
pub fn take_text(members: &mut Map<String, Value>, key: &str) -> Option<String>
    ensures text { option_map string_bytes result
        ≡ text_at key.now (members_view members.old.entries) }
    ensures others { KeepsOthers key.now
        (members_view members.old.entries) (members_view members.new.entries) }
{
    into_text(take(members, key)?)
}

/// Takes the text at a key out of the params, as a name.
pub fn take_name(params: &mut Map<String, Value>, key: &str) -> Option<Name>
    ensures name { result ≡ text_at key.now (members_view params.old.entries) }
    ensures others { KeepsOthers key.now
        (members_view params.old.entries) (members_view params.new.entries) }
{
    let text = take_text(params, key)?;
    Some(Name::of_text(Text::of_string(text)))
}

/// Takes a topic's name or a type string out of the params, where it is within its limits.
pub fn take_limited<K, const MOST: usize>(
    params: &mut Map<String, Value>,
    key: &str,
) -> Option<Limited<K, MOST>>
    ensures name { result
        ≡ option_and_then (limited MOST) (text_at key.now (members_view params.old.entries)) }
    ensures others { KeepsOthers key.now
        (members_view params.old.entries) (members_view params.new.entries) }
{
    let text = take_text(params, key)?;
    Limited::of_text(Text::of_string(text))
}

/// Takes the properties out of the params: none, where they are absent.
pub fn take_properties(
    alloc: Global,
    params: &mut Map<String, Value>,
) -> Result<Option<Props>, AllocError>
    ensures { IfOk result (λ props. props
        ≡ properties_if (get_member (codes "properties") (members_view params.old.entries))) }
{
    match take(params, "properties") {
        None => Ok(Some(Props::empty(alloc))),
        Some(tree) => Props::of_tree(alloc, tree),
    }
}

/// Takes the update out of the params.
pub fn take_update(
    alloc: Global,
    params: &mut Map<String, Value>,
) -> Result<Option<Update>, AllocError>
    ensures { IfOk result (λ update. update
        ≡ option_and_then update_of (get_member (codes "update") (members_view params.old.entries))) }
{
    match take(params, "update") {
        None => Ok(None),
        Some(tree) => Update::of_tree(alloc, tree),
    }
}

/// The value at a key.
pub fn value<'a>(params: &'a Map<String, Value>, key: &str) -> Option<&'a Value>
    ensures { option_map (λ v. view v.now) result
        ≡ get_member key.now (members_view params.now.entries) }
{
    params.get(key)
}

/// The whole number at a key, where it is one of 64 bits with a sign.
pub fn integer(params: &Map<String, Value>, key: &str) -> Option<i64>
    ensures { result ≡ integer_at key.now (members_view params.now.entries) }
{
    value(params, key)?.as_i64()
}

/// The whole number at a key, or none where it is absent; nothing, where another value stands there.
pub fn integer_or_none(params: &Map<String, Value>, key: &str) -> Option<Option<i64>>
    ensures { result ≡ integer_if (get_member key.now (members_view params.now.entries)) }
{
    match value(params, key) {
        None => Some(None),
        Some(number) => number.as_i64().map(Some),
    }
}

/// The flag at a key, false where it is absent; nothing, where another value stands there.
pub fn flag_or_false(params: &Map<String, Value>, key: &str) -> Option<bool>
    ensures { result ≡ flag_if (get_member key.now (members_view params.now.entries)) }
{
    match value(params, key) {
        None => Some(false),
        Some(flag) => flag.as_bool(),
    }
}

/// Whether a number stands at a key, or nothing.
pub fn is_number_or_absent(params: &Map<String, Value>, key: &str) -> bool
    ensures { result ≡ is_number_if (get_member key.now (members_view params.now.entries)) }
{
    match value(params, key) {
        None => true,
        Some(number) => number.is_number(),
    }
}
