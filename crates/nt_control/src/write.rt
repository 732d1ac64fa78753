//! The parts of the elements that are written.

ghost use Rattle.std.specs.Prelude.{◌≡◌, ◌≤◌, true, false, Option, Some, map, IfOk, OnOk, option_and_then, if◌then◌else◌};
ghost use Rattle.serde_json.specs.Data.{Data, array, boolean, string, object, put, depth};
ghost use Rattle.serde_json.specs.Find.{as_array};
ghost use Rattle.serde_json.specs.Read.{max_depth};
ghost use Rattle.serde_json.specs.View.{view, items_of, members_view};
ghost use Rattle.serde_json.specs.Written.{compact_text, has_float};
ghost use Rattle.nt_control.specs.Elements.{Says, tree_in, elements_of, said, passed_over, element};
ghost use Rattle.nt_control.specs.Params.{integer_of, whole, texts_of, text_items, options_of, option_members};

use nt_subs::{Names, Options};
use nt_values::Text;
use serde_json::{Map, Value};
use std::alloc::{AllocError, Global};

/// A message, which an element of a frame says.
pub trait Message: Sized {
    ghost written: { Self → Data };

    ghost read: { Data → Option Self };

    /// The element that says the message.
    fn element(&self, alloc: Global) -> Result<Value, AllocError>
        ensures { IfOk result (λ e. Says written read (view e) self.now) };
}

/// The tree of the frame that says these messages.
pub fn tree<M: Message>(alloc: Global, msgs: &[M]) -> Result<Value, AllocError>
    ensures tree { IfOk result (λ tree. view tree ≡ array (items_of (map M.written msgs.now))) }
    ensures whole { IfOk result (λ tree. has_float (view tree) ≡ false) }
    ensures back { IfOk result (λ tree. said M.read (elements_of (Some (view tree))) ≡ msgs.now) }
    ensures none_passed { IfOk result
        (λ tree. passed_over M.read (elements_of (Some (view tree))) ≡ 0) }
{
    let mut elements = Vec::new(alloc);
    for msg in msgs {
        elements.push(msg.element(alloc)?)?;
    }
    Ok(Value::Array(elements))
}

/// The text of a frame, without blanks.
pub fn frame_text(alloc: Global, tree: &Value) -> Result<Text, AllocError>
    ensures text { IfOk result (λ text. has_float (view tree.now) ≡ false
        → text ≡ compact_text (view tree.now)) }
    ensures back { IfOk result (λ text. depth (view tree.now) ≤ max_depth
        → tree_in text ≡ Some (view tree.now)) }
{
    Ok(Text::of_string(tree.to_string(alloc)?))
}

/// The element of a method with these params.
pub fn element_of(
    alloc: Global,
    method: &str,
    params: Map<String, Value>,
) -> Result<Value, AllocError>
    ensures { IfOk result (λ e. view e ≡ element method.now (members_view params.entries)) }
{
    let mut members = Map::new(alloc);
    put_text(alloc, &mut members, "method", method)?;
    serde_json::put(&mut members, alloc, "params", Value::Object(params))?;
    Ok(Value::Object(members))
}

/// A whole number, which is read as itself.
pub fn integer_value(n: i64) -> Value
    ensures tree { view result ≡ whole n }
    ensures again { integer_of (whole n) ≡ Some n }
{
    Value::from(n)
}

/// The array of these names, which is read as them again.
pub fn names_value(alloc: Global, names: &Names) -> Result<Value, AllocError>
    ensures tree { IfOk result (λ value. view value ≡ text_items names.now) }
    ensures whole { IfOk result (λ _. has_float (text_items names.now) ≡ false) }
    ensures again { IfOk result (λ _.
        option_and_then texts_of (as_array (text_items names.now)) ≡ Some names.now) }
{
    let mut items = Vec::new(alloc);
    for name in names.as_slice() {
        items.push(Value::try_from_str(alloc, name.as_str())?)?;
    }
    Ok(Value::Array(items))
}

/// The options that are true.
pub fn options_value(alloc: Global, options: Options) -> Result<Value, AllocError>
    ensures tree { IfOk result (λ value. view value ≡ object (option_members options)) }
    ensures whole { IfOk result (λ _. has_float (object (option_members options)) ≡ false) }
    ensures again { IfOk result (λ _. options_of (option_members options) ≡ Some options) }
{
    let mut members = Map::new(alloc);
    put_true(alloc, &mut members, "topicsonly", options.topicsonly)?;
    put_true(alloc, &mut members, "prefix", options.prefix)?;
    put_true(alloc, &mut members, "all", options.all)?;
    Ok(Value::Object(members))
}

/// Puts a text at a key.
pub fn put_text(
    alloc: Global,
    members: &mut Map<String, Value>,
    key: &str,
    text: &str,
) -> Result<(), AllocError>
    ensures { OnOk result (members_view members.new.entries
        ≡ put key.now (string text.now) (members_view members.old.entries)) }
{
    serde_json::put(members, alloc, key, Value::try_from_str(alloc, text)?)?;
    Ok(())
}

/// Puts a flag at a key where it is true.
pub fn put_true(
    alloc: Global,
    members: &mut Map<String, Value>,
    key: &str,
    flag: bool,
) -> Result<(), AllocError>
    ensures { OnOk result (members_view members.new.entries
        ≡ (if flag then put key.now (boolean true) (members_view members.old.entries)
        else members_view members.old.entries)) }
{
    if flag {
        serde_json::put(members, alloc, key, Value::Bool(true))?;
    }
    Ok(())
}
