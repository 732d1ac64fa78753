//! Text frames, as arrays of elements.

ghost use Rattle.std.specs.Prelude.{◌≡◌, map, option_map, string_bytes, IfOk};
ghost use Rattle.serde_json.specs.View.{view, members_view};
ghost use Rattle.nt_control.specs.Elements.{tree_in, elements_of, call_of};

use crate::params::{into_items, into_object, take, take_text};
use serde_json::{Map, Value};
use std::alloc::{AllocError, Global};

/// The method of an element, and its params.
#[derive(Drop)]
pub struct Call {
    pub method: String,
    pub params: Map<String, Value>,
}

/// The elements of a frame, where its text is an array.
pub fn elements(alloc: Global, text: &[u8]) -> Result<Option<Vec<Value>>, AllocError>
    ensures { IfOk result (λ elements.
        option_map (λ list. map view list.items) elements ≡ elements_of (tree_in text.now)) }
{
    match Value::from_slice(alloc, text) {
        Ok(tree) => Ok(into_items(tree)),
        Err(error) => if error.is_memory() {
            Err(AllocError)
        } else {
            Ok(None)
        },
    }
}

/// The method and the params of an element, where it has both.
pub fn take_call(element: Value) -> Option<Call>
    ensures { option_map (λ c. (string_bytes c.method, members_view c.params.entries)) result
        ≡ call_of (view element) }
{
    let mut members = into_object(element)?;
    let method = take_text(&mut members, "method")?;
    let params = into_object(take(&mut members, "params")?)?;
    Some(Call { method, params })
}
