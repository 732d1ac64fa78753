//! The names and the options of a subscription, as they are read.

ghost use Rattle.std.specs.Prelude.{◌≡◌, codes, IfOk};
ghost use Rattle.serde_json.specs.Find.{get_member};
ghost use Rattle.serde_json.specs.View.{items_view, members_view};
ghost use Rattle.nt_control.specs.Params.{KeepsOthers, texts_of, texts_at, options_of, options_if};

use crate::params::{flag_or_false, into_items, into_object, into_text, is_number_or_absent, take};
use nt_subs::{Names, Options};
use nt_topics::Name;
use nt_values::Text;
use serde_json::{Map, Value};
use std::alloc::{AllocError, Global};

/// Takes the names at a key out of the params.
pub fn take_names(
    alloc: Global,
    params: &mut Map<String, Value>,
    key: &str,
) -> Result<Option<Names>, AllocError>
    ensures names { IfOk result (λ names. names
        ≡ texts_at key.now (members_view params.old.entries)) }
    ensures others { KeepsOthers key.now
        (members_view params.old.entries) (members_view params.new.entries) }
{
    let Some(topics) = take(params, key) else {
        return Ok(None);
    };
    let Some(items) = into_items(topics) else {
        return Ok(None);
    };
    names(alloc, items)
}

/// The names that these items are, where each is a text.
fn names(alloc: Global, items: Vec<Value>) -> Result<Option<Names>, AllocError>
    ensures { IfOk result (λ names. names ≡ texts_of (items_view items.items)) }
{
    let mut names = Names::empty(alloc);
    for item in items {
        let Some(text) = into_text(item) else {
            return Ok(None);
        };
        names.push(Name::of_text(Text::of_string(text)))?;
    }
    Ok(Some(names))
}

/// Takes the options out of the params: all false, where they are absent.
pub fn take_options(params: &mut Map<String, Value>) -> Option<Options>
    ensures { result ≡ options_if (get_member (codes "options") (members_view params.old.entries)) }
{
    match take(params, "options") {
        None => Some(Options {
            all: false,
            topicsonly: false,
            prefix: false,
        }),
        Some(options) => options_in(&into_object(options)?),
    }
}

/// The options that these members give.
fn options_in(members: &Map<String, Value>) -> Option<Options>
    ensures { result ≡ options_of (members_view members.now.entries) }
{
    if !is_number_or_absent(members, "periodic") {
        return None;
    }
    Some(Options {
        all: flag_or_false(members, "all")?,
        prefix: flag_or_false(members, "prefix")?,
        topicsonly: flag_or_false(members, "topicsonly")?,
    })
}
