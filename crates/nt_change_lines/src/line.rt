//! The line of a change.

ghost use Rattle.std.specs.Prelude.{◌≡◌, ◌++◌, IfOk, OnOk, string_bytes};
ghost use Rattle.nt_change_lines.specs.ChangeLines.{change_line};

use crate::value::append_value;
use nt_lines::Field;
use nt_rules::Change;
use nt_values::Text;
use std::alloc::{AllocError, Global};

/// Appends the line of a change, without a line feed. For want of memory the text may hold a part of it.
pub fn append_change(text: &mut String, change: &Change) -> Result<(), AllocError>
    ensures { OnOk result (string_bytes text.new ≡ string_bytes text.old ++ change_line change.now) }
{
    let alloc = *text.allocator();
    match change {
        Change::Started {
            id,
            name,
            typ,
            props,
        } => {
            let props = props.tree().to_string(alloc)?;
            let name = Field(name.as_str().as_bytes());
            let typ = Field(typ.as_str().as_bytes());
            let props = Field(props.as_bytes());
            write!(text, "+ {id} {name} {typ} {props}")
        }
        Change::Changed {
            id,
            name,
            time,
            value,
        } => {
            let name = Field(name.as_str().as_bytes());
            write!(text, "= {id} {name} {time} ")?;
            append_value(text, value)
        }
        Change::Props { id, name, update } => {
            let update = update.tree().to_string(alloc)?;
            let name = Field(name.as_str().as_bytes());
            let update = Field(update.as_bytes());
            write!(text, "~ {id} {name} {update}")
        }
        Change::Ended { id, name } => {
            let name = Field(name.as_str().as_bytes());
            write!(text, "- {id} {name}")
        }
    }
}

/// The line of a change, without a line feed.
pub fn change_line(alloc: Global, change: &Change) -> Result<Text, AllocError>
    ensures { IfOk result (λ line. line ≡ change_line change.now) }
{
    let mut text = String::new(alloc);
    append_change(&mut text, change)?;
    Ok(Text::of_string(text))
}
