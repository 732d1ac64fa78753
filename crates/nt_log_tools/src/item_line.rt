//! The line of an item of a log, with its place.

ghost use Rattle.std.specs.Prelude.{◌≡◌, ◌++◌, OnOk, string_bytes};
ghost use Rattle.nt_log_tools.specs.ItemLines.{placed_line};

use nt_lines::append_item;
use std::alloc::AllocError;
use wpilog_read::ItemAt;

/// Appends the line of an item, with its place. For want of memory the text may hold a part of it.
pub fn append_line(text: &mut String, item: &ItemAt) -> Result<(), AllocError>
    ensures { OnOk result (string_bytes text.new ≡ string_bytes text.old ++ placed_line item.now) }
{
    let at = item.at;
    write!(text, "@{at} ")?;
    append_item(text, &item.item)
}
