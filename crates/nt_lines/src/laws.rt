//! What a line tells. The function here does nothing: its contract is a law of the definitions.

ghost use Rattle.std.specs.Prelude.{◌≡◌};
ghost use Rattle.wpilog_write.specs.declared.item.LogItem.{LogItem};
ghost use Rattle.nt_lines.specs.ItemLines.{item_line, FitsItsTypes};

/// A line tells its item: two items with the same line are equal.
pub fn line_tells_item()
    ensures { (a b : LogItem) → FitsItsTypes a → FitsItsTypes b → item_line a ≡ item_line b → a ≡ b }
{}
