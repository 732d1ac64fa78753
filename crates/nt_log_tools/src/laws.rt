//! What a printed line tells. The function here does nothing: its contract is a law of the definitions by which the
//! tools are stated.

ghost use Rattle.std.specs.Prelude.{◌≡◌, ◌<◌, ◌^◌};
ghost use Rattle.wpilog_read.specs.declared.item_at.ItemAt.{ItemAt};
ghost use Rattle.nt_lines.specs.ItemLines.{FitsItsTypes};
ghost use Rattle.nt_log_tools.specs.ItemLines.{placed_line};

/// A line tells its item and its place: two items with the same line are equal.
pub fn line_tells_item()
    ensures placed { (a b : ItemAt) → a.at < 2 ^ 64 → b.at < 2 ^ 64
        → FitsItsTypes a.item → FitsItsTypes b.item → placed_line a ≡ placed_line b → a ≡ b }
{}
