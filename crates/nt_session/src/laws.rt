//! What laying values into frames amounts to.

ghost use Rattle.std.specs.Prelude.{◌≡◌, List, []};
ghost use Rattle.std.specs.List.{AllByRecursion, flat_map};
ghost use Rattle.nt_frames.specs.declared.message.ValueMsg.{ValueMsg};
ghost use Rattle.nt_frames.specs.Frames.{frame_of};
ghost use Rattle.nt_session.specs.Laid.{IsFit, bytes_in, frames_behind};

/// The frames of values, one after another, spell exactly the values in their order. Each has at
/// most 65,536 bytes, or is of one value.
pub fn values_are_laid_in_order()
    ensures whole { (values : List ValueMsg)
        → flat_map bytes_in (frames_behind [] values) ≡ frame_of values }
    ensures fit { (values : List ValueMsg) → AllByRecursion IsFit (frames_behind [] values) }
{}
