//! Messages laid into frames.

ghost use Rattle.std.specs.Prelude.{◌≡◌, ◌++◌, [], ◌∷◌, List, IfOk, OnOk};
ghost use Rattle.nt_frames.specs.declared.message.ValueMsg.{ValueMsg};
ghost use Rattle.nt_session.specs.Laid.{text_frames, frames_behind, frames_in, clock_frame};

use nt_control::{ServerMsg, write_server};
use nt_frames::{ValueMsg, put_message};
use nt_link::Frame;
use nt_rules::Batch;
use nt_values::Bytes;
use std::alloc::{AllocError, Global};
use std::mem;

/// The most bytes of a frame of more than one value.
const MOST_BYTES: usize = 65_536;

/// The frames of a batch: one of all texts, where there are any, and then those of the values, in
/// their order. A value joins the frame before it where that then has at most 65,536 bytes.
///
/// It fails for want of memory, and where a text, bytes or a list in a value has a length of 2^32
/// or more, for which there is no spelling.
pub fn frames_of(alloc: Global, batch: &Batch) -> Result<Vec<Frame>, AllocError>
    ensures { IfOk result (λ frames. frames.items ≡ frames_in batch.now) }
{
    let mut frames = Vec::new(alloc);
    add_texts(alloc, &mut frames, batch.texts.as_slice())?;
    add_values(alloc, &mut frames, batch.values.as_slice())?;
    Ok(frames)
}

/// The answer to a question for the server's time, which is `now`, in microseconds: the id -1, this
/// time, and the value that came. It fails as `frames_of` does.
pub fn clock_answer(alloc: Global, msg: &ValueMsg, now: u64) -> Result<Frame, AllocError>
    ensures { IfOk result (λ frame. frame ≡ clock_frame msg.now now) }
{
    let value = msg.value.copy(alloc)?;
    let answer = ValueMsg {
        id: -1,
        time: now,
        value,
    };
    let mut bytes = Vec::new(alloc);
    put_message(&mut bytes, &answer)?;
    Ok(Frame::Binary(Bytes::of_vec(bytes)))
}

/// Adds the text frame, where there is anything to tell.
fn add_texts(alloc: Global, frames: &mut Vec<Frame>, texts: &[ServerMsg]) -> Result<(), AllocError>
    ensures { OnOk result (frames.new.items ≡ frames.old.items ++ text_frames texts.now) }
{
    if !texts.is_empty() {
        frames.push(Frame::Text(write_server(alloc, texts)?))?;
    }
    Ok(())
}

/// Adds the frames of the values.
fn add_values(alloc: Global, frames: &mut Vec<Frame>, values: &[ValueMsg]) -> Result<(), AllocError>
    ensures { OnOk result (frames.new.items ≡ frames.old.items ++ frames_behind [] values.now) }
{
    let mut begun = Vec::new(alloc);
    for value in values {
        add_value(alloc, frames, &mut begun, value)?;
    }
    if !begun.is_empty() {
        frames.push(Frame::Binary(Bytes::of_vec(begun)))?;
    }
    Ok(())
}

/// Adds a value to the frame that was begun, or adds that frame and begins another with the value.
fn add_value(
    alloc: Global,
    frames: &mut Vec<Frame>,
    begun: &mut Vec<u8>,
    value: &ValueMsg,
) -> Result<(), AllocError>
    ensures { OnOk result ((values : List ValueMsg)
        → frames.new.items ++ frames_behind begun.new.items values
        ≡ frames.old.items ++ frames_behind begun.old.items (value.now ∷ values)) }
{
    let before = begun.len();
    put_message(begun, value)?;
    if before > 0 && begun.len() > MOST_BYTES {
        let next = Vec::from_slice(alloc, &begun[before..])?;
        begun.truncate(before);
        let whole = mem::replace(begun, next);
        frames.push(Frame::Binary(Bytes::of_vec(whole)))?;
    }
    Ok(())
}
