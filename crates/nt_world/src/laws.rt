//! What the definitions of a world rest on.

ghost use Rattle.nt_world.specs.Frames.{Decoding, IsDecoding};

use nt_frames::frames_have_a_meaning;

/// Binary frames can be decoded: all bytes have a meaning as a frame, whatever size of values is
/// taken.
pub fn frames_are_decoded()
    ensures { (decode : Decoding) × IsDecoding decode }
{
    frames_have_a_meaning();
}
