//! What the one list of entries tells of a session.

ghost use Rattle.std.specs.Prelude.{◌≡◌, List, Some};
ghost use Rattle.nt_rules.specs.declared.act.Entry.{Entry};
ghost use Rattle.nt_lock.specs.Seats.{SeatView};
ghost use Rattle.nt_serve.specs.Steps.{Step, GoesOn};
ghost use Rattle.nt_serve.specs.Told.{AreTold, KnowsItsOwn};

/// The law of sessions: where entries are told after the last step of a seat, its steps are told by
/// them, in order. Each act is one entry, whose place and answer are those of the lawful history
/// before it; a look tells what the entries up to it say; and between them the worker has no others.
pub fn sessions_are_told()
    ensures { (s : SeatView) (t : SeatView) (steps : List Step) (list : List Entry) → KnowsItsOwn s
        → GoesOn s steps t → t.seen ≡ Some list
        → (seen : List Entry) × (s.seen ≡ Some seen)
        × AreTold s.origin.start s.worker seen steps list }
{}
