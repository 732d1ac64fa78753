//! The value in the lock: a server with its journal and its recorder.

ghost use Rattle.std.specs.Prelude.{◌≡◌, [], List, false, IfSome};
ghost use Rattle.nt_rules.specs.declared.start.Start.{Start};
ghost use Rattle.nt_rules.specs.history.Step.{Represents};
ghost use Rattle.nt_lock.specs.Seats.{IsNew};
ghost use Rattle.nt_hall.specs.Histories.{StandsFor};
ghost use Rattle.nt_hall.specs.Turns.{IsAsOpened};

use crate::journal::Journal;
use nt_link::Sink;
use nt_lock::Told;
use nt_record::Recorder;
use nt_rules::Entry;
use nt_server::Server;
use std::marker::Model;
use std::snapshot::Snapshot;

/// What the last turn did. It is for the proof alone, and an entry in it has no bytes.
#[derive(Drop)]
pub(crate) enum Last {
    Made(Snapshot<Entry>),
    Refused,
    Looked(bool),
    Unmarked,
}

/// A server, its journal and its recorder, with what there was as the lock opened. It has failed
/// where a turn was refused.
#[derive(Drop)]
pub struct Locked<J: Journal, S: Sink> {
    pub(crate) server: Server,
    pub(crate) journal: J,
    pub(crate) recorder: Recorder<S>,
    pub(crate) count: u64,
    pub(crate) failed: bool,
    pub(crate) last: Last,
    first_server: Snapshot<Server>,
    first_recorder: Snapshot<Recorder<S>>,
}

impl<J: Journal, S: Sink> Model for Locked<J, S> {
    ghost use Rattle.std.specs.Coded.{codes};
    ghost use Rattle.nt_topics.specs.contracts.properties.Props as props;
    ghost use Rattle.nt_rules.specs.history.Order.{origin_in};
    ghost use Rattle.nt_hall.specs.Locked.{LockedView, note_of, IsKeeping};

    ghost Value = { LockedView S };

    ghost coded = { Prim.hlevel (codes, props.the_row.coded) };

    ghost view = { λ l. record {
      kept = record {
        origin = record {
          start = origin_in l.first_server.value;
          taken = S.taken l.first_recorder.value.sink;
          faults = S.faults l.first_recorder.value.sink;
        };
        told = J.told l.journal;
        count = l.count;
        failed = l.failed;
      };
      last = note_of l.last;
      recorder = l.recorder;
    } };

    ghost invariant = { λ l. IsKeeping l.server (origin_in l.first_server.value) (J.told l.journal)
        (J.count l.journal) l.count l.failed l.first_recorder.value l.recorder };
}

impl<J: Journal, S: Sink> Told for Locked<J, S> {
    ghost kept = { λ l. l.kept };

    ghost last = { λ l. l.last };

    fn made_entry(&self) -> bool {
        matches!(&self.last, Last::Made(_))
    }
}

impl<J: Journal, S: Sink> Locked<J, S> {
    /// A server and a journal without entries, and a recorder to which nothing was noted.
    pub(crate) fn new(server: Server, journal: J, recorder: Recorder<S>) -> Locked<J, S>
        requires server { (start : Start) × Represents server start [] }
        requires journal { (J.count journal ≡ 0) × IfSome (J.told journal) (λ list. list ≡ []) }
        ensures new { IsNew result.kept }
        ensures start { (start : Start) → Represents server start []
            → result.kept.origin.start ≡ start }
        ensures taken { result.kept.origin.taken ≡ S.taken recorder.sink }
        ensures faults { result.kept.origin.faults ≡ S.faults recorder.sink }
        ensures recorder { result.recorder ≡ recorder }
    {
        let first_server = Snapshot::of(&server);
        let first_recorder = Snapshot::of(&recorder);
        Locked {
            server,
            journal,
            recorder,
            count: 0,
            failed: false,
            last: Last::Unmarked,
            first_server,
            first_recorder,
        }
    }

    /// The server, the journal, the recorder, and whether a turn was refused.
    pub(crate) fn into_parts(self) -> (Server, J, Recorder<S>, bool)
        ensures told { J.told result.1 ≡ self.kept.told }
        ensures count { J.count result.1 ≡ self.kept.count }
        ensures recorder { result.2 ≡ self.recorder }
        ensures failed { result.3 ≡ self.kept.failed }
        ensures stands { result.3 ≡ false
            → IfSome (J.told result.1) (StandsFor result.0 self.kept.origin.start) }
        ensures recorded { IsAsOpened S.taken S.faults self.kept.origin result.2 }
    {
        let Locked {
            server,
            journal,
            recorder,
            count: _,
            failed,
            last: _,
            first_server: _,
            first_recorder: _,
        } = self;
        (server, journal, recorder, failed)
    }
}
