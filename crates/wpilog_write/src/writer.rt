//! The writer.

ghost use Rattle.std.specs.Prelude.{◌≡◌, ◌≢◌, [], true, false, None, Some, OnOk, IfOk, IfErr, IsErrOf, MatchResult};
ghost use Rattle.std.specs.Io.KnownBytes.{Appends};
ghost use Rattle.nt_link.specs.Causes.{Rose, IsLater};
ghost use Rattle.wpilog_write.specs.declared.refused.WriteRefused.TheVariants.{WriteFault, Memory};
ghost use Rattle.wpilog_write.specs.Log.{live_after};
ghost use Rattle.wpilog_write.specs.Written.{header_of, record_of, IsCut};
ghost use Rattle.wpilog_write.specs.Writer.{out_of_place, too_large, cause};

use crate::item::{Entries, LogItem, note_item};
use crate::record::{header_with, put_payload, put_record};
use crate::refused::WriteRefused;
use nt_link::{Sink, write_all};
use std::alloc::Global;
use std::collections::BTreeMap;
use std::marker::Model;

/// The most bytes of a payload, and of an extra header.
pub const MOST_BYTES: usize = 16_777_216;

/// The most entries that are live at a time.
pub const MOST_LIVE: usize = 65_536;

/// A writer of a log into a sink, the header and each record in its shortest spelling. What it is given must keep
/// the rules of live entries; all else is refused before anything is written.
#[derive(Drop)]
pub struct LogWriter<S: Sink> {
    sink: S,
    live: Entries,
    failed: bool,
    payload: Vec<u8>,
    bytes: Vec<u8>,
}

impl<S: Sink> Model for LogWriter<S> {
    ghost use Rattle.wpilog_write.specs.Writer.{Writing};

    ghost Value = { Writing S };

    ghost view = { λ w. record { sink = w.sink; live = w.live.entries; failed = w.failed } };
}

impl<S: Sink> LogWriter<S> {
    /// A writer that has written the header, with this extra header, and no item.
    ///
    /// # Errors
    ///
    /// `TooLarge` exactly where the extra header passes its limit, `WriteFault` only where the sink's
    /// count of faults rose, and `Memory`. The sink is handed back.
    pub fn new(alloc: Global, mut sink: S, extra: &[u8]) -> Result<LogWriter<S>, (S, WriteRefused)>
        ensures ok { OnOk result (too_large extra.now ≡ None) }
        ensures begun { IfOk result (λ w. (w.live ≡ []) × (w.failed ≡ false)) }
        ensures written { IfOk result
            (λ w. Appends (S.taken sink) (S.taken w.sink) (header_of extra.now)) }

        ensures refused { IfErr result (λ e. e.1 ≢ WriteFault → e.1 ≢ Memory
            → too_large extra.now ≡ Some e.1) }
        ensures same { IfErr result (λ e. e.1 ≢ WriteFault → e.0 ≡ sink) }
        ensures failed { IfErr result (λ e. e.1 ≡ WriteFault → (too_large extra.now ≡ None)
            × Rose (S.faults sink) (S.faults e.0)) }
        ensures cut { IfErr result (λ e. e.1 ≡ WriteFault
            → IsCut (header_of extra.now) (S.taken sink) (S.taken e.0)) }
        ensures sink { MatchResult result (λ w. IsLater S.faults S.aside sink w.sink)
            (λ e. IsLater S.faults S.aside sink e.0) }
    {
        if extra.len() > MOST_BYTES {
            return Err((sink, WriteRefused::TooLarge));
        }
        let Ok(bytes) = header_with(alloc, extra) else {
            return Err((sink, WriteRefused::Memory));
        };
        match write_all(&mut sink, &bytes) {
            Ok(()) => Ok(LogWriter {
                sink,
                live: BTreeMap::new(alloc),
                failed: false,
                payload: Vec::new(alloc),
                bytes,
            }),
            Err(_stopped) => Err((sink, WriteRefused::WriteFault)),
        }
    }

    /// Writes the record of an item.
    ///
    /// # Errors
    ///
    /// `Failed` after a `WriteFault`, and else the first of the causes in their order that holds.
    /// `WriteFault` comes only where the sink's count of faults rose, and the sink then took a prefix
    /// of the record. With every other cause nothing is written, and the writer is as it was.
    pub fn put(&mut self, item: &LogItem) -> Result<(), WriteRefused>
        ensures ok { OnOk result (cause self.old item.now ≡ None) }
        ensures written { OnOk result
            (Appends (S.taken self.old.sink) (S.taken self.new.sink) (record_of item.now)) }
        ensures live { OnOk result (self.new.live ≡ live_after self.old.live item.now) }
        ensures going { OnOk result (self.new.failed ≡ false) }

        ensures refused { IfErr result (λ refused. refused ≢ WriteFault → refused ≢ Memory
            → cause self.old item.now ≡ Some refused) }
        ensures same { IfErr result (λ refused. refused ≢ WriteFault → self.new ≡ self.old) }
        ensures failed { IsErrOf result WriteFault → (cause self.old item.now ≡ None)
            × Rose (S.faults self.old.sink) (S.faults self.new.sink) }
        ensures broken { IsErrOf result WriteFault → self.new.failed ≡ true }
        ensures cut { IsErrOf result WriteFault
            → IsCut (record_of item.now) (S.taken self.old.sink) (S.taken self.new.sink) }
        ensures sink { IsLater S.faults S.aside self.old.sink self.new.sink }
    {
        if self.failed {
            return Err(WriteRefused::Failed);
        }
        if let Some(refused) = out_of_place(&self.live, item) {
            return Err(refused);
        }
        self.payload.clear();
        put_payload(&mut self.payload, item)?;
        if self.payload.len() > MOST_BYTES {
            return Err(WriteRefused::TooLarge);
        }
        self.bytes.clear();
        put_record(&mut self.bytes, item, &self.payload)?;
        note_item(&mut self.live, item)?;
        match write_all(&mut self.sink, &self.bytes) {
            Ok(()) => Ok(()),
            Err(_stopped) => {
                self.failed = true;
                Err(WriteRefused::WriteFault)
            }
        }
    }

    /// The sink, with all that was written.
    pub fn finish(self) -> S
        ensures { result ≡ self.sink }
    {
        self.sink
    }
}

/// Why an item may not come where these entries are live.
fn out_of_place(live: &Entries, item: &LogItem) -> Option<WriteRefused>
    ensures { result ≡ out_of_place live.now.entries item.now }
{
    match item {
        LogItem::Start { id, .. } => {
            if *id == 0 {
                Some(WriteRefused::IdZero)
            } else if live.contains_key(id) {
                Some(WriteRefused::Live)
            } else if live.len() >= MOST_LIVE {
                Some(WriteRefused::TooManyLive)
            } else {
                None
            }
        }
        LogItem::Value { id, value, .. } => match live.get(id) {
            None => Some(WriteRefused::NotLive),
            Some(typ) if value.typ().number() == typ.number() => None,
            Some(_) => Some(WriteRefused::Misfit),
        },
        LogItem::SetMeta { id, .. } | LogItem::Finish { id, .. } => {
            if live.contains_key(id) {
                None
            } else {
                Some(WriteRefused::NotLive)
            }
        }
    }
}
