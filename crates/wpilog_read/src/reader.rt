//! The reader.

ghost use Rattle.std.specs.Prelude.{◌≡◌, List, ℕ, [], ◌++◌, ◌+◌, ◌-◌, ◌<◌, ◌≤◌, ◌^◌, length, drop, vec_len, Ok, Err, Some, None, OnOk, OnErr, IfOk, IfErr, IfSome, IfNone, MatchResult, Option};
ghost use Rattle.std.specs.Result.{result_err};
ghost use Rattle.wpilog_read.specs.declared.fault.LogFault.{LogFault as Fault};
ghost use Rattle.wpilog_read.specs.declared.fault.LogKind.{LogKind};
ghost use Rattle.wpilog_read.specs.declared.fault.Stop.TheVariants.{Wanting, Known};
ghost use Rattle.wpilog_read.specs.Meaning.{Means, header_offset};
ghost use Rattle.wpilog_read.specs.Reading.{Fails};
ghost use Rattle.wpilog_read.specs.Run.{start, fed, after_header, record_next, next_of, settle, broken, at_offset, EndsBy, passed, ending, most_left, given, IsEnded, Stands, IsReading};

use crate::fault::{LogFault, LogKind, NextFault, ReadError, Stop};
use crate::field::{header_of, record_of};
use crate::item::item_from;
use crate::item_at::ItemAt;
use nt_values::Bytes;
use std::alloc::{AllocError, Global};
use std::collections::BTreeMap;
use std::marker::Model;
use wpilog_write::{Entries, note_item};

/// How many bytes a log may have.
const MOST_FED: u64 = 1 << 63;

/// A reader of a log that comes in pieces. Once it answered `None` it keeps at most the one record
/// that is not whole, and of each live entry its id and type.
#[derive(Drop)]
pub struct LogReader {
    bytes: Vec<u8>,
    taken: usize,
    at: u64,
    extra: Option<Bytes>,
    live: Entries,
    fault: Option<LogFault>,
}

impl Model for LogReader {
    ghost use Rattle.std.specs.Prelude.{drop, ◌+◌, ◌<◌, ◌≤◌, ◌^◌, length, vec_len};
    ghost use Rattle.wpilog_read.specs.Run.{Reading};

    ghost Value = { Reading };

    ghost view = { λ r. record { extra = r.extra; live = r.live.entries; at = r.at; rest = drop r.taken r.bytes.items; fault = r.fault } };

    ghost invariant = { λ r. (r.taken ≤ vec_len r.bytes) × (r.at + length (drop r.taken r.bytes.items) < 2 ^ 63) };
}

impl LogReader {
    /// A reader that no bytes have come to.
    pub fn new(alloc: Global) -> LogReader
        ensures value { result ≡ start [] }
        ensures stands { Stands [] [] result }
    {
        LogReader {
            bytes: Vec::new(alloc),
            taken: 0,
            at: 0,
            extra: None,
            live: BTreeMap::new(alloc),
            fault: None,
        }
    }

    /// Takes the next bytes of the log. After a fault they are let go.
    ///
    /// # Errors
    ///
    /// Want of memory alone, and the reader is then as it was. It is answered too where the reader would
    /// have been fed 2^63 bytes or more.
    pub fn feed(&mut self, piece: &[u8]) -> Result<(), AllocError>
        ensures ok { OnOk result (self.new ≡ fed self.old piece.now) }
        ensures err { OnErr result (self.new ≡ self.old) }

        // What the reader gave stands, whatever bytes come after.
        ensures stands { OnOk result ((bytes : List ℕ) (items : List ItemAt)
            → Stands bytes items self.old → Stands (bytes ++ piece.now) items self.new) }
    {
        if self.fault.is_some() {
            return Ok(());
        }
        let rest = (self.bytes.len() - self.taken) as u64;
        if piece.len() as u64 >= MOST_FED - self.at - rest {
            return Err(AllocError);
        }
        if self.taken > 0 {
            drop_front(&mut self.bytes, self.taken);
            self.taken = 0;
        }
        self.bytes.extend_from_slice(piece)?;
        Ok(())
    }

    /// The extra header, once the header was read.
    pub fn extra(&self) -> Option<&[u8]>
        ensures none { IfNone result (self.now.extra ≡ None) }
        ensures some { IfSome result (λ extra. self.now.extra ≡ Some extra.now) }
    {
        match &self.extra {
            Some(extra) => Some(extra.as_bytes()),
            None => None,
        }
    }

    /// How many bytes are kept that were not read yet.
    pub fn kept(&self) -> u64
        ensures { result ≡ length self.now.rest }
    {
        (self.bytes.len() - self.taken) as u64
    }

    /// The next item. `None` where the bytes that have come hold no whole one, and `feed` may bring it.
    ///
    /// # Errors
    ///
    /// A fault of the log, which each later call answers again, or want of memory, after which a later
    /// call goes on where this one stood.
    pub fn next(&mut self, alloc: Global) -> Result<Option<ItemAt>, NextFault>
        ensures broken { IfSome self.old.fault
            (λ fault. (result ≡ Err (NextFault.Log fault)) × (self.new ≡ self.old)) }
        ensures item { IfNone self.old.fault
            (IfOk result (λ o. IfSome o (λ x. next_of self.old ≡ Ok (x, self.new)))) }
        ensures none { IfNone self.old.fault
            (IfOk result (λ o. IfNone o ((next_of self.old ≡ Err Wanting) × (self.new ≡ settle self.old)))) }
        ensures fault { IfNone self.old.fault
            (IfErr result (λ e. EndsBy e (next_of self.old) self.old self.new)) }

        // A loop over `next` may count on these alone.
        ensures stands { (bytes : List ℕ) (items : List ItemAt)
            → Stands bytes items self.old → Stands bytes (items ++ given result) self.new }
        ensures ended { MatchResult result (λ o. IfNone o (IsEnded self.new))
            (λ e. (fault : Fault) → e ≡ NextFault.Log fault → IsEnded self.new) }

        // After `None` only a unit that is not whole is kept.
        ensures kept { IfOk result (λ o. IfNone o (length self.new.rest ≤ most_left self.new)) }

        // The reader goes forward in the bytes that it was fed, and each item takes some.
        ensures forward { self.old.at ≤ self.new.at }
        ensures end { self.new.at + length self.new.rest ≡ self.old.at + length self.old.rest }
        ensures small { self.old.at + length self.old.rest < 2 ^ 63 }
        ensures shorter { IfOk result
            (λ o. IfSome o (λ _. length self.new.rest < length self.old.rest)) }
    {
        match self.fault {
            Some(fault) => Err(NextFault::Log(fault)),
            None => self.step(alloc),
        }
    }

    /// The end of the log. `next` was called since the last piece, and answered `None` or a fault.
    ///
    /// # Errors
    ///
    /// The fault that `next` answered, and `Truncated` where bytes are left or the header is wanting.
    pub fn finish(&mut self) -> Result<(), LogFault>
        requires { IsEnded self.old }
        ensures broken { IfSome self.old.fault (λ fault. result ≡ Err fault) }
        ensures ending { IfNone self.old.fault
            (MatchResult result (λ _. ending self.old ≡ None) (λ fault. ending self.old ≡ Some fault)) }
        ensures same { self.new ≡ self.old }

        // What the reader was fed means what it gave, and then so, and nothing else.
        ensures meaning { (bytes : List ℕ) (items : List ItemAt)
            → Stands bytes items self.old
            → Means bytes self.old.extra items (result_err result) }
        ensures only { (bytes : List ℕ) (extra : Option (List ℕ)) (items others : List ItemAt)
            (fault : Option Fault) → Stands bytes items self.old → Means bytes extra others fault
            → (extra ≡ self.old.extra) × (others ≡ items) × (fault ≡ result_err result) }
    {
        match self.ending() {
            None => Ok(()),
            Some(fault) => Err(fault),
        }
    }
}

impl LogReader {
    /// The bytes that are not read yet.
    #[inline]
    fn rest(&self) -> &[u8]
        ensures { result.now ≡ self.now.rest }
    {
        &self.bytes[self.taken..]
    }

    /// Reads the header, where it is not read yet.
    #[inline]
    #[tactic(auto, unfolding(crate::specs::Run::after_header))]
    fn open(&mut self, alloc: Global) -> Result<(), ReadError>
        ensures ok { OnOk result (after_header self.old ≡ Ok self.new) }
        ensures err { IfErr result
            (λ e. Fails e (after_header self.old) × (self.new ≡ self.old)) }
        ensures end { self.new.at + length self.new.rest ≡ self.old.at + length self.old.rest }
        ensures forward { self.old.at ≤ self.new.at }
    {
        if self.extra.is_some() {
            return Ok(());
        }
        let (extra, after) = header_of(self.rest())?;
        let left = after.len();
        let extra = Bytes::of(alloc, extra)?;
        self.pass(left);
        self.extra = Some(extra);
        Ok(())
    }

    /// Reads a record.
    #[inline]
    #[tactic(auto, unfolding(crate::specs::Run::record_next))]
    fn read(&mut self, alloc: Global) -> Result<ItemAt, ReadError>
        ensures ok { IfOk result (λ x. record_next self.old ≡ Ok (x, self.new)) }
        ensures err { IfErr result (λ e. Fails e (record_next self.old) × (self.new ≡ self.old)) }
        ensures end { self.new.at + length self.new.rest ≡ self.old.at + length self.old.rest }
        ensures forward { self.old.at ≤ self.new.at }
        ensures shorter { OnOk result (length self.new.rest < length self.old.rest) }
    {
        let (fields, after) = record_of(&self.live, self.rest())?;
        let left = after.len();
        let item = item_from(alloc, &self.live, &fields)?;
        note_item(&mut self.live, &item)?;
        let at = self.at;
        self.pass(left);
        Ok(ItemAt { at, item })
    }

    /// Goes on in the bytes until so many are left.
    #[inline]
    fn pass(&mut self, left: usize)
        requires { left ≤ length self.old.rest }
        ensures { self.new ≡ passed self.old (drop (length self.old.rest - left) self.old.rest) }
    {
        let count = self.bytes.len() - self.taken - left;
        self.taken += count;
        self.at += count as u64;
    }

    /// What `next` answers where no item can be read. A fault is kept.
    fn fail(&mut self, error: ReadError) -> Result<Option<ItemAt>, NextFault>
        ensures memory { error ≡ ReadError.Memory → (result ≡ Err NextFault.Memory) × (self.new ≡ self.old) }
        ensures wanting { error ≡ ReadError.Stop Wanting → (result ≡ Ok None) × (self.new ≡ self.old) }
        ensures known { (kind : LogKind) → error ≡ ReadError.Stop (Known kind)
            → (result ≡ Err (NextFault.Log (at_offset self.old kind)))
            × (self.new ≡ broken (at_offset self.old kind) self.old) }
    {
        match error {
            ReadError::Memory => Err(NextFault::Memory),
            ReadError::Stop(Stop::Wanting) => Ok(None),
            ReadError::Stop(Stop::Known(kind)) => {
                let at = if self.extra.is_some() {
                    self.at
                } else {
                    header_offset(kind)
                };
                let fault = LogFault { at, kind };
                self.fault = Some(fault);
                Err(NextFault::Log(fault))
            }
        }
    }

    /// Reads the next item, without a look at a fault that is known.
    fn step(&mut self, alloc: Global) -> Result<Option<ItemAt>, NextFault>
        ensures item { IfOk result (λ o. IfSome o (λ x. next_of self.old ≡ Ok (x, self.new))) }
        ensures none { IfOk result
            (λ o. IfNone o ((next_of self.old ≡ Err Wanting) × (self.new ≡ settle self.old))) }
        ensures fault { IfErr result (λ e. EndsBy e (next_of self.old) self.old self.new) }
        ensures forward { self.old.at ≤ self.new.at }
        ensures end { self.new.at + length self.new.rest ≡ self.old.at + length self.old.rest }
        ensures shorter { IfOk result
            (λ o. IfSome o (λ _. length self.new.rest < length self.old.rest)) }
    {
        match self.open(alloc) {
            Ok(()) => match self.read(alloc) {
                Ok(item) => Ok(Some(item)),
                Err(error) => self.fail(error),
            },
            Err(error) => self.fail(error),
        }
    }

    /// The fault of a log that ends here.
    fn ending(&self) -> Option<LogFault>
        requires { IsEnded self.now }
        ensures broken { IfSome self.now.fault (λ fault. result ≡ Some fault) }
        ensures ending { IfNone self.now.fault (result ≡ ending self.now) }
        ensures reading { (bytes : List ℕ) (items : List ItemAt) → Stands bytes items self.now
            → IsReading bytes self.now.extra items result }
    {
        if self.fault.is_some() {
            return self.fault;
        }
        if self.extra.is_none() {
            return Some(LogFault {
                at: 0,
                kind: LogKind::Truncated,
            });
        }
        if self.taken == self.bytes.len() {
            return None;
        }
        Some(LogFault {
            at: self.at,
            kind: LogKind::Truncated,
        })
    }
}

/// Where a fault of the header is.
fn header_offset(kind: LogKind) -> u64
    ensures { result ≡ header_offset kind }
{
    match kind {
        LogKind::BadVersion => 6,
        LogKind::TooLarge => 8,
        _ => 0,
    }
}

/// Drops the first bytes.
fn drop_front(bytes: &mut Vec<u8>, count: usize)
    requires { count ≤ vec_len bytes.old }
    ensures { bytes.new.items ≡ drop count bytes.old.items }
{
    let len = bytes.len();
    bytes.rotate_left(count);
    bytes.truncate(len - count);
}
