//! A log that is being written through a buffer.

ghost use Rattle.std.specs.Prelude.{◌≡◌, ◌+◌, ◌<◌, ◌^◌, ◌++◌, [], length, IfErr, IfOk, OnOk, OnErr};
ghost use Rattle.nt_link.specs.Causes.{Rose, IsLater};
ghost use Rattle.nt_tools.specs.Printing.{HasPrinted, HasStopped};
ghost use Rattle.wpilog_write.specs.Written.{header_of, record_of};

use nt_link::Sink;
use nt_tools::{ToolFault, write};
use std::alloc::{AllocError, Global};
use wpilog_write::{LogItem, header_with, put_payload, put_record};

/// From how many bytes on the buffer is written.
const BUFFER: usize = 1 << 16;

/// A log that is being written.
#[derive(Drop)]
pub struct Draft {
    /// Its last bytes, which no sink has taken yet.
    pub bytes: Vec<u8>,
    /// How many bytes it has, with those that were taken.
    pub len: u64,
    /// Room for the payload of a record.
    payload: Vec<u8>,
}

impl Draft {
    /// The header of a log.
    pub fn new(alloc: Global) -> Result<Draft, AllocError>
        ensures bytes { IfOk result (λ draft. draft.bytes.items ≡ header_of []) }
        ensures len { IfOk result (λ draft. draft.len ≡ length (header_of [])) }
    {
        let bytes = header_with(alloc, &[])?;
        Ok(Draft {
            len: bytes.len() as u64,
            bytes,
            payload: Vec::new(alloc),
        })
    }

    /// Appends the record of an item.
    pub fn put(&mut self, item: &LogItem) -> Result<(), AllocError>
        requires { self.old.len + length (record_of item.now) < 2 ^ 64 }
        ensures bytes { OnOk result (self.new.bytes.items ≡ self.old.bytes.items ++ record_of item.now) }
        ensures len { OnOk result (self.new.len ≡ self.old.len + length (record_of item.now)) }
        ensures kept { OnErr result (self.new.len ≡ self.old.len) }
    {
        self.payload.clear();
        put_payload(&mut self.payload, item)?;
        let before = self.bytes.len();
        put_record(&mut self.bytes, item, &self.payload)?;
        self.len += (self.bytes.len() - before) as u64;
        Ok(())
    }

    /// Writes the buffer and clears it, where it is full.
    pub fn write_full<S: Sink>(&mut self, sink: &mut S) -> Result<(), ToolFault>
        ensures ok { OnOk result (HasPrinted self.old.bytes.items self.new.bytes.items
            (S.taken sink.old) (S.taken sink.new)) }
        ensures stopped { IfErr result (λ e. HasStopped self.old.bytes.items e
            (S.taken sink.old) (S.taken sink.new)) }
        ensures only { IfErr result (λ fault. fault ≡ ToolFault.Write) }
        ensures failed { OnErr result (Rose (S.faults sink.old) (S.faults sink.new)) }
        ensures sink { IsLater S.faults S.aside sink.old sink.new }
        ensures len { self.new.len ≡ self.old.len }
    {
        if self.bytes.len() < BUFFER {
            return Ok(());
        }
        write(sink, &self.bytes)?;
        self.bytes.clear();
        Ok(())
    }
}
