//! The log that `gen` writes.

ghost use Rattle.std.specs.Prelude.{◌≡◌, ◌≤◌, ◌<◌, ◌+◌, ◌*◌, ◌^◌, ◌++◌, ◌∷◌, [], length, IfErr, IfOk, OnOk, IsErrOf};
ghost use Rattle.std.specs.Io.KnownBytes.{Appends};
ghost use Rattle.nt_link.specs.Causes.{Rose, IsLater};
ghost use Rattle.nt_tools.specs.Printing.{HasPrinted, HasStopped};
ghost use Rattle.wpilog_write.specs.Written.{log_text};
ghost use Rattle.nt_gen.specs.Generated.{start, generated};
ghost use Rattle.nt_gen.specs.Parts.{begun, value_record, last_record};

use crate::draft::Draft;
use nt_link::Sink;
use nt_tools::{ToolFault, write};
use nt_values::Text;
use rand_core::SeedableRng;
use rand_core::utils::NextWord;
use rand_pcg::Pcg32;
use std::alloc::{AllocError, Global};
use wpilog_write::{LogItem, LogValue};

/// Writes the log of so many values of this seed, piece by piece, and answers how many bytes it has.
pub fn write_log<S: Sink>(
    alloc: Global,
    seed: u64,
    count: u32,
    sink: &mut S,
) -> Result<u64, ToolFault>
    ensures written { OnOk result (Appends (S.taken sink.old) (S.taken sink.new) (generated seed count)) }
    ensures len { IfOk result (λ len. len ≡ length (generated seed count)) }
    ensures stopped { IfErr result (λ e. HasStopped (generated seed count) e
        (S.taken sink.old) (S.taken sink.new)) }
    ensures no_read { IsErrOf result ToolFault.Read → ⊥ }
    ensures failed { IsErrOf result ToolFault.Write → Rose (S.faults sink.old) (S.faults sink.new) }
    ensures sink { IsLater S.faults S.aside sink.old sink.new }
{
    let mut draft = begin(alloc)?;
    put_values(&mut draft, seed, count, sink)?;
    put_last(&mut draft, count)?;
    write(sink, &draft.bytes)?;
    Ok(draft.len)
}

/// The header and the Start.
fn begin(alloc: Global) -> Result<Draft, AllocError>
    ensures bytes { IfOk result (λ draft. draft.bytes.items ≡ log_text (start ∷ [])) }
    ensures len { IfOk result (λ draft. draft.len ≡ length (log_text (start ∷ []))) }
{
    let mut draft = Draft::new(alloc)?;
    draft.put(&LogItem::Start {
        time: 0,
        id: 1,
        name: Text::of(alloc, "gen")?,
        typ: Text::of(alloc, "int64")?,
        meta: Text::of(alloc, "")?,
    })?;
    Ok(draft)
}

/// Puts the values behind the Start, and writes what fills the buffer.
fn put_values<S: Sink>(
    draft: &mut Draft,
    seed: u64,
    count: u32,
    sink: &mut S,
) -> Result<(), ToolFault>
    requires begun { draft.old.bytes.items ≡ log_text (start ∷ []) }
    requires begun_len { draft.old.len ≡ length (log_text (start ∷ [])) }
    ensures printed { OnOk result (HasPrinted (begun seed count) draft.new.bytes.items
        (S.taken sink.old) (S.taken sink.new)) }
    ensures len { OnOk result (draft.new.len ≡ length (begun seed count)) }
    ensures short { OnOk result (draft.new.len ≤ 64 + 40 * count) }
    ensures stopped { IfErr result (λ e. HasStopped (generated seed count) e
        (S.taken sink.old) (S.taken sink.new)) }
    ensures no_read { IsErrOf result ToolFault.Read → ⊥ }
    ensures failed { IsErrOf result ToolFault.Write → Rose (S.faults sink.old) (S.faults sink.new) }
    ensures sink { IsLater S.faults S.aside sink.old sink.new }
{
    let mut draws = Pcg32::seed_from_u64(seed);
    for before in 0..u64::from(count) {
        let word = draws.next_word();
        put_value(draft, before + 1, word)?;
        draft.write_full(sink)?;
    }
    Ok(())
}

/// Puts a value. It takes no memory of its own.
fn put_value(draft: &mut Draft, time: u64, word: u32) -> Result<(), AllocError>
    requires { draft.old.len + 40 < 2 ^ 64 }
    ensures bytes { OnOk result (draft.new.bytes.items ≡ draft.old.bytes.items ++ value_record time word) }
    ensures len { OnOk result (draft.new.len ≡ draft.old.len + length (value_record time word)) }
    ensures short { length (value_record time word) ≤ 40 }
{
    let value = LogValue::Int64(i64::from(word));
    draft.put(&LogItem::Value { time, id: 1, value })
}

/// Puts the Finish behind so many values.
fn put_last(draft: &mut Draft, count: u32) -> Result<(), AllocError>
    requires { draft.old.len + 40 < 2 ^ 64 }
    ensures bytes { OnOk result (draft.new.bytes.items ≡ draft.old.bytes.items ++ last_record count) }
    ensures len { OnOk result (draft.new.len ≡ draft.old.len + length (last_record count)) }
{
    let time = u64::from(count) + 1;
    draft.put(&LogItem::Finish { time, id: 1 })
}
