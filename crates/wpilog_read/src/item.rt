//! What a whole record says.

ghost use Rattle.std.specs.Prelude.{◌≡◌};
ghost use Rattle.wpilog_write.specs.Log.{Fields, is_live};
ghost use Rattle.wpilog_read.specs.Reading.{Gives, StartFields, start_fields, start_of, finish_of, set_meta_of, control_of, value_of, item_of};

use crate::fault::{LogKind, ReadError, Stop};
use crate::field::{Record, SHORT, refuse_if, string_of, text_from, u32_of};
use crate::value::value_of_type;
use std::alloc::Global;
use wpilog_write::{Entries, LogItem};

/// The most entries that are live at a time.
const MOST_LIVE: usize = 65_536;

/// The fields of a Start record, after its first byte ("Start").
#[derive(Clone, Copy)]
struct StartRecord<'a> {
    id: u32,
    name: &'a [u8],
    typ: &'a [u8],
    meta: &'a [u8],
}

#[tactic(auto, unfolding(crate::specs::Reading::start_fields))]
fn start_record(bytes: &[u8]) -> Result<StartRecord<'_>, ReadError>
    ensures { Gives
        (λ x. record { id = x.id; name = x.name.now; typ = x.typ.now; meta = x.meta.now })
        result (start_fields bytes.now) }
{
    let (id, rest) = u32_of(SHORT, 4, bytes)?;
    let (name, rest) = string_of(SHORT, rest)?;
    let (typ, rest) = string_of(SHORT, rest)?;
    let (meta, rest) = string_of(SHORT, rest)?;
    refuse_if(!rest.is_empty(), LogKind::ControlLong)?;
    Ok(StartRecord {
        id,
        name,
        typ,
        meta,
    })
}

/// An entry begins ("Start").
#[tactic(auto, unfolding(crate::specs::Reading::start_of))]
fn start_from(alloc: Global, live: &Entries, time: u64, bytes: &[u8]) -> Result<LogItem, ReadError>
    ensures { Gives (λ x. x) result (start_of live.now.entries time bytes.now) }
{
    let start = start_record(bytes)?;
    let name = text_from(alloc, start.name)?;
    let typ = text_from(alloc, start.typ)?;
    let meta = text_from(alloc, start.meta)?;
    refuse_if(start.id == 0, LogKind::IdZero)?;
    refuse_if(live.contains_key(&start.id), LogKind::StartTwice)?;
    refuse_if(live.len() >= MOST_LIVE, LogKind::TooManyLive)?;
    Ok(LogItem::Start {
        time,
        id: start.id,
        name,
        typ,
        meta,
    })
}

/// An entry ends ("Finish").
#[tactic(auto, unfolding(crate::specs::Reading::finish_of))]
fn finish_from(live: &Entries, time: u64, bytes: &[u8]) -> Result<LogItem, ReadError>
    ensures { Gives (λ x. x) result (finish_of live.now.entries time bytes.now) }
{
    let (id, rest) = u32_of(SHORT, 4, bytes)?;
    refuse_if(!rest.is_empty(), LogKind::ControlLong)?;
    refuse_if(!live.contains_key(&id), LogKind::NotLive)?;
    Ok(LogItem::Finish { time, id })
}

/// An entry's metadata changes ("Set Metadata").
#[tactic(auto, unfolding(crate::specs::Reading::set_meta_of))]
fn set_meta_from(
    alloc: Global,
    live: &Entries,
    time: u64,
    bytes: &[u8],
) -> Result<LogItem, ReadError>
    ensures { Gives (λ x. x) result (set_meta_of live.now.entries time bytes.now) }
{
    let (id, rest) = u32_of(SHORT, 4, bytes)?;
    let (meta, rest) = string_of(SHORT, rest)?;
    refuse_if(!rest.is_empty(), LogKind::ControlLong)?;
    let meta = text_from(alloc, meta)?;
    refuse_if(!live.contains_key(&id), LogKind::NotLive)?;
    Ok(LogItem::SetMeta { time, id, meta })
}

/// What a record of entry 0 says ("Control Records").
#[tactic(auto, unfolding(crate::specs::Reading::control_of))]
fn control_from(
    alloc: Global,
    live: &Entries,
    time: u64,
    payload: &[u8],
) -> Result<LogItem, ReadError>
    ensures { Gives (λ x. x) result (control_of live.now.entries time payload.now) }
{
    let [kind, rest @ ..] = payload else {
        return Err(ReadError::Stop(SHORT));
    };
    match *kind {
        0 => start_from(alloc, live, time, rest),
        1 => finish_from(live, time, rest),
        2 => set_meta_from(alloc, live, time, rest),
        _ => Err(ReadError::Stop(Stop::Known(LogKind::UnknownControl))),
    }
}

/// A live entry takes a value.
#[inline]
#[tactic(auto, unfolding(crate::specs::Reading::value_of))]
fn value_from(
    alloc: Global,
    live: &Entries,
    time: u64,
    id: u32,
    payload: &[u8],
) -> Result<LogItem, ReadError>
    ensures { Gives (λ x. x) result (value_of live.now.entries time id payload.now) }
{
    let Some(typ) = live.get(&id) else {
        return Err(ReadError::Stop(Stop::Known(LogKind::NotLive)));
    };
    let value = value_of_type(alloc, *typ, payload)?;
    Ok(LogItem::Value { time, id, value })
}

/// What a whole record says where these entries are live.
#[tactic(auto, unfolding(crate::specs::Reading::item_of))]
pub fn item_from(alloc: Global, live: &Entries, fields: &Record<'_>) -> Result<LogItem, ReadError>
    ensures { Gives (λ x. x) result (item_of live.now.entries
        (record { entry = fields.now.entry; time = fields.now.time; payload = fields.now.payload.now })) }
{
    if fields.entry == 0 {
        control_from(alloc, live, fields.time, fields.payload)
    } else {
        value_from(alloc, live, fields.time, fields.entry, fields.payload)
    }
}
