//! Fields of a record, read from the beginning of bytes.

ghost use Rattle.std.specs.Prelude.{◌≡◌, ◌<◌, ◌≤◌, ◌^◌, length};
ghost use Rattle.wpilog_write.specs.Log.{number, Head as HeadFields, Fields};
ghost use Rattle.wpilog_read.specs.Reading.{Gives, unless, bytes_at, number_at, header_at, head_at, record_at, string_at, text_of};

use crate::fault::{LogKind, ReadError, Stop};
use nt_values::Text;
use std::alloc::Global;
use wpilog_write::Entries;

/// The payload of a control record ends before its fields do.
pub const SHORT: Stop = Stop::Known(LogKind::ControlShort);

/// The most bytes of a payload, and of an extra header.
const MOST_BYTES: u32 = 16_777_216;

/// What begins each log ("Header").
const MAGIC: [u8; 6] = [87, 80, 73, 76, 79, 71];

/// The head of a record ("Records").
#[derive(Clone, Copy)]
struct Head {
    entry: u32,
    size: u32,
    time: u64,
}

/// A record by its fields ("Records").
#[derive(Clone, Copy)]
pub struct Record<'a> {
    pub entry: u32,
    pub time: u64,
    pub payload: &'a [u8],
}

/// Goes on only where the test does not hold.
#[inline]
pub fn refuse_if(test: bool, kind: LogKind) -> Result<(), ReadError>
    ensures { Gives (λ x. x) result (unless test kind) }
{
    if test {
        return Err(ReadError::Stop(Stop::Known(kind)));
    }
    Ok(())
}

/// The number that at most 4 bytes spell, the least byte first ("Design").
#[inline]
pub fn short_number_of(bytes: &[u8]) -> u64
    requires { length bytes.now ≤ 4 }
    ensures value { result ≡ number bytes.now }
    ensures small { result < 2 ^ 32 }
{
    match bytes {
        [] => 0,
        [a] => u64::from(*a),
        [a, b] => u64::from(*a) + 256 * u64::from(*b),
        [a, b, c] => u64::from(*a) + 256 * (u64::from(*b) + 256 * u64::from(*c)),
        [a, b, c, d, ..] => {
            u64::from(*a) + 256 * (u64::from(*b) + 256 * (u64::from(*c) + 256 * u64::from(*d)))
        }
    }
}

/// The number that at most 8 bytes spell, the least byte first ("Design").
#[inline]
pub fn number_of(bytes: &[u8]) -> u64
    requires { length bytes.now ≤ 8 }
    ensures { result ≡ number bytes.now }
{
    match bytes {
        [a, b, c, d, rest @ ..] => {
            let high = u64::from(*d) + 256 * short_number_of(rest);
            u64::from(*a) + 256 * (u64::from(*b) + 256 * (u64::from(*c) + 256 * high))
        }
        _ => short_number_of(bytes),
    }
}

/// So many bytes, and those after them. `stop` says what a missing byte means.
#[inline]
fn bytes_of(stop: Stop, len: usize, bytes: &[u8]) -> Result<(&[u8], &[u8]), ReadError>
    ensures { Gives (λ x. (x.0.now, x.1.now)) result (bytes_at stop len bytes.now) }
{
    if bytes.len() < len {
        return Err(ReadError::Stop(stop));
    }
    Ok(bytes.split_at(len))
}

/// A number of at most 8 bytes, and the bytes after it.
#[inline]
#[tactic(auto, unfolding(crate::specs::Reading::number_at))]
fn u64_of(stop: Stop, len: usize, bytes: &[u8]) -> Result<(u64, &[u8]), ReadError>
    requires { len ≤ 8 }
    ensures { Gives (λ x. (x.0, x.1.now)) result (number_at stop len bytes.now) }
{
    let (field, rest) = bytes_of(stop, len, bytes)?;
    Ok((number_of(field), rest))
}

/// A number of at most 4 bytes, and the bytes after it.
#[inline]
#[tactic(auto, unfolding(crate::specs::Reading::number_at))]
pub fn u32_of(stop: Stop, len: usize, bytes: &[u8]) -> Result<(u32, &[u8]), ReadError>
    requires { len ≤ 4 }
    ensures { Gives (λ x. (x.0, x.1.now)) result (number_at stop len bytes.now) }
{
    let (field, rest) = bytes_of(stop, len, bytes)?;
    Ok((short_number_of(field) as u32, rest))
}

/// The extra header, and the bytes after it ("Header").
#[tactic(auto, unfolding(crate::specs::Reading::header_at))]
pub fn header_of(bytes: &[u8]) -> Result<(&[u8], &[u8]), ReadError>
    ensures { Gives (λ x. (x.0.now, x.1.now)) result (header_at bytes.now) }
{
    let agrees = MAGIC.starts_with(&bytes[..bytes.len().min(6)]);
    refuse_if(!agrees, LogKind::BadMagic)?;
    let (begin, rest) = bytes_of(Stop::Wanting, 8, bytes)?;
    refuse_if(begin[7] != 1, LogKind::BadVersion)?;
    let (len, rest) = u32_of(Stop::Wanting, 4, rest)?;
    refuse_if(len > MOST_BYTES, LogKind::TooLarge)?;
    bytes_of(Stop::Wanting, len as usize, rest)
}

/// The head of a record, and the bytes after it ("Records").
#[tactic(auto, unfolding(crate::specs::Reading::head_at))]
fn head_of(bytes: &[u8]) -> Result<(Head, &[u8]), ReadError>
    ensures { Gives
        (λ x. (record { entry = x.0.entry; size = x.0.size; time = x.0.time }, x.1.now))
        result (head_at bytes.now) }
{
    let [first, rest @ ..] = bytes else {
        return Err(ReadError::Stop(Stop::Wanting));
    };
    let bitfield = *first as usize;
    refuse_if(bitfield >= 128, LogKind::SpareBit)?;
    let (entry, rest) = u32_of(Stop::Wanting, bitfield % 4 + 1, rest)?;
    let (size, rest) = u32_of(Stop::Wanting, bitfield / 4 % 4 + 1, rest)?;
    let (time, rest) = u64_of(Stop::Wanting, bitfield / 16 % 8 + 1, rest)?;
    Ok((Head { entry, size, time }, rest))
}

/// A record, and the bytes after it ("Records").
#[tactic(auto, unfolding(crate::specs::Reading::record_at))]
pub fn record_of<'a>(live: &Entries, bytes: &'a [u8]) -> Result<(Record<'a>, &'a [u8]), ReadError>
    ensures { Gives
        (λ x. (record { entry = x.0.entry; time = x.0.time; payload = x.0.payload.now }, x.1.now))
        result (record_at live.now.entries bytes.now) }
{
    let (head, rest) = head_of(bytes)?;
    refuse_if(head.size > MOST_BYTES, LogKind::TooLarge)?;
    refuse_if(
        head.entry != 0 && !live.contains_key(&head.entry),
        LogKind::NotLive,
    )?;
    let (payload, rest) = bytes_of(Stop::Wanting, head.size as usize, rest)?;
    let record = Record {
        entry: head.entry,
        time: head.time,
        payload,
    };
    Ok((record, rest))
}

/// Bytes after their length, and the bytes after them ("Design").
#[tactic(auto, unfolding(crate::specs::Reading::string_at))]
pub fn string_of(stop: Stop, bytes: &[u8]) -> Result<(&[u8], &[u8]), ReadError>
    ensures { Gives (λ x. (x.0.now, x.1.now)) result (string_at stop bytes.now) }
{
    let (len, rest) = u32_of(stop, 4, bytes)?;
    bytes_of(stop, len as usize, rest)
}

/// These bytes as a text.
#[tactic(auto, unfolding(crate::specs::Reading::text_of))]
pub fn text_from(alloc: Global, bytes: &[u8]) -> Result<Text, ReadError>
    ensures { Gives (λ t. t) result (text_of bytes.now) }
{
    match str::from_utf8(bytes) {
        Ok(text) => Ok(Text::of(alloc, text)?),
        Err(_) => Err(ReadError::Stop(Stop::Known(LogKind::BadText))),
    }
}
