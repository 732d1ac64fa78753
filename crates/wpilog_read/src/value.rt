//! The values of payloads.

ghost use Rattle.std.specs.Prelude.{◌≡◌, ◌/◌, ◌<◌, length, map, IfOk};
ghost use Rattle.std.specs.Int.{w64, cast_signed};
ghost use Rattle.wpilog_read.specs.Reading.{Gives, numbers, boolean_of, booleans_of, strings_at, strings_of, one_boolean, typed_value};

use crate::fault::{LogKind, ReadError, Stop};
use crate::field::{number_of, refuse_if, short_number_of, string_of, u32_of};
use nt_values::{Bools, Bytes, Doubles, Floats, Ints};
use std::alloc::{AllocError, Global};
use wpilog_write::{ByteTexts, LogType, LogValue};

/// The payload is none of its entry's type.
const MISFIT: Stop = Stop::Known(LogKind::Misfit);

/// A truth value.
#[inline]
#[tactic(auto, unfolding(crate::specs::Reading::boolean_of))]
fn boolean_from(byte: u8) -> Result<bool, ReadError>
    ensures { Gives (λ x. x) result (boolean_of byte) }
{
    match byte {
        0 => Ok(false),
        1 => Ok(true),
        _ => Err(ReadError::Stop(MISFIT)),
    }
}

/// Truth values, one after another.
fn booleans_from(alloc: Global, payload: &[u8]) -> Result<Bools, ReadError>
    ensures { Gives (λ x. x) result (booleans_of payload.now) }
{
    let mut truths = Vec::new(alloc);
    for byte in payload {
        let truth = boolean_from(*byte)?;
        match truths.push(truth) {
            Ok(()) => {}
            Err(e) => return Err(AllocError::from(e).into()),
        }
    }
    Ok(Bools::of_vec(truths))
}

/// Whole numbers, one after another.
fn ints_from(alloc: Global, payload: &[u8]) -> Result<Ints, AllocError>
    ensures { IfOk result (λ list.
        list ≡ map (cast_signed w64) (numbers 8 (length payload.now / 8) payload.now)) }
{
    let mut all = Vec::new(alloc);
    let mut rest = payload;
    while rest.len() >= 8 {
        let (word, after) = rest.split_at(8);
        all.push(number_of(word).cast_signed())?;
        rest = after;
    }
    Ok(Ints::of_vec(all))
}

/// The bit patterns of doubles, one after another.
fn doubles_from(alloc: Global, payload: &[u8]) -> Result<Doubles, AllocError>
    ensures { IfOk result (λ list. list ≡ numbers 8 (length payload.now / 8) payload.now) }
{
    let mut all = Vec::new(alloc);
    let mut rest = payload;
    while rest.len() >= 8 {
        let (word, after) = rest.split_at(8);
        all.push(number_of(word))?;
        rest = after;
    }
    Ok(Doubles::of_vec(all))
}

/// The bit patterns of floats, one after another.
fn floats_from(alloc: Global, payload: &[u8]) -> Result<Floats, AllocError>
    ensures { IfOk result (λ list. list ≡ numbers 4 (length payload.now / 4) payload.now) }
{
    let mut all = Vec::new(alloc);
    let mut rest = payload;
    while rest.len() >= 4 {
        let (word, after) = rest.split_at(4);
        all.push(short_number_of(word) as u32)?;
        rest = after;
    }
    Ok(Floats::of_vec(all))
}

/// Texts after their count.
#[tactic(auto, unfolding(crate::specs::Reading::strings_of))]
fn strings_from(alloc: Global, payload: &[u8]) -> Result<ByteTexts, ReadError>
    ensures { Gives (λ x. x) result (strings_of payload.now) }
{
    let (count, after) = u32_of(MISFIT, 4, payload)?;
    let mut texts = Vec::new(alloc);
    let mut rest = after;
    for _ in 0..count {
        let (text, after) = string_of(MISFIT, rest)?;
        let text = Bytes::of(alloc, text)?;
        match texts.push(text) {
            Ok(()) => {}
            Err(e) => return Err(AllocError::from(e).into()),
        }
        rest = after;
    }
    refuse_if(!rest.is_empty(), LogKind::Misfit)?;
    Ok(ByteTexts::of_vec(texts))
}

/// A value of this type ("Data Types").
#[tactic(auto, unfolding(crate::specs::Reading::typed_value, crate::specs::Reading::one_boolean))]
pub fn value_of_type(alloc: Global, typ: LogType, payload: &[u8]) -> Result<LogValue, ReadError>
    ensures { Gives (λ x. x) result (typed_value typ payload.now) }
{
    let len = payload.len();
    match typ {
        LogType::Boolean => match payload {
            [byte] => Ok(LogValue::Boolean(boolean_from(*byte)?)),
            _ => Err(ReadError::Stop(MISFIT)),
        },
        LogType::Int64 => {
            refuse_if(len != 8, LogKind::Misfit)?;
            Ok(LogValue::Int64(number_of(payload).cast_signed()))
        }
        LogType::Float => {
            refuse_if(len != 4, LogKind::Misfit)?;
            Ok(LogValue::Float(short_number_of(payload) as u32))
        }
        LogType::Double => {
            refuse_if(len != 8, LogKind::Misfit)?;
            Ok(LogValue::Double(number_of(payload)))
        }
        LogType::Booleans => Ok(LogValue::Booleans(booleans_from(alloc, payload)?)),
        LogType::Int64s => {
            refuse_if(len % 8 != 0, LogKind::Misfit)?;
            Ok(LogValue::Int64s(ints_from(alloc, payload)?))
        }
        LogType::Floats => {
            refuse_if(len % 4 != 0, LogKind::Misfit)?;
            Ok(LogValue::Floats(floats_from(alloc, payload)?))
        }
        LogType::Doubles => {
            refuse_if(len % 8 != 0, LogKind::Misfit)?;
            Ok(LogValue::Doubles(doubles_from(alloc, payload)?))
        }
        LogType::Strings => Ok(LogValue::Strings(strings_from(alloc, payload)?)),
        LogType::Other => Ok(LogValue::Bytes(Bytes::of(alloc, payload)?)),
    }
}
