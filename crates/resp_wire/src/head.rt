//! What a value begins with.

ghost use Rattle.std.specs.Prelude.{◌++◌, ℕ, Some, None};
ghost use Rattle.resp_wire.specs.Reading as reading;
ghost use Rattle.resp_wire.specs.Reading.{items_in, counted_bulk, counted_array};
ghost use Rattle.resp_wire.specs.Heads.{IsHead, IsHeadOf, IsBehind, IsFurther};
ghost use Rattle.resp_wire.specs.Gives.{LineGives, IsLineText, LengthIs, BodyGives, IsBehindLine, byte_of};

use crate::fault::WireFault;
use crate::limits::Limits;
use crate::line::{Kind, end_at, text_at};
use crate::number::{integer_in, length_in};

/// A whole value, or the line that begins an array.
pub(crate) enum Head<'a> {
    /// What follows the value.
    Whole(&'a [u8]),
    /// How many items come, and what follows the line.
    Array(usize, &'a [u8]),
}

/// A whole line: its kind, its text, and what follows it.
pub(crate) fn line_at<'a>(
    limits: &Limits,
    bytes: &'a [u8],
) -> Result<Option<(Kind, &'a [u8], &'a [u8])>, WireFault>
    ensures line { LineGives limits.now bytes.now result }
    ensures text { IsLineText result }
    ensures behind { IsBehindLine bytes.now result }
{
    let [first, more @ ..] = bytes else {
        return Ok(None);
    };
    let Some(kind) = Kind::of(*first) else {
        return Err(WireFault::BadType);
    };
    match text_at(more, limits.line()) {
        Ok(Some((text, rest))) => Ok(Some((kind, text, rest))),
        Ok(None) => Ok(None),
        Err(fault) => Err(fault),
    }
}

/// A length, or None for that of a null.
pub(crate) fn length_of(text: &[u8]) -> Result<Option<usize>, WireFault>
    ensures { LengthIs text.now result }
{
    if let b"-1" = text {
        return Ok(None);
    }
    match length_in(text) {
        Some(len) => Ok(Some(len)),
        None => Err(WireFault::BadNumber),
    }
}

/// The bytes of a bulk string, and what follows their CR and LF.
pub(crate) fn body_at(bytes: &[u8], len: usize) -> Result<Option<(&[u8], &[u8])>, WireFault>
    ensures { BodyGives result (reading.body_at len bytes.now) }
{
    if bytes.len() < len {
        return Ok(None);
    }
    let (body, after) = bytes.split_at(len);
    match end_at(after) {
        Ok(Some(rest)) => Ok(Some((body, rest))),
        Ok(None) => Ok(None),
        Err(fault) => Err(fault),
    }
}

/// What the value at the front begins with, where `room` arrays may still stand one inside another.
pub(crate) fn head_at<'a>(
    limits: &Limits,
    room: usize,
    bytes: &'a [u8],
) -> Result<Option<Head<'a>>, WireFault>
    ensures head { IsHead limits.now room bytes.now result }
    ensures further { IsFurther bytes.now result }
{
    match line_at(limits, bytes) {
        Ok(Some((kind, text, rest))) => after_line(limits, room, kind, text, rest),
        Ok(None) => Ok(None),
        Err(fault) => Err(fault),
    }
}

fn after_line<'a>(
    limits: &Limits,
    room: usize,
    kind: Kind,
    text: &[u8],
    rest: &'a [u8],
) -> Result<Option<Head<'a>>, WireFault>
    ensures behind { IsBehind rest.now result }
    ensures head { IsHeadOf limits.now room result
        (λ more. reading.after_line limits.now (items_in limits.now room) (byte_of kind) text.now (rest.now ++ more)) }
{
    match kind {
        Kind::Simple => Ok(Some(Head::Whole(rest))),
        Kind::Error => Ok(Some(Head::Whole(rest))),
        Kind::Integer => match integer_in(text) {
            Some(_) => Ok(Some(Head::Whole(rest))),
            None => Err(WireFault::BadNumber),
        },
        Kind::Bulk => match length_of(text) {
            Ok(Some(len)) => after_bulk_length(limits, len, rest),
            Ok(None) => Ok(Some(Head::Whole(rest))),
            Err(fault) => Err(fault),
        },
        Kind::Array => match length_of(text) {
            Ok(Some(len)) => after_array_length(limits, room, len, rest),
            Ok(None) => Ok(Some(Head::Whole(rest))),
            Err(fault) => Err(fault),
        },
    }
}

fn after_bulk_length<'a>(
    limits: &Limits,
    len: usize,
    rest: &'a [u8],
) -> Result<Option<Head<'a>>, WireFault>
    ensures behind { IsBehind rest.now result }
    ensures head { (room : ℕ) → IsHeadOf limits.now room result (λ more. counted_bulk limits.now (rest.now ++ more) len) }
{
    if len > limits.bulk() {
        return Err(WireFault::TooLong);
    }
    match body_at(rest, len) {
        Ok(Some((_, after))) => Ok(Some(Head::Whole(after))),
        Ok(None) => Ok(None),
        Err(fault) => Err(fault),
    }
}

fn after_array_length<'a>(
    limits: &Limits,
    room: usize,
    len: usize,
    rest: &'a [u8],
) -> Result<Option<Head<'a>>, WireFault>
    ensures behind { IsBehind rest.now result }
    ensures head { IsHeadOf limits.now room result
        (λ more. counted_array (items_in limits.now room) (rest.now ++ more) len) }
{
    if room == 0 {
        return Err(WireFault::TooDeep);
    }
    if len > limits.items() {
        return Err(WireFault::TooMany);
    }
    Ok(Some(Head::Array(len, rest)))
}
