//! A value from its bytes.

ghost use Rattle.std.specs.Prelude.{IsTrue};
ghost use Rattle.resp_wire.specs.Text.{is_one_line};
ghost use Rattle.resp_wire.specs.Seen.{data_of, items_view};
ghost use Rattle.resp_wire.specs.Bodies.{AreEndOf};
ghost use Rattle.resp_wire.specs.Gives.{Builds, byte_of};
ghost use Rattle.resp_wire.specs.Reading as reading;
ghost use Rattle.resp_wire.specs.Reading.{value_at, items_at, items_in, counted_array};

use crate::bodies::Bodies;
use crate::fault::WireFault;
use crate::head::{body_at, length_of, line_at};
use crate::limits::Limits;
use crate::line::Kind;
use crate::number::integer_in;
use crate::text::Line;
use crate::value::{Value, Values};
use std::alloc::Global;

/// The bytes of the shortest value: an empty line of its kind.
const LEAST_VALUE_BYTES: usize = 3;

/// What values are built with.
#[derive(Drop)]
pub(crate) struct Building<'a> {
    pub(crate) alloc: Global,
    pub(crate) limits: Limits,
    pub(crate) bodies: Bodies<'a>,
}

/// The value at the front, and what follows it, where `room` arrays may still stand one inside another.
#[cycle(build)]
pub(crate) fn build<'a>(
    how: &Building<'_>,
    room: usize,
    bytes: &'a [u8],
) -> Result<Option<(Value, &'a [u8])>, WireFault>
    requires { AreEndOf bytes.now how.now.bodies }
    ensures { Builds data_of result (value_at how.now.limits room bytes.now) }
{
    match line_at(&how.limits, bytes) {
        Ok(Some((kind, text, rest))) => build_after(how, room, kind, text, rest),
        Ok(None) => Ok(None),
        Err(fault) => Err(fault),
    }
}

/// The value that a line of this kind and text begins.
#[cycle(build)]
fn build_after<'a>(
    how: &Building<'_>,
    room: usize,
    kind: Kind,
    text: &[u8],
    rest: &'a [u8],
) -> Result<Option<(Value, &'a [u8])>, WireFault>
    requires text { IsTrue (is_one_line text.now) }
    requires end { AreEndOf rest.now how.now.bodies }
    ensures { Builds data_of result
        (reading.after_line how.now.limits (items_in how.now.limits room) (byte_of kind) text.now rest.now) }
{
    match kind {
        Kind::Simple => match Line::from_text(how.alloc, text) {
            Ok(line) => Ok(Some((Value::Simple(line), rest))),
            Err(_) => Err(WireFault::NoMemory),
        },
        Kind::Error => match Line::from_text(how.alloc, text) {
            Ok(line) => Ok(Some((Value::Error(line), rest))),
            Err(_) => Err(WireFault::NoMemory),
        },
        Kind::Integer => match integer_in(text) {
            Some(number) => Ok(Some((Value::Integer(number), rest))),
            None => Err(WireFault::BadNumber),
        },
        Kind::Bulk => match length_of(text) {
            Ok(Some(len)) => build_bulk(how, len, rest),
            Ok(None) => Ok(Some((Value::NullBulk, rest))),
            Err(fault) => Err(fault),
        },
        Kind::Array => match length_of(text) {
            Ok(Some(len)) => build_array(how, room, len, rest),
            Ok(None) => Ok(Some((Value::NullArray, rest))),
            Err(fault) => Err(fault),
        },
    }
}

/// A bulk string of `len` bytes.
fn build_bulk<'a>(
    how: &Building<'_>,
    len: usize,
    rest: &'a [u8],
) -> Result<Option<(Value, &'a [u8])>, WireFault>
    requires { AreEndOf rest.now how.now.bodies }
    ensures { Builds data_of result (reading.counted_bulk how.now.limits rest.now len) }
{
    if len > how.limits.bulk() {
        return Err(WireFault::TooLong);
    }
    match body_at(rest, len) {
        Ok(Some((_, after))) => match how.bodies.body(how.alloc, rest, len) {
            Ok(bytes) => Ok(Some((Value::Bulk(bytes), after))),
            Err(_) => Err(WireFault::NoMemory),
        },
        Ok(None) => Ok(None),
        Err(fault) => Err(fault),
    }
}

/// An array of `count` items.
#[cycle(build)]
fn build_array<'a>(
    how: &Building<'_>,
    room: usize,
    len: usize,
    rest: &'a [u8],
) -> Result<Option<(Value, &'a [u8])>, WireFault>
    requires { AreEndOf rest.now how.now.bodies }
    ensures { Builds data_of result (counted_array (items_in how.now.limits room) rest.now len) }
{
    if room == 0 {
        return Err(WireFault::TooDeep);
    }
    if len > how.limits.items() {
        return Err(WireFault::TooMany);
    }
    match build_items(how, room - 1, len, rest) {
        Ok(Some((items, after))) => Ok(Some((Value::Array(Values::new(items)), after))),
        Ok(None) => Ok(None),
        Err(fault) => Err(fault),
    }
}

/// `len` values, one after another. Their room is made at once, but for no more than the bytes can spell.
#[cycle(build)]
fn build_items<'a>(
    how: &Building<'_>,
    room: usize,
    len: usize,
    bytes: &'a [u8],
) -> Result<Option<(Vec<Value>, &'a [u8])>, WireFault>
    requires { AreEndOf bytes.now how.now.bodies }
    ensures { Builds items_view result (items_at (value_at how.now.limits room) len bytes.now) }
{
    let most = bytes.len() / LEAST_VALUE_BYTES;
    let Ok(mut items) = Vec::with_capacity(how.alloc, len.min(most)) else {
        return Err(WireFault::NoMemory);
    };
    let mut rest = bytes;
    for _ in 0..len {
        match build(how, room, rest) {
            Ok(Some((value, after))) => match items.push(value) {
                Ok(()) => rest = after,
                Err(_) => return Err(WireFault::NoMemory),
            },
            Ok(None) => return Ok(None),
            Err(fault) => return Err(fault),
        }
    }
    Ok(Some((items, rest)))
}
