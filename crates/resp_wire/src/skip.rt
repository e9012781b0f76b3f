//! What the value at the front is, where it is no request.

ghost use Rattle.std.specs.Prelude.{ℕ, List};
ghost use Rattle.resp_wire.specs.Data.{Items};
ghost use Rattle.resp_wire.specs.Gives.{byte_of};
ghost use Rattle.resp_wire.specs.Reading as reading;
ghost use Rattle.resp_wire.specs.Reading.{Reading, value_at, items_at, items_in, counted_bulk, counted_array};
ghost use Rattle.resp_wire.specs.LimitsModel.{LimitsModel};
ghost use Rattle.resp_wire.specs.Skipping.{IsSkipped, AreBulks, IsBehindBulk};

use crate::head::{body_at, length_of, line_at};
use crate::limits::Limits;
use crate::line::Kind;

/// A value that was passed over.
#[derive(Clone, Copy)]
pub enum Skipped {
    /// An empty or a null array.
    Empty,
    /// Another one that is no array of bulk strings.
    Other,
}

/// What is to be passed over, where the value at the front is whole: None where it is a request with words.
pub(crate) fn skipped_at(limits: &Limits, bytes: &[u8]) -> Option<Skipped>
    ensures { IsSkipped (value_at limits.now limits.now.depth bytes.now) result }
{
    match line_at(limits, bytes) {
        Ok(Some((kind, text, rest))) => skipped_after(limits, kind, text, rest),
        Ok(None) => None,
        Err(_) => None,
    }
}

fn skipped_after(limits: &Limits, kind: Kind, text: &[u8], rest: &[u8]) -> Option<Skipped>
    ensures { IsSkipped (reading.after_line limits.now (items_in limits.now limits.now.depth) (byte_of kind) text.now rest.now) result }
{
    match kind {
        Kind::Simple => Some(Skipped::Other),
        Kind::Error => Some(Skipped::Other),
        Kind::Integer => Some(Skipped::Other),
        Kind::Bulk => Some(Skipped::Other),
        Kind::Array => match length_of(text) {
            Ok(Some(len)) => skipped_array(limits, len, rest),
            Ok(None) => Some(Skipped::Empty),
            Err(_) => None,
        },
    }
}

fn skipped_array(limits: &Limits, len: usize, rest: &[u8]) -> Option<Skipped>
    ensures { IsSkipped (counted_array (items_in limits.now limits.now.depth) rest.now len) result }
{
    if len == 0 {
        return Some(Skipped::Empty);
    }
    if are_bulks(limits, len, rest) {
        return None;
    }
    Some(Skipped::Other)
}

/// Whether the first `len` values are bulk strings alone, where they are whole.
fn are_bulks(limits: &Limits, len: usize, bytes: &[u8]) -> bool
    ensures { (room : ℕ) → AreBulks (items_at (value_at limits.now room) len bytes.now) result }
{
    let mut rest = bytes;
    for _ in 0..len {
        match behind_bulk(limits, rest) {
            Some(after) => rest = after,
            None => return false,
        }
    }
    true
}

/// What follows the bulk string at the front: None where the value there is another one.
fn behind_bulk<'a>(limits: &Limits, bytes: &'a [u8]) -> Option<&'a [u8]>
    ensures { (room : ℕ) → IsBehindBulk (value_at limits.now room bytes.now) result }
{
    match line_at(limits, bytes) {
        Ok(Some((kind, text, rest))) => behind_line(kind, text, rest),
        Ok(None) => None,
        Err(_) => None,
    }
}

fn behind_line<'a>(kind: Kind, text: &[u8], rest: &'a [u8]) -> Option<&'a [u8]>
    ensures { (l : LimitsModel) (items : ℕ → List ℕ → Reading Items) → IsBehindBulk (reading.after_line l items (byte_of kind) text.now rest.now) result }
{
    match kind {
        Kind::Simple => None,
        Kind::Error => None,
        Kind::Integer => None,
        Kind::Bulk => match length_of(text) {
            Ok(Some(len)) => behind_body(len, rest),
            Ok(None) => None,
            Err(_) => None,
        },
        Kind::Array => None,
    }
}

fn behind_body(len: usize, rest: &[u8]) -> Option<&[u8]>
    ensures { (l : LimitsModel) → IsBehindBulk (counted_bulk l rest.now len) result }
{
    match body_at(rest, len) {
        Ok(Some((_, after))) => Some(after),
        Ok(None) => None,
        Err(_) => None,
    }
}
