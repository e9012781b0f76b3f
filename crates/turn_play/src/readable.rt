//! Which values whoever reads within the largest limits can read.

ghost use Rattle.std.specs.Prelude.{◌≡◌, ◌↔◌, All, FitsSigned, IsTrue, ℕ, suc};
ghost use Rattle.std.specs.Int.{w64};
ghost use Rattle.resp_wire.specs.Data.{array, error, integer, items_of, simple};
ghost use Rattle.resp_wire.specs.Seen.{data_of};
ghost use Rattle.turn_play.specs.Answering.{CanBeSpelled, IsReadable};

use resp_wire::{Line, Value, Values};
use std::collections::VecDeque;

/// The largest bulk string.
const MOST_BYTES: usize = 536_870_912;

/// The longest line.
const LONGEST_LINE: usize = 65_536;

/// The most items of an array.
const MOST_ITEMS: usize = 1_048_576;

/// How many arrays may stand one inside another.
const MOST_DEPTH: usize = 8;

/// Whether all the values can be read.
pub(crate) fn are_readable(values: &VecDeque<Value>) -> bool
    ensures { IsTrue result ↔ All IsReadable values.now.items }
{
    for at in 0..values.len() {
        if !is_readable(&values[at], MOST_DEPTH) {
            return false;
        }
    }
    true
}

/// Whether the value can be read where so many arrays may stand one inside another.
#[cycle(readable)]
fn is_readable(value: &Value, room: usize) -> bool
    ensures { IsTrue result ↔ CanBeSpelled room (data_of value.now) }
{
    match value {
        Value::Simple(line) => is_short(line),
        Value::Error(line) => is_short(line),
        Value::Integer(number) => is_number(number),
        Value::Bulk(bytes) => bytes.as_slice().len() <= MOST_BYTES,
        Value::NullBulk => true,
        Value::Array(items) => room > 0 && has_short_items(items, room - 1),
        Value::NullArray => true,
    }
}

/// The same of the items of an array, which are not too many.
#[cycle(readable)]
fn has_short_items(items: &Values, room: usize) -> bool
    ensures { IsTrue result ↔ CanBeSpelled (suc room) (array (items_of items.now)) }
{
    if items.as_slice().len() > MOST_ITEMS {
        return false;
    }
    for item in items.as_slice() {
        if !is_readable(item, room) {
            return false;
        }
    }
    true
}

fn is_short(line: &Line) -> bool
    ensures simple { (room : ℕ) → IsTrue result ↔ CanBeSpelled room (simple line.now) }
    ensures error { (room : ℕ) → IsTrue result ↔ CanBeSpelled room (error line.now) }
{
    line.bytes().len() <= LONGEST_LINE
}

/// Each number can be read, since it has 64 bits.
fn is_number(number: &i64) -> bool
    ensures { (room : ℕ) → IsTrue result ↔ CanBeSpelled room (integer number.now) }
{
    let _ = number_at(number);
    true
}

fn number_at(number: &i64) -> i64
    ensures value { result ≡ number.now }
    ensures range { FitsSigned w64 result }
{
    *number
}
