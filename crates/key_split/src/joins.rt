//! The reply that the ends of a request's parts become.

ghost use Rattle.std.specs.Prelude.{◌≡◌, ◌==◌, ◌<◌, All, drop, option_map, IfOk, length, map, [], ◌+ℤ◌, FitsSigned, IfSome, slice_index_or};
ghost use Rattle.std.specs.Int.{w64, w128};
ghost use Rattle.std.specs.List.{find, list_all, slice_get};
ghost use Rattle.resp_wire.specs.Seen.{data_of};
ghost use Rattle.key_split.specs.Woven.{advanced, woven};
ghost use Rattle.key_split.specs.Join.{arrays_in, bulks_in, CanJoin, integer_in, is_bulk, woven_reply, is_error, total_in_range, is_ok_line, join_of, joined, reply_of, unexpected};

use crate::lines::{error_line, simple_line};
use crate::planned::Joining;
use crate::travel::Ended;
use resp_wire::{NoMemory, Value, Values};
use std::alloc::Global;

/// The reply to a request, from the ends of its parts in order.
pub fn join(alloc: Global, joining: &Joining, ends: &[Ended]) -> Result<Value, NoMemory>
    requires { CanJoin joining.now (length ends.now) }
    ensures { IfOk result (λ reply. reply ≡ join_of joining.now ends.now) }
{
    if let Some(end) = first_error(ends) {
        return reply_of(alloc, end);
    }
    match joining {
        Joining::One => reply_of(alloc, &ends[0]),
        Joining::Array(places) => array(alloc, places.as_slice(), ends),
        Joining::AllOk => all_ok(alloc, ends),
        Joining::Sum => sum(alloc, ends),
    }
}

/// The reply of a part.
fn reply_of(alloc: Global, end: &Ended) -> Result<Value, NoMemory>
    ensures { IfOk result (λ reply. reply ≡ reply_of end.now) }
{
    match end {
        Ended::Answered(value) => value.copy(alloc),
        Ended::GaveUp => error_line(alloc, b"ERR proxy: gave up, not executed"),
        Ended::Lost => error_line(alloc, b"ERR proxy: connection lost, outcome unknown"),
    }
}

/// Whether the reply of a part is an error.
fn is_error(end: &Ended) -> bool
    ensures { result ≡ is_error (reply_of end.now) }
{
    match end {
        Ended::Answered(value) => matches!(value, Value::Error(_)),
        Ended::GaveUp | Ended::Lost => true,
    }
}

fn unexpected(alloc: Global) -> Result<Value, NoMemory>
    ensures { IfOk result (λ reply. reply ≡ unexpected) }
{
    error_line(alloc, b"ERR proxy: unexpected reply")
}

/// The first end whose reply is an error.
fn first_error(ends: &[Ended]) -> Option<&Ended>
    ensures { option_map (λ end. reply_of end.now) result ≡ find is_error (map reply_of ends.now) }
{
    let mut rest = ends;
    while let [end, later @ ..] = rest {
        if is_error(end) {
            return Some(end);
        }
        rest = later;
    }
    None
}

/// The items of the arrays that the ends were answered with, each number's next item in turn.
fn array(alloc: Global, numbers: &[u32], ends: &[Ended]) -> Result<Value, NoMemory>
    requires { All (λ number. number < length ends.now) numbers.now }
    ensures { IfOk result (λ reply. reply ≡ woven_reply numbers.now (arrays_in (map reply_of ends.now))) }
{
    let Some(lists) = arrays_in(alloc, ends)? else {
        return unexpected(alloc);
    };
    match woven(alloc, numbers, lists)? {
        Some(items) => Ok(Value::Array(Values::new(items))),
        None => unexpected(alloc),
    }
}

/// The arrays that the ends were answered with, where all are of bulk strings and nulls.
fn arrays_in<'a>(alloc: Global, ends: &'a [Ended]) -> Result<Option<Vec<&'a [Value]>>, NoMemory>
    ensures value { IfOk result (λ given. option_map (λ lists. map (λ list. map data_of list.now) lists.items) given ≡ arrays_in (map reply_of ends.now)) }
    ensures count { IfOk result (λ given. IfSome given (λ lists. length lists.items ≡ length ends.now)) }
{
    let mut lists = Vec::new(alloc);
    let mut rest = ends;
    while let [end, later @ ..] = rest {
        let Some(items) = bulks_in(end) else {
            return Ok(None);
        };
        lists.push(items)?;
        rest = later;
    }
    Ok(Some(lists))
}

fn bulks_in(end: &Ended) -> Option<&[Value]>
    ensures { option_map (λ items. map data_of items.now) result ≡ bulks_in (reply_of end.now) }
{
    match end {
        Ended::Answered(Value::Array(items)) => {
            let items = items.as_slice();
            if are_bulks(items) { Some(items) } else { None }
        }
        Ended::Answered(_) | Ended::GaveUp | Ended::Lost => None,
    }
}

fn are_bulks(items: &[Value]) -> bool
    ensures { result ≡ list_all is_bulk (map data_of items.now) }
{
    let mut rest = items;
    while let [item, later @ ..] = rest {
        if !is_bulk(item) {
            return false;
        }
        rest = later;
    }
    true
}

fn is_bulk(value: &Value) -> bool
    ensures { result ≡ is_bulk (data_of value.now) }
{
    matches!(value, Value::Bulk(_) | Value::NullBulk)
}

/// For each number the next item of the list at that place, where this takes all the items.
fn woven(
    alloc: Global,
    numbers: &[u32],
    mut lists: Vec<&[Value]>,
) -> Result<Option<Vec<Value>>, NoMemory>
    requires { All (λ number. number < length lists.items) numbers.now }
    ensures { IfOk result (λ given. option_map (λ items. map data_of items.items) given ≡ woven numbers.now (map (λ list. map data_of list.now) lists.entry.items)) }
{
    let mut items = Vec::new(alloc);
    let mut rest = numbers;
    while let [number, further @ ..] = rest {
        let Some(item) = next_item(&mut lists, *number as usize) else {
            return Ok(None);
        };
        items.push(item.copy(alloc)?)?;
        rest = further;
    }
    if all_empty(&lists) {
        Ok(Some(items))
    } else {
        Ok(None)
    }
}

/// Takes the first item off the list at that place.
fn next_item<'a>(lists: &mut [&'a [Value]], place: usize) -> Option<&'a Value>
    requires { place < length lists.old }
    ensures first { option_map (λ item. data_of item.now) result ≡ slice_get (slice_index_or (map (λ list. map data_of list.now) lists.old) place []) 0 }
    ensures later { map (λ list. map data_of list.now) lists.new ≡ advanced (map (λ list. map data_of list.now) lists.old) place }
    ensures count { length lists.new ≡ length lists.old }
{
    let (first, later) = first_and_later(lists[place]);
    lists[place] = later;
    first
}

/// The first of the items, and those behind it.
fn first_and_later(items: &[Value]) -> (Option<&Value>, &[Value])
    ensures first { option_map (λ item. data_of item.now) result.0 ≡ slice_get (map data_of items.now) 0 }
    ensures later { map data_of result.1.now ≡ drop 1 (map data_of items.now) }
{
    match items {
        [] => (None, items),
        [first, later @ ..] => (Some(first), later),
    }
}

fn all_empty(lists: &[&[Value]]) -> bool
    ensures { result ≡ list_all (λ items. length items == 0) (map (λ list. map data_of list.now) lists.now) }
{
    let mut rest = lists;
    while let [list, later @ ..] = rest {
        if !list.is_empty() {
            return false;
        }
        rest = later;
    }
    true
}

fn all_ok(alloc: Global, ends: &[Ended]) -> Result<Value, NoMemory>
    ensures { IfOk result (λ reply. reply ≡ joined Joining.AllOk (map reply_of ends.now)) }
{
    if are_ok_lines(ends) {
        simple_line(alloc, b"OK")
    } else {
        unexpected(alloc)
    }
}

fn are_ok_lines(ends: &[Ended]) -> bool
    ensures { result ≡ list_all is_ok_line (map reply_of ends.now) }
{
    let mut rest = ends;
    while let [end, later @ ..] = rest {
        if !is_ok_line(end) {
            return false;
        }
        rest = later;
    }
    true
}

fn is_ok_line(end: &Ended) -> bool
    ensures { result ≡ is_ok_line (reply_of end.now) }
{
    match end {
        Ended::Answered(Value::Simple(line)) => line.bytes() == b"OK".as_slice(),
        Ended::Answered(_) | Ended::GaveUp | Ended::Lost => false,
    }
}

fn sum(alloc: Global, ends: &[Ended]) -> Result<Value, NoMemory>
    ensures { IfOk result (λ reply. reply ≡ joined Joining.Sum (map reply_of ends.now)) }
{
    match total(ends) {
        Some(sum) => Ok(Value::Integer(sum)),
        None => unexpected(alloc),
    }
}

/// The sum of the replies, where they are all integers and it is in range.
fn total(ends: &[Ended]) -> Option<i64>
    ensures { result ≡ total_in_range (map reply_of ends.now) }
{
    let mut sum: i128 = 0;
    let mut rest = ends;
    while let [end, later @ ..] = rest {
        let number = integer_in(end)?;
        sum = added(sum, number);
        rest = later;
    }
    i64::try_from(sum).ok()
}

fn added(sum: i128, number: i64) -> i128
    requires { FitsSigned w128 (sum +ℤ number) }
    ensures { result ≡ sum +ℤ number }
{
    sum + i128::from(number)
}

fn integer_in(end: &Ended) -> Option<i64>
    ensures value { result ≡ integer_in (reply_of end.now) }
    ensures range { IfSome result (λ number. FitsSigned w64 number) }
{
    match end {
        Ended::Answered(Value::Integer(number)) => Some(*number),
        Ended::Answered(_) | Ended::GaveUp | Ended::Lost => None,
    }
}
