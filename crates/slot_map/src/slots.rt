//! The reading of a reply to CLUSTER SLOTS.

ghost use Rattle.std.specs.Prelude.{◌≡◌, ◌<◌, List, ◌∷◌, length, map, IsTrue};
ghost use Rattle.resp_wire.specs.Text.{is_one_line};
ghost use Rattle.resp_wire.specs.Data.{Data};
ghost use Rattle.resp_wire.specs.Seen.{data_of};
ghost use Rattle.slot_map.specs.Slots.{endpoint_meant, entry_in, entry_in_items, is_unnamed, located, primary_in, range_in, read_entries, read_slots, slot_at, step_from, ReadsAs};
ghost use Rattle.slot_map.specs.Passes.{AddsAs, Checks, StepsAs, Tries};
ghost use Rattle.slot_map.specs.Table.{host_of, Grows, Interns};

use crate::draft::Draft;
use crate::endpoint::Address;
use crate::fault::MapFault;
use crate::node::NodeId;
use crate::ops::{MapOp, MapOps};
use crate::table::NodeTable;
use resp_wire::{Value, Values, is_one_line};
use slot_hash::Slot;
use std::marker::Model;

/// The changes of the map that a reply to CLUSTER SLOTS means, whose new nodes are then in the table: a change for each
/// entry, in their order. The asked node is meant where an entry names no host. Replicas are not read.
pub fn ops_of(value: &Value, asked: NodeId, table: &mut NodeTable) -> Result<MapOps, MapFault>
    requires { asked < length table.old }
    ensures reads { ReadsAs (read_slots value.now asked table.old) table.old result table.new }
    ensures grows { Grows table.old table.new }
{
    let Value::Array(entries) = value else {
        return Err(MapFault::NotSlots);
    };
    let entries = entries.as_slice();
    check(entries, asked, table)?;
    let known = table.len();
    match read(entries, asked, table) {
        Ok(ops) => Ok(ops),
        Err(fault) => {
            table.truncate(known);
            Err(fault)
        }
    }
}

/// Finds the first fault of the entries. It takes no memory.
fn check(entries: &[Value], asked: NodeId, table: &NodeTable) -> Result<(), MapFault>
    requires { asked < length table.now }
    ensures { Checks (read_entries asked (map data_of entries.now) table.now) result }
{
    let (asked_host, _) = table.at(asked);
    let mut draft = Draft::new(table);
    let mut rest = entries;
    while let [entry, further @ ..] = rest {
        try_entry(entry, asked_host, &mut draft)?;
        rest = further;
    }
    Ok(())
}

/// Gives the node that an entry means a number in the draft.
fn try_entry<'a>(
    entry: &'a Value,
    asked_host: &'a [u8],
    draft: &mut Draft<'a>,
) -> Result<(), MapFault>
    ensures tries { Tries (step_from asked_host.now draft.old (range_in (data_of entry.now))) result draft.new }
    ensures grows { Grows draft.old draft.new }
{
    let range = range_in(entry)?;
    if !draft.admit(range.address(asked_host)) {
        return Err(MapFault::TooManyNodes);
    }
    Ok(())
}

/// Reads entries without a fault. Where memory runs out, new nodes may stay at the table's end.
fn read(entries: &[Value], asked: NodeId, table: &mut NodeTable) -> Result<MapOps, MapFault>
    requires { asked < length table.old }
    ensures adds { AddsAs (read_entries asked (map data_of entries.now) table.old) result table.new }
    ensures grows { Grows table.old table.new }
{
    let mut ops = Vec::new(table.allocator());
    let mut rest = entries;
    while let [entry, further @ ..] = rest {
        ops.push(step(entry, asked, table)?)?;
        rest = further;
    }
    Ok(MapOps::new(ops))
}

/// The change of the map that an entry means, with its node in the table.
fn step(entry: &Value, asked: NodeId, table: &mut NodeTable) -> Result<MapOp, MapFault>
    requires { asked < length table.old }
    ensures steps { StepsAs (step_from (host_of table.old asked) table.old (range_in (data_of entry.now))) table.old result table.new }
    ensures grows { Grows table.old table.new }
{
    let range = range_in(entry)?;
    let node = range.intern(asked, table)?;
    Ok(range.op(node))
}

/// The range that an entry gives to a node.
#[tactic(auto, unfolding(crate::specs::Slots::range_in))]
fn range_in(entry: &Value) -> Result<SlotRange<'_>, MapFault>
    ensures { result ≡ range_in (data_of entry.now) }
{
    let Some(entry) = entry_in(entry) else {
        return Err(MapFault::NotSlots);
    };
    let Some(range) = located(entry) else {
        return Err(MapFault::BadRange);
    };
    Ok(range)
}

/// Where an entry says that its primary listens; no host: that of the node that was asked.
#[derive(Drop)]
struct Primary<'a> {
    host: Option<&'a [u8]>,
    port: i64,
}

impl<'a> Model for Primary<'a> {
    ghost use Rattle.std.specs.Prelude.{IsTrue};
    ghost use Rattle.std.specs.Option.{option_copied, ForSome};
    ghost use Rattle.resp_wire.specs.Text.{is_one_line};
    ghost use Rattle.slot_map.specs.Slots.{PrimaryModel};

    ghost Value = { PrimaryModel };

    ghost view = { λ p. record { host = option_copied p.host; port = p.port } };

    ghost invariant = { λ p. ForSome p.host (λ text. IsTrue (is_one_line text.now)) };
}

/// What an entry says.
#[derive(Drop)]
struct SlotsEntry<'a> {
    first: i64,
    last: i64,
    primary: Primary<'a>,
}

impl<'a> Model for SlotsEntry<'a> {
    ghost use Rattle.slot_map.specs.Slots.{SlotsEntryModel};

    ghost Value = { SlotsEntryModel };

    ghost view = { λ e. record { first = e.first; last = e.last; primary = e.primary } };
}

fn entry_in(entry: &Value) -> Option<SlotsEntry<'_>>
    ensures { result ≡ entry_in (data_of entry.now) }
{
    let Value::Array(items) = entry else {
        return None;
    };
    entry_in_items(items)
}

fn entry_in_items(items: &Values) -> Option<SlotsEntry<'_>>
    ensures { result ≡ entry_in_items items.now }
{
    match items.as_slice() {
        [first, last, primary, ..] => entry_of(first, last, primary),
        _ => None,
    }
}

fn entry_of<'a>(first: &Value, last: &Value, primary: &'a Value) -> Option<SlotsEntry<'a>>
    ensures { (rest : List Data) → result ≡ entry_in_items (data_of first.now ∷ data_of last.now ∷ data_of primary.now ∷ rest) }
{
    let Value::Integer(first) = first else {
        return None;
    };
    let Value::Integer(last) = last else {
        return None;
    };
    let Value::Array(primary) = primary else {
        return None;
    };
    let primary = primary_in(primary)?;
    Some(SlotsEntry {
        first: *first,
        last: *last,
        primary,
    })
}

fn primary_in(items: &Values) -> Option<Primary<'_>>
    ensures { result ≡ primary_in items.now }
{
    match items.as_slice() {
        [host, port, ..] => primary_of(host, port),
        _ => None,
    }
}

fn primary_of<'a>(host: &'a Value, port: &Value) -> Option<Primary<'a>>
    ensures { (rest : List Data) → result ≡ primary_in (data_of host.now ∷ data_of port.now ∷ rest) }
{
    let Value::Integer(port) = *port else {
        return None;
    };
    match host {
        Value::NullBulk => Some(Primary { host: None, port }),
        Value::Bulk(bytes) => {
            let host = bytes.as_slice();
            if !is_one_line(host) {
                return None;
            }
            let host = if is_unnamed(host) { None } else { Some(host) };
            Some(Primary { host, port })
        }
        _ => None,
    }
}

/// Whether a host's text stands for the node that was asked.
fn is_unnamed(host: &[u8]) -> bool
    ensures { result ≡ is_unnamed host.now }
{
    host.is_empty() || host == b"?".as_slice()
}

/// An entry whose range and port are in range.
#[derive(Drop)]
struct SlotRange<'a> {
    first: Slot,
    last: Slot,
    host: Option<&'a [u8]>,
    port: u16,
}

impl<'a> Model for SlotRange<'a> {
    ghost use Rattle.std.specs.Prelude.{IsTrue};
    ghost use Rattle.std.specs.Option.{option_copied, ForSome};
    ghost use Rattle.resp_wire.specs.Text.{is_one_line};
    ghost use Rattle.slot_map.specs.Slots.{SlotRangeModel};

    ghost Value = { SlotRangeModel };

    ghost view = { λ r. record { first = r.first; last = r.last; host = option_copied r.host; port = r.port } };

    ghost invariant = { λ r. ForSome r.host (λ text. IsTrue (is_one_line text.now)) };
}

impl<'a> SlotRange<'a> {
    /// The map's change, where the node has this number.
    fn op(&self, node: NodeId) -> MapOp
        ensures { result ≡ MapOp.SetRange self.now.first self.now.last node }
    {
        MapOp::SetRange(self.first, self.last, node)
    }

    /// Where the node listens that is meant.
    fn address(&self, asked_host: &'a [u8]) -> Address<'a>
        ensures { result ≡ endpoint_meant self.now asked_host.now }
    {
        Address {
            host: self.host.unwrap_or(asked_host),
            port: self.port,
        }
    }

    /// The number of the node that is meant.
    fn intern(&self, asked: NodeId, table: &mut NodeTable) -> Result<NodeId, MapFault>
        requires { asked < length table.old }
        ensures interns { Interns table.old (endpoint_meant self.now (host_of table.old asked)) result table.new }
        ensures grows { Grows table.old table.new }
    {
        match self.host {
            None => table.intern_beside(asked, self.port),
            Some(host) => table.intern(host, self.port),
        }
    }
}

fn located<'a>(said: SlotsEntry<'a>) -> Option<SlotRange<'a>>
    ensures { result ≡ located said.entry }
{
    let first = slot_at(said.first)?;
    let last = slot_at(said.last)?;
    let port = u16::try_from(said.primary.port).ok()?;
    if first > last || port == 0 {
        return None;
    }
    Some(SlotRange {
        first,
        last,
        host: said.primary.host,
        port,
    })
}

fn slot_at(number: i64) -> Option<Slot>
    ensures { result ≡ slot_at number }
{
    Slot::new(u16::try_from(number).ok()?)
}
