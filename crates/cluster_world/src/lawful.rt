//! Whether the report of a run is lawful.

ghost use Rattle.std.specs.Prelude.{◌≡◌, ◌↔◌, All, AllPairs, Any, IfOk, IsTrue};
ghost use Rattle.std.specs.FinMap.{empty};
ghost use Rattle.resp_wire.specs.Seen.{data_of};
ghost use Rattle.node_model.specs.History.{IsLegal};
ghost use Rattle.cluster_world.specs.Index.{place_in, IsIndex};
ghost use Rattle.cluster_world.specs.Audit.{EndedSo, FollowTurns, HaveParts};
ghost use Rattle.cluster_world.specs.Lawful.{IsAnswered, IsLawful, MayPrecede, WasAnswered, WasExecuted};

use crate::Entry;
use crate::places::{Latest, Places, note, place_of, places_of, places_of_entries};
use crate::run_report::RunReport;
use key_split::{Ended, Part, Ticket};
use node_model::Store;
use resp_wire::{NoMemory, Value};
use std::alloc::Global;
use std::collections::HashMap;

/// Whether the report is lawful.
pub fn audit(alloc: Global, report: &RunReport) -> Result<bool, NoMemory>
    ensures { IfOk result (λ lawful. IsTrue lawful ↔ IsLawful report.now.parts.items report.now.ends.items report.now.history.items) }
{
    is_lawful(alloc, &report.parts, &report.ends, &report.history)
}

fn is_lawful(
    alloc: Global,
    parts: &[(Ticket, Part)],
    ends: &[(Ticket, Ended)],
    history: &[Entry],
) -> Result<bool, NoMemory>
    ensures { IfOk result (λ lawful. IsTrue lawful ↔ IsLawful parts.now ends.now history.now) }
{
    if !is_legal(alloc, history)? {
        return Ok(false);
    }
    if !have_parts(alloc, parts, ends, history)? {
        return Ok(false);
    }
    if !ended_so(alloc, ends, history)? {
        return Ok(false);
    }
    follow_turns(alloc, ends, history)
}

/// Whether no ticket is twice among the parts, and each end and each entry has its part.
fn have_parts(
    alloc: Global,
    parts: &[(Ticket, Part)],
    ends: &[(Ticket, Ended)],
    history: &[Entry],
) -> Result<bool, NoMemory>
    ensures { IfOk result (λ all. IsTrue all ↔ HaveParts parts.now ends.now history.now) }
{
    let Some(places) = places_of(alloc, parts)? else {
        return Ok(false);
    };
    if !ends_have_parts(parts, &places, ends) {
        return Ok(false);
    }
    Ok(entries_have_parts(parts, &places, history))
}

/// Whether no ticket is twice in the history, and each part was executed as its end says.
fn ended_so(alloc: Global, ends: &[(Ticket, Ended)], history: &[Entry]) -> Result<bool, NoMemory>
    ensures { IfOk result (λ so. EndedSo ends.now history.now so) }
{
    let Some(places) = places_of_entries(alloc, history)? else {
        return Ok(false);
    };
    Ok(are_as_ended(history, &places, ends))
}

/// Whether no ticket is twice among the ends, and the answered parts of each client stand in their order, slot by slot.
fn follow_turns(
    alloc: Global,
    ends: &[(Ticket, Ended)],
    history: &[Entry],
) -> Result<bool, NoMemory>
    ensures { IfOk result (λ follow. IsTrue follow ↔ FollowTurns ends.now history.now) }
{
    let Some(places) = places_of(alloc, ends)? else {
        return Ok(false);
    };
    are_in_turn(alloc, ends, &places, history)
}

/// Whether each reply is one store's.
fn is_legal(alloc: Global, history: &[Entry]) -> Result<bool, NoMemory>
    ensures { IfOk result (λ legal. IsTrue legal ↔ IsLegal empty history.now) }
{
    let mut store = Store::new(alloc);
    for entry in history {
        let reply = store.apply(&entry.part)?;
        if !replied(entry, &reply) {
            return Ok(false);
        }
    }
    Ok(true)
}

/// Whether each end is of a part.
fn ends_have_parts(parts: &[(Ticket, Part)], places: &Places, ends: &[(Ticket, Ended)]) -> bool
    requires { IsIndex (λ part. part.0) parts.now (place_in places.now.entries) }
    ensures { IsTrue result ↔ All (λ end. Any (λ part. part.0 ≡ end.0) parts.now) ends.now }
{
    for end in ends {
        if !has_ticket(parts, places, end.0) {
            return false;
        }
    }
    true
}

fn has_ticket(parts: &[(Ticket, Part)], places: &Places, ticket: Ticket) -> bool
    requires { IsIndex (λ part. part.0) parts.now (place_in places.now.entries) }
    ensures { IsTrue result ↔ Any (λ part. part.0 ≡ ticket) parts.now }
{
    place_of(places, ticket).is_some()
}

/// Whether each entry has a part and its ticket.
fn entries_have_parts(parts: &[(Ticket, Part)], places: &Places, history: &[Entry]) -> bool
    requires { IsIndex (λ part. part.0) parts.now (place_in places.now.entries) }
    ensures { IsTrue result ↔ All (λ e. Any (λ part. (part.0 ≡ e.ticket) × (part.1 ≡ e.part)) parts.now) history.now }
{
    for entry in history {
        if !has_part(parts, places, entry) {
            return false;
        }
    }
    true
}

fn has_part(parts: &[(Ticket, Part)], places: &Places, entry: &Entry) -> bool
    requires { IsIndex (λ part. part.0) parts.now (place_in places.now.entries) }
    ensures { IsTrue result ↔ Any (λ part. (part.0 ≡ entry.now.ticket) × (part.1 ≡ entry.now.part)) parts.now }
{
    match place_of(places, entry.ticket) {
        Some(place) => is_same(&parts[place].1, &entry.part),
        None => false,
    }
}

fn is_same(part: &Part, other: &Part) -> bool
    ensures { IsTrue result ↔ (part.now ≡ other.now) }
{
    *part == *other
}

/// Whether each part was executed as its end says.
fn are_as_ended(history: &[Entry], places: &Places, ends: &[(Ticket, Ended)]) -> bool
    requires { IsIndex (λ entry. entry.ticket) history.now (place_in places.now.entries) }
    ensures { IsTrue result ↔ All (λ end. WasExecuted history.now end.0 end.1) ends.now }
{
    for end in ends {
        if !was_executed(history, places, end.0, &end.1) {
            return false;
        }
    }
    true
}

fn was_executed(history: &[Entry], places: &Places, ticket: Ticket, ended: &Ended) -> bool
    requires { IsIndex (λ entry. entry.ticket) history.now (place_in places.now.entries) }
    ensures { IsTrue result ↔ WasExecuted history.now ticket ended.now }
{
    let place = place_of(places, ticket);
    let silent = place.is_none();
    match ended {
        Ended::Answered(value) => match place {
            Some(place) => replied(&history[place], value),
            None => false,
        },
        Ended::GaveUp => silent,
        Ended::Lost => true,
    }
}

fn replied(entry: &Entry, value: &Value) -> bool
    ensures { IsTrue result ↔ (entry.now.reply ≡ data_of value.now) }
{
    entry.reply == *value
}

/// Whether the answered parts of each client stand in their order, slot by slot.
fn are_in_turn(
    alloc: Global,
    ends: &[(Ticket, Ended)],
    places: &Places,
    history: &[Entry],
) -> Result<bool, NoMemory>
    requires { IsIndex (λ end. end.0) ends.now (place_in places.now.entries) }
    ensures { IfOk result (λ in_turn. IsTrue in_turn ↔ AllPairs (MayPrecede ends.now) history.now) }
{
    let mut latest: Latest = HashMap::new(alloc);
    for entry in history {
        if !was_answered(ends, places, entry.ticket) {
            continue;
        }
        if !note(&mut latest, entry)? {
            return Ok(false);
        }
    }
    Ok(true)
}

fn was_answered(ends: &[(Ticket, Ended)], places: &Places, ticket: Ticket) -> bool
    requires { IsIndex (λ end. end.0) ends.now (place_in places.now.entries) }
    ensures { IsTrue result ↔ WasAnswered ends.now ticket }
{
    match place_of(places, ticket) {
        Some(place) => is_answered(&ends[place].1),
        None => false,
    }
}

fn is_answered(ended: &Ended) -> bool
    ensures { IsTrue result ↔ IsAnswered ended.now }
{
    matches!(ended, Ended::Answered(_))
}
