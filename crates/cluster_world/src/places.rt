//! Where the things of a report stand, by their tickets.

ghost use Rattle.std.specs.Prelude.{◌≡◌, ◌≤◌, ◌↔◌, IfOk, IfSome, IsTrue, Some, cond, is_none};
ghost use Rattle.key_split.specs.declared.travel.Ticket.{Ticket};
ghost use Rattle.cluster_world.specs.Index.{found, place_in, same_key, ticket_key, turn_key, Indexes};
ghost use Rattle.cluster_world.specs.declared.places.Key.{Key};

use crate::Entry;
use key_split::Ticket;
use resp_wire::NoMemory;
use std::alloc::Global;
use std::collections::HashMap;

/// A client's part by its number, or its slot by that one's.
#[derive(Clone, Copy, PartialEq, Eq, Hash)]
pub(crate) struct Key {
    worker: u16,
    client: u32,
    number: u64,
}

impl Key {
    fn of_ticket(ticket: Ticket) -> Key
        ensures { result ≡ ticket_key ticket }
    {
        Key {
            worker: ticket.worker,
            client: ticket.client,
            number: ticket.part,
        }
    }

    fn of_turn(entry: &Entry) -> Key
        ensures { result ≡ turn_key entry.now }
    {
        Key {
            worker: entry.ticket.worker,
            client: entry.ticket.client,
            number: u64::from(entry.part.slot().number()),
        }
    }
}

/// The place of each ticket's thing.
pub(crate) type Places = HashMap<Key, usize>;

/// Where the ticket's thing stands.
pub(crate) fn place_of(places: &Places, ticket: Ticket) -> Option<usize>
    ensures { result ≡ place_in places.now.entries ticket }
{
    places.get(&Key::of_ticket(ticket)).copied()
}

/// Where each of these stands, where no two have one ticket.
pub(crate) fn places_of<T>(alloc: Global, items: &[(Ticket, T)]) -> Result<Option<Places>, NoMemory>
    ensures { IfOk result (Indexes (λ item. item.0) items.now) }
{
    let mut places = HashMap::new(alloc);
    for (place, item) in items.iter().enumerate() {
        if !add(&mut places, item.0, place)? {
            return Ok(None);
        }
    }
    Ok(Some(places))
}

/// Where each entry stands, where no two have one ticket.
pub(crate) fn places_of_entries(
    alloc: Global,
    history: &[Entry],
) -> Result<Option<Places>, NoMemory>
    ensures { IfOk result (Indexes (λ entry. entry.ticket) history.now) }
{
    let mut places = HashMap::new(alloc);
    for (place, entry) in history.iter().enumerate() {
        if !add(&mut places, entry.ticket, place)? {
            return Ok(None);
        }
    }
    Ok(Some(places))
}

/// Gives the ticket a place. Whether it had none.
fn add(places: &mut Places, ticket: Ticket, place: usize) -> Result<bool, NoMemory>
    ensures { IfOk result (λ fresh. (fresh ≡ is_none (place_in places.old.entries ticket)) × ((key : Key) → found places.new.entries key ≡ cond (same_key (ticket_key ticket) key) (Some place) (found places.old.entries key))) }
{
    let before: Option<usize> = places.insert(Key::of_ticket(ticket), place)?;
    Ok(before.is_none())
}

/// The number of each turn's latest part.
pub(crate) type Latest = HashMap<Key, u64>;

/// Notes the entry as the latest of its turn. Whether it may follow the one before it.
pub(crate) fn note(latest: &mut Latest, entry: &Entry) -> Result<bool, NoMemory>
    ensures { IfOk result (λ follows. (IsTrue follows ↔ IfSome (found latest.old.entries (turn_key entry.now)) (λ before. before ≤ entry.now.ticket.part)) × ((key : Key) → found latest.new.entries key ≡ cond (same_key (turn_key entry.now) key) (Some entry.now.ticket.part) (found latest.old.entries key))) }
{
    let before: Option<u64> = latest.insert(Key::of_turn(entry), entry.ticket.part)?;
    match before {
        Some(before) => Ok(before <= entry.ticket.part),
        None => Ok(true),
    }
}
