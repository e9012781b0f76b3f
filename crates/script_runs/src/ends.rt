//! The ends of a run's parts, found by their tickets.

ghost use Rattle.std.specs.Prelude.{◌≡◌, ◌<◌, IfOk, Some, cond, option_map};
ghost use Rattle.script_runs.specs.Ends.{end_for, found, same_key, ticket_key, IsIndexFrom};
ghost use Rattle.script_runs.specs.declared.ends.Key.{Key};

use key_split::{Ended, Ticket};
use resp_wire::NoMemory;
use std::alloc::Global;
use std::collections::HashMap;
use std::marker::Model;

/// A ticket, to look up.
#[derive(Clone, Copy, PartialEq, Eq, Hash)]
struct Key {
    worker: u16,
    client: u32,
    part: u64,
}

impl Key {
    fn of(ticket: Ticket) -> Key
        ensures { result ≡ ticket_key ticket }
    {
        Key {
            worker: ticket.worker,
            client: ticket.client,
            part: ticket.part,
        }
    }
}

/// The place of each ticket's first end.
type Places = HashMap<Key, usize>;

/// The ends of a run's parts.
#[derive(Drop)]
pub(crate) struct EndTable<'a> {
    ends: &'a [(Ticket, Ended)],
    places: Places,
}

impl<'a> Model for EndTable<'a> {
    ghost use Rattle.std.specs.Prelude.{List};
    ghost use Rattle.std.specs.Coded.{codes};
    ghost use Rattle.resp_wire.specs.Stored.{coded_data};
    ghost use Rattle.script_runs.specs.Ends.{Told, IsIndexFrom};

    ghost Value = { List Told };

    ghost coded = { Prim.hlevel (codes, coded_data) };

    ghost view = { λ t. t.ends.now };

    ghost invariant = { λ t. IsIndexFrom t.ends.now 0 t.places.entries };
}

impl<'a> EndTable<'a> {
    pub(crate) fn new(alloc: Global, ends: &'a [(Ticket, Ended)]) -> Result<EndTable<'a>, NoMemory>
        ensures { IfOk result (λ table. table ≡ ends.now) }
    {
        let places = places_of(alloc, ends)?;
        Ok(EndTable { ends, places })
    }

    /// The first end of the ticket.
    pub(crate) fn end_of(&self, ticket: Ticket) -> Option<&Ended>
        ensures { option_map (λ end. end.now) result ≡ end_for self.now ticket }
    {
        match place_of(&self.places, ticket) {
            Some(place) => Some(&self.ends[place].1),
            None => None,
        }
    }
}

fn place_of(places: &Places, ticket: Ticket) -> Option<usize>
    ensures { result ≡ found places.now.entries (ticket_key ticket) }
{
    places.get(&Key::of(ticket)).copied()
}

fn places_of(alloc: Global, ends: &[(Ticket, Ended)]) -> Result<Places, NoMemory>
    ensures { IfOk result (λ places. IsIndexFrom ends.now 0 places.entries) }
{
    let mut places = HashMap::new(alloc);
    for place in (0..ends.len()).rev() {
        put(&mut places, ends[place].0, place)?;
    }
    Ok(places)
}

/// Gives the ticket a place, in the stead of one that it had.
fn put(places: &mut Places, ticket: Ticket, place: usize) -> Result<(), NoMemory>
    ensures { IfOk result (λ _. (key : Key) → found places.new.entries key ≡ cond (same_key (ticket_key ticket) key) (Some place) (found places.old.entries key)) }
{
    let _: Option<usize> = places.insert(Key::of(ticket), place)?;
    Ok(())
}
