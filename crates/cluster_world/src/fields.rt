//! Words that name clients, lanes, links, nodes, slots and tickets.

ghost use Rattle.std.specs.Prelude.{◌≡◌, ◌<◌, ◌^◌, IfOk, IfSome};
ghost use Rattle.std.specs.List.{slice_split};
ghost use Rattle.std.specs.Option.{option_map};
ghost use Rattle.cluster_world.specs.Script.{number_below};
ghost use Rattle.cluster_world.specs.Schedule.{client_in, lane_in, link_in, is_plus, node_in, slot_in, ticket_of, tickets_in, tickets_of};

use crate::script::{cut, number};
use key_split::Ticket;
use resp_wire::NoMemory;
use slot_hash::{SLOT_COUNT, Slot};
use slot_map::{NODE_LIMIT, NodeId};
use std::alloc::Global;
use world_laws::Tickets;

/// The number that a word writes, where it is below a bound.
pub fn number_under(word: &[u8], bound: u64) -> Option<u64>
    ensures value { result ≡ number_below bound word.now }
    ensures under { IfSome result (λ number. number < bound) }
{
    let value = number(word)?;
    if value < bound { Some(value) } else { None }
}

pub(crate) fn client_in(word: &[u8]) -> Option<u32>
    ensures { result ≡ client_in word.now }
{
    let client = number_under(word, 0x1_0000_0000)?;
    Some(client as u32)
}

pub(crate) fn lane_in(word: &[u8]) -> Option<u16>
    ensures { result ≡ lane_in word.now }
{
    let lane = number_under(word, 0x1_0000)?;
    Some(lane as u16)
}

pub(crate) fn link_in(word: &[u8]) -> Option<u64>
    ensures { result ≡ link_in word.now }
{
    number(word)
}

/// The node that a word names.
pub fn node_in(word: &[u8]) -> Option<NodeId>
    ensures { result ≡ node_in word.now }
{
    let node = number_under(word, NODE_LIMIT as u64)?;
    NodeId::new(node as u8)
}

/// The slot that a word names.
pub fn slot_in(word: &[u8]) -> Option<Slot>
    ensures { result ≡ slot_in word.now }
{
    let slot = number_under(word, u64::from(SLOT_COUNT))?;
    Slot::new(slot as u16)
}

/// CLIENT.PART+PART..
pub(crate) fn tickets_in(
    alloc: Global,
    workers: u16,
    word: &[u8],
) -> Result<Option<Tickets>, NoMemory>
    requires { 0 < workers }
    ensures { IfOk result (λ tickets. tickets ≡ tickets_in workers word.now) }
{
    let Some((client, parts)) = cut(word, b'.') else {
        return Ok(None);
    };
    let Some(client) = client_in(client) else {
        return Ok(None);
    };
    tickets_of(alloc, workers, client, parts)
}

/// PART+PART.., of this client.
fn tickets_of(
    alloc: Global,
    workers: u16,
    client: u32,
    parts: &[u8],
) -> Result<Option<Tickets>, NoMemory>
    requires { 0 < workers }
    ensures { IfOk result (λ tickets. tickets ≡ tickets_of workers client (slice_split is_plus parts.now)) }
{
    let mut tickets = Vec::new(alloc);
    let mut rest = parts;
    while let Some((part, behind)) = cut(rest, b'+') {
        let Some(ticket) = ticket_of(workers, client, part) else {
            return Ok(None);
        };
        tickets.push(ticket)?;
        rest = behind;
    }
    let Some(ticket) = ticket_of(workers, client, rest) else {
        return Ok(None);
    };
    tickets.push(ticket)?;
    Ok(Some(Tickets::new(tickets)))
}

/// PART, of this client.
fn ticket_of(workers: u16, client: u32, part: &[u8]) -> Option<Ticket>
    requires { 0 < workers }
    ensures { result ≡ option_map (ticket_of workers client) (number_below (2 ^ 64) part.now) }
{
    let part = number(part)?;
    Some(Ticket {
        worker: (client % u32::from(workers)) as u16,
        client,
        part,
    })
}
