//! Words that name what travels between a client and the nodes.

use crate::notation::fault::CallFault;
use crate::notation::line::Line;
use crate::notation::word::{Word, number_in};
use key_split::{Batch, Ended, Part, Planned, Ticket, Told, plan};
use resp_wire::Bytes;
use std::alloc::Global;

impl Word for Ticket {
    fn next_in(line: &mut Line) -> Option<Ticket> {
        let ticket = line.bytes().and_then(ticket_in);
        line.found(ticket, CallFault::BadTicket)
    }
}

/// The part that the words that are left ask for.
impl Word for Part {
    fn next_in(line: &mut Line) -> Option<Part> {
        let alloc = line.alloc;
        let part = part_of(alloc, line.rest());
        line.found(part, CallFault::NoPart)
    }
}

/// The parts that the words that are left ask for, each up to a `;`.
impl Word for Vec<Part> {
    fn next_in(line: &mut Line) -> Option<Vec<Part>> {
        let alloc = line.alloc;
        let parts = parts_of(alloc, line.rest());
        line.found(parts, CallFault::NoPart)
    }
}

impl Word for Batch {
    fn next_in(line: &mut Line) -> Option<Batch> {
        let (((ticket, node), asking), part) = line.read()?;
        Some(Batch {
            ticket,
            node,
            asking,
            part,
        })
    }
}

impl Word for Told {
    fn next_in(line: &mut Line) -> Option<Told> {
        match line.name()? {
            "reply" => line.read().map(Told::Reply),
            "moved" => {
                let (slot, node) = line.read()?;
                Some(Told::Moved(slot, node))
            }
            "ask" => {
                let (slot, node) = line.read()?;
                Some(Told::Ask(slot, node))
            }
            "tryagain" => Some(Told::TryAgain),
            "clusterdown" => Some(Told::ClusterDown),
            "unclear" => Some(Told::Unclear),
            "lost" => Some(Told::Lost),
            "unsent" => Some(Told::Unsent),
            _ => line.found(None, CallFault::UnknownWord),
        }
    }
}

impl Word for Ended {
    fn next_in(line: &mut Line) -> Option<Ended> {
        match line.name()? {
            "answered" => line.read().map(Ended::Answered),
            "gaveup" => Some(Ended::GaveUp),
            "lost" => Some(Ended::Lost),
            _ => line.found(None, CallFault::UnknownWord),
        }
    }
}

/// The ticket of a word that has `.` between its numbers.
fn ticket_in(word: &[u8]) -> Option<Ticket> {
    let mut pieces = word.split(|byte| *byte == b'.');
    Some(Ticket {
        worker: number_of(pieces.next())?,
        client: number_of(pieces.next())?,
        part: number_of(pieces.next())?,
    })
}

/// The number that a piece of a word is.
fn number_of<T: TryFrom<u64> + Drop>(piece: Option<&[u8]>) -> Option<T>
where
    T::Error: Drop,
{
    let number = piece.and_then(number_in)?;
    T::try_from(number).ok()
}

/// A part for the words before each `;`, and behind the last one.
fn parts_of(alloc: Global, words: &[Bytes]) -> Option<Vec<Part>> {
    let mut parts = Vec::new(alloc);
    for request in words.split(|word| word.as_slice() == b";".as_slice()) {
        parts.push(part_of(alloc, request)?).ok()?;
    }
    Some(parts)
}

/// The last part of a request, which is its only one where its keys are of one slot.
fn part_of(alloc: Global, words: &[Bytes]) -> Option<Part> {
    if words.is_empty() {
        return None;
    }
    last_of(plan(alloc, words).ok()?)
}

fn last_of(planned: Planned) -> Option<Part> {
    match planned {
        Planned::Parts(joining, parts) => {
            drop(joining);
            parts.into_vec().pop()
        }
        planned => {
            drop(planned);
            None
        }
    }
}
