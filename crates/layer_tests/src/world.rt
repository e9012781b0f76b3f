//! `world`: a world that events lead on, one by one.

use cluster_world::{Answer, Entry, Event, World, event_of, words};
use layer_rows::{CallFault, Held, Line};
use resp_wire::NoMemory;
use slot_hash::Slot;
use slot_map::{MapOp, NodeId, SlotMap};
use std::alloc::Global;

/// How many nodes there are. Each owns a third of the slots.
const NODES: u8 = 3;

/// How many workers there are.
const WORKERS: u16 = 2;

/// A call of the world, or of a new one.
pub fn call(held: &mut Held<World>, line: &mut Line) {
    match line.call() {
        "new" => renew(held, line),
        _ => match &mut held.value {
            Some(world) => call_of(world, line),
            None => line.refuse(CallFault::NotMade),
        },
    }
}

fn renew(held: &mut Held<World>, line: &mut Line) {
    match owners(line.alloc) {
        Some(owners) => held.hold(World::new(line.alloc, NODES, WORKERS, &owners), line),
        None => line.refuse(CallFault::NoMemory),
    }
}

fn owners(alloc: Global) -> Option<SlotMap> {
    let mut owners = SlotMap::new(alloc).ok()?;
    owners.apply(range(0, 5460, 0)?);
    owners.apply(range(5461, 10922, 1)?);
    owners.apply(range(10923, 16383, 2)?);
    Some(owners)
}

fn range(first: u16, last: u16, node: u8) -> Option<MapOp> {
    Some(MapOp::SetRange(Slot::new(first)?, Slot::new(last)?, NodeId::new(node)?))
}

fn call_of(world: &mut World, line: &mut Line) {
    match line.call() {
        "do" => make(world, line),
        "answers" => show_answers(world.answers(), line),
        "history" => show_history(world.history(), line),
        _ => line.refuse(CallFault::NoSuchCall),
    }
}

/// `do EVENT`: makes the event that these words of a script say.
fn make(world: &mut World, line: &mut Line) {
    if let Some(event) = event_in(line) {
        let made = world.apply(&event);
        drop(event);
        line.show(made);
    }
}

fn event_in(line: &mut Line) -> Option<Event> {
    let alloc = line.alloc;
    let read = event_of_text(alloc, line.bytes()?);
    let event = line.made(read)?;
    line.found(event, CallFault::UnknownWord)
}

fn event_of_text(alloc: Global, text: &[u8]) -> Result<Option<Event>, NoMemory> {
    match words(alloc, text)? {
        Some(words) => event_of(alloc, WORKERS, &words),
        None => Ok(None),
    }
}

fn show_answers(answers: &[Answer], line: &mut Line) {
    for answer in answers {
        line.say(";");
        line.show(answer.ticket);
        line.show(&answer.ended);
    }
}

fn show_history(entries: &[Entry], line: &mut Line) {
    for entry in entries {
        line.say(";");
        line.show(entry.ticket);
        line.show(&entry.part);
        line.show(&entry.reply);
    }
}
