//! What a request is planned as, the words for nodes, and what the ends of its parts become.

ghost use Rattle.std.specs.Prelude.{IfOk};
ghost use Rattle.key_split.specs.Join.{CanBeJoined};

use crate::held::keep;
use crate::notation::{CallFault, Line, Shown, Word};
use key_split::{Ended, Joining, Name, Part, PlanFault, Planned, join, plan, refusal};
use resp_wire::{Bytes, NoMemory, Value};
use std::alloc::Global;

#[derive(Drop)]
pub struct PlanObjects {
    /// The words of a request.
    words: Vec<Bytes>,
    /// The ends of its parts, so far.
    ends: Vec<Ended>,
}

impl PlanObjects {
    pub fn new(alloc: Global) -> PlanObjects {
        PlanObjects {
            words: Vec::new(alloc),
            ends: Vec::new(alloc),
        }
    }

    /// `of` plans the words of a request, and `end` keeps the end of its next part.
    pub fn call(&mut self, line: &mut Line) {
        match line.call() {
            "of" => self.plan(line),
            "end" => {
                if let Some(end) = line.read() {
                    keep(&mut self.ends, end, line);
                }
            }
            "name" => show_name(line),
            _ => self.call_of_plan(line),
        }
    }

    /// A call of what the words are planned as.
    fn call_of_plan(&self, line: &mut Line) {
        let planned = planned(line.alloc, &self.words);
        match line.call() {
            "join" => show_joined(&planned, &self.ends, line),
            "refusal" => show_refusal(&planned, line),
            "alike" => show_alike(&planned, line),
            _ => line.refuse(CallFault::NoSuchCall),
        }
        drop(planned);
    }

    /// Keeps the words of a request, and shows what they are planned as.
    fn plan(&mut self, line: &mut Line) {
        self.ends.clear();
        let copied = copy_all(line.alloc, line.rest(), &mut self.words);
        if let Some(()) = line.made(copied) {
            show_planned(&self.words, line);
        }
    }
}

/// What has a copy.
pub trait Copied: Sized {
    fn copied(&self, alloc: Global) -> Result<Self, NoMemory>;
}

impl Copied for Part {
    fn copied(&self, alloc: Global) -> Result<Part, NoMemory> {
        self.copy(alloc)
    }
}

impl Copied for Ended {
    fn copied(&self, alloc: Global) -> Result<Ended, NoMemory> {
        self.copy(alloc)
    }
}

/// A part or an end by itself: a copy of it, and whether it is the same.
pub fn call_of_one<T: Word + Copied + PartialEq + Shown + Drop>(line: &mut Line) {
    if line.call() != "copy" {
        return line.refuse(CallFault::NoSuchCall);
    }
    if let Some(one) = line.read::<T>() {
        match one.copied(line.alloc) {
            Ok(copy) => line.show((copy == one, copy)),
            Err(fault) => line.answer.debug(&fault),
        }
    }
}

/// Puts copies of these words in the place of others.
fn copy_all(alloc: Global, words: &[Bytes], copies: &mut Vec<Bytes>) -> Result<(), CallFault> {
    copies.clear();
    for word in words {
        copies.push(word.copy(alloc)?)?;
    }
    Ok(())
}

/// What the words of a request are planned as.
fn show_planned(words: &[Bytes], line: &mut Line) {
    let planned = planned(line.alloc, words);
    match &planned {
        Ok(planned) => show_plan(planned, line),
        Err(fault) => line.answer.debug(fault),
    }
    drop(planned);
}

fn planned(alloc: Global, words: &[Bytes]) -> Result<Planned, PlanFault>
    ensures { IfOk result CanBeJoined }
{
    if words.is_empty() {
        return Err(PlanFault::UnknownCommand);
    }
    plan(alloc, words)
}

/// The reply that the ends become.
fn show_joined(planned: &Result<Planned, PlanFault>, ends: &[Ended], line: &mut Line)
    requires { IfOk planned.now CanBeJoined }
{
    match planned {
        Ok(Planned::Parts(joining, parts)) if parts.as_slice().len() == ends.len() => {
            line.show(join(line.alloc, joining, ends));
        }
        _ => line.refuse(CallFault::NotNow),
    }
}

/// The reply to a request that is refused.
fn show_refusal(planned: &Result<Planned, PlanFault>, line: &mut Line) {
    match planned {
        Ok(_) => line.refuse(CallFault::NotNow),
        Err(fault) => line.show(refusal(line.alloc, fault)),
    }
}

fn show_plan(planned: &Planned, line: &mut Line) {
    match planned {
        Planned::Local(value) => {
            line.say("local");
            line.show(value);
        }
        Planned::Close => line.say("close"),
        Planned::Parts(joining, parts) => {
            show_joining(joining, line);
            for part in parts.as_slice() {
                line.say(";");
                line.show(part);
            }
        }
    }
}

fn show_joining(joining: &Joining, line: &mut Line) {
    match joining {
        Joining::One => line.say("one"),
        Joining::AllOk => line.say("allok"),
        Joining::Sum => line.say("sum"),
        Joining::Array(places) => {
            line.say("array");
            for place in places.as_slice() {
                line.show(*place);
            }
        }
    }
}

/// Whether two parts, by their places, are the same.
fn show_alike(planned: &Result<Planned, PlanFault>, line: &mut Line) {
    let Some((one, other)) = line.read() else {
        return;
    };
    match planned {
        Ok(Planned::Parts(_, parts)) => {
            line.show_found(are_alike(parts.as_slice(), one, other), CallFault::NotMade);
        }
        _ => line.refuse(CallFault::NotNow),
    }
}

fn are_alike(parts: &[Part], one: usize, other: usize) -> Option<bool> {
    let (one, other) = parts.get(one).zip(parts.get(other))?;
    Some(one == other)
}

fn show_name(line: &mut Line) {
    let Some(word) = line.bytes() else {
        return;
    };
    match Name::of(word) {
        Some(name) => line.answer.debug(&name),
        None => line.say("none"),
    }
}
