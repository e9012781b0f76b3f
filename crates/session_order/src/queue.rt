//! The parts of a client's requests, and whose turn it is.

ghost use Rattle.std.specs.Prelude.{◌≡◌, ◌<◌, ◌≤◌, ◌+◌, ◌-◌, ◌^◌, ◌≢◌, ◌↔◌, IsTrue, OnOk, OnErr, IsSome, length, map, take, drop, true, Some, slice_get, slice_set, ℕ, nat_eq, if◌then◌else◌, ◌++◌, vec_len, ◌∷◌, [], suc, is_some};
ghost use Rattle.std.specs.List.{list_all};
ghost use Rattle.slot_hash.specs.Slot.{slot_of};
ghost use Rattle.session_order.specs.Turn.{is_done, IsWaiting, IsOutAt, IsNumbered, HandOutcome, FollowOutcome, NextPlace};
ghost use Rattle.session_order.specs.Tables.{AreSound, SameParts, HasRoom, parts_in, is_waiting, LinksIn, IsOpenAt, Unlinks, with_link};
ghost use Rattle.session_order.specs.Next.{FollowerAt, HasTurnAt, IsNextOpen, NextOutAt};
ghost use Rattle.session_order.specs.DoneParts.{done_at_front};
ghost use Rattle.session_order.specs.LettingGo.{LetsGo, ForgetsAt};
ghost use Rattle.std.specs.HashMap.{get};

use key_split::{Op, Part};
use resp_wire::{Bytes, NoMemory};
use slot_hash::Slot;
use std::alloc::Global;
use std::cmp::Reverse;
use std::collections::{BinaryHeap, HashMap, VecDeque};
use std::marker::Model;
use std::mem;

/// How far a part is.
#[derive(Drop)]
pub enum PartStage {
    /// It was not handed out.
    Waiting(Part),
    /// It was handed out, and has not ended.
    Out(Slot),
    Done,
}

impl PartStage {
    fn is_done(&self) -> bool
        ensures { result ≡ is_done self.now }
    {
        matches!(self, PartStage::Done)
    }

    fn is_waiting(&self) -> bool
        ensures { result ≡ is_waiting self.now }
    {
        matches!(self, PartStage::Waiting(_))
    }
}

/// Parts, numbered on from the first, and the tables by which the next one is found.
#[derive(Drop)]
struct Tables {
    first: u64,
    stages: VecDeque<PartStage>,
    /// For each part that has not ended the number of the next one for its slot.
    later: VecDeque<Option<u64>>,
    /// For each part that has not ended the number of the one before for its slot.
    earlier: VecDeque<Option<u64>>,
    /// For each slot with a part that has not ended the number of the last one.
    last: HashMap<u16, u64>,
    /// The parts that were not handed out and whose turn it is.
    turns: BinaryHeap<Reverse<u64>>,
}

/// The parts that a session holds.
#[derive(Drop)]
pub struct Queue {
    tables: Tables,
    /// How many parts at the front are done.
    done: usize,
}

impl Model for Queue {
    ghost use Rattle.session_order.specs.Turn.{QueueModel};

    ghost Value = { QueueModel };

    ghost use Rattle.session_order.specs.Turn.{IsNumbered};
    ghost use Rattle.session_order.specs.Tables.{AreSound};
    ghost use Rattle.session_order.specs.DoneParts.{done_at_front};
    ghost use Rattle.std.specs.Prelude.{◌≡◌};

    ghost view = { λ a. record { first = a.tables.first; stages = a.tables.stages.items } };

    ghost invariant = { λ a. IsNumbered a.tables.first a.tables.stages.items × AreSound a.tables × (a.done ≡ done_at_front a.tables.stages.items) };
}

impl Queue {
    ghost use Rattle.key_split.specs.OneKey.{HasArgs, one_at};
    ghost use Rattle.session_order.specs.Turn.{QueueModel, HandOutcome, FollowOutcome, NextPlace};
    ghost use Rattle.session_order.specs.Next.{FollowerAt, HasTurnAt, NextOutAt};
    ghost use Rattle.session_order.specs.declared.queue.PartStage.TheVariants.{Waiting, Done};

    pub fn new(alloc: Global) -> Queue
        ensures { result ≡ record { first = 0; stages = [] } }
    {
        Queue {
            tables: Tables {
                first: 0,
                stages: VecDeque::new(alloc),
                later: VecDeque::new(alloc),
                earlier: VecDeque::new(alloc),
                last: HashMap::new(alloc),
                turns: BinaryHeap::new(alloc),
            },
            done: 0,
        }
    }

    /// The number of the first part.
    pub fn first(&self) -> u64
        ensures { result ≡ self.now.first }
    {
        self.tables.first
    }

    /// How many parts can still be numbered.
    pub fn room(&self) -> u64
        ensures { result + (self.now.first + length self.now.stages) ≡ 2 ^ 48 }
    {
        MAX_PARTS - (self.tables.first + self.tables.stages.len() as u64)
    }

    /// Whether these many parts behind the first ones, which are done, are done too.
    pub fn are_done(&self, from: usize, count: usize) -> bool
        requires known { list_all is_done (take from self.now.stages) ≡ true }
        requires fits { from + count ≤ length self.now.stages }
        ensures { result ≡ list_all is_done (take count (drop from self.now.stages)) }
    {
        count <= self.done - from
    }

    /// Whether the part of this number was handed out and has not ended.
    pub fn is_out(&self, number: u64) -> bool
        ensures { IsTrue result ↔ IsOutAt self.now number }
    {
        let Some(place) = number.checked_sub(self.tables.first) else {
            return false;
        };
        matches!(
            self.tables.stages.get(place as usize),
            Some(PartStage::Out(_))
        )
    }

    /// Adds parts behind the others, none of them handed out.
    pub fn add(&mut self, parts: Vec<Part>) -> Result<(), NoMemory>
        requires { self.old.first + length self.old.stages + length parts.items ≤ 2 ^ 48 }
        ensures ok { OnOk result (self.new ≡ record self.old { stages = self.old.stages ++ map Waiting parts.items }) }
        ensures err { OnErr result (self.new ≡ self.old) }
    {
        make_room(&mut self.tables, parts.len())?;
        push_parts(&mut self.tables, parts);
        Ok(())
    }

    /// Adds the part that an operation on one key makes behind the others. Once there is room for it, it is moved out of the words.
    pub fn add_one(&mut self, alloc: Global, op: Op, words: &mut [Bytes]) -> Result<(), NoMemory>
        requires numbered { self.old.first + length self.old.stages < 2 ^ 48 }
        requires args { HasArgs op (drop 1 words.old) }
        ensures ok { OnOk result (self.new ≡ record self.old { stages = self.old.stages ++ Waiting (one_at op (drop 1 words.old)) ∷ [] }) }
        ensures err { OnErr result ((self.new ≡ self.old) × (words.new ≡ words.old)) }
    {
        make_room(&mut self.tables, 1)?;
        push_part(&mut self.tables, Part::taken(alloc, op, &mut words[1..]));
        Ok(())
    }

    /// Hands out the earliest part whose turn it is.
    pub fn next_part(&mut self) -> Option<(u64, Part)>
        ensures { HandOutcome self.old result self.new }
    {
        let Some(Reverse(number)) = self.tables.turns.pop() else {
            return None;
        };
        let i = (number - self.tables.first) as usize;
        let part = take_part(&mut self.tables.stages, i);
        Some((number, part))
    }

    /// Hands out the part behind the one of this number, for the same slot, where it is the next and waits.
    pub fn follower(&mut self, number: u64) -> Option<(u64, Part)>
        requires out { IsOutAt self.old number }
        ensures { FollowOutcome self.old number result self.new }
    {
        let Some(next) = self.follower_at(number) else {
            return None;
        };
        let i = (next - self.tables.first) as usize;
        let part = take_part(&mut self.tables.stages, i);
        Some((next, part))
    }

    /// The number of the part that `follower` would hand out.
    pub fn follower_at(&self, number: u64) -> Option<u64>
        requires out { IsOutAt self.now number }
        ensures { FollowerAt self.now number result }
    {
        let Some(next) = next_open(&self.tables, number) else {
            return None;
        };
        if !self.tables.stages[(next - self.tables.first) as usize].is_waiting() {
            return None;
        }
        Some(next)
    }

    /// Whether the part of this number is out, and all earlier parts for its slot have ended.
    pub fn is_next(&self, number: u64) -> bool
        ensures { IsTrue result ↔ HasTurnAt self.now number }
    {
        self.is_out(number) && is_first(&self.tables, number)
    }

    /// The number of the part that is out next behind the one of this number, for the same slot.
    pub fn next_out(&self, number: u64) -> Option<u64>
        requires out { IsOutAt self.now number }
        ensures { NextOutAt self.now number result }
    {
        let Some(next) = next_open(&self.tables, number) else {
            return None;
        };
        if self.tables.stages[(next - self.tables.first) as usize].is_waiting() {
            return None;
        }
        Some(next)
    }

    /// The place of the earliest part whose turn it is.
    pub fn next_place(&self) -> Option<u64>
        ensures { NextPlace self.now.stages result }
    {
        let Some(Reverse(number)) = self.tables.turns.peek() else {
            return None;
        };
        Some(*number - self.tables.first)
    }

    /// Notes that a part has ended.
    pub fn end(&mut self, number: u64)
        requires out { IsOutAt self.old number }
        ensures { self.new ≡ record self.old { stages = slice_set self.old.stages (number - self.old.first) Done } }
    {
        mark_done(&mut self.tables, number);
        self.done = count_done(&self.tables.stages, self.done);
    }

    /// Lets go of the parts that were not handed out. Those that are out keep their numbers, and the last of them is the last
    /// part.
    pub fn let_go(&mut self)
        ensures { LetsGo self.old self.new }
    {
        forget_waiting(&mut self.tables);
        self.done = count_done(&self.tables.stages, 0);
    }

    /// How many parts there are.
    pub fn len(&self) -> usize
        ensures { result ≡ length self.now.stages }
    {
        self.tables.stages.len()
    }

    /// Drops the first parts, which are done.
    pub fn drop_front(&mut self, count: usize)
        requires fits { count ≤ length self.old.stages }
        requires done { list_all is_done (take count self.old.stages) ≡ true }
        ensures { self.new ≡ record { first = self.old.first + count; stages = drop count self.old.stages } }
    {
        drop(self.tables.stages.drain(..count));
        drop(self.tables.later.drain(..count));
        drop(self.tables.earlier.drain(..count));
        self.tables.first += count as u64;
        self.done -= count;
    }
}

/// The most parts that a session numbers.
const MAX_PARTS: u64 = 1 << 48;

// Counts the parts at the front that are done, these many of which are known.
fn count_done(stages: &VecDeque<PartStage>, known: usize) -> usize
    requires fits { known ≤ length stages.now.items }
    requires known { list_all is_done (take known stages.now.items) ≡ true }
    ensures { result ≡ done_at_front stages.now.items }
{
    for i in known..stages.len() {
        if !stages[i].is_done() {
            return i;
        }
    }
    stages.len()
}

// Makes room for `count` more parts.
fn make_room(tables: &mut Tables, count: usize) -> Result<(), NoMemory>
    requires { AreSound tables.old }
    ensures sound { AreSound tables.new }
    ensures same { SameParts tables.old tables.new }
    ensures room { OnOk result (HasRoom tables.new count) }
{
    tables.stages.reserve(count)?;
    tables.later.reserve(count)?;
    tables.earlier.reserve(count)?;
    tables.last.reserve(count)?;
    let held = tables.stages.len();
    let Some(most) = held.checked_add(count) else {
        return Err(NoMemory);
    };
    tables.turns.reserve(most)?;
    Ok(())
}

// Puts parts behind the others, none of them handed out.
fn push_parts(tables: &mut Tables, parts: Vec<Part>)
    requires sound { AreSound tables.old }
    requires numbered { tables.old.first + length tables.old.stages.items + vec_len parts ≤ 2 ^ 48 }
    requires room { HasRoom tables.old (vec_len parts) }
    ensures sound { AreSound tables.new }
    ensures first { tables.new.first ≡ tables.old.first }
    ensures stages { tables.new.stages.items ≡ tables.old.stages.items ++ map PartStage.Waiting parts.items }
{
    for part in parts {
        push_part(tables, part);
    }
}

// Puts one more part behind the others. It has its turn where it is the only one of its slot that has not ended.
fn push_part(tables: &mut Tables, part: Part)
    requires sound { AreSound tables.old }
    requires numbered { tables.old.first + length tables.old.stages.items < 2 ^ 48 }
    requires room { HasRoom tables.old 1 }
    ensures sound { AreSound tables.new }
    ensures first { tables.new.first ≡ tables.old.first }
    ensures stages { tables.new.stages.items ≡ tables.old.stages.items ++ PartStage.Waiting part ∷ [] }
    ensures room { (n : ℕ) → HasRoom tables.old (suc n) → HasRoom tables.new n }
{
    let slot = part.slot().number();
    let number = tables.first + tables.stages.len() as u64;
    tables.stages.push_back_reserved(PartStage::Waiting(part));
    tables.later.push_back_reserved(None);
    match tables.last.insert(slot, number) {
        Ok(Some(before)) => {
            tables.earlier.push_back_reserved(Some(before));
            tables.later[(before - tables.first) as usize] = Some(number);
        }
        Ok(None) => {
            tables.earlier.push_back_reserved(None);
            let _ = tables.turns.push(Reverse(number));
        }
        Err(_) => {}
    }
}

// The number of the next part for the slot of the one of this number, which is out.
fn next_open(tables: &Tables, number: u64) -> Option<u64>
    requires links { LinksIn tables.now }
    requires out { IsOutAt (parts_in tables.now) number }
    ensures { IsNextOpen (parts_in tables.now) number result }
{
    tables.later[(number - tables.first) as usize]
}

// Whether the part of this number, which is out, is the first of those of its slot that have not ended.
fn is_first(tables: &Tables, number: u64) -> bool
    requires links { LinksIn tables.now }
    requires out { IsOutAt (parts_in tables.now) number }
    ensures { IsTrue result ↔ HasTurnAt (parts_in tables.now) number }
{
    tables.earlier[(number - tables.first) as usize].is_none()
}

// The part of this number is done. Where it was the first of its slot it is the turn of the next one, if that one waits.
fn mark_done(tables: &mut Tables, number: u64)
    requires sound { AreSound tables.old }
    requires out { IsOutAt (parts_in tables.old) number }
    ensures sound { AreSound tables.new }
    ensures first { tables.new.first ≡ tables.old.first }
    ensures stages { tables.new.stages.items ≡ slice_set tables.old.stages.items (number - tables.old.first) PartStage.Done }
{
    let i = (number - tables.first) as usize;
    let slot = slot_out(&tables.stages, i);
    let next = unlink(tables, i, slot.number());
    tables.stages[i] = PartStage::Done;
    let Some(next) = next else {
        return;
    };
    if !tables.stages[(next - tables.first) as usize].is_waiting() {
        return;
    }
    let _ = tables.turns.push(Reverse(next));
}

// The slot of the part at i, which is out.
fn slot_out(stages: &VecDeque<PartStage>, i: usize) -> Slot
    requires { (slot : ℕ) × (slice_get stages.now.items i ≡ Some (PartStage.Out slot)) }
    ensures { slice_get stages.now.items i ≡ Some (PartStage.Out result) }
{
    let PartStage::Out(slot) = &stages[i] else {
        unreachable!()
    };
    *slot
}

// Takes the part at i out of those of its slot that have not ended. Where it was the first of them the answer is the next one.
fn unlink(tables: &mut Tables, i: usize, slot: u16) -> Option<u64>
    requires links { LinksIn tables.old }
    requires part { IsOpenAt tables.old i slot }
    ensures { Unlinks tables.old i slot result tables.new }
{
    let before = tables.earlier[i];
    let next = tables.later[i];
    link(&mut tables.later, tables.first, before, next);
    link(&mut tables.earlier, tables.first, next, before);
    put_last(&mut tables.last, slot, before, next);
    match before {
        Some(_) => None,
        None => next,
    }
}

// Puts a link at the place of the part of this number, if there is one.
fn link(table: &mut VecDeque<Option<u64>>, first: u64, number: Option<u64>, link: Option<u64>)
    requires { (n : ℕ) → number ≡ Some n → (first ≤ n) × (n - first < length table.old.items) }
    ensures { table.new.items ≡ with_link table.old.items first number link }
{
    if let Some(number) = number {
        table[(number - first) as usize] = link;
    }
}

// Puts the part before in the place of the last part of a slot, or none, where no other follows.
fn put_last(last: &mut HashMap<u16, u64>, slot: u16, before: Option<u64>, next: Option<u64>)
    requires { IsSome (get nat_eq last.old slot) }
    ensures own { get nat_eq last.new slot ≡ (if is_some next then get nat_eq last.old slot else before) }
    ensures others { (q : ℕ) → slot ≢ q → get nat_eq last.new q ≡ get nat_eq last.old q }
{
    if next.is_some() {
        return;
    }
    match before {
        Some(number) => {
            let _ = last.insert(slot, number);
        }
        None => {
            last.remove(&slot);
        }
    }
}

// Hands out the part at i.
fn take_part(stages: &mut VecDeque<PartStage>, i: usize) -> Part
    requires { IsWaiting (slice_get stages.old.items i) }
    ensures part { slice_get stages.old.items i ≡ Some (PartStage.Waiting result) }
    ensures stages { stages.new.items ≡ slice_set stages.old.items i (PartStage.Out (slot_of result.key)) }
{
    let PartStage::Waiting(part) = mem::replace(&mut stages[i], PartStage::Done) else {
        unreachable!()
    };
    stages[i] = PartStage::Out(part.slot());
    part
}

// Lets go of the parts that were not handed out, and of all behind the last that is out.
fn forget_waiting(tables: &mut Tables)
    requires sound { AreSound tables.old }
    requires numbered { IsNumbered tables.old.first tables.old.stages.items }
    ensures sound { AreSound tables.new }
    ensures does { LetsGo (parts_in tables.old) (parts_in tables.new) }
{
    let mut kept = 0;
    for i in 0..tables.stages.len() {
        if forget_at(tables, i) {
            kept = i + 1;
        }
    }
    tables.stages.truncate(kept);
    tables.later.truncate(kept);
    tables.earlier.truncate(kept);
    tables.turns.clear();
    tables.stages.shrink_to_fit();
    tables.later.shrink_to_fit();
    tables.earlier.shrink_to_fit();
}

// Lets go of the part at i, unless it is out. Whether it is out.
fn forget_at(tables: &mut Tables, i: usize) -> bool
    requires links { LinksIn tables.old }
    requires fits { i < length tables.old.stages.items }
    ensures { ForgetsAt tables.old i result tables.new }
{
    let slot = match &tables.stages[i] {
        PartStage::Done => return false,
        PartStage::Out(_) => return true,
        PartStage::Waiting(part) => part.slot(),
    };
    unlink(tables, i, slot.number());
    tables.stages[i] = PartStage::Done;
    false
}
