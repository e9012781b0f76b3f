//! The commands of a worker that have something to do, now or after a pause.

ghost use Rattle.std.specs.Prelude.{◌≡◌, ◌<◌, ◌∷◌, ◌↔◌, [], ℕ, List, IsTrue, MatchOption, OnOk, Some, drop, true, ⊤};
ghost use Rattle.std.specs.BinaryHeap.{IsHeap, IsHeap-prop, heap_items};
ghost use Rattle.proxy_turns.specs.Waiting.{AreAllLater, AreLater, BeganNone, EndsThen, IsFirstDue, IsLater, first_due_first};

use crate::gate::Gate;
use key_split::Ticket;
use resp_wire::NoMemory;
use std::alloc::Global;
use std::cmp::Reverse;
use std::collections::{BinaryHeap, VecDeque};

/// A command that waits until it is due, in milliseconds of its worker's gate. The one that is due first is the least.
#[derive(Clone, Copy, PartialEq, Eq, PartialOrd, Ord)]
pub(crate) struct PausedCommand {
    due: u64,
    client: u32,
    part: u64,
}

/// The commands that have ended or are to be posted again.
#[derive(Drop)]
pub(crate) struct DueCommands {
    worker: u16,
    /// Those that have ended, the oldest first.
    ended: VecDeque<Ticket>,
    /// Those that are to be posted again now, the oldest first.
    due: VecDeque<Ticket>,
    /// Those that were refused and wait.
    paused: BinaryHeap<Reverse<PausedCommand>>,
    ghost in_order: { IsHeap first_due_first (heap_items paused) } by { IsHeap-prop first_due_first (heap_items paused) },
}

impl DueCommands {
    ghost use Rattle.proxy_turns.specs.DueCommands.{EndedOne, HasRoom, KeepsNoted, NotesPause, NotesRefused, NotesUntil, TakesPaused, is_noted};

    /// Those of the worker of this number: none.
    pub(crate) fn new(alloc: Global, worker: u16) -> DueCommands {
        DueCommands {
            worker,
            ended: VecDeque::new(alloc),
            due: VecDeque::new(alloc),
            paused: BinaryHeap::new(alloc),
        }
    }

    /// Makes room for one more.
    pub(crate) fn reserve_one(&mut self) -> Result<(), NoMemory>
        ensures kept { KeepsNoted self.old self.new }
        ensures ended { self.new.ended.items ≡ self.old.ended.items }
        ensures paused { heap_items self.new.paused ≡ heap_items self.old.paused }
        ensures room { OnOk result (HasRoom self.new) }
    {
        self.ended.reserve(1)?;
        self.due.reserve(1)?;
        self.paused.reserve(1)?;
        Ok(())
    }

    /// Notes a command that was told something, with its pause before its next post; `None` where it wants none. There is
    /// room. At a gate without time it is due now.
    pub(crate) fn note<G: Gate>(&mut self, ticket: Ticket, pause: Option<u64>, gate: &G)
        requires { HasRoom self.old }
        ensures kept { KeepsNoted self.old self.new }
        ensures noted { is_noted self.new ticket.client ticket.part pause ≡ true }
        ensures until { NotesPause (G.tells gate.now) self.old ticket pause self.new }
    {
        match pause {
            None => self.ended.push_back_reserved(ticket),
            Some(pause) => self.note_refused(ticket, pause, gate),
        }
    }

    /// Notes a command that was refused, with its pause before its next post.
    pub(crate) fn note_refused<G: Gate>(&mut self, ticket: Ticket, pause: u64, gate: &G)
        requires { HasRoom self.old }
        ensures kept { KeepsNoted self.old self.new }
        ensures ended { self.new.ended ≡ self.old.ended }
        ensures noted { is_noted self.new ticket.client ticket.part (Some pause) ≡ true }
        ensures until { NotesRefused (G.tells gate.now) self.old ticket pause self.new }
    {
        match time_after(pause, gate) {
            Some(due) => self.pause_until(due, ticket),
            None => self.due.push_back_reserved(ticket),
        }
    }

    fn pause_until(&mut self, due: u64, ticket: Ticket)
        requires { HasRoom self.old }
        ensures kept { KeepsNoted self.old self.new }
        ensures ended { self.new.ended ≡ self.old.ended }
        ensures noted { (pause : ℕ) → 0 < pause → is_noted self.new ticket.client ticket.part (Some pause) ≡ true }
        ensures until { NotesUntil self.old ticket (Some due) self.new }
    {
        let _ = self.paused.push(Reverse(PausedCommand {
            due,
            client: ticket.client,
            part: ticket.part,
        }));
    }

    /// The pauses end of those that are due by now.
    pub(crate) fn end_pauses<G: Gate>(&mut self, gate: &G) -> Result<(), NoMemory>
        ensures kept { KeepsNoted self.old self.new }
        ensures none { BeganNone (heap_items self.old.paused) (heap_items self.new.paused) }
        ensures later { OnOk result (AreAllLater (G.tells gate.now) (heap_items self.new.paused)) }
    {
        if self.paused.is_empty() {
            return Ok(());
        }
        let time = gate.time();
        while self.end_pause(time)? {}
        Ok(())
    }

    // The pause ends of the first of those that wait, where it is due by this time.
    fn end_pause(&mut self, time: Option<u64>) -> Result<bool, NoMemory>
        ensures kept { KeepsNoted self.old self.new }
        ensures none { BeganNone (heap_items self.old.paused) (heap_items self.new.paused) }
        ensures ended { EndedOne time (heap_items self.old.paused) result (heap_items self.new.paused) }
    {
        self.due.reserve(1)?;
        let Some(ticket) = self.take_paused(time) else {
            return Ok(false);
        };
        self.due.push_back_reserved(ticket);
        Ok(true)
    }

    /// When the first of those that wait is due.
    pub(crate) fn next_due(&self) -> Option<u64>
        ensures { IsFirstDue (heap_items self.now.paused) result }
    {
        match self.paused.peek() {
            Some(Reverse(command)) => Some(command.due),
            None => None,
        }
    }

    // Takes off the first of those that wait, where it is due by this time.
    fn take_paused(&mut self, time: Option<u64>) -> Option<Ticket>
        ensures takes { TakesPaused self.old result self.new }
        ensures later { MatchOption result (AreLater time (heap_items self.new.paused)) (λ _. ⊤) }
    {
        if is_later(self.next_due()?, time) {
            return None;
        }
        let Reverse(
            PausedCommand {
                due: _,
                client,
                part,
            },
        ) = self.paused.pop()?;
        Some(Ticket {
            worker: self.worker,
            client,
            part,
        })
    }

    /// The oldest of those that have ended.
    pub(crate) fn first_ended(&self) -> Option<Ticket>
        ensures { MatchOption result (self.now.ended.items ≡ []) (λ ticket. (rest : List Ticket) × (self.now.ended.items ≡ ticket ∷ rest)) }
    {
        self.ended.front().copied()
    }

    /// The oldest of those that are due.
    pub(crate) fn first_due(&self) -> Option<Ticket>
        ensures { MatchOption result (self.now.due.items ≡ []) (λ ticket. (rest : List Ticket) × (self.now.due.items ≡ ticket ∷ rest)) }
    {
        self.due.front().copied()
    }

    /// Takes off the oldest of those that have ended.
    pub(crate) fn drop_ended(&mut self)
        ensures ended { self.new.ended.items ≡ drop 1 self.old.ended.items }
        ensures kept { (self.new.due ≡ self.old.due) × (self.new.paused ≡ self.old.paused) }
    {
        let _ = self.ended.pop_front();
    }

    /// Takes off the oldest of those that are due.
    pub(crate) fn drop_due(&mut self)
        ensures due { self.new.due.items ≡ drop 1 self.old.due.items }
        ensures kept { (self.new.ended ≡ self.old.ended) × (self.new.paused ≡ self.old.paused) }
    {
        let _ = self.due.pop_front();
    }
}

// When a pause ends that begins now; `None` where there is no pause, or no time.
fn time_after<G: Gate>(pause: u64, gate: &G) -> Option<u64>
    ensures { EndsThen (G.tells gate.now) pause result }
{
    if pause == 0 {
        return None;
    }
    Some(gate.time()?.saturating_add(pause))
}

// Whether what is due then waits at this time. Where there is no time it does not.
fn is_later(due: u64, time: Option<u64>) -> bool
    ensures { IsTrue result ↔ IsLater time due }
{
    match time {
        Some(now) => due > now,
        None => false,
    }
}
