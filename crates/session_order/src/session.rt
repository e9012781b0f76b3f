//! A client's session.

ghost use Rattle.std.specs.Prelude.{◌≡◌, ◌≢◌, ℕ, List, ◌<◌, ◌≤◌, ◌+◌, ◌-◌, ◌++◌, ◌^◌, ◌↔◌, [], ◌∷◌, None, IsTrue, IfOk, OnOk, OnErr, Ok, Err, true, false, length, map, drop, take, replicate};
ghost use Rattle.std.specs.VecDeque.{deque_len, deque_capacity};
ghost use Rattle.session_order.specs.declared.queue.PartStage.TheVariants.{Waiting};
ghost use Rattle.session_order.specs.LettingGo.{one_for};

use crate::closing::{Broken, Closing};
use crate::drained::{Drained, tail_len};
use crate::fault::SessionFault;
use crate::queue::Queue;
use crate::replies::{Due, PendingReply};
use crate::request_kind::RequestKind;
use crate::request_reader::RequestReader;
use crate::texts::goodbye;
use key_split::{
    Ended, Joining, Op, Part, Parts, PlanFault, Planned, Ticket, one_key_op, plan, refusal,
};
use resp_wire::{Bytes, Limits, NoMemory, Value, WireFault, Words};
use std::alloc::Global;
use std::collections::VecDeque;
use std::marker::Model;

/// The most requests of a client without a drained reply.
const MAX_UNANSWERED: usize = 1024;

/// A client's session.
pub struct Session {
    alloc: Global,
    worker: u16,
    client: u32,
    reader: RequestReader,
    requests: VecDeque<PendingReply>,
    queue: Queue,
    ends: VecDeque<Ended>,
    closing: Closing,
}

// By hand, so that the crates above prove one call.
impl Drop for Session {
    fn drop(self) {
        let Session {
            alloc: _,
            worker: _,
            client: _,
            reader,
            requests,
            queue,
            ends,
            closing: _,
        } = self;
        drop(reader);
        drop(requests);
        drop(queue);
        drop(ends);
    }
}

impl Model for Session {
    ghost use Rattle.session_order.specs.SessionModel.{SessionModel};

    ghost Value = { SessionModel };

    ghost use Rattle.std.specs.Coded.{codes};
    ghost use Rattle.resp_wire.specs.Stored.{coded_data};

    ghost coded = { Prim.hlevel (codes, coded_data) };

    ghost use Rattle.session_order.specs.Sound.{IsSoundSession};

    ghost view = { λ a. record {
      worker = a.worker;
      client = a.client;
      incoming = a.reader;
      requests = a.requests.items;
      stages = a.queue.stages;
      ends = a.ends.items;
      first = a.queue.first;
      closing = a.closing;
    } };

    ghost invariant = { λ a. IsSoundSession a.reader a.requests.items a.queue a.ends.items a.closing };
}

impl Session {
    ghost use Rattle.key_split.specs.declared.travel.Ticket.{Ticket};
    ghost use Rattle.session_order.specs.Life.{fresh};
    ghost use Rattle.session_order.specs.Replies.{DrainOutcome, count_of, parts_of, tail_of};
    ghost use Rattle.session_order.specs.Turn.{NextPlace};
    ghost use Rattle.session_order.specs.Steps.{FeedOutcome, ReadOutcome, ReadyOutcome, FollowerOutcome, IsHandedOut, EndOutcome, IsFinished, IsOut};
    ghost use Rattle.session_order.specs.Behind.{FollowerPlace, NextInTurn};
    ghost use Rattle.session_order.specs.HangingUp.{HangsUp};
    ghost use Rattle.session_order.specs.Stopping.{without_reading};

    /// A session to which nothing was fed.
    pub fn new(alloc: Global, worker: u16, client: u32, limits: Limits) -> Session
        ensures { result ≡ fresh worker client limits }
    {
        Session {
            alloc,
            worker,
            client,
            reader: RequestReader::new(alloc, limits),
            requests: VecDeque::new(alloc),
            queue: Queue::new(alloc),
            ends: VecDeque::new(alloc),
            closing: Closing::Open,
        }
    }

    /// Takes the first `count` bytes of a buffer, or nothing where too many requests are unanswered, and answers how many it took. A
    /// buffer whose bytes were taken may come back as another one.
    pub fn feed(&mut self, buffer: &mut Vec<u8>, count: usize) -> Result<usize, SessionFault>
        requires { count ≤ length buffer.old.items }
        ensures does { FeedOutcome self.old (take count buffer.old.items) result self.new }
        ensures left { IfOk result (λ n. take (count - n) buffer.new.items ≡ drop n (take count buffer.old.items)) }
        ensures kept { OnErr result (buffer.new.items ≡ buffer.old.items) }
    {
        match self.closing {
            Closing::Faulted(why, _) => return Err(why.fault()),
            _ if self.requests.len() == MAX_UNANSWERED => return Ok(0),
            Closing::Quit => return Ok(count),
            Closing::Open => {}
        }
        match self.reader.feed(buffer, count) {
            Ok(()) => Ok(count),
            Err(_) => Err(SessionFault::NoMemory),
        }
    }

    /// Gives the room of what was fed away, where all of it was read, or little is left: `room` is then that buffer, if it has more.
    pub fn give_room(&mut self, room: &mut Vec<u8>)
        ensures { self.new ≡ self.old }
    {
        self.reader.give_room(room);
    }

    /// Reads at most one request. It is false where none is whole, too many are unanswered, or QUIT was read.
    pub fn read(&mut self) -> Result<bool, SessionFault>
        ensures does { ReadOutcome self.old result self.new }
    {
        match self.closing {
            Closing::Open => {}
            Closing::Quit => return Ok(false),
            Closing::Faulted(why, _) => return Err(why.fault()),
        }
        if self.requests.len() == MAX_UNANSWERED {
            return Ok(false);
        }
        match self.reader.next() {
            Ok(Some(RequestKind::Words(words))) => self.add(words),
            Ok(Some(RequestKind::Skipped)) => Ok(true),
            Ok(Some(RequestKind::Refused)) => {
                self.closing = Closing::Faulted(Broken::NotRequest, true);
                Err(SessionFault::NotRequest)
            }
            Ok(None) => Ok(false),
            Err(WireFault::NoMemory) => Err(SessionFault::NoMemory),
            Err(fault) => {
                self.closing = Closing::Faulted(Broken::Wire(fault), true);
                Err(SessionFault::Wire(fault))
            }
        }
    }

    /// Hands out the earliest part whose turn it is, of those that were not handed out.
    pub fn ready(&mut self) -> Option<(Ticket, Part)>
        ensures does { ReadyOutcome self.old result self.new }
    {
        let Some((number, part)) = self.queue.next_part() else {
            return None;
        };
        let ticket = Ticket {
            worker: self.worker,
            client: self.client,
            part: number,
        };
        Some((ticket, part))
    }

    /// Hands out the next part for the slot of one that is out, to go behind it, where that one is the last that is out and the
    /// next one waits.
    pub fn follower(&mut self, ticket: Ticket) -> Option<(Ticket, Part)>
        requires { IsHandedOut self.old ticket }
        ensures does { FollowerOutcome self.old ticket result self.new }
    {
        let Some((number, part)) = self.queue.follower(ticket.part) else {
            return None;
        };
        let ticket = Ticket {
            worker: self.worker,
            client: self.client,
            part: number,
        };
        Some((ticket, part))
    }

    /// Where the part stands that `follower` would hand out, among those whose replies were not drained.
    pub fn follower_place(&self, ticket: Ticket) -> Option<u64>
        requires { IsHandedOut self.now ticket }
        ensures { FollowerPlace self.now ticket result }
    {
        let Some(number) = self.queue.follower_at(ticket.part) else {
            return None;
        };
        Some(number - self.queue.first())
    }

    /// Where the part stands that `ready` would hand out, among those whose replies were not drained.
    pub fn next_place(&self) -> Option<u64>
        ensures { NextPlace self.now.stages result }
    {
        self.queue.next_place()
    }

    /// How many requests were read whose replies were not drained.
    pub fn unanswered(&self) -> usize
        ensures { result ≡ length self.now.requests }
    {
        self.requests.len()
    }

    /// How many parts the oldest request has whose reply was not drained.
    pub fn parts_of_oldest(&self) -> usize
        ensures { result ≡ parts_of (take 1 self.now.requests) }
    {
        match self.requests.front() {
            Some(PendingReply::Parts(_, count)) => *count,
            _ => 0,
        }
    }

    /// Whether the ticket is of a part that was handed out and has not ended.
    pub fn awaits(&self, ticket: Ticket) -> bool
        ensures { IsTrue result ↔ IsHandedOut self.now ticket }
    {
        ticket.worker == self.worker
            && ticket.client == self.client
            && self.queue.is_out(ticket.part)
    }

    /// Whether the ticket is of a part that is out, and all earlier parts for its slot have ended.
    pub fn is_next(&self, ticket: Ticket) -> bool
        ensures { IsTrue result ↔ IsOut self.now ticket }
    {
        ticket.client == self.client
            && ticket.worker == self.worker
            && self.queue.is_next(ticket.part)
    }

    /// The part that is out next behind one that is out, for its slot: once that one has ended in its turn, it is this one's.
    pub fn next_in_turn(&self, ticket: Ticket) -> Option<Ticket>
        requires { IsHandedOut self.now ticket }
        ensures { NextInTurn self.now ticket result }
    {
        let Some(part) = self.queue.next_out(ticket.part) else {
            return None;
        };
        Some(Ticket {
            worker: self.worker,
            client: self.client,
            part,
        })
    }

    /// Tells the end of a part that was handed out.
    pub fn ended(&mut self, ticket: Ticket, end: Ended)
        requires { IsHandedOut self.old ticket }
        ensures does { EndOutcome self.old ticket end self.new }
    {
        let i = (ticket.part - self.queue.first()) as usize;
        self.queue.end(ticket.part);
        self.ends[i] = end;
    }

    /// Appends replies that are next in order until these are `most` bytes, and answers how many. Where they are fewer,
    /// none is left. A large body that ends them is not copied: it is the tail, which stands behind the output.
    pub fn drain(&mut self, out: &mut Vec<u8>, most: usize) -> Result<Drained, NoMemory>
        ensures does { DrainOutcome most self.old out.old.items (count_of result) self.new (out.new.items ++ tail_of result) }
        ensures grown { (more : List ℕ) × (out.new.items ≡ out.old.items ++ more) }
    {
        let start = out.len();
        let line_owed = self.closing.owes_line();
        let ends: &[Ended] = self.ends.make_contiguous();
        let due = Due::new(&self.requests, &self.queue, ends);
        match due.write(self.alloc, line_owed, most, out) {
            Ok(written) => {
                self.closing = self.closing.after(self.requests.len() <= written.requests);
                drop_front(&mut self.requests, written.requests);
                drop_front(&mut self.ends, written.parts);
                self.queue.drop_front(written.parts);
                Ok(Drained {
                    count: out.len() - start + tail_len(&written.tail),
                    tail: written.tail,
                })
            }
            Err(refused) => {
                out.truncate(start);
                Err(refused)
            }
        }
    }

    /// Lets go of all but the places of the parts that are out, whose ends may still be told: the client is gone.
    pub fn hang_up(&mut self)
        ensures does { HangsUp self.old self.new }
    {
        self.reader = RequestReader::new(self.alloc, Limits::full());
        self.closing = Closing::Quit;
        self.queue.let_go();
        let count = self.queue.len();
        keep_one(&mut self.requests, count);
        keep_lost(&mut self.ends, count);
    }

    /// Reads no more requests, as after QUIT: what was read is answered, and then the session is finished.
    pub fn stop_reading(&mut self)
        ensures { self.new ≡ without_reading self.old }
    {
        self.closing = self.closing.closed();
    }

    /// Whether the session is closed and nothing is left to drain.
    pub fn finished(&self) -> bool
        ensures { IsTrue result ↔ IsFinished self.now }
    {
        match self.closing {
            Closing::Open => false,
            Closing::Quit => self.requests.is_empty(),
            Closing::Faulted(_, owed) => !owed && self.requests.is_empty(),
        }
    }
}

impl Session {
    ghost use Rattle.session_order.specs.Steps.{MayRead, AddOutcome, added, with_words, broken_by};
    ghost use Rattle.key_split.specs.Join.{CanJoin};
    ghost use Rattle.key_split.specs.OneKey.{HasArgs, one_at};
    ghost use Rattle.key_split.specs.declared.planned.Planned.TheVariants as planned;
    ghost use Rattle.session_order.specs.declared.closing.Broken.TheVariants.{NotRequest};

    // Adds what a request's words ask for: its reply or its parts. Where memory runs out the words are put back.
    fn add(&mut self, words: Words) -> Result<bool, SessionFault>
        requires open { MayRead self.old }
        requires none_ahead { self.old.incoming.ahead ≡ None }
        requires words { 0 < length words }
        ensures { AddOutcome self.old words result self.new }
    {
        let mut words = words.into_vec();
        match self.add_words(words.as_mut_slice()) {
            Ok(true) => Ok(true),
            Ok(false) => Err(SessionFault::NotRequest),
            Err(_) => {
                self.reader.put_back(Words::new(words));
                Err(SessionFault::NoMemory)
            }
        }
    }

    // Adds what these words ask for. It is false where its parts are more than can be numbered, which is a fault. A key and its value
    // are moved out of the words where they are all of its part.
    #[tactic(auto, unfolding(crate::specs::PendingReply::plan_for))]
    fn add_words(&mut self, words: &mut [Bytes]) -> Result<bool, NoMemory>
        requires open { MayRead self.old }
        requires words { 0 < length words.old }
        ensures added { result ≡ Ok true → with_words self.old words.old ≡ Ok self.new }
        ensures too_many { result ≡ Ok false → (with_words self.old words.old ≡ Err NotRequest) × (self.new ≡ broken_by self.old NotRequest) }
        ensures err { OnErr result ((self.new ≡ self.old) × (words.new ≡ words.old)) }
    {
        match one_key_op(words) {
            Ok(Some(op)) => self.add_one(op, words),
            Ok(None) => self.add_planned(words),
            Err(fault) => {
                let line = refusal(self.alloc, &fault)?;
                self.add_reply(line)?;
                Ok(true)
            }
        }
    }

    // Adds the part that an operation on one key makes. It is false where no more can be numbered, which is a fault.
    fn add_one(&mut self, op: Op, words: &mut [Bytes]) -> Result<bool, NoMemory>
        requires open { MayRead self.old }
        requires args { HasArgs op (drop 1 words.old) }
        ensures added { result ≡ Ok true → added self.old (Ok (planned.Parts Joining.One (one_at op (drop 1 words.old) ∷ []))) ≡ Ok self.new }
        ensures too_many { result ≡ Ok false → (added self.old (Ok (planned.Parts Joining.One (one_at op (drop 1 words.old) ∷ []))) ≡ Err NotRequest) × (self.new ≡ broken_by self.old NotRequest) }
        ensures err { OnErr result ((self.new ≡ self.old) × (words.new ≡ words.old)) }
    {
        if self.queue.room() == 0 {
            self.closing = Closing::Faulted(Broken::NotRequest, true);
            return Ok(false);
        }
        self.requests.reserve(1)?;
        self.ends.reserve(1)?;
        self.queue.add_one(self.alloc, op, words)?;
        self.requests
            .push_back_reserved(PendingReply::Parts(Joining::One, 1));
        self.ends.push_back_reserved(Ended::Lost);
        Ok(true)
    }

    // Adds what these words are planned as. It is false where the parts are more than can be numbered, which is a fault.
    #[tactic(auto, unfolding(crate::specs::PendingReply::plan_for))]
    fn add_planned(&mut self, words: &[Bytes]) -> Result<bool, NoMemory>
        requires open { MayRead self.old }
        requires words { 0 < length words.now }
        ensures added { result ≡ Ok true → with_words self.old words.now ≡ Ok self.new }
        ensures too_many { result ≡ Ok false → (with_words self.old words.now ≡ Err NotRequest) × (self.new ≡ broken_by self.old NotRequest) }
        ensures err { OnErr result (self.new ≡ self.old) }
    {
        match plan(self.alloc, words) {
            Ok(Planned::Local(value)) => {
                self.add_reply(value)?;
                Ok(true)
            }
            Ok(Planned::Close) => {
                let value = goodbye(self.alloc)?;
                self.add_reply(value)?;
                self.closing = Closing::Quit;
                Ok(true)
            }
            Ok(Planned::Parts(how, parts)) => self.add_parts(how, parts),
            Err(PlanFault::NoMemory) => Err(NoMemory),
            Err(fault) => {
                let line = refusal(self.alloc, &fault)?;
                self.add_reply(line)?;
                Ok(true)
            }
        }
    }

    // Adds a reply.
    fn add_reply(&mut self, value: Value) -> Result<(), NoMemory>
        requires open { MayRead self.old }
        ensures ok { OnOk result (self.new ≡ record self.old { requests = self.old.requests ++ PendingReply.Reply value ∷ [] }) }
        ensures err { OnErr result (self.new ≡ self.old) }
    {
        self.requests.push_back(PendingReply::Reply(value))?;
        Ok(())
    }

    // Adds a request's parts. It is false where they are more than can be numbered, which is a fault.
    fn add_parts(&mut self, how: Joining, parts: Parts) -> Result<bool, NoMemory>
        requires open { MayRead self.old }
        requires joinable { CanJoin how (length parts) }
        ensures added { result ≡ Ok true → added self.old (Ok (planned.Parts how parts)) ≡ Ok self.new }
        ensures too_many { result ≡ Ok false → (added self.old (Ok (planned.Parts how parts)) ≡ Err NotRequest) × (self.new ≡ broken_by self.old NotRequest) }
        ensures err { OnErr result (self.new ≡ self.old) }
    {
        let count = parts.as_slice().len();
        if count as u64 > self.queue.room() {
            self.closing = Closing::Faulted(Broken::NotRequest, true);
            return Ok(false);
        }
        queue_parts(
            &mut self.requests,
            &mut self.ends,
            &mut self.queue,
            parts.into_vec(),
        )?;
        self.requests
            .push_back_reserved(PendingReply::Parts(how, count));
        push_lost(&mut self.ends, count);
        Ok(true)
    }
}

// Drops the first n.
fn drop_front<T: Drop>(items: &mut VecDeque<T>, n: usize)
    requires { n ≤ length items.old.items }
    ensures { items.new.items ≡ drop n items.old.items }
{
    drop(items.drain(..n));
}

// Puts a request's parts behind the others, and makes room for the request and for their ends.
fn queue_parts(
    requests: &mut VecDeque<PendingReply>,
    ends: &mut VecDeque<Ended>,
    queue: &mut Queue,
    parts: Vec<Part>,
) -> Result<(), NoMemory>
    requires { queue.old.first + length queue.old.stages + length parts.items ≤ 2 ^ 48 }
    ensures requests { requests.new.items ≡ requests.old.items }
    ensures ends { ends.new.items ≡ ends.old.items }
    ensures requests_room { OnOk result (deque_len requests.new < deque_capacity requests.new) }
    ensures ends_room { OnOk result (deque_len ends.new + length parts.items ≤ deque_capacity ends.new) }
    ensures ok { OnOk result (queue.new ≡ record queue.old { stages = queue.old.stages ++ map Waiting parts.items }) }
    ensures err { OnErr result (queue.new ≡ queue.old) }
{
    requests.reserve(1)?;
    ends.reserve(parts.len())?;
    queue.add(parts)
}

// Puts places for `count` ends behind the others.
fn push_lost(ends: &mut VecDeque<Ended>, count: usize)
    requires { deque_len ends.old + count ≤ deque_capacity ends.old }
    ensures { ends.new.items ≡ ends.old.items ++ replicate count Ended.Lost }
{
    for _ in 0..count {
        ends.push_back_reserved(Ended::Lost);
    }
}

// In place of the requests there is one for `parts` parts, or none.
fn keep_one(requests: &mut VecDeque<PendingReply>, parts: usize)
    requires { 0 < parts → requests.old.items ≢ [] }
    ensures { requests.new.items ≡ one_for parts }
{
    requests.clear();
    if parts > 0 {
        requests.push_back_reserved(PendingReply::Parts(Joining::AllOk, parts));
    }
    requests.shrink_to_fit();
}

// In place of the ends there are `count` places, no more than there were.
fn keep_lost(ends: &mut VecDeque<Ended>, count: usize)
    requires { count ≤ length ends.old.items }
    ensures { ends.new.items ≡ replicate count Ended.Lost }
{
    ends.clear();
    push_lost(ends, count);
    ends.shrink_to_fit();
}
