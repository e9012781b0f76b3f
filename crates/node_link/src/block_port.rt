//! A port over a stream of bytes.

ghost use Rattle.std.specs.Prelude.{◌≡◌, ◌≤◌, ◌<◌, ◌∷◌, [], All, None, OnOk, length, map};
ghost use Rattle.std.specs.List.{list_any};
ghost use Rattle.key_split.specs.Requests.{Slots, requests_of};
ghost use Rattle.key_split.specs.Runs.{IsTogether, count_in, requests_of_run};
ghost use Rattle.node_link.specs.Blocks.{Block, BlockGivesNone, GoesAs, IsPlainRequest, Plain, block_calls, is_block, items_of, longest_at, spelled_block};
ghost use Rattle.node_link.specs.Bytes.{OffersFirst, OffersThenReads, spelled};
ghost use Rattle.node_link.specs.Collecting.{DraftOutcome, await_each};
ghost use Rattle.node_link.specs.Port.{SendOutcome, NextOutcome};
ghost use Rattle.node_link.specs.Waiting.{GaveNone};
ghost use Rattle.node_link.specs.declared.replies.Awaited.TheVariants as awaited;

use crate::inbox::Inbox;
use crate::outbox::{Outbox, Urgency};
use crate::port::{NodePort, PortFault};
use crate::replies::{Awaited, Replies};
use crate::run_port::RunPort;
use crate::spelling::{push_batch, push_block, push_slots};
use crate::stream::{Gone, Stream};
use key_split::{Batch, Run};
use resp_wire::{Limits, NoMemory, Value};
use std::alloc::Global;
use std::marker::Model;
use std::mem;

/// Commands of a block at most.
const LONGEST_BLOCK: usize = 64;

/// A port over a stream that does not block. A run of several commands goes as a block: MULTI, the commands, EXEC. Nothing is told
/// before EXEC is answered.
///
/// It holds what is sent until `FLUSH_AFTER_READS` reads came with nothing sent between them, or 16 KiB wait, so that under load one
/// write and one read serve many commands; a request that finds nothing under way is written with the next read, unless another
/// comes before. What the stream refused is offered again at the next call. One write is offered 64 KiB and a request at most.
#[derive(Drop)]
pub struct BlockPort<S> {
    stream: S,
    outbox: Outbox,
    inbox: Inbox,
    replies: Replies,
    /// Whether runs may go as blocks.
    takes_blocks: bool,
}

impl<S> Model for BlockPort<S> {
    ghost use Rattle.std.specs.Prelude.{◌≡◌, []};
    ghost use Rattle.std.specs.Coded.{codes};
    ghost use Rattle.resp_wire.specs.Stored.{coded_data};
    ghost use Rattle.node_link.specs.Blocks.{BlockPortModel};
    ghost use Rattle.node_link.specs.Bytes.{input_of};

    ghost Value = { BlockPortModel S };

    ghost coded = { Prim.hlevel (codes, coded_data) };

    ghost view = { λ a. record {
      bytes = record { stream = a.stream; unsent = a.outbox.unsent.bytes; refused = a.outbox.unsent.refused; quiet_reads = a.outbox.unsent.quiet_reads; input = input_of a.inbox };
      replies = a.replies;
      takes_blocks = a.takes_blocks;
    } };

    ghost invariant = { λ a. a.outbox.draft ≡ [] };
}

impl<S> BlockPort<S> {
    /// A port over a stream of which nothing was read or written. `takes_blocks` is whether its node does: where it does not, the
    /// port takes runs of one.
    pub fn new(alloc: Global, stream: S, limits: Limits, takes_blocks: bool) -> Self
        ensures { result ≡ record {
          bytes = record { stream = stream; unsent = []; refused = 0; quiet_reads = 0; input = record { bounds = limits; unread = []; fault = None } };
          replies = record { awaited = []; came = []; told = [] };
          takes_blocks = takes_blocks;
        } }
    {
        BlockPort {
            stream,
            outbox: Outbox::new(alloc),
            inbox: Inbox::new(alloc, limits),
            replies: Replies::new(alloc),
            takes_blocks,
        }
    }

    pub fn stream(&self) -> &S
        ensures { result.now ≡ self.now.bytes.stream }
    {
        &self.stream
    }

    /// Whether replies to a block are awaited.
    pub fn awaits_block(&self) -> bool
        ensures { result ≡ list_any is_block self.now.replies.awaited }
    {
        self.replies.awaits_block()
    }

    /// Puts another stream in place of the port's, and gives that one back.
    pub fn swap_stream(&mut self, stream: S) -> S
        ensures taken { result ≡ self.old.bytes.stream }
        ensures put { self.new ≡ record self.old { bytes = record self.old.bytes { stream = stream } } }
    {
        mem::replace(&mut self.stream, stream)
    }
}

impl<S: Stream> NodePort for BlockPort<S> {
    ghost use Rattle.std.proofs.lemmas.List.{append-nil};
    ghost use Rattle.std.proofs.lemmas.List.Elements.{All-nil};
    ghost use Rattle.std.specs.Prelude.{refl};
    ghost use Rattle.node_link.specs.Blocks.{IsPlainRequest, still_settles};

    ghost calls = { block_calls S.failures S.moved S.asked S.offered };

    ghost still = { λ p. ([], ([], [], S.still p.bytes.stream, append-nil p.bytes.unsent, append-nil p.bytes.input.unread, refl), still_settles p.replies, refl, All-nil IsPlainRequest) };

    fn send(&mut self, batch: &Batch) -> Result<(), PortFault>
        ensures does { SendOutcome (block_calls S.failures S.moved S.asked S.offered) self.old (requests_of batch.now) result self.new }
        ensures goes { OnOk result (GoesAs S.moved self.old (map Plain (requests_of batch.now)) self.new) }
        ensures count { S.failures self.old.bytes.stream ≤ S.failures self.new.bytes.stream }
        ensures offers { OffersFirst S.offered self.old.bytes result self.new.bytes }
    {
        if let Err(Gone) = self.outbox.flush_before_send(&mut self.stream) {
            return Err(PortFault::Failed);
        }
        let urgency = urgency_behind(&self.replies);
        match draft_batch(&mut self.outbox, &mut self.replies, batch) {
            Ok(()) => {
                self.outbox.finish(urgency);
                Ok(())
            }
            Err(NoMemory) => {
                self.outbox.discard();
                Err(PortFault::NoMemory)
            }
        }
    }

    fn ask_slots(&mut self) -> Result<(), PortFault>
        ensures does { SendOutcome (block_calls S.failures S.moved S.asked S.offered) self.old (Slots ∷ []) result self.new }
        ensures count { S.failures self.old.bytes.stream ≤ S.failures self.new.bytes.stream }
        ensures offers { OffersFirst S.offered self.old.bytes result self.new.bytes }
    {
        if let Err(Gone) = self.outbox.flush_before_send(&mut self.stream) {
            return Err(PortFault::Failed);
        }
        let urgency = urgency_behind(&self.replies);
        match draft_slots(&mut self.outbox, &mut self.replies) {
            Ok(()) => {
                self.outbox.finish(urgency);
                Ok(())
            }
            Err(NoMemory) => {
                self.outbox.discard();
                Err(PortFault::NoMemory)
            }
        }
    }

    fn owes(&self, replies: bool) {
        self.stream.owes(replies);
    }

    fn next(&mut self) -> Result<Option<Value>, PortFault>
        ensures does { NextOutcome (block_calls S.failures S.moved S.asked S.offered) self.old result self.new }
        ensures count { S.failures self.old.bytes.stream ≤ S.failures self.new.bytes.stream }
        ensures offers { OffersThenReads S.offered S.asked self.old.bytes self.new.bytes }
        ensures none { GaveNone result → BlockGivesNone S.asked S.offered self.new }
    {
        let flushed = self.outbox.flush_before_read(&mut self.stream);
        match self.replies.take(&mut self.inbox) {
            Ok(Some(value)) => return Ok(Some(value)), // it came before the stream failed
            Ok(None) => {}
            Err(fault) => return Err(fault),
        }
        if let Err(Gone) = flushed {
            return Err(PortFault::Failed);
        }
        if let Err(NoMemory) = self.inbox.make_room() {
            return Err(PortFault::NoMemory);
        }
        self.outbox.count_read();
        if let Err(Gone) = self.inbox.fill(&mut self.stream) {
            return Err(PortFault::Failed);
        }
        self.replies.take(&mut self.inbox)
    }
}

impl<S: Stream> RunPort for BlockPort<S> {
    ghost longest = { longest_at };

    fn longest_run(&self) -> usize {
        if self.takes_blocks { LONGEST_BLOCK } else { 1 }
    }

    fn send_run(&mut self, run: &Run) -> Result<(), PortFault>
        requires { count_in run.now ≤ longest_at self.old }
        ensures does { SendOutcome (block_calls S.failures S.moved S.asked S.offered) self.old (requests_of_run run.now) result self.new }
        ensures goes { OnOk result (GoesAs S.moved self.old (items_of run.now) self.new) }
        ensures count { S.failures self.old.bytes.stream ≤ S.failures self.new.bytes.stream }
        ensures offers { OffersFirst S.offered self.old.bytes result self.new.bytes }
    {
        if run.later().is_empty() {
            return self.send(run.first());
        }
        self.send_block(run)
    }
}

impl<S: Stream> BlockPort<S> {
    // Sends the commands of a run as a block.
    fn send_block(&mut self, run: &Run) -> Result<(), PortFault>
        requires together { IsTogether run.now }
        requires several { 0 < length run.now.later }
        requires few { count_in run.now ≤ 64 }
        ensures does { SendOutcome (block_calls S.failures S.moved S.asked S.offered) self.old (requests_of_run run.now) result self.new }
        ensures goes { OnOk result (GoesAs S.moved self.old (Block (requests_of_run run.now) ∷ []) self.new) }
        ensures count { S.failures self.old.bytes.stream ≤ S.failures self.new.bytes.stream }
        ensures offers { OffersFirst S.offered self.old.bytes result self.new.bytes }
    {
        if let Err(Gone) = self.outbox.flush_before_send(&mut self.stream) {
            return Err(PortFault::Failed);
        }
        let urgency = urgency_behind(&self.replies);
        match draft_block(&mut self.outbox, &mut self.replies, run) {
            Ok(()) => {
                self.outbox.finish(urgency);
                Ok(())
            }
            Err(NoMemory) => {
                self.outbox.discard();
                Err(PortFault::NoMemory)
            }
        }
    }
}

// A request that finds nothing under way has no other to wait for.
fn urgency_behind(replies: &Replies) -> Urgency {
    if replies.is_idle() {
        Urgency::Urgent
    } else {
        Urgency::CanWait
    }
}

fn draft_batch(out: &mut Outbox, replies: &mut Replies, batch: &Batch) -> Result<(), NoMemory>
    ensures drafts { DraftOutcome (spelled (requests_of batch.now)) (await_each (requests_of batch.now)) out.old replies.old result out.new replies.new }
    ensures plain { OnOk result (All IsPlainRequest (requests_of batch.now)) }
{
    push_batch(out, batch)?;
    replies.expect_batch(batch)
}

fn draft_slots(out: &mut Outbox, replies: &mut Replies) -> Result<(), NoMemory>
    ensures { DraftOutcome (spelled (Slots ∷ [])) (await_each (Slots ∷ [])) out.old replies.old result out.new replies.new }
{
    push_slots(out)?;
    replies.expect(Awaited::Reply)
}

fn draft_block(out: &mut Outbox, replies: &mut Replies, run: &Run) -> Result<(), NoMemory>
    requires { count_in run.now ≤ 64 }
    ensures drafts { DraftOutcome (spelled_block (requests_of_run run.now)) (awaited.Block (count_in run.now) ∷ []) out.old replies.old result out.new replies.new }
    ensures plain { OnOk result (All IsPlainRequest (requests_of_run run.now)) }
{
    push_block(out, run)?;
    replies.expect(Awaited::Block(run.len() as u8))
}
