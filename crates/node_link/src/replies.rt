//! The replies that are awaited, and those of a block until the last has come.

ghost use Rattle.std.specs.Prelude.{◌≡◌, ◌≤◌, ◌↔◌, ◌++◌, ◌∷◌, [], None, Some, IsTrue, OnOk, OnErr, length};
ghost use Rattle.key_split.specs.Requests.{requests_of};
ghost use Rattle.node_link.specs.Bytes.{input_of};
ghost use Rattle.std.specs.List.{list_any};
ghost use Rattle.node_link.specs.Blocks.{first_block, is_block};
ghost use Rattle.node_link.specs.Collecting.{DrainsAtFalse, DrainsAtNone, GatherOutcome, NextTold, ValueOutcome, await_each};
ghost use Rattle.node_link.specs.declared.replies.Awaited.TheVariants as awaited;

use crate::block::take_told;
use crate::block_told::BlockTold;
use crate::inbox::Inbox;
use crate::port::PortFault;
use key_split::Batch;
use resp_wire::{NoMemory, Value};
use std::alloc::Global;
use std::collections::VecDeque;
use std::marker::Model;

/// What comes back for what was sent together.
#[derive(Clone, Copy)]
pub enum Awaited {
    /// One reply.
    Reply,
    /// The replies to a block of this number of commands.
    Block(u8),
}

/// The replies that are awaited, and those that came and were not given yet.
pub struct Replies {
    alloc: Global,
    awaited: VecDeque<Awaited>,
    /// The replies to the block that is first, as far as they have come.
    came: Vec<Value>,
    /// What a block's replies tell and was not given yet.
    told: BlockTold,
}

// By hand, so that the crates above prove one call.
impl Drop for Replies {
    fn drop(self) {
        let Replies {
            alloc: _,
            awaited,
            came,
            told,
        } = self;
        drop(awaited);
        drop(came);
        drop(told);
    }
}

impl Model for Replies {
    ghost use Rattle.std.specs.Coded.{codes};
    ghost use Rattle.resp_wire.specs.Stored.{coded_data};
    ghost use Rattle.node_link.specs.Blocks.{RepliesModel};
    ghost use Rattle.node_link.specs.Collecting.{IsWithinBlock};
    ghost use Rattle.node_link.specs.Runs.{told_values};

    ghost Value = { RepliesModel };

    ghost coded = { Prim.hlevel (codes, coded_data) };

    ghost view = { λ a. record { awaited = a.awaited.items; came = a.came.items; told = told_values a.told } };

    ghost invariant = { λ a. IsWithinBlock a.awaited.items a.came.items };
}

impl Replies {
    pub fn new(alloc: Global) -> Replies
        ensures { result ≡ record { awaited = []; came = []; told = [] } }
    {
        Replies {
            alloc,
            awaited: VecDeque::new(alloc),
            came: Vec::new(alloc),
            told: BlockTold::Each(Vec::new(alloc)),
        }
    }

    /// Whether no reply is awaited.
    pub fn is_idle(&self) -> bool
        ensures { IsTrue result ↔ (self.now.awaited ≡ []) }
    {
        self.awaited.is_empty()
    }

    /// Whether the replies to a block are awaited.
    pub fn awaits_block(&self) -> bool
        ensures { result ≡ list_any is_block self.now.awaited }
    {
        self.awaited.iter().any(|awaited| is_block(*awaited))
    }

    /// Awaits the replies to what was sent together.
    pub fn expect(&mut self, awaited: Awaited) -> Result<(), NoMemory>
        ensures ok { OnOk result (self.new ≡ record self.old { awaited = self.old.awaited ++ awaited ∷ [] }) }
        ensures err { OnErr result (self.new ≡ self.old) }
    {
        match self.awaited.push_back(awaited) {
            Ok(()) => Ok(()),
            Err(_) => Err(NoMemory),
        }
    }

    /// Awaits the reply to a command, behind that to ASKING where the batch asks.
    pub fn expect_batch(&mut self, batch: &Batch) -> Result<(), NoMemory>
        ensures ok { OnOk result (self.new ≡ record self.old { awaited = self.old.awaited ++ await_each (requests_of batch.now) }) }
        ensures err { OnErr result (self.new ≡ self.old) }
    {
        if !batch.asking {
            return self.expect(Awaited::Reply);
        }
        if self.awaited.reserve(2).is_err() {
            return Err(NoMemory);
        }
        self.awaited.push_back_reserved(Awaited::Reply);
        self.awaited.push_back_reserved(Awaited::Reply);
        Ok(())
    }

    /// Takes the next value: one that a block's replies told, or the next reply; a block's are collected until the last has come.
    pub fn take(&mut self, inbox: &mut Inbox) -> Result<Option<Value>, PortFault>
        ensures taken { ValueOutcome (input_of inbox.old) self.old result (input_of inbox.new) self.new }
        ensures drained { DrainsAtNone result inbox.new }
    {
        match self.next_told() {
            Ok(Some(value)) => return Ok(Some(value)),
            Ok(None) => {}
            Err(fault) => return Err(fault),
        }
        match first_block(&self.awaited) {
            None => self.take_reply(inbox),
            Some(count) => self.take_block(inbox, count),
        }
    }

    // Takes the next value that a block's replies told.
    fn next_told(&mut self) -> Result<Option<Value>, PortFault>
        ensures { NextTold self.old result self.new }
    {
        match self.told.next(self.alloc) {
            Ok(next) => Ok(next),
            Err(NoMemory) => Err(PortFault::NoMemory),
        }
    }

    // Takes a reply that is a value by itself.
    fn take_reply(&mut self, inbox: &mut Inbox) -> Result<Option<Value>, PortFault>
        requires told { self.old.told ≡ [] }
        requires first { first_block self.old.awaited ≡ None }
        ensures taken { ValueOutcome (input_of inbox.old) self.old result (input_of inbox.new) self.new }
        ensures drained { DrainsAtNone result inbox.new }
    {
        match inbox.take() {
            Ok(Some(value)) => {
                self.awaited.pop_front();
                Ok(Some(value))
            }
            Ok(None) => Ok(None),
            Err(fault) => Err(fault),
        }
    }

    // Takes what the replies to a block of `count` commands tell the first, once all have come.
    fn take_block(&mut self, inbox: &mut Inbox, count: u8) -> Result<Option<Value>, PortFault>
        requires told { self.old.told ≡ [] }
        requires first { first_block self.old.awaited ≡ Some count }
        ensures taken { ValueOutcome (input_of inbox.old) self.old result (input_of inbox.new) self.new }
        ensures drained { DrainsAtNone result inbox.new }
    {
        let count = usize::from(count);
        match gather(inbox, &mut self.came, count + 2) {
            Ok(true) => {}
            Ok(false) => return Ok(None),
            Err(fault) => return Err(fault),
        }
        match take_told(self.alloc, &mut self.came, count) {
            Ok(told) => {
                self.told = told;
                self.awaited.pop_front();
                self.next_told()
            }
            Err(fault) => Err(fault),
        }
    }
}

fn is_block(awaited: Awaited) -> bool
    ensures { result ≡ is_block awaited }
{
    matches!(awaited, Awaited::Block(_))
}

// Of how many commands the block is whose replies come next.
fn first_block(awaited: &VecDeque<Awaited>) -> Option<u8>
    ensures { result ≡ first_block awaited.now.items }
{
    match awaited.front() {
        Some(Awaited::Block(count)) => Some(*count),
        Some(Awaited::Reply) => None,
        None => None,
    }
}

// Reads values until `wanted` are held, as far as they have come. True where they are.
fn gather(inbox: &mut Inbox, held: &mut Vec<Value>, wanted: usize) -> Result<bool, PortFault>
    requires { length held.old.items ≤ wanted }
    ensures gathered { GatherOutcome wanted (input_of inbox.old) held.old.items result (input_of inbox.new) held.new.items }
    ensures drained { DrainsAtFalse result inbox.new }
{
    while held.len() < wanted {
        if held.reserve(1).is_err() {
            return Err(PortFault::NoMemory);
        }
        match inbox.take() {
            Ok(Some(value)) => held.push_reserved(value),
            Ok(None) => return Ok(false),
            Err(fault) => return Err(fault),
        }
    }
    Ok(true)
}
