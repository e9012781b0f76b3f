//! A client's port over memory.

ghost use Rattle.std.specs.Prelude.{◌≡◌, ◌++◌, ◌↔◌, IfOk, IsTrue, length, min, take, ⊤};

use crate::owing::replies_owed;
use crate::port::ClientPort;
use crate::received::Received;
use key_split::{Ended, Ticket};
use node_link::Flow;
use resp_wire::{Bytes, NoMemory};
use std::alloc::Global;
use std::marker::Model;

/// A client whose bytes are in memory, and which keeps what it is given. It is gone as soon as it holds every reply that is
/// owed to its requests up to QUIT or the first fault, with that fault's error line.
pub struct Script {
    alloc: Global,
    client: u32,
    bytes: Bytes,
    pulled: usize,
    replies: Received,
    ends: Vec<(Ticket, Ended)>,
    // How many replies are owed, once that was counted.
    owed: Option<u64>,
}

// By hand, so that the crates above prove one call.
impl Drop for Script {
    fn drop(self) {
        let Script {
            alloc: _,
            client: _,
            bytes,
            pulled: _,
            replies,
            ends,
            owed: _,
        } = self;
        drop(bytes);
        drop(replies);
        drop(ends);
    }
}

impl Model for Script {
    ghost use Rattle.std.specs.Prelude.{◌≤◌, length, take, drop};
    ghost use Rattle.std.specs.Coded.{codes};
    ghost use Rattle.resp_wire.specs.Stored.{coded_data};
    ghost use Rattle.proxy_turns.specs.Script.{ScriptModel, IsOwed};

    ghost Value = { ScriptModel };

    ghost coded = { Prim.hlevel (codes, coded_data) };

    ghost view = { λ s. record {
      client = s.client;
      pulled = take s.pulled s.bytes;
      left = drop s.pulled s.bytes;
      pushed = s.replies;
      noted = s.ends.items;
    } };

    ghost invariant = { λ s. (s.pulled ≤ length s.bytes) × IsOwed s.owed s.bytes };
}

impl Script {
    ghost use Rattle.proxy_turns.specs.Script.{unplayed, IsScriptServed};
    ghost use Rattle.proxy_turns.specs.Owing.{Owes};

    /// A client of this number that sends these bytes.
    pub fn new(alloc: Global, client: u32, bytes: Bytes) -> Script
        ensures { result ≡ unplayed client bytes }
    {
        Script {
            alloc,
            client,
            bytes,
            pulled: 0,
            replies: Received::new(alloc),
            ends: Vec::new(alloc),
            owed: None,
        }
    }

    /// Its number, the bytes that were pushed, and the ends that were noted.
    pub fn into_parts(self) -> (u32, Bytes, Vec<(Ticket, Ended)>)
        ensures client { result.0 ≡ self.client }
        ensures replies { result.1 ≡ self.pushed }
        ensures ends { result.2.items ≡ self.noted }
    {
        let Script {
            alloc: _,
            client,
            bytes: _,
            pulled: _,
            replies,
            ends,
            owed: _,
        } = self;
        (client, replies.into_bytes(), ends)
    }

    // Whether it holds every reply that is owed.
    fn is_served(&mut self) -> Result<bool, NoMemory>
        ensures kept { self.new ≡ self.old }
        ensures served { IfOk result (λ all. IsTrue all ↔ IsScriptServed self.old) }
    {
        let owed = self.owed_replies()?;
        self.replies.holds(owed)
    }

    fn owed_replies(&mut self) -> Result<u64, NoMemory>
        ensures kept { self.new ≡ self.old }
        ensures owed { IfOk result (λ n. Owes 0 (self.old.pulled ++ self.old.left) n) }
    {
        if let Some(owed) = self.owed {
            return Ok(owed);
        }
        let owed = replies_owed(self.alloc, self.bytes.as_slice())?;
        self.owed = Some(owed);
        Ok(owed)
    }
}

impl ClientPort for Script {
    ghost use Rattle.proxy_turns.specs.Port.{MovesNone, PullOutcome, PushOutcome};
    ghost use Rattle.proxy_turns.specs.Script.{PullAnswer, PushAnswer, script_moves};

    ghost moves = { script_moves };

    fn pull(&mut self, buffer: &mut [u8]) -> Result<Flow, NoMemory>
        ensures pulled { PullOutcome script_moves self.old buffer.new result self.new }
        ensures none { MovesNone result → ⊤ }
        ensures answer { PullAnswer self.old buffer.old result }
    {
        if self.is_served()? {
            return Ok(Flow::Gone);
        }
        let left = &self.bytes.as_slice()[self.pulled..];
        if left.is_empty() {
            return Ok(Flow::Nothing);
        }
        let count = copy_front(buffer, left);
        self.pulled += count;
        Ok(Flow::Bytes(count))
    }

    fn push(&mut self, first: &[u8], second: &[u8]) -> Result<Flow, NoMemory>
        ensures pushed { PushOutcome script_moves self.old (first.now ++ second.now) result self.new }
        ensures none { MovesNone result → ⊤ }
        ensures answer { PushAnswer (first.now ++ second.now) result }
    {
        let bytes = joined(self.alloc, first, second)?;
        self.replies.push(&bytes)?;
        Ok(Flow::Bytes(bytes.len()))
    }

    fn note(&mut self, ticket: Ticket, end: &Ended) -> Result<(), NoMemory> {
        let end = end.copy(self.alloc)?;
        self.ends.push((ticket, end))?;
        Ok(())
    }

    fn close(&mut self)
        ensures closed { self.new ≡ self.old }
    {}
}

// The bytes of both, one behind the other.
fn joined(alloc: Global, first: &[u8], second: &[u8]) -> Result<Vec<u8>, NoMemory>
    ensures { IfOk result (λ bytes. bytes.items ≡ first.now ++ second.now) }
{
    let mut bytes = Vec::from_slice(alloc, first)?;
    bytes.extend_from_slice(second)?;
    Ok(bytes)
}

// Copies as many bytes as fit to the front of the buffer.
fn copy_front(buffer: &mut [u8], bytes: &[u8]) -> usize
    ensures count { result ≡ min (length buffer.old) (length bytes.now) }
    ensures copied { take result buffer.new ≡ take result bytes.now }
    ensures len { length buffer.new ≡ length buffer.old }
{
    let count = buffer.len().min(bytes.len());
    buffer[..count].copy_from_slice(&bytes[..count]);
    count
}
