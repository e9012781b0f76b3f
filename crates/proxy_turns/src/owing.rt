//! How many replies a client is owed for its bytes.

ghost use Rattle.std.specs.Prelude.{◌≡◌, ◌<◌, ◌≤◌, ◌+◌, ◌^◌, None, IfOk, length};
ghost use Rattle.resp_wire.specs.LimitsModel.{full};
ghost use Rattle.resp_wire.specs.Seen.{data_of};
ghost use Rattle.session_order.specs.PendingReply.{plan_for};
ghost use Rattle.session_order.specs.Requests.{asked_of};
ghost use Rattle.proxy_turns.specs.Owing.{numbering, effect_by, effect_of, Owes, NextOutcome};

use key_split::{PlanFault, Planned, plan};
use resp_wire::laws::front_is_whole;
use resp_wire::{Bytes, Limits, NoMemory, Reader, Value, WireFault};
use session_order::{RequestKind, kind_of};
use std::alloc::Global;

/// How many parts a session numbers.
const MAX_PARTS: u64 = 1 << 48;

/// What a value of a client does.
#[derive(Clone, Copy)]
pub enum Effect {
    /// It asks for nothing.
    Skips,
    /// It is owed a reply; this number of parts are numbered then.
    Asks(u64),
    /// It is owed the last reply: QUIT, or a fault.
    Ends,
}

/// How many replies a client is owed for these bytes, up to QUIT or the first fault.
pub(crate) fn replies_owed(alloc: Global, bytes: &[u8]) -> Result<u64, NoMemory>
    ensures { IfOk result (λ n. Owes 0 bytes.now n) }
{
    let mut reader = reader_of(alloc, bytes)?;
    let mut numbered = 0;
    let mut owed = 0;
    while let Some(effect) = next_effect(alloc, &mut reader, numbered)? {
        match effect {
            Effect::Ends => return Ok(owed + 1),
            Effect::Skips => {}
            Effect::Asks(later) => {
                numbered = later;
                owed += 1;
            }
        }
    }
    Ok(owed)
}

// A reader of these bytes.
fn reader_of(alloc: Global, bytes: &[u8]) -> Result<Reader, NoMemory>
    ensures { IfOk result (λ reader. reader ≡ record { bounds = full; unread = bytes.now; fault = None }) }
{
    let mut reader = Reader::new(alloc, Limits::full());
    match reader.feed(bytes) {
        Ok(()) => Ok(reader),
        Err(_) => Err(NoMemory),
    }
}

// What the next value does, or the fault that is next; none where no value is whole.
fn next_effect(
    alloc: Global,
    reader: &mut Reader,
    numbered: u64,
) -> Result<Option<Effect>, NoMemory>
    requires bounds { reader.old.bounds ≡ full }
    requires faultless { reader.old.fault ≡ None }
    requires few { numbered ≤ 2 ^ 48 }
    ensures { NextOutcome numbered reader.old result reader.new }
{
    front_is_whole();
    match reader.next() {
        Ok(Some(value)) => {
            let effect = effect_of(alloc, value, numbered)?;
            Ok(Some(effect))
        }
        Ok(None) => Ok(None),
        Err(WireFault::NoMemory) => Err(NoMemory),
        Err(_) => Ok(Some(Effect::Ends)),
    }
}

fn effect_of(alloc: Global, value: Value, numbered: u64) -> Result<Effect, NoMemory>
    requires { numbered ≤ 2 ^ 48 }
    ensures { IfOk result (λ effect. effect ≡ effect_of numbered (asked_of (data_of value))) }
{
    match kind_of(alloc, value) {
        Ok(RequestKind::Words(words)) => effect_by(alloc, words.as_slice(), numbered),
        Ok(RequestKind::Skipped) => Ok(Effect::Skips),
        Ok(RequestKind::Refused) => Ok(Effect::Ends),
        Err(value) => {
            drop(value);
            Err(NoMemory)
        }
    }
}

#[tactic(auto, unfolding(session_order::specs::PendingReply::plan_for))]
fn effect_by(alloc: Global, words: &[Bytes], numbered: u64) -> Result<Effect, NoMemory>
    requires few { numbered ≤ 2 ^ 48 }
    requires some { 0 < length words.now }
    ensures { IfOk result (λ effect. effect ≡ effect_by numbered (plan_for words.now)) }
{
    match plan(alloc, words) {
        Ok(Planned::Local(reply)) => {
            drop(reply);
            Ok(Effect::Asks(numbered))
        }
        Ok(Planned::Parts(_, parts)) => Ok(numbering(numbered, parts.as_slice().len())),
        Ok(Planned::Close) => Ok(Effect::Ends),
        Err(PlanFault::NoMemory) => Err(NoMemory),
        Err(_) => Ok(Effect::Asks(numbered)),
    }
}

fn numbering(numbered: u64, parts: usize) -> Effect
    requires { numbered ≤ 2 ^ 48 }
    ensures { result ≡ numbering (numbered + parts) }
{
    if parts as u64 > MAX_PARTS - numbered {
        return Effect::Ends;
    }
    Effect::Asks(numbered + parts as u64)
}
