//! What a script wants next.

ghost use Rattle.std.specs.Prelude.{◌≡◌, ◌<◌, ◌≤◌, ◌^◌, ℕ, List, IfOk, length};
ghost use Rattle.resp_wire.specs.Seen.{data_of};
ghost use Rattle.key_split.specs.Join.{CanBeJoined};
ghost use Rattle.session_order.specs.PendingReply.{plan_for};
ghost use Rattle.session_order.specs.Requests.{asked_of};
ghost use Rattle.script_runs.specs.Requests.{first_as, request_first};
ghost use Rattle.script_runs.specs.Wanted.{Fits, IsOpen, Means, Wants};

use key_split::{Joining, Parts, PlanFault, Planned, plan, refusal};
use resp_wire::{Bytes, NoMemory, Reader, Value, WireFault};
use session_order::{RequestKind, kind_of};
use std::alloc::Global;

/// The most parts of one client.
const MAX_PARTS: u64 = 1 << 48;

/// What a script wants next.
#[derive(Drop)]
pub(crate) enum Wanted {
    /// Nothing more; it may end in a fault.
    Nothing(bool),
    /// An empty or a null array, which asks for nothing.
    Skip,
    Reply(Value),
    Parts(Joining, Parts),
    /// The end of the session.
    Close,
}

/// Takes what is wanted next off the reader; the requests before it have `number` parts.
pub(crate) fn next_wanted(
    alloc: Global,
    reader: &mut Reader,
    number: u64,
) -> Result<Wanted, NoMemory>
    requires open { IsOpen reader.old }
    requires numbered { number ≤ 2 ^ 48 }
    ensures { IfOk result (λ wanted. Wants number reader.old wanted reader.new) }
{
    resp_wire::laws::front_is_whole();
    match reader.next() {
        Ok(Some(value)) => wanted_by(alloc, value, number),
        Ok(None) => Ok(Wanted::Nothing(false)),
        Err(fault) => match fault {
            WireFault::NoMemory => Err(NoMemory),
            _ => Ok(Wanted::Nothing(true)),
        },
    }
}

/// What a value wants.
fn wanted_by(alloc: Global, value: Value, number: u64) -> Result<Wanted, NoMemory>
    requires { number ≤ 2 ^ 48 }
    ensures { IfOk result (λ wanted. (rest : List ℕ) → Means number (first_as number (asked_of (data_of value)) rest) wanted rest) }
{
    match kind_of(alloc, value) {
        Ok(RequestKind::Words(words)) => wanted_for(alloc, words.as_slice(), number),
        Ok(RequestKind::Skipped) => Ok(Wanted::Skip),
        Ok(RequestKind::Refused) => Ok(Wanted::Nothing(true)),
        Err(_) => Err(NoMemory),
    }
}

/// What the words of a request want.
#[tactic(auto, unfolding(session_order::specs::PendingReply::plan_for))]
fn wanted_for(alloc: Global, words: &[Bytes], number: u64) -> Result<Wanted, NoMemory>
    requires some { 0 < length words.now }
    requires numbered { number ≤ 2 ^ 48 }
    ensures { IfOk result (λ wanted. (rest : List ℕ) → Means number (request_first number words.now rest) wanted rest) }
{
    match plan(alloc, words) {
        Ok(planned) => Ok(wanted_in(planned, number)),
        Err(fault) => match fault {
            PlanFault::NoMemory => Err(NoMemory),
            _ => Ok(Wanted::Reply(refusal(alloc, &fault)?)),
        },
    }
}

/// What a plan wants.
fn wanted_in(planned: Planned, number: u64) -> Wanted
    requires numbered { number ≤ 2 ^ 48 }
    requires joinable { CanBeJoined planned }
    ensures { (words : List (List ℕ)) (rest : List ℕ) → plan_for words ≡ Ok planned → Means number (request_first number words rest) result rest }
{
    match planned {
        Planned::Local(value) => Wanted::Reply(value),
        Planned::Parts(how, parts) => within_limit(how, parts, number),
        Planned::Close => Wanted::Close,
    }
}

/// The parts, where they can be numbered.
fn within_limit(how: Joining, parts: Parts, number: u64) -> Wanted
    requires { number ≤ 2 ^ 48 }
    ensures { Fits number how parts result }
{
    let count = parts.as_slice().len() as u64;
    if count > MAX_PARTS - number {
        return Wanted::Nothing(true);
    }
    Wanted::Parts(how, parts)
}
