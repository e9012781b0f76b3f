//! The events that lines say.

ghost use Rattle.std.specs.Prelude.{◌≡◌, ◌≢◌, ◌<◌, Some, length, IfOk};
ghost use Rattle.key_split.specs.Plan.{plan_of};
ghost use Rattle.cluster_world.specs.Schedule as schedule;

use crate::fields::{client_in, lane_in, link_in, node_in, slot_in, tickets_in};
use crate::verb::Verb;
use key_split::{Part, Parts, PlanFault, Planned, plan};
use node_model::Verdict;
use resp_wire::{Bytes, NoMemory, Words};
use slot_hash::Slot;
use std::alloc::Global;
use world_laws::Event;

/// The event that a line's words say, where they say one.
#[tactic(auto, unfolding(crate::specs::Schedule::event_of))]
pub fn event_of(alloc: Global, workers: u16, words: &Words) -> Result<Option<Event>, NoMemory>
    requires { 0 < workers }
    ensures { IfOk result (λ event. event ≡ schedule.event_of workers (Some words.now)) }
{
    let words = words.as_slice();
    if words.is_empty() {
        return Ok(None);
    }
    let Some(verb) = Verb::of(words[0].as_slice()) else {
        return Ok(None);
    };
    event_as(alloc, workers, verb, &words[1..])
}

/// The event of a verb and the words behind it.
fn event_as(
    alloc: Global,
    workers: u16,
    verb: Verb,
    args: &[Bytes],
) -> Result<Option<Event>, NoMemory>
    requires { 0 < workers }
    ensures { IfOk result (λ event. event ≡ schedule.event_as workers verb args.now) }
{
    match verb {
        Verb::Arrive => arrival_in(alloc, args),
        Verb::MoveKey => move_key_in(alloc, args),
        Verb::Post => post_in(alloc, workers, args),
        _ => Ok(plain_event(workers, verb, args)),
    }
}

/// The event of a verb that takes numbers alone.
fn plain_event(workers: u16, verb: Verb, args: &[Bytes]) -> Option<Event>
    requires workers { 0 < workers }
    requires command { verb ≢ Verb.Arrive }
    requires key { verb ≢ Verb.MoveKey }
    requires run { verb ≢ Verb.Post }
    ensures { result ≡ schedule.event_as workers verb args.now }
{
    match verb {
        Verb::Arrive | Verb::MoveKey | Verb::Post => None,
        Verb::Carry => carry_in(args),
        Verb::Refuse => Some(Event::Refuse {
            lane: lane_alone(args)?,
        }),
        Verb::Serve => serving_in(args),
        Verb::Fetch => Some(Event::Fetch {
            link: link_alone(args)?,
        }),
        Verb::Take => Some(Event::Take {
            lane: lane_alone(args)?,
        }),
        Verb::Drop => Some(Event::Drop {
            link: link_alone(args)?,
        }),
        Verb::Discard => Some(Event::Discard {
            link: link_alone(args)?,
        }),
        Verb::Import => import_in(args),
        Verb::Migrate => Some(Event::Migrate {
            slot: slot_alone(args)?,
        }),
        Verb::Own => Some(Event::Own {
            slot: slot_alone(args)?,
        }),
        Verb::Release => Some(Event::Release {
            slot: slot_alone(args)?,
        }),
        Verb::Forget => Some(Event::Forget {
            slot: slot_alone(args)?,
        }),
        Verb::Stay => Some(Event::Stay {
            slot: slot_alone(args)?,
        }),
        Verb::Answer => Some(Event::Answer {
            client: client_alone(args)?,
        }),
    }
}

fn lane_alone(args: &[Bytes]) -> Option<u16>
    ensures { result ≡ schedule.alone schedule.lane_in args.now }
{
    if args.len() != 1 {
        return None;
    }
    lane_in(args[0].as_slice())
}

fn link_alone(args: &[Bytes]) -> Option<u64>
    ensures { result ≡ schedule.alone schedule.link_in args.now }
{
    if args.len() != 1 {
        return None;
    }
    link_in(args[0].as_slice())
}

fn slot_alone(args: &[Bytes]) -> Option<Slot>
    ensures { result ≡ schedule.alone schedule.slot_in args.now }
{
    if args.len() != 1 {
        return None;
    }
    slot_in(args[0].as_slice())
}

fn client_alone(args: &[Bytes]) -> Option<u32>
    ensures { result ≡ schedule.alone schedule.client_in args.now }
{
    if args.len() != 1 {
        return None;
    }
    client_in(args[0].as_slice())
}

/// `post CLIENT.PART+PART.. NODE`
fn post_in(alloc: Global, workers: u16, args: &[Bytes]) -> Result<Option<Event>, NoMemory>
    requires { 0 < workers }
    ensures { IfOk result (λ event. event ≡ schedule.event_as workers Verb.Post args.now) }
{
    if args.len() != 2 {
        return Ok(None);
    }
    let Some(tickets) = tickets_in(alloc, workers, args[0].as_slice())? else {
        return Ok(None);
    };
    let Some(node) = node_in(args[1].as_slice()) else {
        return Ok(None);
    };
    Ok(Some(Event::Post { tickets, node }))
}

/// `carry LANE LINK`
fn carry_in(args: &[Bytes]) -> Option<Event>
    ensures { result ≡ schedule.event_as 1 Verb.Carry args.now }
{
    if args.len() != 2 {
        return None;
    }
    let lane = lane_in(args[0].as_slice())?;
    let link = link_in(args[1].as_slice())?;
    Some(Event::Carry { lane, link })
}

/// `import SLOT NODE`
fn import_in(args: &[Bytes]) -> Option<Event>
    ensures { result ≡ schedule.event_as 1 Verb.Import args.now }
{
    if args.len() != 2 {
        return None;
    }
    let slot = slot_in(args[0].as_slice())?;
    let target = node_in(args[1].as_slice())?;
    Some(Event::Import { slot, target })
}

/// `movekey SLOT KEY`
fn move_key_in(alloc: Global, args: &[Bytes]) -> Result<Option<Event>, NoMemory>
    ensures { IfOk result (λ event. event ≡ schedule.event_as 1 Verb.MoveKey args.now) }
{
    if args.len() != 2 {
        return Ok(None);
    }
    let Some(slot) = slot_in(args[0].as_slice()) else {
        return Ok(None);
    };
    let key = args[1].copy(alloc)?;
    Ok(Some(Event::MoveKey { slot, key }))
}

/// `serve LINK` and its verdict
fn serving_in(args: &[Bytes]) -> Option<Event>
    ensures { result ≡ schedule.serving_in args.now }
{
    if args.is_empty() {
        return None;
    }
    let link = link_in(args[0].as_slice())?;
    let verdict = verdict_in(&args[1..])?;
    Some(Event::Serve { link, verdict })
}

/// How a node is to answer: by its role, where nothing is said.
fn verdict_in(words: &[Bytes]) -> Option<Verdict>
    ensures { result ≡ schedule.verdict_in words.now }
{
    if words.is_empty() {
        return Some(Verdict::Plain);
    }
    if words.len() == 1 {
        return bare_verdict(words[0].as_slice());
    }
    if words.len() == 2 {
        return moved_verdict(words[0].as_slice(), words[1].as_slice());
    }
    None
}

fn bare_verdict(word: &[u8]) -> Option<Verdict>
    ensures { result ≡ schedule.bare_verdict word.now }
{
    if word == b"tryagain".as_slice() {
        Some(Verdict::TryAgain)
    } else if word == b"clusterdown".as_slice() {
        Some(Verdict::ClusterDown)
    } else {
        None
    }
}

fn moved_verdict(word: &[u8], node: &[u8]) -> Option<Verdict>
    ensures { result ≡ schedule.moved_verdict word.now node.now }
{
    if word != b"moved".as_slice() {
        return None;
    }
    Some(Verdict::Moved(node_in(node)?))
}

/// `arrive CLIENT WORDS..`: the plan of the words has one part.
fn arrival_in(alloc: Global, args: &[Bytes]) -> Result<Option<Event>, NoMemory>
    ensures { IfOk result (λ event. event ≡ schedule.arrival_in args.now) }
{
    if args.len() < 2 {
        return Ok(None);
    }
    let Some(client) = client_in(args[0].as_slice()) else {
        return Ok(None);
    };
    match only_part(alloc, &args[1..])? {
        Some(part) => Ok(Some(Event::Arrive { client, part })),
        None => Ok(None),
    }
}

/// The part of a plan that has one alone.
fn only_part(alloc: Global, words: &[Bytes]) -> Result<Option<Part>, NoMemory>
    requires { 0 < length words.now }
    ensures { IfOk result (λ part. part ≡ schedule.only_part (plan_of words.now)) }
{
    match plan(alloc, words) {
        Ok(Planned::Parts(_, parts)) => Ok(only_of(parts)),
        Ok(Planned::Local(_) | Planned::Close) => Ok(None),
        Err(PlanFault::NoMemory) => Err(NoMemory),
        Err(_) => Ok(None),
    }
}

fn only_of(parts: Parts) -> Option<Part>
    ensures { result ≡ schedule.only_of parts }
{
    let mut parts = parts.into_vec();
    let part = parts.pop()?;
    if parts.is_empty() { Some(part) } else { None }
}
