//! The command that words are, as a node is asked for it.

ghost use Rattle.std.specs.Prelude.{◌≡◌, ◌<◌, ◌↔◌, IfOk, IsTrue, length};
ghost use Rattle.key_split.specs.Words as spec;
ghost use Rattle.turn_play.specs.Hearing.{FindsPart, IsOnly, PlansOne};

use key_split::laws::{node_words_are_planned_back, parts_of_plans_are_plain};
use key_split::{Part, PlanFault, Planned, plan, words_of};
use resp_wire::{Bytes, NoMemory};
use std::alloc::Global;

/// The plain part that is written by these words, where there is one.
pub(crate) fn plain_part(alloc: Global, words: &[Bytes]) -> Result<Option<Part>, NoMemory>
    ensures { FindsPart words.now result }
{
    node_words_are_planned_back();
    parts_of_plans_are_plain();
    if words.is_empty() {
        return Ok(None);
    }
    let Some(part) = planned_part(alloc, words)? else {
        return Ok(None);
    };
    if !is_written_by(alloc, &part, words)? {
        return Ok(None);
    }
    Ok(Some(part))
}

/// The part of a plan that has one.
fn planned_part(alloc: Global, words: &[Bytes]) -> Result<Option<Part>, NoMemory>
    requires { 0 < length words.now }
    ensures { PlansOne words.now result }
{
    match plan(alloc, words) {
        Ok(Planned::Parts(joining, parts)) => {
            drop(joining);
            Ok(only_part(parts.into_vec()))
        }
        Ok(Planned::Local(reply)) => {
            drop(reply);
            Ok(None)
        }
        Ok(Planned::Close) => Ok(None),
        Err(PlanFault::NoMemory) => Err(NoMemory),
        Err(fault) => {
            drop(fault);
            Ok(None)
        }
    }
}

/// The part that stands alone.
fn only_part(mut parts: Vec<Part>) -> Option<Part>
    ensures { IsOnly parts.items result }
{
    let part = parts.pop()?;
    if !parts.is_empty() {
        return None;
    }
    Some(part)
}

/// Whether the part is written by these words.
fn is_written_by(alloc: Global, part: &Part, words: &[Bytes]) -> Result<bool, NoMemory>
    ensures { IfOk result (λ yes. IsTrue yes ↔ (spec.words_of part.now ≡ words.now)) }
{
    let written = words_of(alloc, part)?;
    Ok(are_same(&written, words))
}

fn are_same(words: &[Bytes], others: &[Bytes]) -> bool
    ensures { IsTrue result ↔ (words.now ≡ others.now) }
{
    words == others
}
