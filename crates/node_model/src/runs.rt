//! How a node serves a run: commands of one slot that go together.

ghost use Rattle.std.specs.Prelude.{◌≡◌, ◌↔◌, ◌<◌, IfOk, IsTrue, length};
ghost use Rattle.std.specs.List.{list_all};
ghost use Rattle.std.specs.Str.{bytes_eq};
ghost use Rattle.key_split.specs.PartModel.{keys_of};
ghost use Rattle.slot_hash.specs.Slot.{slot_of};
ghost use Rattle.node_model.specs.Runs.{deed_for, first_key, have_one_key, keys_in, AllTold, HaveOneSlot, RunAnswers, ServesAll};
ghost use Rattle.node_model.specs.Serving.{by_role, held_of};

use crate::cluster::Cluster;
use crate::node::Node;
use crate::role::{Deed, KeysHeld, Role, ServeFault, Verdict};
use key_split::{Pair, Part, Told};
use resp_wire::NoMemory;
use slot_hash::Slot;
use slot_map::NodeId;
use std::alloc::Global;

impl Cluster {
    /// Serves a run at a node: it executes all the commands, in order, or none of them, and each is told something.
    /// `asking` says that ASKING came right before them.
    pub fn serve_run(
        &mut self,
        node: NodeId,
        asking: bool,
        parts: &[Part],
        verdict: Verdict,
    ) -> Result<Vec<Told>, ServeFault>
        requires { HaveOneSlot parts.now }
        ensures { ServesAll self.old node asking parts.now verdict result self.new }
    {
        if let Some(fault) = self.serve_fault(node, &verdict) {
            return Err(fault);
        }
        self.answer_run(node, asking, parts, verdict)
    }

    /// Serves a run at one of the nodes.
    fn answer_run(
        &mut self,
        node: NodeId,
        asking: bool,
        parts: &[Part],
        verdict: Verdict,
    ) -> Result<Vec<Told>, ServeFault>
        requires slot { HaveOneSlot parts.now }
        requires there { node < length self.old.stores }
        ensures { RunAnswers (deed_for self.old node asking parts.now verdict) self.old node parts.now result self.new }
    {
        match self.deed_for(node, asking, parts, verdict) {
            Deed::Executes => {
                let slot = slot_of_run(parts);
                let tolds = self.nodes[usize::from(node.number())].apply_all(slot, parts)?;
                Ok(tolds)
            }
            Deed::Says(told) => {
                let tolds = each_told(self.alloc, parts, &told)?;
                Ok(tolds)
            }
        }
    }

    /// What a node does with a run.
    pub(crate) fn deed_for(
        &self,
        node: NodeId,
        asking: bool,
        parts: &[Part],
        verdict: Verdict,
    ) -> Deed
        requires { node < length self.now.stores }
        ensures { result ≡ deed_for self.now node asking parts.now verdict }
    {
        let slot = slot_of_run(parts);
        match verdict {
            Verdict::Plain => {
                let role = self.standing(slot).role(node);
                deed_by_role(
                    role,
                    asking,
                    slot,
                    parts,
                    &self.nodes[usize::from(node.number())],
                )
            }
            Verdict::Moved(to) => Deed::Says(Told::Moved(slot, to)),
            Verdict::TryAgain => Deed::Says(Told::TryAgain),
            Verdict::ClusterDown => Deed::Says(Told::ClusterDown),
        }
    }
}

/// Whether all keys of the commands have one slot, so that they may go in one run.
pub fn have_one_slot(parts: &[Part]) -> bool
    ensures { IsTrue result ↔ HaveOneSlot parts.now }
{
    let slot = slot_of_run(parts);
    let mut rest = parts;
    while let [part, later @ ..] = rest {
        if part.slot() != slot {
            return false;
        }
        rest = later;
    }
    true
}

/// What a node of that role does with the run.
fn deed_by_role(role: Role, asking: bool, slot: Slot, parts: &[Part], node: &Node) -> Deed
    ensures { result ≡ by_role role asking (held_of node.now (keys_in parts.now)) (have_one_key parts.now) slot }
{
    match role {
        Role::Owner => Deed::Executes,
        Role::Migrating(target) => match node.held_of_run(parts) {
            KeysHeld::AllHeld => Deed::Executes,
            KeysHeld::SomeHeld => Deed::Says(Told::TryAgain),
            KeysHeld::NoneHeld => Deed::Says(Told::Ask(slot, target)),
        },
        Role::Importing(source) if !asking => Deed::Says(Told::Moved(slot, source)),
        Role::Importing(_) => match node.held_of_run(parts) {
            KeysHeld::AllHeld => Deed::Executes,
            KeysHeld::SomeHeld | KeysHeld::NoneHeld if have_one_key(parts) => Deed::Executes,
            KeysHeld::SomeHeld | KeysHeld::NoneHeld => Deed::Says(Told::TryAgain),
        },
        Role::Away(to) => Deed::Says(Told::Moved(slot, to)),
    }
}

/// The slot of the run's first key; that of the empty key where there is none.
fn slot_of_run(parts: &[Part]) -> Slot
    ensures { result ≡ slot_of (first_key parts.now) }
{
    match parts {
        [] => slot_hash::slot_of(b""),
        [part, ..] => part.slot(),
    }
}

fn first_key(parts: &[Part]) -> &[u8]
    ensures { result.now ≡ first_key parts.now }
{
    match parts {
        [] => &[],
        [part, ..] => part.key().as_slice(),
    }
}

/// Whether all keys of the run are one.
fn have_one_key(parts: &[Part]) -> bool
    ensures { result ≡ have_one_key parts.now }
{
    let first = first_key(parts);
    let mut rest = parts;
    while let [part, later @ ..] = rest {
        if !is_at(part, first) {
            return false;
        }
        rest = later;
    }
    true
}

/// Whether all keys of the command are this one.
fn is_at(part: &Part, first: &[u8]) -> bool
    ensures { result ≡ list_all (λ key. bytes_eq key first.now) (keys_of part.now) }
{
    part.key().as_slice() == first && pairs_are_at(part.rest(), first)
}

/// Whether all keys of the pairs are this one.
fn pairs_are_at(pairs: &[Pair], first: &[u8]) -> bool
    ensures { result ≡ list_all (λ pair. bytes_eq pair.0 first.now) pairs.now }
{
    pairs.iter().all(|(key, _)| key.as_slice() == first)
}

/// Tells each command the same.
fn each_told(alloc: Global, parts: &[Part], said: &Told) -> Result<Vec<Told>, NoMemory>
    ensures { IfOk result (λ tolds. AllTold said.now parts.now tolds.items) }
{
    let mut tolds = Vec::new(alloc);
    let mut rest = parts;
    while let [_, later @ ..] = rest {
        let told = copy_of(alloc, said)?;
        tolds.push(told)?;
        rest = later;
    }
    Ok(tolds)
}

/// The same in memory of its own.
fn copy_of(alloc: Global, told: &Told) -> Result<Told, NoMemory>
    ensures { IfOk result (λ copy. copy ≡ told.now) }
{
    Ok(match told {
        Told::Reply(value) => Told::Reply(value.copy(alloc)?),
        Told::Moved(slot, node) => Told::Moved(*slot, *node),
        Told::Ask(slot, node) => Told::Ask(*slot, *node),
        Told::TryAgain => Told::TryAgain,
        Told::ClusterDown => Told::ClusterDown,
        Told::Unclear => Told::Unclear,
        Told::Lost => Told::Lost,
        Told::Unsent => Told::Unsent,
    })
}
