//! A world that events lead on.

ghost use Rattle.std.specs.Prelude.{◌≡◌, ◌≤◌, List};
ghost use Rattle.slot_map.specs.Map.{node_after, MapShows};
ghost use Rattle.slot_map.specs.declared.ops.MapOp.{MapOp};
ghost use Rattle.world_laws.specs.Headline.{Headline};
ghost use Rattle.cluster_world.specs.Steps.{Runs, Starts, Steps};

use crate::fault::{RunFault, WorldFault};
use crate::machine::Machine;
use crate::owners::taken_over;
use node_model::{Cluster, ClusterFault, has_owners};
use slot_map::SlotMap;
use std::alloc::Global;
use std::marker::Model;
use world_laws::{Answer, Entry, Event};

/// The core of the proxy with its nodes: commands, lanes, links, what was executed, and what was answered. It can be made by
/// events alone.
pub struct World {
    machine: Machine,
    nodes: u8,
}

// By hand, so that the crates above prove one call.
impl Drop for World {
    fn drop(self) {
        let World { machine, nodes: _ } = self;
        drop(machine);
    }
}

impl Model for World {
    ghost use Rattle.node_model.specs.Nodes.{nodes_code, store_code};
    ghost use Rattle.resp_wire.specs.Stored.{coded_data};
    ghost use Rattle.resp_wire.specs.contracts.value.Value as value;
    ghost use Rattle.std.specs.Coded.{codes};
    ghost use Rattle.world_laws.specs.State.{WorldModel};
    ghost use Rattle.cluster_world.specs.Machine.{state_of};
    ghost use Rattle.cluster_world.specs.Steps.{IsWorld};

    ghost Value = { WorldModel };

    ghost coded = { Prim.hlevel (codes, value.the_row.coded, coded_data, nodes_code, store_code) };

    ghost view = { λ w. state_of w.machine };

    ghost invariant = { λ w. IsWorld w.machine w.nodes };
}

impl World {
    /// A world in which nothing has happened yet: settled slots, and no keys.
    pub fn new(
        alloc: Global,
        nodes: u8,
        workers: u16,
        owners: &SlotMap,
    ) -> Result<World, ClusterFault>
        requires { (1 ≤ workers) × (workers ≤ 64) }
        ensures { (ops : List MapOp) → MapShows owners.now ops → Starts nodes workers (node_after ops) result }
    {
        if !has_owners(nodes, owners) {
            return Err(ClusterFault::BadOwners);
        }
        let Ok(owners) = taken_over(alloc, owners) else {
            return Err(ClusterFault::NoMemory);
        };
        match Cluster::new(alloc, nodes, &owners) {
            Ok(cluster) => Ok(World {
                machine: Machine::new(alloc, workers, cluster),
                nodes,
            }),
            Err(fault) => Err(fault),
        }
    }

    /// Makes an event, where it is allowed.
    pub fn apply(&mut self, event: &Event) -> Result<(), WorldFault>
        ensures steps { Steps self.old event.now result self.new }
        ensures headline { Headline self.new }
    {
        let done = self.step(event);
        self.is_reached();
        done
    }

    /// Makes the events, one after another, up to the first that is refused.
    pub fn run(&mut self, events: &[Event]) -> Result<(), RunFault>
        ensures runs { Runs self.old events.now result self.new }
        ensures headline { Headline self.new }
    {
        let done = self.steps(events);
        self.is_reached();
        done
    }

    /// What the nodes executed, in order. It takes no memory.
    pub fn history(&self) -> &[Entry]
        ensures value { result.now ≡ self.now.history }
        ensures headline { Headline self.now }
    {
        self.is_reached();
        self.machine.links.history()
    }

    /// How clients were answered, in order. It takes no memory.
    pub fn answers(&self) -> &[Answer]
        ensures value { result.now ≡ self.now.answers }
        ensures headline { Headline self.now }
    {
        self.is_reached();
        &self.machine.answers
    }

    // Brings in what holds of every world; it does nothing.
    fn is_reached(&self)
        ensures { Headline self.now }
    {
        world_laws::laws::reached_worlds();
        let _ = &self.machine;
    }

    fn step(&mut self, event: &Event) -> Result<(), WorldFault>
        ensures { Steps self.old event.now result self.new }
    {
        world_laws::laws::reached_worlds();
        world_laws::laws::links_lead_to_nodes();
        world_laws::laws::runs_have_one_slot();
        world_laws::laws::nothing_is_stuck();
        world_laws::laws::sizes_stay();
        if !self.machine.has_time() {
            return Err(WorldFault::NotNow);
        }
        self.machine.moment += 1;
        match self.machine.happen(event, self.nodes) {
            Ok(()) => Ok(()),
            Err(fault) => {
                self.machine.moment -= 1;
                Err(fault)
            }
        }
    }

    fn steps(&mut self, events: &[Event]) -> Result<(), RunFault>
        ensures { Runs self.old events.now result self.new }
    {
        let mut number = 0;
        let mut rest = events;
        while let [event, later @ ..] = rest {
            number += 1;
            if let Err(why) = self.step(event) {
                return Err(RunFault { number, why });
            }
            rest = later;
        }
        Ok(())
    }
}
