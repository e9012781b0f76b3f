//! A cluster in one process: its state behind a lock.

ghost use Rattle.std.specs.Prelude.{◌≡◌, ◌<◌, ◌≤◌, ◌↔◌, IfOk, IsTrue, length};
ghost use Rattle.world_laws.specs.Headline.{IsNew};
ghost use Rattle.local_cluster.specs.Addresses.{addresses, IsListedAt};
ghost use Rattle.local_cluster.specs.Held.{CountsNodes, WasListed, WasTold, WasTried};
ghost use Rattle.local_cluster.specs.Local.{IsSound};

use crate::local::LocalState;
use crate::step::MoveStep;
use crate::{addresses, held};
use key_split::{Batch, Op, Part, Told};
use node_model::{Cluster, MoveFault, ServeFault, Verdict};
use resp_wire::{Bytes, NoMemory, Value};
use slot_map::{NodeId, NodeTable};
use std::alloc::Global;
use std::marker::Model;
use std::sync::{Mutex, Wait};

/// The state of a cluster behind a lock, which threads share. Node k is listed at 127.0.0.1, port 7001 + k. Contracts see it as
/// the number of its nodes; of the state each hold of the lock knows that it is sound.
pub struct LocalCluster {
    nodes: u8,
    table: NodeTable,
    state: Mutex<LocalState>,
}

// By hand, so that the crates above prove one call.
impl Drop for LocalCluster {
    fn drop(self) {
        let LocalCluster {
            nodes: _,
            table,
            state,
        } = self;
        drop(table);
        drop(state);
    }
}

impl Model for LocalCluster {
    ghost use Rattle.std.specs.Prelude.{◌≡◌, ◌≤◌, ℕ};
    ghost use Rattle.local_cluster.specs.Addresses.{addresses};

    ghost Value = { ℕ };

    ghost view = { λ c. c.nodes };

    ghost invariant = { λ c. (c.nodes ≤ 64) × (c.table ≡ addresses 64) };
}

impl LocalCluster {
    /// The state of a new cluster, whose slots are settled and which holds no key, behind a lock.
    pub fn new(alloc: Global, cluster: Cluster) -> Result<LocalCluster, NoMemory>
        requires { IsNew cluster }
        ensures { IfOk result (CountsNodes cluster) }
    {
        let mut cluster = cluster;
        let nodes = count_nodes(alloc, &mut cluster)?;
        let table = addresses::node_table(alloc)?;
        Ok(LocalCluster {
            nodes,
            table,
            state: Mutex::new(LocalState::new(alloc, cluster)),
        })
    }

    /// Where its nodes are listed: 64 places, of which the first are its nodes'.
    pub fn table(&self) -> &NodeTable
        ensures { result.now ≡ addresses 64 }
    {
        &self.table
    }

    /// The node that is listed there, if it has such a node.
    pub fn node_at(&self, host: &[u8], port: u16) -> Option<NodeId>
        ensures { IsListedAt self.now (record { host = host.now; port = port }) result }
    {
        addresses::node_at(self.nodes, host, port)
    }

    /// What a request is told, which is served in one hold of the lock.
    pub(crate) fn tell<R: Wait>(&self, rt: &R, batch: &Batch) -> Result<Told, NoMemory>
        ensures { IfOk result (WasTold batch.now) }
    {
        let mut state = self.state.lock(rt);
        held::tell(&mut state, batch)
    }

    /// Tries a step of a move in one hold of the lock.
    pub fn try_step<R: Wait>(&self, rt: &R, step: &MoveStep) -> Result<(), MoveFault>
        ensures { WasTried step.now result }
    {
        let mut state = self.state.lock(rt);
        held::try_step(&mut state, step)
    }

    /// Lists the slots in one hold of the lock, each with its node's place in a table.
    pub(crate) fn list<R: Wait>(&self, rt: &R, table: &NodeTable) -> Result<Value, NoMemory>
        ensures { IfOk result (WasListed table.now) }
    {
        let state = self.state.lock(rt);
        held::list(&state, table)
    }

    /// The state that stood behind the lock.
    pub fn into_state(self) -> LocalState
        ensures { IsSound result }
    {
        let LocalCluster {
            nodes: _,
            table: _,
            state,
        } = self;
        let state = state.into_inner();
        let _sound = state.cluster();
        state
    }
}

/// How many nodes there are, up to 64. Each is asked, with a verdict by which it does nothing.
fn count_nodes(alloc: Global, cluster: &mut Cluster) -> Result<u8, NoMemory>
    ensures same { cluster.new ≡ cluster.old }
    ensures count { IfOk result (CountsNodes cluster.old) }
    ensures few { IfOk result (λ nodes. nodes ≤ 64) }
{
    let no_bytes = Bytes::new(Vec::new(alloc));
    let question = Part::new(alloc, Op::Get, no_bytes, Bytes::new(Vec::new(alloc)));
    for number in 0..64u8 {
        let Some(node) = NodeId::new(number) else {
            return Ok(number);
        };
        if !is_there(cluster, node, &question)? {
            return Ok(number);
        }
    }
    Ok(64)
}

/// Whether the node is there.
fn is_there(cluster: &mut Cluster, node: NodeId, question: &Part) -> Result<bool, NoMemory>
    ensures same { cluster.new ≡ cluster.old }
    ensures there { IfOk result (λ there. IsTrue there ↔ (node < length cluster.old.stores)) }
{
    match cluster.serve(node, false, question, Verdict::TryAgain) {
        Ok(told) => {
            drop(told);
            Ok(true)
        }
        Err(ServeFault::NoSuchNode) => Ok(false),
        Err(ServeFault::NoMemory) => Err(NoMemory),
        Err(ServeFault::NotThisVerdict) => Err(NoMemory),
    }
}
