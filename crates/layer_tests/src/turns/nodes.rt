//! `nodes`: three nodes in memory, whose slots move.

use crate::tables::{PORTS, table_at};
use crate::turns::client::shared;
use key_split::{Batch, Told};
use layer_rows::{CallFault, Line, Object, put_read, written};
use node_model::{Cluster, MoveFault, Verdict};
use resp_wire::{Bytes, NoMemory, Value};
use slot_hash::Slot;
use slot_map::{MapOp, NodeId, NodeTable, SlotMap};
use std::alloc::Global;
use std::cell::RefCell;
use std::rc::Rc;

/// The nodes of a cluster, and how they can be reached.
#[derive(Drop)]
pub struct Nodes {
    alloc: Global,
    cluster: Cluster,
    table: NodeTable,
    /// How many commands came.
    served: u64,
    /// Whether a node refuses some that it could serve.
    refuses: bool,
    /// Whether a node listens.
    pub listens: bool,
    /// How many calls a new connection stands.
    pub calls: u64,
    /// How many commands may go behind the first of a run over a new connection.
    pub behind: u16,
}

pub type SharedNodes = Rc<RefCell<Nodes>>;

/// Three nodes that listen, whose slots are all the last one's.
pub fn three_nodes(alloc: Global) -> Result<SharedNodes, NoMemory> {
    shared(
        alloc,
        Nodes {
            alloc,
            cluster: cluster_of_three(alloc)?,
            table: table_at(alloc, &PORTS)?,
            served: 0,
            refuses: false,
            listens: true,
            calls: u64::MAX,
            behind: 0,
        },
    )
}

/// A cluster whose slots are all the last node's.
fn cluster_of_three(alloc: Global) -> Result<Cluster, NoMemory> {
    let (Some(first), Some(last), Some(owner)) = (Slot::new(0), Slot::new(16383), NodeId::new(2))
    else {
        return Err(NoMemory);
    };
    let Ok(mut owners) = SlotMap::new(alloc) else {
        return Err(NoMemory);
    };
    owners.apply(MapOp::SetRange(first, last, owner));
    match Cluster::new(alloc, 3, &owners) {
        Ok(cluster) => Ok(cluster),
        Err(_) => Err(NoMemory),
    }
}

/// A call of the nodes: how they can be reached, how slots move, and how many commands came.
pub fn call(nodes: &SharedNodes, line: &mut Line) {
    match nodes.try_borrow_mut() {
        Ok(mut nodes) => nodes.call(line),
        Err(_) => line.refuse(CallFault::NotNow),
    }
}

impl Nodes {
    pub fn cluster(&mut self) -> &mut Cluster {
        &mut self.cluster
    }

    fn call(&mut self, line: &mut Line) {
        match line.call() {
            "served" => line.show(self.served),
            "refuse" => {
                self.refuses = true;
                line.done();
            }
            "leave" => {
                self.listens = false;
                line.done();
            }
            "listen" => {
                self.listens = true;
                line.done();
            }
            "fail" => put_read(&mut self.calls, line),
            "longest" => self.set_longest(line),
            "movekey" => self.show_moved(line),
            _ => self.cluster.call(line),
        }
    }

    /// The most commands that go together, the first among them.
    fn set_longest(&mut self, line: &mut Line) {
        let Some(longest) = line.read::<u16>() else {
            return;
        };
        match longest.checked_sub(1) {
            Some(behind) => {
                self.behind = behind;
                line.done();
            }
            None => line.refuse(CallFault::BadNumber),
        }
    }

    fn show_moved(&mut self, line: &mut Line) {
        if let Some(slot) = line.read() {
            line.show(self.move_a_key(slot));
        }
    }

    /// Moves a key of a slot on.
    fn move_a_key(&mut self, slot: Slot) -> Result<(), MoveFault> {
        let Some(key) = self.rest_key(slot) else {
            return Err(MoveFault::NotNow);
        };
        self.cluster.move_key(slot, &key)
    }

    fn rest_key(&self, slot: Slot) -> Option<Bytes> {
        let key = self.cluster.rest_key(slot)?;
        key.copy(self.alloc).ok()
    }

    // What the node says to the command of this number, and sometimes a refusal that any node may give.
    fn verdict(&self, node: NodeId, number: u64) -> Verdict {
        if !self.refuses {
            return Verdict::Plain;
        }
        if number % 41 == 0 {
            return Verdict::TryAgain;
        }
        if number % 67 == 0 {
            return Verdict::ClusterDown;
        }
        match NodeId::new((node.number() + 1) % 3) {
            Some(other) if number % 97 == 0 => Verdict::Moved(other),
            _ => Verdict::Plain,
        }
    }

    /// The node's reply. Where memory runs out, nothing is executed, and the command does not count as served.
    pub fn answer(&mut self, at: NodeId, batch: &Batch) -> Result<Value, NoMemory> {
        let number = self.served.wrapping_add(1);
        let verdict = self.verdict(at, number);
        let Ok(told) = self.cluster.serve(at, batch.asking, &batch.part, verdict) else {
            return Err(NoMemory);
        };
        let value = self.value_of(told)?;
        self.served = number;
        Ok(value)
    }

    fn value_of(&self, told: Told) -> Result<Value, NoMemory> {
        match told {
            Told::Reply(value) => Ok(value),
            refusal => self.value_of_refusal(refusal),
        }
    }

    fn value_of_refusal(&self, told: Told) -> Result<Value, NoMemory> {
        let value = written(self.alloc, &told, &self.table);
        drop(told);
        match value {
            Ok(value) => Ok(value),
            Err(_) => Err(NoMemory),
        }
    }

    /// What CLUSTER SLOTS says.
    pub fn slots(&self) -> Result<Value, NoMemory> {
        self.cluster.slots_value(&self.table)
    }
}
