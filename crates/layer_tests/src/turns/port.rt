//! A connection to a node in memory.

ghost use Rattle.std.specs.Prelude.{◌^◌, ◌+◌};

use crate::turns::nodes::SharedNodes;
use key_split::{Batch, Run};
use node_link::{NodePort, PortFault, RunPort};
use resp_wire::{Line, NoMemory, Value};
use slot_map::NodeId;
use std::alloc::Global;
use std::collections::VecDeque;

/// What a command is answered at most: ASKING has a reply of its own.
const MOST_VALUES: usize = 2;

/// A connection to one of the nodes.
#[derive(Drop)]
pub struct MemoryPort {
    alloc: Global,
    nodes: SharedNodes,
    at: NodeId,
    /// What the node said and was not taken yet.
    values: VecDeque<Value>,
    /// How many commands may go behind the first of a run.
    behind: u16,
}

impl MemoryPort {
    pub fn new(alloc: Global, nodes: SharedNodes, at: NodeId, behind: u16) -> MemoryPort {
        MemoryPort {
            alloc,
            nodes,
            at,
            values: VecDeque::new(alloc),
            behind,
        }
    }

    /// Has the node serve a command. Where memory runs out, nothing is executed: there is room for its replies before.
    fn serve(&mut self, batch: &Batch) -> Result<(), NoMemory> {
        self.values.reserve(MOST_VALUES)?;
        let welcome = welcome(self.alloc)?;
        let value = self.answer(batch)?;
        if batch.asking {
            self.values.push_back(welcome)?;
        }
        self.values.push_back(value)?;
        Ok(())
    }

    /// Has it serve the commands of a run, in order.
    fn serve_all(&mut self, run: &Run) -> Result<(), NoMemory> {
        self.serve(run.first())?;
        for batch in run.later() {
            self.serve(batch)?;
        }
        Ok(())
    }

    fn answer(&self, batch: &Batch) -> Result<Value, NoMemory> {
        match self.nodes.try_borrow_mut() {
            Ok(mut nodes) => nodes.answer(self.at, batch),
            Err(_) => Err(NoMemory),
        }
    }

    /// Has the node say where the slots are.
    fn list(&mut self) -> Result<(), NoMemory> {
        self.values.reserve(1)?;
        let slots = self.slots()?;
        self.values.push_back(slots)?;
        Ok(())
    }

    fn slots(&self) -> Result<Value, NoMemory> {
        match self.nodes.try_borrow() {
            Ok(nodes) => nodes.slots(),
            Err(_) => Err(NoMemory),
        }
    }
}

/// What a node says to ASKING.
fn welcome(alloc: Global) -> Result<Value, NoMemory> {
    Ok(Value::Simple(Line::from_text(alloc, b"OK")?))
}

fn sent(served: Result<(), NoMemory>) -> Result<(), PortFault> {
    match served {
        Ok(()) => Ok(()),
        Err(_) => Err(PortFault::NoMemory),
    }
}

impl NodePort for MemoryPort {
    // It promises nothing: the rows look at what comes.
    ghost calls = { record { failures = λ _. 2 ^ 64; is_garbled = λ _. Unit {0}; exchange = λ old requests values new. Unit {0}; gives_none = λ _. Unit {0} } };

    ghost still = { λ _. tt };

    fn send(&mut self, batch: &Batch) -> Result<(), PortFault> {
        sent(self.serve(batch))
    }

    fn ask_slots(&mut self) -> Result<(), PortFault> {
        sent(self.list())
    }

    fn next(&mut self) -> Result<Option<Value>, PortFault> {
        Ok(self.values.pop_front())
    }
}

impl RunPort for MemoryPort {
    ghost longest = { λ port. port.behind + 1 };

    fn longest_run(&self) -> usize {
        usize::from(self.behind) + 1
    }

    fn send_run(&mut self, run: &Run) -> Result<(), PortFault> {
        sent(self.serve_all(run))
    }
}
