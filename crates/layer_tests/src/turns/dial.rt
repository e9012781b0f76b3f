//! A dial to the nodes in memory.

ghost use Rattle.std.specs.Prelude.{⊤};

use crate::tables::node_at;
use crate::turns::nodes::SharedNodes;
use crate::turns::port::MemoryPort;
use node_link::{Dial, DialFault, Fuse};
use slot_map::NodeId;
use std::alloc::Global;

/// What a connection stands.
#[derive(Clone, Copy)]
struct PortLimits {
    /// How many calls.
    calls: u64,
    /// How many commands behind the first of a run.
    behind: u16,
}

/// Opens connections that stand for the number of calls that the nodes say, or none where they do not listen.
#[derive(Drop)]
pub struct MemoryDial {
    alloc: Global,
    nodes: SharedNodes,
    failures: u64,
}

impl MemoryDial {
    pub fn new(alloc: Global, nodes: SharedNodes) -> MemoryDial {
        MemoryDial {
            alloc,
            nodes,
            failures: 0,
        }
    }

    /// What a connection stands, where one can be opened.
    fn limits(&self) -> Option<PortLimits> {
        match self.nodes.try_borrow() {
            Ok(nodes) if nodes.listens => Some(PortLimits {
                calls: nodes.calls,
                behind: nodes.behind,
            }),
            _ => None,
        }
    }

    fn connect(&self, at: NodeId, limits: PortLimits) -> Result<Fuse<MemoryPort>, DialFault> {
        match self.nodes.clone() {
            Ok(nodes) => {
                let port = MemoryPort::new(self.alloc, nodes, at, limits.behind);
                Ok(Fuse::new(port, limits.calls))
            }
            Err(_) => Err(DialFault::NoMemory),
        }
    }
}

impl Dial for MemoryDial {
    type Port = Fuse<MemoryPort>;

    ghost failures = { λ dial. dial.failures };

    ghost opens = { λ _ _ _ _. ⊤ };

    fn seeks(&mut self) -> bool {
        false
    }

    fn open(&mut self, _: NodeId, _: &[u8], port: u16) -> Result<Fuse<MemoryPort>, DialFault> {
        if let (Some(at), Some(limits)) = (node_at(port), self.limits()) {
            return match self.connect(at, limits) {
                Ok(opened) => Ok(opened),
                Err(_) => Err(DialFault::NoMemory),
            };
        }
        if self.failures == u64::MAX {
            return Err(DialFault::NoMemory);
        }
        self.failures += 1;
        Err(DialFault::Failed)
    }
}
