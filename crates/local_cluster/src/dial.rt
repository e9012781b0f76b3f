//! How connections to the nodes of a cluster in one process are opened.

ghost use Rattle.std.specs.Prelude.{◌≡◌};
ghost use Rattle.node_link.specs.Dialling.{OpenOutcome};
ghost use Rattle.local_cluster.specs.Dialled.{DialledLocally, Dials};

use crate::cluster::LocalCluster;
use crate::port::LocalPort;
use node_link::{Dial, DialFault};
use slot_map::NodeId;
use std::alloc::Global;
use std::sync::Wait;

/// Opens connections to the nodes of a cluster in one process.
#[derive(Drop)]
pub struct LocalDial<'c, R> {
    alloc: Global,
    rt: R,
    cluster: &'c LocalCluster,
    failures: u64,
}

impl<'c, R> LocalDial<'c, R> {
    /// Dials nodes of the cluster; no dial has failed.
    pub fn new(alloc: Global, rt: R, cluster: &'c LocalCluster) -> LocalDial<'c, R>
        ensures cluster { result.cluster.now ≡ cluster.now }
        ensures failures { result.failures ≡ 0 }
    {
        LocalDial {
            alloc,
            rt,
            cluster,
            failures: 0,
        }
    }
}

impl<'c, R: Wait + Copy + Drop> Dial for LocalDial<'c, R> {
    type Port = LocalPort<'c, R>;

    ghost failures = { λ dial. dial.failures };

    ghost opens = { Dials };

    /// No node is lost.
    fn seeks(&mut self) -> bool {
        false
    }

    /// A connection to the node that is listed there. Where there is no such node, the dial failed; at the last count of failures
    /// memory is said to be wanting instead.
    fn open(&mut self, _: NodeId, host: &[u8], port: u16) -> Result<LocalPort<'c, R>, DialFault>
        ensures open { OpenOutcome Dials (record { host = host.now; port = port }) self.old.failures result self.new.failures }
        ensures port { DialledLocally self.old.cluster.now (record { host = host.now; port = port }) result }
    {
        if let Some(node) = self.cluster.node_at(host, port) {
            return Ok(LocalPort::new(self.alloc, self.rt, self.cluster, node));
        }
        if self.failures == u64::MAX {
            return Err(DialFault::NoMemory);
        }
        self.failures += 1;
        Err(DialFault::Failed)
    }
}
