//! The cluster, as each worker is given it.

ghost use Rattle.std.specs.Prelude.{◌≡◌, ◌<◌, [], IfOk};
ghost use Rattle.node_dial.specs.NextTable.{with_nodes};

use crate::setup::{clone_registry, push};
use crate::shared::ThreadHandle;
use event_log::NodeName;
use node_dial::{Connector, Credentials, SharedLookUps, SocketDial, copy_table};
use proxy_runtime::{Poller, WireRunFault};
use resp_wire::NoMemory;
use slot_map::{NODE_LIMIT, NodeId, NodeTable};
use std::alloc::Global;
use std::net::{self, Net};
use std::sync::Arc;
use std::time::Clock;

/// The seeds, and what each node is told first.
#[derive(Drop)]
pub(crate) struct Upstream<'a> {
    seeds: &'a NodeTable,
    /// `None` for nothing.
    pub(crate) credentials: Option<Arc<Credentials, Global>>,
}

impl<'a> Upstream<'a> {
    pub(crate) fn new(
        alloc: Global,
        seeds: &'a NodeTable,
        credentials: Option<Credentials>,
    ) -> Result<Upstream<'a>, NoMemory>
        ensures { IfOk result (λ upstream. upstream.seeds.now ≡ seeds.now) }
    {
        let credentials = match credentials {
            Some(credentials) => Some(Arc::new(alloc, credentials)?),
            None => None,
        };
        Ok(Upstream { seeds, credentials })
    }

    /// A table of the nodes that are known at the start: the seeds.
    pub(crate) fn seed_table(&self, alloc: Global) -> Result<NodeTable, NoMemory>
        ensures { IfOk result (λ table. table ≡ with_nodes [] self.now.seeds.now) }
    {
        copy_table(alloc, self.seeds)
    }

    /// The names of the seeds.
    pub(crate) fn seed_names(&self, alloc: Global) -> Result<Vec<NodeName>, NoMemory> {
        let mut names = Vec::new(alloc);
        for number in 0..NODE_LIMIT {
            if let Some(name) = self.seed_name(alloc, number)? {
                push(&mut names, name)?;
            }
        }
        Ok(names)
    }

    /// The name of the seed of this number, where there is one.
    fn seed_name(&self, alloc: Global, number: usize) -> Result<Option<NodeName>, NoMemory>
        requires { number < 64 }
    {
        let Some(node) = NodeId::new(number as u8) else {
            return Ok(None);
        };
        match self.seeds.endpoint(node) {
            Some((host, port)) => Ok(Some(NodeName::new(alloc, node, host, port)?)),
            None => Ok(None),
        }
    }

    /// A dial of the thread that has this handle and poll.
    pub(crate) fn dial<'b, R>(
        &self,
        rt: &'b R,
        alloc: Global,
        handle: &ThreadHandle,
        poller: &Poller,
        look_ups: &SharedLookUps,
    ) -> Result<SocketDial<'b, R>, WireRunFault>
    where
        R: Clock + Net<Listener = net::TcpListener, Stream = net::TcpStream>,
    {
        let registry = clone_registry(poller)?;
        let ready = Arc::try_clone(&handle.ready)?;
        let credentials = self.share_credentials()?;
        let Ok(look_ups) = look_ups.clone() else {
            return Err(WireRunFault::NoMemory);
        };
        let connector = Connector::new(rt, alloc, ready, registry, look_ups, credentials);
        let seeds = self.seed_table(alloc)?;
        Ok(SocketDial::new(alloc, connector, seeds)?)
    }

    fn share_credentials(&self) -> Result<Option<Arc<Credentials, Global>>, NoMemory> {
        match &self.credentials {
            Some(credentials) => Ok(Some(Arc::try_clone(credentials)?)),
            None => Ok(None),
        }
    }
}
