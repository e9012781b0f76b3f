//! New clients on their way to a worker.

use proxy_lanes::{CarrierEnds, MapWriter, Naming, ShowsOps};
use proxy_turns::Newcomer;
use resp_wire::NoMemory;
use std::alloc::Global;
use std::collections::VecDeque;

/// The clients that are still to be handed to a worker, in order.
#[derive(Drop)]
pub(crate) struct ClientQueue<C: Drop, J: Naming> {
    worker: u16,
    // How many clients were added.
    count: u32,
    coming: VecDeque<(u32, C)>,
    // One that its worker's lane did not take.
    held: Option<Newcomer<C, J>>,
}

impl<C: Drop, J: Naming> ClientQueue<C, J> {
    pub(crate) fn new(alloc: Global, worker: u16) -> ClientQueue<C, J> {
        ClientQueue {
            worker,
            count: 0,
            coming: VecDeque::new(alloc),
            held: None,
        }
    }

    /// Adds a client.
    pub(crate) fn add(&mut self, number: u32, port: C) -> Result<(), NoMemory> {
        let count = self.count.checked_add(1).ok_or(NoMemory)?;
        self.coming.push_back((number, port))?;
        self.count = count;
        Ok(())
    }

    /// How many clients were added.
    pub(crate) fn count(&self) -> u32 {
        self.count
    }

    /// Hands the next client over, with what is published by then. True where one was to come and its lane took it.
    pub(crate) fn hand_next<T: ShowsOps + Drop>(
        &mut self,
        ends: &mut CarrierEnds<Newcomer<C, J>, MapWriter<J, T>>,
    ) -> bool {
        let worker = self.worker;
        if usize::from(worker) >= ends.workers() {
            return false;
        }
        let Some(newcomer) = self.next(&mut ends.map) else {
            return false;
        };
        match ends.hand(worker, newcomer) {
            Ok(()) => true,
            Err(back) => {
                self.held = Some(back);
                false
            }
        }
    }

    fn next<T: ShowsOps + Drop>(&mut self, map: &mut MapWriter<J, T>) -> Option<Newcomer<C, J>> {
        if let Some(held) = self.held.take() {
            return Some(held);
        }
        let (number, port) = self.coming.pop_front()?;
        Some(Newcomer {
            number,
            port,
            front: map.tell(),
        })
    }
}

/// Hands each worker its next client, where its lane takes one. True where one did.
pub(crate) fn hand_clients<C: Drop, J: Naming, T: ShowsOps + Drop>(
    queues: &mut Vec<ClientQueue<C, J>>,
    ends: &mut CarrierEnds<Newcomer<C, J>, MapWriter<J, T>>,
) -> bool {
    let mut handed = false;
    for queue in queues.iter_mut() {
        handed |= queue.hand_next(ends);
    }
    handed
}
