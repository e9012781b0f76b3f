//! What the events tell of each node.

use crate::event::{Event, NODES, NodeName};
use resp_wire::{Bytes, NoMemory};
use std::alloc::Global;
use std::sync::Mutex;
use std::sync::atomic::{AtomicBool, AtomicU64, Ordering};

/// What is known of a node that was dialled.
#[derive(Drop)]
pub struct NodeStanding {
    /// Its host and port.
    pub address: Bytes,
    pub has_link: bool,
    /// The last dial of it failed.
    pub dial_failed: bool,
    /// The last answer to CLUSTER SLOTS gave it slots.
    pub serves_slots: bool,
}

/// What the events of a thread tell of each node. Only that thread changes it; a node is a bit of each number.
#[derive(Drop)]
pub(crate) struct NodeBoard {
    /// The name of each node, where it is known. It is put there before the node counts as named, and only read while it does: so
    /// neither side finds it locked, but where a worker has just begun anew. Its node is then named by a later event.
    names: Vec<Mutex<Vec<NodeName>>>,
    named: AtomicU64,
    linked: AtomicU64,
    failed: AtomicU64,
    serving: AtomicU64,
    has_map: AtomicBool,
}

impl NodeBoard {
    /// No node is known.
    pub(crate) fn new(alloc: Global) -> Result<NodeBoard, NoMemory> {
        let mut names = Vec::with_capacity(alloc, NODES)?;
        for _ in 0..NODES {
            names.push(Mutex::new(Vec::new(alloc)))?;
        }
        Ok(NodeBoard {
            names,
            named: AtomicU64::new(0),
            linked: AtomicU64::new(0),
            failed: AtomicU64::new(0),
            serving: AtomicU64::new(0),
            has_map: AtomicBool::new(false),
        })
    }

    /// Notes what the event tells of its node.
    pub(crate) fn note(&self, event: &Event) {
        match event {
            Event::LinkOpened(node) => {
                self.note_name(node);
                set(&self.linked, node);
                clear(&self.failed, node);
            }
            Event::LinkLost(node, _) => clear(&self.linked, node),
            Event::DialFailed(node, _) => {
                self.note_name(node);
                set(&self.failed, node);
            }
            Event::SlotsTold(_, told) => {
                self.serving.store(told.nodes, Ordering::SeqCst);
                self.has_map.store(true, Ordering::SeqCst);
            }
            Event::ClientRefused(_)
            | Event::ClientsFull(_)
            | Event::ProtocolError(_, _)
            | Event::UnfinishedRequest(_, _)
            | Event::DrainBegun(_, _)
            | Event::Drained(_)
            | Event::TableFull(_, _, _)
            | Event::TooManyNodes(_) => {}
            Event::TableBegun(_, _, _) => self.forget_nodes(),
        }
    }

    /// No node is known any more: the numbers are those of other nodes from now on.
    fn forget_nodes(&self) {
        self.named.store(0, Ordering::SeqCst);
        self.linked.store(0, Ordering::SeqCst);
        self.failed.store(0, Ordering::SeqCst);
        self.serving.store(0, Ordering::SeqCst);
    }

    /// Keeps the node's name, where none is kept.
    fn note_name(&self, node: &NodeName) {
        if has(&self.named, node.number()) {
            return;
        }
        let Ok(name) = node.again() else {
            return;
        };
        let Some(place) = self.names.get(usize::from(node.number())) else {
            return;
        };
        let Some(mut kept) = place.try_lock() else {
            return;
        };
        kept.clear();
        if kept.push(name).is_ok() {
            set(&self.named, node);
        }
    }

    /// Whether an answer to CLUSTER SLOTS was read.
    pub(crate) fn has_map(&self) -> bool {
        self.has_map.load(Ordering::SeqCst)
    }

    /// What is known of each node that was dialled.
    pub(crate) fn standings(&self, alloc: Global) -> Result<Vec<NodeStanding>, NoMemory> {
        let mut standings = Vec::new(alloc);
        for number in 0..NODES {
            if let Some(standing) = self.standing_of(alloc, number)? {
                standings.push(standing)?;
            }
        }
        Ok(standings)
    }

    fn standing_of(&self, alloc: Global, number: usize) -> Result<Option<NodeStanding>, NoMemory> {
        let Ok(bit) = u8::try_from(number) else {
            return Ok(None);
        };
        if !has(&self.named, bit) {
            return Ok(None);
        }
        let Some(address) = self.address_of(alloc, number)? else {
            return Ok(None);
        };
        Ok(Some(NodeStanding {
            address,
            has_link: has(&self.linked, bit),
            dial_failed: has(&self.failed, bit),
            serves_slots: has(&self.serving, bit),
        }))
    }

    fn address_of(&self, alloc: Global, number: usize) -> Result<Option<Bytes>, NoMemory> {
        let Some(place) = self.names.get(number) else {
            return Ok(None);
        };
        let Some(kept) = place.try_lock() else {
            return Ok(None);
        };
        let Some(name) = kept.first() else {
            return Ok(None);
        };
        Ok(Some(Bytes::from_slice(alloc, name.address())?))
    }
}

/// The bit of the node of this number.
fn bit_of(number: u8) -> u64 {
    1u64.wrapping_shl(u32::from(number))
}

fn has(nodes: &AtomicU64, number: u8) -> bool {
    nodes.load(Ordering::SeqCst) & bit_of(number) != 0
}

fn set(nodes: &AtomicU64, node: &NodeName) {
    nodes.fetch_or(bit_of(node.number()), Ordering::SeqCst);
}

fn clear(nodes: &AtomicU64, node: &NodeName) {
    nodes.fetch_and(!bit_of(node.number()), Ordering::SeqCst);
}
