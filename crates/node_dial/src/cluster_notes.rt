//! What is noted of the cluster's nodes.

use crate::lost_nodes::{LostNodes, note_lost, note_slots};
use crate::node_set::NodeSet;
use crate::slot_owners::{SlotOwners, nodes_of, note_owners};
use event_log::{Event, Figure, NodeName, SlotsTold, ThreadReport};
use resp_wire::NoMemory;
use slot_map::{MapOp, NodeId};
use std::alloc::Global;
use std::cell::{Cell, RefCell};
use std::io;
use std::rc::Rc;

/// What is noted of the cluster's nodes by all that belongs to the carrier.
#[derive(Drop)]
pub(crate) struct ClusterNotes {
    pub(crate) lost: Cell<LostNodes>,
    owners: RefCell<SlotOwners>,
    /// The nodes whose connection was garbled while a block was under way: a node that refuses MULTI is one. They take runs of one.
    plain: RefCell<NodeSet>,
    /// The proxy has come to its end: that of a connection is not logged.
    ended: Cell<bool>,
}

/// The same, for each that notes.
pub(crate) type SharedNotes = Rc<ClusterNotes>;

impl ClusterNotes {
    /// Nothing is noted.
    pub(crate) fn new(alloc: Global) -> Result<SharedNotes, NoMemory> {
        let owners = SlotOwners::new(alloc)?;
        let notes = ClusterNotes {
            lost: Cell::new(LostNodes::new()),
            owners: RefCell::new(owners),
            plain: RefCell::new(NodeSet::new()),
            ended: Cell::new(false),
        };
        Ok(Rc::new(alloc, notes)?)
    }

    /// The proxy has come to its end.
    pub(crate) fn end(&self) {
        self.ended.set(true);
    }

    /// Whether the proxy has come to its end.
    pub(crate) fn has_ended(&self) -> bool {
        self.ended.get()
    }

    /// Whether runs may go to the node as blocks.
    pub(crate) fn takes_blocks(&self, node: NodeId) -> bool {
        match self.plain.try_borrow() {
            Ok(plain) => !plain.has(node),
            Err(_) => false,
        }
    }

    /// The node takes runs of one from now on.
    pub(crate) fn note_plain(&self, node: NodeId) {
        if let Ok(mut plain) = self.plain.try_borrow_mut() {
            plain.insert(node);
        }
    }

    /// Notes what the node told of the slots, and reports it.
    pub(crate) fn note_slots(&self, report: &ThreadReport, name: NodeName, changes: &[MapOp]) {
        note_slots(&self.lost, changes);
        let told = SlotsTold {
            ranges: changes.len(),
            slots_changed: note_owners(&self.owners, changes),
            nodes: nodes_of(changes),
        };
        report.tell(Event::SlotsTold(name, told));
    }

    /// Reports that a dial of the node at this endpoint failed, and counts it.
    pub(crate) fn note_failure(
        &self,
        alloc: Global,
        report: &ThreadReport,
        node: NodeId,
        host: &[u8],
        port: u16,
        error: io::Error,
    ) -> Result<(), NoMemory> {
        let name = NodeName::new(alloc, node, host, port)?;
        note_lost(&self.lost, node);
        report.count(Figure::DialsFailed, 1);
        report.tell(Event::DialFailed(name, error));
        Ok(())
    }
}

/// The same notes, for one more that notes.
pub(crate) fn share(notes: &SharedNotes) -> Result<SharedNotes, NoMemory> {
    match notes.clone() {
        Ok(notes) => Ok(notes),
        Err(_) => Err(NoMemory),
    }
}
