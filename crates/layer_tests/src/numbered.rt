//! Runs that carry a number.

use key_split::{Batch, Op, Part, Run, Ticket};
use resp_wire::Bytes;
use slot_map::NodeId;
use std::alloc::Global;

/// A run of one command, whose part has this number.
pub fn run(alloc: Global, number: u64) -> Run {
    let no_bytes = Bytes::new(Vec::new(alloc));
    let batch = Batch {
        ticket: Ticket {
            worker: 0,
            client: 0,
            part: number,
        },
        node: NodeId::new(0).unwrap(),
        asking: false,
        part: Part::new(alloc, Op::Get, no_bytes, Bytes::new(Vec::new(alloc))),
    };
    Run::one(alloc, batch)
}
