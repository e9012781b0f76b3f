//! Slots of keys.

use crate::notation::{CallFault, Line};
use resp_wire::Bytes;
use slot_hash::{Slot, slot_of, tag_of};
use slot_map::NodeId;

pub fn call(line: &mut Line) {
    match line.call() {
        "new" => {
            if let Some(number) = line.read() {
                line.show(Slot::new(number));
            }
        }
        "node" => {
            if let Some(number) = line.read() {
                line.show(NodeId::new(number));
            }
        }
        "of" => {
            if let Some(key) = line.read::<Bytes>() {
                line.show(slot_of(key.as_slice()));
            }
        }
        "tag" => {
            if let Some(key) = line.read::<Bytes>() {
                line.answer.bytes(tag_of(key.as_slice()));
            }
        }
        _ => line.refuse(CallFault::NoSuchCall),
    }
}
