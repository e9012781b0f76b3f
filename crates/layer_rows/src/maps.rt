//! The table of nodes, and a slot map with a copy of it.

use crate::held::{Held, put};
use crate::notation::{CallFault, Line, Object};
use key_split::{Told, told_value};
use node_link::told_of;
use resp_wire::{Bytes, Value, is_one_line};
use slot_map::{MapOp, NodeId, NodeTable, SlotMap, ops_of};
use std::alloc::Global;

#[derive(Drop)]
pub struct MapObjects {
    pub table: NodeTable,
    pub map: Held<SlotMap>,
    /// A copy of the map, by itself.
    pub copy: Held<SlotMap>,
}

impl MapObjects {
    pub fn new(alloc: Global) -> MapObjects {
        MapObjects {
            table: NodeTable::new(alloc),
            map: Held::none(),
            copy: Held::none(),
        }
    }

    pub fn map(&mut self, value: &Held<Value>, line: &mut Line) {
        match line.call() {
            "new" => self.map.hold(SlotMap::new(line.alloc), line),
            "copy" => match &self.map.value {
                Some(map) => self.copy.hold(map.copy(line.alloc), line),
                None => line.refuse(CallFault::NotMade),
            },
            "read" => self.read(value, line),
            _ => self.map.call(line),
        }
    }

    /// Reads a value as the asked node's reply to CLUSTER SLOTS, and applies what it says to the map, where there is one.
    fn read(&mut self, value: &Held<Value>, line: &mut Line) {
        let Some(asked) = line.read() else {
            return;
        };
        match &value.value {
            Some(value) => read_slots(&mut self.table, asked, value, &mut self.map, line),
            None => line.refuse(CallFault::NotMade),
        }
    }

    /// What a command is told: by a line of a node, and as a node writes it.
    pub fn told(&mut self, line: &mut Line) {
        match line.call() {
            "by" => tell(&mut self.table, line),
            "value" => show_written(&self.table, line),
            _ => line.refuse(CallFault::NoSuchCall),
        }
    }
}

impl Object for NodeTable {
    fn call(&mut self, line: &mut Line) {
        match line.call() {
            "new" => put(self, NodeTable::new(line.alloc), line),
            "intern" => intern(self, line),
            "beside" => intern_beside(self, line),
            "endpoint" => show_endpoint(self, line),
            _ => line.refuse(CallFault::NoSuchCall),
        }
    }
}

fn intern(table: &mut NodeTable, line: &mut Line) {
    let Some((host, port)) = line.read::<(Bytes, u16)>() else {
        return;
    };
    if is_one_line(host.as_slice()) {
        line.show(table.intern(host.as_slice(), port));
    } else {
        line.refuse(CallFault::NotNow);
    }
}

fn intern_beside(table: &mut NodeTable, line: &mut Line) {
    let Some((asked, port)) = line.read() else {
        return;
    };
    if table.endpoint(asked).is_some() {
        line.show(table.intern_beside(asked, port));
    } else {
        line.refuse(CallFault::NotNow);
    }
}

fn show_endpoint(table: &NodeTable, line: &mut Line) {
    let Some(node) = line.read() else {
        return;
    };
    match table.endpoint(node) {
        Some((host, port)) => {
            line.answer.bytes(host);
            line.show(port);
        }
        None => line.say("none"),
    }
}

impl Object for SlotMap {
    fn call(&mut self, line: &mut Line) {
        match line.call() {
            "node" => {
                if let Some(slot) = line.read() {
                    line.show(self.node_of(slot));
                }
            }
            "range" => apply(self, range_in(line), line),
            "slot" => apply(self, slot_in(line), line),
            _ => line.refuse(CallFault::NoSuchCall),
        }
    }
}

fn apply(map: &mut SlotMap, op: Option<MapOp>, line: &mut Line) {
    if let Some(op) = op {
        map.apply(op);
        line.done();
    }
}

/// `FIRST LAST NODE`
pub fn range_in(line: &mut Line) -> Option<MapOp> {
    let ((first, last), node) = line.read()?;
    Some(MapOp::SetRange(first, last, node))
}

/// `SLOT NODE`
pub fn slot_in(line: &mut Line) -> Option<MapOp> {
    let (slot, node) = line.read()?;
    Some(MapOp::SetSlot(slot, node))
}

fn read_slots(
    table: &mut NodeTable,
    asked: NodeId,
    value: &Value,
    map: &mut Held<SlotMap>,
    line: &mut Line,
) {
    if table.endpoint(asked).is_none() {
        return line.refuse(CallFault::NotNow);
    }
    match ops_of(value, asked, table) {
        Ok(ops) => apply_all(&mut map.value, ops.as_slice(), line),
        Err(fault) => line.answer.debug(&fault),
    }
}

/// Shows what is said of the map, and applies it, where there is a map.
fn apply_all(map: &mut Option<SlotMap>, ops: &[MapOp], line: &mut Line) {
    line.say("ops");
    for op in ops {
        line.show(*op);
        if let Some(map) = map {
            map.apply(*op);
        }
    }
}

/// `by NODE LINE`
fn tell(table: &mut NodeTable, line: &mut Line) {
    let Some((asked, text)) = line.read::<(NodeId, Bytes)>() else {
        return;
    };
    if let Some(value) = line.made(error_in(line.alloc, text.as_slice())) {
        show_told_by(table, asked, value, line);
    }
}

fn error_in(alloc: Global, text: &[u8]) -> Result<Value, CallFault> {
    match resp_wire::Line::new(Vec::from_slice(alloc, text)?) {
        Some(line) => Ok(Value::Error(line)),
        None => Err(CallFault::BadValue),
    }
}

/// What a value of the asked node says.
fn show_told_by(table: &mut NodeTable, asked: NodeId, value: Value, line: &mut Line) {
    if table.endpoint(asked).is_some() {
        line.show_found(told_of(value, asked, table).ok(), CallFault::NoMemory);
    } else {
        drop(value);
        line.refuse(CallFault::NotNow);
    }
}

/// `value TOLD`
fn show_written(table: &NodeTable, line: &mut Line) {
    if let Some(told) = line.read::<Told>() {
        let written = written(line.alloc, &told, table);
        drop(told);
        line.show_made(written);
    }
}

/// What a node writes.
pub fn written(alloc: Global, told: &Told, table: &NodeTable) -> Result<Value, CallFault> {
    match told {
        Told::Reply(_) | Told::TryAgain | Told::ClusterDown => {}
        Told::Moved(_, node) | Told::Ask(_, node) => {
            if table.endpoint(*node).is_none() {
                return Err(CallFault::NotNow);
            }
        }
        Told::Unclear | Told::Lost | Told::Unsent => return Err(CallFault::NotNow),
    }
    Ok(told_value(alloc, told, table)?)
}
