//! The objects of the layers, by name.

use crate::courier::{self, Courier};
use crate::held::Held;
use crate::links::LinkObjects;
use crate::maps::MapObjects;
use crate::notation::{CallFault, Line, Object};
use crate::plans::{self, PlanObjects};
use crate::wire::call_of_value;
use crate::{commands, local, nodes, runs, slots};
use command_future::Command;
use key_split::{Ended, Part, Run};
use local_cluster::LocalState;
use node_model::{Cluster, Store};
use resp_wire::{Limits, Reader, Value};
use session_order::Session;
use std::alloc::{AllocGlobal, Global};
use std::random::RandomSource;
use std::sync::Wait;

/// The objects of all layers, and the runtime in which a command is carried.
#[derive(Drop)]
pub struct LayerObjects<R, L, O> {
    pub rt: R,
    pub courier: Courier,
    pub lanes: L,
    pub others: O,
}

impl<R, L, O> Object for LayerObjects<R, L, O>
where
    R: Wait + RandomSource + AllocGlobal,
    L: Object,
    O: Object,
{
    fn call(&mut self, line: &mut Line) {
        match line.object() {
            "lanes" => self.lanes.call(line),
            "courier" => courier::call(&self.rt, &mut self.courier, line),
            _ => self.others.call(line),
        }
    }
}

/// All objects but the courier and the lanes.
#[derive(Drop)]
pub struct RowObjects {
    reader: Reader,
    value: Held<Value>,
    maps: MapObjects,
    plans: PlanObjects,
    run: Held<Run>,
    command: Held<Command>,
    session: Session,
    store: Store,
    cluster: Held<Cluster>,
    links: LinkObjects,
    state: Held<LocalState>,
}

impl RowObjects {
    pub fn new(alloc: Global) -> RowObjects {
        RowObjects {
            reader: Reader::new(alloc, Limits::full()),
            value: Held::none(),
            maps: MapObjects::new(alloc),
            plans: PlanObjects::new(alloc),
            run: Held::none(),
            command: Held::none(),
            session: Session::new(alloc, 0, 0, Limits::full()),
            store: Store::new(alloc),
            cluster: Held::none(),
            links: LinkObjects::new(alloc),
            state: Held::none(),
        }
    }
}

impl Object for RowObjects {
    fn call(&mut self, line: &mut Line) {
        match line.object() {
            "command" => commands::call(&mut self.command, line),
            "session" => self.session.call(line),
            "store" => self.store.call(line),
            "reader" => self.reader.call(line),
            "value" => call_of_value(&mut self.value, line),
            "slot" => slots::call(line),
            "plan" => self.plans.call(line),
            "run" => runs::call(&mut self.run, line),
            "part" => plans::call_of_one::<Part>(line),
            "end" => plans::call_of_one::<Ended>(line),
            "table" => self.maps.table.call(line),
            "map" => self.maps.map(&self.value, line),
            "copy" => self.maps.copy.call(line),
            "told" => self.maps.told(line),
            "cluster" => nodes::call(&mut self.cluster, &self.maps, &mut self.value, line),
            "stream" => self.links.stream.call(line),
            "port" => self.links.port(line),
            "link" => self.links.link(&mut self.maps.table, &mut self.value, line),
            "state" => local::call(&mut self.state, line),
            _ => line.refuse(CallFault::NoSuchObject),
        }
    }
}
