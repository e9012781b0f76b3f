//! A proxy of a row, which begins as an engine or as a play.

ghost use Rattle.std.specs.Prelude.{◌≡◌};
ghost use Rattle.proxy_lanes.specs.Opened.{book_of};

use crate::gates::Open;
use crate::tables::{PORTS, table_at};
use crate::turns::clients::Clients;
use crate::turns::dial::MemoryDial;
use crate::turns::engine::MemoryEngine;
use crate::turns::nodes::SharedNodes;
use crate::turns::play::{self, MemoryPlay};
use layer_rows::{CallFault, Held, Line, RowHost};
use proxy_engine::Engine;
use proxy_lanes::{Naming, Opened};
use resp_wire::NoMemory;
use slot_map::NodeTable;
use std::alloc::Global;
use std::marker::PhantomData;
use turn_play::Play;

/// A proxy that lines turn.
pub trait Proxy {
    /// A call of its engine.
    fn call_engine(&mut self, nodes: &SharedNodes, line: &mut Line);

    /// A call of its play.
    fn call_play(&mut self, nodes: &SharedNodes, line: &mut Line);
}

/// What a proxy is made of that has not begun: a runtime, and a history that was just opened.
#[derive(Drop)]
pub struct Opening<J: Naming, R: RowHost> {
    rt: R,
    opened: Opened,
    of: PhantomData<J>,
    ghost named: { book_of opened ≡ J.book },
}

impl<J: Naming, R: RowHost> Opening<J, R> {
    pub fn new(rt: R, opened: Opened) -> Opening<J, R>
        requires { book_of opened ≡ J.book }
    {
        Opening {
            rt,
            opened,
            of: PhantomData,
        }
    }

    /// An engine whose table has the first node alone, and which is to take so many clients, or clients without end.
    fn engine<'g>(
        self,
        alloc: Global,
        gate: &'g Open,
        dial: MemoryDial,
        clients: Option<u32>,
    ) -> Result<MemoryEngine<'g, J, R>, NoMemory> {
        let seeds = table_at(alloc, &[7001])?;
        let rt = self.rt;
        let engine = Engine::new(alloc, rt, self.opened, gate, dial, seeds, clients)?;
        Ok(MemoryEngine { rt, engine })
    }

    /// A play whose table has the three nodes, in their order.
    fn play<'g>(self, alloc: Global, gate: &'g Open) -> Result<MemoryPlay<'g, J, R>, NoMemory> {
        let seeds = table_at(alloc, &PORTS)?;
        let nodes = table_at(alloc, &PORTS)?;
        let play = Play::new(alloc, self.rt, self.opened, gate, None, seeds, nodes)?;
        Ok(MemoryPlay { play })
    }
}

/// A proxy that has begun, or its opening, with its clients.
#[derive(Drop)]
pub struct Stage<'g, J: Naming, R: RowHost> {
    gate: &'g Open,
    opening: Held<Opening<J, R>>,
    engine: Held<MemoryEngine<'g, J, R>>,
    play: Held<MemoryPlay<'g, J, R>>,
    clients: Clients,
}

impl<'g, J: Naming, R: RowHost> Stage<'g, J, R> {
    /// Where a proxy is to begin.
    pub fn new(alloc: Global, gate: &'g Open, opening: Opening<J, R>) -> Stage<'g, J, R> {
        Stage {
            gate,
            opening: Held {
                value: Some(opening),
            },
            engine: Held::none(),
            play: Held::none(),
            clients: Clients::new(alloc),
        }
    }

    /// `begin`, or `begin CLIENTS` for so many of them.
    fn begin_engine(&mut self, nodes: &SharedNodes, line: &mut Line) {
        let Some(clients) = count_in(line) else {
            return;
        };
        let Some(nodes) = line.made(nodes.clone()) else {
            return;
        };
        let dial = MemoryDial::new(line.alloc, nodes);
        match self.opening.value.take() {
            Some(opening) => self
                .engine
                .hold(opening.engine(line.alloc, self.gate, dial, clients), line),
            None => line.refuse(CallFault::NotNow),
        }
    }

    fn end_engine(&mut self, line: &mut Line) {
        match self.engine.value.take() {
            Some(engine) => line.show(engine.end()),
            None => line.refuse(CallFault::NotMade),
        }
    }

    fn begin_play(&mut self, line: &mut Line) {
        match self.opening.value.take() {
            Some(opening) => self.play.hold(opening.play(line.alloc, self.gate), line),
            None => line.refuse(CallFault::NotNow),
        }
    }

    /// A call of the play, where it has begun.
    fn call_begun(&mut self, nodes: &SharedNodes, line: &mut Line) {
        let Some(play) = &mut self.play.value else {
            return line.refuse(CallFault::NotMade);
        };
        match nodes.try_borrow_mut() {
            Ok(mut nodes) => play::call(play, nodes.cluster(), line),
            Err(_) => line.refuse(CallFault::NotNow),
        }
    }
}

impl<'g, J: Naming, R: RowHost> Proxy for Stage<'g, J, R> {
    fn call_engine(&mut self, nodes: &SharedNodes, line: &mut Line) {
        match line.call() {
            "begin" => self.begin_engine(nodes, line),
            "client" => self.clients.come(&mut self.engine, line),
            "hears" => self.clients.hears(line),
            "held" => self.clients.show_held(line),
            "end" => self.end_engine(line),
            _ => self.engine.call(line),
        }
    }

    fn call_play(&mut self, nodes: &SharedNodes, line: &mut Line) {
        match line.call() {
            "begin" => self.begin_play(line),
            "client" => self.clients.come(&mut self.play, line),
            "do" | "others" => self.call_begun(nodes, line),
            "ends" => self.clients.show_noted(line),
            "held" => self.clients.show_held(line),
            _ => line.refuse(CallFault::NoSuchCall),
        }
    }
}

/// How many clients are to come: those that the line says, or without end. None where that is no number.
fn count_in(line: &mut Line) -> Option<Option<u32>> {
    if line.is_read() {
        return Some(None);
    }
    Some(Some(line.read()?))
}
