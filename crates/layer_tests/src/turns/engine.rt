//! An engine before the nodes in memory, which lines turn.

use crate::gates::Open;
use crate::turns::client::SharedClient;
use crate::turns::clients::Entrance;
use crate::turns::dial::MemoryDial;
use crate::turns::port::MemoryPort;
use layer_rows::{CallFault, Line, Object, RowHost, is_done};
use node_link::Fuse;
use proxy_engine::{Engine, EngineFault, Turned};
use proxy_lanes::Naming;
use proxy_turns::{Newcomer, WorkerOutcome};
use std::time::Instant;

/// The engine, and the runtime that has its clock.
#[derive(Drop)]
pub struct MemoryEngine<'g, J: Naming, R: RowHost> {
    pub rt: R,
    pub engine: Engine<'g, SharedClient, J, R, MemoryDial, Fuse<MemoryPort>, Open>,
}

impl<'g, J: Naming, R: RowHost> MemoryEngine<'g, J, R> {
    /// So many turns, up to one behind which all clients are served.
    fn turn(&mut self, count: u64) -> Result<Turned, EngineFault> {
        let mut came = Turned {
            moved: false,
            next_due: None,
            served: false,
        };
        for _ in 0..count {
            let turned = self.engine.turn()?;
            came = Turned {
                moved: came.moved | turned.moved,
                ..turned
            };
            if came.served {
                break;
            }
        }
        Ok(came)
    }

    /// `time COUNT`: how many nanoseconds a turn took, the mean of so many, where none of them moved anything.
    fn show_time(&mut self, line: &mut Line) {
        let Some(count) = line.read::<u64>() else {
            return;
        };
        let Ok(start) = Instant::now(&self.rt) else {
            return line.refuse(CallFault::NotNow);
        };
        match self.turn(count) {
            Ok(turned) if !turned.moved => show_mean(&self.rt, &start, count, line),
            turned => show_turned(turned, line),
        }
    }

    /// Ends the engine: how many clients it gives back.
    pub fn end(self) -> usize {
        let end = self.engine.end(WorkerOutcome::Stopped);
        end.ports.len()
    }
}

impl<'g, J: Naming, R: RowHost> Object for MemoryEngine<'g, J, R> {
    fn call(&mut self, line: &mut Line) {
        match line.call() {
            "turn" => {
                if let Some(count) = line.read() {
                    show_turned(self.turn(count), line);
                }
            }
            "time" => self.show_time(line),
            _ => line.refuse(CallFault::NoSuchCall),
        }
    }
}

impl<'g, J: Naming, R: RowHost> Entrance for MemoryEngine<'g, J, R> {
    fn hand(&mut self, number: u32, port: SharedClient) -> bool {
        is_done(
            self.engine.hand(Newcomer {
                number,
                port,
                front: None,
            }),
        )
    }
}

fn show_turned(turned: Result<Turned, EngineFault>, line: &mut Line) {
    match turned {
        Ok(turned) => {
            line.say(if turned.moved { "moved" } else { "rests" });
            if turned.served {
                line.say("served");
            }
        }
        Err(fault) => line.answer.debug(&fault),
    }
}

fn show_mean<R: RowHost>(rt: &R, start: &Instant, count: u64, line: &mut Line) {
    match start.elapsed(rt) {
        Ok(spent) => {
            let nanoseconds = u64::try_from(spent.as_nanos()).unwrap_or(u64::MAX);
            line.show(nanoseconds / count.max(1));
        }
        Err(_) => line.refuse(CallFault::NotNow),
    }
}
