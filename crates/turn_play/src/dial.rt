//! A dial in memory.

ghost use Rattle.turn_play.specs.Port.{IsFresh};

use crate::port::{PlayPort, new_port};
use node_link::{Dial, DialFault};
use slot_map::NodeId;
use std::alloc::Global;

/// Opens a connection to each node that is dialled.
#[derive(Drop)]
pub struct PlayDial {
    alloc: Global,
}

impl PlayDial {
    pub fn new(alloc: Global) -> PlayDial {
        PlayDial { alloc }
    }
}

impl Dial for PlayDial {
    type Port = PlayPort;

    ghost failures = { λ _. 0 };

    ghost opens = { IsFresh };

    fn seeks(&mut self) -> bool {
        false
    }

    fn open(&mut self, _: NodeId, _: &[u8], _: u16) -> Result<PlayPort, DialFault> {
        Ok(new_port(self.alloc))
    }
}
