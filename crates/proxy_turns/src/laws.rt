//! What follows of a worker's events. Each law is the contract of a function that does nothing.

ghost use Rattle.proxy_turns.specs.WorkerDrain.{StaysDraining};

use crate::port::ClientPort;
use proxy_lanes::Naming;

/// A worker that was drained takes no client and reads no request, whatever it does.
pub fn stays_draining<C: ClientPort + Drop, J: Naming>()
    ensures { StaysDraining C J C.moves }
{}
