//! What the carrier does in a run.

use super::client_queue::{ClientQueue, hand_clients};
use super::stop::Signals;
use node_link::RunPort;
use proxy_lanes::{Naming, Publisher};
use proxy_turns::{Carrier, Dial, Newcomer};
use resp_wire::NoMemory;
use std::sync::Wait;
use std::thread;

/// What the carrier's thread turns.
pub(crate) trait Turning {
    /// One turn. True where something moved.
    fn turn(&mut self) -> Result<bool, NoMemory>;
}

/// A carrier, and the clients that it hands to their workers.
#[derive(Drop)]
pub(crate) struct ClientCarrier<T, C: Drop, J: Naming> {
    pub(crate) carrier: T,
    pub(crate) queues: Vec<ClientQueue<C, J>>,
}

impl<C, J, R, P, D> Turning for ClientCarrier<Carrier<Newcomer<C, J>, Publisher<J, R>, D, P>, C, J>
where
    C: Drop,
    J: Naming,
    R: Wait + Drop,
    P: RunPort + Drop,
    D: Dial<Port = P> + Drop,
{
    /// One turn of the carrier, behind the new clients that can be handed over.
    fn turn(&mut self) -> Result<bool, NoMemory> {
        let handed = hand_clients(&mut self.queues, self.carrier.ends());
        let moved = self.carrier.turn()?;
        Ok(handed || moved)
    }
}

/// Turns the carrier until the run is over. Want of memory ends all other threads too.
pub(crate) fn run_carrier<T: Turning + Drop, R: Wait>(
    rt: &R,
    mut carrier: T,
    signals: &Signals,
) -> Result<(), NoMemory> {
    for _ in rt.forever() {
        if signals.are_over() {
            return Ok(());
        }
        match carrier.turn() {
            Ok(true) => {}
            Ok(false) => thread::yield_now(),
            Err(NoMemory) => {
                signals.stop.raise();
                return Err(NoMemory);
            }
        }
    }
    unreachable!()
}
