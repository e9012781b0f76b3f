//! A worker and its carrier as one value: a proxy without threads, sockets or clocks.
//!
//! ```text
//! let mut engine = Engine::new(alloc, rt, opened, &gate, dial, seeds, None)?;
//! engine.hand(client);
//! let turned = engine.turn()?;
//! ```
//!
//! Promise: a turn is a turn of the worker and then one of the carrier, as proxy_turns has them (`EngineTurns` of
//! `specs/EngineModel.antt`). The two ends of each lane are in one value, so after each turn they are in order, and the worker sees a
//! front of the slot map that the carrier published (`IsInOrder`). A turn that says that nothing moved has left nothing to do, and
//! nothing in a lane (`IsEngineAtRest`).
#![tactic(auto)]

mod engine;
pub mod laws;
mod turned;

pub use engine::Engine;
pub use turned::{EngineFault, Turned};
