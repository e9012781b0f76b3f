//! What the words of the program ask for.
//!
//! ```text
//! match choose(alloc, &words)? {
//!     Choice::Local(playing) => play(playing.workers),
//!     ..
//! }
//! ```
//!
//! Promise: exact programs. What `local`, `nodes` and `serve` read of their words is said exactly by the contracts of
//! `playing_of`, `ports_in` and `serving_of`, over the definitions of `specs/Asked.antt`. All seeds go into the first table
//! (`specs/SeedTable.antt`).
#![tactic(auto)]

mod address;
mod choice;
mod local;
mod number;
mod ports;
mod seeds;
mod serving;
mod subcommand;

pub use address::{Address, address_of};
pub use choice::{Choice, VERSION, choose};
pub use local::{Playing, playing_of};
pub use number::{port_of, workers_of};
pub use ports::{Ports, ports_in, ports_of};
pub use seeds::seed_table;
pub use serving::{Serving, serving_of};
