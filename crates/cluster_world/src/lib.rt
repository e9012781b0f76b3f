//! The core of the proxy, event by event, in code.
//!
//! ```text
//! let mut world = World::new(alloc, 3, 2, &owners)?;
//! world.apply(&Event::Arrive { client: 7, part })?;
//! world.run(&events)?;
//! for entry in world.history() { .. }
//! ```
//!
//! Promises: exact steps, and the headline. `World::apply` makes the step of world_laws and answers `NotNow` exactly where there
//! is none (`specs/Steps.antt`); `World::run` is the fold of it. Whatever events a world was led by, its history is one legal
//! history of one store, and each command that ended with a reply stands in it once (the clauses `headline`).
#![tactic(auto)]

mod asks;
mod commands;
mod event_line;
mod fault;
mod fields;
mod header;
mod input;
mod lawful;
mod link;
mod links;
mod machine;
mod moves;
mod one;
mod outcome;
mod owners;
mod places;
mod posting;
mod report;
mod rows;
mod run_report;
mod schedule;
mod script;
mod script_fault;
mod serving;
mod simulate;
mod tables;
mod verb;
mod watched;
mod world;

pub use event_line::event_of;
pub use fault::{RunFault, WorldFault};
pub use fields::{node_in, number_under, slot_in};
pub use input::{INPUT_LIMIT, Input, read_input};
pub use lawful::audit;
pub use one::{First, OneFault, answer_first, first_request, reply_on_empty, run_one};
pub use outcome::Outcome;
pub use report::{bad_line, write_value_text};
pub use run_report::RunReport;
pub use script::{LineRead, cut, number, read_line, words};
pub use simulate::{SimulateFault, run_script, run_simulate};
pub use watched::{LastRead, WatchedReader, WatchedWriter, WriteFailed};
pub use world::World;
pub use world_laws::{Answer, Entry, Event, Tickets};
