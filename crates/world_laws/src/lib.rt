//! The core of the proxy as a machine, below its code: what may happen, event by event, and what holds after every schedule.
//!
//! ```text
//! let event = Event::Post { tickets, node };
//! ```
//!
//! The promise is the headline: each command that ended with a reply stands exactly once in one legal history of one store,
//! between its arrival and its answer, in its client's order for each slot. `laws::every_schedule` carries it; its statement
//! is `specs/Headline.antt`, over the steps of `specs/World.antt`.
#![tactic(auto)]

mod event;
mod history;
pub mod laws;
mod state;
mod tickets;

pub use event::Event;
pub use history::{Answer, Entry};
pub use state::{Arrival, LinkReply, LinkRequest, Posted};
pub use tickets::Tickets;
