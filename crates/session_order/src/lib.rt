//! One client's session: its bytes in, its commands out, and its replies in the order of its requests.
//!
//! ```text
//! session.feed(&mut buffer, count)?; while session.read()? {}
//! while let Some((ticket, part)) = session.ready() { .. }   // post it, and session.follower(ticket) behind it
//! session.ended(ticket, end);
//! let drained = session.drain(&mut out, 65_536)?;      // drained.tail stands behind out
//! ```
//!
//! A large body that ends a drain is given back as it lies in memory, and is not copied.
//!
//! Whatever the calls, what was drained is a front of the output that `specs/Output.antt` gives for the requests read and
//! the ends told, and all of it after a drain of fewer bytes than it was asked for: `drains_output`. A part is handed out once: when all
//! earlier parts for its slot have ended (`MayPost` of `specs/Turn.antt`), or behind the last of them that is out (`IsFollower`).
#![tactic(auto)]

mod closing;
mod drained;
mod fault;
mod laws;
mod queue;
mod replies;
mod request_kind;
mod request_reader;
mod session;
mod texts;

pub use drained::Drained;
pub use fault::SessionFault;
pub use laws::{calls_keep, drains_output, stays_closed};
pub use request_kind::{RequestKind, kind_of};
pub use session::Session;
pub use texts::{goodbye, protocol_error};
