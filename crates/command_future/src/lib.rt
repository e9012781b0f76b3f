//! One command, from its first post to its end: posted where it wants, told what came of that, posted again after a refusal.
//!
//! ```
//! let mut command = Command::new(ticket, part);
//! if let Want::Post(_, named) = command.want() {
//!     command.posted(named.unwrap_or(seed));
//! }
//! let step = command.told(Told::TryAgain); // Step::Again
//! ```
//!
//! Promise: exact command life, in each call's clause `life` (`specs/Life.antt`), and of `OneCommand` for all that its
//! courier told (`Fulfils` of `specs/Carried.antt`).
#![tactic(auto)]

mod command;
mod courier;
pub mod laws;
mod one_command;
mod stage;

pub use command::{Command, Step};
pub use courier::{Courier, Posting};
pub use one_command::OneCommand;
pub use stage::Want;
