//! The commands of a Redis client: what its words ask for, the parts that travel to nodes, and the reply that joins their ends.
//!
//!     match plan(alloc, &words) {
//!         Ok(Planned::Local(reply)) => write(reply),
//!         Ok(Planned::Parts(joining, parts)) => write(join(alloc, &joining, &ends_of(parts))?),
//!         Ok(Planned::Close) => close(),
//!         Err(fault) => write(refusal(alloc, &fault)?),
//!     }
//!
//! Promise: exact planning and joining. The command table is `specs/Plan.antt` over `specs/Names.antt`, keys of one slot are grouped
//! by `specs/Groups.antt`, ends are joined by `specs/Join.antt`; texts and words are `specs/Texts.antt`, `specs/Words.antt`,
//! `specs/Told.antt`. What holds of every plan are the laws of `specs/Laws.antt`.
#![tactic(auto)]

mod groups;
mod joins;
pub mod laws;
mod lines;
mod name;
mod number;
mod part;
mod planned;
mod planner;
mod refusals;
mod run;
mod tellings;
mod travel;
mod words;

pub use joins::join;
pub use lines::{error_line, into_error, simple_line};
pub use name::{Name, same_letters};
pub use number::{read_number, write_number};
pub use part::{Mode, Op, Pair, Part, Parts};
pub use planned::{Joining, Places, PlanFault, Planned};
pub use planner::{one_key_op, plan};
pub use refusals::refusal;
pub use run::Run;
pub use tellings::told_value;
pub use travel::{Batch, Ended, Ticket, Told};
pub use words::{op_name, words_of};
