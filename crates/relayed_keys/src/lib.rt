//! The keys of commands that a proxy does not know itself, and whose requests it could pass on whole to the node of their slot.
//!
//!     match relayed(&words) {
//!         Ok(Some(keys)) => send(keys.slot, &words),
//!         Ok(None) => write(unknown()),
//!         Err(fault) => write(relay_refusal(alloc, &fault)?),
//!     }
//!
//! Promise: the keys of a request are those that the table of commands names (`specs/Keys.antt`), all of one slot, and it is refused as
//! a Redis server refuses it (`specs/Texts.antt`). The table itself is compared with that of a server by tests/real.
#![tactic(auto)]

mod keys;
pub mod laws;
mod refusals;
mod table;

pub use keys::{KeyPlaces, RelayFault, RelayKeys, relayed};
pub use refusals::relay_refusal;
