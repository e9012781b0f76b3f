//! The door in front of a session, where clients have to say a password.
//!
//! ```text
//! let left = door.take(&password, bytes)?;
//! door.sent(write(door.unsent()));
//! match door.state() {
//!     DoorState::Shut => {}                // the client has to say more
//!     DoorState::Open => session(left),
//!     DoorState::Over => close(),          // once all is sent
//! }
//! ```
//!
//! Promise: it opens exactly behind the first AUTH that says the password, of the requests that the bytes spell; until then each request
//! is answered by `specs/Answers.antt`, and none is seen by anybody else (`specs/AtDoor.antt`).
#![tactic(auto)]

mod answer;
mod door;
mod password;

pub use answer::Answer;
pub use door::{Door, DoorState};
pub use password::ClientPassword;
