//! What clients of Redis ask when they connect, and what they are answered without a node.
//!
//!     if let Some(greeting) = greeting_of(&words) {
//!         write(reply_to(alloc, greeting, &client)?);
//!         if let Some(place) = greeting.name_at() { .. }    // the word there is the client's name from now on
//!     }
//!
//! Promise: which requests greet, and the reply to each, are those of `specs/Greetings.antt`.
#![tactic(auto)]

mod greeting;
mod reply;

pub use greeting::{Greeting, greeting_of};
pub use reply::{Greeter, reply_to};
