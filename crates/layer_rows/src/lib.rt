//! Rows of the layers: each line names an object of a layer, a call of it and its arguments, in the notation of rows, and is
//! answered by one line. One object of each kind is held at a time; `reset` drops them all. A line that says no call that can
//! be made is answered `?` and why.
//!
//! What is turned stands above: it has objects of its own, and answers a row over these (`AnswersRow`).
#![tactic(auto)]

mod commands;
mod courier;
mod held;
mod lanes;
mod links;
mod local;
mod maps;
mod nodes;
mod notation;
mod objects;
mod plans;
mod round;
mod row;
mod runs;
mod sessions;
mod slots;
mod stores;
mod stream;
mod wire;

pub use held::{Held, is_done, keep, put, put_read};
pub use maps::written;
pub use notation::{Answer, CallFault, Line, Object, Rows, Shown, Word};
pub use row::{AnswersRow, RowHost, answer_rows};
