//! The notation of rows: the words of a line, what they name, and how a call answers.
//!
//!     let mut rows = Rows::new(alloc, input, output);
//!     while rows.answer_row(new_objects())? {}
//!
//! and in the `impl Object`
//!
//!     match line.object() {
//!         "key" => show_slot(line),
//!         ..
//!         _ => line.refuse(CallFault::NoSuchObject),
//!     }
//!
//! where
//!
//!     if let Some(key) = line.read::<Bytes>() {
//!         line.show(slot_of(key.as_slice()));
//!     }
//!
//! Words stand between spaces. A word in quotes has any bytes, some of them as \r \n \\ \" \xHH. The bytes of the
//! protocol are such a word; a ticket is WORKER.CLIENT.PART; a batch is `TICKET NODE plain|asking WORDS..`; what a command
//! is told is `reply BYTES`, `moved SLOT NODE`, `ask SLOT NODE`, `tryagain`, `clusterdown`, `unclear`, `lost` or `unsent`,
//! and an end is `answered BYTES`, `gaveup` or `lost`. Answers are words of the same kinds, and a value in them is
//! `simple TEXT`, `error TEXT`, `integer NUMBER`, `bulk BYTES`, `null`, `nullarray` or `array [ VALUE.. ]`. An answer for
//! which there is no memory is `? NotShown`.

mod answer;
mod fault;
mod line;
mod rows;
mod shown;
mod travel;
mod word;
mod words;

pub use answer::Answer;
pub use fault::CallFault;
pub use line::Line;
pub use rows::{Object, Rows};
pub use shown::Shown;
pub use word::Word;
