//! Values of the Redis protocol, version 2 (RESP2): read from bytes that come in pieces, and written canonically.
//!
//!     let mut reader = Reader::new(alloc, Limits::full());
//!     reader.feed(piece)?;
//!     if let Some(value) = reader.next()? {
//!         write_value(&mut out, &value)?;
//!     }
//!
//! A value is given exactly where a spelling of it stands at the front (`specs/Spelling.antt`), a fault exactly where it
//! is the first (`specs/Faults.antt`), however the bytes are cut; what is written is `specs/Canonical.antt`.
#![tactic(auto)]

mod bodies;
mod build;
mod byte_queue;
mod bytes;
mod counts;
mod fault;
mod head;
pub mod laws;
mod limits;
mod line;
mod number;
mod part;
mod place;
mod reader;
mod room;
mod scan;
mod short;
mod skip;
mod text;
mod unread;
mod value;
mod words;
mod write;

pub use byte_queue::ByteQueue;
pub use bytes::Bytes;
pub use fault::{NoMemory, WireFault};
pub use limits::Limits;
pub use reader::Reader;
pub use skip::Skipped;
pub use text::{Line, is_one_line};
pub use value::{Value, Values};
pub use words::Words;
pub use write::{write_bulk_head, write_value};
