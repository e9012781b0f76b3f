//! Hash tags and hash slots: which of a Redis Cluster's 16,384 slots a key belongs to.
//!
//!     let slot = slot_of(b"{user1000}.following");
//!     assert_eq!(rt; slot, slot_of(b"user1000"));
//!     assert_eq!(rt; slot.number(), 3443);
//!
//! Promise: exact slots. `tag_of` and `slot_of` equal the definitions of `specs/Slot.antt`, which are those of the Redis
//! Cluster specification; the checksum in them is a remainder of polynomials (`specs/Polynomial.antt`), of which there is
//! exactly one (`specs/Division.antt`). Nothing here takes memory.
#![tactic(auto)]

mod crc;
mod slot;
mod tag;

pub use slot::{SLOT_COUNT, Slot, slot_of};
pub use tag::tag_of;
