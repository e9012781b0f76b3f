//! What the turns of workers and carrier do is what the machine of `world_laws` does: laws alone.
//!
//! ```text
//! laws::carrier_refines::<C, J>();
//! ```
//!
//! A system is the workers, the carrier, the lanes between them, the connections and the nodes (`specs/System.antt`); its events are those
//! of the turns (`specs/Steps.antt`). Which world of the machine it stands for is said in `specs/Shadow.antt`. Steps that a system can make
//! stand in `specs/Scripts.antt`, those of a story in bytes in `specs/ByteStory.antt`. What is promised of its log stands in
//! `specs/LogHeadline.antt`; that what arrived is what clients sent, in `specs/Arrivals.antt`. Where other clients act beside it,
//! `specs/Sharing.antt` says their steps and `specs/SharedLog.antt` the promise; several proxies before one cluster stand in
//! `specs/Fleet.antt`. What these laws are made of is said in `parts`, of one step or one word each.
#![tactic(auto)]

pub mod laws;
pub mod parts;
mod wired_port;
mod wired_stream;

pub use wired_port::WiredPort;
pub use wired_stream::WiredStream;
