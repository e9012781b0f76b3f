//! A pipelined connection to a node: requests go out in order, and each value that comes back belongs to the
//! oldest request that has none yet.
//!
//! ```text
//! let mut link = Link::new(alloc, BlockPort::new(alloc, stream, Limits::full(), false), node);
//! link.send(&batch)?;
//! while let Some(Got::Ticket(ticket, told)) = link.receive(&mut table)? { tell(ticket, told); }
//! ```
//!
//! Exact links: `Sends` and `Receives` of specs/LinkCalls.antt, and `replies_match`. Exact port: `BlockExchanges` and `GoesAs` of
//! specs/Blocks.antt; when it writes and reads: `OffersFirst` and `OffersThenReads` of specs/Bytes.antt. What a line of a node says
//! is `told_by` of specs/Telling.antt, what the replies to a block tell is `IsToldByBlock` of specs/Runs.antt.
#![tactic(auto)]

mod block;
mod block_port;
mod block_told;
mod buffer;
mod dial;
mod fuse;
mod inbox;
mod laws;
mod link;
mod outbox;
mod piece;
mod pieces;
mod port;
mod redirect;
mod replies;
mod run_port;
mod spelling;
mod stream;
mod told;

pub use block::take_told;
pub use block_port::BlockPort;
pub use block_told::BlockTold;
pub use buffer::{drop_front, free_large};
pub use dial::{Dial, DialFault};
pub use fuse::Fuse;
pub use laws::replies_match;
pub use link::{Due, Failure, Got, Link, LinkFault};
pub use outbox::FLUSH_AFTER_READS;
pub use port::{NodePort, PortFault};
pub use redirect::{endpoint_in, number_within};
pub use run_port::RunPort;
pub use stream::{Flow, Stream};
pub use told::told_of;
