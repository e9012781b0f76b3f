//! The engine that `serve` turns and the nodes of a cluster in one thread, whose turns come in an order that is handed in. Others act at
//! the nodes too.
//!
//! ```text
//! let mut play = Play::new(alloc, rt, opened, &gate, None, seeds, nodes)?;
//! play.hand(client);
//! play.play(&mut cluster, &[Order::Turn, Order::Serve(node, Verdict::Plain), Order::Turn])?;
//! ```
//!
//! Between the two go bytes, over the ports that `serve` has: a node reads requests off the bytes that came, as many as a call moves,
//! and writes the bytes of its replies (`specs/Stream.antt`). The cluster is handed to each call, so several plays can have one, and
//! others can act at it between two calls.
//!
//! Promise: each order does what `Obeys` of `specs/Obeying.antt` says of it, and the headline holds of the turns that ran: what
//! `Play::play` did is a list of steps of a system and of others (`PlaysSoundlyBeside` of `specs/Playing.antt`); behind the steps
//! before, from a start that hears its nodes, which `Play::new` gives, where the premises of `specs/May.antt` and `specs/Beside.antt`
//! hold along all of them, it is a run of the machine beside others. Of the lanes and the slot map no premise is left: an engine's turn is
//! steps of a system in which they are in order (`EnginesPlay` of `specs/Turns.antt`). Where nobody else acts it is one of the machine
//! alone (`PlaysSoundly`). It is said order by order too, so that one call goes on from what another left (`PlaysOn` of
//! `specs/Deeds.antt`), and of several plays before one cluster (`specs/Fleets.antt`).
#![tactic(auto)]

mod answering;
mod block;
mod connection;
mod dial;
mod fault;
mod first_words;
mod hearing;
pub mod laws;
mod moves;
mod order;
mod others;
mod plain_part;
mod play;
mod port;
mod readable;
mod serving;
mod stream;

pub use dial::PlayDial;
pub use fault::PlayFault;
pub use moves::Move;
pub use order::Order;
pub use play::Play;
pub use port::PlayPort;
pub use stream::PlayStream;
