//! Rows of turns: two proxies before three nodes in one thread, over clients in memory.
//!
//! Each begins as an engine or as a play. `engine` and `other` are engines: they are turned by lines, and each call over a connection to a
//! node in memory is answered at once. Their tables have the first node alone. `play` and `second` are plays of `turn_play`, over
//! connections of bytes: their turns are handed in, as are what nodes do, moves, breaks, and what comes of others. Their tables have
//! the three nodes, in their order. The nodes listen at the ports 7001 to 7003, and the last of them owns all slots at first.

mod client;
mod clients;
mod dial;
mod engine;
mod nodes;
mod orders;
mod others;
mod play;
mod port;
mod row;
mod stage;

pub use row::TurnRow;
