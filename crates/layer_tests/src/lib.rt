//! Tests over several layers.
//!
//! The rows of tests/rows, and tests that start threads: what can't be seen from outside of the program, and what no line of a
//! row can ask for. Of lanes and the published map, that all comes in order between threads, and what is left in a lane that
//! was finished. Of runs of scripts, over a cluster in one process, that two workers run side by side, that no step of a move
//! is skipped that can be made, and that the state that is handed back shows the moves. Of runs over sockets for a number of
//! clients, that they end.
#![tactic(auto)]

#[cfg(test)]
mod gates;
#[cfg(test)]
mod lanes;
#[cfg(test)]
mod local_runs;
#[cfg(test)]
mod maps;
#[cfg(test)]
mod numbered;
#[cfg(test)]
mod report;
#[cfg(test)]
mod rows;
#[cfg(test)]
mod runs;
#[cfg(test)]
mod socket_runs;
mod tables;
#[cfg(test)]
mod turns;
#[cfg(test)]
mod way;
#[cfg(test)]
mod world;
