//! Runs of scripts: clients' requests and slots that move, read from an input; the replies and the audit as text.

mod fault;
mod line;
mod outcome;
mod reading;
mod run;
mod text;

pub use fault::ScriptsFault;
pub use run::{play_scripts, run_scripts};
