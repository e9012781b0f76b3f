//! Runs of scripts: clients, workers and a carrier in threads over a cluster in one process, judged by their report.
//!
//! ```text
//! let cluster = LocalCluster::new(alloc, three_nodes(alloc)?)?;
//! let (report, state) = run_local(rt, alloc, cluster, &scripts, &moves, 2, &gate)?;
//! let status = run_scripts(rt, &mut reader, &mut writer, 2);
//! ```
//!
//! Promise: lawful runs. Where `run_local` or `run_faulty` answers Ok, its report is lawful and one of these scripts, and its history is that
//! of the state that is handed back, which the cluster gave up (`RunOutcome` of `specs/Judged.antt`). `run_scripts` reads scripts as text
//! (`specs/Scripts.antt`) and writes what `WritesFor` of `specs/RunText.antt` says.
#![tactic(auto)]

mod client_id;
mod clients;
mod ends;
mod judge;
mod local_fault;
mod reader;
mod record;
mod replay;
mod run;
mod scripts;
mod wanted;

pub use local_fault::LocalFault;
pub use run::{run_faulty, run_local};
pub use scripts::{ScriptsFault, play_scripts, run_scripts};
