//! Why a run in one process gives no lawful report.

use cluster_world::RunReport;
use resp_wire::NoMemory;
use std::fmt;
use thiserror::Error;

/// Why a run gives no lawful report.
#[derive(Drop, Error)]
pub enum LocalFault {
    /// A growth was refused; all threads were ended.
    #[error("no memory")]
    NoMemory,
    /// A thread, or what it runs on, did not start.
    #[error("a thread can't be started")]
    NoThread,
    /// What the threads handed back is no lawful run of the scripts.
    #[error("the report of the run is not lawful")]
    Audit(RunReport),
}

impl fmt::Debug for LocalFault {
    fn fmt<W: fmt::Write>(&self, f: &mut fmt::Formatter<W>) -> fmt::Result {
        match self {
            LocalFault::NoMemory => f.write_str("NoMemory"),
            LocalFault::NoThread => f.write_str("NoThread"),
            LocalFault::Audit(_) => f.write_str("Audit(..)"),
        }
    }
}

impl From<NoMemory> for LocalFault {
    ghost use Rattle.std.specs.Prelude.{◌≡◌};
    ghost use Rattle.script_runs.specs.declared.local_fault.LocalFault.TheVariants as fault;

    ghost from_gives = { λ _ given. given ≡ fault.NoMemory };

    fn from(_: NoMemory) -> Self {
        LocalFault::NoMemory
    }
}
