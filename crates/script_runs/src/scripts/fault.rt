//! Why scripts are not read, and why a run of them says nothing.

use resp_wire::NoMemory;
use std::alloc::AllocFailed;
use thiserror::Error;

/// Why scripts are not read.
#[derive(Clone, Copy)]
pub(crate) enum ReadFault {
    NoMemory,
    /// The lowest line that does not fit, from 1.
    BadLine(u64),
}

impl From<NoMemory> for ReadFault {
    ghost use Rattle.std.specs.Prelude.{◌≡◌};
    ghost use Rattle.script_runs.specs.declared.scripts.fault.ReadFault.TheVariants as fault;

    ghost from_gives = { λ _ given. given ≡ fault.NoMemory };

    fn from(_: NoMemory) -> Self {
        ReadFault::NoMemory
    }
}

impl<T: Drop> From<AllocFailed<T>> for ReadFault {
    ghost use Rattle.std.specs.Prelude.{◌≡◌};
    ghost use Rattle.script_runs.specs.declared.scripts.fault.ReadFault.TheVariants as fault;

    ghost from_gives = { λ _ given. given ≡ fault.NoMemory };

    fn from(_: AllocFailed<T>) -> Self {
        ReadFault::NoMemory
    }
}

/// Why a run of scripts says nothing.
#[derive(Clone, Copy, Debug, Drop, Error)]
pub enum ScriptsFault {
    /// A growth was refused before, in or after the run.
    #[error("no memory")]
    NoMemory,
    /// A thread, or what it runs on, did not start.
    #[error("a thread can't be started")]
    NoThread,
    /// A write failed; how much went out is not known.
    #[error("the text can't be written")]
    WriteFailed,
}

impl From<NoMemory> for ScriptsFault {
    fn from(_: NoMemory) -> Self {
        ScriptsFault::NoMemory
    }
}
