//! Why a script is not read.

use resp_wire::NoMemory;
use std::alloc::AllocFailed;

/// Why a script is not read.
#[derive(Clone, Copy, Drop)]
pub enum ScriptFault {
    NoMemory,
    /// The lowest line that is bad, from 1.
    BadLine(u64),
}

impl From<NoMemory> for ScriptFault {
    ghost use Rattle.std.specs.Prelude.{◌≡◌};
    ghost use Rattle.cluster_world.specs.declared.script_fault.ScriptFault.TheVariants as script;

    ghost from_gives = { λ _ given. given ≡ script.NoMemory };

    fn from(_: NoMemory) -> Self {
        ScriptFault::NoMemory
    }
}

impl<T: Drop> From<AllocFailed<T>> for ScriptFault {
    ghost use Rattle.std.specs.Prelude.{◌≡◌};
    ghost use Rattle.cluster_world.specs.declared.script_fault.ScriptFault.TheVariants as script;

    ghost from_gives = { λ _ given. given ≡ script.NoMemory };

    fn from(_: AllocFailed<T>) -> Self {
        ScriptFault::NoMemory
    }
}
