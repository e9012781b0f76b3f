//! What a turn came to.

use resp_wire::NoMemory;
use thiserror::Error;

/// What a turn came to.
#[derive(Clone, Copy)]
pub struct Turned {
    /// Something moved, or is left to do.
    pub moved: bool,
    /// When the first of the commands that wait is to be posted again, by the gate's time.
    pub next_due: Option<u64>,
    /// All clients that were to come came, and none is left.
    pub served: bool,
}

/// Why a turn did not come to its end.
#[derive(Clone, Copy, Debug, Drop, Error)]
pub enum EngineFault {
    #[error("out of memory")]
    NoMemory,
    /// The worker's view of the slot map is not a front of what was published. It can't be.
    #[error("the slot map is out of order")]
    OutOfOrder,
}

impl From<NoMemory> for EngineFault {
    ghost use Rattle.std.specs.Prelude.{◌≡◌};
    ghost use Rattle.proxy_engine.specs.declared.turned.EngineFault.TheVariants as fault;

    ghost from_gives = { λ _ given. given ≡ fault.NoMemory };

    fn from(_: NoMemory) -> Self {
        EngineFault::NoMemory
    }
}
