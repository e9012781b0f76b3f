//! Why an event is refused.

use node_model::{MoveFault, ServeFault};
use resp_wire::NoMemory;
use std::alloc::{AllocError, AllocFailed};
use thiserror::Error;

/// Why an event did not happen. The world is as before it.
#[derive(Clone, Copy, Debug, Drop, Error)]
pub enum WorldFault {
    #[error("out of memory")]
    NoMemory,
    /// The event is not allowed in this world.
    #[error("not now")]
    NotNow,
}

/// Which of the events was refused, and why. Those before it happened.
#[derive(Clone, Copy, Debug, Drop, Error)]
#[error("event {number}: {why}")]
pub struct RunFault {
    /// From 1.
    pub number: u64,
    pub why: WorldFault,
}

impl From<NoMemory> for WorldFault {
    ghost use Rattle.std.specs.Prelude.{◌≡◌};
    ghost use Rattle.cluster_world.specs.declared.fault.WorldFault.TheVariants as fault;

    ghost from_gives = { λ _ given. given ≡ fault.NoMemory };

    fn from(_: NoMemory) -> Self {
        WorldFault::NoMemory
    }
}

impl From<AllocError> for WorldFault {
    ghost use Rattle.std.specs.Prelude.{◌≡◌};
    ghost use Rattle.cluster_world.specs.declared.fault.WorldFault.TheVariants as fault;

    ghost from_gives = { λ _ given. given ≡ fault.NoMemory };

    fn from(_: AllocError) -> Self {
        WorldFault::NoMemory
    }
}

impl<T: Drop> From<AllocFailed<T>> for WorldFault {
    ghost use Rattle.std.specs.Prelude.{◌≡◌};
    ghost use Rattle.cluster_world.specs.declared.fault.WorldFault.TheVariants as fault;

    ghost from_gives = { λ _ given. given ≡ fault.NoMemory };

    fn from(_: AllocFailed<T>) -> Self {
        WorldFault::NoMemory
    }
}

impl From<MoveFault> for WorldFault {
    ghost use Rattle.std.specs.Prelude.{◌≡◌};
    ghost use Rattle.cluster_world.specs.Fault.{of_move};

    ghost from_gives = { λ fault given. given ≡ of_move fault };

    fn from(fault: MoveFault) -> Self {
        match fault {
            MoveFault::NoMemory => WorldFault::NoMemory,
            MoveFault::NotNow => WorldFault::NotNow,
        }
    }
}

impl From<ServeFault> for WorldFault {
    ghost use Rattle.std.specs.Prelude.{◌≡◌};
    ghost use Rattle.cluster_world.specs.Fault.{of_serve};

    ghost from_gives = { λ fault given. given ≡ of_serve fault };

    fn from(fault: ServeFault) -> Self {
        match fault {
            ServeFault::NoMemory => WorldFault::NoMemory,
            ServeFault::NoSuchNode | ServeFault::NotThisVerdict => WorldFault::NotNow,
        }
    }
}
