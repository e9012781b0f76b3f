//! Why a play stopped.

use node_model::ServeFault;
use proxy_engine::EngineFault;
use resp_wire::NoMemory;
use std::alloc::AllocError;
use thiserror::Error;

/// Why a play stopped before its last order. What it did before stands.
#[derive(Clone, Copy, Debug, Drop, Error)]
pub enum PlayFault {
    #[error("out of memory")]
    NoMemory,
    #[error("a node was to say what it cannot")]
    NotServed,
    /// The worker's view of the slot map is not a front of what was published. It can't be.
    #[error("the slot map is out of order")]
    OutOfOrder,
    /// A node did commands whose reply is longer than any reader takes, as one of more than 512 MiB. The play ends.
    #[error("a reply is too long to be read")]
    TooLong,
}

impl From<NoMemory> for PlayFault {
    ghost use Rattle.std.specs.Prelude.{◌≡◌};
    ghost use Rattle.turn_play.specs.declared.fault.PlayFault.TheVariants as fault;

    ghost from_gives = { λ _ given. given ≡ fault.NoMemory };

    fn from(_: NoMemory) -> Self {
        PlayFault::NoMemory
    }
}

impl From<AllocError> for PlayFault {
    ghost use Rattle.std.specs.Prelude.{◌≡◌};
    ghost use Rattle.turn_play.specs.declared.fault.PlayFault.TheVariants as fault;

    ghost from_gives = { λ _ given. given ≡ fault.NoMemory };

    fn from(_: AllocError) -> Self {
        PlayFault::NoMemory
    }
}

impl From<EngineFault> for PlayFault {
    ghost use Rattle.std.specs.Prelude.{◌≡◌};
    ghost use Rattle.turn_play.specs.Faults.{of_turn};

    ghost from_gives = { λ fault given. given ≡ of_turn fault };

    fn from(fault: EngineFault) -> Self {
        match fault {
            EngineFault::NoMemory => PlayFault::NoMemory,
            EngineFault::OutOfOrder => PlayFault::OutOfOrder,
        }
    }
}

impl From<ServeFault> for PlayFault {
    ghost use Rattle.std.specs.Prelude.{◌≡◌};
    ghost use Rattle.turn_play.specs.Faults.{of_serve};

    ghost from_gives = { λ fault given. given ≡ of_serve fault };

    fn from(fault: ServeFault) -> Self {
        match fault {
            ServeFault::NoMemory => PlayFault::NoMemory,
            ServeFault::NoSuchNode => PlayFault::NotServed,
            ServeFault::NotThisVerdict => PlayFault::NotServed,
        }
    }
}
