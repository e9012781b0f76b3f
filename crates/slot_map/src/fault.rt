//! What the table and the reading of CLUSTER SLOTS refuse.

use resp_wire::NoMemory;
use std::alloc::AllocFailed;
use thiserror::Error;

/// Why a node or a reply to CLUSTER SLOTS is refused. The table is then as it was.
#[derive(Clone, Copy, Debug, Drop, Error)]
pub enum MapFault {
    #[error("out of memory")]
    NoMemory,
    /// The reply is no array of entries, each with two integers and an array that begins with a host and a port.
    #[error("the reply does not list slots")]
    NotSlots,
    /// A slot is not below 16384, a range's start is past its end, or a port is not from 1 to 65535.
    #[error("a slot or a port is out of range")]
    BadRange,
    /// The node is new, and the table is full.
    #[error("a cluster has at most 64 nodes")]
    TooManyNodes,
}

impl<T: Drop> From<AllocFailed<T>> for MapFault {
    ghost use Rattle.std.specs.Prelude.{◌≡◌};
    ghost use Rattle.slot_map.specs.declared.fault.MapFault.TheVariants as fault;

    ghost from_gives = { λ _ given. given ≡ fault.NoMemory };

    fn from(_: AllocFailed<T>) -> Self {
        MapFault::NoMemory
    }
}

impl From<NoMemory> for MapFault {
    ghost use Rattle.std.specs.Prelude.{◌≡◌};
    ghost use Rattle.slot_map.specs.declared.fault.MapFault.TheVariants as fault;

    ghost from_gives = { λ _ given. given ≡ fault.NoMemory };

    fn from(_: NoMemory) -> Self {
        MapFault::NoMemory
    }
}
