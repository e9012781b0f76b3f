//! Plans, and why a request has none.

ghost use Rattle.std.specs.Prelude.{◌≡◌};

use crate::name::Name;
use crate::part::Parts;
use resp_wire::Value;
use std::marker::Model;
use thiserror::Error;

/// For each item of a reply the number of the part whose next item it is.
#[derive(Drop)]
pub struct Places {
    numbers: Vec<u32>,
}

impl Model for Places {
    ghost use Rattle.std.specs.Prelude.{List, ℕ};

    ghost Value = { List ℕ };

    ghost view = { λ places. places.numbers.items };
}

impl Places {
    pub fn new(numbers: Vec<u32>) -> Places
        ensures { result ≡ numbers.items }
    {
        Places { numbers }
    }

    pub fn as_slice(&self) -> &[u32]
        ensures { result.now ≡ self.now }
    {
        self.numbers.as_slice()
    }
}

/// How the replies of the parts become one.
#[derive(Drop)]
pub enum Joining {
    /// The one part's reply.
    One,
    /// An array: each item is the next one of the array at its place.
    Array(Places),
    /// `OK`, where all are.
    AllOk,
    /// The sum of the integers.
    Sum,
}

/// What is to be done for a request.
#[derive(Drop)]
pub enum Planned {
    /// The reply is known without a node.
    Local(Value),
    Parts(Joining, Parts),
    /// QUIT: answered `OK`, then the client is closed.
    Close,
}

/// Why a request is not planned. The faults other than NoMemory are found in this order, and
/// before any memory is asked for.
#[derive(Clone, Copy, Debug, Error)]
pub enum PlanFault {
    #[error("a growth was refused")]
    NoMemory,
    #[error("unknown command")]
    UnknownCommand,
    /// The command does not take this number of words.
    #[error("wrong number of arguments for {0:?}")]
    WrongCount(Name),
    /// SET has an option other than NX and XX, or both kinds.
    #[error("syntax error")]
    Syntax,
    /// The amount of INCRBY is not an integer in the range of i64.
    #[error("value is not an integer or out of range")]
    NotANumber,
}

impl From<resp_wire::NoMemory> for PlanFault {
    ghost use Rattle.std.specs.Prelude.{◌≡◌};
    ghost use Rattle.key_split.specs.declared.planned.PlanFault.TheVariants.{NoMemory};

    ghost from_gives = { λ _ fault. fault ≡ NoMemory };

    fn from(_: resp_wire::NoMemory) -> Self {
        PlanFault::NoMemory
    }
}
