//! Why a call is not made.

use resp_wire::NoMemory;
use std::alloc::{AllocError, AllocFailed};

/// Why a call is not made. But for NoMemory the line is wrong: it says no call that can be made.
#[derive(Clone, Copy, Debug, Drop)]
pub enum CallFault {
    NoMemory,
    /// A quote is not closed, or behind a backslash stands what may not stand there.
    BadQuote,
    NoSuchObject,
    NoSuchCall,
    MissingWord,
    FurtherWord,
    /// A word is none of those that may stand at its place.
    UnknownWord,
    BadNumber,
    BadTicket,
    /// The bytes are not one whole value.
    BadValue,
    /// The words are no command that has a part.
    NoPart,
    /// The object was not made yet.
    NotMade,
    /// The call may not be made of the object as it is now.
    NotNow,
}

impl From<NoMemory> for CallFault {
    fn from(_: NoMemory) -> Self {
        CallFault::NoMemory
    }
}

impl From<AllocError> for CallFault {
    fn from(_: AllocError) -> Self {
        CallFault::NoMemory
    }
}

impl<T: Drop> From<AllocFailed<T>> for CallFault {
    fn from(_: AllocFailed<T>) -> Self {
        CallFault::NoMemory
    }
}
