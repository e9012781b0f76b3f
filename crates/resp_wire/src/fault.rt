//! What a reader refuses.

use std::alloc::{AllocError, AllocFailed};
use thiserror::Error;

/// A growth was refused.
#[derive(Clone, Copy, Debug, Drop, Error)]
#[error("out of memory")]
pub struct NoMemory;

impl From<AllocError> for NoMemory {
    fn from(_: AllocError) -> Self {
        NoMemory
    }
}

impl<T: Drop> From<AllocFailed<T>> for NoMemory {
    fn from(_: AllocFailed<T>) -> Self {
        NoMemory
    }
}

/// Why a value cannot be read.
#[derive(Clone, Copy, Debug, Drop, Error)]
pub enum WireFault {
    #[error("out of memory")]
    NoMemory,
    #[error("a value begins with an unknown byte")]
    BadType,
    #[error("a number is malformed")]
    BadNumber,
    #[error("a line or a bulk string is too long")]
    TooLong,
    #[error("an array has too many items")]
    TooMany,
    #[error("arrays nest too deep")]
    TooDeep,
    #[error("a line or a bulk string does not end in CRLF")]
    BadEnd,
}
