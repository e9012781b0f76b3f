//! When an event was.

use jiff::Timestamp;
use std::alloc::{AllocError, Global};
use std::time::Clock;

/// The time now in UTC, with milliseconds, as `2026-01-31T12:00:00.000Z`. Empty where the clock can't be read.
pub fn utc_text<R: Clock>(rt: &R, alloc: Global) -> Result<String, AllocError> {
    match Timestamp::now(rt) {
        Ok(now) => format!(in alloc; "{now:.3}"),
        Err(_) => Ok(String::new(alloc)),
    }
}
