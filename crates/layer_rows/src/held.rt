//! Places whose values change.

use crate::notation::{CallFault, Line, Object, Word};
use std::fmt::Debug;

/// A value that a call makes, or none as yet.
#[derive(Drop)]
pub struct Held<T> {
    /// The value.
    pub value: Option<T>,
}

impl<T> Held<T> {
    /// None as yet.
    pub fn none() -> Held<T> {
        Held { value: None }
    }
}

impl<T: Drop> Held<T> {
    /// Holds this value.
    pub fn put(&mut self, value: T) {
        self.value = Some(value);
    }

    /// Holds what was made, or answers the fault for which it was not.
    pub fn hold<F: Debug + Drop>(&mut self, made: Result<T, F>, line: &mut Line) {
        match made {
            Ok(value) => {
                self.put(value);
                line.done();
            }
            Err(fault) => line.answer.debug(&fault),
        }
    }
}

impl<T: Object> Held<T> {
    /// A call of the value.
    pub fn call(&mut self, line: &mut Line) {
        match &mut self.value {
            Some(value) => value.call(line),
            None => line.refuse(CallFault::NotMade),
        }
    }
}

/// Puts a value in the place of another, and answers `ok`. The type is a parameter, since a value of such a type is dropped by
/// one call.
pub fn put<T: Drop>(place: &mut T, value: T, line: &mut Line) {
    *place = value;
    line.done();
}

/// Puts what the line says in the place of another value, and answers `ok`.
pub fn put_read<T: Word + Drop>(place: &mut T, line: &mut Line) {
    if let Some(read) = line.read::<T>() {
        put(place, read, line);
    }
}

/// Whether it was done. What came of it goes here, behind type parameters, since each is then dropped by one call.
pub fn is_done<T: Drop, E: Drop>(outcome: Result<T, E>) -> bool {
    outcome.is_ok()
}

/// Keeps one more.
pub fn keep<T: Drop>(kept: &mut Vec<T>, value: T, line: &mut Line) {
    line.show_made(kept.push(value));
}
