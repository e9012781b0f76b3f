//! Bytes that are few.

ghost use Rattle.std.specs.Prelude.{◌≡◌, ◌≤◌, IfSome};

use std::marker::Model;

/// The longest. More would make each value larger and each move dearer.
const MOST: usize = 16;

/// A few bytes, in the value itself. It is copied whole, where `arrayvec` copies one element after another.
#[derive(Drop)]
pub(crate) struct Short {
    bytes: [u8; MOST],
    len: usize,
}

impl Model for Short {
    ghost use Rattle.std.specs.Prelude.{List, ℕ, take, ◌≤◌};

    ghost Value = { List ℕ };

    ghost view = { λ a. take a.len a.bytes };

    ghost invariant = { λ a. a.len ≤ 16 };
}

impl Short {
    /// None where they are too many.
    pub(crate) fn new(bytes: &[u8]) -> Option<Short>
        ensures { IfSome result (λ short. short ≡ bytes.now) }
    {
        if bytes.len() > MOST {
            return None;
        }
        let mut short = [0; MOST];
        short[..bytes.len()].copy_from_slice(bytes);
        Some(Short {
            len: bytes.len(),
            bytes: short,
        })
    }

    pub(crate) fn copy(&self) -> Short
        ensures { result ≡ self.now }
    {
        Short {
            len: self.len,
            bytes: self.bytes,
        }
    }

    pub(crate) fn as_slice(&self) -> &[u8]
        ensures { result.now ≡ self.now }
    {
        &self.bytes[..self.len]
    }
}
