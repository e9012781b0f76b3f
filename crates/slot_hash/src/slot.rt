//! The hash slots of a cluster.

ghost use Rattle.std.specs.Prelude.{◌≡◌, ◌<◌, IsSome, IfSome, ◌↔◌};
ghost use Rattle.slot_hash.specs.Slot.{slot_of, tag_of, IsSlotNumber};

use crate::crc::crc16;
use crate::tag::tag_of;
use std::marker::Model;

/// How many hash slots a cluster has.
pub const SLOT_COUNT: u16 = 16384;

/// A hash slot, by its number.
#[derive(Clone, Copy, PartialEq, Eq, PartialOrd, Ord, Hash)]
pub struct Slot {
    number: u16,
}

impl Model for Slot {
    ghost use Rattle.std.specs.Prelude.{ℕ, ◌<◌};

    ghost Value = { ℕ };

    ghost view = { λ slot. slot.number };

    ghost invariant = { λ slot. slot.number < 16384 };

    ghost inverse = { λ number. record { number = number } };
}

impl Slot {
    /// The slot of that number, from 0.
    pub fn new(number: u16) -> Option<Self>
        ensures in_range { IsSome result ↔ (number < 16384) }
        ensures value { IfSome result (λ slot. slot ≡ number) }
    {
        if number < SLOT_COUNT {
            Some(Slot { number })
        } else {
            None
        }
    }

    /// The slot's number, from 0.
    pub fn number(self) -> u16
        ensures value { result ≡ self }
        ensures in_range { result < 16384 }
    {
        self.number
    }
}

/// The slot of a key, by its tag.
pub fn slot_of(key: &[u8]) -> Slot
    ensures value { result ≡ slot_of key.now }
    ensures remainder { IsSlotNumber (tag_of key.now) result }
{
    let number = crc16(tag_of(key)) % SLOT_COUNT;
    Slot { number }
}
