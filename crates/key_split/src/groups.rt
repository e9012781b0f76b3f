//! The groups that the keys of a request make: those of one slot together.

ghost use Rattle.std.specs.Prelude.{◌≡◌, All, IsTrue, IfOk};
ghost use Rattle.slot_hash.specs.Slot.{slot_of};
ghost use Rattle.key_split.specs.PartModel.{takes_group, IsValueFor};
ghost use Rattle.key_split.specs.Groups.{alone, group_numbers, pairs_of, parts_of};

use crate::part::{Op, Pair, Part, Parts};
use crate::planned::Places;
use resp_wire::{Bytes, NoMemory};
use slot_hash::slot_of;
use std::alloc::Global;
use std::collections::BTreeMap;

/// Keys that have no value.
pub fn alone(alloc: Global, keys: &[Bytes]) -> Result<Vec<Pair>, NoMemory>
    ensures { IfOk result (λ pairs. pairs.items ≡ alone keys.now) }
{
    let mut pairs = Vec::with_capacity(alloc, keys.len())?;
    for key in keys {
        pairs.push((key.copy(alloc)?, Bytes::new(Vec::new(alloc))))?;
    }
    Ok(pairs)
}

/// Each key with the value behind it.
pub fn pairs_of(alloc: Global, words: &[Bytes]) -> Result<Vec<Pair>, NoMemory>
    ensures { IfOk result (λ pairs. pairs.items ≡ pairs_of words.now) }
{
    let mut pairs = Vec::new(alloc);
    let mut rest = words;
    while let [key, value, further @ ..] = rest {
        pairs.push((key.copy(alloc)?, value.copy(alloc)?))?;
        rest = further;
    }
    Ok(pairs)
}

/// The operation on the keys: a part for each slot, and for each key the number of its part.
/// A key costs one look-up among the slots seen so far; keys and values are moved.
pub fn grouped(alloc: Global, op: Op, pairs: Vec<Pair>) -> Result<(Parts, Places), NoMemory>
    requires group { IsTrue (takes_group op) }
    requires values { All (λ pair. IsValueFor op pair.1) pairs.items }
    ensures parts { IfOk result (λ made. made.0 ≡ parts_of op pairs.items) }
    ensures places { IfOk result (λ made. made.1 ≡ group_numbers pairs.items) }
{
    let mut parts: Vec<Part> = Vec::new(alloc);
    let mut places: Vec<u32> = Vec::with_capacity(alloc, pairs.len())?;
    let mut numbers: BTreeMap<u16, u32> = BTreeMap::new(alloc);
    for (key, value) in pairs {
        let slot = slot_number(&key);
        let number = match numbers.get(&slot) {
            Some(number) => {
                parts[*number as usize].push(key, value)?;
                *number
            }
            None => {
                let number = parts.len() as u32;
                numbers.insert(slot, number)?;
                parts.push(Part::new(alloc, op, key, value))?;
                number
            }
        };
        places.push(number)?;
    }
    Ok((Parts::new(parts), Places::new(places)))
}

/// The number of a key's slot.
fn slot_number(key: &Bytes) -> u16
    ensures { result ≡ slot_of key.now }
{
    slot_of(key.as_slice()).number()
}
