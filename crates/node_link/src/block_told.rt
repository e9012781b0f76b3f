//! What the replies to a block tell its commands, until it was given to them.

ghost use Rattle.std.specs.Prelude.{replicate};
ghost use Rattle.node_link.specs.Runs.{GivesNext, told_values};

use resp_wire::{NoMemory, Value};
use std::alloc::Global;

/// What the replies to a block tell its commands, as far as it was not given yet.
#[derive(Drop)]
pub enum BlockTold {
    /// Each command its own value, the last first.
    Each(Vec<Value>),
    /// This number of commands the same value.
    Same(Value, usize),
}

impl BlockTold {
    /// Takes what the next command is told.
    pub fn next(&mut self, alloc: Global) -> Result<Option<Value>, NoMemory>
        ensures { GivesNext (told_values self.old) result (told_values self.new) }
    {
        match self {
            BlockTold::Each(values) => Ok(values.pop()),
            BlockTold::Same(value, count) => next_copy(alloc, value, count),
        }
    }
}

// One of `count` copies of a value.
fn next_copy(alloc: Global, value: &Value, count: &mut usize) -> Result<Option<Value>, NoMemory>
    ensures { GivesNext (replicate count.old value.now) result (replicate count.new value.now) }
{
    if *count == 0 {
        return Ok(None);
    }
    let copy = value.copy(alloc)?;
    *count -= 1;
    Ok(Some(copy))
}
