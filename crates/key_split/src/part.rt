//! An operation on keys of one slot.

ghost use Rattle.std.specs.Prelude.{◌≡◌, ◌⊎◌, ◌↔◌, ◌<◌, All, IsTrue, IfOk, OnOk, OnErr, [], ◌∷◌, ◌++◌, length, slice_set, ℤ};
ghost use Rattle.slot_hash.specs.Slot.{slot_of};
ghost use Rattle.key_split.specs.PartModel.{puts_value, takes_group, takes_value, value_for, HasFitKeys, HasOneSlot, IsValueFor};
ghost use Rattle.key_split.specs.Plan.{word_at};
ghost use Rattle.key_split.specs.Laws.{IsPlain};
ghost use Rattle.key_split.specs.Number.{in_range};
ghost use Rattle.key_split.specs.OneKey.{HasArgs, one_at};
ghost use Rattle.key_split.specs.Same.{same_part};

use resp_wire::{Bytes, NoMemory};
use slot_hash::Slot;
use std::alloc::Global;
use std::marker::Model;
use std::mem;

/// When SET writes.
#[derive(Clone, Copy, PartialEq, Eq)]
pub enum Mode {
    Always,
    /// NX
    IfAbsent,
    /// XX
    IfPresent,
}

/// What is done at the keys of a part, by the Redis command of that name.
#[derive(Clone, Copy, PartialEq, Eq)]
pub enum Op {
    Get,
    Set(Mode),
    SetNx,
    GetSet,
    GetDel,
    Append,
    StrLen,
    Incr,
    Decr,
    IncrBy(i64),
    Del,
    Exists,
    MGet,
    MSet,
}

impl Op {
    /// Whether the operation may have more than one key.
    pub fn takes_group(self) -> bool
        ensures { result ≡ takes_group self }
    {
        matches!(self, Op::Del | Op::Exists | Op::MGet | Op::MSet)
    }

    /// Whether it is an operation on one key that takes a value.
    pub fn takes_value(self) -> bool
        ensures { result ≡ takes_value self }
    {
        matches!(self, Op::Set(_) | Op::SetNx | Op::GetSet | Op::Append)
    }

    /// INCRBY's number is that of an `i64`.
    fn number_is_in_range(self)
        ensures { (number : ℤ) → self ≡ Op.IncrBy number → IsTrue (in_range number) }
    {}

    /// Whether it puts a value behind each key.
    fn puts_value(self) -> bool
        ensures { result ≡ puts_value self }
    {
        matches!(
            self,
            Op::Set(_) | Op::SetNx | Op::GetSet | Op::Append | Op::MSet
        )
    }
}

/// A key with its value, empty where it has none.
pub type Pair = (Bytes, Bytes);

/// An operation with its keys, all of one slot, and their values where it has them. Further keys are there only where the operation
/// takes a group.
pub struct Part {
    op: Op,
    key: Bytes,
    arg: Bytes,
    rest: Vec<Pair>,
    slot: Slot,
}

// By hand, so that the crates above prove one call.
impl Drop for Part {
    fn drop(self) {
        let Part {
            op: _,
            key,
            arg,
            rest,
            slot: _,
        } = self;
        drop(key);
        drop(arg);
        drop(rest);
    }
}

impl Model for Part {
    ghost use Rattle.key_split.specs.PartModel.{PartModel};

    ghost Value = { PartModel };

    ghost view = { λ part. record { op = part.op; key = part.key; arg = part.arg; rest = part.rest.items } };

    ghost use Rattle.std.specs.Prelude.{◌≡◌, ◌⊎◌, All, IsTrue, []};
    ghost use Rattle.slot_hash.specs.Slot.{slot_of};
    ghost use Rattle.key_split.specs.PartModel.{takes_group, IsValueFor};

    ghost invariant = { λ part.
        (part.slot ≡ slot_of part.key)
        × All (λ pair. slot_of pair.0 ≡ slot_of part.key) part.rest.items
        × (IsTrue (takes_group part.op) ⊎ (part.rest.items ≡ []))
        × IsValueFor part.op part.arg
        × All (λ pair. IsValueFor part.op pair.1) part.rest.items };
}

impl Part {
    /// The operation on one key; `arg` is its value, which is let go where the operation puts none. Takes no memory: `alloc` is for
    /// further keys.
    pub fn new(alloc: Global, op: Op, key: Bytes, arg: Bytes) -> Part
        ensures { result ≡ record { op = op; key = key; arg = value_for op arg; rest = [] } }
    {
        let slot = slot_hash::slot_of(key.as_slice());
        Part {
            op,
            key,
            arg: value_for(alloc, op, arg),
            rest: Vec::new(alloc),
            slot,
        }
    }

    /// The operation on the first argument, with the second as its value where it takes one. They are moved out of the arguments,
    /// so it takes no memory.
    pub fn taken(alloc: Global, op: Op, args: &mut [Bytes]) -> Part
        requires { HasArgs op args.old }
        ensures { result ≡ one_at op args.old }
    {
        let key = taken_word(alloc, args, 0);
        if op.takes_value() {
            let arg = taken_word(alloc, args, 1);
            return Part::new(alloc, op, key, arg);
        }
        Part::new(alloc, op, key, Bytes::new(Vec::new(alloc)))
    }

    /// Adds a further key with its value, which is let go where the operation puts none.
    pub fn push(&mut self, key: Bytes, arg: Bytes) -> Result<(), NoMemory>
        requires group { IsTrue (takes_group self.old.op) }
        requires same_slot { slot_of key ≡ slot_of self.old.key }
        ensures ok { OnOk result (self.new ≡ record self.old { rest = self.old.rest ++ (key, value_for self.old.op arg) ∷ [] }) }
        ensures err { OnErr result (self.new ≡ self.old) }
    {
        let arg = value_for(*self.rest.allocator(), self.op, arg);
        self.rest.push((key, arg))?;
        Ok(())
    }

    pub fn op(&self) -> Op
        ensures { result ≡ self.now.op }
    {
        self.op
    }

    /// The first key.
    pub fn key(&self) -> &Bytes
        ensures { result.now ≡ self.now.key }
    {
        &self.key
    }

    /// The first key's value.
    pub fn arg(&self) -> &Bytes
        ensures { result.now ≡ self.now.arg }
    {
        &self.arg
    }

    /// The further keys, with their values.
    pub fn rest(&self) -> &[Pair]
        ensures value { result.now ≡ self.now.rest }
        ensures same_slot { All (λ pair. slot_of pair.0 ≡ slot_of self.now.key) self.now.rest }
        ensures fit { HasFitKeys self.now }
        ensures plain { IsPlain self.now }
    {
        self.op.number_is_in_range();
        self.rest.as_slice()
    }

    /// The slot of all the keys.
    pub fn slot(&self) -> Slot
        ensures value { result ≡ slot_of self.now.key }
        ensures of_all { HasOneSlot self.now }
    {
        self.slot
    }

    /// The same part in memory of its own.
    pub fn copy(&self, alloc: Global) -> Result<Part, NoMemory>
        ensures { IfOk result (λ copy. copy ≡ self.now) }
    {
        Ok(Part {
            op: self.op,
            key: self.key.copy(alloc)?,
            arg: self.arg.copy(alloc)?,
            rest: copies(alloc, &self.rest)?,
            slot: self.slot,
        })
    }
}

/// The word at this place, which is empty from now on.
fn taken_word(alloc: Global, words: &mut [Bytes], place: usize) -> Bytes
    requires { place < length words.old }
    ensures word { result ≡ word_at words.old place }
    ensures others { words.new ≡ slice_set words.old place [] }
{
    mem::replace(&mut words[place], Bytes::new(Vec::new(alloc)))
}

/// The value, or an empty one where the operation puts none.
fn value_for(alloc: Global, op: Op, value: Bytes) -> Bytes
    ensures value { result ≡ value_for op value }
    ensures fits { IsValueFor op result }
{
    if op.puts_value() {
        return value;
    }
    Bytes::new(Vec::new(alloc))
}

/// The same keys and values in memory of their own.
fn copies(alloc: Global, pairs: &[Pair]) -> Result<Vec<Pair>, NoMemory>
    ensures { IfOk result (λ copies. copies.items ≡ pairs.now) }
{
    let mut copies = Vec::with_capacity(alloc, pairs.len())?;
    for (key, arg) in pairs {
        copies.push((key.copy(alloc)?, arg.copy(alloc)?))?;
    }
    Ok(copies)
}

impl PartialEq for Part {
    ghost use Rattle.std.specs.Prelude.{◌≡◌, ◌↔◌, IsTrue};
    ghost use Rattle.std.specs.Cmp.{decided, partial_equiv_from_equiv};
    ghost use Rattle.key_split.specs.Same.{same_part, same_part-Decides};

    ghost eq = { same_part };

    ghost laws = { partial_equiv_from_equiv (decided same_part same_part-Decides) };

    fn eq(&self, other: &Part) -> bool
        ensures value { result ≡ same_part self.now other.now }
        ensures same { IsTrue result ↔ (self.now ≡ other.now) }
    {
        same_part(self, other)
    }
}

fn same_part(a: &Part, b: &Part) -> bool
    ensures { result ≡ same_part a.now b.now }
{
    a.op == b.op && a.key == b.key && a.arg == b.arg && a.rest == b.rest
}

impl Eq for Part {
    ghost use Rattle.std.specs.Cmp.{decided};
    ghost use Rattle.key_split.specs.Same.{same_part, same_part-Decides};

    ghost laws = { decided same_part same_part-Decides };
}

/// The parts of a request, in order.
#[derive(Drop)]
pub struct Parts {
    items: Vec<Part>,
}

impl Model for Parts {
    ghost use Rattle.std.specs.Prelude.{List};
    ghost use Rattle.key_split.specs.PartModel.{PartModel};

    ghost Value = { List PartModel };

    ghost view = { λ parts. parts.items.items };
}

impl Parts {
    pub fn new(items: Vec<Part>) -> Parts
        ensures { result ≡ items.items }
    {
        Parts { items }
    }

    pub fn as_slice(&self) -> &[Part]
        ensures { result.now ≡ self.now }
    {
        self.items.as_slice()
    }

    pub fn into_vec(self) -> Vec<Part>
        ensures { result.items ≡ self }
    {
        self.items
    }
}
