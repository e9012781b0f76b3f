//! The commands of a run at a store: all are done, or none.

ghost use Rattle.std.specs.Prelude.{◌≡◌, ◌≤◌, ◌++◌, [], ◌∷◌, List, ℕ, OnErr, OnOk, IfOk};
ghost use Rattle.std.specs.FinMap as map;
ghost use Rattle.std.specs.HashMap.{hash_map_len, spare};
ghost use Rattle.key_split.specs.PartModel.{keys_of};
ghost use Rattle.node_model.specs.Runs.{keys_in, store_after_all, AreReplies};
ghost use Rattle.node_model.specs.Store.{StoreModel};
ghost use Rattle.node_model.specs.Together.{AreTaken, IsCopy, IsLaidOver, PerformsAll};

use crate::store::{Store, put_reserved};
use key_split::{Part, Told};
use resp_wire::{Bytes, NoMemory};
use std::collections::HashMap;

impl Store {
    /// Does what the commands say, one after another, or nothing.
    pub(crate) fn apply_all(&mut self, parts: &[Part]) -> Result<Vec<Told>, NoMemory>
        ensures { PerformsAll result self.old self.new parts.now }
    {
        let mut scratch = self.copy_for(parts)?;
        let tolds = scratch.apply_each(parts)?;
        self.settle(scratch, parts)?;
        Ok(tolds)
    }

    /// A store with what this one holds of the run's keys.
    fn copy_for(&self, parts: &[Part]) -> Result<Store, NoMemory>
        ensures { IfOk result (λ copy. IsCopy (keys_in parts.now) self.now copy) }
    {
        let mut copy = Store::new(self.alloc);
        let mut rest = parts;
        while let [part, later @ ..] = rest {
            self.copy_part(part, &mut copy)?;
            rest = later;
        }
        Ok(copy)
    }

    /// Copies what this store holds of the command's keys.
    fn copy_part(&self, part: &Part, copy: &mut Store) -> Result<(), NoMemory>
        ensures { (keys : List (List ℕ)) → IsCopy keys self.now copy.old → OnOk result (IsCopy (keys ++ keys_of part.now) self.now copy.new) }
    {
        self.copy_key(part.key(), copy)?;
        let mut rest = part.rest();
        while let [(key, _), further @ ..] = rest {
            self.copy_key(key, copy)?;
            rest = further;
        }
        Ok(())
    }

    /// Copies what this store holds at the key.
    fn copy_key(&self, key: &Bytes, copy: &mut Store) -> Result<(), NoMemory>
        ensures { (keys : List (List ℕ)) → IsCopy keys self.now copy.old → OnOk result (IsCopy (keys ++ key.now ∷ []) self.now copy.new) }
    {
        match self.get(key) {
            None => Ok(()),
            Some(value) => {
                drop(copy.put(key, value.copy(self.alloc)?)?);
                Ok(())
            }
        }
    }

    /// Does the commands in turn. Where memory runs out, the first of them are done.
    fn apply_each(&mut self, parts: &[Part]) -> Result<Vec<Told>, NoMemory>
        ensures replies { IfOk result (λ tolds. AreReplies self.old parts.now tolds.items) }
        ensures after { OnOk result (self.new ≡ store_after_all self.old parts.now) }
    {
        let mut tolds = Vec::new(self.alloc);
        let mut rest = parts;
        while let [part, later @ ..] = rest {
            let reply = self.apply(part)?;
            tolds.push(Told::Reply(reply))?;
            rest = later;
        }
        Ok(tolds)
    }

    /// Puts another store's values at the run's keys, which it holds alone; or nothing.
    fn settle(&mut self, scratch: Store, parts: &[Part]) -> Result<(), NoMemory>
        ensures ok { OnOk result ((mid : StoreModel) × AreTaken (keys_in parts.now) self.old mid × IsLaidOver scratch mid self.new) }
        ensures refused { OnErr result (self.new ≡ self.old) }
    {
        let Store { held, .. } = scratch;
        self.held.reserve(held.len())?;
        take_away_all(&mut self.held, parts);
        put_all(&mut self.held, held);
        Ok(())
    }
}

/// Takes the run's keys away; there is as much room as before.
fn take_away_all(held: &mut HashMap<Bytes, Bytes>, parts: &[Part])
    ensures keys { AreTaken (keys_in parts.now) (map.from_entries held.old.entries) (map.from_entries held.new.entries) }
    ensures room { spare held.old ≤ spare held.new }
{
    let mut rest = parts;
    while let [part, later @ ..] = rest {
        take_away(held, part);
        rest = later;
    }
}

/// Takes the command's keys away; there is as much room as before.
fn take_away(held: &mut HashMap<Bytes, Bytes>, part: &Part)
    ensures keys { AreTaken (keys_of part.now) (map.from_entries held.old.entries) (map.from_entries held.new.entries) }
    ensures room { spare held.old ≤ spare held.new }
{
    drop(held.remove(part.key()));
    let mut rest = part.rest();
    while let [(key, _), further @ ..] = rest {
        drop(held.remove(key));
        rest = further;
    }
}

/// Puts each value at its key; there is room for all.
fn put_all(held: &mut HashMap<Bytes, Bytes>, values: HashMap<Bytes, Bytes>)
    requires { hash_map_len values ≤ spare held.old }
    ensures { IsLaidOver (map.from_entries values.entries) (map.from_entries held.old.entries) (map.from_entries held.new.entries) }
{
    for (key, value) in values {
        put_reserved(held, key, value);
    }
}
