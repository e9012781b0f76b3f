//! The events by which slots move.

ghost use Rattle.cluster_world.specs.Machine.{state_of, MachineAnswers};
ghost use Rattle.std.specs.Prelude.{◌≡◌, ◌↔◌, All, IsTrue};
ghost use Rattle.world_laws.specs.State.{slot_for};
ghost use Rattle.cluster_world.specs.Rests.{one_at, Rests};
ghost use Rattle.world_laws.specs.declared.event.Event.TheVariants as event;

use crate::asks::{Sought, commands_rest, downs_rest, runs_rest};
use crate::fault::WorldFault;
use crate::machine::Machine;
use resp_wire::Bytes;
use slot_hash::Slot;
use slot_map::NodeId;

impl Machine {
    /// A settled slot begins to move to another node.
    pub(crate) fn import(&mut self, slot: Slot, target: NodeId) -> Result<(), WorldFault>
        ensures { MachineAnswers (state_of self.old) (event.Import slot target) result (state_of self.new) }
    {
        if !self.none_asks(slot, target) {
            return Err(WorldFault::NotNow);
        }
        self.cluster.import_slot(slot, target)?;
        Ok(())
    }

    // Whether no command for the slot that ASK sent to the node is on its way. Most often nothing asks there at all, which
    // one look through the lists tells.
    fn none_asks(&self, slot: Slot, node: NodeId) -> bool
        ensures { IsTrue result ↔ All (λ c. slot_for c.command.part ≡ slot → Rests (state_of self.now) (one_at node c.command.ticket)) self.now.commands }
    {
        self.rests(&Sought { node, ticket: None }) || self.slot_rests(slot, node)
    }

    // The same, command by command.
    fn slot_rests(&self, slot: Slot, node: NodeId) -> bool
        ensures { IsTrue result ↔ All (λ c. slot_for c.command.part ≡ slot → Rests (state_of self.now) (one_at node c.command.ticket)) self.now.commands }
    {
        self.commands.as_slice().iter().all(|arrival| {
            let ticket = Some(arrival.command.ticket());
            arrival.command.slot() != slot || self.rests(&Sought { node, ticket })
        })
    }

    // Whether nothing that is sought is on its way.
    #[tactic(auto, unfolding(crate::specs::Rests::Rests))]
    fn rests(&self, sought: &Sought) -> bool
        ensures { IsTrue result ↔ Rests (state_of self.now) sought.now }
    {
        commands_rest(self.commands.as_slice(), sought)
            && runs_rest(&self.ups, sought)
            && self.links.rest(sought)
            && downs_rest(&self.downs, sought)
    }

    /// The slot's owner begins to give it.
    pub(crate) fn migrate(&mut self, slot: Slot) -> Result<(), WorldFault>
        ensures { MachineAnswers (state_of self.old) (event.Migrate slot) result (state_of self.new) }
    {
        self.cluster.migrate_slot(slot)?;
        Ok(())
    }

    /// A key and its value leave the source for the target.
    pub(crate) fn move_key(&mut self, slot: Slot, key: &Bytes) -> Result<(), WorldFault>
        ensures { MachineAnswers (state_of self.old) (event.MoveKey slot key.now) result (state_of self.new) }
    {
        self.cluster.move_key(slot, key)?;
        Ok(())
    }

    /// The target owns the slot.
    pub(crate) fn own(&mut self, slot: Slot) -> Result<(), WorldFault>
        ensures { MachineAnswers (state_of self.old) (event.Own slot) result (state_of self.new) }
    {
        self.cluster.own_slot(slot)?;
        Ok(())
    }

    /// The source gives the slot up.
    pub(crate) fn release(&mut self, slot: Slot) -> Result<(), WorldFault>
        ensures { MachineAnswers (state_of self.old) (event.Release slot) result (state_of self.new) }
    {
        self.cluster.release_slot(slot)?;
        Ok(())
    }

    /// The target forgets a slot of which it holds no key.
    pub(crate) fn forget(&mut self, slot: Slot) -> Result<(), WorldFault>
        ensures { MachineAnswers (state_of self.old) (event.Forget slot) result (state_of self.new) }
    {
        self.cluster.forget_slot(slot)?;
        Ok(())
    }

    /// The source of a forgotten move stays the owner.
    pub(crate) fn stay(&mut self, slot: Slot) -> Result<(), WorldFault>
        ensures { MachineAnswers (state_of self.old) (event.Stay slot) result (state_of self.new) }
    {
        self.cluster.stay_slot(slot)?;
        Ok(())
    }
}
