//! What holds of every request that is passed on whole.

ghost use Rattle.relayed_keys.specs.Laws.{KeysHaveTheSlot};

/// Each key of a request that is passed on has the slot that it is sent to.
pub fn relayed_keys_have_the_slot()
    ensures { KeysHaveTheSlot }
{}
