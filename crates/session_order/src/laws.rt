//! What holds over a session's whole life.

ghost use Rattle.session_order.specs.Kept.{CallsKeep};
ghost use Rattle.session_order.specs.Life.{DrainsOutput};
ghost use Rattle.session_order.specs.Stopping.{StaysClosed};

/// Whatever the calls: what was drained is a front of the output of the requests that were read and the ends that were
/// told, and all of it after a drain that answered Ok.
pub fn drains_output()
    ensures { DrainsOutput }
{}

/// Each call that changes a session keeps the parts that are out, each in its order behind the same parts, but for one whose end
/// it tells.
pub fn calls_keep()
    ensures { CallsKeep }
{}

/// A session that was told to read no more owes what it owed, and reads no more whatever is called.
pub fn stays_closed()
    ensures { StaysClosed }
{}
