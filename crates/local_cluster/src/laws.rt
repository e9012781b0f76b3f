//! Laws of the cluster behind a lock. Each is the contract of a function that does nothing.

ghost use Rattle.local_cluster.specs.Laws.{MovingKeeps, OpenedIsNew, RunsKeep, ServingKeeps, StartsSound};

/// Serving keeps what the state keeps.
pub fn serving_keeps()
    ensures { ServingKeeps }
{}

/// Serving commands together keeps it.
pub fn runs_keep()
    ensures { RunsKeep }
{}

/// Each step of a move keeps it.
pub fn moving_keeps()
    ensures { MovingKeeps }
{}

/// A new cluster has it, and what has it is sound.
pub fn is_sound()
    ensures { StartsSound }
{}

/// A cluster that was made is new.
pub fn opened_is_new()
    ensures { OpenedIsNew }
{}
