//! What each of several workers has of what is had by all.

ghost use Rattle.std.specs.Prelude.{◌≤◌, ◌*◌};

/// The share of each of so many workers, which together have no more than all.
pub(crate) fn share_of(all: u64, workers: u64) -> u64
    ensures { workers * result ≤ all }
{
    if workers == 0 {
        return all;
    }
    all / workers
}
