//! A cluster behind a lock, as one sees it who is to give its state back.

ghost use Rattle.local_cluster.specs.Local.{IsSound, LocalStateModel};

use crate::cluster::LocalCluster;
use crate::local::LocalState;

/// A cluster whose state stands behind a lock, so that threads may share it. Who is given any such cluster, and has to hand
/// its state back, can have that state from `into_state` alone.
pub trait LockedCluster: Sync {
    /// The cluster gives up this state.
    ghost gives_up: { Self → LocalStateModel → Type 0 };

    /// The cluster, for threads to share.
    fn shared(&self) -> &LocalCluster;

    /// The state that stood behind the lock.
    fn into_state(self) -> LocalState
        ensures { gives_up self result };
}

impl LockedCluster for LocalCluster {
    ghost gives_up = { λ _ state. IsSound state };

    fn shared(&self) -> &LocalCluster {
        self
    }

    fn into_state(self) -> LocalState {
        self.into_state()
    }
}
