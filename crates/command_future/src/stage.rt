//! Where a command stands, and what it wants there.

ghost use Rattle.std.specs.Prelude.{◌≡◌};

use key_split::Ended;
use slot_map::NodeId;

/// What a command wants next.
#[derive(Clone, Copy)]
pub enum Want {
    /// To be posted, after ASKING or not, at the named node or at any.
    Post(bool, Option<NodeId>),
    /// To be told something.
    Await,
    /// Nothing more.
    Finished,
}

/// Where a command stands: asking without a node can't be written.
#[derive(Drop)]
pub(crate) enum Stage {
    /// It wants to be posted, at the named node or at any.
    Wants(Option<NodeId>),
    /// It wants to be posted at this node, after ASKING.
    WantsAsking(NodeId),
    /// It was posted, and awaits what it is told.
    Awaits,
    Over(Ended),
}

impl Stage {
    ghost use Rattle.command_future.specs.CommandModel.{asks_at, want_at};

    pub(crate) fn want(&self) -> Want
        ensures { result ≡ want_at self.now }
    {
        match self {
            Stage::Wants(named) => Want::Post(false, *named),
            Stage::WantsAsking(node) => Want::Post(true, Some(*node)),
            Stage::Awaits => Want::Await,
            Stage::Over(_) => Want::Finished,
        }
    }

    pub(crate) fn asks(&self) -> bool
        ensures { result ≡ asks_at self.now }
    {
        matches!(self, Stage::WantsAsking(_))
    }
}
