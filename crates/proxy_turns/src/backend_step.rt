//! What one step at a backend did.

ghost use Rattle.std.specs.Prelude.{◌≡◌};
ghost use Rattle.proxy_turns.specs.Backend.{is_backend_move};

/// What one step at a backend did.
#[derive(Clone, Copy)]
pub enum BackendStep {
    /// There was nothing to do.
    Idle,
    /// The link had nothing for a command, or a reply to ASKING, which is dropped.
    Waited,
    /// The link failed.
    Broke,
    /// What a ticket is told came.
    Fetched,
    /// The answer to CLUSTER SLOTS came.
    Answered,
    /// A ticket was taken off a failed link, whose outcome is lost.
    GaveUp,
    /// A failed link on which no ticket waits was taken away.
    Closed,
    /// The slot of a MOVED was published.
    Published,
    /// The node was asked for CLUSTER SLOTS.
    Asked,
    /// The node was not asked, since such a request is unanswered, or the link is not open.
    Spared,
    /// The answer to CLUSTER SLOTS was read.
    Read,
    /// The answer to CLUSTER SLOTS cannot be read.
    Unread,
    /// What CLUSTER SLOTS says was published.
    Renewed,
}

impl BackendStep {
    /// Whether something moved.
    pub fn is_move(self) -> bool
        ensures { result ≡ is_backend_move self }
    {
        !matches!(self, BackendStep::Idle | BackendStep::Waited)
    }
}
