//! When a node is asked for CLUSTER SLOTS after a loss.

ghost use Rattle.std.specs.Prelude.{◌≡◌};
ghost use Rattle.node_dial.specs.AskSchedule.{TakesAsk, new_schedule, shortened};

/// How long the first pause is, in milliseconds. It doubles from one to the next.
const FIRST_PAUSE: u64 = 50;
/// How long a pause is at most, in milliseconds.
const LONGEST_PAUSE: u64 = 250;

/// When a node is asked next, and how long the pause after that is, in milliseconds.
#[derive(Clone, Copy)]
pub(crate) struct AskSchedule {
    next: u64,
    pause: u64,
}

impl AskSchedule {
    /// A node is to be asked at once.
    pub(crate) fn new() -> AskSchedule
        ensures { result ≡ new_schedule }
    {
        AskSchedule {
            next: 0,
            pause: FIRST_PAUSE,
        }
    }

    /// When a node is asked next, in milliseconds.
    pub(crate) fn next(&self) -> u64
        ensures { result ≡ self.now.next }
    {
        self.next
    }

    /// The next pause is the shortest again.
    pub(crate) fn shorten(&mut self)
        ensures { self.new ≡ shortened self.old }
    {
        self.pause = FIRST_PAUSE;
    }

    /// Whether a node is to be asked now. Where it is, the next is asked after a pause.
    pub(crate) fn take(&mut self, now: u64) -> bool
        ensures { TakesAsk self.old now result self.new }
    {
        if now < self.next {
            return false;
        }
        self.next = now.saturating_add(self.pause);
        self.pause = self.pause.saturating_mul(2).min(LONGEST_PAUSE);
        true
    }
}
