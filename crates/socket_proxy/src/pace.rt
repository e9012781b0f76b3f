//! What a thread does behind a turn: it goes on, polls, or sleeps.

ghost use Rattle.std.specs.Prelude.{◌≡◌, ◌<◌, true, false};
ghost use Rattle.socket_proxy.specs.declared.pace.TheConstants.{STILL_TURNS, TURNS_PER_POLL};

/// Turns that move something, between two polls.
const TURNS_PER_POLL: u32 = 4;
/// Turns in a row that moved nothing, after which all that was to be written went out, and the thread sleeps.
const STILL_TURNS: u32 = 3;

/// How many turns moved something since the last poll, and how many in a row moved nothing.
#[derive(Drop)]
pub(crate) struct Pace {
    moving: u32,
    still: u32,
    ghost polls: { moving < TURNS_PER_POLL },
    ghost sleeps: { still < STILL_TURNS },
}

/// What comes behind a turn.
#[derive(Clone, Copy, PartialEq, Eq)]
pub(crate) enum Next {
    Turn,
    /// A poll that does not wait.
    Poll,
    /// A poll that waits.
    Sleep,
}

impl Pace {
    ghost use Rattle.socket_proxy.specs.Pace.{Counts, Paces};

    /// No turn was taken.
    pub(crate) fn new() -> Pace
        ensures { Counts result 0 0 }
    {
        Pace {
            moving: 0,
            still: 0,
        }
    }

    /// What comes behind a turn that moved something, or nothing.
    pub(crate) fn after(&mut self, moved: bool) -> Next
        ensures rests { result ≡ Next.Sleep → moved ≡ false }
        ensures paces { Paces self.old moved result self.new }
    {
        if moved {
            self.still = 0;
            return self.after_move();
        }
        if self.still + 1 < STILL_TURNS {
            self.still += 1;
            return Next::Turn;
        }
        self.moving = 0;
        self.still = 0;
        Next::Sleep
    }

    fn after_move(&mut self) -> Next
        requires { self.old.still ≡ 0 }
        ensures { Paces self.old true result self.new }
    {
        if self.moving + 1 < TURNS_PER_POLL {
            self.moving += 1;
            return Next::Turn;
        }
        self.moving = 0;
        Next::Poll
    }
}
