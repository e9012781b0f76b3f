//! Whether a session is open.

use crate::fault::SessionFault;
use resp_wire::WireFault;

/// Why a session reads no more.
#[derive(Clone, Copy)]
pub enum Broken {
    Wire(WireFault),
    NotRequest,
}

/// Whether a session is open, and after a fault whether the error line is still owed.
#[derive(Clone, Copy)]
pub enum Closing {
    Open,
    Quit,
    Faulted(Broken, bool),
}

impl Closing {
    ghost use Rattle.std.specs.Prelude.{◌≡◌, if◌then◌else◌};
    ghost use Rattle.session_order.specs.Replies.{last_line, said, lines_owed};
    ghost use Rattle.session_order.specs.Stopping.{closed};

    pub fn owes_line(self) -> bool
        ensures { last_line self ≡ lines_owed result }
    {
        match self {
            Closing::Open | Closing::Quit => false,
            Closing::Faulted(_, owed) => owed,
        }
    }

    /// The error line was said, if all replies were.
    pub fn after(self, all: bool) -> Closing
        ensures said { result ≡ (if all then said self else self) }
        ensures open { result ≡ Closing.Open → self ≡ Closing.Open }
    {
        match self {
            Closing::Faulted(why, _) if all => Closing::Faulted(why, false),
            other => other,
        }
    }

    /// What becomes of it where no more is read.
    pub fn closed(self) -> Closing
        ensures closed { result ≡ closed self }
        ensures open { result ≡ Closing.Open → self ≡ Closing.Open }
    {
        match self {
            Closing::Open => Closing::Quit,
            Closing::Quit => Closing::Quit,
            Closing::Faulted(why, owed) => Closing::Faulted(why, owed),
        }
    }
}

impl Broken {
    ghost use Rattle.std.specs.Prelude.{◌≡◌};
    ghost use Rattle.session_order.specs.Steps.{fault_of};

    pub fn fault(self) -> SessionFault
        ensures { result ≡ fault_of self }
    {
        match self {
            Broken::Wire(fault) => SessionFault::Wire(fault),
            Broken::NotRequest => SessionFault::NotRequest,
        }
    }
}
