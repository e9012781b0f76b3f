//! What a client's turn, or a step of one of its commands, came to.

ghost use Rattle.std.specs.Prelude.{◌≡◌, ◌↔◌, IsTrue, false};
ghost use Rattle.proxy_turns.specs.ClientModel.{read_answer};
ghost use Rattle.proxy_turns.specs.ClientTurn.{is_settled};

use crate::port::ClientPort;
use key_split::Ticket;
use resp_wire::NoMemory;
use session_order::SessionFault;

/// What a client's turn came to.
#[derive(Clone, Copy)]
pub(crate) struct Turned {
    pub(crate) moved: bool,
    /// Nothing is left to do for the client.
    pub(crate) done: bool,
    /// The client's turns move nothing until the gate has news of its port.
    pub(crate) asleep: bool,
}

impl Turned {
    /// Of a turn that moved nothing, of a client that is not done.
    pub(crate) fn still() -> Turned
        ensures { result ≡ record { moved = false; done = false; asleep = false } }
    {
        Turned {
            moved: false,
            done: false,
            asleep: false,
        }
    }
}

/// What became of a command that may have ended.
#[derive(Clone, Copy)]
pub(crate) enum Finish {
    /// It has ended, and its session knows. With the ticket of the next that is out for its slot.
    Ended(Option<Ticket>),
    /// It has not.
    Open,
}

/// What a posted command has to do.
#[derive(Clone, Copy)]
pub(crate) enum NextStep {
    /// Nothing: it awaits its answer, or its turn has not come.
    Rest,
    /// It has ended.
    End,
    /// It is to be posted again after this number of milliseconds.
    Post(u64),
}

/// What became of a command that may have been refused.
#[derive(Clone, Copy)]
pub(crate) enum Settled {
    /// It was posted again.
    Posted,
    /// It wants to be posted again, and the lane did not take it.
    Held,
    /// There was nothing to do.
    Nothing,
}

impl Settled {
    /// Whether something moved.
    pub(crate) fn is_move(self) -> bool
        ensures { result ≡ is_settled self }
    {
        matches!(self, Settled::Posted)
    }

    /// Whether its command is still to be posted.
    pub(crate) fn is_held(self) -> bool
        ensures { IsTrue result ↔ (self ≡ Settled.Held) }
    {
        matches!(self, Settled::Held)
    }
}

/// Whether a request was read. After a fault of the client's, of which its port is told, none is read.
pub(crate) fn has_read<C: ClientPort>(
    given: Result<bool, SessionFault>,
    port: &C,
) -> Result<bool, NoMemory>
    ensures { result ≡ read_answer given }
{
    match given {
        Ok(read) => Ok(read),
        Err(SessionFault::NoMemory) => Err(NoMemory),
        Err(SessionFault::Wire(fault)) => {
            port.faulted(SessionFault::Wire(fault));
            Ok(false)
        }
        Err(SessionFault::NotRequest) => {
            port.faulted(SessionFault::NotRequest);
            Ok(false)
        }
    }
}

/// Tells the port how many requests were read in a turn, where any were.
pub(crate) fn note_read<C: ClientPort>(port: &C, count: usize) {
    if count > 0 {
        port.requests_read(count);
    }
}
