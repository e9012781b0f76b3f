//! A client, as a worker sees it.

ghost use Rattle.std.specs.Prelude.{[], ◌++◌, ⊤};
ghost use Rattle.proxy_turns.specs.Port.{Moves, MovesNone, PullOutcome, PushOutcome, NoteOutcome};

use key_split::{Ended, Ticket};
use node_link::Flow;
use resp_wire::NoMemory;
use session_order::SessionFault;

/// A client's bytes in and out, by calls that do not wait.
pub trait ClientPort {
    /// What was pulled, pushed and noted between two states of it, and where a call answered that its client is gone.
    ghost moves: { Moves Self };

    /// Its last pull gave nothing.
    ghost gives_none: { Self → Type 0 } = { λ _. ⊤ };

    /// Its last push took nothing.
    ghost takes_none: { Self → Type 0 } = { λ _. ⊤ };

    /// Whether the worker's gate will have news of it (`Gate::take_news`) once it may give bytes or is gone. Else it is asked at
    /// each turn.
    fn is_watched(&self) -> bool {
        false
    }

    /// Told before each pull: whether more may be pushed. One that has ended its sending is not gone while that is so.
    fn owes(&self, _more: bool) {}

    /// Told after each turn that read requests: how many.
    fn requests_read(&self, _count: usize) {}

    /// Told after each drain of replies: how many requests that were read have none yet, and how many bytes wait to be pushed.
    fn replies_drained(&self, _unanswered: usize, _bytes: usize) {}

    /// Told why what the client sent is no request, at each try to read on.
    fn faulted(&self, _fault: SessionFault) {}

    /// Pulls some bytes to the front of the buffer.
    fn pull(&mut self, buffer: &mut [u8]) -> Result<Flow, NoMemory>
        ensures pulled { PullOutcome moves self.old buffer.new result self.new }
        ensures none { MovesNone result → gives_none self.new };

    /// Pushes some bytes off the front of two slices, which stand one behind the other.
    fn push(&mut self, first: &[u8], second: &[u8]) -> Result<Flow, NoMemory>
        ensures pushed { PushOutcome moves self.old (first.now ++ second.now) result self.new }
        ensures none { MovesNone result → takes_none self.new };

    /// Notes how a part of the client ended.
    fn note(&mut self, ticket: Ticket, end: &Ended) -> Result<(), NoMemory>
        ensures noted { NoteOutcome moves self.old (ticket, end.now) result self.new };

    /// The client is let go: nothing more is pulled, pushed or noted. Called once.
    fn close(&mut self)
        ensures closed { moves.between self.old [] [] [] self.new };
}
