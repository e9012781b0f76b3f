//! What a connection offers to commands that travel together.

ghost use Rattle.std.specs.Prelude.{◌≡◌, ◌≤◌, ℕ};
ghost use Rattle.key_split.specs.Runs.{count_in, requests_of_run};
ghost use Rattle.node_link.specs.Port.{SendOutcome};

use crate::port::{NodePort, PortFault};
use key_split::Run;

/// A connection to a node over which runs go. The node executes the commands of one in order and at once, or none of them, and
/// each command has a value of its own.
pub trait RunPort: NodePort {
    /// How many commands a run may have.
    ghost longest: { Self → ℕ };

    fn longest_run(&self) -> usize
        ensures exact { result ≡ longest self.now }
        ensures some { 1 ≤ result };

    /// Sends the commands of a run, with nothing between them.
    fn send_run(&mut self, run: &Run) -> Result<(), PortFault>
        requires { count_in run.now ≤ longest self.old }
        ensures does { SendOutcome Self.calls self.old (requests_of_run run.now) result self.new }
        ensures count { Self.calls.failures self.old ≤ Self.calls.failures self.new };
}
