//! A client of which no more is read.

ghost use Rattle.std.specs.Prelude.{◌≡◌};

use super::ClientParts;
use crate::port::ClientPort;

impl<C: ClientPort + Drop> ClientParts<C> {
    ghost use Rattle.proxy_turns.specs.WorkerDrain.{stopped};

    /// Reads no further request of the client. What was read is answered.
    pub(crate) fn stop_reading(&mut self)
        ensures { self.new ≡ stopped self.old }
    {
        self.session.stop_reading();
    }
}
