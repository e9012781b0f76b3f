//! What a client is written: its session is drained, and the bytes are pushed.

ghost use Rattle.std.specs.Prelude.{◌≡◌, ◌↔◌, [], false, true, IsTrue};

use super::ClientParts;
use crate::client_limits::{MAX_DRAINED, MAX_UNPUSHED};
use crate::port::ClientPort;
use node_link::Flow;
use resp_wire::NoMemory;

impl<C: ClientPort + Drop> ClientParts<C> {
    ghost use Rattle.proxy_turns.specs.ClientRest.{DrainsNone, IfStill, PushesNone, WritesNone};
    ghost use Rattle.proxy_turns.specs.ClientTurn.{DrainsReplies, PushesBytes, WritesReplies};

    /// Drains the session, and pushes what the client takes.
    pub(super) fn write(&mut self) -> Result<bool, NoMemory>
        ensures writes { WritesReplies C.moves self.old result self.new }
        ensures none { IfStill result (WritesNone C.takes_none self.old self.new) }
    {
        let drained = self.drain()?;
        self.note_drained(drained);
        let pushed = self.push()?;
        Ok(drained | pushed)
    }

    // Tells the port which replies were drained, where any were.
    fn note_drained(&self, drained: bool) {
        if drained {
            self.port
                .replies_drained(self.session.unanswered(), self.unpushed.len());
        }
    }

    // Whether the client is there, and takes its bytes. A client that does not read is asked for no more.
    fn may_drain(&self) -> bool
        ensures there { result ≡ true → self.now.gone ≡ false }
        ensures may { self.now.gone ≡ false → self.now.unpushed ≡ [] → result ≡ true }
    {
        !self.gone && self.unpushed.len() < MAX_UNPUSHED
    }

    fn drain(&mut self) -> Result<bool, NoMemory>
        ensures drains { DrainsReplies C.moves self.old result self.new }
        ensures none { IfStill result (DrainsNone self.old self.new) }
    {
        if !self.may_drain() {
            return Ok(false);
        }
        let Some(count) = self.unpushed.drain(&mut self.session, MAX_DRAINED)? else {
            return Ok(false);
        };
        self.replies.drain(count);
        Ok(count > 0)
    }

    // Whether the client is there, and has not all its bytes.
    fn may_push(&self) -> bool
        ensures { IsTrue result ↔ (self.now.gone ≡ false) × (self.now.unpushed ≡ [] → ⊥) }
    {
        !self.gone && !self.unpushed.is_empty()
    }

    fn push(&mut self) -> Result<bool, NoMemory>
        ensures pushes { PushesBytes C.moves self.old result self.new }
        ensures none { IfStill result (PushesNone C.takes_none self.old self.new) }
    {
        if !self.may_push() {
            return Ok(false);
        }
        let (first, second) = self.unpushed.as_slices();
        match self.port.push(first, second)? {
            Flow::Bytes(count) => {
                self.unpushed.count_pushed(count);
                Ok(count > 0)
            }
            Flow::Nothing => Ok(false),
            Flow::Gone => {
                self.leave();
                Ok(true)
            }
        }
    }
}
