//! What a client of a worker has, and each step of its turn.

mod sending;
mod settling;
mod stopping;
mod writing;

ghost use Rattle.std.specs.Prelude.{◌≡◌, ◌↔◌, [], Result, Ok, false, true, IsTrue};

use crate::client_bytes::{SMALLEST_PIECE, Unfed, piece_after};
use crate::client_limits::{MAX_ASKED, MAX_READS};
use crate::commands::Commands;
use crate::held_replies::HeldReplies;
use crate::port::ClientPort;
use crate::shared_room::SharedRoom;
use crate::turned::{has_read, note_read};
use crate::unpushed::Unpushed;
use crate::uplink::Uplink;
use key_split::{Ticket, Told};
use node_link::Flow;
use proxy_lanes::Naming;
use resp_wire::{Limits, NoMemory};
use session_order::{Session, SessionFault};
use std::alloc::Global;
use std::marker::Model;

/// A client's port, session and commands, and its bytes on their way.
#[derive(Drop)]
pub(crate) struct ClientParts<C: ClientPort + Drop> {
    session: Session,
    commands: Commands,
    // Pulled and not fed to the session.
    unfed: Unfed,
    // Drained from the session and not pushed.
    unpushed: Unpushed,
    port: C,
    gone: bool,
    // How many bytes the next call asks for.
    piece: usize,
    // How many bytes were pulled since all was answered.
    asked: usize,
    // Its last read left off where there may be more.
    reads_on: bool,
    replies: HeldReplies,
}

impl<C: ClientPort + Drop> Model for ClientParts<C> {
    ghost use Rattle.std.specs.Coded.{codes};
    ghost use Rattle.std.specs.FinMap as map;
    ghost use Rattle.resp_wire.specs.Stored.{coded_data};
    ghost use Rattle.proxy_turns.specs.ClientModel.{ClientModel, IsSoundClient};

    ghost Value = { ClientModel C };

    ghost coded = { Prim.hlevel (codes, coded_data, map.code) };

    ghost view = { λ c. record {
      port = c.port;
      session = c.session;
      commands = c.commands;
      unfed = c.unfed;
      unpushed = c.unpushed;
      gone = c.gone;
    } };

    ghost invariant = { λ c. IsSoundClient c.session c.commands };
}

impl<C: ClientPort + Drop> ClientParts<C> {
    ghost use Rattle.proxy_turns.specs.Commands.{Hears};
    ghost use Rattle.proxy_turns.specs.ClientModel.{new_client, IsDone};

    pub(crate) fn new(
        alloc: Global,
        worker: u16,
        number: u32,
        limits: Limits,
        port: C,
    ) -> ClientParts<C>
        ensures { result ≡ new_client worker number limits port }
    {
        ClientParts {
            session: Session::new(alloc, worker, number, limits),
            commands: Commands::new(alloc),
            unfed: Unfed::new(alloc),
            unpushed: Unpushed::new(alloc),
            port,
            gone: false,
            piece: SMALLEST_PIECE,
            asked: 0,
            reads_on: false,
            replies: HeldReplies::new(),
        }
    }

    /// Tells the command of this ticket what came, where it awaits that. True where it does.
    pub(crate) fn hear(&mut self, ticket: Ticket, told: Told) -> bool
        ensures heard { Hears self.old.commands ticket told result self.new.commands }
        ensures kept { self.new ≡ record self.old { commands = self.new.commands } }
    {
        self.commands.hear(ticket, told)
    }

    /// Whether nothing is left to do for this client.
    pub(crate) fn is_done(&self) -> bool
        ensures { IsTrue result ↔ IsDone self.now }
    {
        self.is_served() || self.is_left()
    }

    pub(crate) fn into_port(self) -> C
        ensures { result ≡ self.port }
    {
        let ClientParts {
            port,
            session,
            commands,
            unpushed,
            ..
        } = self;
        drop(session);
        drop(commands);
        drop(unpushed);
        port
    }
}

impl<C: ClientPort + Drop> ClientParts<C> {
    ghost use Rattle.session_order.specs.HangingUp.{HangsUp};
    ghost use Rattle.proxy_turns.specs.ClientModel.{IsClientServed, IsLeft};
    ghost use Rattle.proxy_turns.specs.ClientRest.{FeedsNone, IfStill, IsAnswered, PullsNone, ReadsNone, WorksNone};
    ghost use Rattle.proxy_turns.specs.ClientTurn.{at, DoesWork, FeedsSession, PullsBytes, ReadsRequests};

    // Whether its session is finished and it has all its bytes.
    fn is_served(&self) -> bool
        ensures { IsTrue result ↔ IsClientServed self.now }
    {
        self.session.finished() && self.unpushed.is_empty()
    }

    // Whether it is gone, and no command of it is left.
    fn is_left(&self) -> bool
        ensures { IsTrue result ↔ IsLeft self.now }
    {
        self.gone && self.commands.is_empty()
    }

    /// Sends what was read before, so that nodes serve it meanwhile. Then takes in what the client asks for, sends it, and writes what
    /// is ready.
    pub(crate) fn work<J: Naming>(
        &mut self,
        uplink: &mut Uplink<J>,
        room: &mut SharedRoom,
    ) -> Result<bool, NoMemory>
        ensures works { DoesWork C.moves (at self.old uplink.old) result (at self.new uplink.new) }
        ensures none { IfStill result (WorksNone C.takes_none self.old self.new uplink.new.outlet) }
    {
        let sent = self.send(uplink, room.is_crowded())?;
        let worked = self.take_in(uplink, room)?;
        Ok(sent | worked)
    }

    fn take_in<J: Naming>(
        &mut self,
        uplink: &mut Uplink<J>,
        room: &mut SharedRoom,
    ) -> Result<bool, NoMemory>
        ensures works { DoesWork C.moves (at self.old uplink.old) result (at self.new uplink.new) }
        ensures none { IfStill result (WorksNone C.takes_none self.old self.new uplink.new.outlet) }
    {
        let fed = self.feed(&mut room.piece)?;
        let read = self.read_all()?;
        self.give_room(&mut room.piece);
        let sent = self.send(uplink, room.is_crowded())?;
        let written = self.write()?;
        Ok(fed | read | sent | written)
    }

    /// Whether too much was pulled and is unanswered, by the client or by all together.
    pub(crate) fn is_held_back(&self, is_crowded: bool) -> bool {
        self.asked >= MAX_ASKED || (is_crowded && self.asked > 0)
    }

    /// How many bytes are held for the client, or will be: what waits to be pushed or drained, and replies that are to come.
    pub(crate) fn held(&self) -> usize {
        self.unpushed.len().saturating_add(self.replies.held())
    }

    /// Whether a gate will have news of its port.
    pub(crate) fn is_watched(&self) -> bool {
        self.port.is_watched()
    }

    /// Forgets how much was pulled, where all is answered and no request may be left to read. True where the client was held back
    /// and is no longer.
    pub(crate) fn forget_asked(&mut self, was_held_back: bool, worked: bool) -> bool
        ensures same { self.new ≡ self.old }
        ensures again { result ≡ true → (was_held_back ≡ true) × IsAnswered self.old }
        ensures is_again { was_held_back ≡ true → worked ≡ false → IsAnswered self.old → result ≡ true }
    {
        if worked && self.reads_on {
            return false;
        }
        if !self.is_answered() {
            return false;
        }
        self.asked = 0;
        was_held_back
    }

    /// Whether it has all its bytes, and no command of it is left.
    pub(crate) fn is_answered(&self) -> bool
        ensures { IsTrue result ↔ IsAnswered self.now }
    {
        self.unpushed.is_empty() && self.commands.is_empty()
    }

    /// Whether nothing waits for a place in the lane or at the client.
    pub(crate) fn is_quiet(&self) -> bool
        ensures { IsTrue result → (self.now.unpushed ≡ []) × (self.now.commands.fresh ≡ []) }
    {
        self.unpushed.is_empty() && !self.commands.has_fresh()
    }

    /// Pulls bytes where none are waiting to be fed. One that is idle may be owed more only while a command is under way.
    pub(crate) fn pull(
        &mut self,
        piece: &mut Vec<u8>,
        is_held_back: bool,
        is_idle: bool,
    ) -> Result<bool, NoMemory>
        ensures pulls { PullsBytes C.moves self.old result self.new }
        ensures none { IfStill result (PullsNone C.gives_none is_held_back self.old self.new) }
    {
        if !self.may_pull(is_held_back) {
            return Ok(false);
        }
        self.port.owes(!is_idle || !self.commands.is_empty());
        match self.unfed.pull(&mut self.port, piece, self.piece)? {
            Flow::Bytes(count) => {
                self.piece = piece_after(self.piece, count);
                self.asked = self.asked.saturating_add(count);
                Ok(count > 0)
            }
            Flow::Nothing => Ok(false),
            Flow::Gone => {
                self.leave();
                Ok(true)
            }
        }
    }

    // The client is gone: nothing is fed or pushed any more, so its bytes and their buffers are let go, and its session hangs up.
    fn leave(&mut self)
        ensures hung_up { HangsUp self.old.session self.new.session }
        ensures kept { self.new ≡ record self.old { session = self.new.session; gone = true; unfed = []; unpushed = [] } }
    {
        self.gone = true;
        self.session.hang_up();
        self.unfed.let_go();
        self.unpushed.let_go();
    }

    // Whether the client is there, nothing that was pulled is left, and it is not held back.
    fn may_pull(&self, is_held_back: bool) -> bool
        ensures { IsTrue result ↔ (is_held_back ≡ false) × (self.now.gone ≡ false) × (self.now.unfed ≡ []) }
    {
        !is_held_back && !self.gone && self.unfed.is_empty()
    }

    // Feeds the session what was pulled.
    fn feed(&mut self, piece: &mut Vec<u8>) -> Result<bool, NoMemory>
        ensures feeds { FeedsSession C.moves self.old result self.new }
        ensures none { IfStill result (FeedsNone self.old self.new) }
    {
        if self.unfed.is_empty() {
            return Ok(false);
        }
        match self.unfed.feed(&mut self.session) {
            Ok(count) => {
                self.unfed.give_room(piece);
                Ok(count > 0)
            }
            Err(SessionFault::NoMemory) => Err(NoMemory),
            Err(SessionFault::Wire(_)) => Ok(false),
            Err(SessionFault::NotRequest) => Ok(false),
        }
    }

    // Reads requests while there are any.
    fn read_all(&mut self) -> Result<bool, NoMemory>
        ensures reads { ReadsRequests C.moves self.old result self.new }
        ensures none { IfStill result (ReadsNone self.old self.new) }
    {
        let first = self.read()?;
        if !first {
            return Ok(false);
        }
        for count in 1..MAX_READS {
            let read = self.read()?;
            if !read {
                note_read(&self.port, count);
                self.reads_on = false;
                return Ok(true);
            }
        }
        note_read(&self.port, MAX_READS);
        self.reads_on = true;
        Ok(true)
    }

    // Gives the room of the requests that were read back.
    fn give_room(&mut self, piece: &mut Vec<u8>)
        ensures { self.new ≡ self.old }
    {
        self.session.give_room(piece);
    }

    fn read(&mut self) -> Result<bool, NoMemory>
        ensures reads { ReadsRequests C.moves self.old result self.new }
        ensures none { IfStill result (ReadsNone self.old self.new) }
    {
        has_read(self.session.read(), &self.port)
    }
}
