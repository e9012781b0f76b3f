//! One client of a worker.

ghost use Rattle.std.specs.Prelude.{◌≡◌, ◌↔◌, IfOk, IsTrue, false, true};

use crate::client_parts::ClientParts;
use crate::port::ClientPort;
use crate::shared_room::SharedRoom;
use crate::turned::{Finish, NextStep, Settled, Turned};
use crate::uplink::Uplink;
use key_split::{Ticket, Told};
use proxy_lanes::Naming;
use resp_wire::{Limits, NoMemory};
use std::alloc::Global;
use std::marker::Model;
use std::mem;

/// One client of a worker.
#[derive(Drop)]
pub(crate) struct ClientState<C: ClientPort + Drop> {
    // Its turns move nothing until bytes are pulled or a command ends.
    is_idle: bool,
    parts: ClientParts<C>,
}

impl<C: ClientPort + Drop> Model for ClientState<C> {
    ghost use Rattle.std.specs.Coded.{codes};
    ghost use Rattle.std.specs.FinMap as map;
    ghost use Rattle.resp_wire.specs.Stored.{coded_data};
    ghost use Rattle.proxy_turns.specs.ClientModel.{ClientModel};
    ghost use Rattle.proxy_turns.specs.ClientState.{RestsBy};

    ghost Value = { ClientModel C };

    ghost coded = { Prim.hlevel (codes, coded_data, map.code) };

    ghost view = { λ c. c.parts };

    ghost invariant = { λ c. RestsBy c.is_idle c.parts };
}

impl<C: ClientPort + Drop> ClientState<C> {
    ghost use Rattle.command_future.specs.CommandModel.{CommandModel};
    ghost use Rattle.proxy_turns.specs.Commands.{Hears};
    ghost use Rattle.proxy_turns.specs.DueCommands.{IsSettled, IsToSettle, NextStepOf};
    ghost use Rattle.proxy_turns.specs.ClientModel.{IsDone, new_client};
    ghost use Rattle.proxy_turns.specs.ClientRest.{HasNoneToPull, IfStill, IfTurnedStill, IsAsleep, IsClientAtRest};
    ghost use Rattle.proxy_turns.specs.ClientTurn.{at, ClientTurns, FinishOutcome, SettleOutcome, TurnOutcome};
    ghost use Rattle.proxy_turns.specs.WorkerDrain.{stopped};

    pub(crate) fn new(
        alloc: Global,
        worker: u16,
        number: u32,
        limits: Limits,
        port: C,
    ) -> ClientState<C>
        ensures { result ≡ new_client worker number limits port }
    {
        ClientState {
            is_idle: false,
            parts: ClientParts::new(alloc, worker, number, limits, port),
        }
    }

    /// What a worker does for this client in a turn, beside what became of its commands.
    pub(crate) fn turn<J: Naming>(
        &mut self,
        uplink: &mut Uplink<J>,
        room: &mut SharedRoom,
    ) -> Result<Turned, NoMemory>
        ensures turns { TurnOutcome C.moves (at self.old uplink.old) result (at self.new uplink.new) }
        ensures rests { IfTurnedStill result (IsClientAtRest C.gives_none C.takes_none self.new uplink.new.outlet) }
        ensures sleeps { IfOk result (λ turned. turned.asleep ≡ true → IsAsleep C.gives_none self.new) }
    {
        let moved = self.pull_and_work(uplink, room)?;
        let done = self.is_done();
        let asleep = self.falls_asleep(moved, done);
        Ok(Turned {
            moved,
            done,
            asleep,
        })
    }

    // Whether it sleeps after a turn: one that moved nothing, of a client that is idle and not done, where all is answered and its
    // port is watched.
    fn falls_asleep(&self, moved: bool, done: bool) -> bool
        requires pulled { moved ≡ false → HasNoneToPull C.gives_none self.now }
        requires undone { done ≡ false → IsDone self.now → ⊥ }
        ensures { result ≡ true → IsAsleep C.gives_none self.now }
    {
        if moved || done || !self.is_idle {
            return false;
        }
        self.parts.is_answered() && self.parts.is_watched()
    }

    // Pulls bytes, and does what there is to do. Of an idle client nothing more is asked where none came.
    fn pull_and_work<J: Naming>(
        &mut self,
        uplink: &mut Uplink<J>,
        room: &mut SharedRoom,
    ) -> Result<bool, NoMemory>
        ensures turns { ClientTurns C.moves (at self.old uplink.old) result (at self.new uplink.new) }
        ensures rests { IfStill result (IsClientAtRest C.gives_none C.takes_none self.new uplink.new.outlet) }
    {
        let was_idle = mem::replace(&mut self.is_idle, false);
        room.count(self.parts.held());
        let is_held_back = self.parts.is_held_back(room.is_crowded());
        let pulled = self.parts.pull(&mut room.piece, is_held_back, was_idle)?;
        if stays_idle(was_idle, is_held_back, pulled) {
            self.is_idle = true;
            return Ok(false);
        }
        let worked = self.parts.work(uplink, room)?;
        let is_asked_again = self.parts.forget_asked(is_held_back, worked);
        let more = self.parts.pull(&mut room.piece, !is_asked_again, false)?;
        let moved = pulled | worked | more;
        self.is_idle = becomes_idle(moved, self.parts.is_quiet());
        Ok(moved)
    }

    /// Ends the command for the part of this number, where it has an end.
    pub(crate) fn finish(&mut self, number: u64) -> Result<Finish, NoMemory>
        ensures { FinishOutcome C.moves self.old number result self.new }
    {
        self.is_idle = false;
        self.parts.finish(number)
    }

    /// Posts the command for the part of this number again, where it wants that and its turn has come.
    pub(crate) fn repost<J: Naming>(
        &mut self,
        number: u64,
        uplink: &mut Uplink<J>,
    ) -> Result<Settled, NoMemory>
        ensures settles { SettleOutcome C.moves (at self.old uplink.old) result (at self.new uplink.new) }
        ensures settled { IsSettled result (IsToSettle self.new number) uplink.new.outlet }
    {
        self.is_idle = false;
        self.parts.repost(number, uplink)
    }

    /// Tells the command of this ticket what came, where it awaits that. True where it does.
    pub(crate) fn hear(&mut self, ticket: Ticket, told: Told) -> bool
        ensures heard { Hears self.old.commands ticket told result self.new.commands }
        ensures kept { self.new ≡ record self.old { commands = self.new.commands } }
    {
        self.is_idle = false;
        self.parts.hear(ticket, told)
    }

    /// What the command for the part of this number has to do.
    pub(crate) fn next_step(&self, number: u64) -> NextStep
        ensures { (c : CommandModel) → IsToSettle self.now number c → NextStepOf result c }
    {
        self.parts.next_step(number)
    }

    /// Whether nothing is left to do for this client.
    pub(crate) fn is_done(&self) -> bool
        ensures { IsTrue result ↔ IsDone self.now }
    {
        self.parts.is_done()
    }

    /// Reads no further request of the client. What was read is answered.
    pub(crate) fn stop_reading(&mut self)
        ensures { self.new ≡ stopped self.old }
    {
        self.is_idle = false;
        self.parts.stop_reading();
    }

    pub(crate) fn into_port(self) -> C
        ensures { result ≡ self.port }
    {
        let ClientState { is_idle: _, parts } = self;
        parts.into_port()
    }
}

// Whether a client that was idle goes on to be. One that is held back is looked at again.
fn stays_idle(was_idle: bool, is_held_back: bool, pulled: bool) -> bool
    ensures { IsTrue result → (was_idle ≡ true) × (is_held_back ≡ false) × (pulled ≡ false) }
{
    was_idle && !is_held_back && !pulled
}

fn becomes_idle(moved: bool, is_quiet: bool) -> bool
    ensures { IsTrue result → (moved ≡ false) × (is_quiet ≡ true) }
{
    !moved && is_quiet
}
