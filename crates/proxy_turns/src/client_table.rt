//! The clients of a worker by their numbers.

ghost use Rattle.std.specs.Prelude.{◌≡◌, ◌<◌, ◌≤◌, ◌+◌, ◌^◌, ◌↔◌, [], ℕ, IsTrue, IfOk, IfSome, MatchOption, OnOk, Ok, None, Some, All, length, false};
ghost use Rattle.std.specs.FinMap.{get, insert};
ghost use Rattle.proxy_turns.specs.ClientTurn.{SettleOutcome, TurnOutcome};
ghost use Rattle.command_future.specs.CommandModel.{CommandModel};
ghost use Rattle.proxy_turns.specs.DueCommands.{IsSettled, IsToSettleAt, NextStepOf};
ghost use Rattle.proxy_turns.specs.ClientTable.{AtClient, AtPlace, ClientFinishes, HasPlace, IsDoneAt, IsTurnedAt, LeavesAt, TakesAny};
ghost use Rattle.proxy_turns.specs.WorkerModel.{Tells, clients_in};
ghost use Rattle.proxy_turns.specs.WorkerDrain.{AreStopped, StopsAt};

use crate::client_state::ClientState;
use crate::port::ClientPort;
use crate::shared_room::SharedRoom;
use crate::sleepers::Sleepers;
use crate::turned::{Finish, NextStep, Settled, Turned};
use crate::uplink::Uplink;
use indexmap::IndexMap;
use key_split::{Ticket, Told};
use proxy_lanes::Naming;
use resp_wire::NoMemory;
use std::alloc::{AllocFailed, Global};
use std::marker::Model;

/// The clients of a worker, by their numbers, in the order of their turns, and which of them sleep.
#[derive(Drop)]
pub(crate) struct ClientTable<C: ClientPort + Drop> {
    by_number: IndexMap<u32, ClientState<C>>,
    sleepers: Sleepers,
}

impl<C: ClientPort + Drop> Model for ClientTable<C> {
    ghost use Rattle.std.specs.Coded.{codes};
    ghost use Rattle.std.specs.FinMap as map;
    ghost use Rattle.std.specs.HashMap.{spare};
    ghost use Rattle.resp_wire.specs.Stored.{coded_data};
    ghost use Rattle.proxy_turns.specs.ClientTable.{ClientTableModel};
    ghost use Rattle.proxy_turns.specs.Sleepers.{AreAsleep};

    ghost Value = { ClientTableModel C };

    ghost coded = { Prim.hlevel (codes, coded_data, map.code) };

    ghost view = { λ table. record { entries = table.by_number.entries; marks = table.sleepers.marks.items; spare = spare table.by_number } };

    ghost invariant = { λ table. AreAsleep C.gives_none table.sleepers.marks.items table.by_number.entries };
}

impl<C: ClientPort + Drop> ClientTable<C> {
    ghost use Rattle.proxy_turns.specs.Sleepers.{IsAsleepAt, IsMarked};
    ghost use Rattle.proxy_turns.specs.Awake.{IsAwake};

    pub(crate) fn new(alloc: Global) -> ClientTable<C>
        ensures { result.entries ≡ [] }
    {
        ClientTable {
            by_number: IndexMap::new(alloc),
            sleepers: Sleepers::new(alloc),
        }
    }

    pub(crate) fn len(&self) -> usize
        ensures len { result ≡ length self.now.entries }
        ensures small { result < 2 ^ 63 }
    {
        self.by_number.len()
    }

    pub(crate) fn is_empty(&self) -> bool
        ensures { IsTrue result ↔ (length self.now.entries ≡ 0) }
    {
        self.by_number.is_empty()
    }

    /// Whether a client has this number.
    pub(crate) fn has(&self, number: u32) -> bool
        ensures { result ≡ false ↔ (get (clients_in self.now.entries) number ≡ None) }
    {
        self.by_number.contains_key(&number)
    }

    /// Makes room for one more client.
    pub(crate) fn make_room(&mut self) -> Result<(), NoMemory>
        ensures entries { self.new.entries ≡ self.old.entries }
        ensures room { OnOk result (0 < self.new.spare) }
    {
        self.by_number.reserve(1)?;
        self.sleepers.make_room(self.by_number.len() + 1)
    }

    /// Puts the client under its number, which none has. There is room.
    pub(crate) fn put(&mut self, number: u32, client: ClientState<C>)
        requires room { 0 < self.old.spare }
        requires new { get (clients_in self.old.entries) number ≡ None }
        ensures puts { clients_in self.new.entries ≡ insert (clients_in self.old.entries) number client }
        ensures len { length self.new.entries ≤ length self.old.entries + 1 }
    {
        let put: Result<Option<ClientState<C>>, AllocFailed<(u32, ClientState<C>)>> = self
            .by_number
            .insert(number, client);
        drop(put.unwrap());
    }

    /// Tells the command of this ticket what came, where one awaits that. True where one does.
    pub(crate) fn tell(&mut self, ticket: Ticket, told: Told) -> bool
        ensures tells { Tells (clients_in self.old.entries) ticket told result (clients_in self.new.entries) }
        ensures len { length self.new.entries ≡ length self.old.entries }
    {
        let Some(place) = self.place_of(ticket.client) else {
            drop(told);
            return false;
        };
        self.sleepers.wake(place);
        let Some(client) = self.by_number.get_index_mut(place) else {
            drop(told);
            return false;
        };
        client.hear(ticket, told)
    }

    /// Gives the client at this place its turn.
    pub(crate) fn turn_at<J: Naming>(
        &mut self,
        place: usize,
        uplink: &mut Uplink<J>,
        room: &mut SharedRoom,
    ) -> Result<Turned, NoMemory>
        ensures serves { AtPlace self.old.entries place (record { clients = clients_in self.old.entries; outlet = uplink.old.outlet; view = uplink.old.view })
            (λ old new. TurnOutcome C.moves old result new) (result ≡ Ok (record { moved = false; done = false; asleep = false }))
            (record { clients = clients_in self.new.entries; outlet = uplink.new.outlet; view = uplink.new.view }) }
        ensures turned { IfOk result (λ turned. IsTurnedAt C.gives_none C.takes_none self.old.entries place turned uplink.new.outlet self.new.entries) }
        ensures len { length self.new.entries ≡ length self.old.entries }
    {
        self.sleepers.wake(place);
        let Some(client) = self.by_number.get_index_mut(place) else {
            return Ok(Turned::still());
        };
        let turned = client.turn(uplink, room)?;
        self.sleepers.note(place, turned.asleep);
        Ok(turned)
    }

    /// Ends the command of this ticket, where it has an end.
    pub(crate) fn finish(&mut self, ticket: Ticket) -> Result<Finish, NoMemory>
        ensures finishes { ClientFinishes C.moves (clients_in self.old.entries) ticket result (clients_in self.new.entries) }
        ensures len { length self.new.entries ≡ length self.old.entries }
    {
        let Some(place) = self.place_of(ticket.client) else {
            return Ok(Finish::Open);
        };
        self.sleepers.wake(place);
        let Some(client) = self.by_number.get_index_mut(place) else {
            return Ok(Finish::Open);
        };
        client.finish(ticket.part)
    }

    /// Posts the command of this ticket again, where it wants that and its turn has come.
    pub(crate) fn repost<J: Naming>(
        &mut self,
        ticket: Ticket,
        uplink: &mut Uplink<J>,
    ) -> Result<Settled, NoMemory>
        ensures settles { AtClient (record { clients = clients_in self.old.entries; outlet = uplink.old.outlet; view = uplink.old.view }) ticket.client
            (λ old new. SettleOutcome C.moves old result new) (result ≡ Ok Settled.Nothing)
            (record { clients = clients_in self.new.entries; outlet = uplink.new.outlet; view = uplink.new.view }) }
        ensures settled { IsSettled result (IsToSettleAt (clients_in self.new.entries) ticket.client ticket.part) uplink.new.outlet }
        ensures len { length self.new.entries ≡ length self.old.entries }
    {
        let Some(place) = self.place_of(ticket.client) else {
            return Ok(Settled::Nothing);
        };
        self.sleepers.wake(place);
        let Some(client) = self.by_number.get_index_mut(place) else {
            return Ok(Settled::Nothing);
        };
        client.repost(ticket.part, uplink)
    }

    // Where the client of this number stands.
    fn place_of(&self, number: u32) -> Option<usize>
        ensures { HasPlace self.now.entries number result }
    {
        self.by_number.get_index_of(&number)
    }

    /// The clients of these numbers, where there are such, have turns again.
    pub(crate) fn wake_each(&mut self, numbers: &[u32])
        ensures entries { self.new.entries ≡ self.old.entries }
        ensures woken { All (IsAwake self.new.entries self.new.marks) numbers.now }
    {
        let mut rest = numbers;
        while let [number, later @ ..] = rest {
            self.wake(*number);
            rest = later;
        }
    }

    // The client of this number, where there is one, has turns again.
    fn wake(&mut self, number: u32)
        ensures entries { self.new.entries ≡ self.old.entries }
        ensures woken { IsAwake self.new.entries self.new.marks number }
        ensures others { (place : ℕ) → IsMarked self.new.marks place → IsMarked self.old.marks place }
    {
        if let Some(place) = self.place_of(number) {
            self.sleepers.wake(place);
        }
    }

    /// The place of the first client that has turns, at or behind one place and before another.
    pub(crate) fn next_awake(&self, from: usize, end: usize) -> Option<usize>
        ensures some { IfSome result (λ place. (from ≤ place) × (place < end)) }
        ensures asleep { (place : ℕ) → from ≤ place → MatchOption result (place < end) (λ next. place < next) → IsAsleepAt C.gives_none self.now.entries place }
    {
        self.sleepers.next_awake(from, end)
    }

    /// What the command of this ticket has to do.
    pub(crate) fn next_step(&self, ticket: Ticket) -> NextStep
        ensures { (c : CommandModel) → IsToSettleAt (clients_in self.now.entries) ticket.client ticket.part c → NextStepOf result c }
    {
        match self.by_number.get(&ticket.client) {
            Some(client) => client.next_step(ticket.part),
            None => NextStep::Rest,
        }
    }

    /// Takes off the client at this place, where nothing is left to do for it. The last one takes its place.
    pub(crate) fn take_done(&mut self, place: usize) -> Option<C>
        ensures leaves { LeavesAt self.old.entries place result (clients_in self.new.entries) }
        ensures len { MatchOption result (length self.new.entries ≡ length self.old.entries) (λ _. length self.new.entries + 1 ≡ length self.old.entries) }
    {
        if !self.is_done(place) {
            return None;
        }
        self.sleepers.wake(place);
        self.sleepers.wake(self.by_number.len() - 1);
        let (_, client) = self.by_number.swap_remove_index(place)?;
        Some(client.into_port())
    }

    fn is_done(&self, place: usize) -> bool
        ensures { IsTrue result ↔ IsDoneAt self.now.entries place }
    {
        match self.by_number.get_index(place) {
            Some((_, client)) => client.is_done(),
            None => false,
        }
    }

    /// Takes off one of the clients, where there is one.
    pub(crate) fn take_any(&mut self) -> Option<C>
        ensures takes { TakesAny (clients_in self.old.entries) result (clients_in self.new.entries) }
        ensures len { IfSome result (λ _. length self.new.entries + 1 ≡ length self.old.entries) }
    {
        self.sleepers.wake_all();
        let number = first_number(&self.by_number)?;
        let client = self.by_number.swap_remove(&number)?;
        Some(client.into_port())
    }

    /// Reads no further request of any client.
    pub(crate) fn stop_all(&mut self)
        ensures stopped { AreStopped (clients_in self.old.entries) (clients_in self.new.entries) }
        ensures len { length self.new.entries ≡ length self.old.entries }
    {
        let count = self.len();
        for place in 0..count {
            self.stop_at(place);
        }
    }

    // Reads no further request of the client at this place.
    fn stop_at(&mut self, place: usize)
        ensures { StopsAt self.old.entries place self.new.entries }
    {
        self.sleepers.wake(place);
        let Some(client) = self.by_number.get_index_mut(place) else {
            return;
        };
        client.stop_reading();
    }
}

// The number of one of them.
fn first_number<C: ClientPort + Drop>(clients: &IndexMap<u32, ClientState<C>>) -> Option<u32>
    ensures { MatchOption result (clients.now.entries ≡ []) (λ number. (client : _) × (get (clients_in clients.now.entries) number ≡ Some client)) }
{
    clients.keys().next().copied()
}
