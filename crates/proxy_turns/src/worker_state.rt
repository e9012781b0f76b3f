//! The clients of a worker, between them and the carrier the lanes.

ghost use Rattle.std.specs.Prelude.{◌≡◌, ◌≢◌, ◌⊎◌, ◌<◌, ◌≤◌, ◌+◌, ◌∷◌, [], ℕ, List, drop, IfOk, IfSome, IsTrue, MatchBool, ◌↔◌, OnOk, Ok, Some, length, true, vec_capacity};
ghost use Rattle.std.specs.BinaryHeap.{heap_items};
ghost use Rattle.proxy_turns.specs.WorkerModel.{AdmitsClients, AreAllServed, Learns, RemovesClient, ServesClients, SettlesDue, TakesTold, TurnsClient, WorkerTurns, clients_in};
ghost use Rattle.proxy_turns.specs.Awake.{AreWoken};
ghost use Rattle.proxy_turns.specs.ClientRest.{HasNoPlace, IfStill};
ghost use Rattle.command_future.specs.CommandModel.{CommandModel, WantsPost};
ghost use Rattle.proxy_turns.specs.Pause.{pause_at};
ghost use Rattle.proxy_turns.specs.DueCommands.{AreNoted, AreSettled, HasRoom, IsSettled, IsToSettleAt, KeepsNoted, NotesPause, is_noted};
ghost use Rattle.proxy_turns.specs.WorkerRest.{AreClientsAtRest, ArePostedAtRest, HasNoNewcomer, HasNothingToTell};
ghost use Rattle.proxy_turns.specs.Arrivals.{settled_in, turned_in};
ghost use Rattle.proxy_turns.specs.Waiting.{AreAllLater, IsFirstDue};
ghost use mathlib.Core.List.{IsPrefix};
ghost use Rattle.proxy_lanes.specs.Carrier.{lanes_of};
ghost use Rattle.proxy_turns.specs.Beside.{HasLanes, IsLeft, LookOutcome};
ghost use Rattle.proxy_turns.specs.WorkerDrain.{Drains};

use crate::client_state::ClientState;
use crate::client_table::ClientTable;
use crate::due_commands::DueCommands;
use crate::gate::Gate;
use crate::kept_ports::{closed, give_back, keep_port};
use crate::newcomer::{
    Newcomer, Seat, are_to_come, is_none_to_come, make_room, one_fewer, put_new,
};
use crate::port::ClientPort;
use crate::round::Round;
use crate::shared_room::SharedRoom;
use crate::turned::{Finish, NextStep, Settled, Turned};
use crate::uplink::Uplink;
use crate::worker_end::{WorkerEnd, WorkerOutcome};
use key_split::{Ticket, Told};
use proxy_lanes::{
    CarrierEnds, Front, Inlet, LANE_PLACES, LeftInLanes, MapView, Naming, Newcomers, WorkerEnds,
};
use resp_wire::{Limits, NoMemory};
use std::alloc::Global;
use std::mem;

/// The clients of a worker with its ends of the lanes.
#[derive(Drop)]
pub(crate) struct WorkerState<C: ClientPort + Drop, J: Naming> {
    alloc: Global,
    pub(crate) worker: u16,
    // How many workers there are.
    workers: u16,
    clients: ClientTable<C>,
    // The number of the last client that came.
    newest: Option<u32>,
    newcomers: Newcomers<Newcomer<C, J>>,
    // How many are still to come; `None` without end.
    left: Option<u32>,
    uplink: Uplink<J>,
    inlet: Inlet<(Ticket, Told)>,
    /// How many parts have ended.
    pub(crate) answered: u64,
    // The ports of the clients that were let go, where they are kept.
    ports: Vec<C>,
    // The parts whose commands have ended or are to be posted again.
    due: DueCommands,
    room: SharedRoom,
    round: Round,
    // The numbers of the clients of whom there was news, in this turn or the last.
    news: Vec<u32>,
    ghost ports_fit: { length ports.items + length clients.entries ≤ vec_capacity ports },
    ghost due_known: { AreNoted (clients_in clients.entries) due },
}

impl<C: ClientPort + Drop, J: Naming> WorkerState<C, J> {
    ghost use Rattle.proxy_turns.specs.WorkerState.{state_model};
    ghost use Rattle.proxy_turns.specs.Worker.{HandsBack, new_worker};

    pub(crate) fn new(
        alloc: Global,
        ends: WorkerEnds<Newcomer<C, J>, J>,
        left: Option<u32>,
    ) -> WorkerState<C, J>
        ensures { state_model result ≡ new_worker ends left }
    {
        let WorkerEnds {
            worker,
            workers,
            outlet,
            inlet,
            newcomers,
            view,
        } = ends;
        WorkerState {
            alloc,
            worker,
            workers,
            clients: ClientTable::new(alloc),
            newest: None,
            newcomers,
            left,
            uplink: Uplink { outlet, view },
            inlet,
            answered: 0,
            ports: Vec::new(alloc),
            due: DueCommands::new(alloc, worker),
            room: SharedRoom::new(alloc),
            round: Round::new(),
            news: Vec::new(alloc),
        }
    }

    /// Takes new clients, tells the commands what came, gives each client its turn, and lets go those that are done.
    pub(crate) fn turn<G: Gate>(&mut self, gate: &G) -> Result<bool, NoMemory>
        ensures turns { WorkerTurns C.moves (state_model self.old) result (state_model self.new) }
        ensures no_newcomer { IfStill result (HasNoNewcomer (state_model self.new)) }
        ensures nothing_to_tell { IfStill result (HasNothingToTell (state_model self.new)) }
        ensures clients_rest { IfStill result (AreClientsAtRest C.gives_none C.takes_none (state_model self.new)) }
        ensures posted_rest { IfStill result (ArePostedAtRest (state_model self.new)) }
        ensures pauses { IfStill result (AreAllLater (G.tells gate.now) (heap_items self.new.due.paused)) }
        ensures asked { OnOk result ((numbers : List ℕ) × G.names gate.now numbers) }
    {
        let came = self.admit_all()?;
        let told = self.take_told(gate)?;
        let settled = self.settle_due(gate)?;
        let served = self.serve_clients(gate)?;
        Ok(came | told | settled | served)
    }

    /// Takes no further client, and reads no further request of those that it has.
    pub(crate) fn drain(&mut self)
        ensures drains { Drains (state_model self.old) (state_model self.new) }
        ensures due { self.new.due ≡ self.old.due }
    {
        self.left = Some(0);
        self.clients.stop_all();
    }

    /// Whether all clients that were to come came, and none is left.
    pub(crate) fn is_served(&self) -> bool
        ensures { IsTrue result ↔ AreAllServed (state_model self.now) }
    {
        is_none_to_come(self.left) && self.clients.is_empty()
    }

    /// When the first of the commands that wait is due.
    pub(crate) fn next_due(&self) -> Option<u64>
        ensures { IsFirstDue (heap_items self.now.due.paused) result }
    {
        self.due.next_due()
    }

    /// Looks at the carrier's ends of its lanes. Whether something is left there that one of them is to take, or no place was
    /// known to be free.
    pub(crate) fn look_beside<M: Drop>(&mut self, ends: &mut CarrierEnds<Newcomer<C, J>, M>) -> bool
        requires { HasLanes (state_model self.old) (lanes_of ends.old) }
        ensures looks { LookOutcome (state_model self.old) (lanes_of ends.old) result (state_model self.new) (lanes_of ends.new) }
        ensures map { ends.new.map ≡ ends.old.map }
        ensures due { self.new.due ≡ self.old.due }
    {
        let places = ends.have_places(self.worker, &self.uplink.outlet);
        let counts = ends.look_beside(
            self.worker,
            &mut self.uplink.outlet,
            &mut self.inlet,
            &mut self.newcomers,
        );
        !places | is_left(counts, self.left)
    }

    /// Whether the front has all that the view knows. If not, the view knows more than it.
    pub(crate) fn is_known_in(&self, front: &Front<J>) -> bool
        ensures { MatchBool result (IsPrefix (state_model self.now).view.known front.now)
            (IsPrefix front.now (state_model self.now).view.known × (length (state_model self.now).view.known ≢ length front.now)) }
    {
        self.uplink.view.is_in(front)
    }

    /// How many runs were posted.
    pub(crate) fn posted(&self) -> u64 {
        self.uplink.outlet.posted()
    }

    /// Gives all ports back.
    pub(crate) fn end(&mut self, outcome: WorkerOutcome) -> WorkerEnd<C>
        ensures outcome { result.outcome ≡ outcome }
        ensures back { HandsBack (state_model self.old) result }
    {
        let clients = mem::replace(&mut self.clients, ClientTable::new(self.alloc));
        let ports = mem::replace(&mut self.ports, Vec::new(self.alloc));
        WorkerEnd {
            worker: self.worker,
            ports: give_back(clients, ports),
            outcome,
        }
    }
}

impl<C: ClientPort + Drop, J: Naming> WorkerState<C, J> {
    ghost use Rattle.proxy_turns.specs.WorkerState.{state_model};
    ghost use Rattle.proxy_turns.specs.ClientTable.{IsDoneAt, IsStillAt, IsTurnedAt, RestBetween};

    // Takes the clients that are handed over, while any are to come.
    fn admit_all(&mut self) -> Result<bool, NoMemory>
        ensures admits { AdmitsClients C.moves (state_model self.old) result (state_model self.new) }
        ensures none { IfStill result (HasNoNewcomer (state_model self.new)) }
    {
        for came in 0..LANE_PLACES {
            let moved = self.admit()?;
            if !moved {
                return Ok(came > 0);
            }
        }
        Ok(true)
    }

    // Takes the next new client, where there is one and any are to come.
    fn admit(&mut self) -> Result<bool, NoMemory>
        ensures admits { AdmitsClients C.moves (state_model self.old) result (state_model self.new) }
        ensures none { IfStill result (HasNoNewcomer (state_model self.new)) }
    {
        if !are_to_come(self.left) {
            return Ok(false);
        }
        make_room(&mut self.clients, &mut self.ports)?;
        let Some(newcomer) = self.newcomers.take() else {
            return Ok(false);
        };
        let Newcomer {
            number,
            port,
            front,
        } = newcomer;
        learn(&mut self.uplink.view, front);
        let client = ClientState::new(self.alloc, self.worker, number, Limits::full(), port);
        let seat = Seat {
            worker: self.worker,
            workers: self.workers,
        };
        put_new(
            &mut self.clients,
            &mut self.ports,
            &mut self.newest,
            self.left,
            seat,
            number,
            client,
        );
        self.left = one_fewer(self.left);
        Ok(true)
    }

    // Takes what came down the lane, and tells it.
    fn take_told<G: Gate>(&mut self, gate: &G) -> Result<bool, NoMemory>
        ensures takes { TakesTold C.moves (state_model self.old) result (state_model self.new) }
        ensures none { IfStill result (HasNothingToTell (state_model self.new)) }
    {
        for told in 0..LANE_PLACES {
            let moved = self.take_one(gate)?;
            if !moved {
                return Ok(told > 0);
            }
        }
        Ok(true)
    }

    fn take_one<G: Gate>(&mut self, gate: &G) -> Result<bool, NoMemory>
        ensures takes { TakesTold C.moves (state_model self.old) result (state_model self.new) }
        ensures none { IfStill result (HasNothingToTell (state_model self.new)) }
    {
        self.due.reserve_one()?;
        let Some((ticket, told)) = self.inlet.take() else {
            return Ok(false);
        };
        if !self.clients.tell(ticket, told) {
            return Ok(true);
        }
        note_step(&self.clients, &mut self.due, ticket, gate);
        Ok(true)
    }

    // Ends the commands that have ended, and posts those again that are due by now, while the lane takes them.
    fn settle_due<G: Gate>(&mut self, gate: &G) -> Result<bool, NoMemory>
        ensures settles { SettlesDue C.moves (state_model self.old) result (state_model self.new) }
        ensures rest { OnOk result (AreSettled (clients_in self.new.clients.entries) self.new.uplink.outlet) }
        ensures pauses { IfStill result (AreAllLater (G.tells gate.now) (heap_items self.new.due.paused)) }
    {
        self.due.end_pauses(gate)?;
        let ended = self.end_all(gate)?;
        let posted = self.post_due()?;
        Ok(ended | posted)
    }

    // Ends the commands that have ended.
    fn end_all<G: Gate>(&mut self, gate: &G) -> Result<bool, NoMemory>
        ensures settles { SettlesDue C.moves (state_model self.old) result (state_model self.new) }
        ensures none { OnOk result (self.new.due.ended.items ≡ []) }
        ensures paused { IfStill result (heap_items self.new.due.paused ≡ heap_items self.old.due.paused) }
    {
        let mut moved = false;
        while let Some(ticket) = self.due.first_ended() {
            moved |= self.end_one(ticket, gate)?;
        }
        Ok(moved)
    }

    // Ends the command of this ticket, the oldest of those that have ended. What comes next for its slot is noted.
    fn end_one<G: Gate>(&mut self, ticket: Ticket, gate: &G) -> Result<bool, NoMemory>
        requires { (rest : List Ticket) × (self.old.due.ended.items ≡ ticket ∷ rest) }
        ensures settles { SettlesDue C.moves (state_model self.old) result (state_model self.new) }
        ensures ended { OnOk result (self.new.due.ended.items ≡ drop 1 self.old.due.ended.items) }
        ensures paused { IfStill result (heap_items self.new.due.paused ≡ heap_items self.old.due.paused) }
    {
        self.due.reserve_one()?;
        match self.clients.finish(ticket)? {
            Finish::Open => {
                self.due.drop_ended();
                Ok(false)
            }
            Finish::Ended(next) => {
                self.answered = self.answered.saturating_add(1);
                note_next(&self.clients, &mut self.due, ticket.client, next, gate);
                self.due.drop_ended();
                Ok(true)
            }
        }
    }

    // Posts those again that are due, while the lane takes them.
    fn post_due(&mut self) -> Result<bool, NoMemory>
        ensures settles { SettlesDue C.moves (state_model self.old) result (state_model self.new) }
        ensures ended { self.new.due.ended ≡ self.old.due.ended }
        ensures paused { self.new.due.paused ≡ self.old.due.paused }
        ensures none { OnOk result ((self.new.due.due.items ≡ []) ⊎ HasNoPlace self.new.uplink.outlet) }
    {
        let mut moved = false;
        while let Some(ticket) = self.due.first_due() {
            let settled = self.post_one(ticket)?;
            moved |= settled.is_move();
            if settled.is_held() {
                return Ok(moved);
            }
            self.due.drop_due();
        }
        Ok(moved)
    }

    fn post_one(&mut self, ticket: Ticket) -> Result<Settled, NoMemory>
        ensures settles { SettlesDue C.moves (state_model self.old) (settled_in result) (state_model self.new) }
        ensures settled { IsSettled result (IsToSettleAt (clients_in self.new.clients.entries) ticket.client ticket.part) self.new.uplink.outlet }
        ensures due { self.new.due ≡ self.old.due }
    {
        self.clients.repost(ticket, &mut self.uplink)
    }

    // Gives each client that does not sleep its turn, and lets it go where it is done.
    fn serve_clients<G: Gate>(&mut self, gate: &G) -> Result<bool, NoMemory>
        ensures serves { ServesClients C.moves (state_model self.old) result (state_model self.new) }
        ensures rest { IfStill result (AreClientsAtRest C.gives_none C.takes_none (state_model self.new)) }
        ensures asked { OnOk result ((numbers : List ℕ) × G.names gate.now numbers) }
        ensures due { self.new.due ≡ self.old.due }
    {
        wake_those_with_news(&mut self.clients, &mut self.news, gate)?;
        self.serve_awake(gate)
    }

    // The same, behind the news: all of whom there was news are awake.
    fn serve_awake<G: Gate>(&mut self, gate: &G) -> Result<bool, NoMemory>
        requires woken { AreWoken self.old.clients.entries self.old.clients.marks (G.names gate.now) self.old.news.items }
        ensures serves { ServesClients C.moves (state_model self.old) result (state_model self.new) }
        ensures rest { IfStill result (AreClientsAtRest C.gives_none C.takes_none (state_model self.new)) }
        ensures due { self.new.due ≡ self.old.due }
    {
        self.room.begin_round(gate.most_held());
        let count = self.clients.len();
        let first = self.round.first(count);
        let behind = self.serve_between(first, count)?;
        let before = self.serve_between(0, first)?;
        Ok(behind | before)
    }

    // The same of the clients from one place on, and before another.
    fn serve_between(&mut self, from: usize, end: usize) -> Result<bool, NoMemory>
        ensures serves { ServesClients C.moves (state_model self.old) result (state_model self.new) }
        ensures rest { IfStill result (RestBetween C.gives_none C.takes_none from end self.old.clients.entries self.old.uplink.outlet self.new.clients.entries self.new.uplink.outlet) }
        ensures due { self.new.due ≡ self.old.due }
    {
        let mut moved = false;
        let mut next = from;
        while let Some(place) = self.clients.next_awake(next, end) {
            moved |= self.serve_client_at(place)?;
            next = place + 1;
        }
        Ok(moved)
    }

    // Gives the client at this place its turn, and lets it go where it is done.
    fn serve_client_at(&mut self, place: usize) -> Result<bool, NoMemory>
        ensures serves { ServesClients C.moves (state_model self.old) result (state_model self.new) }
        ensures rests { IfStill result (IsStillAt C.gives_none C.takes_none self.old.clients.entries place self.new.uplink.outlet self.new.clients.entries) }
        ensures due { self.new.due ≡ self.old.due }
    {
        let posted = self.uplink.outlet.posted();
        let turned = self.turn_client_at(place)?;
        self.round
            .had_turn(place, self.uplink.outlet.posted() > posted);
        if !turned.done {
            return Ok(turned.moved);
        }
        let left = self.remove_done(place);
        Ok(turned.moved | left)
    }

    fn turn_client_at(&mut self, place: usize) -> Result<Turned, NoMemory>
        ensures turns { TurnsClient C.moves (state_model self.old) (turned_in result) (state_model self.new) }
        ensures turned { IfOk result (λ turned. IsTurnedAt C.gives_none C.takes_none self.old.clients.entries place turned self.new.uplink.outlet self.new.clients.entries) }
        ensures len { length self.new.clients.entries ≡ length self.old.clients.entries }
        ensures due { self.new.due ≡ self.old.due }
    {
        self.clients
            .turn_at(place, &mut self.uplink, &mut self.room)
    }

    // Lets the client at this place go, where it is done. Its port is closed.
    fn remove_done(&mut self, place: usize) -> bool
        ensures removes { RemovesClient C.moves (state_model self.old) (Ok result) (state_model self.new) }
        ensures done { IsDoneAt self.old.clients.entries place → result ≡ true }
        ensures due { self.new.due ≡ self.old.due }
    {
        let Some(port) = self.clients.take_done(place) else {
            return false;
        };
        keep_port(&mut self.ports, self.left, closed(port));
        true
    }
}

// The clients of whom the gate has news have turns again.
fn wake_those_with_news<C: ClientPort + Drop, G: Gate>(
    clients: &mut ClientTable<C>,
    news: &mut Vec<u32>,
    gate: &G,
) -> Result<(), NoMemory>
    ensures entries { clients.new.entries ≡ clients.old.entries }
    ensures woken { OnOk result (AreWoken clients.new.entries clients.new.marks (G.names gate.now) news.new.items) }
{
    gate.take_news(news)?;
    clients.wake_each(news);
    Ok(())
}

// Whether something is left in the lanes that is to be taken.
fn is_left(counts: LeftInLanes, left: Option<u32>) -> bool
    ensures { IsTrue result ↔ IsLeft counts left }
{
    counts.up > 0 || counts.down > 0 || (are_to_come(left) && counts.door > 0)
}

// What was published is known to the view from now on, as far as the front goes.
fn learn<J: Naming>(view: &mut MapView<J>, front: Option<Front<J>>)
    ensures { Learns view.old front view.new }
{
    match front {
        Some(front) => view.learn(front),
        None => {}
    }
}

// Notes what the command of this ticket has to do. There is room.
fn note_step<C: ClientPort + Drop, G: Gate>(
    clients: &ClientTable<C>,
    due: &mut DueCommands,
    ticket: Ticket,
    gate: &G,
)
    requires { HasRoom due.old }
    ensures kept { KeepsNoted due.old due.new }
    ensures noted { (c : CommandModel) → IsToSettleAt (clients_in clients.now.entries) ticket.client ticket.part c
        → is_noted due.new ticket.client ticket.part (pause_at c.stage c.followed) ≡ true }
    ensures until { (c : CommandModel) → IsToSettleAt (clients_in clients.now.entries) ticket.client ticket.part c
        → NotesPause (G.tells gate.now) due.old ticket (pause_at c.stage c.followed) due.new }
{
    match clients.next_step(ticket) {
        NextStep::Rest => {}
        NextStep::End => due.note(ticket, None, gate),
        NextStep::Post(pause) => due.note(ticket, Some(pause), gate),
    }
}

// Notes that the command of this part of the client is to be posted again, where it is. There is room. One that has ended is noted
// already.
fn note_next<C: ClientPort + Drop, G: Gate>(
    clients: &ClientTable<C>,
    due: &mut DueCommands,
    client: u32,
    next: Option<Ticket>,
    gate: &G,
)
    requires { HasRoom due.old }
    ensures kept { KeepsNoted due.old due.new }
    ensures ended { due.new.ended ≡ due.old.ended }
    ensures noted { IfSome next (λ ticket. (c : CommandModel) → WantsPost c.stage → IsToSettleAt (clients_in clients.now.entries) client ticket.part c
        → is_noted due.new client ticket.part (pause_at c.stage c.followed) ≡ true) }
    ensures until { IfSome next (λ ticket. (c : CommandModel) → WantsPost c.stage → IsToSettleAt (clients_in clients.now.entries) client ticket.part c
        → NotesPause (G.tells gate.now) due.old (record ticket { client = client }) (pause_at c.stage c.followed) due.new) }
{
    let Some(Ticket { worker, part, .. }) = next else {
        return;
    };
    let ticket = Ticket {
        worker,
        client,
        part,
    };
    match clients.next_step(ticket) {
        NextStep::Post(pause) => due.note_refused(ticket, pause, gate),
        NextStep::End => {}
        NextStep::Rest => {}
    }
}
