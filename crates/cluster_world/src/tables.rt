//! The tables by which commands are found.

ghost use Rattle.std.specs.Prelude.{◌≡◌, ◌↔◌, ◌<◌, ◌^◌, ◌+◌, ◌==◌, ◌&&◌, cond, ℕ, length, slice_get, Some, IsTrue, OnOk};
ghost use Rattle.std.specs.HashMap.{spare};
ghost use Rattle.cluster_world.specs.Tables.{client_in, place_in, placed_in, turn_in, turn_key_of, HasRoom, Noted, NotedAnswered, NotedTold, SayNothing, SaySame};

use crate::rows::{Row, lengthen, pass, row_of};
use command_future::Command;
use key_split::Ticket;
use std::alloc::{AllocError, AllocFailed, Global};
use std::collections::HashMap;

/// A client's part by its number.
#[derive(Clone, Copy, PartialEq, Eq, Hash)]
pub(crate) struct PartKey {
    pub(crate) client: u32,
    pub(crate) part: u64,
}

/// A client's turn for a slot.
#[derive(Clone, Copy, PartialEq, Eq, Hash)]
pub(crate) struct TurnKey {
    pub(crate) client: u32,
    pub(crate) slot: u16,
}

/// What is looked up of commands.
#[derive(Drop)]
pub(crate) struct Tables {
    /// How many commands of its client for its slot stand before each.
    pub(crate) ranks: Vec<usize>,
    /// Where each client's parts stand.
    pub(crate) places: HashMap<PartKey, usize>,
    /// Each client's commands, the first of which are answered.
    pub(crate) clients: HashMap<u32, Row>,
    /// Each client's commands for a slot, the first of which have ended.
    pub(crate) turns: HashMap<TurnKey, Row>,
}

impl TurnKey {
    /// The turn of a command.
    pub(crate) fn of(command: &Command) -> TurnKey
        ensures { result ≡ turn_key_of command.now }
    {
        TurnKey {
            client: command.ticket().client,
            slot: command.slot().number(),
        }
    }
}

impl Tables {
    /// The tables of no commands.
    pub(crate) fn new(alloc: Global) -> Tables
        ensures { SayNothing result }
    {
        Tables {
            ranks: Vec::new(alloc),
            places: HashMap::new(alloc),
            clients: HashMap::new(alloc),
            turns: HashMap::new(alloc),
        }
    }

    /// Where the client's part of this number stands.
    pub(crate) fn place_at(&self, client: u32, part: u64) -> Option<usize>
        ensures { result ≡ place_in self.now client part }
    {
        self.places.get(&PartKey { client, part }).copied()
    }

    /// Makes room for one more command.
    pub(crate) fn make_room(&mut self) -> Result<(), AllocError>
        ensures same { SaySame self.old self.new }
        ensures room { OnOk result (HasRoom self.new) }
    {
        self.ranks.reserve(1)?;
        self.places.reserve(1)?;
        self.clients.reserve(1)?;
        self.turns.reserve(1)
    }

    /// Notes a command at its place, behind all others.
    pub(crate) fn note(&mut self, ticket: Ticket, turn: TurnKey, place: usize)
        requires room { HasRoom self.old }
        requires client { (client_in self.old ticket.client).count + 1 < 2 ^ 64 }
        requires turn { (turn_in self.old turn.client turn.slot).count + 1 < 2 ^ 64 }
        ensures { Noted ticket turn place self.old self.new }
    {
        let rank = lengthen(&mut self.turns, turn);
        lengthen(&mut self.clients, ticket.client);
        put_place(&mut self.places, ticket, place);
        self.ranks.push_reserved(rank);
    }

    /// Whether a command that stands at the place passes its turn on: it has ended, and is the first that was open.
    pub(crate) fn passes(&self, turn: TurnKey, place: usize, ended: bool) -> bool
        requires { place < length self.now.ranks.items }
        ensures { (rank : ℕ) → slice_get self.now.ranks.items place ≡ Some rank → (IsTrue result ↔ (IsTrue ended × (rank ≡ (turn_in self.now turn.client turn.slot).over))) }
    {
        ended && self.ranks[place] == row_of(&self.turns, &turn).over
    }

    /// The first open command of a turn was told what it awaited, and may have ended by it.
    pub(crate) fn note_told(&mut self, turn: TurnKey, ended: bool)
        requires { IsTrue ended → (turn_in self.old turn.client turn.slot).over < (turn_in self.old turn.client turn.slot).count }
        ensures { NotedTold turn ended self.old self.new }
    {
        if ended {
            pass(&mut self.turns, turn);
        }
    }

    /// The oldest unanswered command of a client was answered.
    pub(crate) fn note_answered(&mut self, client: u32)
        requires { (client_in self.old client).over < (client_in self.old client).count }
        ensures { NotedAnswered client self.old self.new }
    {
        pass(&mut self.clients, client);
    }
}

// Notes where a ticket's command stands.
fn put_place(places: &mut HashMap<PartKey, usize>, ticket: Ticket, place: usize)
    requires { 0 < spare places.old }
    ensures { (n part : ℕ) → placed_in places.new n part ≡ cond ((ticket.client == n) && (ticket.part == part)) (Some place) (placed_in places.old n part) }
{
    let key = PartKey {
        client: ticket.client,
        part: ticket.part,
    };
    let put: Result<Option<usize>, AllocFailed<(PartKey, usize)>> = places.insert(key, place);
    put.unwrap();
}
