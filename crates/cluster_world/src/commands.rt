//! The commands of a world, and the tables by which they are found.

ghost use Rattle.std.specs.Prelude.{◌≡◌, ◌↔◌, ◌<◌, ◌^◌, [], ◌∷◌, ◌++◌, false, length, slice_get, Some, IsTrue, OnOk, OnErr};
ghost use Rattle.command_future.specs.CommandModel.{fresh};
ghost use Rattle.command_future.specs.declared.command.Step.TheVariants.{Done};
ghost use Rattle.world_laws.specs.State.{awaiting, after_told};
ghost use Rattle.world_laws.specs.declared.state.Arrival.{Arrival};
ghost use Rattle.cluster_world.specs.Commands.{count_for, once_answered, place_for, turn_rank, unanswered_for, AreApart, AwaitsAt, Becomes, MayPostAt};
ghost use Rattle.cluster_world.specs.Posting.{way_for, ArePast};

use crate::rows::row_of;
use crate::tables::{Tables, TurnKey};
use command_future::{Command, Step};
use key_split::{Part, Ticket, Told};
use slot_map::NodeId;
use std::alloc::{AllocError, Global};
use std::marker::Model;
use world_laws::Arrival;

/// The commands in order of arrival. What an event asks of them is found without a look at the others.
#[derive(Drop)]
pub(crate) struct Commands {
    arrivals: Vec<Arrival>,
    tables: Tables,
}

impl Model for Commands {
    ghost use Rattle.std.specs.Prelude.{List};
    ghost use Rattle.resp_wire.specs.Stored.{coded_data};
    ghost use Rattle.resp_wire.specs.contracts.value.Value as value;
    ghost use Rattle.std.specs.Coded.{codes};
    ghost use Rattle.world_laws.specs.declared.state.Arrival.{Arrival};
    ghost use Rattle.cluster_world.specs.Commands.{Find};

    ghost Value = { List Arrival };

    ghost coded = { Prim.hlevel (codes, value.the_row.coded, coded_data) };

    ghost view = { λ c. c.arrivals.items };

    ghost invariant = { λ c. Find c.arrivals.items c.tables };
}

impl Commands {
    pub(crate) fn new(alloc: Global) -> Commands
        ensures { result ≡ [] }
    {
        Commands {
            arrivals: Vec::new(alloc),
            tables: Tables::new(alloc),
        }
    }

    /// All of them.
    pub(crate) fn as_slice(&self) -> &[Arrival]
        ensures { result.now ≡ self.now }
    {
        &self.arrivals
    }

    /// The command at a place.
    pub(crate) fn at(&self, place: usize) -> &Arrival
        requires { place < length self.now }
        ensures { slice_get self.now place ≡ Some result.now }
    {
        &self.arrivals[place]
    }

    /// The place of a ticket's command.
    pub(crate) fn place_of(&self, ticket: Ticket) -> Option<usize>
        ensures { result ≡ place_for self.now ticket }
    {
        let place = self.tables.place_at(ticket.client, ticket.part)?;
        if ticket == self.arrivals[place].command.ticket() {
            Some(place)
        } else {
            None
        }
    }

    /// How many commands of the client there are.
    pub(crate) fn count_of(&self, client: u32) -> usize
        ensures { result ≡ count_for self.now client }
    {
        row_of(&self.tables.clients, &client).count
    }

    /// The place of the client's oldest unanswered command.
    pub(crate) fn first_unanswered(&self, client: u32) -> Option<usize>
        ensures { result ≡ unanswered_for self.now client }
    {
        let row = row_of(&self.tables.clients, &client);
        self.tables.place_at(client, row.over as u64)
    }

    /// How many commands of its turn stand before the one at this place.
    pub(crate) fn rank_of(&self, place: usize) -> usize
        requires { place < length self.now }
        ensures rank { (c : Arrival) → slice_get self.now place ≡ Some c → result ≡ turn_rank self.now place c }
        ensures fits { result < 2 ^ 63 }
    {
        self.tables.ranks[place]
    }

    /// How many of the first commands of its turn have ended, as far as the tables know.
    pub(crate) fn past_of(&self, arrival: &Arrival) -> usize
        ensures { ArePast (way_for arrival.now) [] result self.now }
    {
        row_of(&self.tables.turns, &TurnKey::of(&arrival.command)).over
    }

    /// Brings in that no two commands have one ticket; it does nothing.
    pub(crate) fn are_apart(&self)
        ensures { AreApart self.now }
    {
        let _ = &self.arrivals;
    }

    /// Puts the client's next command behind the others.
    pub(crate) fn add(&mut self, ticket: Ticket, part: Part, moment: u64) -> Result<(), AllocError>
        requires { ticket.part ≡ count_for self.old ticket.client }
        ensures ok { OnOk result (self.new ≡ self.old ++ record { command = fresh ticket part; arrived = moment; answered = false } ∷ []) }
        ensures err { OnErr result (self.new ≡ self.old) }
    {
        self.arrivals.reserve(1)?;
        self.tables.make_room()?;
        let command = Command::new(ticket, part);
        let turn = TurnKey::of(&command);
        self.tables.note(ticket, turn, self.arrivals.len());
        self.arrivals.push_reserved(Arrival {
            command,
            arrived: moment,
            answered: false,
        });
        Ok(())
    }

    /// The command at this place was posted at the node.
    pub(crate) fn posted(&mut self, place: usize, node: NodeId)
        requires { MayPostAt self.old place node }
        ensures { Becomes self.old place awaiting self.new }
    {
        self.arrivals[place].command.posted(node);
    }

    /// The command at this place was told this.
    pub(crate) fn told(&mut self, place: usize, told: Told)
        requires { AwaitsAt self.old place }
        ensures { Becomes self.old place (λ c. after_told c told) self.new }
    {
        let command = &mut self.arrivals[place].command;
        let turn = TurnKey::of(command);
        let ended = is_done(command.told(told));
        let passes = self.tables.passes(turn, place, ended);
        self.tables.note_told(turn, passes);
    }

    /// The client's oldest unanswered command, which stands at this place, was answered.
    pub(crate) fn answered(&mut self, client: u32, place: usize)
        requires { unanswered_for self.old client ≡ Some place }
        ensures { Becomes self.old place once_answered self.new }
    {
        self.arrivals[place].answered = true;
        self.tables.note_answered(client);
    }
}

// Whether a command has ended by what it was told.
fn is_done(step: Step) -> bool
    ensures { IsTrue result ↔ (step ≡ Done) }
{
    matches!(step, Step::Done)
}
