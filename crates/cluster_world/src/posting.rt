//! How runs are posted.

ghost use Rattle.std.specs.Prelude.{◌≡◌, ◌↔◌, ◌⊎◌, All, IsTrue, [], List, length};
ghost use Rattle.std.specs.Borrow.{Bor};
ghost use Rattle.std.specs.Option.{option_map};
ghost use Rattle.command_future.specs.CommandModel.{asks_at, MayPostTo};
ghost use Rattle.world_laws.specs.State.{HasEnded};
ghost use Rattle.world_laws.specs.World.{IsAmong, MayGo, SameTurn};
ghost use Rattle.world_laws.specs.declared.event.Event.TheVariants as event;
ghost use Rattle.world_laws.specs.declared.state.Arrival.{Arrival as Row};
ghost use Rattle.cluster_world.specs.Machine.{state_of, MachineAnswers};
ghost use Rattle.cluster_world.specs.Posting.{way_for, ArePast, Follows, GoesOut, GoTogether, HeadIs, IsFresh, IsRun};

use crate::commands::Commands;
use crate::fault::WorldFault;
use crate::machine::Machine;
use command_future::{Command, Want};
use key_split::Ticket;
use slot_map::NodeId;
use world_laws::{Arrival, Posted, Tickets};

/// How many commands a run has at most.
const RUN_LIMIT: usize = 64;

impl Machine {
    /// Posts a run to a node of the cluster, which has `nodes`.
    pub(crate) fn post(
        &mut self,
        tickets: &Tickets,
        node: NodeId,
        nodes: u8,
    ) -> Result<(), WorldFault>
        requires { nodes ≡ length self.old.cluster.stores }
        ensures { MachineAnswers (state_of self.old) (event.Post tickets.now node) result (state_of self.new) }
    {
        self.commands.are_apart();
        let tickets = tickets.as_slice();
        if node.number() >= nodes {
            return Err(WorldFault::NotNow);
        }
        if !is_run(&self.commands, tickets) {
            return Err(WorldFault::NotNow);
        }
        let Some(first) = first_of(&self.commands, tickets) else {
            return Err(WorldFault::NotNow);
        };
        if !go_together(&self.commands, first, node, tickets) {
            return Err(WorldFault::NotNow);
        }
        let asking = asks(&first.command);
        let own = Vec::from_slice(self.alloc, tickets)?;
        self.ups.reserve(1)?;
        go_out(&mut self.commands, tickets, node);
        self.ups.push_reserved(Posted {
            tickets: Tickets::new(own),
            node,
            asking,
        });
        Ok(())
    }
}

// Whether the tickets may be a run: no more than the limit, and where they are several none was refused yet.
fn is_run(commands: &Commands, tickets: &[Ticket]) -> bool
    ensures { IsTrue result ↔ IsRun tickets.now commands.now }
{
    !tickets.is_empty()
        && tickets.len() <= RUN_LIMIT
        && (tickets.len() == 1 || are_fresh(commands, tickets))
}

fn are_fresh(commands: &Commands, tickets: &[Ticket]) -> bool
    ensures { IsTrue result ↔ All (IsFresh commands.now) tickets.now }
{
    tickets.iter().all(|ticket| is_fresh(commands, *ticket))
}

// Whether the ticket's command was not refused yet.
fn is_fresh(commands: &Commands, ticket: Ticket) -> bool
    ensures { IsTrue result ↔ IsFresh commands.now ticket }
{
    match commands.place_of(ticket) {
        Some(place) => commands.at(place).command.followed() == 0,
        None => true,
    }
}

// The command of a run's first ticket.
fn first_of<'a>(commands: &'a Commands, tickets: &[Ticket]) -> Option<&'a Arrival>
    ensures { HeadIs tickets.now commands.now (option_map (λ (c : Bor Row). c.now) result) }
{
    let ticket = tickets.first()?;
    let place = commands.place_of(*ticket)?;
    Some(commands.at(place))
}

// Whether the commands may go to the node as the first does, each behind those before it.
fn go_together(commands: &Commands, first: &Arrival, node: NodeId, tickets: &[Ticket]) -> bool
    ensures { IsTrue result ↔ GoTogether (way_for first.now) node [] tickets.now commands.now }
{
    let mut past = commands.past_of(first);
    for (count, ticket) in tickets.iter().enumerate() {
        match follows(commands, first, node, &tickets[..count], *ticket, past) {
            Some(further) => past = further,
            None => return false,
        }
    }
    true
}

// How many of the turn's commands are past once the ticket's has gone behind those before it, where it may.
fn follows(
    commands: &Commands,
    first: &Arrival,
    node: NodeId,
    before: &[Ticket],
    ticket: Ticket,
    past: usize,
) -> Option<usize>
    requires { ArePast (way_for first.now) before.now past commands.now }
    ensures { Follows (way_for first.now) node before.now ticket commands.now result }
{
    if is_among(before, ticket) {
        return None;
    }
    let place = commands.place_of(ticket)?;
    let arrival = commands.at(place);
    if !may_go(first, arrival, node) {
        return None;
    }
    let rank = commands.rank_of(place);
    if rank > past {
        if !all_past(&commands.as_slice()[..place], arrival, before) {
            return None;
        }
        return Some(past);
    }
    if rank == past {
        Some(past + 1)
    } else {
        Some(past)
    }
}

/// Whether the ticket is one of these.
pub(crate) fn is_among(tickets: &[Ticket], ticket: Ticket) -> bool
    ensures { IsTrue result ↔ IsAmong tickets.now ticket }
{
    let mut rest = tickets;
    while let [other, later @ ..] = rest {
        if ticket == *other {
            return true;
        }
        rest = later;
    }
    false
}

// Whether the command may go to the node now, as the first of its run does.
fn may_go(first: &Arrival, arrival: &Arrival, node: NodeId) -> bool
    ensures { IsTrue result ↔ MayGo (way_for first.now) node arrival.now }
{
    of_one_turn(first, arrival)
        && may_post(&arrival.command, node)
        && asks(&arrival.command) == asks(&first.command)
}

// Whether both are one client's, for one slot.
fn of_one_turn(one: &Arrival, other: &Arrival) -> bool
    ensures { IsTrue result ↔ SameTurn one.now other.now }
{
    other.command.ticket().client == one.command.ticket().client
        && other.command.slot() == one.command.slot()
}

// Whether the command wants to be posted, and may be at this node.
fn may_post(command: &Command, node: NodeId) -> bool
    ensures { IsTrue result ↔ MayPostTo command.now.stage node }
{
    match command.want() {
        Want::Post(_, None) => true,
        Want::Post(_, Some(named)) => node == named,
        Want::Await | Want::Finished => false,
    }
}

// Whether it wants to be posted after ASKING.
fn asks(command: &Command) -> bool
    ensures { result ≡ asks_at command.now.stage }
{
    matches!(command.want(), Want::Post(true, _))
}

// Whether those of its turn have ended, or are among the tickets.
fn all_past(earlier: &[Arrival], arrival: &Arrival, before: &[Ticket]) -> bool
    ensures { IsTrue result ↔ All (λ d. SameTurn arrival.now d → HasEnded d ⊎ IsAmong before.now d.command.ticket) earlier.now }
{
    earlier.iter().all(|other| is_past(other, arrival, before))
}

fn is_past(other: &Arrival, arrival: &Arrival, before: &[Ticket]) -> bool
    ensures { IsTrue result ↔ (SameTurn arrival.now other.now → HasEnded other.now ⊎ IsAmong before.now other.now.command.ticket) }
{
    !of_one_turn(arrival, other) || has_ended(other) || is_among(before, other.command.ticket())
}

fn has_ended(arrival: &Arrival) -> bool
    ensures { IsTrue result ↔ HasEnded arrival.now }
{
    arrival.command.end().is_some()
}

// Notes that the commands of a run were posted at the node.
fn go_out(commands: &mut Commands, tickets: &[Ticket], node: NodeId)
    requires { (after : List Row) × GoesOut node tickets.now commands.old after }
    ensures { (after : List Row) → GoesOut node tickets.now commands.old after → commands.new ≡ after }
{
    let mut rest = tickets;
    while let [ticket, later @ ..] = rest {
        let Some(place) = commands.place_of(*ticket) else {
            return;
        };
        commands.posted(place, node);
        rest = later;
    }
}
