//! Whether a command that ASK sent to a node is on its way there, place by place.

ghost use Rattle.std.specs.Prelude.{◌≡◌, ◌↔◌, ◌==◌, ◌&&◌, All, IsTrue};
ghost use Rattle.world_laws.specs.Places.{asks_in_stage, asks_in_told};
ghost use Rattle.cluster_world.specs.Kept.{in_kept};
ghost use Rattle.cluster_world.specs.Rests.{has_ticket, sought as sought_at, weight, RunRests, TicketsRest};
ghost use Rattle.world_laws.specs.Places.Item.{Stands, Comes};

use crate::link::Kept;
use crate::posting::is_among;
use command_future::{Command, Want};
use key_split::{Ticket, Told};
use slot_map::NodeId;
use world_laws::{Arrival, Posted};

/// What is looked for: the ticket's command, or any where no ticket is named, on its way to the node by ASK.
#[derive(Clone, Copy)]
pub(crate) struct Sought {
    pub(crate) node: NodeId,
    pub(crate) ticket: Option<Ticket>,
}

impl Sought {
    // Whether the ticket's command is looked for.
    fn has(&self, ticket: Ticket) -> bool
        ensures { result ≡ has_ticket self.now.ticket ticket }
    {
        match self.ticket {
            Some(named) => named == ticket,
            None => true,
        }
    }
}

/// Whether the command is not sought, or does not want to be posted there after ASKING.
pub(crate) fn command_rests(command: &Command, sought: &Sought) -> bool
    ensures { IsTrue result ↔ (asks_in_stage sought.now.node command.now.stage (weight sought.now.ticket command.now.ticket) ≡ 0) }
{
    match command.want() {
        Want::Post(true, Some(named)) => !(named == sought.node && sought.has(command.ticket())),
        Want::Post(..) | Want::Await | Want::Finished => true,
    }
}

/// Whether what goes to one node, behind ASKING or not, asks at another.
pub(crate) fn goes_asking(asking: bool, to: NodeId, node: NodeId) -> bool
    ensures { result ≡ (asking && (to == node)) }
{
    asking && to == node
}

/// Whether none of these is sought, where they go to ask.
pub(crate) fn tickets_rest(tickets: &[Ticket], goes: bool, sought: &Sought) -> bool
    ensures { IsTrue result ↔ TicketsRest tickets.now goes sought.now.ticket }
{
    if !goes {
        return true;
    }
    match sought.ticket {
        Some(named) => !is_among(tickets, named),
        None => tickets.is_empty(),
    }
}

/// Whether the run has no sought command for the node and behind ASKING.
pub(crate) fn run_rests(posted: &Posted, sought: &Sought) -> bool
    ensures { IsTrue result ↔ RunRests posted.now sought.now }
{
    let goes = goes_asking(posted.asking, posted.node, sought.node);
    tickets_rest(posted.tickets.as_slice(), goes, sought)
}

/// Whether the pair does not tell a sought command to ask at the node.
pub(crate) fn told_rests(ticket: Ticket, told: &Told, sought: &Sought) -> bool
    ensures { IsTrue result ↔ (asks_in_told sought.now.node told.now (weight sought.now.ticket ticket) ≡ 0) }
{
    match told {
        Told::Ask(_, named) => !(*named == sought.node && sought.has(ticket)),
        _ => true,
    }
}

/// Whether none of the kept replies tells a sought command to ask at the node.
pub(crate) fn kept_rest(backs: &[Kept], sought: &Sought) -> bool
    ensures { IsTrue result ↔ (in_kept (sought_at sought.now) backs.now ≡ 0) }
{
    let mut rest = backs;
    while let [kept, further @ ..] = rest {
        if let Kept::Refusal(ticket, told) = kept
            && !told_rests(*ticket, told, sought)
        {
            return false;
        }
        rest = further;
    }
    true
}

/// Whether none of the commands is sought and wants to be posted there after ASKING.
pub(crate) fn commands_rest(commands: &[Arrival], sought: &Sought) -> bool
    ensures { IsTrue result ↔ All (λ c. sought_at sought.now (Stands c) ≡ 0) commands.now }
{
    commands
        .iter()
        .all(|arrival| command_rests(&arrival.command, sought))
}

/// Whether none of the runs has a sought command for the node and behind ASKING.
pub(crate) fn runs_rest(ups: &[Posted], sought: &Sought) -> bool
    ensures { IsTrue result ↔ All (λ b. RunRests b sought.now) ups.now }
{
    ups.iter().all(|posted| run_rests(posted, sought))
}

/// Whether none of the pairs tells a sought command to ask at the node.
pub(crate) fn downs_rest(downs: &[(Ticket, Told)], sought: &Sought) -> bool
    ensures { IsTrue result ↔ All (λ p. sought_at sought.now (Comes p.0 p.1) ≡ 0) downs.now }
{
    downs.iter().all(|down| told_rests(down.0, &down.1, sought))
}
