//! What follows of the steps that the code made. Each law is the contract of a function that does nothing.

ghost use Rattle.turn_play.specs.Beside.{PlaysRefineBeside};
ghost use Rattle.turn_play.specs.Deeds.{ObeyedPlaysOn, ReachedAlone};
ghost use Rattle.turn_play.specs.Fleets.{HandedInFleets, PlaysAreFleets};
ghost use Rattle.turn_play.specs.Handing.{HandedIsSound};
ghost use Rattle.turn_play.specs.Obeying.{ObeyedIsSound, ObeyedIsSoundBeside};
ghost use Rattle.turn_play.specs.Played.{PlaysRefine};
ghost use Rattle.turn_play.specs.Starting.{PlaysStart};
ghost use Rattle.turn_play.specs.Turns.{EnginesPlay};

use crate::dial::PlayDial;
use crate::port::PlayPort;
use crate::stream::PlayStream;
use proxy_engine::laws::turns_are_events;
use proxy_lanes::Naming;
use proxy_turns::{ClientPort, Dial, Newcomer};
use turn_laws::WiredPort;
use turn_laws::laws::{
    any_client, any_port, headline_beside_others, headline_of_bytes, headline_of_fleets,
    headline_of_logs, names_stay, nodes_serve_bytes, refines, slots_stand_at_nodes, starts_refine,
    written_is_heard,
};

/// From a start that hears its nodes, where the premises hold along them, the steps that the code made are steps of the system: so the
/// headline holds of its log, and its nodes hold the store that the log leaves.
pub fn plays_refine<C: Drop, J: Naming>()
    ensures { PlaysRefine C J }
{
    starts_refine::<C, J>();
    refines::<C, J>();
    names_stay::<C, J>();
    slots_stand_at_nodes::<C, J>();
    written_is_heard();
    headline_of_logs::<C, J>();
}

/// The same of steps among which others act: they are steps of the system and of others, so the headline holds in bytes, of what its
/// clients sent and were written, in one legal history of everybody's commands.
pub fn plays_refine_beside<C: Drop, J: Naming>()
    ensures { PlaysRefineBeside C J }
{
    starts_refine::<C, J>();
    refines::<C, J>();
    names_stay::<C, J>();
    slots_stand_at_nodes::<C, J>();
    written_is_heard();
    headline_beside_others::<C, J>();
    headline_of_bytes::<C, J>();
}

/// An engine's turn, over ports that stand for wires, is steps of a system that shows it: of its worker and then of its carrier. It
/// shows the engine after the turn, and nothing is asked of the lanes and the slot map.
pub fn engines_play<C: ClientPort + Drop, J: Naming, P: WiredPort + Drop, D: Dial<Port = P>>()
    ensures { EnginesPlay C J C.moves P.wired P.calls D.opens P.longest }
{
    any_client::<C, J>();
    any_port::<Newcomer<C, J>, P, D>();
    turns_are_events::<C, J, P, D>();
}

/// Whatever orders a play obeyed, it made steps of a system, where others came to its nodes beside others. From a start that hears its
/// nodes, where the premises hold along them and along those before, the headline holds of them. Order by order too: where each finds what
/// it asks, and the carrier's table lists nodes of the cluster, the system that is left was reached as the first was.
pub fn obeyed_is_sound<C: ClientPort + Drop, J: Naming>()
    ensures alone { ObeyedIsSound C J C.moves C.gives_none C.takes_none }
    ensures beside { ObeyedIsSoundBeside C J C.moves C.gives_none C.takes_none }
    ensures plays_on { ObeyedPlaysOn C J C.moves C.gives_none C.takes_none }
{
    engines_play::<C, J, PlayPort, PlayDial>();
    nodes_serve_bytes::<PlayStream>();
    plays_refine::<C, J>();
    plays_refine_beside::<C, J>();
}

/// A client that is handed to a play is a step of a system.
pub fn handed_is_sound<C: Drop, J: Naming>()
    ensures { HandedIsSound C J }
{
    plays_refine_beside::<C, J>();
}

/// Where a system was reached and nobody else acted, the headline holds of the whole log.
pub fn reached_alone<C: Drop, J: Naming>()
    ensures { ReachedAlone C J }
{
    plays_refine::<C, J>();
}

/// Several plays before one cluster are a fleet: each is what one proxy of it shows. A call of one of them in which nobody else acts is
/// steps of its proxy, to a fleet that shows all plays after it, and the headline holds of each proxy's commands. So is a client that is
/// handed to one of them.
pub fn plays_are_fleets<C: ClientPort + Drop, J: Naming>()
    ensures plays { PlaysAreFleets C J C.moves C.gives_none C.takes_none }
    ensures handed { HandedInFleets C J }
{
    engines_play::<C, J, PlayPort, PlayDial>();
    nodes_serve_bytes::<PlayStream>();
    written_is_heard();
    headline_of_fleets::<C, J>();
}

/// A play of a new engine, with a sound cluster whose nodes can be named, shows a start that hears its nodes.
pub fn plays_start<C: Drop, J: Naming>()
    ensures { PlaysStart C J }
{}
