//! Laws that join the turns of workers and carrier to the machine's events. Each is the contract of a function that does nothing.

ghost use Rattle.turn_laws.specs.Walks.{EveryWalk};
ghost use Rattle.turn_laws.specs.Settling.{Settling, SettlingAfter};
ghost use Rattle.turn_laws.specs.ClientOutput.{AllClientsAreWritten, ClientsAreWritten};
ghost use Rattle.turn_laws.specs.BytesHeadline.{HeadlineOfBytes};
ghost use Rattle.turn_laws.specs.ByteStory.{HeadlineHappens};
ghost use Rattle.turn_laws.specs.LogOutput.{AnswersWereTold, LogIsWritten, SharedAnswersWereTold, SharedLogIsWritten};
ghost use Rattle.turn_laws.specs.Arrivals.{ArrivalsAreSent, SharedArrivalsAreSent};
ghost use Rattle.turn_laws.specs.AnyPort.{AnyClients, AnyClientTurns, AnyPorts, WiresStand};
ghost use Rattle.turn_laws.specs.ByteWires.{BeginsWire, ItemsAreReadBack, ServesWire};
ghost use Rattle.turn_laws.specs.Scripts.{GivesBack, LosesCommands, MisreadsLines, MovesUnderUse, PairsCommands};
ghost use Rattle.turn_laws.specs.Refines.{CarrierRefines, HandedRefine, MovesRefine, NamesStay, NodesRefine, Refines, StartsRefine, ThrownRefine, WorkersRefine};
ghost use Rattle.turn_laws.specs.LogHeadline.{HeadlineOfLogs, LogsAreHeld};
ghost use Rattle.turn_laws.specs.SharedScripts.{AddressesLead, OthersActBetween, ProxiesMeet};
ghost use Rattle.turn_laws.specs.SharedLog.{HeadlineOfSharedLogs, SharedEndsAreSound, SharedLogsAreHeld};
ghost use Rattle.turn_laws.specs.Sharing.{SharedRefines};
ghost use Rattle.turn_laws.specs.Fleet.{EveryFleet, FleetFollows, FleetsStand};
ghost use Rattle.turn_laws.specs.Unclear.{HeardAlike, UnclearIsRefusal};
ghost use Rattle.turn_laws.specs.Writing.{NamedIsReadBack, NewSlotsStand, SlotsStay, WrittenIsHeard};

use crate::wired_port::WiredPort;
use crate::wired_stream::WiredStream;
use key_split::laws::parts_of_plans_are_plain;
use proxy_lanes::Naming;
use proxy_turns::{ClientPort, Dial};
use resp_wire::laws::{front_is_faulty, front_is_whole};
use session_order::drains_output;

/// The headline holds after every schedule, however many events it has.
pub fn every_walk()
    ensures { EveryWalk }
{}

/// What came down to the workers can be told to its commands at once.
pub fn settles_at_once()
    ensures at_once { Settling }
    ensures after { SettlingAfter }
{}

/// A command that hears a line that is unclear is where the machine's is, which was told TRYAGAIN. The node executed nothing.
pub fn unclear_is_try_again()
    ensures alike { HeardAlike }
    ensures refusal { UnclearIsRefusal }
{}

/// A system that has done nothing stands for a world of the machine, and names nodes of the cluster.
pub fn starts_refine<C: Drop, J: Naming>()
    ensures { StartsRefine C J }
{}

/// Each event of the carrier is some events of the machine: what comes down is told at once.
pub fn carrier_refines<C: Drop, J: Naming>()
    ensures { CarrierRefines C J }
{}

/// Each event of a worker is some events of the machine: a request that is read is an arrival for each of its parts, a run that is
/// posted is that run, and replies that are drained are an answer for each of their parts. It does not see the other events.
pub fn workers_refine<C: Drop, J: Naming>()
    ensures { WorkersRefine C J }
{
    parts_of_plans_are_plain();
}

/// Each node that is named is one of the cluster: in what is published, in what comes down to a worker, in what a command wants. So a run
/// goes to a node that there is.
pub fn names_stay<C: Drop, J: Naming>()
    ensures { NamesStay C J }
{}

/// Each step of a move is the machine's. Throwing away a broken connection's requests is none, nor is handing a client to a worker.
pub fn moves_refine<C: Drop, J: Naming>()
    ensures moves { MovesRefine C J }
    ensures thrown { ThrownRefine C J }
    ensures handed { HandedRefine C J }
{}

/// What a node serves of a connection, or of a broken one, is the machine's, but for CLUSTER SLOTS, which it does not see.
pub fn nodes_refine<C: Drop, J: Naming>()
    ensures { NodesRefine C J }
{}

/// What a worker does over clients of any kind is what a worker of the system may do.
pub fn any_client<C: ClientPort + Drop, J: Naming>()
    ensures events { AnyClients C J C.moves }
    ensures turns { AnyClientTurns C J C.moves }
{}

/// What a carrier does over ports that stand for wires is, over these wires, what the carrier of the system may do.
pub fn any_port<H: Drop, P: WiredPort, D: Dial<Port = P>>()
    ensures { AnyPorts P.wired H P.calls D.opens P.longest }
{}

/// A port over bytes stands for a wire (`BlockPort` is a `WiredPort`), from its beginning on, and still does when the node at the other
/// end has read one item of the wire in its bytes, and has written bytes that spell its replies.
pub fn nodes_serve_bytes<S: WiredStream>()
    ensures begins { BeginsWire S.far }
    ensures serves { ServesWire S.far }
    ensures reads { ItemsAreReadBack }
{}

/// What `any_port` asks of ports can be had.
pub fn wires_stand()
    ensures { WiresStand }
{}

/// Each run of the system is a run of the machine, and the headline holds of it.
pub fn refines<C: Drop, J: Naming>()
    ensures { Refines C J }
{
    parts_of_plans_are_plain();
}

/// Whatever a system does from its start, the headline holds of its log, and its nodes hold the store that the log leaves.
pub fn headline_of_logs<C: Drop, J: Naming>()
    ensures headline { HeadlineOfLogs C J }
    ensures held { LogsAreHeld C J }
{
    parts_of_plans_are_plain();
}

/// The same where other clients of the cluster act between its steps: other proxies, scripts, keys that expire; and where addresses lead to
/// any nodes. The headline holds of the system's own commands, in one legal history of everybody's; and what is left is sound, so another
/// proxy can begin there.
pub fn headline_beside_others<C: Drop, J: Naming>()
    ensures refines { SharedRefines C J }
    ensures headline { HeadlineOfSharedLogs C J }
    ensures held { SharedLogsAreHeld C J }
    ensures ends { SharedEndsAreSound C J }
{
    parts_of_plans_are_plain();
}

/// Several proxies before one cluster, each a system of its own, beside clients that are none: the headline holds of each one's
/// commands, in one legal history of everybody's. What a proxy may do alone it may do there, if an import waits for all; and what it did
/// there, with the others, is steps of its own and of others.
pub fn headline_of_fleets<C: Drop, J: Naming>()
    ensures headline { EveryFleet C J }
    ensures follows { FleetFollows C J }
    ensures stands { FleetsStand C J }
{
    parts_of_plans_are_plain();
}

/// The law speaks of something: under all its premises a system can make these steps from a start.
pub fn steps_happen<C: Drop, J: Naming>()
    ensures moves { MovesUnderUse C J }
    ensures loses { LosesCommands C J }
    ensures gives_back { GivesBack C J }
    ensures pairs { PairsCommands C J }
    ensures misreads { MisreadsLines C J }
    ensures shares { OthersActBetween C J }
    ensures leads { AddressesLead C J }
{
    front_is_whole();
}

/// The law over fleets speaks of something: under all its premises two proxies can serve before one cluster, where a client of the second
/// reads what a client of the first set, and both are answered.
pub fn fleets_happen<C: Drop, J: Naming>()
    ensures { ProxiesMeet C J }
{
    front_is_whole();
}

/// The bytes that go to a client are a front of the output of the requests that its own bytes spell and of the ends that it is told. Where
/// the client is served and not gone they are all of it, up to the request or the fault that ended its session. So it is whatever a worker
/// does, and whatever a system does from its start.
pub fn clients_are_written<C: Drop, J: Naming>()
    ensures of_worker { ClientsAreWritten C J }
    ensures of_system { AllClientsAreWritten C J }
{
    drains_output();
    front_is_whole();
    front_is_faulty();
}

/// The log's answers are what clients are written. The bytes that went to a client are a front of the output of its requests and of the
/// answers to it that the log shows; and each of these is the end that it was told of that part. So it is where others act too.
pub fn log_is_written<C: Drop, J: Naming>()
    ensures written { LogIsWritten C J }
    ensures told { AnswersWereTold C J }
    ensures written_beside_others { SharedLogIsWritten C J }
    ensures told_beside_others { SharedAnswersWereTold C J }
{
    drains_output();
    front_is_whole();
    front_is_faulty();
    parts_of_plans_are_plain();
}

/// The headline in bytes, from any sound start and beside others. Of the bytes that clients sent, every whole request is what arrived, in
/// order; what was answered stands in one legal history of everybody's commands; and the bytes that a client was written are a front of the
/// exact output of its requests by these answers.
pub fn headline_of_bytes<C: Drop, J: Naming>()
    ensures { HeadlineOfBytes C J }
{
    drains_output();
    front_is_whole();
    front_is_faulty();
    parts_of_plans_are_plain();
}

/// The headline in bytes speaks of something: under all its premises a system and others can make these steps, from a start whose nodes
/// hold data, where a slot moves, a connection breaks in the midst of a request, and a client reads slowly; and what it says holds of them.
pub fn bytes_happen<C: Drop, J: Naming>()
    ensures { HeadlineHappens C J }
{
    headline_of_bytes::<C, J>();
    front_is_whole();
}

/// What the log shows arrived for a client is what this client sent: all parts of the requests that its bytes begin with, in order, each
/// with its number. So it is whatever a system does from its start, and where others act too.
pub fn arrivals_are_sent<C: Drop, J: Naming>()
    ensures alone { ArrivalsAreSent C J }
    ensures beside_others { SharedArrivalsAreSent C J }
{
    drains_output();
    front_is_whole();
    front_is_faulty();
    parts_of_plans_are_plain();
}

/// What a node writes of a run that it does is heard as what it told: a reply of its store as that reply, a redirection with its slot and
/// its node. The endpoints that this asks for are just those that are read as they were written.
pub fn written_is_heard()
    ensures heard { WrittenIsHeard }
    ensures named { NamedIsReadBack }
{}

/// What `written_is_heard` asks of the slots holds of a new cluster, and each step of a system leaves it so.
pub fn slots_stand_at_nodes<C: Drop, J: Naming>()
    ensures opened { NewSlotsStand }
    ensures stay { SlotsStay C J }
{}
