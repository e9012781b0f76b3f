//! What follows of a turn's events. Each law is the contract of a function that does nothing.

ghost use Rattle.proxy_turns.specs.declared.newcomer.Newcomer.{Newcomer};
ghost use Rattle.proxy_turns.specs.CarrierModel.{CarrierGoes};
ghost use Rattle.proxy_engine.specs.Along.{CarrierStaysInOrder, WorkerStaysInOrder};
ghost use Rattle.proxy_engine.specs.EngineDrain.{TurnsStayDraining};
ghost use Rattle.proxy_engine.specs.Events.{TurnsAreEvents};
ghost use Rattle.proxy_engine.specs.Unseen.{CarrierDoesUnseen, WorkerDoesUnseen};

use node_link::{Dial, RunPort};
use proxy_lanes::Naming;
use proxy_turns::ClientPort;

/// Where an engine is in order before and after some events of its worker, or of its carrier, it is in order after each of them.
pub fn stays_in_order<C: ClientPort + Drop, J: Naming, P: RunPort + Drop, D: Dial<Port = P>>()
    ensures worker { WorkerStaysInOrder C J P C.moves }
    ensures carrier { CarrierStaysInOrder C J P.calls D.opens P.longest }
{}

/// A look at the lanes is no step: what a worker or a carrier does behind it, it could have done without it.
pub fn looks_are_unseen<C: ClientPort + Drop, J: Naming, P: RunPort + Drop, D: Dial<Port = P>>()
    ensures worker { WorkerDoesUnseen C J C.moves }
    ensures carrier { CarrierDoesUnseen (Newcomer C J) P.calls D.opens P.longest }
{}

/// Where the looks are left out, a turn is events of the worker and then of the carrier, with the lanes and the slot map in order
/// after each of them.
pub fn turns_are_events<C: ClientPort + Drop, J: Naming, P: RunPort + Drop, D: Dial<Port = P>>()
    ensures { TurnsAreEvents C J C.moves P.calls D.opens P.longest }
{}

/// An engine that was drained takes no client and reads no request, however often it turns.
pub fn turns_stay_draining<C: ClientPort + Drop, J: Naming, P: RunPort + Drop, D: Dial<Port = P>>()
    ensures { TurnsStayDraining {J = J} C.moves (CarrierGoes P.calls D.opens P.longest) }
{}
