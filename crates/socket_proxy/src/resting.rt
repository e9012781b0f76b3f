//! What a worker's thread does behind a turn of its proxy.

ghost use Rattle.std.specs.Prelude.{◌≡◌, Ok};
ghost use Rattle.proxy_turns.specs.Backend.{GaveNone};
ghost use Rattle.proxy_engine.specs.Engine.{engine_model};
ghost use Rattle.proxy_engine.specs.EngineModel.{EngineRests, IsEngineAtRest};

use crate::pace::{Next, Pace};
use node_link::{Dial, RunPort};
use proxy_engine::{Engine, Turned};
use proxy_lanes::Naming;
use proxy_turns::{ClientPort, Gate};
use std::sync::Wait;

/// What comes behind a turn of the proxy that came to this, beside which something else moved, or nothing. The thread sleeps only
/// where the proxy is at rest.
pub(crate) fn behind_turn<'g, C, J, R, D, P, G>(
    pace: &mut Pace,
    engine: &Engine<'g, C, J, R, D, P, G>,
    turned: &Turned,
    moved: bool,
) -> Next
where
    C: ClientPort + Drop,
    J: Naming,
    R: Wait + Drop,
    D: Dial<Port = P> + Drop,
    P: RunPort + Drop,
    G: Gate,
    requires turned { EngineRests C.gives_none C.takes_none (GaveNone P.calls) (Ok turned.now) (engine_model D.failures engine.now) }
    ensures rests { result ≡ Next.Sleep → IsEngineAtRest C.gives_none C.takes_none (GaveNone P.calls) (engine_model D.failures engine.now) }
{
    pace.after(moved | turned.moved)
}
