//! What happens at the other end of the carrier's connections.

ghost use Rattle.std.specs.Prelude.{◌≡◌};
ghost use Rattle.proxy_engine.specs.Engine.{engine_model};
ghost use Rattle.turn_play.specs.Connection.{ChangesStream, ServesAt, broken, cut_to};
ghost use Rattle.turn_play.specs.Dialling.{no_failures};

use crate::dial::PlayDial;
use crate::fault::PlayFault;
use crate::port::{PlayPort, new_port, new_stream};
use node_model::{Cluster, Verdict};
use proxy_engine::Engine;
use proxy_lanes::Naming;
use proxy_turns::{ClientPort, Gate};
use slot_map::{NodeId, NodeTable};
use std::alloc::Global;
use std::sync::Wait;

/// The node at the other end of the open connection to it serves the request that it reads first, where a connection is open.
pub(crate) fn serve_at<C: ClientPort + Drop, J: Naming, R: Wait + Drop, G: Gate>(
    alloc: Global,
    engine: &mut Engine<'_, C, J, R, PlayDial, PlayPort, G>,
    node: NodeId,
    verdict: Verdict,
    cluster: &mut Cluster,
    nodes: &NodeTable,
) -> Result<(), PlayFault>
    ensures serves { ServesAt nodes.now cluster.old node (engine_model no_failures engine.old).carrier verdict result cluster.new (engine_model no_failures engine.new).carrier }
    ensures worker { (engine_model no_failures engine.new).worker ≡ (engine_model no_failures engine.old).worker }
{
    let Ok(taken) = engine.swap_port(node, new_port(alloc)) else {
        return Ok(());
    };
    let mut port = taken;
    let mut stream = port.swap_stream(new_stream(alloc));
    let served = stream.serve(node, verdict, cluster, nodes);
    // whatever it answered, the stream goes back to its port, and the port to its link, which is open
    drop(port.swap_stream(stream));
    drop(engine.swap_port(node, port));
    served?;
    Ok(())
}

/// The open connection to a node breaks, where one is open.
pub(crate) fn break_at<C: ClientPort + Drop, J: Naming, R: Wait + Drop, G: Gate>(
    alloc: Global,
    engine: &mut Engine<'_, C, J, R, PlayDial, PlayPort, G>,
    node: NodeId,
)
    ensures breaks { ChangesStream broken node (engine_model no_failures engine.old).carrier (engine_model no_failures engine.new).carrier }
    ensures worker { (engine_model no_failures engine.new).worker ≡ (engine_model no_failures engine.old).worker }
{
    let Ok(taken) = engine.swap_port(node, new_port(alloc)) else {
        return;
    };
    let mut port = taken;
    let mut stream = port.swap_stream(new_stream(alloc));
    stream.break_off();
    drop(port.swap_stream(stream));
    drop(engine.swap_port(node, port));
}

/// From now on one call over the open connection to a node moves so many bytes at most, where one is open.
pub(crate) fn cut_at<C: ClientPort + Drop, J: Naming, R: Wait + Drop, G: Gate>(
    alloc: Global,
    engine: &mut Engine<'_, C, J, R, PlayDial, PlayPort, G>,
    node: NodeId,
    most: usize,
)
    ensures cuts { ChangesStream (cut_to most) node (engine_model no_failures engine.old).carrier (engine_model no_failures engine.new).carrier }
    ensures worker { (engine_model no_failures engine.new).worker ≡ (engine_model no_failures engine.old).worker }
{
    let Ok(taken) = engine.swap_port(node, new_port(alloc)) else {
        return;
    };
    let mut port = taken;
    let mut stream = port.swap_stream(new_stream(alloc));
    stream.cut(most);
    drop(port.swap_stream(stream));
    drop(engine.swap_port(node, port));
}
