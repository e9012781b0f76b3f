//! Somebody else's commands at a node.

ghost use Rattle.std.specs.Prelude.{◌≡◌, IfOk, IfErr};
ghost use Rattle.turn_play.specs.Others.{AreServed, CannotCome};

use crate::fault::PlayFault;
use key_split::{Part, Told};
use node_model::{Cluster, Verdict, have_one_slot};
use slot_map::NodeId;

/// The node does the commands at once, by its own rules, and each is told something. After a fault nothing has changed.
pub(crate) fn serve_others(
    cluster: &mut Cluster,
    node: NodeId,
    asking: bool,
    parts: &[Part],
) -> Result<Vec<Told>, PlayFault>
    ensures ok { IfOk result (λ tolds. AreServed cluster.old node asking parts.now tolds.items cluster.new) }
    ensures err { IfErr result (λ fault. (cluster.new ≡ cluster.old) × CannotCome cluster.old node parts.now fault) }
{
    if !have_one_slot(parts) {
        return Err(PlayFault::NotServed);
    }
    let tolds = cluster.serve_run(node, asking, parts, Verdict::Plain)?;
    Ok(tolds)
}
