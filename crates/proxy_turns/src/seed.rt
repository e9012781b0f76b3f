//! The node that is dialled first.

ghost use Rattle.std.specs.Prelude.{◌≡◌};

use slot_map::NodeId;

/// The first node of the table, which is dialled first.
pub(crate) fn seed() -> NodeId
    ensures { result ≡ 0 }
{
    NodeId::new(0).unwrap()
}
