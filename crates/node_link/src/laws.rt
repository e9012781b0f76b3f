//! Laws of links.

ghost use Rattle.node_link.specs.Laws.{MatchesReplies};

use crate::port::NodePort;

/// The k-th value belongs to the k-th request, in whatever order requests are sent and values come.
pub fn replies_match<P: NodePort>()
    ensures { MatchesReplies P.calls }
{}
