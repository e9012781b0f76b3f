//! The backends of all nodes.

ghost use Rattle.std.specs.Prelude.{◌≡◌, ◌≤◌, OnOk, length};
ghost use Rattle.std.specs.List.{list_any, position};
ghost use Rattle.proxy_turns.specs.Backend.{has_open_link, is_unanswered, new_backend};
ghost use Rattle.proxy_turns.specs.Growing.{Grows};

use crate::backend::Backend;
use node_link::NodePort;
use resp_wire::NoMemory;

/// Backends for all nodes below this number.
pub(crate) fn add_backends<P: NodePort + Drop>(
    backends: &mut Vec<Backend<P>>,
    count: usize,
) -> Result<(), NoMemory>
    ensures added { Grows new_backend backends.old.items backends.new.items }
    ensures enough { OnOk result (count ≤ length backends.new.items) }
{
    for _next in backends.len()..count {
        backends.push(Backend::new())?;
    }
    Ok(())
}

/// The first with an open link.
pub(crate) fn first_open<P: NodePort + Drop>(backends: &[Backend<P>]) -> Option<usize>
    ensures { result ≡ position has_open_link backends.now }
{
    backends.iter().position(|backend| backend.is_open())
}

/// Whether CLUSTER SLOTS is unanswered on some open link.
pub(crate) fn any_unanswered<P: NodePort + Drop>(backends: &[Backend<P>]) -> bool
    ensures { result ≡ list_any is_unanswered backends.now }
{
    backends.iter().any(|backend| backend.is_unanswered())
}
