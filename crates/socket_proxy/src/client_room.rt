//! How many clients are served at once, so that descriptors are left for connections to nodes.

ghost use Rattle.std.specs.Prelude.{◌≡◌, ◌↔◌, IsTrue};
ghost use Rattle.socket_proxy.specs.ClientRoom.{kept_for_nodes};

/// Descriptors that are kept for the connections of each worker to nodes, or of all a quarter where that is less.
const KEPT_FOR_NODES: u64 = 64;

/// For how many clients there is room. The system gives the lowest descriptor that is free, so a new client's descriptor
/// tells how many are open.
#[derive(Drop)]
pub(crate) struct ClientRoom {
    /// The highest descriptor that is meant for a client: those above are kept.
    last: u64,
    /// How many clients are served at most, as long as the newest has that descriptor or a higher one.
    most: Option<u64>,
}

impl ClientRoom {
    ghost use Rattle.socket_proxy.specs.ClientRoom.{IsFull, most_clients, new_room};

    /// The room beside the connections of so many workers, where this number of descriptors may be open, or any number of them.
    pub(crate) fn new(descriptors: Option<u64>, workers: u16) -> ClientRoom
        ensures { result ≡ new_room descriptors workers }
    {
        let limit = descriptors.unwrap_or(u64::MAX);
        ClientRoom {
            last: limit
                .saturating_sub(kept_for_nodes(limit, workers))
                .saturating_sub(1),
            most: None,
        }
    }

    /// Whether there is none for another client beside these.
    pub(crate) fn is_full(&self, clients: u64) -> bool
        ensures { IsTrue result ↔ IsFull self.now.most clients }
    {
        self.most.is_some_and(|most| clients >= most)
    }

    /// The newest of the clients has this descriptor.
    pub(crate) fn note_client(&mut self, descriptor: u64, clients: u64)
        ensures { self.new ≡ record self.old { most = most_clients self.old.last descriptor clients } }
    {
        self.most = descriptor
            .checked_sub(self.last)
            .map(|above| clients.saturating_sub(above).max(1));
    }
}

/// How many of `limit` descriptors are kept for the connections of so many workers to nodes.
fn kept_for_nodes(limit: u64, workers: u16) -> u64
    ensures { result ≡ kept_for_nodes limit workers }
{
    (KEPT_FOR_NODES * u64::from(workers)).min(limit / 4)
}
