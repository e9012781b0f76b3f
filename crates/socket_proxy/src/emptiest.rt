//! Which worker has the fewest clients.

ghost use Rattle.std.specs.Prelude.{◌≡◌, [], MatchOption};
ghost use Rattle.socket_proxy.specs.Emptiest.{AreClosed, IsEmptiest, IsEmptiestOpen, clients_of};

/// In place of the number of its clients, of a worker that takes none now.
pub(crate) const CLOSED: u64 = u64::MAX;

/// How many clients a worker has that was dealt so many, of which so many are gone; or `CLOSED` where it takes none now.
pub(crate) fn clients_of(takes_clients: bool, dealt: u64, gone: u64) -> u64
    ensures { result ≡ clients_of takes_clients dealt gone }
{
    if takes_clients {
        dealt.saturating_sub(gone)
    } else {
        CLOSED
    }
}

/// Which of the workers that have so many clients takes clients and has the fewest, where one takes clients.
pub(crate) fn emptiest_open(clients: &[u64]) -> Option<usize>
    ensures { MatchOption result (AreClosed clients.now) (IsEmptiestOpen clients.now) }
{
    let Some(worker) = emptiest(clients) else {
        return None;
    };
    if clients[worker] < CLOSED {
        return Some(worker);
    }
    None
}

/// Which of the workers that have so many clients has the fewest, where there is one.
fn emptiest(clients: &[u64]) -> Option<usize>
    ensures { MatchOption result (clients.now ≡ []) (IsEmptiest clients.now) }
{
    if clients.is_empty() {
        return None;
    }
    let mut emptiest = 0;
    for worker in 1..clients.len() {
        if clients[worker] < clients[emptiest] {
            emptiest = worker;
        }
    }
    Some(emptiest)
}
