//! When a connection that lingers is closed.

ghost use Rattle.std.specs.Prelude.{◌≡◌, ◌↔◌, ◌≤◌, ◌+◌, ◌-◌, ◌^◌, IsTrue, min};
ghost use Rattle.socket_proxy.specs.LingerEnd.{Closes, SaysGone, is_gone};

use node_link::{Flow, Stream};

/// Microseconds for which a connection stays open at most.
const LINGER_MICROS: u64 = 2_000_000;
/// The most pieces of one connection that are read in a turn.
const PIECES_PER_TURN: u32 = 16;

/// When a connection is closed at the latest that lingers from now on, in microseconds.
pub(crate) fn linger_until(now: u64) -> u64
    ensures { result ≡ min (now + 2000000) (2 ^ 64 - 1) }
{
    now.saturating_add(LINGER_MICROS)
}

/// Reads what came, which is thrown away. Whether the connection is to be closed now: its time is over, or the other end has closed it.
pub(crate) fn closes<S: Stream>(stream: &mut S, piece: &mut [u8], until: u64, now: u64) -> bool
    ensures { Closes S.asked until now result stream.new }
{
    if is_past(until, now) {
        return true;
    }
    has_closed(stream, piece)
}

fn is_past(until: u64, now: u64) -> bool
    ensures { IsTrue result ↔ (until ≤ now) }
{
    now >= until
}

/// Whether the other end has closed the connection, as the last read says.
fn has_closed<S: Stream>(stream: &mut S, piece: &mut [u8]) -> bool
    ensures { SaysGone S.asked result stream.new }
{
    let mut flow = stream.read(piece);
    for _ in 1..PIECES_PER_TURN {
        if !brought_bytes(flow) {
            break;
        }
        flow = stream.read(piece);
    }
    says_gone(flow)
}

fn brought_bytes(flow: Flow) -> bool {
    match flow {
        Flow::Bytes(_) => true,
        Flow::Nothing | Flow::Gone => false,
    }
}

fn says_gone(flow: Flow) -> bool
    ensures { result ≡ is_gone flow }
{
    match flow {
        Flow::Bytes(_) => false,
        Flow::Nothing => false,
        Flow::Gone => true,
    }
}
