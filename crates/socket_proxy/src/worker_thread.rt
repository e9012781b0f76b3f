//! What a worker's thread does.

ghost use Rattle.std.specs.Prelude.{◌≡◌};
ghost use Rattle.proxy_lanes.specs.Opened.{book_of};

use crate::arrivals::{Arrivals, Arrived, NumberedClient};
use crate::client::SocketClient;
use crate::dealer::Arrival;
use crate::lingering::{Lingering, SharedLingering};
use crate::pace::{Next, Pace};
use crate::renewal::Renewal;
use crate::resting::behind_turn;
use crate::seat::{Seat, count_nodes};
use crate::setup::clone_registry;
use crate::shared::{Shared, ThreadHandle};
use crate::socket_gate::SocketGate;
use crate::unfinished::Unfinished;
use crate::upstream::Upstream;
use node_dial::{LookUps, NodeSocket, SocketDial, advance_look_ups};
use proxy_engine::{Engine, EngineFault};
use proxy_lanes::{Inlet, Naming, Opened};
use proxy_runtime::{Poller, WireRunFault};
use proxy_turns::{Newcomer, WorkerOutcome};
use resp_wire::NoMemory;
use std::alloc::Global;
use std::marker::Brand;
use std::net::{Net, TcpListener, TcpStream};
use std::sync::Wait;
use std::thread::Threads;
use std::time::Clock;

/// Clients that are taken at most between two turns.
const ARRIVALS_PER_TURN: u32 = 16;

/// What a worker's thread is given alone.
#[derive(Drop)]
pub(crate) struct WorkerTask<W, I> {
    pub(crate) worker: usize,
    pub(crate) poller: W,
    pub(crate) inlet: I,
}

/// What a worker over sockets is given.
pub(crate) type SocketTask = WorkerTask<Poller, Inlet<Arrival>>;

/// A proxy over sockets, whole: a worker and its carrier.
type SocketEngine<'g, 'r, 'b, J, R> = Engine<
    'g,
    SocketClient,
    J,
    &'b R,
    SocketDial<'b, R>,
    NodeSocket,
    SocketGate<'r>,
>;

/// Serves the clients that are dealt to it, until all threads are told to stop. After a fault they are told.
pub(crate) fn run_worker<R>(
    rt: &R,
    alloc: Global,
    task: SocketTask,
    upstream: &Upstream<'_>,
    shared: &Shared,
) -> Option<WireRunFault>
where
    R: Threads
        + Wait
        + Clock
        + Net<Listener = TcpListener, Stream = TcpStream>
        + Copy
        + Send
        + 'static,
{
    let WorkerTask {
        worker,
        poller,
        inlet,
    } = task;
    let Some(handle) = shared.workers.get(worker) else {
        return None;
    };
    match serve_on(rt, alloc, worker, handle, poller, inlet, upstream, shared) {
        Ok(()) => None,
        Err(fault) => {
            shared.stop();
            Some(fault)
        }
    }
}

/// Serves by one proxy after another: the next one begins where the table of the last has no place for a node of the cluster.
fn serve_on<R>(
    rt: &R,
    alloc: Global,
    worker: usize,
    handle: &ThreadHandle,
    poller: Poller,
    inlet: Inlet<Arrival>,
    upstream: &Upstream<'_>,
    shared: &Shared,
) -> Result<(), WireRunFault>
where
    R: Threads
        + Wait
        + Clock
        + Net<Listener = TcpListener, Stream = TcpStream>
        + Copy
        + Send
        + 'static,
{
    let mut seat = seat_of(alloc, worker, handle, poller, inlet, shared)?;
    for _ in rt.forever() {
        if !serve_anew(rt, alloc, &mut seat, upstream, shared)? {
            return Ok(());
        }
    }
    unreachable!()
}

/// What the thread keeps, before its first proxy.
fn seat_of<'a>(
    alloc: Global,
    worker: usize,
    handle: &'a ThreadHandle,
    poller: Poller,
    inlet: Inlet<Arrival>,
    shared: &'a Shared,
) -> Result<Seat<'a>, WireRunFault> {
    let look_ups = LookUps::new(alloc, clone_registry(&poller)?)?;
    let unfinished = Unfinished::new(alloc, shared.workers.len())?;
    let lingering = Lingering::new(alloc)?;
    let shared_lingering = share(&lingering)?;
    let arrivals = Arrivals::new(
        alloc,
        inlet,
        handle,
        shared.password.as_ref(),
        clone_registry(&poller)?,
        unfinished,
        shared_lingering,
    );
    Ok(Seat {
        worker,
        handle,
        poller,
        arrivals,
        lingering,
        look_ups,
        renewal: Renewal::new(),
        table: None,
        cut: 0,
    })
}

/// Serves by one proxy. True where another is to begin.
fn serve_anew<R>(
    rt: &R,
    alloc: Global,
    seat: &mut Seat<'_>,
    upstream: &Upstream<'_>,
    shared: &Shared,
) -> Result<bool, WireRunFault>
where
    R: Threads
        + Wait
        + Clock
        + Net<Listener = TcpListener, Stream = TcpStream>
        + Copy
        + Send
        + 'static,
{
    serve::<Brand, R>(rt, alloc, Opened::new(), seat, upstream, shared)
}

/// Serves by a proxy whose map's history has this name. True where another is to begin.
fn serve<J, R>(
    rt: &R,
    alloc: Global,
    opened: Opened,
    seat: &mut Seat<'_>,
    upstream: &Upstream<'_>,
    shared: &Shared,
) -> Result<bool, WireRunFault>
where
    J: Naming,
    R: Threads
        + Wait
        + Clock
        + Net<Listener = TcpListener, Stream = TcpStream>
        + Copy
        + Send
        + 'static,
    requires name { book_of opened ≡ J.book }
{
    let gate = SocketGate::new(seat.ready(), shared.workers.len());
    let dial = upstream.dial(rt, alloc, seat.handle, &seat.poller, &seat.look_ups)?;
    let nodes = seat.next_table(alloc, upstream)?;
    let count = count_nodes(&nodes);
    let mut engine: SocketEngine<'_, '_, '_, J, R> = Engine::new(
        alloc, rt, opened, &gate, dial, nodes, None,
    )?;
    seat.begin(count);
    let Ok(again) = serve_until_stopped(rt, &mut engine, seat, shared) else {
        return Err(WireRunFault::NoMemory);
    };
    seat.cut(engine.end(WorkerOutcome::Stopped));
    Ok(again)
}

/// Takes the clients that were dealt, turns the proxy, polls now and then, and sleeps where nothing moved: until a socket is
/// ready, another thread wakes this one, or the first of what waits is due. True where another proxy is to begin.
fn serve_until_stopped<'g, 'r, 'b, J, R>(
    rt: &R,
    engine: &mut SocketEngine<'g, 'r, 'b, J, R>,
    seat: &mut Seat<'_>,
    shared: &Shared,
) -> Result<bool, EngineFault>
where
    J: Naming,
    R: Threads
        + Wait
        + Clock
        + Net<Listener = TcpListener, Stream = TcpStream>
        + Copy
        + Send
        + 'static,
{
    let ready = seat.ready();
    let mut pace = Pace::new();
    for _ in rt.forever() {
        if shared.is_stopped() {
            return Ok(false);
        }
        ready.begin_turn(rt);
        let came = if shared.is_draining() || seat.renewal.is_under_way() {
            drain(engine, &mut seat.arrivals, &seat.lingering)
        } else {
            hand_over(engine, &mut seat.arrivals)
        };
        let looked_up = advance_look_ups(rt, &seat.look_ups);
        let turned = engine.turn()?;
        if !shared.is_draining() && seat.renew(engine.dial(), turned.served) {
            return Ok(true);
        }
        if let Some(until) = seat.lingering.advance(ready.micros()) {
            ready.wake_at(until.div_ceil(1000));
        }
        let moved = came | looked_up | ready.had_traffic();
        match behind_turn(&mut pace, engine, &turned, moved) {
            Next::Turn => {}
            Next::Poll => seat.poller.poll_now(ready),
            Next::Sleep => {
                ready.wake_at(turned.next_due.unwrap_or(u64::MAX));
                seat.poller.sleep(ready, ready.millis_to_sleep());
            }
        }
    }
    unreachable!()
}

/// Takes no client any more, and reads no further request. Those that were dealt to the worker are let go. True where there was one.
fn drain<'g, 'r, 'b, J: Naming, R: Wait + Clock + Net<Listener = TcpListener, Stream = TcpStream>>(
    engine: &mut SocketEngine<'g, 'r, 'b, J, R>,
    arrivals: &mut Arrivals<'_>,
    lingering: &Lingering,
) -> bool {
    if lingering.begin() {
        engine.drain();
    }
    arrivals.turn_away(ARRIVALS_PER_TURN)
}

fn share(lingering: &SharedLingering) -> Result<SharedLingering, NoMemory> {
    match lingering.clone() {
        Ok(lingering) => Ok(lingering),
        Err(_) => Err(NoMemory),
    }
}

/// Hands the clients over that were dealt to the worker. True where there was one.
fn hand_over<
    'g,
    'r,
    'b,
    J: Naming,
    R: Wait + Clock + Net<Listener = TcpListener, Stream = TcpStream>,
>(engine: &mut SocketEngine<'g, 'r, 'b, J, R>, arrivals: &mut Arrivals<'_>) -> bool {
    let mut came = false;
    for _ in 0..ARRIVALS_PER_TURN {
        match arrivals.take() {
            Arrived::Client(client) => {
                if let Err(client) = hand(engine, client) {
                    arrivals.put_back(client);
                    return true;
                }
            }
            Arrived::Refused => {}
            Arrived::Nobody => return came,
        }
        came = true;
    }
    came
}

/// Hands a client over. It comes back where there is no place for it.
fn hand<'g, 'r, 'b, J: Naming, R: Wait + Clock + Net<Listener = TcpListener, Stream = TcpStream>>(
    engine: &mut SocketEngine<'g, 'r, 'b, J, R>,
    client: NumberedClient,
) -> Result<(), NumberedClient> {
    let NumberedClient { number, port } = client;
    let newcomer = Newcomer {
        number,
        port,
        front: None,
    };
    match engine.hand(newcomer) {
        Ok(()) => Ok(()),
        Err(newcomer) => {
            let Newcomer {
                number,
                port,
                front,
            } = newcomer;
            drop(front);
            Err(NumberedClient { number, port })
        }
    }
}
