//! How clients are dealt to the workers.

ghost use Rattle.std.specs.Prelude.{◌≡◌, length, vec_len};

use crate::emptiest::{clients_of, emptiest_open};
use crate::setup::push;
use crate::shared::Shared;
use event_log::Figure;
use mio::net::TcpStream;
use proxy_lanes::{Inlet, Outlet, lane};
use resp_wire::NoMemory;
use std::alloc::Global;
use std::net::SocketAddr;

/// A client's connection, on its way to a worker.
#[derive(Drop)]
pub(crate) struct Arrival {
    pub(crate) stream: TcpStream,
    pub(crate) address: SocketAddr,
}

/// Deals each client to a worker than which none has fewer, of those that take clients now. What a worker was dealt and did not count
/// as gone, it has.
#[derive(Drop)]
pub(crate) struct Dealer {
    /// The lanes to the workers.
    outlets: Vec<Outlet<Arrival>>,
    /// How many clients each worker has, or `CLOSED` where it takes none now.
    clients: Vec<u64>,
    ghost paired: { vec_len clients ≡ vec_len outlets },
}

impl Dealer {
    ghost use Rattle.std.specs.Prelude.{◌<◌};
    ghost use Rattle.proxy_lanes.specs.Ends.{ChangesAt};
    ghost use Rattle.proxy_lanes.specs.Lane.{Posts};
    ghost use Rattle.socket_proxy.specs.Dealing.{Deals};

    /// A dealer with a lane to each of so many workers, and the lanes' other ends.
    pub(crate) fn new(
        alloc: Global,
        workers: usize,
    ) -> Result<(Dealer, Vec<Inlet<Arrival>>), NoMemory> {
        let mut outlets = Vec::new(alloc);
        let mut inlets = Vec::new(alloc);
        for _ in 0..workers {
            let (outlet, inlet) = lane(alloc)?;
            push(&mut outlets, outlet)?;
            push(&mut inlets, inlet)?;
        }
        let clients = vec![in alloc; 0; outlets.len()]?;
        Ok((Dealer { outlets, clients }, inlets))
    }

    /// Deals the client by the clients that each worker has now, and wakes its worker. It comes back where no worker takes clients, or
    /// that worker's lane has no place.
    pub(crate) fn deal(&mut self, shared: &Shared, arrival: Arrival) -> Result<(), Arrival>
        ensures { Deals self.new.clients.items self.old.outlets.items arrival result self.new.outlets.items }
    {
        self.count_clients(shared);
        let Some(worker) = emptiest_open(&self.clients) else {
            return Err(arrival);
        };
        let dealt = self.post_to(worker, arrival);
        wake_dealt(shared, worker, dealt.is_ok());
        dealt
    }

    fn post_to(&mut self, worker: usize, arrival: Arrival) -> Result<(), Arrival>
        requires { worker < vec_len self.old.outlets }
        ensures lane { ChangesAt self.old.outlets.items worker self.new.outlets.items (λ old new. Posts old new arrival result) }
        ensures clients { self.new.clients ≡ self.old.clients }
    {
        self.outlets[worker].post(arrival)
    }

    fn count_clients(&mut self, shared: &Shared)
        ensures { self.new.outlets ≡ self.old.outlets }
    {
        count(&mut self.clients, &self.outlets, shared);
    }
}

/// Wakes a worker that was dealt a client.
fn wake_dealt(shared: &Shared, worker: usize, dealt: bool) {
    if dealt {
        shared.wake_worker(worker);
    }
}

/// What a worker was dealt and did not count as gone, it has, where it takes clients.
fn count(clients: &mut [u64], outlets: &[Outlet<Arrival>], shared: &Shared)
    ensures { length clients.new ≡ length clients.old }
{
    let lanes = clients.iter_mut().zip(outlets.iter());
    for ((clients, outlet), worker) in lanes.zip(shared.workers.iter()) {
        let gone = worker.counted(Figure::ClientsGone);
        *clients = clients_of(worker.takes_clients(), outlet.posted(), gone);
    }
}
