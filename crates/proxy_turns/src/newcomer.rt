//! A new client, as it is handed to its worker, and how it is taken in.

ghost use Rattle.std.specs.Prelude.{◌≡◌, ◌<◌, ◌≤◌, ◌+◌, ◌↔◌, IsTrue, OnOk, Some, length, vec_capacity};
ghost use Rattle.proxy_turns.specs.WorkerModel.{IsAbove, IsDealtTo, IsNew, MayCome, OneCame, clients_in};
ghost use Rattle.proxy_turns.specs.Arrivals.{AreToCome, PutsNew};

use crate::client_state::ClientState;
use crate::client_table::ClientTable;
use crate::kept_ports::{closed, keep_port};
use crate::port::ClientPort;
use proxy_lanes::{Front, Naming};
use resp_wire::NoMemory;

/// A new client: its number, its port, and a beginning of what was published, where one was told. A worker takes it only
/// where it is dealt to this worker, and its number is greater than that of each client before it; else it closes the port.
#[derive(Drop)]
pub struct Newcomer<C: Drop, J: Naming> {
    pub number: u32,
    pub port: C,
    pub front: Option<Front<J>>,
}

/// Which of how many workers one is. Clients are dealt to the workers by their numbers.
#[derive(Clone, Copy)]
pub(crate) struct Seat {
    pub(crate) worker: u16,
    pub(crate) workers: u16,
}

impl Seat {
    fn is_dealt(self, number: u32) -> bool
        ensures { IsTrue result ↔ IsDealtTo self.workers self.worker number }
    {
        self.workers > 0 && number % u32::from(self.workers) == u32::from(self.worker)
    }
}

/// Whether the client of this number is dealt to the worker that has this seat, and none before had its number.
pub(crate) fn may_come<C: ClientPort + Drop>(
    clients: &ClientTable<C>,
    newest: Option<u32>,
    seat: Seat,
    number: u32,
) -> bool
    ensures { IsTrue result ↔ MayCome seat.workers seat.worker (clients_in clients.now.entries) newest number }
{
    seat.is_dealt(number) && is_new(clients, newest, number)
}

/// Whether no client had this number before, where the last that came had the number `newest`.
fn is_new<C: ClientPort + Drop>(clients: &ClientTable<C>, newest: Option<u32>, number: u32) -> bool
    ensures { IsTrue result ↔ IsNew (clients_in clients.now.entries) newest number }
{
    !clients.has(number) && is_above(newest, number)
}

fn is_above(newest: Option<u32>, number: u32) -> bool
    ensures { IsTrue result ↔ IsAbove newest number }
{
    match newest {
        Some(newest) => newest < number,
        None => true,
    }
}

/// Whether any clients are to come.
pub(crate) fn are_to_come(left: Option<u32>) -> bool
    ensures { IsTrue result ↔ AreToCome left }
{
    match left {
        Some(left) => left > 0,
        None => true,
    }
}

pub(crate) fn is_none_to_come(left: Option<u32>) -> bool
    ensures { IsTrue result ↔ (left ≡ Some 0) }
{
    match left {
        Some(left) => left == 0,
        None => false,
    }
}

/// How many are to come after one came.
pub(crate) fn one_fewer(left: Option<u32>) -> Option<u32>
    requires { AreToCome left }
    ensures { OneCame left result }
{
    match left {
        Some(left) => Some(left - 1),
        None => None,
    }
}

/// Makes room for one more client, and for its port beside those of all others.
pub(crate) fn make_room<C: ClientPort + Drop>(
    clients: &mut ClientTable<C>,
    ports: &mut Vec<C>,
) -> Result<(), NoMemory>
    ensures clients { clients_in clients.new.entries ≡ clients_in clients.old.entries }
    ensures len { length clients.new.entries ≡ length clients.old.entries }
    ensures ports { ports.new.items ≡ ports.old.items }
    ensures capacity { vec_capacity ports.old ≤ vec_capacity ports.new }
    ensures clients_room { OnOk result (0 < clients.new.spare) }
    ensures ports_room { OnOk result (length ports.new.items + length clients.new.entries < vec_capacity ports.new) }
{
    ports.reserve(clients.len() + 1)?;
    clients.make_room()
}

/// Puts the client under its number, or lets it go where it may not come. There is room.
pub(crate) fn put_new<C: ClientPort + Drop>(
    clients: &mut ClientTable<C>,
    ports: &mut Vec<C>,
    newest: &mut Option<u32>,
    left: Option<u32>,
    seat: Seat,
    number: u32,
    client: ClientState<C>,
)
    requires clients { 0 < clients.old.spare }
    requires ports { length ports.old.items + length clients.old.entries < vec_capacity ports.old }
    ensures puts { PutsNew C.moves seat.workers seat.worker (clients_in clients.old.entries) ports.old.items newest.old left number client (clients_in clients.new.entries) ports.new.items newest.new }
    ensures ports_fit { length ports.new.items + length clients.new.entries ≤ vec_capacity ports.new }
{
    if !may_come(clients, *newest, seat, number) {
        keep_port(ports, left, closed(client.into_port()));
        return;
    }
    clients.put(number, client);
    *newest = Some(number);
}
