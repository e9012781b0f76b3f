//! The ports of the clients that were let go.

ghost use Rattle.std.specs.Prelude.{◌≡◌, ◌<◌, ◌≤◌, ◌+◌, [], ℕ, List, length, vec_capacity};
ghost use Rattle.proxy_turns.specs.WorkerModel.{GivesBack, clients_in, with_port};

use crate::client_table::ClientTable;
use crate::port::ClientPort;

/// The port of a client that is let go.
pub(crate) fn closed<C: ClientPort>(port: C) -> C
    ensures { C.moves.between port [] [] [] result }
{
    let mut port = port;
    port.close();
    port
}

/// Keeps the port, where clients do not come without end. There is room.
pub(crate) fn keep_port<C: Drop>(ports: &mut Vec<C>, left: Option<u32>, port: C)
    requires { length ports.old.items < vec_capacity ports.old }
    ensures ports { ports.new.items ≡ with_port left ports.old.items port }
    ensures len { length ports.new.items ≤ length ports.old.items + 1 }
    ensures capacity { vec_capacity ports.new ≡ vec_capacity ports.old }
{
    match left {
        Some(_) => ports.push_reserved(port),
        None => drop(port),
    }
}

/// Gives the ports back, and behind them those of the clients. There is room.
pub(crate) fn give_back<C: ClientPort + Drop>(clients: ClientTable<C>, ports: Vec<C>) -> Vec<C>
    requires { length ports.items + length clients.entries ≤ vec_capacity ports }
    ensures { (numbers : List ℕ) × GivesBack (clients_in clients.entries) ports.items numbers result.items }
{
    let mut clients = clients;
    let mut ports = ports;
    while let Some(port) = clients.take_any() {
        ports.push_reserved(port);
    }
    ports
}
