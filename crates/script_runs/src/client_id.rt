//! A client's place among the workers.

ghost use Rattle.std.specs.Prelude.{◌≡◌, ◌<◌};
ghost use Rattle.script_runs.specs.Run.{client_id_of, ticket_at};

use key_split::Ticket;

/// A client's worker and its number.
#[derive(Clone, Copy)]
pub(crate) struct ClientId {
    pub(crate) worker: u16,
    pub(crate) client: u32,
}

impl ClientId {
    /// Client c is on worker c modulo the workers.
    pub(crate) fn of(client: u32, workers: u16) -> ClientId
        requires { 0 < workers }
        ensures { result ≡ client_id_of workers client }
    {
        ClientId {
            worker: (client % u32::from(workers)) as u16,
            client,
        }
    }

    pub(crate) fn ticket(self, part: u64) -> Ticket
        ensures { result ≡ ticket_at self part }
    {
        Ticket {
            worker: self.worker,
            client: self.client,
            part,
        }
    }
}
