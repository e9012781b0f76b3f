//! What the thread does that accepts clients and writes the log.

ghost use Rattle.std.specs.Prelude.{◌≡◌};

use crate::acceptor::{Acceptor, RETRY_MILLIS};
use crate::dealer::{Arrival, Dealer};
use crate::drain_end::{is_cut, is_over};
use crate::shared::Shared;
use event_log::{Event, Reporter};
use proxy_runtime::Poller;
use std::sync::Wait;
use std::time::Clock;

/// Clients that are accepted at most between two polls.
const ACCEPT_BATCH: u32 = 16;
/// Milliseconds after which the log is written at the latest.
const LOG_MILLIS: u64 = 250;

/// Clients as they come in, and the log.
#[derive(Drop)]
pub(crate) struct Desk<'a> {
    acceptor: Acceptor,
    dealer: Dealer,
    /// A client that was accepted, and has no place at its worker yet.
    waiting: Option<Arrival>,
    reporter: Reporter<'a>,
    /// When the drain began, in milliseconds.
    drain_began: Option<u64>,
}

impl<'a> Desk<'a> {
    ghost use Rattle.socket_proxy.specs.Dealing.{WaitsOn};

    /// No client has come.
    pub(crate) fn new(acceptor: Acceptor, dealer: Dealer, reporter: Reporter<'a>) -> Desk<'a> {
        Desk {
            acceptor,
            dealer,
            waiting: None,
            reporter,
            drain_began: None,
        }
    }

    /// Accepts clients and deals them out. True where more may come at once.
    fn accept_clients(&mut self, shared: &Shared) -> bool {
        for _ in 0..ACCEPT_BATCH {
            if !self.deal_waiting(shared) {
                return false;
            }
            let Some((stream, address)) = self.acceptor.accept(shared.clients()) else {
                return false;
            };
            self.acceptor.count_client();
            put(&mut self.waiting, Some(Arrival { stream, address }));
        }
        true
    }

    /// Deals the client that waits. False where it waits on.
    fn deal_waiting(&mut self, shared: &Shared) -> bool
        ensures { WaitsOn self.old.waiting result self.new.waiting }
    {
        let Some(arrival) = self.waiting.take() else {
            return true;
        };
        match self.dealer.deal(shared, arrival) {
            Ok(()) => true,
            Err(arrival) => {
                put(&mut self.waiting, Some(arrival));
                false
            }
        }
    }

    /// How long the thread may sleep, in milliseconds.
    fn millis_to_sleep(&self) -> u64 {
        if self.waiting.is_some() || self.acceptor.waits() {
            RETRY_MILLIS
        } else {
            LOG_MILLIS
        }
    }

    /// Whether all clients that were to come came, and are gone, or the time of the drain is over.
    fn is_over(&self, shared: &Shared, now: u64) -> bool {
        let cut = is_cut(self.drain_began, shared.drain_seconds(), now);
        is_over(self.acceptor.is_done(), shared.clients(), cut)
    }

    /// Accepts no client any more, where that is asked for.
    fn begin_drain(&mut self, shared: &Shared, now: u64) {
        if self.drain_began.is_some() {
            return;
        }
        let Some(seconds) = shared.drain_seconds() else {
            return;
        };
        self.drain_began = Some(now);
        self.acceptor.close();
        self.acceptor
            .tell(Event::DrainBegun(shared.clients(), seconds));
    }

    /// Logs how the drain ended, where the run was drained.
    fn end_drain<R: Clock>(&mut self, rt: &R, shared: &Shared, now: u64) {
        if self.drain_began.is_some() {
            self.acceptor.tell(Event::Drained(shared.clients()));
            self.reporter.report(rt, now);
        }
    }
}

fn put<T: Drop>(place: &mut Option<T>, value: Option<T>)
    ensures { place.new ≡ value }
{
    *place = value;
}

/// Accepts clients and writes the log, until all threads are told to stop, or the last of all clients is gone, and then tells them.
pub(crate) fn run_desk<R: Wait + Clock>(
    rt: &R,
    mut desk: Desk<'_>,
    mut poller: Poller,
    shared: &Shared,
) {
    let ready = &shared.acceptor.ready;
    for _ in rt.forever() {
        ready.update_time(rt);
        desk.begin_drain(shared, ready.time());
        desk.reporter.report(rt, ready.time());
        if shared.is_stopped() || desk.is_over(shared, ready.time()) {
            desk.end_drain(rt, shared, ready.time());
            shared.stop();
            return;
        }
        desk.acceptor.retry(ready.time());
        if desk.accept_clients(shared) {
            poller.poll_now(ready);
        } else {
            poller.sleep(ready, desk.millis_to_sleep());
        }
    }
}
