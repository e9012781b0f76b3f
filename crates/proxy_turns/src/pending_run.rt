//! The run of one worker that the carrier took and did not send yet.

ghost use Rattle.std.specs.Prelude.{◌≡◌, ◌<◌, ◌≤◌, ◌↔◌, ◌≢◌, [], None, IfSome, IsTrue, OnOk, length};
ghost use Rattle.proxy_lanes.specs.Carrier.{lanes_of};
ghost use Rattle.proxy_turns.specs.Growing.{Grows};
ghost use Rattle.proxy_turns.specs.PendingRun.{DeliverOutcome, no_pending_run};

use crate::refused_run::RefusedRun;
use key_split::{Run, Ticket, Told};
use proxy_lanes::CarrierEnds;
use resp_wire::NoMemory;
use slot_map::NodeId;

/// The run of one worker that the carrier took and did not send yet, or one that it could not send.
#[derive(Drop)]
pub struct PendingRun {
    /// A run that was taken and not sent yet.
    pub(crate) run: Option<Run>,
    /// What is still to be told of a run that could not be sent.
    pub(crate) refused: RefusedRun,
}

/// Places for the pending runs of `workers` workers.
pub(crate) fn add_places(pending_runs: &mut Vec<PendingRun>, workers: usize) -> Result<(), NoMemory>
    ensures added { Grows no_pending_run pending_runs.old.items pending_runs.new.items }
    ensures enough { OnOk result (workers ≤ length pending_runs.new.items) }
{
    for _next in pending_runs.len()..workers {
        pending_runs.push(PendingRun::new())?;
    }
    Ok(())
}

/// Gives a pair to its worker. One whose worker does not exist is dropped.
pub(crate) fn deliver<H: Drop, M: Drop>(
    ends: &mut CarrierEnds<H, M>,
    ticket: Ticket,
    told: Told,
) -> Result<(), (Ticket, Told)>
    ensures lanes { DeliverOutcome (lanes_of ends.old) (ticket, told) result (lanes_of ends.new) }
    ensures map { ends.new.map ≡ ends.old.map }
{
    if usize::from(ticket.worker) >= ends.workers() {
        drop(told);
        return Ok(());
    }
    ends.give(ticket.worker, ticket, told)
}

impl PendingRun {
    ghost use Rattle.proxy_turns.specs.PendingRun.{target_of, TakeOutcome, TellOutcome};
    ghost use Rattle.proxy_turns.specs.RefusedRun.{tickets_in};

    pub(crate) fn new() -> PendingRun
        ensures { result ≡ no_pending_run }
    {
        PendingRun {
            run: None,
            refused: RefusedRun::none(),
        }
    }

    /// The node of the run, where no ticket is still to be told.
    pub(crate) fn target(&self) -> Option<NodeId>
        ensures { result ≡ target_of self.now.refused self.now.run }
    {
        if self.is_refused() {
            return None;
        }
        match &self.run {
            Some(run) => Some(run.first().node),
            None => None,
        }
    }

    /// Whether tickets of a refused run are still to be told.
    pub(crate) fn is_refused(&self) -> bool
        ensures { IsTrue result ↔ (self.now.refused ≢ []) }
    {
        self.refused.next().is_some()
    }

    /// Nothing of the run is sent: all its tickets are to be told.
    pub(crate) fn refuse(&mut self)
        ensures { IfSome self.old.run (λ run. self.new ≡ record { run = None; refused = tickets_in run }) }
    {
        if let Some(run) = self.run.take() {
            self.refused = RefusedRun::new(run);
        }
    }

    /// Takes the next run of the worker's lane, where none is pending. True where there was one.
    pub(crate) fn take<H: Drop, M: Drop>(
        &mut self,
        worker: u16,
        ends: &mut CarrierEnds<H, M>,
    ) -> bool
        requires { worker < length (lanes_of ends.old) }
        ensures takes { TakeOutcome worker self.old (lanes_of ends.old) result self.new (lanes_of ends.new) }
        ensures map { ends.new.map ≡ ends.old.map }
    {
        if self.run.is_some() || self.is_refused() {
            return false;
        }
        self.refill(worker, ends)
    }

    // Takes the next run of the worker's lane. None is pending.
    fn refill<H: Drop, M: Drop>(&mut self, worker: u16, ends: &mut CarrierEnds<H, M>) -> bool
        requires worker { worker < length (lanes_of ends.old) }
        requires empty { self.old ≡ no_pending_run }
        ensures takes { TakeOutcome worker self.old (lanes_of ends.old) result self.new (lanes_of ends.new) }
        ensures map { ends.new.map ≡ ends.old.map }
    {
        match ends.take(worker) {
            None => false,
            taken => {
                self.run = taken;
                true
            }
        }
    }

    /// Tells the next ticket of a refused run that it is unsent. True where there was one, and its lane took it.
    pub(crate) fn tell_unsent<H: Drop, M: Drop>(&mut self, ends: &mut CarrierEnds<H, M>) -> bool
        ensures tells { TellOutcome self.old (lanes_of ends.old) result self.new (lanes_of ends.new) }
        ensures map { ends.new.map ≡ ends.old.map }
    {
        let Some(ticket) = self.refused.next() else {
            return false;
        };
        match deliver(ends, ticket, Told::Unsent) {
            Ok(()) => {
                self.refused.told_next();
                true
            }
            Err(back) => {
                drop(back);
                false
            }
        }
    }
}
