//! A run that was refused, whose commands are told so one after the other.

ghost use Rattle.std.specs.Prelude.{◌≡◌, [], drop, slice_get};
ghost use Rattle.proxy_turns.specs.RefusedRun.{tickets_in};

use key_split::{Run, Ticket};
use std::marker::Model;

/// The tickets of a refused run that are still to be told so, in order.
#[derive(Drop)]
pub struct RefusedRun {
    run: Option<Run>,
    /// How many of its tickets were told.
    told: usize,
}

impl Model for RefusedRun {
    ghost use Rattle.std.specs.Prelude.{List};
    ghost use Rattle.key_split.specs.declared.travel.Ticket.{Ticket};
    ghost use Rattle.proxy_turns.specs.RefusedRun.{tickets_left};

    ghost Value = { List Ticket };

    ghost view = { λ refused. tickets_left refused.run refused.told };
}

impl RefusedRun {
    /// No run was refused.
    pub(crate) fn none() -> RefusedRun
        ensures { result ≡ [] }
    {
        RefusedRun { run: None, told: 0 }
    }

    /// All tickets of the run are to be told.
    pub(crate) fn new(run: Run) -> RefusedRun
        ensures { result ≡ tickets_in run }
    {
        RefusedRun {
            run: Some(run),
            told: 0,
        }
    }

    /// The ticket that is to be told next.
    pub(crate) fn next(&self) -> Option<Ticket>
        ensures { result ≡ slice_get self.now 0 }
    {
        match &self.run {
            Some(run) => ticket_at(run, self.told),
            None => None,
        }
    }

    /// The next ticket was told.
    pub(crate) fn told_next(&mut self)
        ensures { self.new ≡ drop 1 self.old }
    {
        let Some(run) = &self.run else {
            return;
        };
        if self.told < run.len() - 1 {
            self.told += 1;
        } else {
            self.run = None;
        }
    }
}

// The ticket of one of the commands.
fn ticket_at(run: &Run, place: usize) -> Option<Ticket>
    ensures { result ≡ slice_get (tickets_in run.now) place }
{
    if place == 0 {
        return Some(run.first().ticket);
    }
    match run.later().get(place - 1) {
        Some(batch) => Some(batch.ticket),
        None => None,
    }
}
