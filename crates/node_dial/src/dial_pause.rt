//! When a node may be dialled again.

ghost use Rattle.std.specs.Prelude.{◌≡◌, ◌↔◌, ◌≤◌, IsTrue};
ghost use Rattle.node_dial.specs.DialPause.{after_failure, no_pause, pause_millis};

use std::marker::Model;

/// How long a node is left alone after the first failed dial, in milliseconds.
const FIRST_PAUSE_MILLIS: u64 = 50;
/// How long a node is left alone at most, in milliseconds.
const LONGEST_PAUSE_MILLIS: u64 = 1000;
/// How often the pause is doubled, from one failure in a row to the next.
const DOUBLINGS: u64 = 5;

/// How many dials of a node failed in a row, and when the next may begin.
#[derive(Drop)]
pub(crate) struct DialPause {
    failures: u64,
    /// When the next dial may begin, in milliseconds.
    until: u64,
}

impl Model for DialPause {
    ghost use Rattle.node_dial.specs.DialPause.{Pause};

    ghost Value = { Pause };

    ghost view = { λ pause. record { failures = pause.failures; until = pause.until } };
}

impl DialPause {
    /// No pause: the node was never dialled, or its last connection stood.
    pub(crate) fn none() -> DialPause
        ensures { result ≡ no_pause }
    {
        DialPause {
            failures: 0,
            until: 0,
        }
    }

    /// Whether a dial may begin at this time.
    pub(crate) fn may_dial(&self, now: u64) -> bool
        ensures { IsTrue result ↔ (self.now.until ≤ now) }
    {
        self.until <= now
    }

    /// Notes that a dial failed at this time.
    pub(crate) fn note_failure(&mut self, now: u64)
        ensures { self.new ≡ after_failure self.old now }
    {
        self.until = now.saturating_add(pause_after(self.failures));
        self.failures = self.failures.saturating_add(1);
    }
}

/// How long the pause is after a failure behind `earlier` others in a row, in milliseconds.
#[tactic(auto, using(crate::proofs::PauseLemmas::longest, crate::proofs::PauseLemmas::shifted))]
fn pause_after(earlier: u64) -> u64
    ensures { result ≡ pause_millis earlier }
{
    if earlier >= DOUBLINGS {
        return LONGEST_PAUSE_MILLIS;
    }
    FIRST_PAUSE_MILLIS << earlier
}
