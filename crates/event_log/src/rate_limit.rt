//! How often a line of one kind is written.

ghost use Rattle.std.specs.Prelude.{◌≡◌};
ghost use Rattle.event_log.specs.Rate.{Admits};

use std::marker::Model;

/// Lets one line an interval pass. It knows when the next may come, and how many were left out since the last.
#[derive(Drop)]
pub struct RateLimit {
    next: u64,
    left_out: u64,
}

impl Model for RateLimit {
    ghost use Rattle.event_log.specs.Rate.{Limit};

    ghost Value = { Limit };

    ghost view = { λ limit. record { next = limit.next; left_out = limit.left_out } };
}

impl RateLimit {
    /// A limit that lets the first line pass.
    pub fn new() -> RateLimit
        ensures { result ≡ record { next = 0; left_out = 0 } }
    {
        RateLimit {
            next: 0,
            left_out: 0,
        }
    }

    /// Whether a line may be written at this time, with the count of those that were left out before it.
    pub fn admit(&mut self, now: u64, interval: u64) -> Option<u64>
        ensures { Admits interval self.old now result self.new }
    {
        if now < self.next {
            self.left_out = self.left_out.saturating_add(1);
            return None;
        }
        let left_out = self.left_out;
        self.next = now.saturating_add(interval);
        self.left_out = 0;
        Some(left_out)
    }
}
