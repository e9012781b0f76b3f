//! The replies that are held for a client or will be: how large the next may be, and how many of them may be under way.

ghost use Rattle.std.specs.Prelude.{◌≤◌};

use crate::client_limits::MAX_REPLIES;
use key_split::Ended;
use resp_wire::Value;

/// Bytes that a reply counts as at least.
const SMALLEST: usize = 1024;
/// What a reply counts as before one has come.
const UNKNOWN: usize = 16 * 1024;
/// The parts that are begun, however much is held.
const FEWEST: u64 = 4;

/// The size of a client's last replies, and what is held of those that came or will come, in bytes.
#[derive(Drop, Clone, Copy)]
pub(crate) struct HeldReplies {
    // The largest of the last replies, or a little less for each since.
    size: usize,
    // Parts that were begun and have not ended.
    under_way: usize,
    // Of parts that have ended, and were not drained.
    ended: usize,
}

impl HeldReplies {
    /// None has come, and none will.
    pub(crate) fn new() -> HeldReplies {
        HeldReplies {
            size: UNKNOWN,
            under_way: 0,
            ended: 0,
        }
    }

    /// A part is begun.
    pub(crate) fn begin(&mut self) {
        self.under_way = self.under_way.saturating_add(1);
    }

    /// A part has ended.
    pub(crate) fn end(&mut self, end: &Ended) {
        let bytes = size_of(end);
        let least = self.size - self.size / 8;
        self.size = bytes.max(least).max(SMALLEST);
        self.under_way = self.under_way.saturating_sub(1);
        self.ended = self.ended.saturating_add(bytes);
    }

    /// `count` bytes were drained.
    pub(crate) fn drain(&mut self, count: usize) {
        self.ended = self.ended.saturating_sub(count);
    }

    /// How many bytes are held, or will be.
    pub(crate) fn held(self) -> usize {
        let to_come = self.under_way.saturating_mul(self.size.max(SMALLEST));
        to_come.saturating_add(self.ended)
    }

    /// How many parts may be begun whose replies were not drained: the fewest where too much is held for all clients.
    pub(crate) fn parts_at_once(self, is_crowded: bool) -> u64
        ensures { FEWEST ≤ result }
    {
        if is_crowded {
            return FEWEST;
        }
        let fitting = MAX_REPLIES / self.size.max(SMALLEST);
        (fitting as u64).max(FEWEST)
    }
}

fn size_of(end: &Ended) -> usize {
    match end {
        Ended::Answered(Value::Array(values)) => {
            let sizes = values.as_slice().iter().map(bulk_size);
            sizes.fold(0, usize::saturating_add)
        }
        Ended::Answered(value) => bulk_size(value),
        _ => 0,
    }
}

fn bulk_size(value: &Value) -> usize {
    match value {
        Value::Bulk(bytes) => bytes.as_slice().len(),
        _ => 0,
    }
}
