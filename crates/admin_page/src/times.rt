//! How long requests took.

ghost use Rattle.std.specs.Prelude.{◌≡◌, ◌<◌, ◌++◌, OnOk, drop, nat_le, position};
ghost use Rattle.admin_page.specs.Times.{bound_at, bounds, bucket_of, seconds_text, total, up_to};

use itoa::Buffer;
use std::alloc::AllocError;

/// How many buckets there are.
pub const BUCKETS: usize = 16;

/// The bounds of the buckets but the last, in microseconds.
const BOUNDS: [u64; 15] = [
    250, 500, 1_000, 2_500, 5_000, 10_000, 25_000, 50_000, 100_000, 250_000, 500_000, 1_000_000,
    2_500_000, 5_000_000, 10_000_000,
];

/// A histogram of the time from a request's reading to its reply's writing.
#[derive(Clone, Copy)]
pub struct Times {
    /// How many fell into each bucket.
    pub counts: [u64; BUCKETS],
    /// All of them together, in microseconds.
    pub micros: u64,
}

/// The bucket of a time.
pub fn bucket_of(micros: u64) -> usize
    ensures bucket { result ≡ bucket_of micros }
    ensures within { result < BUCKETS }
{
    bound_of(micros).unwrap_or(BUCKETS - 1)
}

/// The first bound that is not below the time.
fn bound_of(micros: u64) -> Option<usize>
    ensures { result ≡ position (λ bound. nat_le micros bound) bounds }
{
    BOUNDS.iter().position(|bound| micros <= *bound)
}

impl Times {
    /// Nothing was counted.
    pub const NONE: Times = Times {
        counts: [0; BUCKETS],
        micros: 0,
    };

    /// How many were counted in the bucket of this place and those before it.
    pub fn up_to(&self, place: usize) -> u64
        ensures { result ≡ up_to place self.now.counts }
    {
        let buckets = place.saturating_add(1).min(BUCKETS);
        total(&self.counts[..buckets])
    }

    /// How many were counted in all.
    pub fn count(&self) -> u64
        ensures { result ≡ total self.now.counts }
    {
        total(&self.counts)
    }
}

/// All these counts together.
fn total(counts: &[u64]) -> u64
    ensures { result ≡ total counts.now }
{
    counts
        .iter()
        .fold(0, |total, count| total.saturating_add(*count))
}

/// The bound of the bucket of this place; 0 of the last, which has none.
pub(crate) fn bound_at(place: usize) -> u64
    ensures { result ≡ bound_at place }
{
    match BOUNDS.get(place) {
        Some(bound) => *bound,
        None => 0,
    }
}

/// Adds `micros` microseconds, in seconds.
pub(crate) fn push_seconds(text: &mut Vec<u8>, micros: u64) -> Result<(), AllocError>
    ensures { OnOk result (text.new.items ≡ text.old.items ++ seconds_text micros) }
{
    let mut whole = Buffer::new();
    text.extend_from_slice(whole.format(micros / 1_000_000).as_bytes())?;
    text.push(b'.')?;
    let mut places = Buffer::new();
    let digits = places.format(1_000_000 + micros % 1_000_000).as_bytes();
    text.extend_from_slice(behind_first(digits))
}

/// What stands behind the first byte.
fn behind_first(digits: &[u8]) -> &[u8]
    ensures { result.now ≡ drop 1 digits.now }
{
    match digits {
        [] => digits,
        [_, places @ ..] => places,
    }
}
