//! Numbers in the words of the program.

ghost use Rattle.std.specs.Prelude.{◌≡◌, option_and_then, codes};
ghost use Rattle.clap.specs.Matches.{first_value, found_of};
ghost use Rattle.node_link.specs.Line.{number_within};

use clap::ArgMatches;
use node_link::number_within;

/// The most workers of a run.
const WORKERS: u16 = 64;

/// A port: one to five digits, from 1 to 65535.
pub fn port_of(text: &str) -> Option<u16>
    ensures { result ≡ number_within 1 65535 text.now }
{
    number_within(text.as_bytes(), 1, u16::MAX)
}

/// How many workers: one to five digits, from 1 to 64.
pub fn workers_of(text: &str) -> Option<u16>
    ensures { result ≡ number_within 1 64 text.now }
{
    number_within(text.as_bytes(), 1, WORKERS)
}

/// How many workers the words ask for, where they can be read.
pub(crate) fn workers_in(words: &ArgMatches<'_>) -> Option<u16>
    ensures { result ≡ option_and_then (number_within 1 64) (first_value (found_of words.now) (codes "workers")) }
{
    workers_of(words.get_str("workers")?)
}
