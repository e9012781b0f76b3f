//! `local`: scripts of clients, run on a cluster in one process.

ghost use Rattle.std.specs.Prelude.{◌≡◌, ◌<◌, ◌≤◌, option_and_then, codes};
ghost use Rattle.std.specs.Option.{option_map};
ghost use Rattle.clap.specs.Matches.{first_value, found_of};
ghost use Rattle.node_link.specs.Line.{number_within};

use crate::number::workers_in;
use crate::subcommand::{Setting, Subcommand};
use clap::ArgMatches;

/// How many workers serve the clients of the scripts.
#[derive(Clone, Copy)]
pub struct Playing {
    pub workers: u16,
    pub ghost in_range: { (0 < workers) × (workers ≤ 64) },
}

/// The subcommand and its words.
pub(crate) const LOCAL: Subcommand = Subcommand {
    name: "local",
    about: "Run client scripts from standard input on a cluster in this process, print the replies and check the run",
    after_help: None,
    settings: &[Setting {
        name: "workers",
        value_name: "N",
        help: "Threads that serve clients, 1 to 64",
        heading: None,
        required: true,
        repeats: false,
    }],
};

/// What the words of `local` ask for, where they can be read.
pub fn playing_of(words: &ArgMatches<'_>) -> Option<Playing>
    ensures { option_map (λ p. p.workers) result ≡ option_and_then (number_within 1 64) (first_value (found_of words.now) (codes "workers")) }
{
    Some(Playing {
        workers: workers_in(words)?,
    })
}
