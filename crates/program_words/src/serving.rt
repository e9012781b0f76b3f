//! `serve`: an address, nodes of the cluster, a number of workers, and an address for the page of figures.

ghost use Rattle.std.specs.Prelude.{◌≡◌, ◌<◌, ◌≤◌, IfOk, None, Some, MatchOption, codes, option_and_then};
ghost use Rattle.std.specs.Option.{option_map};
ghost use Rattle.clap.specs.Matches.{first_value, found_of, matched_of, raw_values};
ghost use Rattle.node_link.specs.Line.{number_within};
ghost use Rattle.program_words.specs.Asked.{address_in, asked, optional_address, serving_in};
ghost use Rattle.program_words.specs.Endpoints.{endpoints_of};

use crate::address::{Address, address_of};
use crate::number::workers_in;
use crate::seeds::seeds_in;
use crate::subcommand::{Setting, Subcommand};
use clap::ArgMatches;
use std::alloc::{AllocError, Global};

/// Where the proxy listens, nodes of its cluster, how many workers it has, and where its page is, if it has one.
#[derive(Drop)]
pub struct Serving<'a> {
    pub listen: Address<'a>,
    pub seeds: Vec<Address<'a>>,
    pub workers: u16,
    pub admin: Option<Address<'a>>,
    pub ghost in_range: { (0 < workers) × (workers ≤ 64) },
}

/// What stands below the settings of `serve --help`.
const AFTER_HELP: &str = "\
Example:
  cluster_proxy serve --listen 127.0.0.1:7000 --seed 10.0.0.5:6379 --workers 2
  redis-cli -p 7000 set greeting hello";

/// The subcommand and its words.
pub(crate) const SERVE: Subcommand = Subcommand {
    name: "serve",
    about: "Serve Redis clients from a Redis Cluster, until the process is ended",
    after_help: Some(AFTER_HELP),
    settings: &[
        Setting {
            name: "listen",
            value_name: "HOST:PORT",
            help: "Address to accept clients on",
            heading: Some("Clients"),
            required: true,
            repeats: false,
        },
        Setting {
            name: "seed",
            value_name: "HOST:PORT",
            help: "Address of any primary of the cluster; up to 16 times, the first that answers is asked",
            heading: Some("Cluster"),
            required: true,
            repeats: true,
        },
        Setting {
            name: "workers",
            value_name: "N",
            help: "Threads that serve clients, 1 to 64; one more accepts them",
            heading: Some("Clients"),
            required: true,
            repeats: false,
        },
        Setting {
            name: "admin",
            value_name: "HOST:PORT",
            help: "Address to answer for /metrics, /healthz and /drain on, over HTTP; without it there is no page",
            heading: Some("Operation"),
            required: false,
            repeats: false,
        },
    ],
};

/// What the words of `serve` ask for, where they can be read.
pub fn serving_of<'a>(
    alloc: Global,
    words: &ArgMatches<'a>,
) -> Result<Option<Serving<'a>>, AllocError>
    ensures { IfOk result (λ found. MatchOption found (serving_in (first_value (found_of words.now)) (λ id. option_map raw_values (matched_of (found_of words.now) id)) ≡ None)
        (λ s. serving_in (first_value (found_of words.now)) (λ id. option_map raw_values (matched_of (found_of words.now) id)) ≡ Some (record {
          listen = record { host = s.listen.host.now; port = s.listen.port };
          seeds = endpoints_of s.seeds.items;
          workers = s.workers;
          admin = option_map (λ a. record { host = a.host.now; port = a.port }) s.admin;
        }))) }
{
    let seeds = seeds_in(alloc, words)?;
    Ok(serving_from(words, seeds))
}

/// What the words ask for beside these seeds.
fn serving_from<'a>(words: &ArgMatches<'a>, seeds: Option<Vec<Address<'a>>>) -> Option<Serving<'a>>
    ensures { MatchOption result
        (asked (option_and_then address_in (first_value (found_of words.now) (codes "listen"))) (option_map (λ seeds. endpoints_of seeds.items) seeds.entry)
        (option_and_then (number_within 1 64) (first_value (found_of words.now) (codes "workers"))) (optional_address (first_value (found_of words.now) (codes "admin"))) ≡ None)
        (λ s. asked (option_and_then address_in (first_value (found_of words.now) (codes "listen"))) (option_map (λ seeds. endpoints_of seeds.items) seeds.entry)
        (option_and_then (number_within 1 64) (first_value (found_of words.now) (codes "workers"))) (optional_address (first_value (found_of words.now) (codes "admin"))) ≡ Some (record {
          listen = record { host = s.listen.host.now; port = s.listen.port };
          seeds = endpoints_of s.seeds.items;
          workers = s.workers;
          admin = option_map (λ a. record { host = a.host.now; port = a.port }) s.admin;
        })) }
{
    let listen = address_in(words, "listen")?;
    let workers = workers_in(words)?;
    let admin = admin_in(words)?;
    Some(Serving {
        listen,
        seeds: seeds?,
        workers,
        admin,
    })
}

/// The address of the page, where the words give one.
fn admin_in<'a>(words: &ArgMatches<'a>) -> Option<Option<Address<'a>>>
    ensures { MatchOption result (optional_address (first_value (found_of words.now) (codes "admin")) ≡ None)
        (λ admin. optional_address (first_value (found_of words.now) (codes "admin")) ≡ Some (option_map (λ a. record { host = a.host.now; port = a.port }) admin)) }
{
    match words.get_str("admin") {
        Some(text) => Some(Some(address_of(text)?)),
        None => Some(None),
    }
}

/// The address that the words give for this setting.
fn address_in<'a>(words: &ArgMatches<'a>, setting: &str) -> Option<Address<'a>>
    ensures { MatchOption result (option_and_then address_in (first_value (found_of words.now) setting.now) ≡ None)
        (λ a. option_and_then address_in (first_value (found_of words.now) setting.now) ≡ Some (record { host = a.host.now; port = a.port })) }
{
    address_of(words.get_str(setting)?)
}
