//! `nodes`: three ports.

ghost use Rattle.std.specs.Prelude.{◌≡◌, option_and_then, codes};
ghost use Rattle.clap.specs.Matches.{first_value, found_of};
ghost use Rattle.program_words.specs.Asked.{ports_in};

use crate::number::port_of;
use crate::subcommand::{Setting, Subcommand};
use clap::ArgMatches;

/// The ports of the three nodes.
pub type Ports = [u16; 3];

/// The subcommand and its words.
pub(crate) const NODES: Subcommand = Subcommand {
    name: "nodes",
    about: "Serve an example cluster of three empty nodes on 127.0.0.1, until the process is ended",
    after_help: None,
    settings: &[Setting {
        name: "ports",
        value_name: "A,B,C",
        help: "Ports of the three nodes",
        heading: None,
        required: true,
        repeats: false,
    }],
};

/// Three ports with a comma between them.
pub fn ports_of(text: &str) -> Option<Ports>
    ensures { result ≡ ports_in text.now }
{
    let (first, rest) = text.split_once(',')?;
    let (second, third) = rest.split_once(',')?;
    Some([port_of(first)?, port_of(second)?, port_of(third)?])
}

/// The ports that the words of `nodes` give, where they can be read.
pub fn ports_in(words: &ArgMatches<'_>) -> Option<Ports>
    ensures { result ≡ option_and_then ports_in (first_value (found_of words.now) (codes "ports")) }
{
    ports_of(words.get_str("ports")?)
}
