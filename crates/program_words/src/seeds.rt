//! The seeds: nodes of the cluster that are known at the start.

ghost use Rattle.std.specs.Prelude.{◌≡◌, IfOk, map, codes, option_and_then, option_map};
ghost use Rattle.clap.specs.Matches.{found_of, matched_of, raw_values};
ghost use Rattle.program_words.specs.Asked.{addresses_in, seeds_in};
ghost use Rattle.program_words.specs.Endpoints.{endpoints_of};
ghost use Rattle.program_words.specs.SeedTable.{IsTableOf};

use crate::address::{Address, address_of};
use clap::ArgMatches;
use slot_map::{MapFault, NodeTable};
use std::alloc::{AllocError, Global};

/// The most seeds.
const MOST_SEEDS: usize = 16;

/// The seeds that the words give, where they can be read.
pub(crate) fn seeds_in<'a>(
    alloc: Global,
    words: &ArgMatches<'a>,
) -> Result<Option<Vec<Address<'a>>>, AllocError>
    ensures { IfOk result (λ found. option_map (λ seeds. endpoints_of seeds.items) found
        ≡ option_and_then seeds_in (option_map raw_values (matched_of (found_of words.now) (codes "seed")))) }
{
    match words.get_strs("seed") {
        Some(texts) => seeds_of(alloc, texts),
        None => Ok(None),
    }
}

/// One to sixteen seeds.
fn seeds_of<'a>(alloc: Global, texts: &[&'a str]) -> Result<Option<Vec<Address<'a>>>, AllocError>
    ensures { IfOk result (λ found. option_map (λ seeds. endpoints_of seeds.items) found ≡ seeds_in (map (λ text. text.now) texts.now)) }
{
    if texts.is_empty() || texts.len() > MOST_SEEDS {
        return Ok(None);
    }
    addresses_of(alloc, texts)
}

/// The addresses that the texts name, where each names one.
fn addresses_of<'a>(
    alloc: Global,
    texts: &[&'a str],
) -> Result<Option<Vec<Address<'a>>>, AllocError>
    ensures { IfOk result (λ found. option_map (λ addresses. endpoints_of addresses.items) found ≡ addresses_in (map (λ text. text.now) texts.now)) }
{
    let mut addresses = Vec::new(alloc);
    for text in texts {
        let Some(address) = address_of(*text) else {
            return Ok(None);
        };
        addresses.push(address)?;
    }
    Ok(Some(addresses))
}

/// The seeds as the nodes of a table, in their order, each once.
pub fn seed_table(alloc: Global, seeds: &[Address<'_>]) -> Result<NodeTable, MapFault>
    ensures { IsTableOf (endpoints_of seeds.now) result }
{
    let mut table = NodeTable::new(alloc);
    for seed in seeds {
        table.intern(seed.host.as_bytes(), seed.port)?;
    }
    Ok(table)
}
