//! The replies to requests of the table that are not passed on.

ghost use Rattle.std.specs.Prelude.{◌≡◌, [], IfOk, IsTrue, map, unwrap_or};
ghost use Rattle.std.specs.List.{slice_get};
ghost use Rattle.std.specs.Option.{option_map};
ghost use Rattle.resp_wire.specs.Text.{is_one_line};
ghost use Rattle.relayed_keys.specs.Texts.{about, relay_refusal_of, row_name};

use crate::keys::RelayFault;
use crate::table::NAMES;
use key_split::{error_line, into_error};
use resp_wire::{NoMemory, Value};
use std::alloc::Global;

/// The reply to a request of the table that is not passed on.
pub fn relay_refusal(alloc: Global, fault: &RelayFault) -> Result<Value, NoMemory>
    ensures { IfOk result (λ reply. reply ≡ relay_refusal_of fault.now) }
{
    match *fault {
        RelayFault::WrongCount(row) => about(alloc, b"ERR wrong number of arguments for '", row),
        RelayFault::Blocks => error_line(alloc, b"ERR proxy: BLOCK is not passed on"),
        RelayFault::SortBy => error_line(alloc, b"ERR BY option of SORT denied in Cluster mode."),
        RelayFault::SortGet => error_line(alloc, b"ERR GET option of SORT denied in Cluster mode."),
        RelayFault::NotANumber => {
            error_line(alloc, b"ERR value is not an integer or out of range")
        }
        RelayFault::BadCount => error_line(alloc, b"ERR Bad number of keys provided"),
        RelayFault::NegativeCount => error_line(alloc, b"ERR Number of keys can't be negative"),
        RelayFault::NotAboveZero => error_line(alloc, b"ERR numkeys should be greater than 0"),
        RelayFault::NoInputKey(row) => {
            about(alloc, b"ERR at least 1 input key is needed for '", row)
        }
        RelayFault::TooManyKeys => {
            error_line(
                alloc,
                b"ERR Number of keys can't be greater than number of args",
            )
        }
        RelayFault::Syntax => error_line(alloc, b"ERR syntax error"),
        RelayFault::Unbalanced => error_line(
            alloc,
            b"ERR Unbalanced XREAD list of streams: for each stream key an ID or '$' must be specified.",
        ),
        RelayFault::NoKey => error_line(
            alloc,
            b"ERR proxy: a script without keys is not passed on",
        ),
        RelayFault::CrossSlot => {
            error_line(
                alloc,
                b"CROSSSLOT Keys in request don't hash to the same slot",
            )
        }
    }
}

/// An error about the command of the row.
#[tactic(auto, using(crate::proofs::KeyLemmas::is_one_line_about))]
fn about(alloc: Global, front: &[u8], row: usize) -> Result<Value, NoMemory>
    requires { IsTrue (is_one_line front.now) }
    ensures { IfOk result (λ reply. reply ≡ about front.now row) }
{
    let mut text = Vec::from_slice(alloc, front)?;
    text.extend_from_slice(row_name(row))?;
    text.extend_from_slice(b"' command")?;
    Ok(into_error(text))
}

#[tactic(auto, unfolding(crate::specs::Texts::row_name))]
fn row_name(row: usize) -> &'static [u8]
    ensures { result.now ≡ row_name row }
{
    name_or_none(row)
}

/// The name of the row, or nothing.
fn name_or_none(row: usize) -> &'static [u8]
    ensures { result.now ≡ unwrap_or (slice_get (map (λ name. name.now) NAMES) row) [] }
{
    match name_in_table(row) {
        None => b"",
        Some(name) => name.as_bytes(),
    }
}

fn name_in_table(row: usize) -> Option<&'static str>
    ensures { option_map (λ name. name.now) result ≡ slice_get (map (λ name. name.now) NAMES) row }
{
    name_among(&NAMES, row)
}

fn name_among<'a>(names: &[&'a str], row: usize) -> Option<&'a str>
    ensures { option_map (λ name. name.now) result ≡ slice_get (map (λ name. name.now) names.now) row }
{
    names.get(row).copied()
}
