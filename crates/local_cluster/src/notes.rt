//! What a request was told, noted.

ghost use Rattle.std.specs.Prelude.{◌≡◌, ◌<◌, ◌≤◌, ◌&&◌, vec_capacity, vec_len};
ghost use Rattle.std.specs.List.{list_any};
ghost use Rattle.local_cluster.specs.Local.{asks_after, asks_of_others, is_ask_for};

use crate::asked::Asked;
use key_split::{Batch, Part, Ticket, Told};

/// Whether the request counts as asking: it asks, and follows an ASK.
pub(crate) fn counts_as_asking(asks: &[Asked], batch: &Batch) -> bool
    ensures { result ≡ batch.now.asking && list_any (is_ask_for batch.now) asks.now }
{
    batch.asking && was_asked(asks, batch)
}

/// Whether the last answer to the request's ticket was ASK to its node, for its part.
fn was_asked(asks: &[Asked], batch: &Batch) -> bool
    ensures { result ≡ list_any (is_ask_for batch.now) asks.now }
{
    asks.iter().any(|asked| is_ask_for(batch, asked))
}

fn is_ask_for(batch: &Batch, asked: &Asked) -> bool
    ensures { result ≡ is_ask_for batch.now asked.now }
{
    asked.ticket == batch.ticket && asked.part == batch.part && asked.node == batch.node
}

/// Notes what a request was told. There is room for an ASK; `part` is the one to keep.
pub(crate) fn note(asks: &mut Vec<Asked>, batch: &Batch, part: Part, told: &Told)
    requires room { vec_len asks.old < vec_capacity asks.old }
    requires same_part { part ≡ batch.now.part }
    ensures { asks.new.items ≡ asks_after asks.old.items batch.now told.now }
{
    forget(asks, batch.ticket);
    match told {
        Told::Ask(_, node) => asks.push_reserved(Asked {
            ticket: batch.ticket,
            part,
            node: *node,
        }),
        Told::Reply(_)
        | Told::Moved(_, _)
        | Told::TryAgain
        | Told::ClusterDown
        | Told::Unclear
        | Told::Lost
        | Told::Unsent => {}
    }
}

/// Takes out the ASK that the ticket was told last.
fn forget(asks: &mut Vec<Asked>, ticket: Ticket)
    ensures items { asks.new.items ≡ asks_of_others ticket asks.old.items }
    ensures len { vec_len asks.new ≤ vec_len asks.old }
    ensures capacity { vec_capacity asks.new ≡ vec_capacity asks.old }
{
    asks.retain(|asked| asked.ticket != ticket);
}
