//! What a client's value asks for.

ghost use Rattle.std.specs.Prelude.{◌≡◌, IfErr};
ghost use Rattle.resp_wire.specs.Seen.{data_of};
ghost use Rattle.session_order.specs.Requests.{asked_of, is_empty_array};
ghost use Rattle.session_order.specs.RequestKind.{Asks};

use resp_wire::{Value, Words};
use std::alloc::Global;

/// What a client's value asks for.
#[derive(Drop)]
pub enum RequestKind {
    /// The words of a request; there is at least one.
    Words(Words),
    /// An empty or a null array, which asks for nothing.
    Skipped,
    /// A value that is no request.
    Refused,
}

/// What a client's value asks for. A request comes back where no memory is there for the list of its words.
#[tactic(auto, using(crate::proofs::Asking::asks_nothing, crate::proofs::Asking::is_refused, crate::proofs::Asking::words_asked, crate::proofs::Asking::request_kept))]
pub fn kind_of(alloc: Global, value: Value) -> Result<RequestKind, Value>
    ensures asks { Asks (asked_of (data_of value)) result }
    ensures kept { IfErr result (λ kept. kept ≡ value) }
{
    if is_empty_array(&value) {
        return Ok(RequestKind::Skipped);
    }
    if !value.is_request() {
        return Ok(RequestKind::Refused);
    }
    match value.into_words(alloc) {
        Ok(words) => Ok(RequestKind::Words(words)),
        Err(value) => Err(value),
    }
}

fn is_empty_array(value: &Value) -> bool
    ensures { result ≡ is_empty_array (data_of value.now) }
{
    match value {
        Value::Array(items) => items.as_slice().is_empty(),
        Value::NullArray => true,
        _ => false,
    }
}
