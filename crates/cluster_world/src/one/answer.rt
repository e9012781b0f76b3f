//! The answer of an empty store to one request.

ghost use Rattle.std.specs.Prelude.{◌≡◌, ◌<◌, length, IfOk};
ghost use Rattle.std.specs.FinMap.{empty};
ghost use Rattle.cluster_world.specs.Answers.{Answers, EndsFrom};

use key_split::{Ended, Part, Planned, join, plan, refusal};
use node_model::Store;
use resp_wire::{Bytes, Line, NoMemory, Value};
use std::alloc::Global;

/// The reply of a server with an empty store to the words of a request.
pub fn reply_on_empty(alloc: Global, words: &[Bytes]) -> Result<Value, NoMemory>
    requires { 0 < length words.now }
    ensures { IfOk result (λ reply. Answers words.now reply) }
{
    match plan(alloc, words) {
        Ok(Planned::Local(reply)) => Ok(reply),
        Ok(Planned::Parts(joining, parts)) => {
            let ends = ends_on_empty(alloc, parts.as_slice())?;
            join(alloc, &joining, ends.as_slice())
        }
        Ok(Planned::Close) => Ok(Value::Simple(Line::from_text(alloc, b"OK")?)),
        Err(fault) => refusal(alloc, &fault),
    }
}

/// The ends of the parts, which a store that begins empty executes one after another.
fn ends_on_empty(alloc: Global, parts: &[Part]) -> Result<Vec<Ended>, NoMemory>
    ensures count { IfOk result (λ ends. length ends.items ≡ length parts.now) }
    ensures ends { IfOk result (λ ends. EndsFrom empty parts.now ends.items) }
{
    let mut store = Store::new(alloc);
    let mut ends = Vec::with_capacity(alloc, parts.len())?;
    let mut rest = parts;
    while let [part, further @ ..] = rest {
        ends.push(Ended::Answered(store.apply(part)?))?;
        rest = further;
    }
    Ok(ends)
}
