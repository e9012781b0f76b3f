//! The reply to a request in two copies: one is made before the nodes execute it, so that nothing is lost where memory
//! runs out.

ghost use Rattle.std.specs.Prelude.{◌≡◌, ◌<◌, IfOk, OnOk, length, map};
ghost use Rattle.std.specs.FinMap as finite;
ghost use Rattle.resp_wire.specs.Seen.{data_of};
ghost use Rattle.key_split.specs.PartModel.{pairs_in};
ghost use Rattle.local_cluster.specs.Foresight.{foreseen, items_in, items_told, laid, put_read, reading, IsForeseen, ServesTwice};

use key_split::{Batch, Mode, Op, Pair, Part, Told};
use node_model::{Cluster, ServeFault, Store, Verdict};
use resp_wire::{Bytes, NoMemory, Value, Values};
use std::alloc::Global;

/// Serves the request at its node. Where it is told a reply, there is a copy of it.
pub(crate) fn serve_twice(
    alloc: Global,
    cluster: &mut Cluster,
    batch: &Batch,
    asking: bool,
) -> Result<(Told, Option<Value>), ServeFault>
    requires { batch.now.node < length cluster.old.stores }
    ensures { ServesTwice cluster.old batch.now asking result cluster.new }
{
    node_model::mget_reads();
    let reading = reading_of(alloc, &batch.part)?;
    let found = cluster.serve(batch.node, asking, &reading, Verdict::Plain)?;
    let copy = copy_of(alloc, &batch.part, found)?;
    let told = cluster.serve(batch.node, asking, &batch.part, Verdict::Plain)?;
    Ok((told, copy))
}

/// The command that reads the same keys.
fn reading_of(alloc: Global, part: &Part) -> Result<Part, NoMemory>
    ensures { IfOk result (λ made. made ≡ reading part.now) }
{
    let none = Bytes::new(Vec::new(alloc));
    let mut made = Part::new(alloc, Op::MGet, part.key().copy(alloc)?, none);
    for (key, _) in part.rest() {
        made.push(key.copy(alloc)?, Bytes::new(Vec::new(alloc)))?;
    }
    Ok(made)
}

/// The reply to a command, by what reading its keys was told, if that was an array.
fn copy_of(alloc: Global, part: &Part, found: Told) -> Result<Option<Value>, NoMemory>
    ensures { IfOk result (IsForeseen part.now (items_told found)) }
{
    match items_told(found) {
        Some(values) => Ok(Some(foresee(alloc, part, &values)?)),
        None => Ok(None),
    }
}

/// The items of an array that was told.
fn items_told(told: Told) -> Option<Values>
    ensures { result ≡ items_told told }
{
    match told {
        Told::Reply(value) => items_in(value),
        Told::Moved(_, _)
        | Told::Ask(_, _)
        | Told::TryAgain
        | Told::ClusterDown
        | Told::Unclear
        | Told::Lost
        | Told::Unsent => None,
    }
}

fn items_in(value: Value) -> Option<Values>
    ensures { result ≡ items_in value }
{
    match value {
        Value::Array(values) => Some(values),
        Value::Simple(_)
        | Value::Error(_)
        | Value::Integer(_)
        | Value::Bulk(_)
        | Value::NullBulk
        | Value::NullArray => None,
    }
}

/// What one store replies in which the command's keys have these values.
fn foresee(alloc: Global, part: &Part, values: &Values) -> Result<Value, NoMemory>
    ensures { IfOk result (λ reply. data_of reply ≡ foreseen part.now values.now) }
{
    let mut store = store_of(alloc, part, values)?;
    store.apply(part)
}

/// A store in which the command's keys have these values.
fn store_of(alloc: Global, part: &Part, values: &Values) -> Result<Store, NoMemory>
    ensures { IfOk result (λ store. store ≡ laid finite.empty (pairs_in part.now) values.now) }
{
    let mut store = Store::new(alloc);
    match values.as_slice() {
        [] => {}
        [first, later @ ..] => {
            put_read(alloc, &mut store, part.key(), first)?;
            lay(alloc, &mut store, part.rest(), later)?;
        }
    }
    Ok(store)
}

/// Puts each key with its value.
fn lay(alloc: Global, store: &mut Store, pairs: &[Pair], values: &[Value]) -> Result<(), NoMemory>
    ensures { OnOk result (store.new ≡ laid store.old pairs.now (map data_of values.now)) }
{
    let mut keys = pairs;
    let mut found = values;
    while let [(key, _), further @ ..] = keys {
        let [value, later @ ..] = found else {
            return Ok(());
        };
        put_read(alloc, store, key, value)?;
        keys = further;
        found = later;
    }
    Ok(())
}

/// Puts the key with a value that was read there.
fn put_read(alloc: Global, store: &mut Store, key: &Bytes, value: &Value) -> Result<(), NoMemory>
    ensures { OnOk result (store.new ≡ put_read store.old key.now (data_of value.now)) }
{
    match value {
        Value::Bulk(bytes) => {
            let set = Part::new(
                alloc,
                Op::Set(Mode::Always),
                key.copy(alloc)?,
                bytes.copy(alloc)?,
            );
            drop(store.apply(&set)?);
            Ok(())
        }
        Value::Simple(_)
        | Value::Error(_)
        | Value::Integer(_)
        | Value::NullBulk
        | Value::Array(_)
        | Value::NullArray => Ok(()),
    }
}
