//! Families of one kind or another.

ghost use Rattle.std.specs.Prelude.{◌≡◌, ◌++◌, IfOk, OnOk, map};
ghost use Rattle.std.specs.List.{flat_map, range_with_len};
ghost use Rattle.admin_page.specs.Page.{bucket_sample, by_thread, counter, gauge, histogram, known_gauge, node_sample, one_if, sum_samples, thread_sample};
ghost use Rattle.admin_page.specs.Text.{family_text, sample_text};
ghost use Rattle.admin_page.specs.Times.{bound_text};

use crate::figures::{NodeFigures, WorkerFigure, WorkerFigures};
use crate::text::{Head, push_head, push_labelled, push_plain, push_value};
use crate::times::{BUCKETS, Times, bound_at, push_seconds};
use itoa::Buffer;
use std::alloc::{AllocError, Global};

/// Adds a number that only rises.
pub(crate) fn push_counter(
    text: &mut Vec<u8>,
    name: &'static str,
    help: &'static str,
    value: u64,
) -> Result<(), AllocError>
    ensures { OnOk result (text.new.items ≡ text.old.items ++ family_text (counter name.now help.now value)) }
{
    let kind = "counter";
    push_head(text, Head { name, kind, help })?;
    push_plain(text, name, value)
}

/// Adds a number that may fall.
pub(crate) fn push_gauge(
    text: &mut Vec<u8>,
    name: &'static str,
    help: &'static str,
    value: u64,
) -> Result<(), AllocError>
    ensures { OnOk result (text.new.items ≡ text.old.items ++ family_text (gauge name.now help.now value)) }
{
    let kind = "gauge";
    push_head(text, Head { name, kind, help })?;
    push_plain(text, name, value)
}

/// Adds a number that the system may not tell.
pub(crate) fn push_known_gauge(
    text: &mut Vec<u8>,
    name: &'static str,
    help: &'static str,
    value: Option<u64>,
) -> Result<(), AllocError>
    ensures { OnOk result (text.new.items ≡ text.old.items ++ family_text (known_gauge name.now help.now value)) }
{
    let kind = "gauge";
    push_head(text, Head { name, kind, help })?;
    match value {
        Some(value) => push_plain(text, name, value),
        None => Ok(()),
    }
}

/// Adds a figure of each worker.
pub(crate) fn push_by_thread(
    text: &mut Vec<u8>,
    name: &'static str,
    help: &'static str,
    figure: WorkerFigure,
    workers: &[WorkerFigures],
) -> Result<(), AllocError>
    ensures { OnOk result (text.new.items ≡ text.old.items ++ family_text (by_thread name.now help.now figure workers.now)) }
{
    let kind = "counter";
    push_head(text, Head { name, kind, help })?;
    push_workers(text, name, figure, workers)
}

fn push_workers(
    text: &mut Vec<u8>,
    name: &str,
    figure: WorkerFigure,
    workers: &[WorkerFigures],
) -> Result<(), AllocError>
    ensures { OnOk result (text.new.items ≡ text.old.items ++ flat_map (sample_text name.now) (map (thread_sample figure) workers.now)) }
{
    for worker in workers {
        push_worker(text, name, figure, worker)?;
    }
    Ok(())
}

fn push_worker(
    text: &mut Vec<u8>,
    name: &str,
    figure: WorkerFigure,
    worker: &WorkerFigures,
) -> Result<(), AllocError>
    ensures { OnOk result (text.new.items ≡ text.old.items ++ sample_text name.now (thread_sample figure worker.now)) }
{
    let mut buffer = Buffer::new();
    let number = buffer.format(worker.number).as_bytes();
    push_labelled(text, name, "", "thread", number, worker.count(figure))
}

/// Adds whether there is a connection, of each node.
pub(crate) fn push_nodes(
    text: &mut Vec<u8>,
    name: &str,
    nodes: &[NodeFigures],
) -> Result<(), AllocError>
    ensures { OnOk result (text.new.items ≡ text.old.items ++ flat_map (sample_text name.now) (map node_sample nodes.now)) }
{
    for node in nodes {
        push_node(text, name, node)?;
    }
    Ok(())
}

fn push_node(text: &mut Vec<u8>, name: &str, node: &NodeFigures) -> Result<(), AllocError>
    ensures { OnOk result (text.new.items ≡ text.old.items ++ sample_text name.now (node_sample node.now)) }
{
    let address = node.address.as_slice();
    push_labelled(text, name, "", "node", address, one_if(node.has_link))
}

fn one_if(holds: bool) -> u64
    ensures { result ≡ one_if holds }
{
    if holds { 1 } else { 0 }
}

/// Adds a histogram.
pub(crate) fn push_histogram(
    alloc: Global,
    text: &mut Vec<u8>,
    name: &'static str,
    help: &'static str,
    times: &Times,
) -> Result<(), AllocError>
    ensures { OnOk result (text.new.items ≡ text.old.items ++ family_text (histogram name.now help.now times.now)) }
{
    let kind = "histogram";
    push_head(text, Head { name, kind, help })?;
    push_buckets(alloc, text, name, times)?;
    push_sums(text, name, times)
}

fn push_buckets(
    alloc: Global,
    text: &mut Vec<u8>,
    name: &str,
    times: &Times,
) -> Result<(), AllocError>
    ensures { OnOk result (text.new.items ≡ text.old.items ++ flat_map (sample_text name.now) (map (bucket_sample times.now.counts) (range_with_len 0 16))) }
{
    for place in 0..BUCKETS {
        push_bucket(alloc, text, name, times, place)?;
    }
    Ok(())
}

fn push_bucket(
    alloc: Global,
    text: &mut Vec<u8>,
    name: &str,
    times: &Times,
    place: usize,
) -> Result<(), AllocError>
    ensures { OnOk result (text.new.items ≡ text.old.items ++ sample_text name.now (bucket_sample times.now.counts place)) }
{
    let bound = bound_text(alloc, bound_at(place))?;
    push_labelled(
        text,
        name,
        "_bucket",
        "le",
        bound.as_slice(),
        times.up_to(place),
    )
}

/// A bound in seconds.
fn bound_text(alloc: Global, bound: u64) -> Result<Vec<u8>, AllocError>
    ensures { IfOk result (λ text. text.items ≡ bound_text bound) }
{
    let mut text = Vec::new(alloc);
    push_bound(&mut text, bound)?;
    Ok(text)
}

fn push_bound(text: &mut Vec<u8>, bound: u64) -> Result<(), AllocError>
    ensures { OnOk result (text.new.items ≡ text.old.items ++ bound_text bound) }
{
    if bound == 0 {
        return text.extend_from_slice(b"+Inf");
    }
    push_seconds(text, bound)
}

/// Adds the times together, and how many there are.
fn push_sums(text: &mut Vec<u8>, name: &str, times: &Times) -> Result<(), AllocError>
    ensures { OnOk result (text.new.items ≡ text.old.items ++ flat_map (sample_text name.now) (sum_samples times.now)) }
{
    text.extend_from_slice(name.as_bytes())?;
    text.extend_from_slice(b"_sum ")?;
    push_seconds(text, times.micros)?;
    text.push(b'\n')?;
    text.extend_from_slice(name.as_bytes())?;
    text.extend_from_slice(b"_count")?;
    push_value(text, times.count())
}
