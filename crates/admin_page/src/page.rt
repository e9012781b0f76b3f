//! The page of figures.

ghost use Rattle.std.specs.Prelude.{◌≡◌, ◌++◌, [], IfOk, OnOk, OnErr, codes};
ghost use Rattle.admin_page.specs.Page.{build_families, build_info, client_families, families_text, labelled, node_families, node_up, page_text, part_families, redirects, time_families};
ghost use Rattle.admin_page.specs.Text.{family_text, sample_text};

use crate::families::{
    push_by_thread, push_counter, push_gauge, push_histogram, push_known_gauge, push_nodes,
};
use crate::figures::{CarrierFigures, Figures, NodeFigures, WorkerFigure};
use crate::text::{Head, push_head, push_labelled};
use resp_wire::NoMemory;
use std::alloc::{AllocError, Global};

const BUILD: &str = "cluster_proxy_build_info";

const REDIRECTS: &str = "cluster_proxy_node_redirects_total";

const NODE_UP: &str = "cluster_proxy_node_up";

/// Appends the page of figures in Prometheus' text format. An `Err` leaves what was there.
pub fn write_page(alloc: Global, out: &mut Vec<u8>, figures: &Figures<'_>) -> Result<(), NoMemory>
    ensures ok { OnOk result (out.new.items ≡ out.old.items ++ page_text figures.now) }
    ensures err { OnErr result (out.new.items ≡ out.old.items) }
{
    let mut page = page_of(alloc, figures)?;
    out.append(&mut page)?;
    Ok(())
}

fn page_of(alloc: Global, figures: &Figures<'_>) -> Result<Vec<u8>, AllocError>
    ensures { IfOk result (λ page. page.items ≡ page_text figures.now) }
{
    let mut text = Vec::new(alloc);
    push_page(alloc, &mut text, figures)?;
    Ok(text)
}

fn push_page(alloc: Global, text: &mut Vec<u8>, figures: &Figures<'_>) -> Result<(), AllocError>
    ensures { OnOk result (text.new.items ≡ text.old.items ++ page_text figures.now) }
{
    push_build(text, figures)?;
    push_clients(text, figures)?;
    push_parts(text, figures)?;
    push_links(text, figures)?;
    push_times(alloc, text, figures)
}

fn push_build(text: &mut Vec<u8>, figures: &Figures<'_>) -> Result<(), AllocError>
    ensures { OnOk result (text.new.items ≡ text.old.items ++ families_text (build_families figures.now)) }
{
    push_version(text, figures.version)?;
    push_known_gauge(
        text,
        "process_resident_memory_bytes",
        "Resident memory size in bytes.",
        figures.process.resident_bytes,
    )?;
    push_known_gauge(
        text,
        "process_open_fds",
        "Number of open file descriptors.",
        figures.process.open_descriptors,
    )?;
    push_known_gauge(
        text,
        "process_max_fds",
        "Maximum number of open file descriptors.",
        figures.process.allowed_descriptors,
    )
}

fn push_version(text: &mut Vec<u8>, version: &str) -> Result<(), AllocError>
    ensures { OnOk result (text.new.items ≡ text.old.items ++ family_text (build_info version.now)) }
{
    push_head(
        text,
        Head {
            name: BUILD,
            kind: "gauge",
            help: "The version that runs.",
        },
    )?;
    push_own_version(text, version)
}

fn push_own_version(text: &mut Vec<u8>, version: &str) -> Result<(), AllocError>
    ensures { OnOk result (text.new.items ≡ text.old.items ++ sample_text (codes "cluster_proxy_build_info") (labelled [] (codes "version") version.now 1)) }
{
    push_labelled(text, BUILD, "", "version", version.as_bytes(), 1)
}

fn push_clients(text: &mut Vec<u8>, figures: &Figures<'_>) -> Result<(), AllocError>
    ensures { OnOk result (text.new.items ≡ text.old.items ++ families_text (client_families figures.now)) }
{
    push_gauge(
        text,
        "cluster_proxy_clients",
        "Clients that are connected.",
        figures.process.clients,
    )?;
    push_counter(
        text,
        "cluster_proxy_clients_accepted_total",
        "Clients that were accepted.",
        figures.carrier.clients,
    )?;
    push_by_thread(
        text,
        "cluster_proxy_clients_closed_total",
        "Clients that are gone.",
        WorkerFigure::ClientsGone,
        figures.workers,
    )?;
    push_by_thread(
        text,
        "cluster_proxy_requests_total",
        "Requests that were read from clients.",
        WorkerFigure::Requests,
        figures.workers,
    )?;
    push_by_thread(
        text,
        "cluster_proxy_client_received_bytes_total",
        "Bytes that were read from clients.",
        WorkerFigure::BytesIn,
        figures.workers,
    )?;
    push_by_thread(
        text,
        "cluster_proxy_client_sent_bytes_total",
        "Bytes that were written to clients.",
        WorkerFigure::BytesOut,
        figures.workers,
    )
}

fn push_parts(text: &mut Vec<u8>, figures: &Figures<'_>) -> Result<(), AllocError>
    ensures { OnOk result (text.new.items ≡ text.old.items ++ families_text (part_families figures.now)) }
{
    push_by_thread(
        text,
        "cluster_proxy_parts_total",
        "Parts of requests that ended, each of one slot.",
        WorkerFigure::Parts,
        figures.workers,
    )?;
    push_by_thread(
        text,
        "cluster_proxy_parts_given_up_total",
        "Parts that were given up, and not executed.",
        WorkerFigure::GaveUp,
        figures.workers,
    )?;
    push_by_thread(
        text,
        "cluster_proxy_parts_lost_total",
        "Parts whose connection broke, so that their outcome is unknown.",
        WorkerFigure::Lost,
        figures.workers,
    )?;
    push_counter(
        text,
        "cluster_proxy_node_parts_sent_total",
        "Parts that were sent to nodes, again after a redirect.",
        figures.carrier.sent,
    )?;
    push_counter(
        text,
        "cluster_proxy_node_parts_unsent_total",
        "Times that a part found no connection to its node.",
        figures.carrier.unsent,
    )?;
    push_redirects(text, &figures.carrier)
}

fn push_redirects(text: &mut Vec<u8>, carrier: &CarrierFigures) -> Result<(), AllocError>
    ensures { OnOk result (text.new.items ≡ text.old.items ++ family_text (redirects carrier.now)) }
{
    push_head(
        text,
        Head {
            name: REDIRECTS,
            kind: "counter",
            help: "Replies by which nodes refused a part, by their kind.",
        },
    )?;
    push_redirect(text, b"moved", carrier.moved)?;
    push_redirect(text, b"ask", carrier.ask)?;
    push_redirect(text, b"tryagain", carrier.tryagain)?;
    push_redirect(text, b"clusterdown", carrier.clusterdown)
}

fn push_redirect(text: &mut Vec<u8>, kind: &[u8], count: u64) -> Result<(), AllocError>
    ensures { OnOk result (text.new.items ≡ text.old.items ++ sample_text (codes "cluster_proxy_node_redirects_total") (labelled [] (codes "kind") kind.now count)) }
{
    push_labelled(text, REDIRECTS, "", "kind", kind, count)
}

fn push_links(text: &mut Vec<u8>, figures: &Figures<'_>) -> Result<(), AllocError>
    ensures { OnOk result (text.new.items ≡ text.old.items ++ families_text (node_families figures.now)) }
{
    push_counter(
        text,
        "cluster_proxy_node_dials_failed_total",
        "Dials of nodes that failed.",
        figures.carrier.dials_failed,
    )?;
    push_counter(
        text,
        "cluster_proxy_node_links_opened_total",
        "Connections to nodes that were opened.",
        figures.carrier.links,
    )?;
    push_counter(
        text,
        "cluster_proxy_node_links_closed_total",
        "Connections to nodes that ended.",
        figures.carrier.links_gone,
    )?;
    push_counter(
        text,
        "cluster_proxy_node_received_bytes_total",
        "Bytes that were read from nodes.",
        figures.carrier.bytes_in,
    )?;
    push_counter(
        text,
        "cluster_proxy_node_sent_bytes_total",
        "Bytes that were written to nodes.",
        figures.carrier.bytes_out,
    )?;
    push_node_up(text, figures.nodes)
}

fn push_node_up(text: &mut Vec<u8>, nodes: &[NodeFigures]) -> Result<(), AllocError>
    ensures { OnOk result (text.new.items ≡ text.old.items ++ family_text (node_up nodes.now)) }
{
    push_head(
        text,
        Head {
            name: NODE_UP,
            kind: "gauge",
            help: "Whether there is a connection to the node.",
        },
    )?;
    push_nodes(text, NODE_UP, nodes)
}

fn push_times(alloc: Global, text: &mut Vec<u8>, figures: &Figures<'_>) -> Result<(), AllocError>
    ensures { OnOk result (text.new.items ≡ text.old.items ++ families_text (time_families figures.now)) }
{
    push_histogram(
        alloc,
        text,
        "cluster_proxy_request_duration_seconds",
        "Time from a request's reading to its reply's writing.",
        figures.times,
    )
}
