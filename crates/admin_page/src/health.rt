//! Whether the proxy can serve.

ghost use Rattle.std.specs.Prelude.{◌≡◌, ◌++◌, IfOk, OnOk};
ghost use Rattle.std.specs.List.{flat_map, list_any};
ghost use Rattle.admin_page.specs.Health.{cluster_text, health_text, is_healthy, is_missing, is_ready, missing_line};

use crate::figures::{Figures, NodeFigures};
use std::alloc::{AllocError, Global};

impl NodeFigures {
    /// Whether it serves slots, has no link, and its last dial failed.
    pub fn is_missing(&self) -> bool
        ensures { result ≡ is_missing self.now }
    {
        self.serves_slots && (!self.has_link && self.dial_failed)
    }
}

impl Figures<'_> {
    /// Whether a slot map was read and no node is missing.
    pub fn is_healthy(&self) -> bool
        ensures { result ≡ is_healthy self.now.has_map self.now.nodes.now }
    {
        self.has_map && !is_any_missing(self.nodes)
    }

    /// Whether that is so, and the run does not come to its end.
    pub fn is_ready(&self) -> bool
        ensures { result ≡ is_ready self.now.is_draining self.now.has_map self.now.nodes.now }
    {
        !self.is_draining && self.is_healthy()
    }
}

fn is_any_missing(nodes: &[NodeFigures]) -> bool
    ensures { result ≡ list_any is_missing nodes.now }
{
    nodes.iter().any(|node| node.is_missing())
}

/// What the health page says: that the run comes to its end, that all is well, or a line for each thing that is not.
pub fn health_text(alloc: Global, figures: &Figures<'_>) -> Result<Vec<u8>, AllocError>
    ensures { IfOk result (λ text. text.items ≡ health_text figures.now.is_draining figures.now.has_map figures.now.nodes.now) }
{
    let mut text = Vec::new(alloc);
    push_health(&mut text, figures)?;
    Ok(text)
}

fn push_health(text: &mut Vec<u8>, figures: &Figures<'_>) -> Result<(), AllocError>
    ensures { OnOk result (text.new.items ≡ text.old.items ++ health_text figures.now.is_draining figures.now.has_map figures.now.nodes.now) }
{
    if figures.is_draining {
        return text.extend_from_slice(b"draining\n");
    }
    push_cluster(text, figures)
}

fn push_cluster(text: &mut Vec<u8>, figures: &Figures<'_>) -> Result<(), AllocError>
    ensures { OnOk result (text.new.items ≡ text.old.items ++ cluster_text figures.now.has_map figures.now.nodes.now) }
{
    if figures.is_healthy() {
        return text.extend_from_slice(b"ok\n");
    }
    if figures.has_map {
        return push_missing(text, figures.nodes);
    }
    text.extend_from_slice(b"no slot map was read\n")
}

/// Adds a line for each node that is missing.
fn push_missing(text: &mut Vec<u8>, nodes: &[NodeFigures]) -> Result<(), AllocError>
    ensures { OnOk result (text.new.items ≡ text.old.items ++ flat_map missing_line nodes.now) }
{
    for node in nodes {
        push_line(text, node)?;
    }
    Ok(())
}

fn push_line(text: &mut Vec<u8>, node: &NodeFigures) -> Result<(), AllocError>
    ensures { OnOk result (text.new.items ≡ text.old.items ++ missing_line node.now) }
{
    if !node.is_missing() {
        return Ok(());
    }
    text.extend_from_slice(b"unreachable: ")?;
    text.extend_from_slice(node.address.as_slice())?;
    text.extend_from_slice(b"\n")
}
