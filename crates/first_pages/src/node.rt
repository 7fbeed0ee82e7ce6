//! What the first page of `rr_node` shows.

use rr_node::{Node, Stance};
use rr_types::{NodeEvent, Refusal};
use std::alloc::Global;

/// Starts a node that is down. It is opening then: each device call of that is an event of its own.
pub fn start(alloc: Global, node: &mut Node) -> Result<Stance, Refusal> {
    node.step(alloc, &NodeEvent::Restart)?;
    Ok(node.stance())
}
