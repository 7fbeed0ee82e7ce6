//! Clusters of three nodes that tests begin with.

use rr_client::{Options, Place};
use rr_types::{Name, NodeId, Nodes, Value};
use std::alloc::Global;
use std::fs;
use std::process::Abort;
use std::rt::Files;

/// A folder in which there is nothing.
pub fn clear<R: Files + AllocGlobal>(rt: &R, dir: &str) {
    let _ = fs::remove_dir_all(rt, dir);
}

/// Three nodes.
pub fn three(rt: &impl Abort) -> Nodes {
    Nodes::new(3).expect(rt, "three nodes")
}

/// A node of three.
pub fn node(index: u8) -> Option<NodeId> {
    NodeId::at(index)
}

/// Nodes that tick often, and calls that wait 300 milliseconds.
pub fn hasty() -> Options {
    Options {
        tick: 20,
        patience: 300,
        ..Options::usual()
    }
}

/// Guests at nodes 0, 1 and so on, as clients of the same numbers.
pub fn placed<G: Drop>(rt: &impl Abort, alloc: Global, guests: Vec<G>) -> Vec<Place<G>> {
    let mut places = Vec::new(alloc);
    let mut node = 0u8;
    for guest in guests {
        let client = u32::from(node);
        places
            .push(Place {
                node,
                client,
                guest,
            })
            .expect(rt, "memory");
        node = node.saturating_add(1);
    }
    places
}

/// A name.
pub fn name(text: &[u8]) -> Result<Name, rr_client::ClusterError> {
    Ok(Name::new(text)?)
}

/// The value `x`.
pub fn value() -> Result<Value, rr_client::ClusterError> {
    Ok(Value::new(b"x")?)
}
