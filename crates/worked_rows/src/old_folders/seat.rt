//! The node of a row.

ghost use Rattle.std.specs.Prelude.{◌<◌};

use rr_types::{NodeId, Nodes};

/// One of `nodes` nodes.
#[derive(Clone, Copy)]
pub struct Seat {
    pub nodes: Nodes,
    pub node: NodeId,
    ghost exists: { node < nodes },
}

impl Seat {
    /// Node `node` of `nodes` nodes, if there is such a node.
    fn new(node: u8, nodes: u8) -> Option<Seat> {
        let nodes = Nodes::new(nodes).ok()?;
        let node = NodeId::new(nodes, node)?;
        Some(Seat { nodes, node })
    }

    /// The node that a row names: behind its folder stand `--node`, a number, `--nodes` and a number.
    pub fn of_row(row: &str) -> Option<Seat> {
        let mut words = row.split(' ').skip(2);
        let node = words.next()?.parse::<u8>().ok()?;
        let nodes = words.nth(1)?.parse::<u8>().ok()?;
        Seat::new(node, nodes)
    }
}
