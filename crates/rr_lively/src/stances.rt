//! What the nodes of a cluster wait for.

use rr_sim::{Cluster, Stance};
use rr_types::{NodeId, Nodes};

/// A kind of stances.
#[derive(Clone, Copy)]
pub(crate) enum Kind {
    /// A node is down or has failed.
    Down,
    /// It opens its disk or is up.
    Running,
    /// It is up.
    Up,
    /// It is down, has failed, or opens its disk.
    NotUp,
    /// It is up, and no job runs.
    Resting,
    /// A device call of it is due.
    Calling,
}

impl Kind {
    /// Whether a stance is of this kind.
    pub(crate) fn has(self, stance: Stance) -> bool {
        match stance {
            Stance::Down | Stance::Failed => matches!(self, Kind::Down | Kind::NotUp),
            Stance::Opening => matches!(self, Kind::Running | Kind::NotUp | Kind::Calling),
            Stance::Resting => matches!(self, Kind::Running | Kind::Up | Kind::Resting),
            Stance::Calling => matches!(self, Kind::Running | Kind::Up | Kind::Calling),
            Stance::Flushed => matches!(self, Kind::Running | Kind::Up),
        }
    }
}

/// What a node waits for; one that isn't there is down.
pub(crate) fn stance_of(cluster: &Cluster, node: NodeId) -> Stance {
    match cluster.node(node) {
        Some(seat) => seat.stance(),
        None => Stance::Down,
    }
}

/// The node that `number` counts to, from node 0 around the ring of nodes.
pub(crate) fn node_at(nodes: Nodes, number: u32) -> NodeId {
    let index = number % u32::from(nodes.count());
    match NodeId::new(nodes, index as u8) {
        Some(node) => node,
        None => unreachable!(),
    }
}

/// The node `count` places after `from`, around the ring of nodes.
pub(crate) fn node_behind(nodes: Nodes, from: NodeId, count: u8) -> NodeId {
    node_at(nodes, u32::from(from.index()) + u32::from(count))
}

/// The first node, counted from this one on, whose stance is of a kind.
pub(crate) fn first_from(
    nodes: Nodes,
    cluster: &Cluster,
    from: NodeId,
    kind: Kind,
) -> Option<NodeId> {
    for count in 0..nodes.count() {
        let node = node_behind(nodes, from, count);
        if kind.has(stance_of(cluster, node)) {
            return Some(node);
        }
    }
    None
}

/// How many nodes have a stance of a kind.
pub(crate) fn count_of(nodes: Nodes, cluster: &Cluster, kind: Kind) -> u32 {
    let mut count = 0u32;
    for number in 0..nodes.count() {
        if kind.has(stance_of(cluster, node_at(nodes, u32::from(number)))) {
            count = count.saturating_add(1);
        }
    }
    count
}
