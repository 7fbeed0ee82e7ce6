//! What a node tells of itself.

use crate::node::NodeSet;

/// A node that is up, in brief.
#[derive(Clone, Copy, Debug)]
pub struct NodeSummary {
    /// How many facts its disk has that it knows to be there.
    pub facts: u64,
    /// How many commands of the list it knows to be decided, from the first on.
    pub decided: u64,
    /// The nodes that it suspects to be down.
    pub suspects: NodeSet,
}
