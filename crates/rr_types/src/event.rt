//! What happens at a node.

use crate::input::Input;

/// What happens at a node, but for crashes and failing device calls. A message that it hears is an `M`.
#[derive(Clone, Copy, Debug)]
pub enum NodeEvent<M> {
    /// It is told this.
    Told(Input<M>),
    /// A flush of the staged facts begins.
    Take,
    /// The next device call of the opening, the flush or the switch is made.
    Device,
    /// The synced group is marked.
    Mark,
    /// The oldest message that may leave leaves.
    Send,
    /// The oldest decided request that waits is acknowledged.
    Acknowledge,
    /// A switch to a snapshot of the marked facts begins.
    Snap,
    /// The node is started again.
    Restart,
}
