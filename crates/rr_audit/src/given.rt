//! What the world gives instead of an event.

use rr_types::{Message, NodeId, Refusal, Reply, RequestNo};

/// What the world gives instead of an event of a tape that isn't next.
#[derive(Debug, Drop)]
pub enum Given {
    /// There is no such node.
    NoNode,
    /// The node refuses the input.
    Refused(Refusal),
    /// There is no message of this number yet.
    NoMessage,
    /// The message is for this node.
    OtherNode(NodeId),
    /// The node has staged nothing.
    NothingStaged,
    /// The node flushes a group already.
    StillFlushing,
    /// The node flushes no group.
    NothingFlushed,
    /// The next message has this number.
    Number(u64),
    /// The node has no message that may leave.
    NothingToSend,
    /// The node sends this message next, as this number. The message is in a box: it is larger than all else here.
    Sends(u32, Box<Message>),
    /// The node has nothing to acknowledge.
    NothingToAcknowledge,
    /// The node acknowledges this request next, with this reply.
    Acknowledges(RequestNo, Reply),
}
