//! What nodes do, as a history has it. Histories exist in proofs alone.

use rr_types::{Input, Message, NodeId, Promise, Reply, RequestNo};

/// What a node does. No value of it is made.
pub enum What {
    /// It is told this, and doesn't refuse it.
    Told(Input<Message>),
    /// It takes a group of its staged facts, to flush them.
    Took,
    /// It marks the group that was flushed.
    Marked,
    /// It sends this message.
    Sent(Message),
    /// It acknowledges a request with this reply.
    Acked(RequestNo, Reply),
    /// It goes down: it is stopped, or its host crashes.
    Down,
    /// It comes up over this promise, and over so many facts.
    Up(Promise, u64),
}

/// What a node does, and which node it is. No value of it is made.
pub struct Deed {
    /// The node.
    pub node: NodeId,
    /// What it does.
    pub what: What,
}
