//! Messages between nodes (Chandra and Toueg 1996; the phases of a round, and the detectors).

ghost use Rattle.std.specs.Prelude.{◌≡◌};
ghost use Rattle.rr_types.specs.Messages.{message_word, message_kind};

use crate::command::Command;
use crate::fact::Estimate;
use crate::node::{NodeId, NodeSet};
use crate::round::{Instance, Round};

/// What kind of thing a message says.
#[derive(Clone, Copy, Debug)]
pub enum MessageKind {
    Estimate,
    Proposal,
    Ack,
    Decision,
    Request,
    Nack,
    Beat,
    Suspects,
    Ask,
}

impl MessageKind {
    /// Its word in texts.
    #[inline]
    pub fn word(self) -> &'static str
        ensures { result.now ≡ message_word self }
    {
        match self {
            MessageKind::Estimate => "estimate",
            MessageKind::Proposal => "proposal",
            MessageKind::Ack => "ack",
            MessageKind::Decision => "decision",
            MessageKind::Request => "request",
            MessageKind::Nack => "nack",
            MessageKind::Beat => "beat",
            MessageKind::Suspects => "suspects",
            MessageKind::Ask => "ask",
        }
    }
}

/// What a message says.
#[derive(Clone, Copy, Debug)]
pub enum Body {
    /// Phase 1: the sender's estimate, for the round's coordinator. Backed by the sender's Enter.
    Estimate(Instance, Estimate),
    /// Phase 2: the coordinator proposes a command. Backed by its Propose.
    Proposal(Instance, Round, Command),
    /// Phase 3: the sender has adopted the proposal of this round. Backed by its Adopt.
    Ack(Instance, Round),
    /// The instance has decided. Backed by the sender's Decide.
    Decision(Instance, Command),
    /// A client asked the sender for this command.
    Request(Command),
    /// Phase 3: the sender has left this round, and had adopted nothing in it. Free: no fact backs it.
    Nack(Instance, Round),
    /// The sender is up.
    Beat,
    /// The sender's detector suspects these nodes.
    Suspects(NodeSet),
    /// The sender asks what the instance has decided.
    Ask(Instance),
}

impl Body {
    /// What kind of thing it is.
    #[inline]
    pub fn kind(&self) -> MessageKind
        ensures { result ≡ message_kind self.now }
    {
        match self {
            Body::Estimate(_, _) => MessageKind::Estimate,
            Body::Proposal(_, _, _) => MessageKind::Proposal,
            Body::Ack(_, _) => MessageKind::Ack,
            Body::Decision(_, _) => MessageKind::Decision,
            Body::Request(_) => MessageKind::Request,
            Body::Nack(_, _) => MessageKind::Nack,
            Body::Beat => MessageKind::Beat,
            Body::Suspects(_) => MessageKind::Suspects,
            Body::Ask(_) => MessageKind::Ask,
        }
    }
}

/// A message from one node to another, or to itself.
#[derive(Clone, Copy, Debug)]
pub struct Message {
    pub from: NodeId,
    pub to: NodeId,
    pub body: Body,
}
