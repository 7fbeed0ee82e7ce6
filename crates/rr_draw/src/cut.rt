//! Which events of a run a picture shows.

ghost use Rattle.std.specs.Prelude.{◌≡◌, ◌==◌, true, option_map};
ghost use Rattle.std.specs.Option.{option_map_or};
ghost use Rattle.rr_draw.specs.Fates.{instance_of, is_on, folds};
ghost use Rattle.rr_draw.specs.Pictures.{shows};

use rr_text::Event;
use rr_types::{Body, Instance, Message, MessageKind, NodeId};

/// Which events a picture shows: those on the lines `from` to `to` of the schedule, of one node or of all. Of an
/// instance it shows those alone that send or hear a message which speaks of it, or sync or mark a fact of it.
#[derive(Clone, Copy, Debug)]
pub struct Cut {
    pub from: u64,
    pub to: u64,
    pub node: Option<NodeId>,
    pub instance: Option<Instance>,
    /// Whether requests are drawn in a long picture too, where they would be folded.
    pub requests: bool,
}

impl Cut {
    /// Whether messages of a kind are folded in a long picture.
    pub(crate) fn folds(&self, kind: MessageKind) -> bool
        ensures { result ≡ folds self.now kind }
    {
        match kind {
            MessageKind::Request => !self.requests,
            MessageKind::Beat | MessageKind::Suspects => true,
            _ => false,
        }
    }

    /// Whether the event of a line lies within the lines and the node.
    pub(crate) fn shows(&self, line: u64, event: &Event) -> bool
        ensures { result ≡ shows self.now line event.now }
    {
        self.from <= line && line <= self.to && self.has_node(event.node)
    }

    /// Whether an instance is the one that is asked for, if one is.
    pub(crate) fn has_instance(&self, instance: Instance) -> bool
        ensures { result ≡ option_map_or (λ i. i == instance) self.now.instance true }
    {
        match self.instance {
            Some(one) => one.number() == instance.number(),
            None => true,
        }
    }

    fn has_node(&self, node: NodeId) -> bool
        ensures { result ≡ option_map_or (λ p. p == node) self.now.node true }
    {
        match self.node {
            Some(one) => one == node,
            None => true,
        }
    }

    /// Whether a message that is sent or heard speaks of the instance, where one is given.
    pub(crate) fn speaks(&self, message: Option<&Message>) -> bool
        ensures { result ≡ option_map_or (λ i. is_on i (option_map (λ m. m.now) message.entry)) self.now.instance true }
    {
        match self.instance {
            Some(instance) => is_on(instance, message),
            None => true,
        }
    }
}

// Whether there is a message that speaks of the instance.
fn is_on(instance: Instance, message: Option<&Message>) -> bool
    ensures { result ≡ is_on instance (option_map (λ m. m.now) message.entry) }
{
    match message {
        Some(message) => match instance_of(&message.body) {
            Some(spoken) => spoken.number() == instance.number(),
            None => false,
        },
        None => false,
    }
}

/// The instance that a message speaks of.
fn instance_of(body: &Body) -> Option<Instance>
    ensures { result ≡ instance_of body.now }
{
    match body {
        Body::Estimate(instance, _)
        | Body::Proposal(instance, _, _)
        | Body::Ack(instance, _)
        | Body::Decision(instance, _)
        | Body::Nack(instance, _)
        | Body::Ask(instance) => Some(*instance),
        Body::Request(_) | Body::Beat | Body::Suspects(_) => None,
    }
}
