//! Whether two messages are one.

ghost use Rattle.std.specs.Prelude.{◌≡◌, ◌↔◌, IsTrue};
ghost use Rattle.rr_audit.specs.Same.{is_same_estimate, is_same_body, is_same_message};

use rr_types::{Body, Estimate, Message};

fn is_same_estimate(estimate: &Estimate, other: &Estimate) -> bool
    ensures { result ≡ is_same_estimate estimate.now other.now }
{
    estimate.round().number() == other.round().number()
        && estimate.stamp() == other.stamp()
        && estimate.command_ref().is_same(other.command_ref())
}

fn is_same_body(body: &Body, other: &Body) -> bool
    ensures { result ≡ is_same_body body.now other.now }
{
    match (body, other) {
        (Body::Estimate(i, estimate), Body::Estimate(j, other)) => {
            i.number() == j.number() && is_same_estimate(estimate, other)
        }
        (Body::Proposal(i, r, command), Body::Proposal(j, q, other)) => {
            i.number() == j.number() && r.number() == q.number() && command.is_same(other)
        }
        (Body::Ack(i, r), Body::Ack(j, q)) => i.number() == j.number() && r.number() == q.number(),
        (Body::Decision(i, command), Body::Decision(j, other)) => {
            i.number() == j.number() && command.is_same(other)
        }
        (Body::Request(command), Body::Request(other)) => command.is_same(other),
        (Body::Nack(i, r), Body::Nack(j, q)) => {
            i.number() == j.number() && r.number() == q.number()
        }
        (Body::Beat, Body::Beat) => true,
        (Body::Suspects(set), Body::Suspects(other)) => set.bits() == other.bits(),
        (Body::Ask(i), Body::Ask(j)) => i.number() == j.number(),
        _ => false,
    }
}

fn compare_messages(message: &Message, other: &Message) -> bool
    ensures { result ≡ is_same_message message.now other.now }
{
    message.from.index() == other.from.index()
        && message.to.index() == other.to.index()
        && is_same_body(&message.body, &other.body)
}

/// Whether two messages are one, field by field.
#[tactic(auto, using(crate::proofs::SameLemmas::messages_are, crate::proofs::SameLemmas::messages_are_same))]
pub fn is_same_message(message: &Message, other: &Message) -> bool
    ensures { IsTrue result ↔ (message.now ≡ other.now) }
{
    compare_messages(message, other)
}
