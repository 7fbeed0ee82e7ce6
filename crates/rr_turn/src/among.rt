//! Whether an event is of these nodes. All else that the grammar of tapes asks of an event is kept by its types.

ghost use Rattle.std.specs.Prelude.{◌≡◌, ◌↔◌, ◌<◌, ◌^◌, IsTrue};
ghost use Rattle.rr_text.specs.Taped.{IsInstance, IsRound, IsEstimate, IsBody, IsMessage, IsRequest, IsReply, IsRecorded, IsTapeEvent};
ghost use Rattle.rr_text.specs.Scheduled.{IsInput};

use rr_text::{Recorded, TapeEvent, command_law};
use rr_types::{
    Body, Command, Estimate, Input, Instance, Message, NodeId, NodeSet, Nodes, Op, Reply,
    RequestNo, Round, made_of,
};

/// The numbers of a request are in their ranges. It does nothing when it runs, as the laws below.
fn request_law(request: RequestNo)
    ensures { IsRequest request }
{
    let _client = request.client;
    let _seq = request.seq;
}

fn instance_law(instance: Instance)
    ensures { IsInstance instance }
{
    let _number = instance.number();
}

fn round_law(round: Round)
    ensures { IsRound round }
{
    let _number = round.number();
}

/// An estimate's stamp lies before its round.
fn estimate_law(estimate: &Estimate)
    ensures { IsEstimate estimate.now }
{
    let _round = estimate.round().number();
    let _stamp = estimate.stamp();
    command_law(estimate.command_ref());
}

fn reply_law(reply: Reply)
    ensures { IsReply reply }
{
    if let Reply::Taken(owner) = reply {
        let _owner = owner;
    }
}

/// Whether a node is one of these.
fn has_node(nodes: Nodes, node: NodeId) -> bool
    ensures { IsTrue result ↔ (node < nodes) }
{
    node.index() < nodes.count()
}

/// Whether a set has these nodes alone.
fn has_all(nodes: Nodes, set: NodeSet) -> bool
    ensures { IsTrue result ↔ (set < 2 ^ nodes) }
{
    NodeSet::from_bits(nodes, set.bits()).is_some()
}

/// Whether what a message says is of these nodes.
fn is_body_among(nodes: Nodes, body: &Body) -> bool
    ensures { IsTrue result ↔ IsBody nodes body.now }
{
    made_of!(Body, Command, Estimate, Op);
    match body {
        Body::Estimate(instance, estimate) => {
            instance_law(*instance);
            estimate_law(estimate);
            true
        }
        Body::Proposal(instance, round, command) => {
            instance_law(*instance);
            round_law(*round);
            command_law(command);
            true
        }
        Body::Ack(instance, round) => {
            instance_law(*instance);
            round_law(*round);
            true
        }
        Body::Decision(instance, command) => {
            instance_law(*instance);
            command_law(command);
            true
        }
        Body::Request(command) => {
            command_law(command);
            true
        }
        Body::Nack(instance, round) => {
            instance_law(*instance);
            round_law(*round);
            true
        }
        Body::Beat => true,
        Body::Suspects(set) => has_all(nodes, *set),
        Body::Ask(instance) => {
            instance_law(*instance);
            true
        }
    }
}

/// Whether a message is of these nodes.
fn is_message_among(nodes: Nodes, message: &Message) -> bool
    ensures { IsTrue result ↔ IsMessage nodes message.now }
{
    has_node(nodes, message.from)
        && has_node(nodes, message.to)
        && is_body_among(nodes, &message.body)
}

/// Whether an input is of these nodes.
fn is_input_among(nodes: Nodes, input: &Input<u32>) -> bool
    ensures { IsTrue result ↔ IsInput nodes input.now }
{
    made_of!(Command, Op);
    match input {
        Input::Submit(command) => {
            command_law(command);
            true
        }
        Input::Hear(number) => {
            let _number = *number;
            true
        }
        Input::Suspect(set) => has_all(nodes, *set),
        _ => true,
    }
}

/// Whether what a tape has of this node is of these nodes. A message that was sent is from the node.
fn is_recorded_among(nodes: Nodes, node: NodeId, what: &Recorded) -> bool
    ensures { IsTrue result ↔ IsRecorded nodes node what.now }
{
    made_of!(Body, Command, Estimate, Message, Op, Reply);
    match what {
        Recorded::Told(input) => is_input_among(nodes, input),
        Recorded::Take | Recorded::Mark => true,
        Recorded::Sent { number, message } => {
            let _number = *number;
            message.from == node && is_message_among(nodes, message)
        }
        Recorded::Acked { request, reply } => {
            request_law(*request);
            reply_law(*reply);
            true
        }
    }
}

/// Whether an event is of these nodes.
pub fn is_among(nodes: Nodes, event: &TapeEvent) -> bool
    ensures { IsTrue result ↔ IsTapeEvent nodes event.now }
{
    has_node(nodes, event.node) && is_recorded_among(nodes, event.node, &event.what)
}
