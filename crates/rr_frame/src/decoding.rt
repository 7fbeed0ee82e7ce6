//! Messages from their bytes.

ghost use Rattle.std.specs.Prelude.{◌≡◌, IfOk};
ghost use Rattle.rr_types.specs.declared.message.Message.{Message as Messaged};
ghost use Rattle.rr_frame.specs.declared.version.Version.{Version as Versioned};
ghost use Rattle.rr_frame.specs.Reading.{Gives};
ghost use Rattle.rr_frame.specs.Refused.{answer_of};
ghost use Rattle.rr_frame.specs.MessageFormat.{message_bytes_in, IsLawfulMessageIn, node_at, set_at, backed_at, free_at, body_at, message_at, message_in};

use crate::command::read_command;
use crate::fact::read_estimate;
use crate::reader::Reader;
use crate::stop::Fault;
use crate::version::{Version, read_version};
use rr_types::{Body, Message, NodeId, NodeSet, Nodes, Refusal};

#[tactic(auto, unfolding(crate::specs::MessageFormat::node_at))]
fn read_node(nodes: Nodes, reader: &mut Reader<'_>) -> Result<NodeId, Fault>
    ensures { Gives result reader.new (node_at nodes reader.old) }
{
    let here = reader.fault();
    let index = reader.u8()?;
    NodeId::new(nodes, index).ok_or(here)
}

#[tactic(auto, unfolding(crate::specs::MessageFormat::set_at))]
fn read_set(nodes: Nodes, reader: &mut Reader<'_>) -> Result<NodeSet, Fault>
    ensures { Gives result reader.new (set_at nodes reader.old) }
{
    let here = reader.fault();
    let bits = reader.u8()?;
    NodeSet::from_bits(nodes, bits).ok_or(here)
}

#[tactic(auto, unfolding(crate::specs::MessageFormat::backed_at))]
fn read_backed(version: Version, kind: u8, reader: &mut Reader<'_>) -> Result<Body, Fault>
    ensures { Gives result reader.new (backed_at version kind reader.old) }
{
    let instance = reader.instance(version)?;
    match kind {
        1 => Ok(Body::Estimate(instance, read_estimate(version, reader)?)),
        2 => {
            let round = reader.round()?;
            let command = read_command(version, reader)?;
            Ok(Body::Proposal(instance, round, command))
        }
        3 => Ok(Body::Ack(instance, reader.round()?)),
        _ => Ok(Body::Decision(instance, read_command(version, reader)?)),
    }
}

#[tactic(auto, unfolding(crate::specs::MessageFormat::free_at))]
fn read_free(
    version: Version,
    nodes: Nodes,
    kind: u8,
    reader: &mut Reader<'_>,
) -> Result<Body, Fault>
    ensures { Gives result reader.new (free_at version nodes kind reader.old) }
{
    match kind {
        5 => Ok(Body::Request(read_command(version, reader)?)),
        6 => {
            let instance = reader.instance(version)?;
            let round = reader.round()?;
            Ok(Body::Nack(instance, round))
        }
        7 => Ok(Body::Beat),
        8 => Ok(Body::Suspects(read_set(nodes, reader)?)),
        _ => Ok(Body::Ask(reader.instance(version)?)),
    }
}

#[tactic(auto, unfolding(crate::specs::MessageFormat::body_at))]
fn read_body(version: Version, nodes: Nodes, reader: &mut Reader<'_>) -> Result<Body, Fault>
    ensures { Gives result reader.new (body_at version nodes reader.old) }
{
    let here = reader.fault();
    let kind = reader.u8()?;
    match kind {
        1..=4 => read_backed(version, kind, reader),
        5..=9 => read_free(version, nodes, kind, reader),
        _ => Err(here),
    }
}

#[tactic(auto, unfolding(crate::specs::MessageFormat::message_at))]
fn read_message(nodes: Nodes, reader: &mut Reader<'_>) -> Result<Message, Fault>
    ensures { Gives result reader.new (message_at nodes reader.old) }
{
    let version = read_version(reader)?;
    let from = read_node(nodes, reader)?;
    let to = read_node(nodes, reader)?;
    let body = read_body(version, nodes, reader)?;
    Ok(Message { from, to, body })
}

#[tactic(auto, unfolding(crate::specs::MessageFormat::message_in))]
fn read_whole(nodes: Nodes, bytes: &[u8]) -> Result<Message, Refusal>
    ensures { result ≡ answer_of (message_in nodes bytes.now) }
{
    let mut reader = Reader::new(bytes);
    match read_message(nodes, &mut reader) {
        Err(fault) => Err(fault.refusal(bytes.len())),
        Ok(_) if reader.left() > 0 => Err(reader.fault().refusal(bytes.len())),
        Ok(message) => Ok(message),
    }
}

/// The message among these nodes that all these bytes spell, in version 1 or 2. Other bytes are `Malformed` at the first byte
/// of the first field that is cut short or holds no lawful value, or at the first byte behind the message.
pub fn decode(nodes: Nodes, bytes: &[u8]) -> Result<Message, Refusal>
    // What is read is spelled so.
    ensures found { IfOk result (λ m. (version : Versioned) × IsLawfulMessageIn version nodes m × (bytes.now ≡ message_bytes_in version m)) }
    // What is spelled so is read.
    ensures only { (version : Versioned) (m : Messaged) → IsLawfulMessageIn version nodes m → bytes.now ≡ message_bytes_in version m → result ≡ Ok m }
    // Which answer it is.
    ensures exact { result ≡ answer_of (message_in nodes bytes.now) }
{
    // So that it is known to be at most 7.
    let _count = nodes.count();
    read_whole(nodes, bytes)
}
