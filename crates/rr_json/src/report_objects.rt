//! A report as JSON: an object for each line.

ghost use Rattle.std.specs.Prelude.{◌≡◌, ◌∷◌, ◌++◌, [], ◌+◌, ◌<◌, ◌^◌, ℕ, List, length, map, OnOk, codes, decimal};
ghost use Rattle.std.specs.List.{flat_map};
ghost use Rattle.rr_text.specs.ReportTexts.{owner_words, reply_words};
ghost use Rattle.rr_types.specs.Messages.{message_word};
ghost use Rattle.rr_json.specs.Json.{label, begun, words_member, number_member, opened, listed};
ghost use Rattle.rr_json.specs.Objects.{operand_member, op_members, command_object, command_member, instance_member, round_member, set_member, body_front, reply_front, reply_member, binding_object, names_member, message_members, line_front, line_object, place_object, place_objects, decided_objects, report_objects};
ghost use Rattle.rr_text.specs.Words.{member_digits};
ghost use Rattle.rr_text.specs.declared.report.ReportLine.TheVariants as lines;

use crate::json_text::{
    push_begun, push_end, push_label, push_number_member, push_open, push_quoted, push_text_member,
    push_words_member,
};
use rr_text::text_word::{push_byte, push_bytes, push_number, push_set};
use rr_text::{Report, ReportLine};
use rr_types::{
    Binding, Body, Command, Instance, Message, MessageKind, NodeId, NodeSet, Op, Operand, Refusal,
    Reply, RequestNo, Round,
};
use std::alloc::{AllocError, Global};

fn push_operand(out: &mut Vec<u8>, operand: &Operand) -> Result<(), AllocError>
    ensures ok { OnOk result (out.new.items ≡ out.old.items ++ operand_member operand.now) }
{
    match operand {
        Operand::Nothing => Ok(()),
        Operand::Value(value) => push_words_member(out, b"value", value.as_bytes()),
        Operand::Owner(owner) => push_number_member(out, b"owner", u64::from(*owner)),
    }
}

fn push_op(out: &mut Vec<u8>, op: &Op) -> Result<(), AllocError>
    ensures ok { OnOk result (out.new.items ≡ out.old.items ++ op_members op.now) }
{
    push_text_member(out, b"operation", op.kind().word().as_bytes())?;
    push_text_member(out, b"name", op.name().as_bytes())?;
    push_operand(out, &op.operand())
}

fn push_command_object(out: &mut Vec<u8>, command: &Command) -> Result<(), AllocError>
    ensures ok { OnOk result (out.new.items ≡ out.old.items ++ command_object command.now) }
{
    push_begun(out, b"client")?;
    push_number(out, u64::from(command.request.client))?;
    push_number_member(out, b"request", command.request.seq)?;
    push_op(out, &command.op)?;
    push_byte(out, b'}')
}

fn push_command(out: &mut Vec<u8>, command: &Command) -> Result<(), AllocError>
    ensures ok { OnOk result (out.new.items ≡ out.old.items ++ command_member command.now) }
{
    push_label(out, b"command")?;
    push_command_object(out, command)
}

// The beginning of what a message of a kind says.
fn push_kind(out: &mut Vec<u8>, kind: MessageKind) -> Result<(), AllocError>
    ensures ok { OnOk result (out.new.items ≡ out.old.items ++ opened (message_word kind)) }
{
    push_open(out, kind.word().as_bytes())
}

fn push_instance(out: &mut Vec<u8>, kind: MessageKind, instance: Instance) -> Result<(), AllocError>
    ensures ok { OnOk result (out.new.items ≡ out.old.items ++ opened (message_word kind) ++ instance_member instance) }
{
    push_kind(out, kind)?;
    push_number_member(out, b"instance", u64::from(instance.number()))
}

fn push_round(
    out: &mut Vec<u8>,
    kind: MessageKind,
    instance: Instance,
    round: Round,
) -> Result<(), AllocError>
    ensures ok { OnOk result (out.new.items ≡ out.old.items ++ opened (message_word kind) ++ instance_member instance ++ round_member round) }
{
    push_instance(out, kind, instance)?;
    push_number_member(out, b"round", u64::from(round.number()))
}

// Digits, with a comma before each.
fn push_more_digits(out: &mut Vec<u8>, digits: &[u8]) -> Result<(), AllocError>
    ensures ok { OnOk result (out.new.items ≡ out.old.items ++ flat_map (λ (t : List ℕ). 44 ∷ t) (map (λ (d : ℕ). d ∷ []) digits.now)) }
{
    for digit in digits {
        push_bytes(out, &[b',', *digit])?;
    }
    Ok(())
}

// Digits, with a comma between each and the next.
fn push_digits(out: &mut Vec<u8>, digits: &[u8]) -> Result<(), AllocError>
    ensures ok { OnOk result (out.new.items ≡ out.old.items ++ listed (map (λ (d : ℕ). d ∷ []) digits.now)) }
{
    match digits {
        [] => Ok(()),
        [first, rest @ ..] => {
            push_byte(out, *first)?;
            push_more_digits(out, rest)
        }
    }
}

// The members of a set.
#[tactic(auto, using(crate::proofs::SetLemmas::set_digits))]
fn push_members(alloc: Global, out: &mut Vec<u8>, set: NodeSet) -> Result<(), AllocError>
    ensures ok { OnOk result (out.new.items ≡ out.old.items ++ listed (map (λ (d : ℕ). d ∷ []) (member_digits 0 7 set))) }
{
    if set.bits() == 0 {
        return Ok(());
    }
    let mut digits = Vec::new(alloc);
    push_set(&mut digits, set)?;
    match digits.as_slice() {
        [] => Ok(()),
        [_, members @ ..] => push_digits(out, members),
    }
}

fn push_set_member(alloc: Global, out: &mut Vec<u8>, set: NodeSet) -> Result<(), AllocError>
    ensures ok { OnOk result (out.new.items ≡ out.old.items ++ set_member set) }
{
    push_label(out, b"nodes")?;
    push_byte(out, b'[')?;
    push_members(alloc, out, set)?;
    push_byte(out, b']')
}

fn push_body_front(alloc: Global, out: &mut Vec<u8>, body: &Body) -> Result<(), AllocError>
    ensures ok { OnOk result (out.new.items ≡ out.old.items ++ body_front body.now) }
{
    match body {
        Body::Estimate(instance, estimate) => {
            push_round(out, MessageKind::Estimate, *instance, estimate.round())?;
            push_number_member(out, b"stamp", u64::from(estimate.stamp()))?;
            push_command(out, estimate.command_ref())
        }
        Body::Proposal(instance, round, command) => {
            push_round(out, MessageKind::Proposal, *instance, *round)?;
            push_command(out, command)
        }
        Body::Ack(instance, round) => push_round(out, MessageKind::Ack, *instance, *round),
        Body::Decision(instance, command) => {
            push_instance(out, MessageKind::Decision, *instance)?;
            push_command(out, command)
        }
        Body::Request(command) => {
            push_kind(out, MessageKind::Request)?;
            push_command(out, command)
        }
        Body::Nack(instance, round) => push_round(out, MessageKind::Nack, *instance, *round),
        Body::Beat => push_kind(out, MessageKind::Beat),
        Body::Suspects(set) => {
            push_kind(out, MessageKind::Suspects)?;
            push_set_member(alloc, out, *set)
        }
        Body::Ask(instance) => push_instance(out, MessageKind::Ask, *instance),
    }
}

// A node's number as a member of this name.
fn push_node(out: &mut Vec<u8>, name: &[u8], node: NodeId) -> Result<(), AllocError>
    ensures ok { OnOk result (out.new.items ≡ out.old.items ++ number_member name.now node) }
{
    push_number_member(out, name, u64::from(node.index()))
}

fn push_message(alloc: Global, out: &mut Vec<u8>, message: &Message) -> Result<(), AllocError>
    ensures ok { OnOk result (out.new.items ≡ out.old.items ++ message_members message.now) }
{
    push_node(out, b"from", message.from)?;
    push_node(out, b"to", message.to)?;
    push_label(out, b"message")?;
    push_body_front(alloc, out, &message.body)?;
    push_byte(out, b'}')
}

fn push_send(
    alloc: Global,
    out: &mut Vec<u8>,
    number: u64,
    message: &Message,
) -> Result<(), AllocError>
    ensures ok { OnOk result (out.new.items ≡ out.old.items ++ opened (codes "send") ++ number_member (codes "number") number ++ message_members message.now) }
{
    push_open(out, b"send")?;
    push_number_member(out, b"number", number)?;
    push_message(alloc, out, message)
}

// The kind of an object, and the owner that is named in it.
#[tactic(auto, unfolding(crate::specs::Json::number_member))]
fn push_owned_open(out: &mut Vec<u8>, kind: &[u8], owner: Option<u32>) -> Result<(), AllocError>
    ensures ok { OnOk result (out.new.items ≡ out.old.items ++ reply_front (kind.now ∷ owner_words owner)) }
{
    push_open(out, kind)?;
    match owner {
        None => Ok(()),
        Some(owner) => push_number_member(out, b"owner", u64::from(owner)),
    }
}

fn push_reply_front(out: &mut Vec<u8>, reply: Reply) -> Result<(), AllocError>
    ensures ok { OnOk result (out.new.items ≡ out.old.items ++ reply_front (reply_words reply)) }
{
    push_owned_open(out, reply.kind().word().as_bytes(), reply.owner())
}

fn push_reply_member(out: &mut Vec<u8>, reply: Reply) -> Result<(), AllocError>
    ensures ok { OnOk result (out.new.items ≡ out.old.items ++ reply_member reply) }
{
    push_label(out, b"reply")?;
    push_reply_front(out, reply)?;
    push_byte(out, b'}')
}

// The node, the client and the client's own number of an acknowledgement.
fn push_request(out: &mut Vec<u8>, node: NodeId, request: RequestNo) -> Result<(), AllocError>
    ensures ok { OnOk result (out.new.items ≡ out.old.items ++ number_member (codes "node") node ++ number_member (codes "client") request.client ++ number_member (codes "request") request.seq) }
{
    push_node(out, b"node", node)?;
    push_number_member(out, b"client", u64::from(request.client))?;
    push_number_member(out, b"request", request.seq)
}

fn push_ack(
    out: &mut Vec<u8>,
    node: NodeId,
    request: RequestNo,
    reply: Reply,
) -> Result<(), AllocError>
    ensures ok { OnOk result (out.new.items ≡ out.old.items ++ line_front (lines.Ack node request reply)) }
{
    push_open(out, b"ack")?;
    push_request(out, node, request)?;
    push_reply_member(out, reply)
}

fn push_binding(out: &mut Vec<u8>, binding: &Binding) -> Result<(), AllocError>
    ensures ok { OnOk result (out.new.items ≡ out.old.items ++ binding_object binding.now) }
{
    push_begun(out, b"name")?;
    push_quoted(out, binding.name.as_bytes())?;
    push_number_member(out, b"owner", u64::from(binding.owner))?;
    push_words_member(out, b"value", binding.value.as_bytes())?;
    push_byte(out, b'}')
}

// Bound names, with a comma before each.
fn push_more_bindings(out: &mut Vec<u8>, bindings: &[Binding]) -> Result<(), AllocError>
    ensures ok { OnOk result (out.new.items ≡ out.old.items ++ flat_map (λ (t : List ℕ). 44 ∷ t) (map binding_object bindings.now)) }
{
    for binding in bindings {
        push_byte(out, b',')?;
        push_binding(out, binding)?;
    }
    Ok(())
}

// Bound names, with a comma between each and the next.
fn push_bindings(out: &mut Vec<u8>, bindings: &[Binding]) -> Result<(), AllocError>
    ensures ok { OnOk result (out.new.items ≡ out.old.items ++ listed (map binding_object bindings.now)) }
{
    match bindings {
        [] => Ok(()),
        [first, rest @ ..] => {
            push_binding(out, first)?;
            push_more_bindings(out, rest)
        }
    }
}

fn push_names_member(out: &mut Vec<u8>, bindings: &[Binding]) -> Result<(), AllocError>
    ensures ok { OnOk result (out.new.items ≡ out.old.items ++ names_member bindings.now) }
{
    push_label(out, b"names")?;
    push_byte(out, b'[')?;
    push_bindings(out, bindings)?;
    push_byte(out, b']')
}

fn push_restart(
    out: &mut Vec<u8>,
    node: NodeId,
    facts: u64,
    decided: u64,
    bindings: &[Binding],
) -> Result<(), AllocError>
    ensures ok { OnOk result (out.new.items ≡ out.old.items ++ line_front (lines.Restart node facts decided bindings.now)) }
{
    push_open(out, b"restart")?;
    push_node(out, b"node", node)?;
    push_number_member(out, b"facts", facts)?;
    push_number_member(out, b"decided", decided)?;
    push_names_member(out, bindings)
}

fn push_refuse(out: &mut Vec<u8>, line: u64, refusal: Refusal) -> Result<(), AllocError>
    ensures ok { OnOk result (out.new.items ≡ out.old.items ++ line_front (lines.Refuse line refusal)) }
{
    push_open(out, b"refuse")?;
    push_number_member(out, b"line", line)?;
    push_number_member(out, b"number", u64::from(refusal.number()))?;
    push_text_member(out, b"name", refusal.name().as_bytes())
}

/// Appends a line of a report as an object, without the object's end.
///
/// # Errors
/// Bytes of it may then stand at the end, as for all functions of this file.
pub fn push_line_front(
    alloc: Global,
    out: &mut Vec<u8>,
    line: &ReportLine,
) -> Result<(), AllocError>
    ensures ok { OnOk result (out.new.items ≡ out.old.items ++ line_front line.now) }
{
    match line {
        ReportLine::Send { number, message } => push_send(alloc, out, *number, message),
        ReportLine::Ack {
            node,
            request,
            reply,
        } => push_ack(out, *node, *request, *reply),
        ReportLine::Restart {
            node,
            facts,
            decided,
            bindings,
        } => push_restart(out, *node, *facts, *decided, bindings.as_slice()),
        ReportLine::Refuse { line, refusal } => push_refuse(out, *line, *refusal),
    }
}

fn push_line_objects(
    alloc: Global,
    out: &mut Vec<u8>,
    lines: &[ReportLine],
) -> Result<(), AllocError>
    ensures ok { OnOk result (out.new.items ≡ out.old.items ++ flat_map line_object lines.now) }
{
    for line in lines {
        push_line_front(alloc, out, line)?;
        push_end(out)?;
    }
    Ok(())
}

fn push_place(out: &mut Vec<u8>, place: u64, command: &Command) -> Result<(), AllocError>
    ensures ok { OnOk result (out.new.items ≡ out.old.items ++ place_object place command.now) }
{
    push_open(out, b"command")?;
    push_number_member(out, b"place", place)?;
    push_command(out, command)?;
    push_end(out)
}

fn push_places(out: &mut Vec<u8>, decided: &[Command]) -> Result<(), AllocError>
    ensures ok { OnOk result (out.new.items ≡ out.old.items ++ place_objects 0 decided.now) }
{
    for place in 0..decided.len() {
        push_place(out, place as u64, &decided[place])?;
    }
    Ok(())
}

/// Appends how many commands are decided, as an object, and an object for each.
pub fn push_decided_objects(out: &mut Vec<u8>, decided: &[Command]) -> Result<(), AllocError>
    ensures ok { OnOk result (out.new.items ≡ out.old.items ++ decided_objects decided.now) }
{
    push_open(out, b"decided")?;
    push_number_member(out, b"commands", decided.len() as u64)?;
    push_end(out)?;
    push_places(out, decided)
}

/// Appends a report: an object for each of its lines, then those of its decided commands.
pub fn push_report_objects(
    alloc: Global,
    out: &mut Vec<u8>,
    report: &Report,
) -> Result<(), AllocError>
    ensures ok { OnOk result (out.new.items ≡ out.old.items ++ report_objects report.now) }
{
    push_line_objects(alloc, out, report.lines())?;
    push_decided_objects(out, report.decided())
}
