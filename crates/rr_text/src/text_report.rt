//! Printing reports.

ghost use Rattle.std.specs.Prelude.{◌≡◌, ◌+◌, ◌<◌, ◌^◌, [], ◌∷◌, ◌++◌, map, length, OnOk, IfOk, codes, decimal};
ghost use Rattle.std.specs.List.{flat_map};
ghost use Rattle.rr_types.specs.Messages.{message_word};
ghost use Rattle.rr_types.specs.Refusal.{number_of, name_of};
ghost use Rattle.rr_text.specs.Words.{spaced, op_words};
ghost use Rattle.rr_text.specs.ReportTexts.{request_text, command_words, body_words, message_words, binding_text, report_words, line, decided_lines, report_text};

use crate::report::{Report, ReportLine};
use crate::text_word::{
    push_byte, push_bytes, push_number, push_number_word, push_op, push_reply, push_set, push_word,
};
use rr_types::{
    Binding, Body, Command, Instance, Message, MessageKind, NodeId, Refusal, RequestNo, Round,
};
use std::alloc::{AllocError, Global};

/// Appends a space and a request number.
pub fn push_request(out: &mut Vec<u8>, request: RequestNo) -> Result<(), AllocError>
    ensures ok { OnOk result (out.new.items ≡ out.old.items ++ 32 ∷ request_text request) }
{
    push_number_word(out, u64::from(request.client))?;
    push_byte(out, b'.')?;
    push_number(out, request.seq)
}

fn push_command(out: &mut Vec<u8>, command: &Command) -> Result<(), AllocError>
    ensures ok { OnOk result (out.new.items ≡ out.old.items ++ 32 ∷ spaced (command_words command.now)) }
{
    push_request(out, command.request)?;
    push_op(out, &command.op)
}

// Appends a space and the word of a kind of messages.
fn push_kind(out: &mut Vec<u8>, kind: MessageKind) -> Result<(), AllocError>
    ensures ok { OnOk result (out.new.items ≡ out.old.items ++ 32 ∷ message_word kind) }
{
    push_word(out, kind.word().as_bytes())
}

fn push_instance(out: &mut Vec<u8>, kind: MessageKind, instance: Instance) -> Result<(), AllocError>
    ensures ok { OnOk result (out.new.items ≡ out.old.items ++ 32 ∷ spaced (message_word kind ∷ decimal instance ∷ [])) }
{
    push_kind(out, kind)?;
    push_number_word(out, u64::from(instance.number()))
}

fn push_round(
    out: &mut Vec<u8>,
    kind: MessageKind,
    instance: Instance,
    round: Round,
) -> Result<(), AllocError>
    ensures ok { OnOk result (out.new.items ≡ out.old.items ++ 32 ∷ spaced (message_word kind ∷ decimal instance ∷ decimal round ∷ [])) }
{
    push_instance(out, kind, instance)?;
    push_number_word(out, u64::from(round.number()))
}

fn push_body(out: &mut Vec<u8>, body: &Body) -> Result<(), AllocError>
    ensures ok { OnOk result (out.new.items ≡ out.old.items ++ 32 ∷ spaced (body_words body.now)) }
{
    match body {
        Body::Estimate(instance, estimate) => {
            push_round(out, MessageKind::Estimate, *instance, estimate.round())?;
            push_number_word(out, u64::from(estimate.stamp()))?;
            push_command(out, estimate.command_ref())
        }
        Body::Proposal(instance, round, command) => {
            push_round(out, MessageKind::Proposal, *instance, *round)?;
            push_command(out, command)
        }
        Body::Ack(instance, round) => push_round(out, MessageKind::Ack, *instance, *round),
        Body::Decision(instance, command) => {
            push_instance(out, MessageKind::Decision, *instance)?;
            push_command(out, command)
        }
        Body::Request(command) => {
            push_kind(out, MessageKind::Request)?;
            push_command(out, command)
        }
        Body::Nack(instance, round) => push_round(out, MessageKind::Nack, *instance, *round),
        Body::Beat => push_kind(out, MessageKind::Beat),
        Body::Suspects(set) => {
            push_kind(out, MessageKind::Suspects)?;
            push_set(out, *set)
        }
        Body::Ask(instance) => push_instance(out, MessageKind::Ask, *instance),
    }
}

fn push_node(out: &mut Vec<u8>, node: NodeId) -> Result<(), AllocError>
    ensures ok { OnOk result (out.new.items ≡ out.old.items ++ 32 ∷ decimal node) }
{
    push_number_word(out, u64::from(node.index()))
}

fn push_message(out: &mut Vec<u8>, message: &Message) -> Result<(), AllocError>
    ensures ok { OnOk result (out.new.items ≡ out.old.items ++ 32 ∷ spaced (message_words message.now)) }
{
    push_node(out, message.from)?;
    push_node(out, message.to)?;
    push_body(out, &message.body)
}

fn push_binding(out: &mut Vec<u8>, binding: &Binding) -> Result<(), AllocError>
    ensures ok { OnOk result (out.new.items ≡ out.old.items ++ 32 ∷ binding_text binding.now) }
{
    push_word(out, binding.name.as_bytes())?;
    push_byte(out, b'=')?;
    push_number(out, u64::from(binding.owner))?;
    push_byte(out, b':')?;
    push_bytes(out, binding.value.as_bytes())
}

fn push_bindings(out: &mut Vec<u8>, bindings: &[Binding]) -> Result<(), AllocError>
    ensures ok { OnOk result (out.new.items ≡ out.old.items ++ flat_map (λ b. 32 ∷ binding_text b) bindings.now) }
{
    for binding in bindings {
        push_binding(out, binding)?;
    }
    Ok(())
}

#[tactic(auto, using(crate::proofs::WordLemmas::registry_words))]
fn push_registry(out: &mut Vec<u8>, decided: u64, bindings: &[Binding]) -> Result<(), AllocError>
    ensures ok { OnOk result (out.new.items ≡ out.old.items ++ 32 ∷ spaced (decimal decided ∷ map binding_text bindings.now)) }
{
    push_number_word(out, decided)?;
    push_bindings(out, bindings)
}

/// Appends the words of a line of a report.
pub fn push_report_words(out: &mut Vec<u8>, report_line: &ReportLine) -> Result<(), AllocError>
    ensures ok { OnOk result (out.new.items ≡ out.old.items ++ spaced (report_words report_line.now)) }
{
    match report_line {
        ReportLine::Send { number, message } => {
            push_bytes(out, b"send")?;
            push_number_word(out, *number)?;
            push_message(out, message)
        }
        ReportLine::Ack {
            node,
            request,
            reply,
        } => {
            push_bytes(out, b"ack")?;
            push_node(out, *node)?;
            push_request(out, *request)?;
            push_byte(out, b' ')?;
            push_reply(out, *reply)
        }
        ReportLine::Restart {
            node,
            facts,
            decided,
            bindings,
        } => {
            push_bytes(out, b"restart")?;
            push_node(out, *node)?;
            push_number_word(out, *facts)?;
            push_registry(out, *decided, bindings.as_slice())
        }
        ReportLine::Refuse { line, refusal } => {
            push_bytes(out, b"refuse")?;
            push_number_word(out, *line)?;
            push_number_word(out, u64::from(refusal.number()))?;
            push_word(out, refusal.name().as_bytes())
        }
    }
}

// What the line of a refusal has behind its number: the same for each line, so that it is one text.
fn refusal_end(refusal: &Refusal) -> &'static [u8]
    ensures { result.now ≡ 32 ∷ decimal (number_of refusal.now) ++ 32 ∷ name_of refusal.now ++ 10 ∷ [] }
{
    match refusal {
        Refusal::OutOfMemory => b" 1 OutOfMemory\n",
        Refusal::Device => b" 2 Device\n",
        Refusal::Damaged { .. } => b" 3 Damaged\n",
        Refusal::Failed => b" 4 Failed\n",
        Refusal::Down => b" 5 Down\n",
        Refusal::BadNodes => b" 6 BadNodes\n",
        Refusal::BadName => b" 7 BadName\n",
        Refusal::BadValue => b" 8 BadValue\n",
        Refusal::ListFull => b" 9 ListFull\n",
        Refusal::RoundsOut => b" 10 RoundsOut\n",
        Refusal::Malformed(_) => b" 11 Malformed\n",
        Refusal::StrangeMark => b" 12 StrangeMark\n",
        Refusal::Busy => b" 13 Busy\n",
        Refusal::BadEvent(_) => b" 14 BadEvent\n",
        Refusal::SeatsTaken => b" 15 SeatsTaken\n",
        Refusal::TooLarge => b" 16 TooLarge\n",
        Refusal::AuditNo(_) => b" 17 AuditNo\n",
        Refusal::NoGuard => b" 18 NoGuard\n",
    }
}

// Most lines of a report may be refusals: theirs are printed in three pieces.
fn push_refusal_line(out: &mut Vec<u8>, number: u64, refusal: &Refusal) -> Result<(), AllocError>
    ensures ok { OnOk result (out.new.items ≡ out.old.items ++ line (codes "refuse" ∷ decimal number ∷ decimal (number_of refusal.now) ∷ name_of refusal.now ∷ [])) }
{
    push_bytes(out, b"refuse ")?;
    push_number(out, number)?;
    push_bytes(out, refusal_end(refusal))
}

fn push_report_line(out: &mut Vec<u8>, report_line: &ReportLine) -> Result<(), AllocError>
    ensures ok { OnOk result (out.new.items ≡ out.old.items ++ line (report_words report_line.now)) }
{
    match report_line {
        ReportLine::Refuse { line, refusal } => push_refusal_line(out, *line, refusal),
        _ => {
            push_report_words(out, report_line)?;
            push_byte(out, b'\n')
        }
    }
}

/// Appends the lines of a report.
pub fn push_report_lines(out: &mut Vec<u8>, lines: &[ReportLine]) -> Result<(), AllocError>
    ensures ok { OnOk result (out.new.items ≡ out.old.items ++ flat_map (λ l. line (report_words l)) lines.now) }
{
    for report_line in lines {
        push_report_line(out, report_line)?;
    }
    Ok(())
}

fn push_decided_line(out: &mut Vec<u8>, instance: u64, command: &Command) -> Result<(), AllocError>
    ensures ok { OnOk result (out.new.items ≡ out.old.items ++ line (decimal instance ∷ command_words command.now)) }
{
    push_number(out, instance)?;
    push_command(out, command)?;
    push_byte(out, b'\n')
}

fn push_decided(out: &mut Vec<u8>, commands: &[Command]) -> Result<(), AllocError>
    ensures ok { OnOk result (out.new.items ≡ out.old.items ++ decided_lines 0 commands.now) }
{
    for (i, command) in commands.iter().enumerate() {
        push_decided_line(out, i as u64, command)?;
    }
    Ok(())
}

/// Appends the end of a report: how many commands are decided, and these.
pub fn push_decided_list(out: &mut Vec<u8>, commands: &[Command]) -> Result<(), AllocError>
    ensures ok { OnOk result (out.new.items ≡ out.old.items ++ line (codes "decided" ∷ decimal (length commands.now) ∷ []) ++ decided_lines 0 commands.now) }
{
    push_bytes(out, b"decided")?;
    push_number_word(out, commands.len() as u64)?;
    push_byte(out, b'\n')?;
    push_decided(out, commands)
}

impl Report {
    /// The text of the report.
    pub fn text(&self, alloc: Global) -> Result<Vec<u8>, AllocError>
        ensures ok { IfOk result (λ v. v.items ≡ report_text self.now) }
    {
        let mut out = Vec::new(alloc);
        push_report_lines(&mut out, self.lines())?;
        push_decided_list(&mut out, self.decided())?;
        Ok(out)
    }
}
