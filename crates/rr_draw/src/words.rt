//! What a picture says in words of messages, openings, refusals and decisions.

ghost use Rattle.std.specs.Prelude.{◌≡◌, ◌++◌, ◌∷◌, [], ℕ, decimal, option_map, slice_get, OnOk, IfOk};
ghost use Rattle.std.specs.List.{flat_map};
ghost use Rattle.rr_draw.specs.Fates.{message_in, is_refusal};
ghost use Rattle.rr_draw.specs.Labels.{round_text, about, message_name, heard_words, opened_words, is_call, is_before_the_call, is_of_a_call, refused_words, replied_words, told_words, line_words, decision_of, decided_by, decided_words};

use crate::cut::Cut;
use rr_text::text_report::{push_report_words, push_request};
use rr_text::text_word::{push_byte, push_bytes, push_number, push_number_word};
use rr_text::{Event, Happening, ReportLine};
use rr_types::{Body, Fact, Instance, Message, NodeEvent, Refusal, Round};
use std::alloc::{AllocError, Global};

/// The message that the line of an event tells as sent, if it does.
pub(crate) fn message_in(lines: &[ReportLine]) -> Option<&Message>
    ensures { option_map (λ m. m.now) result ≡ message_in (slice_get lines.now 0) }
{
    match lines.get(0) {
        Some(ReportLine::Send { message, .. }) => Some(message),
        _ => None,
    }
}

/// Whether the line of an event refuses it.
pub(crate) fn is_refusal(lines: &[ReportLine]) -> bool
    ensures { result ≡ is_refusal (slice_get lines.now 0) }
{
    matches!(lines.get(0), Some(ReportLine::Refuse { .. }))
}

// Appends a space, an instance and a round.
fn push_round(out: &mut Vec<u8>, instance: Instance, round: Round) -> Result<(), AllocError>
    ensures { OnOk result (out.new.items ≡ out.old.items ++ 32 ∷ round_text instance round) }
{
    push_number_word(out, u64::from(instance.number()))?;
    push_byte(out, b'.')?;
    push_number(out, u64::from(round.number()))
}

// Appends what a message is about: its instance, with its round where it has one, or its request.
fn push_about(out: &mut Vec<u8>, body: &Body) -> Result<(), AllocError>
    ensures { OnOk result (out.new.items ≡ out.old.items ++ about body.now) }
{
    match body {
        Body::Estimate(instance, estimate) => push_round(out, *instance, estimate.round()),
        Body::Proposal(instance, round, _)
        | Body::Ack(instance, round)
        | Body::Nack(instance, round) => push_round(out, *instance, *round),
        Body::Decision(instance, _) | Body::Ask(instance) => {
            push_number_word(out, u64::from(instance.number()))
        }
        Body::Request(command) => push_request(out, command.request),
        Body::Beat | Body::Suspects(_) => Ok(()),
    }
}

// Appends the short name of a message: what it is, its instance and its round.
fn push_message_name(out: &mut Vec<u8>, body: &Body) -> Result<(), AllocError>
    ensures { OnOk result (out.new.items ≡ out.old.items ++ message_name body.now) }
{
    push_bytes(out, body.kind().word().as_bytes())?;
    push_about(out, body)
}

/// What a title says of the message that is heard, if one is: its number, its sender and its name.
pub(crate) fn heard_words(
    alloc: Global,
    message: Option<(u32, &Message)>,
) -> Result<Vec<u8>, AllocError>
    ensures { IfOk result (λ words. words.items ≡ heard_words (option_map (λ it. (it.0, it.1.now)) message.entry)) }
{
    let mut words = Vec::new(alloc);
    if let Some((number, message)) = message {
        push_bytes(&mut words, b"message ")?;
        push_number(&mut words, u64::from(number))?;
        push_bytes(&mut words, b" from ")?;
        push_number(&mut words, u64::from(message.from.index()))?;
        push_bytes(&mut words, b": ")?;
        push_message_name(&mut words, &message.body)?;
    }
    Ok(words)
}

// What a node has opened with: how many facts, and how many decided commands.
fn push_opened(out: &mut Vec<u8>, facts: u64, decided: u64) -> Result<(), AllocError>
    ensures { OnOk result (out.new.items ≡ out.old.items ++ opened_words facts decided) }
{
    push_bytes(out, b"opened: facts ")?;
    push_number(out, facts)?;
    push_bytes(out, b", decided ")?;
    push_number(out, decided)?;
    Ok(())
}

// Whether an event is a device call.
fn is_call(event: &Event) -> bool
    ensures { result ≡ is_call event.now }
{
    matches!(
        &event.what,
        Happening::At(NodeEvent::Device) | Happening::Fail(_)
    )
}

// Whether a node refuses a device call for this before it makes it.
fn is_before_the_call(refusal: Refusal) -> bool
    ensures { result ≡ is_before_the_call refusal }
{
    matches!(refusal, Refusal::Down | Refusal::Failed)
}

/// Whether a refusal is that of a device call that was made.
pub(crate) fn is_of_a_call(event: &Event, refusal: Refusal) -> bool
    ensures { result ≡ is_of_a_call event.now refusal }
{
    is_call(event) && !is_before_the_call(refusal)
}

// What is said of an event that is refused.
fn push_refused(out: &mut Vec<u8>, event: &Event, refusal: Refusal) -> Result<(), AllocError>
    ensures { OnOk result (out.new.items ≡ out.old.items ++ refused_words event.now refusal) }
{
    if is_of_a_call(event, refusal) {
        push_bytes(out, b"call fails: ")?;
    } else {
        push_bytes(out, b"refused: ")?;
    }
    push_bytes(out, refusal.name().as_bytes())
}

// What a client is told: the words of the line of its reply that stand behind `ack P `, where P is one digit.
fn push_replied(alloc: Global, out: &mut Vec<u8>, line: &ReportLine) -> Result<(), AllocError>
    ensures { OnOk result (out.new.items ≡ out.old.items ++ replied_words line.now) }
{
    let mut words = Vec::new(alloc);
    push_report_words(&mut words, line)?;
    if words.len() > 6 {
        push_bytes(out, &words.as_slice()[6..])?;
    }
    Ok(())
}

// Appends what a line of a report tells of its event.
fn push_line_words(
    alloc: Global,
    out: &mut Vec<u8>,
    event: &Event,
    line: &ReportLine,
) -> Result<(), AllocError>
    ensures { OnOk result (out.new.items ≡ out.old.items ++ told_words event.now line.now) }
{
    match line {
        ReportLine::Send { message, .. } => push_message_name(out, &message.body),
        ReportLine::Ack { .. } => push_replied(alloc, out, line),
        ReportLine::Restart { facts, decided, .. } => push_opened(out, *facts, *decided),
        ReportLine::Refuse { refusal, .. } => push_refused(out, event, *refusal),
    }
}

/// What the label beside an event says of its line of the report; nothing where it has none.
pub(crate) fn line_words(
    alloc: Global,
    event: &Event,
    lines: &[ReportLine],
) -> Result<Vec<u8>, AllocError>
    ensures { IfOk result (λ words. words.items ≡ line_words event.now (slice_get lines.now 0)) }
{
    let mut words = Vec::new(alloc);
    if let Some(line) = lines.get(0) {
        push_line_words(alloc, &mut words, event, line)?;
    }
    Ok(words)
}

// The instance that a fact decides, of the one that is asked for, or of all.
fn decision_of(cut: &Cut, fact: &Fact) -> Option<u32>
    ensures { result ≡ decision_of cut.now.instance fact.now }
{
    match fact {
        Fact::Decide(instance, _) => {
            if cut.has_instance(*instance) {
                Some(instance.number())
            } else {
                None
            }
        }
        _ => None,
    }
}

/// The instances that facts decide, of the one that is asked for, or of all.
pub(crate) fn decided_by(alloc: Global, cut: &Cut, facts: &[Fact]) -> Result<Vec<u32>, AllocError>
    ensures { IfOk result (λ instances. instances.items ≡ decided_by cut.now facts.now) }
{
    let mut instances = Vec::new(alloc);
    for fact in facts {
        if let Some(instance) = decision_of(cut, fact) {
            instances.push(instance)?;
        }
    }
    Ok(instances)
}

// Appends numbers, each behind a space.
fn push_numbers(out: &mut Vec<u8>, numbers: &[u32]) -> Result<(), AllocError>
    ensures { OnOk result (out.new.items ≡ out.old.items ++ flat_map (λ i. 32 ∷ decimal i) numbers.now) }
{
    for number in numbers {
        push_number_word(out, u64::from(*number))?;
    }
    Ok(())
}

/// What a mark says of the instances that its group decides: the first four, and whether there are more.
pub(crate) fn decided_words(alloc: Global, instances: &[u32]) -> Result<Vec<u8>, AllocError>
    ensures { IfOk result (λ words. words.items ≡ decided_words instances.now) }
{
    let mut words = Vec::new(alloc);
    push_bytes(&mut words, b"decided")?;
    if instances.len() > 4 {
        push_numbers(&mut words, &instances[..4])?;
        push_bytes(&mut words, b" ..")?;
    } else {
        push_numbers(&mut words, instances)?;
    }
    Ok(words)
}
