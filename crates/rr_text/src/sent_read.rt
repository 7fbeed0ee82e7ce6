//! Reading the lines of messages that were sent.
//!
//! What such a line gives is large, and each call that passes it on copies it, as does each value that may be none. So it is
//! made at once, where all its words have been read, in a function for each kind of messages.

ghost use Rattle.std.specs.Prelude.{◌≡◌, ℕ, ◌++◌, ◌∷◌, None, Some, false, MatchOption, IfSome, IfOk, IfErr};
ghost use Rattle.rr_types.specs.Messages.{message_word};
ghost use Rattle.rr_text.specs.TapeReading.{sent_as, sent_at, has_command, round_of_at, body_fields_at, body_from, body_at};

use crate::message_read::{command, estimate, instance, round};
use crate::tape_event::{Recorded, TapeEvent};
use crate::text_read::{cut, message_kind, node, set, small_number};
use rr_types::{
    Body, Command, Estimate, Instance, Message, MessageKind, NodeId, Nodes, Op, Refusal, Round,
    made_of,
};

/// What stands before what a message says: its number, the node that it is from, and the node that it is for.
#[derive(Clone, Copy, Debug)]
pub struct Heading {
    pub number: u32,
    pub from: NodeId,
    pub to: NodeId,
}

// The heading that a text begins with, and the text behind it.
fn read_heading(nodes: Nodes, text: &[u8]) -> Option<(Heading, &[u8])>
    ensures { MatchOption result (sent_at nodes text.now ≡ None) (λ x. sent_at nodes text.now ≡ sent_as x.0 (body_at nodes x.1.now)) }
{
    let (word, rest) = cut(text, b' ')?;
    let number = small_number(word)?;
    let (word, rest) = cut(rest, b' ')?;
    let from = node(nodes, word)?;
    let (word, rest) = cut(rest, b' ')?;
    let to = node(nodes, word)?;
    Some((Heading { number, from, to }, rest))
}

// The event that a message of this heading was sent that says this.
fn saying(heading: Heading, body: Body) -> TapeEvent
    ensures { sent_as heading (Some body) ≡ Some result }
{
    let Heading { number, from, to } = heading;
    TapeEvent {
        node: from,
        what: Recorded::Sent {
            number,
            message: Message { from, to, body },
        },
    }
}

#[inline(never)]
fn estimated<'a>(
    heading: Heading,
    text: &[u8],
    rest: &'a [u8],
    line: u64,
) -> Result<Option<(TapeEvent, &'a [u8])>, Refusal>
    ensures ok { (n : ℕ) → IfOk result (λ next. MatchOption next ⊥ (λ x. (sent_as heading (body_fields_at n MessageKind.Estimate text.now) ≡ Some x.0) × (x.1.now ≡ rest.now))) }
    ensures err { (n : ℕ) → IfErr result (λ e. (e ≡ Refusal.BadEvent line) × (sent_as heading (body_fields_at n MessageKind.Estimate text.now) ≡ None)) }
{
    made_of!(Command, Op);
    let Some((word, words)) = cut(text, b' ') else {
        return Err(Refusal::BadEvent(line));
    };
    let Some(instance) = instance(word) else {
        return Err(Refusal::BadEvent(line));
    };
    let Some(estimate) = estimate(words) else {
        return Err(Refusal::BadEvent(line));
    };
    let body = Body::Estimate(instance, estimate);
    Ok(Some((saying(heading, body), rest)))
}

#[inline(never)]
fn proposed<'a>(
    heading: Heading,
    text: &[u8],
    rest: &'a [u8],
    line: u64,
) -> Result<Option<(TapeEvent, &'a [u8])>, Refusal>
    ensures ok { (n : ℕ) → IfOk result (λ next. MatchOption next ⊥ (λ x. (sent_as heading (body_fields_at n MessageKind.Proposal text.now) ≡ Some x.0) × (x.1.now ≡ rest.now))) }
    ensures err { (n : ℕ) → IfErr result (λ e. (e ≡ Refusal.BadEvent line) × (sent_as heading (body_fields_at n MessageKind.Proposal text.now) ≡ None)) }
{
    made_of!(Command, Op);
    let Some((word, words)) = cut(text, b' ') else {
        return Err(Refusal::BadEvent(line));
    };
    let Some(instance) = instance(word) else {
        return Err(Refusal::BadEvent(line));
    };
    let Some((word, words)) = cut(words, b' ') else {
        return Err(Refusal::BadEvent(line));
    };
    let Some(round) = round(word) else {
        return Err(Refusal::BadEvent(line));
    };
    let Some(command) = command(words) else {
        return Err(Refusal::BadEvent(line));
    };
    let body = Body::Proposal(instance, round, command);
    Ok(Some((saying(heading, body), rest)))
}

#[inline(never)]
fn decided<'a>(
    heading: Heading,
    text: &[u8],
    rest: &'a [u8],
    line: u64,
) -> Result<Option<(TapeEvent, &'a [u8])>, Refusal>
    ensures ok { (n : ℕ) → IfOk result (λ next. MatchOption next ⊥ (λ x. (sent_as heading (body_fields_at n MessageKind.Decision text.now) ≡ Some x.0) × (x.1.now ≡ rest.now))) }
    ensures err { (n : ℕ) → IfErr result (λ e. (e ≡ Refusal.BadEvent line) × (sent_as heading (body_fields_at n MessageKind.Decision text.now) ≡ None)) }
{
    made_of!(Command, Op);
    let Some((word, words)) = cut(text, b' ') else {
        return Err(Refusal::BadEvent(line));
    };
    let Some(instance) = instance(word) else {
        return Err(Refusal::BadEvent(line));
    };
    let Some(command) = command(words) else {
        return Err(Refusal::BadEvent(line));
    };
    let body = Body::Decision(instance, command);
    Ok(Some((saying(heading, body), rest)))
}

#[inline(never)]
fn requested<'a>(
    heading: Heading,
    text: &[u8],
    rest: &'a [u8],
    line: u64,
) -> Result<Option<(TapeEvent, &'a [u8])>, Refusal>
    ensures ok { (n : ℕ) → IfOk result (λ next. MatchOption next ⊥ (λ x. (sent_as heading (body_fields_at n MessageKind.Request text.now) ≡ Some x.0) × (x.1.now ≡ rest.now))) }
    ensures err { (n : ℕ) → IfErr result (λ e. (e ≡ Refusal.BadEvent line) × (sent_as heading (body_fields_at n MessageKind.Request text.now) ≡ None)) }
{
    made_of!(Command, Op);
    let Some(command) = command(text) else {
        return Err(Refusal::BadEvent(line));
    };
    let body = Body::Request(command);
    Ok(Some((saying(heading, body), rest)))
}

fn round_of(text: &[u8]) -> Option<(Instance, Round)>
    ensures { result ≡ round_of_at text.now }
{
    let (word, rest) = cut(text, b' ')?;
    let instance = instance(word)?;
    Some((instance, round(rest)?))
}

// What a message of a kind without a command says.
fn short_body(nodes: Nodes, kind: MessageKind, text: &[u8]) -> Option<Body>
    requires { has_command kind ≡ false }
    ensures { result ≡ body_fields_at nodes kind text.now }
{
    match kind {
        MessageKind::Ack => {
            let (instance, round) = round_of(text)?;
            Some(Body::Ack(instance, round))
        }
        MessageKind::Nack => {
            let (instance, round) = round_of(text)?;
            Some(Body::Nack(instance, round))
        }
        MessageKind::Suspects => Some(Body::Suspects(set(nodes, text)?)),
        MessageKind::Ask => Some(Body::Ask(instance(text)?)),
        _ => None,
    }
}

#[inline(never)]
fn said_shortly<'a>(
    nodes: Nodes,
    heading: Heading,
    kind: MessageKind,
    text: &[u8],
    rest: &'a [u8],
    line: u64,
) -> Result<Option<(TapeEvent, &'a [u8])>, Refusal>
    requires { has_command kind ≡ false }
    ensures ok { IfOk result (λ next. MatchOption next ⊥ (λ x. (sent_as heading (body_fields_at nodes kind text.now) ≡ Some x.0) × (x.1.now ≡ rest.now))) }
    ensures err { IfErr result (λ e. (e ≡ Refusal.BadEvent line) × (sent_as heading (body_fields_at nodes kind text.now) ≡ None)) }
{
    made_of!(Command, Op);
    let Some(body) = short_body(nodes, kind, text) else {
        return Err(Refusal::BadEvent(line));
    };
    Ok(Some((saying(heading, body), rest)))
}

// A message that is one word.
#[inline(never)]
fn said_in_a_word<'a>(
    heading: Heading,
    text: &[u8],
    rest: &'a [u8],
    line: u64,
) -> Result<Option<(TapeEvent, &'a [u8])>, Refusal>
    ensures ok { IfOk result (λ next. MatchOption next ⊥ (λ x. (sent_as heading (body_from 0 text.now None) ≡ Some x.0) × (x.1.now ≡ rest.now))) }
    ensures err { IfErr result (λ e. (e ≡ Refusal.BadEvent line) × (sent_as heading (body_from 0 text.now None) ≡ None)) }
{
    if text != MessageKind::Beat.word().as_bytes() {
        return Err(Refusal::BadEvent(line));
    }
    Ok(Some((saying(heading, Body::Beat), rest)))
}

// The kind of a message whose text begins with its word and a space, and the text behind these, for the kinds that most
// messages have. Such a word is matched whole, so that none of its bytes is searched for a space.
fn front(text: &[u8]) -> Option<(MessageKind, &[u8])>
    ensures { IfSome result (λ x. text.now ≡ message_word x.0 ++ 32 ∷ x.1.now) }
{
    match text {
        [b'a', b'c', b'k', b' ', fields @ ..] => Some((MessageKind::Ack, fields)),
        [b'r', b'e', b'q', b'u', b'e', b's', b't', b' ', fields @ ..] => Some((
            MessageKind::Request,
            fields,
        )),
        [
            b'p',
            b'r',
            b'o',
            b'p',
            b'o',
            b's',
            b'a',
            b'l',
            b' ',
            fields @ ..,
        ] => Some((MessageKind::Proposal, fields)),
        _ => other_front(text),
    }
}

// The same for two more kinds.
fn other_front(text: &[u8]) -> Option<(MessageKind, &[u8])>
    ensures { IfSome result (λ x. text.now ≡ message_word x.0 ++ 32 ∷ x.1.now) }
{
    match text {
        [
            b'd',
            b'e',
            b'c',
            b'i',
            b's',
            b'i',
            b'o',
            b'n',
            b' ',
            fields @ ..,
        ] => Some((MessageKind::Decision, fields)),
        [
            b'e',
            b's',
            b't',
            b'i',
            b'm',
            b'a',
            b't',
            b'e',
            b' ',
            fields @ ..,
        ] => Some((MessageKind::Estimate, fields)),
        _ => None,
    }
}

// The kind of a message, and the text behind its word and a space; none where the message is one word, or has no such kind.
#[tactic(auto, using(crate::proofs::MessageReading::kind_known, crate::proofs::MessageReading::kind_unknown))]
fn kind_and_fields(text: &[u8]) -> Option<(MessageKind, &[u8])>
    ensures { (n : ℕ) → MatchOption result (body_at n text.now ≡ body_from 0 text.now None) (λ x. body_at n text.now ≡ body_fields_at n x.0 x.1.now) }
{
    if let Some((kind, fields)) = front(text) {
        return Some((kind, fields));
    }
    let (word, fields) = cut(text, b' ')?;
    match message_kind(word) {
        Some(kind) => Some((kind, fields)),
        None => None,
    }
}

/// The event of a line on a message that was sent, whose words behind the keyword these are, and the bytes behind it.
///
/// # Errors
/// `BadEvent` of the line where the words are no message.
#[inline(never)]
pub fn sent_line<'a>(
    nodes: Nodes,
    text: &[u8],
    rest: &'a [u8],
    line: u64,
) -> Result<Option<(TapeEvent, &'a [u8])>, Refusal>
    ensures ok { IfOk result (λ next. MatchOption next ⊥ (λ x. (sent_at nodes text.now ≡ Some x.0) × (x.1.now ≡ rest.now))) }
    ensures err { IfErr result (λ e. (e ≡ Refusal.BadEvent line) × (sent_at nodes text.now ≡ None)) }
{
    made_of!(Body, Command, Message, Op);
    let Some((heading, words)) = read_heading(nodes, text) else {
        return Err(Refusal::BadEvent(line));
    };
    match kind_and_fields(words) {
        Some((MessageKind::Estimate, fields)) => estimated(heading, fields, rest, line),
        Some((MessageKind::Proposal, fields)) => proposed(heading, fields, rest, line),
        Some((MessageKind::Decision, fields)) => decided(heading, fields, rest, line),
        Some((MessageKind::Request, fields)) => requested(heading, fields, rest, line),
        Some((kind, fields)) => said_shortly(nodes, heading, kind, fields, rest, line),
        None => said_in_a_word(heading, words, rest, line),
    }
}
