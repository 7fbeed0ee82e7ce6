//! Reading tapes.

ghost use Rattle.std.specs.Prelude.{◌≡◌, ℕ, ◌+◌, ◌<◌, ◌≤◌, ◌++◌, ◌⊎◌, [], None, Some, MatchOption, MatchResult, IfOk, IfErr, length};
ghost use Rattle.std.specs.List.{flat_map, AllByRecursion};
ghost use Rattle.rr_text.specs.Lines.{nodes_line, ArePrinted, HasNoLine, IsStop, IsFirstFault, IsFault};
ghost use Rattle.rr_text.specs.TapeReading.{acked_at, told_at, tape_fields_at, tape_event_at};
ghost use Rattle.rr_text.specs.Taped.{Taped, IsTapeEvent, IsTape};
ghost use Rattle.rr_text.specs.TapeTexts.{tape_line, tape_text};

use crate::kind::EventKind;
use crate::message_read::{reply, request};
use crate::schedule::MAX_EVENTS;
use crate::sent_read::sent_line;
use crate::tape::Tape;
use crate::tape_event::{Recorded, TapeEvent, as_recorded};
use crate::text_parse::{fields, first_line, heard_line};
use crate::text_read::{cut, cut_line, keyword, node};
use rr_types::{Body, Command, Input, Message, Nodes, Op, Refusal, Reply, made_of};
use std::alloc::Global;

// The event of a line on an acknowledgement, whose words behind the keyword these are, and the bytes behind it.
#[inline(never)]
fn acked_line<'a>(
    nodes: Nodes,
    text: &[u8],
    rest: &'a [u8],
    line: u64,
) -> Result<Option<(TapeEvent, &'a [u8])>, Refusal>
    ensures ok { IfOk result (λ next. MatchOption next ⊥ (λ x. (acked_at nodes text.now ≡ Some x.0) × (x.1.now ≡ rest.now))) }
    ensures err { IfErr result (λ e. (e ≡ Refusal.BadEvent line) × (acked_at nodes text.now ≡ None)) }
{
    made_of!(Body, Command, Message, Op, Reply);
    let Some((word, words)) = cut(text, b' ') else {
        return Err(Refusal::BadEvent(line));
    };
    let Some(node) = node(nodes, word) else {
        return Err(Refusal::BadEvent(line));
    };
    let Some((word, words)) = cut(words, b' ') else {
        return Err(Refusal::BadEvent(line));
    };
    let Some(request) = request(word) else {
        return Err(Refusal::BadEvent(line));
    };
    let Some(reply) = reply(words) else {
        return Err(Refusal::BadEvent(line));
    };
    let what = Recorded::Acked { request, reply };
    Ok(Some((TapeEvent { node, what }, rest)))
}

// The event of a line that a schedule may have too, and the bytes behind it.
#[inline(never)]
fn told_line<'a>(
    alloc: Global,
    nodes: Nodes,
    keyword: EventKind,
    text: &[u8],
    rest: &'a [u8],
    line: u64,
) -> Result<Option<(TapeEvent, &'a [u8])>, Refusal>
    ensures ok { IfOk result (λ next. MatchOption next ⊥ (λ x. (told_at nodes keyword text.now ≡ Some x.0) × (x.1.now ≡ rest.now))) }
    ensures err { IfErr result (λ e. (e ≡ Refusal.OutOfMemory) ⊎ ((e ≡ Refusal.BadEvent line) × (told_at nodes keyword text.now ≡ None))) }
{
    made_of!(Body, Command, Message, Op, Reply);
    let Some(event) = fields(alloc, nodes, keyword, text)? else {
        return Err(Refusal::BadEvent(line));
    };
    match as_recorded(&event) {
        Some(event) => Ok(Some((event, rest))),
        None => Err(Refusal::BadEvent(line)),
    }
}

// The event of a line of this keyword, whose words behind it these are, and the bytes behind the line.
fn fields_line<'a>(
    alloc: Global,
    nodes: Nodes,
    keyword: EventKind,
    text: &[u8],
    rest: &'a [u8],
    line: u64,
) -> Result<Option<(TapeEvent, &'a [u8])>, Refusal>
    ensures ok { IfOk result (λ next. MatchOption next ⊥ (λ x. (tape_fields_at nodes keyword text.now ≡ Some x.0) × (x.1.now ≡ rest.now))) }
    ensures err { IfErr result (λ e. (e ≡ Refusal.OutOfMemory) ⊎ ((e ≡ Refusal.BadEvent line) × (tape_fields_at nodes keyword text.now ≡ None))) }
{
    match keyword {
        EventKind::Send => sent_line(nodes, text, rest, line),
        EventKind::Ack => acked_line(nodes, text, rest, line),
        _ => told_line(alloc, nodes, keyword, text, rest, line),
    }
}

// What the first word of a line means, and the text behind it.
fn first_keyword(text: &[u8]) -> Option<(EventKind, &[u8])>
    ensures { (n : ℕ) → MatchOption result (tape_event_at n text.now ≡ None) (λ x. tape_event_at n text.now ≡ tape_fields_at n x.0 x.1.now) }
{
    let Some((word, rest)) = cut(text, b' ') else {
        return None;
    };
    match keyword(word) {
        Some(keyword) => Some((keyword, rest)),
        None => None,
    }
}

/// The event of a tape's next line, which has this number, and the bytes behind the line; none where no byte is left.
///
/// # Errors
/// `BadEvent` of the line where no event stands at the front of the bytes, or a million stand before it; `OutOfMemory`.
#[tactic(auto, using(crate::proofs::TapeReading::heard_taken))]
pub fn next_tape_event(
    alloc: Global,
    nodes: Nodes,
    bytes: &[u8],
    line: u64,
) -> Result<Option<(TapeEvent, &[u8])>, Refusal>
    ensures ok { IfOk result (λ next. MatchOption next (bytes.now ≡ []) (λ x. (line < 1000002) × IsTapeEvent nodes x.0 × (bytes.now ≡ tape_line x.0 ++ x.1.now))) }
    ensures err { IfErr result (λ e. (e ≡ Refusal.OutOfMemory) ⊎ ((e ≡ Refusal.BadEvent line) × (0 < length bytes.now) × ((1000002 ≤ line) ⊎ HasNoLine (IsTapeEvent nodes) tape_line bytes.now))) }
{
    made_of!(Body, Command, Message, Op, Reply);
    let _count = nodes.count();
    if line < MAX_EVENTS as u64 + 2 {
        if let Some((node, message, rest)) = heard_line(nodes, bytes) {
            let what = Recorded::Told(Input::Hear(message));
            return Ok(Some((TapeEvent { node, what }, rest)));
        }
    }
    any_tape_event(alloc, nodes, bytes, line)
}

// The event of a line, whatever it is.
#[inline(never)]
fn any_tape_event(
    alloc: Global,
    nodes: Nodes,
    bytes: &[u8],
    line: u64,
) -> Result<Option<(TapeEvent, &[u8])>, Refusal>
    ensures ok { IfOk result (λ next. MatchOption next (bytes.now ≡ []) (λ x. (line < 1000002) × IsTapeEvent nodes x.0 × (bytes.now ≡ tape_line x.0 ++ x.1.now))) }
    ensures err { IfErr result (λ e. (e ≡ Refusal.OutOfMemory) ⊎ ((e ≡ Refusal.BadEvent line) × (0 < length bytes.now) × ((1000002 ≤ line) ⊎ HasNoLine (IsTapeEvent nodes) tape_line bytes.now))) }
{
    made_of!(Body, Command, Message, Op, Reply);
    let _count = nodes.count();
    if bytes.is_empty() {
        return Ok(None);
    }
    if line >= MAX_EVENTS as u64 + 2 {
        return Err(Refusal::BadEvent(line));
    }
    let Some((text, rest)) = cut_line(bytes) else {
        return Err(Refusal::BadEvent(line));
    };
    let Some((keyword, words)) = first_keyword(text) else {
        return Err(Refusal::BadEvent(line));
    };
    fields_line(alloc, nodes, keyword, words, rest, line)
}

#[tactic(auto, using(crate::proofs::LineReading::so_far_none, crate::proofs::LineReading::so_far_on, crate::proofs::LineReading::so_far_all, crate::proofs::LineReading::so_far_stop))]
fn tape_events(alloc: Global, nodes: Nodes, bytes: &[u8]) -> Result<Vec<TapeEvent>, Refusal>
    ensures ok { IfOk result (λ v. ArePrinted (IsTapeEvent nodes) tape_line v.items bytes.now) }
    ensures err { IfErr result (λ e. IsStop (IsTapeEvent nodes) tape_line bytes.now e) }
{
    made_of!(Body, Command, Message, Op, Reply);
    let mut events = Vec::new(alloc);
    let mut rest = bytes;
    loop {
        match next_tape_event(alloc, nodes, rest, events.len() as u64 + 2) {
            Err(refusal) => return Err(refusal),
            Ok(None) => return Ok(events),
            Ok(Some((event, behind))) => {
                events.push(event)?;
                rest = behind;
            }
        }
    }
}

fn tape(alloc: Global, bytes: &[u8]) -> Result<Tape, Refusal>
    ensures found { IfOk result (λ t. IsTape t × (bytes.now ≡ tape_text t)) }
    ensures fault { IfErr result (λ e. IsFault IsTapeEvent tape_line bytes.now e) }
{
    match first_line(bytes) {
        Err(refusal) => Err(refusal),
        Ok((nodes, rest)) => {
            let _count = nodes.count();
            match tape_events(alloc, nodes, rest) {
                Err(refusal) => Err(refusal),
                Ok(events) => Ok(Tape::of_parts(nodes, events)),
            }
        }
    }
}

impl Tape {
    /// The tape that the bytes are the text of. Bytes that are none are `BadNodes` where their first line
    /// names a number of nodes that isn't 1 to 7, and else `BadEvent` of the first line that has no place.
    ///
    /// # Errors
    /// `OutOfMemory`, `BadNodes`, `BadEvent`.
    pub fn parse(alloc: Global, bytes: &[u8]) -> Result<Tape, Refusal>
        // What is read is printed so.
        ensures found { IfOk result (λ t. IsTape t × (bytes.now ≡ tape_text t)) }
        // What is printed so is read, unless memory runs out.
        ensures only { (s : Taped) → IsTape s → bytes.now ≡ tape_text s → MatchResult result (λ t. t ≡ s) (λ e. e ≡ Refusal.OutOfMemory) }
        // Which line is at fault.
        ensures fault { IfErr result (λ e. IsFault IsTapeEvent tape_line bytes.now e) }
    {
        tape(alloc, bytes)
    }
}
