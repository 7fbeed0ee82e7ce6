//! Reading schedules.
//!
//! An event is large, and each call that passes it on copies it. So the lines that most events have are matched whole, and
//! any other line is read word by word. Which functions are inlined is left to the compiler: each hint that was tried cost
//! instructions.

ghost use Rattle.std.specs.Prelude.{◌≡◌, ℕ, ◌⊎◌, ◌+◌, ◌<◌, ◌≤◌, ◌++◌, ◌∷◌, [], None, Some, MatchOption, MatchResult, IfSome, IsSome, IfOk, IfErr, List, length};
ghost use Rattle.std.specs.Option.{option_map};
ghost use Rattle.std.specs.List.{flat_map, AllByRecursion};
ghost use Rattle.rr_text.specs.Scheduled.{Scheduled, IsEvent, IsSchedule};
ghost use Rattle.rr_text.specs.Lines.{nodes_line, HasNoLine, ArePrinted, IsStop, IsFirstFault, IsFault};
ghost use Rattle.rr_text.specs.ScheduleTexts.{event_line, HearsNothing, schedule_text};
ghost use Rattle.rr_text.specs.Events.{event_of, told_at};
ghost use Rattle.rr_text.specs.Reading.{keyword_text, node_at, pairs_at, fill_at, first_node_at, cuts_at, plain_at, fields_at, event_at, nodes_at, count_at};

use crate::event::{Event, Fill, Happening};
use crate::kind::EventKind;
use crate::schedule::{MAX_EVENTS, Schedule};
use crate::text_read::{
    cut, cut_line, hex_byte, is_number, keyword, node, set, small_number, submitted,
};
use rr_types::{Input, NodeEvent, NodeId, Nodes, Refusal};
use std::alloc::{AllocError, Global};

fn pairs(alloc: Global, word: &[u8]) -> Result<Option<Vec<u8>>, AllocError>
    ensures ok { IfOk result (λ r. MatchOption r (pairs_at word.now ≡ None) (λ v. pairs_at word.now ≡ Some v.items)) }
{
    let mut bytes = Vec::with_capacity(alloc, word.len() / 2)?;
    let mut rest = word;
    while let [high, low, tail @ ..] = rest {
        match hex_byte(*high, *low) {
            Some(byte) => bytes.push(byte)?,
            None => return Ok(None),
        }
        rest = tail;
    }
    if rest.is_empty() {
        Ok(Some(bytes))
    } else {
        Ok(None)
    }
}

fn fill(alloc: Global, word: &[u8]) -> Result<Option<Fill>, AllocError>
    ensures ok { IfOk result (λ f. f ≡ fill_at word.now) }
{
    if word.is_empty() {
        return Ok(None);
    }
    if word == b"-".as_slice() {
        return Ok(Some(Fill::new(Vec::new(alloc))));
    }
    match pairs(alloc, word)? {
        Some(bytes) => Ok(Some(Fill::new(bytes))),
        None => Ok(None),
    }
}

// The node whose number a digit is.
fn node_of(nodes: Nodes, digit: u8) -> Option<NodeId>
    ensures { result ≡ node_at nodes (digit ∷ []) }
{
    if digit < b'0' {
        return None;
    }
    NodeId::new(nodes, digit - b'0')
}

/// The node that a first word is, and the text behind it. Such a word is one byte, so no byte is searched for a space.
#[tactic(auto, using(crate::proofs::EventReading::first_node_front, crate::proofs::EventReading::first_node_apart))]
pub fn first_node(nodes: Nodes, text: &[u8]) -> Option<(NodeId, &[u8])>
    ensures { MatchOption result (first_node_at nodes text.now ≡ None) (λ x. first_node_at nodes text.now ≡ Some (x.0, x.1.now)) }
{
    let _count = nodes.count();
    match text {
        [digit, b' ', rest @ ..] => match node_of(nodes, *digit) {
            Some(node) => Some((node, rest)),
            None => None,
        },
        _ => None,
    }
}

fn submit(nodes: Nodes, text: &[u8]) -> Result<Option<Event>, AllocError>
    ensures ok { IfOk result (λ e. e ≡ fields_at nodes EventKind.Submit text.now) }
{
    let Some((node, rest)) = first_node(nodes, text) else {
        return Ok(None);
    };
    let Some(command) = submitted(rest) else {
        return Ok(None);
    };
    Ok(Some(Event::told(node, Input::Submit(command))))
}

fn hear(nodes: Nodes, text: &[u8]) -> Result<Option<Event>, AllocError>
    ensures ok { IfOk result (λ e. e ≡ fields_at nodes EventKind.Hear text.now) }
{
    let Some((node, rest)) = first_node(nodes, text) else {
        return Ok(None);
    };
    let Some(message) = small_number(rest) else {
        return Ok(None);
    };
    Ok(Some(Event::told(node, Input::Hear(message))))
}

fn suspect(nodes: Nodes, text: &[u8]) -> Result<Option<Event>, AllocError>
    ensures ok { IfOk result (λ e. e ≡ fields_at nodes EventKind.Suspect text.now) }
{
    let Some((node, rest)) = first_node(nodes, text) else {
        return Ok(None);
    };
    let Some(set) = set(nodes, rest) else {
        return Ok(None);
    };
    Ok(Some(Event::told(node, Input::Suspect(set))))
}

// The event of this keyword at a node, where that is all that the line says.
fn plain(keyword: EventKind, node: NodeId) -> Event
    requires { IsSome (plain_at keyword) }
    ensures { option_map (event_of node) (plain_at keyword) ≡ Some result }
{
    let event = match keyword {
        EventKind::Tick => NodeEvent::Told(Input::Tick),
        EventKind::Advance => NodeEvent::Told(Input::Advance),
        EventKind::Take => NodeEvent::Take,
        EventKind::Device => NodeEvent::Device,
        EventKind::Mark => NodeEvent::Mark,
        EventKind::Send => NodeEvent::Send,
        EventKind::Ack => NodeEvent::Acknowledge,
        EventKind::Snap => NodeEvent::Snap,
        EventKind::Restart => NodeEvent::Restart,
        EventKind::Submit
        | EventKind::Hear
        | EventKind::Suspect
        | EventKind::Fail
        | EventKind::Crash => unreachable!(),
    };
    Event::at(node, event)
}

fn at_node(nodes: Nodes, keyword: EventKind, text: &[u8]) -> Result<Option<Event>, AllocError>
    requires { IsSome (plain_at keyword) }
    ensures ok { IfOk result (λ e. e ≡ fields_at nodes keyword text.now) }
{
    match node(nodes, text) {
        Some(node) => Ok(Some(plain(keyword, node))),
        None => Ok(None),
    }
}

fn fail(alloc: Global, nodes: Nodes, text: &[u8]) -> Result<Option<Event>, AllocError>
    ensures ok { IfOk result (λ e. e ≡ fields_at nodes EventKind.Fail text.now) }
{
    let Some((node, rest)) = first_node(nodes, text) else {
        return Ok(None);
    };
    match fill(alloc, rest)? {
        Some(fill) => Ok(Some(Event {
            node,
            what: Happening::Fail(fill),
        })),
        None => Ok(None),
    }
}

fn cuts(alloc: Global, text: &[u8]) -> Result<Option<(u32, u32, Fill)>, AllocError>
    ensures ok { IfOk result (λ c. c ≡ cuts_at text.now) }
{
    let Some((word, rest)) = cut(text, b' ') else {
        return Ok(None);
    };
    let Some(cut_0) = small_number(word) else {
        return Ok(None);
    };
    let Some((word, rest)) = cut(rest, b' ') else {
        return Ok(None);
    };
    let Some(cut_1) = small_number(word) else {
        return Ok(None);
    };
    match fill(alloc, rest)? {
        Some(fill) => Ok(Some((cut_0, cut_1, fill))),
        None => Ok(None),
    }
}

fn crash(alloc: Global, nodes: Nodes, text: &[u8]) -> Result<Option<Event>, AllocError>
    ensures ok { IfOk result (λ e. e ≡ fields_at nodes EventKind.Crash text.now) }
{
    let Some((node, rest)) = first_node(nodes, text) else {
        return Ok(None);
    };
    match cuts(alloc, rest)? {
        Some((cut_0, cut_1, fill)) => Ok(Some(Event {
            node,
            what: Happening::Crash { cut_0, cut_1, fill },
        })),
        None => Ok(None),
    }
}

/// The event of this keyword that the text behind it says; none where it says none.
pub fn fields(
    alloc: Global,
    nodes: Nodes,
    keyword: EventKind,
    text: &[u8],
) -> Result<Option<Event>, AllocError>
    ensures ok { IfOk result (λ e. e ≡ fields_at nodes keyword text.now) }
{
    match keyword {
        EventKind::Submit => submit(nodes, text),
        EventKind::Hear => hear(nodes, text),
        EventKind::Suspect => suspect(nodes, text),
        EventKind::Fail => fail(alloc, nodes, text),
        EventKind::Crash => crash(alloc, nodes, text),
        EventKind::Tick
        | EventKind::Advance
        | EventKind::Take
        | EventKind::Device
        | EventKind::Mark
        | EventKind::Send
        | EventKind::Ack
        | EventKind::Snap
        | EventKind::Restart => at_node(nodes, keyword, text),
    }
}

// What the first word of a line means, and the text behind it.
fn first_keyword(text: &[u8]) -> Option<(EventKind, &[u8])>
    ensures { (n : ℕ) → MatchOption result (event_at n text.now ≡ None) (λ x. event_at n text.now ≡ fields_at n x.0 x.1.now) }
{
    let Some((word, rest)) = cut(text, b' ') else {
        return None;
    };
    match keyword(word) {
        Some(keyword) => Some((keyword, rest)),
        None => None,
    }
}

fn count_of_nodes(line: &[u8]) -> Option<&[u8]>
    ensures { MatchOption result (count_at line.now ≡ None) (λ x. count_at line.now ≡ Some x.now) }
{
    match cut(line, b' ') {
        Some((word, rest)) => {
            if word == b"nodes".as_slice() {
                Some(rest)
            } else {
                None
            }
        }
        None => None,
    }
}

fn nodes_of(word: &[u8]) -> Option<Nodes>
    ensures { result ≡ nodes_at word.now }
{
    match word {
        [digit] if *digit >= b'1' && *digit <= b'7' => Nodes::new(*digit - b'0').ok(),
        _ => None,
    }
}

/// How many nodes the first line says that there are, and the bytes behind it.
///
/// # Errors
/// `BadNodes` where it says another number than 1 to 7, else `BadEvent` of line 1.
#[tactic(auto, using(crate::proofs::FirstLine::first_ok, crate::proofs::FirstLine::first_uncut, crate::proofs::FirstLine::first_uncounted, crate::proofs::FirstLine::first_unnumbered, crate::proofs::FirstLine::first_other))]
pub fn first_line(bytes: &[u8]) -> Result<(Nodes, &[u8]), Refusal>
    ensures ok { IfOk result (λ x. bytes.now ≡ nodes_line x.0 ++ x.1.now) }
    ensures err { IfErr result (λ e. IsFirstFault bytes.now e) }
{
    let Some((line, rest)) = cut_line(bytes) else {
        return Err(Refusal::BadEvent(1));
    };
    let Some(word) = count_of_nodes(line) else {
        return Err(Refusal::BadEvent(1));
    };
    match nodes_of(word) {
        Some(nodes) => Ok((nodes, rest)),
        None => {
            if is_number(word) {
                Err(Refusal::BadNodes)
            } else {
                Err(Refusal::BadEvent(1))
            }
        }
    }
}

/// The event of a schedule's next line, which has this number, and the bytes behind the line; none where no byte is left.
///
/// # Errors
/// `BadEvent` of the line where no event stands at the front of the bytes, or a million stand before it; `OutOfMemory`.
pub fn next_event(
    alloc: Global,
    nodes: Nodes,
    bytes: &[u8],
    line: u64,
) -> Result<Option<(Event, &[u8])>, Refusal>
    ensures ok { IfOk result (λ next. MatchOption next (bytes.now ≡ []) (λ x. (line < 1000002) × IsEvent nodes x.0 × (bytes.now ≡ event_line x.0 ++ x.1.now))) }
    ensures err { IfErr result (λ e. (e ≡ Refusal.OutOfMemory) ⊎ ((e ≡ Refusal.BadEvent line) × (0 < length bytes.now) × ((1000002 ≤ line) ⊎ HasNoLine (IsEvent nodes) event_line bytes.now))) }
{
    if line < MAX_EVENTS as u64 + 2 {
        if let Some(next) = plain_event(nodes, bytes) {
            return Ok(Some(next));
        }
        if let Some((node, message, rest)) = heard_line(nodes, bytes) {
            return Ok(Some((Event::told(node, Input::Hear(message)), rest)));
        }
    }
    any_event(alloc, nodes, bytes, line)
}

// The event of a line that is matched whole, and the bytes behind it; none for most other lines.
fn plain_event(nodes: Nodes, bytes: &[u8]) -> Option<(Event, &[u8])>
    ensures { IfSome result (λ x. IsEvent nodes x.0 × (bytes.now ≡ event_line x.0 ++ x.1.now)) }
{
    let _count = nodes.count();
    let (keyword, digit, rest) = plain_line(bytes)?;
    let node = NodeId::new(nodes, digit.checked_sub(b'0')?)?;
    Some((plain(keyword, node), rest))
}

/// The node and the number of the message of a line on hearing one, and the bytes behind it; none where no such line stands at
/// the front of the bytes. Only the number is searched for its end.
pub fn heard_line(nodes: Nodes, bytes: &[u8]) -> Option<(NodeId, u32, &[u8])>
    ensures { MatchOption result (HearsNothing nodes bytes.now)
        (λ x. IsEvent nodes (told_at x.0 (Input.Hear x.1)) × (bytes.now ≡ event_line (told_at x.0 (Input.Hear x.1)) ++ x.2.now)) }
{
    let _count = nodes.count();
    let (digit, words) = heard_parts(bytes)?;
    let node = NodeId::new(nodes, digit.checked_sub(b'0')?)?;
    let (word, rest) = cut(words, b'\n')?;
    let message = small_number(word)?;
    Some((node, message, rest))
}

// The byte in the node's place of a line on hearing a message, and the bytes behind it and a space.
fn heard_parts(bytes: &[u8]) -> Option<(u8, &[u8])>
    ensures { MatchOption result
        ((d : ℕ) (words : List ℕ) → bytes.now ≡ keyword_text EventKind.Hear ++ 32 ∷ d ∷ 32 ∷ words → ⊥)
        (λ x. bytes.now ≡ keyword_text EventKind.Hear ++ 32 ∷ x.0 ∷ 32 ∷ x.1.now) }
{
    match bytes {
        [b'h', b'e', b'a', b'r', b' ', digit, b' ', words @ ..] => Some((*digit, words)),
        _ => None,
    }
}

// The parts of a line that is a keyword and one more byte, and the bytes behind it, for the keywords that most lines have.
// Such a line is matched whole, so that none of its bytes is searched for a space or a line feed.
fn plain_line(bytes: &[u8]) -> Option<(EventKind, u8, &[u8])>
    ensures { IfSome result (λ x. IsSome (plain_at x.0) × (bytes.now ≡ keyword_text x.0 ++ 32 ∷ x.1 ∷ 10 ∷ x.2.now)) }
{
    match bytes {
        [b'd', b'e', b'v', b' ', digit, b'\n', rest @ ..] => Some((
            EventKind::Device,
            *digit,
            rest,
        )),
        [b'a', b'c', b'k', b' ', digit, b'\n', rest @ ..] => Some((EventKind::Ack, *digit, rest)),
        [b't', b'a', b'k', b'e', b' ', digit, b'\n', rest @ ..] => Some((
            EventKind::Take,
            *digit,
            rest,
        )),
        [b'm', b'a', b'r', b'k', b' ', digit, b'\n', rest @ ..] => Some((
            EventKind::Mark,
            *digit,
            rest,
        )),
        [b's', b'e', b'n', b'd', b' ', digit, b'\n', rest @ ..] => Some((
            EventKind::Send,
            *digit,
            rest,
        )),
        [b't', b'i', b'c', b'k', b' ', digit, b'\n', rest @ ..] => Some((
            EventKind::Tick,
            *digit,
            rest,
        )),
        [b's', b'n', b'a', b'p', b' ', digit, b'\n', rest @ ..] => Some((
            EventKind::Snap,
            *digit,
            rest,
        )),
        _ => long_plain_line(bytes),
    }
}

// The same for two keywords that are longer.
fn long_plain_line(bytes: &[u8]) -> Option<(EventKind, u8, &[u8])>
    ensures { IfSome result (λ x. IsSome (plain_at x.0) × (bytes.now ≡ keyword_text x.0 ++ 32 ∷ x.1 ∷ 10 ∷ x.2.now)) }
{
    match bytes {
        [
            b'a',
            b'd',
            b'v',
            b'a',
            b'n',
            b'c',
            b'e',
            b' ',
            digit,
            b'\n',
            rest @ ..,
        ] => Some((EventKind::Advance, *digit, rest)),
        [
            b'r',
            b'e',
            b's',
            b't',
            b'a',
            b'r',
            b't',
            b' ',
            digit,
            b'\n',
            rest @ ..,
        ] => Some((EventKind::Restart, *digit, rest)),
        _ => None,
    }
}

// The event of a line, whatever it is.
#[tactic(auto, using(crate::proofs::ScheduleReading::event_uncut, crate::proofs::ScheduleReading::event_unread))]
fn any_event(
    alloc: Global,
    nodes: Nodes,
    bytes: &[u8],
    line: u64,
) -> Result<Option<(Event, &[u8])>, Refusal>
    ensures ok { IfOk result (λ next. MatchOption next (bytes.now ≡ []) (λ x. (line < 1000002) × IsEvent nodes x.0 × (bytes.now ≡ event_line x.0 ++ x.1.now))) }
    ensures err { IfErr result (λ e. (e ≡ Refusal.OutOfMemory) ⊎ ((e ≡ Refusal.BadEvent line) × (0 < length bytes.now) × ((1000002 ≤ line) ⊎ HasNoLine (IsEvent nodes) event_line bytes.now))) }
{
    let _count = nodes.count();
    if bytes.is_empty() {
        return Ok(None);
    }
    if line >= MAX_EVENTS as u64 + 2 {
        return Err(Refusal::BadEvent(line));
    }
    let Some((text, rest)) = cut_line(bytes) else {
        return Err(Refusal::BadEvent(line));
    };
    let Some((keyword, words)) = first_keyword(text) else {
        return Err(Refusal::BadEvent(line));
    };
    match fields(alloc, nodes, keyword, words)? {
        Some(event) => Ok(Some((event, rest))),
        None => Err(Refusal::BadEvent(line)),
    }
}

fn events(alloc: Global, nodes: Nodes, bytes: &[u8]) -> Result<Vec<Event>, Refusal>
    ensures ok { IfOk result (λ v. ArePrinted (IsEvent nodes) event_line v.items bytes.now) }
    ensures err { IfErr result (λ e. IsStop (IsEvent nodes) event_line bytes.now e) }
{
    let mut events = Vec::new(alloc);
    let mut rest = bytes;
    while let Some((event, behind)) = next_event(alloc, nodes, rest, events.len() as u64 + 2)? {
        events.push(event)?;
        rest = behind;
    }
    Ok(events)
}

fn schedule(alloc: Global, bytes: &[u8]) -> Result<Schedule, Refusal>
    ensures found { IfOk result (λ s. IsSchedule s × (bytes.now ≡ schedule_text s)) }
    ensures fault { IfErr result (λ e. IsFault IsEvent event_line bytes.now e) }
{
    match first_line(bytes) {
        Err(refusal) => Err(refusal),
        Ok((nodes, rest)) => {
            let _count = nodes.count();
            match events(alloc, nodes, rest) {
                Err(refusal) => Err(refusal),
                Ok(events) => Ok(Schedule::of_parts(nodes, events)),
            }
        }
    }
}

impl Schedule {
    /// The schedule that the bytes are the text of. Bytes that are none are `BadNodes` where their first line
    /// names a number of nodes that isn't 1 to 7, and else `BadEvent` of the first line that has no place.
    ///
    /// # Errors
    /// `OutOfMemory`, `BadNodes`, `BadEvent`.
    pub fn parse(alloc: Global, bytes: &[u8]) -> Result<Schedule, Refusal>
        // What is read is printed so.
        ensures found { IfOk result (λ s. IsSchedule s × (bytes.now ≡ schedule_text s)) }
        // What is printed so is read, unless memory runs out.
        ensures only { (s : Scheduled) → IsSchedule s → bytes.now ≡ schedule_text s → MatchResult result (λ t. t ≡ s) (λ e. e ≡ Refusal.OutOfMemory) }
        // Which line is at fault.
        ensures fault { IfErr result (λ e. IsFault IsEvent event_line bytes.now e) }
    {
        schedule(alloc, bytes)
    }
}
