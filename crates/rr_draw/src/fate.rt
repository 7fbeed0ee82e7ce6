//! What becomes of the messages of a run.

ghost use Rattle.std.specs.Prelude.{◌≡◌, ◌++◌, ◌∷◌, [], ℕ, List, not, if◌then◌else◌, filter, option_map, slice_get, OnOk, IfOk};
ghost use Rattle.std.specs.List.{range_with_len};
ghost use Rattle.std.specs.Ordering.{nat_cmp};
ghost use Rattle.std.specs.BTreeSet.{contains};
ghost use Rattle.rr_draw.specs.Fates.{heard_by, hearing, fate_at, fate_class, never_heard, Keeps};

use crate::words::is_refusal;
use rr_text::{Event, Happening, ReportLine};
use rr_types::{Input, Message, NodeEvent, NodeId};
use std::alloc::{AllocError, Global};
use std::collections::BTreeSet;

/// What becomes of a message that is heard.
#[derive(Clone, Copy, Debug)]
pub(crate) enum Fate {
    /// It is heard for the first time.
    First,
    /// It was heard before.
    Again,
}

impl Fate {
    // By whether it is heard for the first time.
    fn of_hearing(is_new: bool) -> Fate
        ensures { result ≡ if is_new then Fate.First else Fate.Again }
    {
        if is_new { Fate::First } else { Fate::Again }
    }

    /// The class of its arrow.
    pub(crate) fn class(self) -> &'static str
        ensures { result.now ≡ fate_class self }
    {
        match self {
            Fate::First => "",
            Fate::Again => "again",
        }
    }
}

/// Which messages were heard.
#[derive(Drop)]
pub(crate) struct Heard {
    numbers: BTreeSet<u64>,
}

impl Heard {
    /// None was heard.
    pub(crate) fn new(alloc: Global) -> Heard
        ensures { Keeps result [] }
    {
        Heard {
            numbers: BTreeSet::new(alloc),
        }
    }

    /// A message is heard.
    pub(crate) fn hear(&mut self, number: u64) -> Result<Fate, AllocError>
        ensures fate { IfOk result (λ fate. (before : List ℕ) → Keeps self.old before → fate ≡ fate_at before number) }
        ensures keeps { OnOk result ((before : List ℕ) → Keeps self.old before → Keeps self.new (before ++ number ∷ [])) }
    {
        let is_new = self.numbers.insert(number)?;
        Ok(Fate::of_hearing(is_new))
    }

    fn has(&self, number: u64) -> bool
        ensures { result ≡ contains nat_cmp self.now.numbers number }
    {
        self.numbers.contains(&number)
    }

    /// The messages that were never heard, of so many that were sent.
    pub(crate) fn never_heard(&self, alloc: Global, sent: usize) -> Result<Vec<usize>, AllocError>
        ensures { IfOk result (λ lost. (before : List ℕ) → Keeps self.now before → lost.items ≡ never_heard before sent) }
    {
        self.not_among(alloc, sent)
    }

    fn not_among(&self, alloc: Global, sent: usize) -> Result<Vec<usize>, AllocError>
        ensures { IfOk result (λ lost. lost.items ≡ filter (λ k. not (contains nat_cmp self.now.numbers k)) (range_with_len 0 sent)) }
    {
        (0..sent)
            .filter(|number| !self.has(*number as u64))
            .collect(alloc)
    }
}

// The number of a message that is there, and the message, where a node hears it: it is for that node, which doesn't refuse it.
fn hearing<'a>(
    node: NodeId,
    number: u32,
    lines: &[ReportLine],
    message: Option<&'a Message>,
) -> Option<(u32, &'a Message)>
    ensures { option_map (λ it. (it.0, it.1.now)) result ≡ hearing node number lines.now (option_map (λ m. m.now) message.entry) }
{
    match message {
        Some(message) => {
            if message.to == node && !is_refusal(lines) {
                Some((number, message))
            } else {
                None
            }
        }
        None => None,
    }
}

/// The message of this number, if it was sent.
pub(crate) fn message_at(wire: &[Message], number: u32) -> Option<&Message>
    ensures { option_map (λ m. m.now) result ≡ slice_get wire.now number }
{
    wire.get(number as usize)
}

/// The number of the message that an event hears, and the message. The report has these lines of the event, and these messages
/// were sent by then.
pub(crate) fn heard_by<'a>(
    event: &Event,
    lines: &[ReportLine],
    wire: &'a [Message],
) -> Option<(u32, &'a Message)>
    ensures { option_map (λ it. (it.0, it.1.now)) result ≡ heard_by event.now lines.now wire.entry.now }
{
    match &event.what {
        Happening::At(NodeEvent::Told(Input::Hear(message))) => {
            hearing(event.node, *message, lines, message_at(wire, *message))
        }
        _ => None,
    }
}
