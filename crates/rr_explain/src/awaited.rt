//! What may stand next in a line of a schedule, a tape or a script.

ghost use Rattle.std.specs.Prelude.{◌≡◌};
ghost use Rattle.rr_explain.specs.Faults.{ArePlain};

use crate::recorded::Recorded;
use rr_text::EventKind;
use rr_text::text_read::{hex_byte, keyword, node, number, set, small_number};
use rr_types::{Name, Nodes, OpKind, Shape, Value};

/// What may stand next in a line.
#[derive(Clone, Copy, Debug)]
pub(crate) enum Awaited {
    Event,
    Node(EventKind),
    Client,
    Request,
    Operation,
    // The name of an operation, which has this beside it.
    Named(Shape),
    Value,
    Owner,
    Message,
    Suspects,
    FirstCut,
    SecondCut,
    Fill,
    Recorded(Recorded),
    Asked,
    Looker,
    Looked,
    End,
}

impl Awaited {
    /// What it is called.
    pub(crate) fn called(self) -> &'static str
        ensures { ArePlain result.now }
    {
        match self {
            Awaited::Event => "event",
            Awaited::Node(_) | Awaited::Looker => "node",
            Awaited::Client => "client",
            Awaited::Request => "request number",
            Awaited::Operation => "operation",
            Awaited::Named(_) | Awaited::Looked => "name",
            Awaited::Value => "value",
            Awaited::Owner => "owner",
            Awaited::Message => "message number",
            Awaited::Suspects => "set of nodes",
            Awaited::FirstCut | Awaited::SecondCut => "cut",
            Awaited::Fill => "fill",
            Awaited::Recorded(recorded) => recorded.called(),
            Awaited::Asked => "line of a script",
            Awaited::End => "end of the line",
        }
    }

    /// What is expected there.
    pub(crate) fn expected(self, nodes: Nodes) -> &'static str
        ensures { ArePlain result.now }
    {
        match self {
            Awaited::Event => {
                "submit, hear, suspect, tick, advance, take, dev, fail, mark, send, ack, snap, crash or restart"
            }
            Awaited::Node(_) | Awaited::Looker => digits(nodes),
            Awaited::Operation => OpKind::choice(),
            Awaited::Request => "a number below 2^64 without leading zeros",
            Awaited::Named(_) | Awaited::Looked => "1 to 64 of a to z, 0 to 9 and hyphen",
            Awaited::Value => "1 to 64 printable ASCII characters",
            Awaited::Client
            | Awaited::Owner
            | Awaited::Message
            | Awaited::FirstCut
            | Awaited::SecondCut => "a number below 2^32 without leading zeros",
            Awaited::Suspects => "- or ascending digits of nodes",
            Awaited::Fill => "- or pairs of the digits 0 to 9 and A to F",
            Awaited::Recorded(recorded) => recorded.expected(nodes),
            Awaited::Asked => "submit or look",
            Awaited::End => "nothing more",
        }
    }

    /// Whether the word may stand here.
    pub(crate) fn fits(self, nodes: Nodes, word: &[u8]) -> bool {
        match self {
            Awaited::Event => keyword(word).is_some(),
            Awaited::Node(_) | Awaited::Looker => node(nodes, word).is_some(),
            Awaited::Operation => behind_operation(word).is_some(),
            Awaited::Request => number(word).is_some(),
            Awaited::Named(_) | Awaited::Looked => Name::new(word).is_ok(),
            Awaited::Value => !word.is_empty() && Value::new(word).is_ok(),
            Awaited::Client
            | Awaited::Owner
            | Awaited::Message
            | Awaited::FirstCut
            | Awaited::SecondCut => small_number(word).is_some(),
            Awaited::Suspects => set(nodes, word).is_some(),
            Awaited::Fill => is_fill(word),
            Awaited::Recorded(recorded) => recorded.fits(nodes, word),
            Awaited::Asked => behind_asked(word).is_some(),
            Awaited::End => false,
        }
    }

    /// What may stand behind the word, which fits here.
    pub(crate) fn behind(self, word: &[u8]) -> Awaited {
        match self {
            Awaited::Event => match keyword(word) {
                Some(keyword) => Awaited::Node(keyword),
                None => Awaited::End,
            },
            Awaited::Node(EventKind::Submit) => Awaited::Client,
            Awaited::Node(EventKind::Hear) => Awaited::Message,
            Awaited::Node(EventKind::Suspect) => Awaited::Suspects,
            Awaited::Node(EventKind::Fail) => Awaited::Fill,
            Awaited::Node(EventKind::Crash) => Awaited::FirstCut,
            Awaited::Node(_) => Awaited::End,
            Awaited::Client => Awaited::Request,
            Awaited::Request => Awaited::Operation,
            Awaited::Operation => match behind_operation(word) {
                Some(awaited) => awaited,
                None => Awaited::End,
            },
            Awaited::Named(Shape::Valued) => Awaited::Value,
            Awaited::Named(Shape::Owned) => Awaited::Owner,
            Awaited::FirstCut => Awaited::SecondCut,
            Awaited::SecondCut => Awaited::Fill,
            Awaited::Recorded(recorded) => recorded.behind(word),
            Awaited::Asked => match behind_asked(word) {
                Some(awaited) => awaited,
                None => Awaited::End,
            },
            Awaited::Looker => Awaited::Looked,
            _ => Awaited::End,
        }
    }

    /// What is said of an empty line that was to begin with this.
    pub(crate) fn empty(self) -> &'static str
        ensures { ArePlain result.now }
    {
        match self {
            Awaited::Asked => "an empty line; expected submit or look",
            _ => "an empty line; expected an event",
        }
    }

    /// Whether the line may end here.
    pub(crate) fn may_end(self) -> bool {
        matches!(self, Awaited::Value | Awaited::End)
    }
}

// What may stand behind the first word of a line of a script.
fn behind_asked(word: &[u8]) -> Option<Awaited> {
    if word == b"submit".as_slice() {
        Some(Awaited::Node(EventKind::Submit))
    } else if word == b"look".as_slice() {
        Some(Awaited::Looker)
    } else {
        None
    }
}

/// The nodes that there are.
pub(crate) fn digits(nodes: Nodes) -> &'static str
    ensures { ArePlain result.now }
{
    match nodes.count() {
        1 => "0",
        2 => "0 or 1",
        3 => "0 to 2",
        4 => "0 to 3",
        5 => "0 to 4",
        6 => "0 to 5",
        _ => "0 to 6",
    }
}

// What may stand behind an operation of this name.
fn behind_operation(word: &[u8]) -> Option<Awaited> {
    let kind = OpKind::of_word(word)?;
    Some(Awaited::Named(kind.shape()))
}

fn is_fill(word: &[u8]) -> bool {
    if word == b"-".as_slice() {
        return true;
    }
    !word.is_empty()
        && word.chunks(2).all(|pair| match pair {
            [high, low] => hex_byte(*high, *low).is_some(),
            _ => false,
        })
}
