//! What may stand next in a line that only a tape has, and in a tape's lines at all.

ghost use Rattle.std.specs.Prelude.{◌≡◌};
ghost use Rattle.rr_explain.specs.Faults.{ArePlain};

use crate::awaited::{Awaited, digits};
use rr_text::EventKind;
use rr_text::text_read::{cut, keyword, message_kind, node, number, small_number};
use rr_types::{Instance, MessageKind, Nodes, Reply, ReplyKind, Round};

/// What may stand next in a line of a tape, where a schedule's lines have no such place.
#[derive(Clone, Copy, Debug)]
pub(crate) enum Recorded {
    Event,
    Number,
    Sender,
    Addressee,
    Message,
    EstimateInstance,
    EstimateRound,
    // Behind a round of this number.
    Stamp(u32),
    ProposalInstance,
    ProposalRound,
    AnswerInstance,
    AnswerRound,
    DecisionInstance,
    AskInstance,
    Request,
    Acknowledger,
    Acknowledged,
    Reply,
}

impl Recorded {
    /// What it is called.
    pub(crate) fn called(self) -> &'static str
        ensures { ArePlain result.now }
    {
        match self {
            Recorded::Event => "event of a tape",
            Recorded::Number => "message number",
            Recorded::Sender | Recorded::Addressee | Recorded::Acknowledger => "node",
            Recorded::Message => "message",
            Recorded::EstimateInstance
            | Recorded::ProposalInstance
            | Recorded::AnswerInstance
            | Recorded::DecisionInstance
            | Recorded::AskInstance => "instance",
            Recorded::EstimateRound | Recorded::ProposalRound | Recorded::AnswerRound => "round",
            Recorded::Stamp(_) => "stamp",
            Recorded::Request | Recorded::Acknowledged => "request",
            Recorded::Reply => "reply",
        }
    }

    /// What is expected there.
    pub(crate) fn expected(self, nodes: Nodes) -> &'static str
        ensures { ArePlain result.now }
    {
        match self {
            Recorded::Event => "submit, hear, suspect, tick, advance, take, mark, send or ack",
            Recorded::Number => "a number below 2^32 without leading zeros",
            Recorded::Sender | Recorded::Addressee | Recorded::Acknowledger => digits(nodes),
            Recorded::Message => {
                "estimate, proposal, ack, decision, request, nack, beat, suspects or ask"
            }
            Recorded::EstimateInstance
            | Recorded::ProposalInstance
            | Recorded::AnswerInstance
            | Recorded::DecisionInstance
            | Recorded::AskInstance => "a number below 1048576 without leading zeros",
            Recorded::EstimateRound | Recorded::ProposalRound | Recorded::AnswerRound => {
                "1 to 2147483647"
            }
            Recorded::Stamp(_) => "a number below the round without leading zeros",
            Recorded::Request | Recorded::Acknowledged => {
                "a client's number below 2^32, a point and its request number below 2^64"
            }
            Recorded::Reply => ReplyKind::choice(),
        }
    }

    /// Whether the word may stand here.
    pub(crate) fn fits(self, nodes: Nodes, word: &[u8]) -> bool {
        match self {
            Recorded::Event => behind_event(word).is_some(),
            Recorded::Number => small_number(word).is_some(),
            Recorded::Sender | Recorded::Addressee | Recorded::Acknowledger => {
                node(nodes, word).is_some()
            }
            Recorded::Message => behind_message(word).is_some(),
            Recorded::EstimateInstance
            | Recorded::ProposalInstance
            | Recorded::AnswerInstance
            | Recorded::DecisionInstance
            | Recorded::AskInstance => match small_number(word) {
                Some(number) => Instance::new(number).is_some(),
                None => false,
            },
            Recorded::EstimateRound | Recorded::ProposalRound | Recorded::AnswerRound => {
                match small_number(word) {
                    Some(number) => Round::new(number).is_some(),
                    None => false,
                }
            }
            Recorded::Stamp(round) => match small_number(word) {
                Some(stamp) => stamp < round,
                None => false,
            },
            Recorded::Request | Recorded::Acknowledged => is_request(word),
            Recorded::Reply => behind_reply(word).is_some(),
        }
    }

    /// What may stand behind the word, which fits here.
    pub(crate) fn behind(self, word: &[u8]) -> Awaited {
        let next = match self {
            Recorded::Event => return or_end(behind_event(word)),
            Recorded::Number => Recorded::Sender,
            Recorded::Sender => Recorded::Addressee,
            Recorded::Addressee => Recorded::Message,
            Recorded::Message => return or_end(behind_message(word)),
            Recorded::EstimateInstance => Recorded::EstimateRound,
            Recorded::EstimateRound => match small_number(word) {
                Some(round) => Recorded::Stamp(round),
                None => return Awaited::End,
            },
            Recorded::ProposalInstance => Recorded::ProposalRound,
            Recorded::Stamp(_) | Recorded::ProposalRound | Recorded::DecisionInstance => {
                Recorded::Request
            }
            Recorded::AnswerInstance => Recorded::AnswerRound,
            Recorded::AnswerRound | Recorded::AskInstance => return Awaited::End,
            Recorded::Request => return Awaited::Operation,
            Recorded::Acknowledger => Recorded::Acknowledged,
            Recorded::Acknowledged => Recorded::Reply,
            Recorded::Reply => return or_end(behind_reply(word)),
        };
        Awaited::Recorded(next)
    }
}

fn or_end(awaited: Option<Awaited>) -> Awaited {
    match awaited {
        Some(awaited) => awaited,
        None => Awaited::End,
    }
}

// What may stand behind the first word of a line.
fn behind_event(word: &[u8]) -> Option<Awaited> {
    match keyword(word)? {
        EventKind::Send => Some(Awaited::Recorded(Recorded::Number)),
        EventKind::Ack => Some(Awaited::Recorded(Recorded::Acknowledger)),
        EventKind::Device
        | EventKind::Fail
        | EventKind::Snap
        | EventKind::Crash
        | EventKind::Restart => None,
        keyword => Some(Awaited::Node(keyword)),
    }
}

// What may stand behind the word for a message.
fn behind_message(word: &[u8]) -> Option<Awaited> {
    let next = match message_kind(word)? {
        MessageKind::Estimate => Recorded::EstimateInstance,
        MessageKind::Proposal => Recorded::ProposalInstance,
        MessageKind::Ack | MessageKind::Nack => Recorded::AnswerInstance,
        MessageKind::Decision => Recorded::DecisionInstance,
        MessageKind::Request => Recorded::Request,
        MessageKind::Beat => return Some(Awaited::End),
        MessageKind::Suspects => return Some(Awaited::Suspects),
        MessageKind::Ask => Recorded::AskInstance,
    };
    Some(Awaited::Recorded(next))
}

// What may stand behind the word for a reply.
fn behind_reply(word: &[u8]) -> Option<Awaited> {
    let kind = ReplyKind::of_word(word)?;
    Some(match Reply::of(kind, None) {
        Some(_) => Awaited::End,
        None => Awaited::Owner,
    })
}

fn is_request(word: &[u8]) -> bool {
    match cut(word, b'.') {
        Some((client, request)) => small_number(client).is_some() && number(request).is_some(),
        None => false,
    }
}
