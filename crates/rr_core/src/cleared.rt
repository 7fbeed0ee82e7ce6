//! Messages that may leave. Only a cleared message can be handed out, and only here is one cleared: a draft that a mark
//! of its sender covers, or a free message.

ghost use Rattle.std.specs.Prelude.{◌≡◌, ◌↔◌, IsTrue, IsSome, IfSome};
ghost use Rattle.rr_state.specs.Owing.{is_free};
ghost use Rattle.rr_core.specs.Marks.{clears};

use crate::mark::Mark;
use rr_types::{Body, Command, Message, Op, made_of};
use std::marker::Model;

/// A message that waits for the fact with this number.
#[derive(Debug, Drop)]
pub(crate) struct Draft<'a> {
    message: &'a Message,
    number: u128,
}

impl<'a> Model for Draft<'a> {
    ghost use Rattle.rr_core.specs.Marks.{Drafted};

    ghost Value = { Drafted };

    ghost view = { λ d. record { message = d.message.now; number = d.number } };
}

impl<'a> Draft<'a> {
    /// A message that the fact with this number backs.
    pub(crate) fn new(message: &'a Message, number: u128) -> Draft<'a>
        ensures { result ≡ record { message = message.now; number = number } }
    {
        Draft { message, number }
    }

    /// The message may leave where the mark is of its sender and covers the fact.
    pub(crate) fn clear(&self, mark: &Mark) -> Option<Cleared>
        ensures valid { IsSome result ↔ IsTrue (clears mark.now self.now) }
        ensures ok { IfSome result (λ m. m ≡ self.now.message) }
    {
        made_of!(Body, Command, Op);
        let message = self.message;
        if message.from.index() == mark.node().index() && self.number < u128::from(mark.end()) {
            Some(Cleared { message: *message })
        } else {
            None
        }
    }
}

/// A message that may leave.
#[derive(Clone, Copy, Debug)]
pub struct Cleared {
    message: Message,
}

impl Model for Cleared {
    ghost use Rattle.rr_types.specs.declared.message.Message.{Message};

    ghost Value = { Message };

    ghost view = { λ c. c.message };

    ghost inverse = { λ m. record { message = m } };
}

impl Cleared {
    /// A Request, Nack, Beat, Suspects or Ask may leave at once, and no other message.
    pub(crate) fn free(message: &Message) -> Option<Cleared>
        ensures valid { IsSome result ↔ IsTrue (is_free message.now.body) }
        ensures ok { IfSome result (λ m. m ≡ message.now) }
    {
        made_of!(Body, Command, Op);
        if is_free(&message.body) {
            Some(Cleared { message: *message })
        } else {
            None
        }
    }

    /// The message.
    pub fn message(&self) -> Message
        ensures { result ≡ self.now }
    {
        self.message
    }

    /// The same without a copy: a message is large.
    pub fn as_message(&self) -> &Message
        ensures { result.now ≡ self.now }
    {
        &self.message
    }
}

/// Whether a body says nothing of facts.
fn is_free(body: &Body) -> bool
    ensures { result ≡ is_free body.now }
{
    match body {
        Body::Estimate(..) | Body::Proposal(..) | Body::Ack(..) | Body::Decision(..) => false,
        Body::Request(_) | Body::Nack(..) | Body::Beat | Body::Suspects(_) | Body::Ask(_) => true,
    }
}
