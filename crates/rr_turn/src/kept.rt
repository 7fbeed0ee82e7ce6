//! What a node keeps of what comes to it, for its next life.

ghost use Rattle.std.specs.Prelude.{◌≡◌, None};
ghost use Rattle.rr_turn.specs.Chases.{higher, kept_with, sent_of};

use crate::placed::{Placed, keep_higher};
use crate::sent::Sent;
use rr_types::{Body, Command, Estimate, Instance, Message, Op, made_of};
use std::marker::Model;

/// Of the messages that came to a node, up or down, those that it starts with: the estimate or proposal of the highest
/// instance, the last request, and the decision of the highest instance. By them it learns that it is behind, also where
/// nothing is asked any more. All else that comes to a node that is down is lost, and with a life all that it heard and
/// hasn't flushed.
#[derive(Clone, Copy, Debug)]
pub struct Kept {
    opening: Option<Placed>,
    request: Option<Sent>,
    decision: Option<Placed>,
}

impl Model for Kept {
    ghost use Rattle.rr_turn.specs.Chases.{Kept};

    ghost Value = { Kept };

    ghost view = { λ k. record { opening = k.opening; request = k.request; decision = k.decision } };

    ghost inverse = { λ k. record { opening = k.opening; request = k.request; decision = k.decision } };
}

impl Kept {
    /// Nothing has come.
    pub fn new() -> Kept
        ensures { result ≡ record { opening = None; request = None; decision = None } }
    {
        Kept {
            opening: None,
            request: None,
            decision: None,
        }
    }

    /// One more message has come.
    pub fn keep(&mut self, sent: Sent)
        ensures { self.new ≡ kept_with sent.message.body sent self.old }
    {
        self.note(&sent);
    }

    /// The same of a message that stays where it is.
    pub fn note(&mut self, sent: &Sent)
        ensures { self.new ≡ kept_with sent.now.message.body sent.now self.old }
    {
        made_of!(Body, Command, Estimate, Message, Op);
        match &sent.message().body {
            Body::Estimate(instance, _) => self.keep_opening(*instance, sent),
            Body::Proposal(instance, _, _) => self.keep_opening(*instance, sent),
            Body::Request(_) => self.request = Some(*sent),
            Body::Decision(instance, _) => {
                keep_higher(&mut self.decision, instance.number(), sent);
            }
            _ => {}
        }
    }

    // An estimate or a proposal of this instance has come.
    fn keep_opening(&mut self, instance: Instance, sent: &Sent)
        ensures { self.new ≡ record self.old { opening = higher instance sent.now self.old.opening } }
    {
        keep_higher(&mut self.opening, instance.number(), sent);
    }

    /// The last request.
    pub fn request(&self) -> Option<Sent>
        ensures { result ≡ self.now.request }
    {
        self.request
    }

    /// The estimate or proposal of the highest instance.
    pub fn opening(&self) -> Option<Sent>
        ensures { result ≡ sent_of self.now.opening }
    {
        Some(self.opening?.sent)
    }

    /// The decision of the highest instance.
    pub fn decision(&self) -> Option<Sent>
        ensures { result ≡ sent_of self.now.decision }
    {
        Some(self.decision?.sent)
    }
}
