//! What is known of a node from outside: by its events, its messages and the facts that it marks.

ghost use Rattle.std.specs.Prelude.{◌≡◌};

use rr_sim::Stance;
use rr_text::{Event, Happening};
use rr_types::{Body, Input, Message, NodeEvent, NodeId, NodeSet, RequestNo};
use std::alloc::{AllocError, Global};
use std::collections::{BTreeMap, BTreeSet};

/// What is known of a node.
#[derive(Drop)]
pub(crate) struct Known {
    /// The requests that clients asked it for since it is up, and that it hasn't acknowledged.
    asked: BTreeSet<RequestNo>,
    /// By instance, the round that its messages named last since it is up or ticked, of what it hasn't decided.
    rounds: BTreeMap<u32, u32>,
    /// The instances that its marked facts decide, and those of the Decisions that it hears by the plan.
    decided: BTreeSet<u32>,
    /// By instance, the number of a Decision for it that it hasn't heard by the plan, of what it hasn't decided.
    decisions: BTreeMap<u32, u32>,
    /// The numbers of the messages that it may hear, oldest first, and how many of these it is done with.
    mail: Vec<u32>,
    opened: usize,
    /// Whether it may have facts to flush, a message to send, a request to acknowledge.
    may_take: bool,
    may_send: bool,
    may_ack: bool,
    /// Whether it may suspect a node.
    suspects: bool,
    /// Whether it is to tick, and how many rounds it is to go on.
    is_to_tick: bool,
    advances: u32,
}

impl Known {
    /// A node that is down, of which nothing is known.
    pub(crate) fn new(alloc: Global) -> Known {
        Known {
            asked: BTreeSet::new(alloc),
            rounds: BTreeMap::new(alloc),
            decided: BTreeSet::new(alloc),
            decisions: BTreeMap::new(alloc),
            mail: Vec::new(alloc),
            opened: 0,
            may_take: true,
            may_send: true,
            may_ack: true,
            suspects: false,
            is_to_tick: false,
            advances: 0,
        }
    }

    /// Whether it has an undecided instance, or a request that it hasn't acknowledged.
    pub(crate) fn has_left(&self) -> bool {
        !self.asked.is_empty() || !self.rounds.is_empty()
    }

    /// The lowest undecided instance of which its messages have told a round, and the round.
    pub(crate) fn lowest(&self) -> Option<(u32, u32)> {
        match self.rounds.first_key_value() {
            Some((instance, round)) => Some((*instance, *round)),
            None => None,
        }
    }

    /// It isn't up: what it was asked for is lost, and so is whom it suspects. Once it is up, it says again in which rounds
    /// it is.
    pub(crate) fn stop(&mut self) {
        self.asked.clear();
        self.rounds.clear();
        self.suspects = false;
        self.is_to_tick = false;
        self.advances = 0;
        self.stir();
    }

    /// Something came, after which it may have facts to flush or something to send or to acknowledge.
    fn stir(&mut self) {
        self.may_take = true;
        self.may_send = true;
        self.may_ack = true;
    }

    /// A client asks it for a request.
    pub(crate) fn ask(&mut self, request: RequestNo) -> Result<(), AllocError> {
        self.asked.insert(request)?;
        Ok(())
    }

    /// It acknowledges a request.
    pub(crate) fn acknowledge(&mut self, request: RequestNo) {
        let _ = self.asked.remove(&request);
    }

    /// Its marked facts decide an instance, or it hears a Decision. Says whether this is new.
    pub(crate) fn decide(&mut self, instance: u32) -> Result<bool, AllocError> {
        let _ = self.rounds.remove(&instance);
        let _ = self.decisions.remove(&instance);
        Ok(self.decided.insert(instance)?)
    }

    /// It suspects these nodes from now on.
    pub(crate) fn suspect(&mut self, set: NodeSet) {
        self.suspects = set.bits() != 0;
    }

    /// It may suspect these nodes too.
    pub(crate) fn suspect_too(&mut self, set: NodeSet) {
        self.suspects = self.suspects || set.bits() != 0;
    }

    /// This happened at it, and has put a message on the wire or acknowledged a request where `is_told`.
    pub(crate) fn learn(&mut self, what: &Happening, stance: Stance, is_told: bool) {
        match what {
            Happening::At(NodeEvent::Send) => self.may_send = is_told,
            Happening::At(NodeEvent::Acknowledge) => self.may_ack = is_told,
            Happening::At(NodeEvent::Take) => self.may_take = stance != Stance::Resting,
            // It says again in which rounds it is.
            Happening::At(NodeEvent::Told(Input::Tick)) => {
                self.rounds.clear();
                self.stir();
            }
            _ => self.stir(),
        }
    }

    /// It has sent a message, which may name its round of an instance.
    pub(crate) fn tell(&mut self, body: &Body) -> Result<(), AllocError> {
        match body {
            Body::Estimate(instance, estimate) => {
                self.note(instance.number(), estimate.round().number())
            }
            Body::Ack(instance, round) => self.note(instance.number(), round.number()),
            _ => Ok(()),
        }
    }

    /// It is in a round of an instance.
    fn note(&mut self, instance: u32, round: u32) -> Result<(), AllocError> {
        if !self.decided.contains(&instance) {
            self.rounds.insert(instance, round)?;
        }
        Ok(())
    }

    /// A message for it was sent, with this number. Before the plan begins, all but the Decisions count as lost.
    pub(crate) fn expect(
        &mut self,
        number: u32,
        body: &Body,
        is_planned: bool,
    ) -> Result<(), AllocError> {
        if is_planned {
            self.mail.push(number)?;
            return Ok(());
        }
        if let Body::Decision(instance, _) = body {
            let instance = instance.number();
            if !self.decided.contains(&instance) {
                self.decisions.insert(instance, number)?;
            }
        }
        Ok(())
    }

    /// It asks what this instance has decided: the Decisions for it that were sent are to be heard.
    pub(crate) fn catch_up(&mut self) -> Result<(), AllocError> {
        for _decision in 0..self.decisions.len() {
            let Some((_, number)) = self.decisions.pop_first() else {
                return Ok(());
            };
            self.mail.push(number)?;
        }
        Ok(())
    }

    /// Whether it might do something by hearing this. Who suspects whom no longer matters.
    fn may_do(&self, body: &Body) -> bool {
        match body {
            Body::Beat | Body::Suspects(_) => false,
            Body::Request(_) | Body::Ask(_) => true,
            Body::Decision(instance, _) => !self.decided.contains(&instance.number()),
            Body::Estimate(instance, estimate) => {
                !self.is_past(instance.number(), estimate.round().number())
            }
            Body::Proposal(instance, round, _)
            | Body::Ack(instance, round)
            | Body::Nack(instance, round) => {
                !self.decided.contains(&instance.number())
                    && !self.is_past(instance.number(), round.number())
            }
        }
    }

    /// Whether it is behind this round of an undecided instance.
    fn is_past(&self, instance: u32, round: u32) -> bool {
        match self.rounds.get(&instance) {
            Some(own) => *own > round,
            None => false,
        }
    }

    /// The number of the next message that it hears, if there is one.
    fn next_heard(&mut self, wire: &[Message]) -> Result<Option<u32>, AllocError> {
        for at in self.opened..self.mail.len() {
            let Some(number) = self.mail.get(at) else {
                return Ok(None);
            };
            let number = *number;
            self.opened = at + 1;
            if let Some(message) = wire.get(number as usize) {
                if self.may_do(&message.body) {
                    if let Body::Decision(instance, _) = &message.body {
                        self.decide(instance.number())?;
                    }
                    return Ok(Some(number));
                }
            }
        }
        Ok(None)
    }

    /// It is to tick, if it has something left.
    pub(crate) fn plan_tick(&mut self) {
        self.is_to_tick = self.has_left();
    }

    /// It is to go on by so many rounds.
    pub(crate) fn plan_advances(&mut self, count: u32) {
        self.advances = count;
    }

    /// What it does next, if there is something.
    pub(crate) fn next_event(
        &mut self,
        node: NodeId,
        stance: Stance,
        wire: &[Message],
    ) -> Result<Option<Event>, AllocError> {
        Ok(match stance {
            Stance::Down | Stance::Failed => Some(Event::at(node, NodeEvent::Restart)),
            Stance::Opening | Stance::Calling => Some(Event::at(node, NodeEvent::Device)),
            Stance::Flushed => Some(Event::at(node, NodeEvent::Mark)),
            Stance::Resting => match self.next_heard(wire)? {
                Some(message) => Some(Event::told(node, Input::Hear(message))),
                None => self.next_own(node),
            },
        })
    }

    /// What it does next of its own, where it has nothing to hear.
    fn next_own(&mut self, node: NodeId) -> Option<Event> {
        if self.suspects {
            Some(Event::told(node, Input::Suspect(NodeSet::empty())))
        } else if self.may_send {
            Some(Event::at(node, NodeEvent::Send))
        } else if self.may_take {
            Some(Event::at(node, NodeEvent::Take))
        } else if self.may_ack {
            Some(Event::at(node, NodeEvent::Acknowledge))
        } else if self.is_to_tick {
            self.is_to_tick = false;
            Some(Event::told(node, Input::Tick))
        } else if self.advances > 0 {
            self.advances -= 1;
            Some(Event::told(node, Input::Advance))
        } else {
            None
        }
    }
}
