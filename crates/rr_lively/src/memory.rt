//! What the drawing remembers of a node.

ghost use Rattle.std.specs.Prelude.{◌≡◌};

use rr_types::{
    Body, Instance, Message, NodeId, NodeSet, Nodes, Refusal, RequestNo, Round, majority,
};
use std::alloc::{AllocError, Global};
use std::collections::{BTreeMap, BTreeSet};

/// What the drawing remembers of a node.
#[derive(Drop)]
pub(crate) struct Memory {
    /// The messages for it but Decisions that it hasn't heard and that aren't lost.
    unheard: Vec<u32>,
    /// By instance, the Decisions for it of what it hasn't decided: those to be heard, and those that it has heard
    /// since it came up.
    decisions: BTreeMap<u32, u32>,
    heard: BTreeMap<u32, u32>,
    /// The instances that its marked facts decide.
    decided: BTreeSet<u32>,
    /// How many of them there are from 0 on without a gap.
    prefix: u32,
    /// Of instances, the round that its own messages named last.
    rounds: BTreeMap<u32, u32>,
    /// Whose Estimates and Acks it has heard since it is up, by instance and round.
    estimates: BTreeMap<(u32, u32), NodeSet>,
    acks: BTreeMap<(u32, u32), NodeSet>,
    /// The new requests that it was asked for since it is up and that nobody has decided.
    asked: BTreeSet<RequestNo>,
    /// Whether it may have facts to flush, a message to send, a request to acknowledge.
    pub(crate) may_take: bool,
    pub(crate) may_send: bool,
    pub(crate) may_ack: bool,
    /// Whether it was told last to suspect a node.
    pub(crate) suspects: bool,
}

impl Memory {
    /// Nothing.
    pub(crate) fn new(alloc: Global) -> Memory {
        Memory {
            unheard: Vec::new(alloc),
            decisions: BTreeMap::new(alloc),
            heard: BTreeMap::new(alloc),
            decided: BTreeSet::new(alloc),
            prefix: 0,
            rounds: BTreeMap::new(alloc),
            estimates: BTreeMap::new(alloc),
            acks: BTreeMap::new(alloc),
            asked: BTreeSet::new(alloc),
            may_take: false,
            may_send: false,
            may_ack: false,
            suspects: false,
        }
    }

    /// Whether there is a message for it to hear.
    pub(crate) fn may_hear(&self) -> bool {
        !self.unheard.is_empty() || !self.decisions.is_empty()
    }

    /// An input came, after which it may have something to flush or to send.
    pub(crate) fn stir(&mut self) {
        self.may_take = true;
        self.may_send = true;
    }

    /// It isn't up: what it had heard and not kept, it may hear again, and what it was asked for may be lost.
    pub(crate) fn stop(&mut self) -> Result<(), AllocError> {
        self.may_take = false;
        self.may_send = true;
        self.may_ack = false;
        self.suspects = false;
        self.estimates.clear();
        self.acks.clear();
        self.asked.clear();
        self.decisions.append(&mut self.heard)?;
        Ok(())
    }

    /// A message for it was sent, with this number.
    pub(crate) fn expect(&mut self, number: u32, body: &Body) -> Result<(), AllocError> {
        match body {
            Body::Decision(instance, _) => {
                let instance = instance.number();
                if !self.decided.contains(&instance) && !self.heard.contains_key(&instance) {
                    self.decisions.insert(instance, number)?;
                }
            }
            _ => self.unheard.push(number)?,
        }
        Ok(())
    }

    /// It has sent a message, which may tell its round of an instance.
    pub(crate) fn tell(&mut self, body: &Body) -> Result<(), AllocError> {
        match body {
            Body::Estimate(instance, estimate) => {
                self.rounds
                    .insert(instance.number(), estimate.round().number())?;
            }
            Body::Ack(instance, round) => {
                self.rounds.insert(instance.number(), round.number())?;
            }
            _ => (),
        }
        Ok(())
    }

    /// Messages that would do nothing are forgotten, up to one that would do something.
    pub(crate) fn forget_idle(&mut self, nodes: Nodes, wire: &[Message], pick: u32) {
        for _message in 0..self.unheard.len() {
            let count = self.unheard.len();
            if count == 0 {
                return;
            }
            let at = pick as usize % count;
            let is_idle = match wire.get(self.unheard[at] as usize) {
                Some(message) => self.has_enough(nodes, &message.body),
                None => true,
            };
            if !is_idle {
                return;
            }
            self.unheard.swap_remove(at);
        }
    }

    /// Whether it does nothing when it hears this: the instance is decided, or a majority has said the same.
    fn has_enough(&self, nodes: Nodes, body: &Body) -> bool {
        match body {
            Body::Estimate(instance, estimate) => {
                !self.decided.contains(&instance.number())
                    && are_many(nodes, &self.estimates, *instance, estimate.round())
            }
            Body::Ack(instance, round) => {
                self.decided.contains(&instance.number())
                    || are_many(nodes, &self.acks, *instance, *round)
            }
            Body::Proposal(instance, _, _) | Body::Nack(instance, _) => {
                self.decided.contains(&instance.number())
            }
            _ => false,
        }
    }

    /// The message that it hears next: the Decision of the lowest instance, or else one of the others, which is kept to
    /// be heard again where a sixteenth of the words says so.
    pub(crate) fn next_heard(&mut self, detail: u32) -> Result<Option<u32>, AllocError> {
        if let Some((instance, number)) = self.decisions.pop_first() {
            self.heard.insert(instance, number)?;
            return Ok(Some(number));
        }
        let count = self.unheard.len();
        if count == 0 {
            return Ok(None);
        }
        let at = (detail / 16) as usize % count;
        if detail % 16 == 0 {
            return Ok(Some(self.unheard[at]));
        }
        Ok(Some(self.unheard.swap_remove(at)))
    }

    /// It hears a message.
    pub(crate) fn hear(&mut self, message: &Message) -> Result<(), AllocError> {
        match &message.body {
            Body::Estimate(instance, estimate) => {
                self.may_send = true;
                note(
                    &mut self.estimates,
                    *instance,
                    estimate.round(),
                    message.from,
                )
            }
            Body::Ack(instance, round) => note(&mut self.acks, *instance, *round, message.from),
            Body::Ask(_) => {
                self.may_send = true;
                Ok(())
            }
            _ => Ok(()),
        }
    }

    /// One of the messages that it hasn't heard is lost.
    pub(crate) fn lose(&mut self, detail: u32) {
        let count = self.unheard.len();
        if count > 0 {
            self.unheard.swap_remove(detail as usize % count);
        }
    }

    /// Its marked facts decide an instance.
    pub(crate) fn decide(&mut self, instance: u32) -> Result<(), AllocError> {
        self.may_ack = true;
        let _ = self.decisions.remove(&instance);
        let _ = self.heard.remove(&instance);
        let _ = self.rounds.remove(&instance);
        self.decided.insert(instance)?;
        for _instance in 0..self.decided.len() {
            if !self.decided.contains(&self.prefix) {
                break;
            }
            self.prefix = self.prefix.saturating_add(1);
        }
        Ok(())
    }

    /// Whether others have decided its first undecided instance, and it has heard no Decision of it.
    pub(crate) fn lags(&self, prefix: u64) -> bool {
        u64::from(self.prefix) < prefix && !self.heard.contains_key(&self.prefix)
    }

    /// Its round of an instance, where its messages have told one.
    pub(crate) fn round_of(&self, instance: u32) -> Option<u32> {
        match self.rounds.get(&instance) {
            Some(round) => Some(*round),
            None => None,
        }
    }

    /// It enters the round behind this one of an instance.
    pub(crate) fn advance(&mut self, instance: u32, round: u32) -> Result<(), AllocError> {
        self.rounds.insert(instance, round.saturating_add(1))?;
        self.stir();
        Ok(())
    }

    /// A client asks it for a new command.
    pub(crate) fn ask(&mut self, request: RequestNo) -> Result<(), AllocError> {
        self.asked.insert(request)?;
        Ok(())
    }

    /// How many new requests it was asked for that nobody has decided.
    pub(crate) fn asked(&self) -> usize {
        self.asked.len()
    }

    /// A request is decided.
    pub(crate) fn settle(&mut self, request: RequestNo) {
        let _ = self.asked.remove(&request);
    }

    /// All requests that it was asked for are taken for lost.
    pub(crate) fn lose_requests(&mut self) {
        self.asked.clear();
    }
}

/// Whether a majority of nodes has said the same of an instance and a round.
fn are_many(
    nodes: Nodes,
    said: &BTreeMap<(u32, u32), NodeSet>,
    instance: Instance,
    round: Round,
) -> bool {
    match said.get(&(instance.number(), round.number())) {
        Some(senders) => senders.bits().count_ones() >= u32::from(majority(nodes)),
        None => false,
    }
}

/// A node has said something of an instance and a round.
fn note(
    said: &mut BTreeMap<(u32, u32), NodeSet>,
    instance: Instance,
    round: Round,
    sender: NodeId,
) -> Result<(), AllocError> {
    let place = (instance.number(), round.number());
    let senders = match said.get(&place) {
        Some(senders) => *senders,
        None => NodeSet::empty(),
    };
    said.insert(place, senders.with(sender))?;
    Ok(())
}
