//! How a node that is far behind gets what was decided.

ghost use Rattle.std.specs.Prelude.{◌≡◌, None, IsTrue};
ghost use Rattle.rr_host.specs.Chases.{is_plain, is_held, is_answer, is_far, is_next, is_gaining, released, chase_released, again, chase_again, chase_ticked, with_held, heard_of, heard_of_opening, heard_of_decision, chase_of, chase_of_opening, chase_of_decision, chase_sent};

use crate::placed::{Placed, is_above, is_of};
use rr_types::{Body, Command, Estimate, Instance, Message, Op, made_of};
use std::marker::Model;
use std::mem;

/// How far above what is decided here an instance lies by which a node chases: two windows of open instances.
const FAR: u64 = 16;

/// As many instances are open at once.
const WINDOW: u64 = 8;

/// How many ticks a decision waits for its key. What was late is put at each tick of its sender, and who doesn't tick for so
/// long is suspected.
const PATIENCE: u32 = 5;

/// What a node hears where a message comes.
#[derive(Debug, Drop)]
pub enum Hearing {
    /// The message.
    Alone,
    /// Nothing: the message is held back.
    Nothing,
    /// This, which was held back, and then the message.
    After(Message),
    /// The message, and then this once more, or what was held back.
    Before(Message),
}

/// What a node that is far behind chases by. It asks for its first undecided instance whenever it hears of one that isn't
/// open. A tick asks for one, and ticks are seldom. So a message of an instance far ahead is its key, which it hears
/// again behind each answer: then it asks for the next. The decision of the key's instance would put an end to that. It
/// is held back until the node has nearly caught up.
///
/// The decision may come first, by another node than the key. So one far ahead and above the key waits for its key, but
/// not without end: a node that hears nothing else wouldn't know that it is behind.
#[derive(Debug, Drop)]
pub struct Chase {
    key: Option<Placed>,
    held: Option<Placed>,
    left: u32,
    asked: u32,
    answered: u32,
    seen: u64,
}

impl Model for Chase {
    ghost use Rattle.rr_host.specs.Chases.{Chase};

    ghost Value = { Chase };

    ghost view = { λ c. record { key = c.key; held = c.held; left = c.left; asked = c.asked; answered = c.answered; seen = c.seen } };
}

impl Chase {
    /// Nothing is heard yet, and nothing is asked for.
    pub fn new() -> Chase
        ensures { result ≡ record { key = None; held = None; left = 0; asked = 0; answered = 0; seen = 0 } }
    {
        Chase {
            key: None,
            held: None,
            left: 0,
            asked: 0,
            answered: 0,
            seen: 0,
        }
    }

    /// Whether a message that comes where so many commands are decided is heard alone, and the chase stays as it is. Mostly it is so.
    pub fn is_plain(&self, decided: u64, message: &Message) -> bool
        ensures value { result ≡ is_plain decided message.now.body self.now }
        ensures heard { IsTrue result → heard_of decided message.now.body self.now ≡ Hearing.Alone }
        ensures stays { IsTrue result → chase_of decided message.now.body message.now self.now ≡ self.now }
    {
        made_of!(Body, Command, Estimate, Message, Op);
        match &message.body {
            Body::Estimate(instance, _) => !self.is_next(decided, instance.number()),
            Body::Proposal(instance, _, _) => !self.is_next(decided, instance.number()),
            Body::Decision(instance, _) => {
                let instance = instance.number();
                !self.is_held(decided, instance) && !self.is_answer(instance)
            }
            _ => true,
        }
    }

    // Whether the decision of this instance is held back.
    fn is_held(&self, decided: u64, instance: u32) -> bool
        ensures { result ≡ is_held decided instance self.now }
    {
        is_of(instance, self.key) || self.is_next(decided, instance)
    }

    // Whether the decision of this instance is the first answer to the last ask.
    fn is_answer(&self, instance: u32) -> bool
        ensures { result ≡ is_answer instance self.now }
    {
        instance == self.asked && self.answered <= instance
    }

    /// A message comes where so many commands are decided. Answers what the node hears.
    pub fn meet(&mut self, decided: u64, message: &Message) -> Hearing
        ensures heard { result ≡ heard_of decided message.now.body self.old }
        ensures after { self.new ≡ chase_of decided message.now.body message.now self.old }
    {
        made_of!(Body, Command, Estimate, Message, Op);
        match &message.body {
            Body::Estimate(instance, _) => self.meet_opening(decided, *instance, message),
            Body::Proposal(instance, _, _) => self.meet_opening(decided, *instance, message),
            Body::Decision(instance, _) => self.meet_decision(decided, *instance, message),
            _ => Hearing::Alone,
        }
    }

    // An estimate or a proposal of this instance comes.
    fn meet_opening(&mut self, decided: u64, instance: Instance, message: &Message) -> Hearing
        ensures heard { result ≡ heard_of_opening decided instance self.old }
        ensures after { self.new ≡ chase_of_opening decided instance message.now self.old }
    {
        let instance = instance.number();
        if !self.is_next(decided, instance) {
            return Hearing::Alone;
        }
        self.key = Some(Placed {
            instance,
            message: *message,
        });
        match self.held {
            Some(held) if held.instance < instance => {
                self.held = None;
                Hearing::After(held.message)
            }
            _ => Hearing::Alone,
        }
    }

    // The decision of this instance comes.
    fn meet_decision(&mut self, decided: u64, instance: Instance, message: &Message) -> Hearing
        ensures heard { result ≡ heard_of_decision decided instance self.old }
        ensures after { self.new ≡ chase_of_decision decided instance message.now self.old }
    {
        let instance = instance.number();
        if self.is_held(decided, instance) {
            self.hold(instance, message);
            return Hearing::Nothing;
        }
        if !self.is_answer(instance) {
            return Hearing::Alone;
        }
        self.answered = instance + 1;
        match self.next(u64::from(instance)) {
            None => Hearing::Alone,
            Some(next) => Hearing::Before(next),
        }
    }

    // The decision of this instance is held back, unless a higher one is.
    fn hold(&mut self, instance: u32, message: &Message)
        ensures { self.new ≡ with_held instance message.now self.old }
    {
        if is_above(instance, self.held) {
            self.held = Some(Placed {
                instance,
                message: *message,
            });
            self.left = PATIENCE;
        }
    }

    /// What the node hears again at a tick where so many commands are decided: its key while that lies beyond the open
    /// instances, since an answer may be lost. Then, once, what was held back; if it lies far ahead still, at the fifth
    /// tick since it came.
    pub fn again(&mut self, decided: u64) -> Option<Message>
        ensures again { result ≡ again decided (chase_ticked self.old) }
        ensures after { self.new ≡ chase_again decided (chase_ticked self.old) }
    {
        self.left = self.left.saturating_sub(1);
        self.next(decided)
    }

    // The same between two ticks.
    fn next(&mut self, decided: u64) -> Option<Message>
        ensures again { result ≡ again decided self.old }
        ensures after { self.new ≡ chase_again decided self.old }
    {
        match self.key {
            Some(key) if u64::from(key.instance) > decided.saturating_add(WINDOW) => Some(
                key.message,
            ),
            _ => {
                self.key = None;
                self.release(decided)
            }
        }
    }

    // What was held back, unless it waits.
    fn release(&mut self, decided: u64) -> Option<Message>
        ensures released { result ≡ released decided self.old }
        ensures after { self.new ≡ chase_released decided self.old }
    {
        let held = self.held?;
        if self.left > 0 && self.is_far(decided, held.instance) {
            return None;
        }
        self.held = None;
        Some(held.message)
    }

    /// A look at how many commands are decided: whether the node chases and has more than at the last look. Then it is
    /// well, but not yet of use to others.
    pub fn is_gaining(&mut self, decided: u64) -> bool
        ensures gaining { result ≡ is_gaining decided self.old }
        ensures after { self.new ≡ record self.old { seen = decided } }
    {
        let seen = mem::replace(&mut self.seen, decided);
        self.key.is_some() && seen < decided
    }

    /// The node has sent a message.
    pub fn note(&mut self, message: &Message)
        ensures { self.new ≡ chase_sent message.now.body self.old }
    {
        made_of!(Body, Command, Estimate, Message, Op);
        if let Body::Ask(instance) = &message.body {
            self.asked = instance.number();
        }
    }

    // Whether this instance lies far above what is decided and asked for here.
    fn is_far(&self, decided: u64, instance: u32) -> bool
        ensures { result ≡ is_far decided instance self.now }
    {
        decided.max(u64::from(self.asked)).saturating_add(FAR) <= u64::from(instance)
    }

    // Whether this instance lies far ahead, and above the key.
    fn is_next(&self, decided: u64, instance: u32) -> bool
        ensures { result ≡ is_next decided instance self.now }
    {
        self.is_far(decided, instance) && is_above(instance, self.key)
    }
}
