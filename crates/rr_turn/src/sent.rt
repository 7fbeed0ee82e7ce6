//! Messages on their way.

ghost use Rattle.std.specs.Prelude.{◌≡◌, None, Some, MatchOption};
ghost use Rattle.rr_model.specs.NodeStep.{next_leaving, message_left};
ghost use Rattle.rr_types.specs.declared.input.Input.TheVariants as told;

use crate::locked::Locked;
use rr_core::Cleared;
use rr_types::{Input, Message};
use std::marker::Model;

/// A message on its way, and its number on the tape; 0 where nothing is recorded. Only what leaves a node becomes one: by
/// `send_on`, which records it in the same section, or by `send`, where nothing is recorded.
#[derive(Clone, Copy, Debug)]
pub struct Sent {
    number: u32,
    cleared: Cleared,
}

impl Model for Sent {
    ghost use Rattle.rr_turn.specs.Recorded.{Sent};

    ghost Value = { Sent };

    ghost view = { λ s. record { number = s.number; message = s.cleared } };

    ghost inverse = { λ s. record { number = s.number; cleared = s.message } };
}

impl Sent {
    pub(crate) fn new(number: u32, cleared: Cleared) -> Sent
        ensures { result ≡ record { number = number; message = cleared } }
    {
        Sent { number, cleared }
    }

    /// Its number on the tape.
    pub fn number(&self) -> u32
        ensures { result ≡ self.now.number }
    {
        self.number
    }

    /// The message.
    pub fn message(&self) -> &Message
        ensures { result.now ≡ self.now.message }
    {
        self.cleared.as_message()
    }

    /// What a node is told that hears it.
    pub fn input(&self) -> Input<Message>
        ensures { result ≡ told.Hear self.now.message }
    {
        Input::Hear(self.cleared.message())
    }
}

/// The oldest message of a node that may leave is sent, where nothing is recorded. `None`: none may leave.
pub fn send(locked: &mut Locked) -> Option<Sent>
    ensures { MatchOption result
        ((next_leaving locked.old ≡ None) × (locked.new ≡ locked.old))
        (λ sent. (next_leaving locked.old ≡ Some sent.message) × (locked.new ≡ message_left locked.old) × (sent.number ≡ 0)) }
{
    let Some(cleared) = locked.next_message() else {
        return None;
    };
    Some(Sent::new(0, cleared))
}
