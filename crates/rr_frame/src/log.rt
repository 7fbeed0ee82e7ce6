//! Messages kept as their bytes, and the newest of them as values too.

ghost use Rattle.std.specs.Prelude.{◌≡◌, List, [], ◌∷◌, ◌++◌, length, OnOk, OnErr, slice_get};
ghost use Rattle.rr_types.specs.declared.message.Message.{Message};
ghost use Rattle.rr_frame.specs.MessageLogs.{IsEndOf};

use crate::spellings::Spellings;
use rr_types::{Body, Command, Message, Op, made_of};
use std::alloc::{AllocError, Global};
use std::marker::Model;

/// How many of the newest messages are kept as values at most.
const NEWEST: usize = 256;

/// Messages in the order in which they were put, kept as their bytes. Most are asked for soon after, so the newest are kept as
/// values too, and needn't be read.
#[derive(Drop)]
pub struct MessageLog {
    all: Spellings,
    newest: Vec<Message>,
}

impl Model for MessageLog {
    ghost use Rattle.std.specs.Prelude.{List};
    ghost use Rattle.rr_types.specs.declared.message.Message.{Message};
    ghost use Rattle.rr_frame.specs.MessageLogs.{IsEndOf};

    ghost Value = { List Message };

    ghost view = { λ l. l.all };

    ghost invariant = { λ l. IsEndOf l.newest.items l.all };
}

// Where as many are kept as may be, none is kept from now on.
fn make_room(newest: &mut Vec<Message>)
    ensures { (all : List Message) → IsEndOf newest.old.items all → IsEndOf newest.new.items all }
{
    if newest.len() >= NEWEST {
        newest.clear();
    }
}

impl MessageLog {
    /// A log without messages.
    pub fn new(alloc: Global) -> MessageLog
        ensures { result ≡ [] }
    {
        MessageLog {
            all: Spellings::new(alloc),
            newest: Vec::new(alloc),
        }
    }

    /// Puts a message behind the others. After an error the log is as before.
    pub fn push(&mut self, message: &Message) -> Result<(), AllocError>
        ensures ok { OnOk result (self.new ≡ self.old ++ message.now ∷ []) }
        ensures unchanged { OnErr result (self.new ≡ self.old) }
    {
        made_of!(Body, Command, Op);
        make_room(&mut self.newest);
        self.newest.reserve(1)?;
        self.all.push(message)?;
        self.newest.push_reserved(*message);
        Ok(())
    }

    /// How many messages there are.
    pub fn len(&self) -> usize
        ensures { result ≡ length self.now }
    {
        self.all.len()
    }

    /// The message of this number, from 0, or `None` where there are no more. It needs no memory.
    pub fn get(&self, number: usize) -> Option<Message>
        ensures { result ≡ slice_get self.now number }
    {
        made_of!(Body, Command, Message, Op);
        let older = self.all.len() - self.newest.len();
        if number < older {
            return self.all.get(number);
        }
        match self.newest.get(number - older) {
            Some(message) => Some(*message),
            None => None,
        }
    }
}
