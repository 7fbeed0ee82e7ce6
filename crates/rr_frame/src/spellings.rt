//! Messages as their bytes, one behind another.

ghost use Rattle.std.specs.Prelude.{◌≡◌, ◌<◌, [], ◌∷◌, ◌++◌, length, OnOk, OnErr, IsTrue, slice_get, slice_index, option_and_then};
ghost use Rattle.std.specs.Result.{result_ok};
ghost use Rattle.rr_frame.specs.MessageFormat.{message_bytes, message_in, IsLawfulMessage};
ghost use Rattle.rr_frame.specs.MessageLogs.{messages_in, are_spellings};

use crate::decoding::decode;
use crate::encoding::put_message;
use rr_types::{Body, Command, MAX_NODES, Message, Nodes, Op, made_of};
use std::alloc::{AllocError, Global};
use std::marker::Model;

/// The spellings of messages in the order in which they were put.
#[derive(Drop)]
pub(crate) struct Spellings {
    // The spellings, one behind another.
    bytes: Vec<u8>,
    // Where each of them ends.
    ends: Vec<usize>,
    // The one that is being written, apart: where memory runs out, what is kept has no part of it.
    spelling: Vec<u8>,
}

impl Model for Spellings {
    ghost use Rattle.std.specs.Prelude.{IsTrue, List};
    ghost use Rattle.rr_types.specs.declared.message.Message.{Message};
    ghost use Rattle.rr_frame.specs.MessageLogs.{messages_in, are_spellings};

    ghost Value = { List Message };

    ghost view = { λ l. messages_in l.bytes.items 0 l.ends.items };

    ghost invariant = { λ l. IsTrue (are_spellings l.bytes.items 0 l.ends.items) };
}

// Writes the spelling of a message, and drops what was there.
fn spell(out: &mut Vec<u8>, message: &Message) -> Result<(), AllocError>
    ensures ok { OnOk result (out.new.items ≡ message_bytes message.now) }
    ensures lawful { OnOk result (IsLawfulMessage 7 message.now) }
{
    out.clear();
    put_message(out, message)
}

// Where the spelling of this number begins: where the one before it ends.
fn start_of(ends: &[usize], number: usize) -> usize
    requires { number < length ends.now }
    ensures { result ≡ slice_index (0 ∷ ends.now) number }
{
    match number {
        0 => 0,
        _ => ends[number - 1],
    }
}

// The spelling of this number.
fn spelling_of<'a>(bytes: &'a [u8], ends: &[usize], number: usize) -> Option<&'a [u8]>
    requires { IsTrue (are_spellings bytes.now 0 ends.now) }
    ensures { slice_get (messages_in bytes.now 0 ends.now) number ≡ option_and_then (λ spelling. result_ok (message_in 7 spelling.now)) result }
{
    let end = *ends.get(number)?;
    Some(&bytes[start_of(ends, number)..end])
}

impl Spellings {
    /// No spellings.
    #[tactic(auto, unfolding(crate::specs::MessageLogs::messages_in, crate::specs::MessageLogs::are_spellings))]
    pub fn new(alloc: Global) -> Spellings
        ensures { result ≡ [] }
    {
        Spellings {
            bytes: Vec::new(alloc),
            ends: Vec::new(alloc),
            spelling: Vec::new(alloc),
        }
    }

    /// Puts a message behind the others. After an error they are as before.
    #[tactic(auto, using(crate::proofs::LogLaws::put_keeps, crate::proofs::LogLaws::put_lists))]
    pub fn push(&mut self, message: &Message) -> Result<(), AllocError>
        ensures ok { OnOk result (self.new ≡ self.old ++ message.now ∷ []) }
        ensures unchanged { OnErr result (self.new ≡ self.old) }
    {
        spell(&mut self.spelling, message)?;
        self.ends.reserve(1)?;
        self.bytes.extend_from_slice(&self.spelling)?;
        self.ends.push_reserved(self.bytes.len());
        Ok(())
    }

    /// How many messages there are.
    #[tactic(auto, using(crate::proofs::LogLaws::log_length))]
    pub fn len(&self) -> usize
        ensures { result ≡ length self.now }
    {
        self.ends.len()
    }

    /// The message of this number, from 0, or `None` where there are no more. It needs no memory.
    #[tactic(auto, using(crate::proofs::LogLaws::ok_answer))]
    pub fn get(&self, number: usize) -> Option<Message>
        ensures { result ≡ slice_get self.now number }
    {
        made_of!(Body, Command, Message, Op);
        let spelling = spelling_of(&self.bytes, &self.ends, number)?;
        let Ok(nodes) = Nodes::new(MAX_NODES) else {
            unreachable!()
        };
        decode(nodes, spelling).ok()
    }
}
