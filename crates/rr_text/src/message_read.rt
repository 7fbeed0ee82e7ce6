//! Reading the words of commands, of estimates and of replies.

ghost use Rattle.std.specs.Prelude.{◌≡◌, None, Some, MatchOption};
ghost use Rattle.rr_text.specs.TapeReading.{instance_at, round_at, request_at, command_at, estimate_at, reply_at};

use crate::text_read::{cut, number, op, small_number};
use rr_types::{Command, Estimate, Instance, Op, Reply, ReplyKind, RequestNo, Round, made_of};

/// The instance that a word is the number of.
pub fn instance(word: &[u8]) -> Option<Instance>
    ensures { result ≡ instance_at word.now }
{
    Instance::new(small_number(word)?)
}

/// The round that a word is the number of.
pub fn round(word: &[u8]) -> Option<Round>
    ensures { result ≡ round_at word.now }
{
    Round::new(small_number(word)?)
}

/// The request number that a word is.
pub fn request(word: &[u8]) -> Option<RequestNo>
    ensures { result ≡ request_at word.now }
{
    let (client, seq) = cut(word, b'.')?;
    let client = small_number(client)?;
    let seq = number(seq)?;
    Some(RequestNo { client, seq })
}

/// The command that a text is.
pub fn command(text: &[u8]) -> Option<Command>
    ensures { result ≡ command_at text.now }
{
    let (word, rest) = cut(text, b' ')?;
    let request = request(word)?;
    let Some(op) = op(rest) else {
        return None;
    };
    Some(Command { request, op })
}

/// The estimate that a text is.
pub fn estimate(text: &[u8]) -> Option<Estimate>
    ensures { result ≡ estimate_at text.now }
{
    made_of!(Command, Op);
    let (word, rest) = cut(text, b' ')?;
    let round = round(word)?;
    let (word, rest) = cut(rest, b' ')?;
    let stamp = small_number(word)?;
    let Some(command) = command(rest) else {
        return None;
    };
    Estimate::new(round, stamp, command)
}

/// The reply that a text is.
pub fn reply(text: &[u8]) -> Option<Reply>
    ensures { result ≡ reply_at text.now }
{
    match cut(text, b' ') {
        Some((word, rest)) => {
            let kind = ReplyKind::of_word(word)?;
            let owner = small_number(rest)?;
            Reply::of(kind, Some(owner))
        }
        None => {
            let kind = ReplyKind::of_word(text)?;
            Reply::of(kind, None)
        }
    }
}
