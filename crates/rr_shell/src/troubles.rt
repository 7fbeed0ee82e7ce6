//! Lines that weren't answered as they asked.

ghost use Rattle.std.specs.Prelude.{◌≡◌};
ghost use Rattle.rr_shell.specs.Troubles.{reply_trouble, answer_trouble, outcome_trouble, sync_trouble, listing_trouble, strict_status};

use crate::listing::Listing;
use crate::outcome::Outcome;
use rr_text::Answer;
use rr_types::Reply;

/// Why a line wasn't answered as it asked.
#[derive(Clone, Copy, Debug, PartialEq, Eq)]
pub enum Trouble {
    /// Another client has the name that was claimed.
    Taken,
    /// Another client has the name that was to change.
    NotOwner,
    /// Nobody has the name that was to change.
    Unknown,
    /// No further name can be bound.
    Full,
    /// No receipt came in time: the command may count or not.
    Unacknowledged,
    /// A look or a list saw nothing.
    Unseen,
    /// The list is full without the command.
    ListFull,
    /// An error was answered.
    Error,
    /// A look saw that nobody has the name.
    Free,
}

impl Trouble {
    /// The status of a shell that ends for this, from 10 to 18.
    pub fn status(self) -> u8
        ensures { result ≡ strict_status self }
    {
        match self {
            Trouble::Taken => 10,
            Trouble::NotOwner => 11,
            Trouble::Unknown => 12,
            Trouble::Full => 13,
            Trouble::Unacknowledged => 14,
            Trouble::Unseen => 15,
            Trouble::ListFull => 16,
            Trouble::Error => 17,
            Trouble::Free => 18,
        }
    }
}

fn reply_trouble(reply: Reply) -> Option<Trouble>
    ensures { result ≡ reply_trouble reply }
{
    match reply {
        Reply::Claimed | Reply::Updated | Reply::Released | Reply::Transferred => None,
        Reply::Taken(_) => Some(Trouble::Taken),
        Reply::Unknown => Some(Trouble::Unknown),
        Reply::NotOwner => Some(Trouble::NotOwner),
        Reply::Full => Some(Trouble::Full),
    }
}

/// Why an answer isn't what its line asked for. None where it is.
pub fn answer_trouble(answer: &Answer) -> Option<Trouble>
    ensures { result ≡ answer_trouble answer.now }
{
    match answer {
        Answer::Acknowledged { reply, .. } => reply_trouble(*reply),
        Answer::Unacknowledged { .. } => Some(Trouble::Unacknowledged),
        Answer::Free { .. } => Some(Trouble::Free),
        Answer::Bound { .. } => None,
        Answer::Unseen { .. } => Some(Trouble::Unseen),
    }
}

/// Why what came of a submit isn't what its line asked for. None where it is.
pub fn outcome_trouble(outcome: &Outcome) -> Option<Trouble>
    ensures { result ≡ outcome_trouble outcome.now }
{
    match outcome {
        Outcome::Answered(answer) => answer_trouble(answer),
        Outcome::ListFull => Some(Trouble::ListFull),
        Outcome::Used(_) | Outcome::Nothing => Some(Trouble::Error),
        Outcome::Whole => None,
    }
}

/// Why what came of a sync isn't what its line asked for. None where its command is acknowledged, whatever the reply, or where
/// the node has published a full list.
pub fn sync_trouble(outcome: &Outcome) -> Option<Trouble>
    ensures { result ≡ sync_trouble outcome.now }
{
    match outcome {
        Outcome::Answered(Answer::Acknowledged { .. }) => None,
        _ => outcome_trouble(outcome),
    }
}

/// Why a list isn't what its line asked for. None where it is.
pub fn listing_trouble(listing: &Listing) -> Option<Trouble>
    ensures { result ≡ listing_trouble listing.now.names }
{
    match &listing.names {
        Some(_) => None,
        None => Some(Trouble::Unseen),
    }
}
