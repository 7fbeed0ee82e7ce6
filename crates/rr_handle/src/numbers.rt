//! The numbers of answers.

ghost use Rattle.std.specs.Prelude.{◌≡◌, ◌≢◌, MatchResult, OnErr};
ghost use Rattle.rr_types.specs.Refusal.{number_of};
ghost use Rattle.rr_handle.specs.Numbers.{reply_number};

use rr_types::{Refusal, ReplyKind};

/// 0, or the number of a refusal.
#[tactic(auto, using(crate::proofs::NumberLemmas::has_number))]
pub fn code(said: Result<(), Refusal>) -> u32
    ensures number { MatchResult said (λ _. result ≡ 0) (λ e. result ≡ number_of e) }
    ensures tells { OnErr said (result ≢ 0) }
{
    match said {
        Ok(()) => 0,
        Err(refusal) => u32::from(refusal.number()),
    }
}

/// The number of what a reply says, from 1.
pub fn reply_number(kind: ReplyKind) -> u32
    ensures { result ≡ reply_number kind }
{
    match kind {
        ReplyKind::Claimed => 1,
        ReplyKind::Updated => 2,
        ReplyKind::Released => 3,
        ReplyKind::Transferred => 4,
        ReplyKind::Taken => 5,
        ReplyKind::Unknown => 6,
        ReplyKind::NotOwner => 7,
        ReplyKind::Full => 8,
    }
}
