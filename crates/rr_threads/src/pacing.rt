//! In which rounds the nodes of a run are. Of nodes that get no further, those behind hurry, and those ahead wait for them.
//!
//! No contract knows what the table holds: a node notes there what its messages name, and others read it.

ghost use Rattle.std.specs.Prelude.{◌≡◌, ◌≤◌, length};
ghost use Rattle.rr_threads.specs.Paces.{is_before, is_beside, is_any_before, is_any_behind, is_one_beside, count_beside, pace_of, paced};

use rr_turn::Standstill;
use rr_types::{Body, Message, NodeId};
use std::alloc::Global;
use std::sync::atomic::{AtomicU64, Ordering};

/// The round of an instance that a node's messages named last.
#[derive(Clone, Copy, Debug)]
pub struct InRound {
    pub instance: u32,
    pub round: u32,
}

/// How a node stands to others in an instance, where it gets no further.
#[derive(Clone, Copy, Debug, PartialEq, Eq)]
pub enum Pace {
    /// Another is in a later round.
    Behind,
    /// Another is in an earlier round, and those in the node's own round are no majority.
    Ahead,
    /// Neither.
    Along,
}

// Whether the first is in an earlier round of the same instance.
fn is_before(one: InRound, other: InRound) -> bool
    ensures { result ≡ is_before one other }
{
    one.instance == other.instance && one.round < other.round
}

// Whether both are in one round of an instance.
fn is_beside(one: InRound, other: InRound) -> bool
    ensures { result ≡ is_beside one other }
{
    one.instance == other.instance && one.round == other.round
}

// Whether one of these is in a later round than a node.
fn is_any_before(own: InRound, others: &[Option<InRound>]) -> bool
    ensures { result ≡ is_any_before own others.now }
{
    others.iter().any(|other| match other {
        Some(other) => is_before(own, *other),
        None => false,
    })
}

// Whether one of these is in an earlier round than a node.
fn is_any_behind(own: InRound, others: &[Option<InRound>]) -> bool
    ensures { result ≡ is_any_behind own others.now }
{
    others.iter().any(|other| match other {
        Some(other) => is_before(*other, own),
        None => false,
    })
}

// Whether another is in the round of a node.
fn is_one_beside(own: InRound, other: Option<InRound>) -> bool
    ensures { result ≡ is_one_beside own other }
{
    match other {
        Some(other) => is_beside(own, other),
        None => false,
    }
}

// How many of these are in the round of a node.
fn count_beside(own: InRound, others: &[Option<InRound>]) -> u64
    ensures value { result ≡ count_beside own others.now }
    ensures few { result ≤ length others.now }
{
    match others {
        [] => 0,
        [other, rest @ ..] => {
            let count = count_beside(own, rest);
            if is_one_beside(own, *other) {
                count + 1
            } else {
                count
            }
        }
    }
}

/// How a node stands to the others that are up, of so many that are a majority.
pub fn pace_of(own: InRound, others: &[Option<InRound>], majority: u8) -> Pace
    ensures { result ≡ pace_of own others.now majority }
{
    if is_any_before(own, others) {
        return Pace::Behind;
    }
    let others_wanted = u64::from(majority).saturating_sub(1);
    if count_beside(own, others) < others_wanted && is_any_behind(own, others) {
        Pace::Ahead
    } else {
        Pace::Along
    }
}

/// A node that gets no further goes by its pace.
pub fn keep_pace(standstill: &mut Standstill, pace: Pace)
    ensures { standstill.new ≡ paced pace standstill.old }
{
    match pace {
        Pace::Behind => standstill.hurry(),
        Pace::Ahead => standstill.hold(),
        Pace::Along => (),
    }
}

// The round that a message names which its sender is in.
fn round_of(message: &Message) -> Option<InRound> {
    match &message.body {
        Body::Estimate(instance, estimate) => Some(InRound {
            instance: instance.number(),
            round: estimate.round().number(),
        }),
        Body::Ack(instance, round) => Some(InRound {
            instance: instance.number(),
            round: round.number(),
        }),
        _ => None,
    }
}

/// What each node's messages named last.
#[derive(Drop)]
pub struct Rounds {
    words: Vec<AtomicU64>,
}

impl Rounds {
    /// No message was sent yet. It is `OutOfMemory`.
    pub fn new(alloc: Global) -> Result<Rounds, std::alloc::AllocError> {
        let mut words = Vec::new(alloc);
        for _ in 0..7u8 {
            words.push(AtomicU64::new(0))?;
        }
        Ok(Rounds { words })
    }

    /// A message leaves its node.
    pub fn note(&self, message: &Message) {
        if let Some(InRound { instance, round }) = round_of(message) {
            if let Some(word) = self.words.get(usize::from(message.from.index())) {
                word.store(
                    u64::from(instance) << 32 | u64::from(round),
                    Ordering::Relaxed,
                );
            }
        }
    }

    /// The round that a node's messages named last; none where it sent none.
    pub fn of(&self, node: NodeId) -> Option<InRound> {
        let word = self
            .words
            .get(usize::from(node.index()))?
            .load(Ordering::Relaxed);
        if word == 0 {
            return None;
        }
        Some(InRound {
            instance: (word >> 32) as u32,
            round: (word & 0xffff_ffff) as u32,
        })
    }
}
