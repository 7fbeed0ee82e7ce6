//! What a coordinator keeps of the answers to its round.

ghost use Rattle.std.specs.Prelude.{◌≡◌, ◌<◌, ◌≤◌, None, Some, length, filter, MatchOption, IfOk, OnOk, OnErr};
ghost use Rattle.std.specs.List.{insert, range_with_len};
ghost use Rattle.rr_types.specs.Nodes.{has_member, with_member, joined};
ghost use Rattle.rr_model.specs.NodeState.{no_votes};
ghost use Rattle.rr_model.specs.NodeStep.{with_vote};
ghost use Rattle.rr_model.specs.NodeDue.{better, best_vote, pick};
ghost use Rattle.rr_state.specs.Majorities.{has_majority};

use rr_types::{Command, Estimate, NodeId, NodeSet, Nodes, Op, made_of, majority};
use std::alloc::{AllocError, Global};
use std::marker::Model;

/// An estimate that the coordinator of a round has heard.
#[derive(Clone, Copy, Debug)]
pub struct Vote {
    pub sender: NodeId,
    pub stamp: u32,
    pub command: Command,
}

impl Model for Vote {
    ghost use Rattle.rr_model.specs.NodeState as model;

    ghost Value = { model.Vote };

    ghost view = { λ v. record { sender = v.sender; stamp = v.stamp; command = v.command } };

    ghost inverse = { λ v. record { sender = v.sender; stamp = v.stamp; command = v.command } };
}

/// What a coordinator has heard in the present round of an instance.
#[derive(Debug, Drop)]
pub struct Tally {
    pub estimates: Vec<Vote>,
    pub acks: NodeSet,
    pub nacks: NodeSet,
}

impl Model for Tally {
    ghost use Rattle.rr_model.specs.NodeState as model;

    ghost Value = { model.Tally };

    ghost view = { λ t. record { estimates = t.estimates.items; acks = t.acks; nacks = t.nacks } };
}

/// Where a vote belongs in the order of senders; `None` where its sender has one already.
#[tactic(auto, using(crate::proofs::TallyLemmas::vote_there, crate::proofs::TallyLemmas::vote_before, crate::proofs::TallyLemmas::vote_behind, crate::proofs::TallyLemmas::vote_last))]
fn vote_place(votes: &[Vote], vote: Vote) -> Option<usize>
    ensures { MatchOption result (with_vote vote votes.now ≡ votes.now) (λ k. (k ≤ length votes.now) × (with_vote vote votes.now ≡ insert votes.now k vote)) }
{
    let sender = vote.sender.index();
    for (at, other) in votes.iter().enumerate() {
        let other = other.sender.index();
        if sender == other {
            return None;
        }
        if sender < other {
            return Some(at);
        }
    }
    Some(votes.len())
}

/// Keeps a vote, in the order of senders; of each sender the first is kept.
fn put_vote(votes: &mut Vec<Vote>, vote: Vote) -> Result<(), AllocError>
    ensures ok { OnOk result (votes.new.items ≡ with_vote vote votes.old.items) }
    ensures kept { OnErr result (votes.new.items ≡ votes.old.items) }
{
    if let Some(at) = vote_place(votes, vote) {
        votes.insert(at, vote)?;
    }
    Ok(())
}

/// The better of two votes: the larger stamp, and of equal stamps the one that stands first.
fn better<'a>(vote: &'a Vote, other: Option<&'a Vote>) -> &'a Vote
    ensures { MatchOption other.entry (result.now ≡ better vote.now None) (λ o. result.now ≡ better vote.now (Some o.now)) }
{
    match other {
        Some(other) if vote.stamp < other.stamp => other,
        _ => vote,
    }
}

/// The vote of largest stamp, of those the first.
#[tactic(auto, using(crate::proofs::TallyLemmas::best_more))]
fn best_vote(votes: &[Vote]) -> Option<&Vote>
    ensures { MatchOption result (best_vote votes.now ≡ None) (λ v. best_vote votes.now ≡ Some v.now) }
{
    let mut best = None;
    let mut left = votes.len();
    while left > 0 {
        left -= 1;
        best = Some(better(&votes[left], best));
    }
    best
}

impl Tally {
    /// Nothing heard yet.
    pub fn new(alloc: Global) -> Tally
        ensures { result ≡ no_votes }
    {
        Tally {
            estimates: Vec::new(alloc),
            acks: NodeSet::empty(),
            nacks: NodeSet::empty(),
        }
    }

    /// A copy. One that has estimates has room for one more: it is made to keep what was heard.
    pub fn try_clone(&self, alloc: Global) -> Result<Tally, AllocError>
        ensures ok { IfOk result (λ t. t ≡ self.now) }
    {
        made_of!(Command, Op);
        let mut estimates = Vec::new(alloc);
        if !self.estimates.is_empty() {
            estimates.try_reserve(self.estimates.len() + 1)?;
            estimates.extend_from_slice(&self.estimates)?;
        }
        Ok(Tally {
            estimates,
            acks: self.acks,
            nacks: self.nacks,
        })
    }

    /// Keeps an estimate; the first of a sender is kept.
    pub fn keep_estimate(&mut self, sender: NodeId, estimate: &Estimate) -> Result<(), AllocError>
        ensures ok { OnOk result (self.new ≡ record self.old { estimates = with_vote (record { sender = sender; stamp = estimate.now.stamp; command = estimate.now.command }) self.old.estimates }) }
        ensures kept { OnErr result (self.new ≡ self.old) }
    {
        let vote = Vote {
            sender,
            stamp: estimate.stamp(),
            command: estimate.command(),
        };
        put_vote(&mut self.estimates, vote)
    }

    /// Keeps an acknowledgement. It needs no memory.
    pub fn keep_ack(&mut self, sender: NodeId)
        ensures { self.new ≡ record self.old { acks = with_member self.old.acks sender } }
    {
        self.acks = self.acks.with(sender);
    }

    /// Keeps a refusal. It needs no memory.
    pub fn keep_nack(&mut self, sender: NodeId)
        ensures { self.new ≡ record self.old { nacks = with_member self.old.nacks sender } }
    {
        self.nacks = self.nacks.with(sender);
    }

    /// Where estimates of a majority are kept, the command of largest stamp, of those the lowest node's, lent.
    pub fn pick(&self, nodes: Nodes) -> Option<&Command>
        ensures { MatchOption result (pick nodes self.now ≡ None) (λ v. pick nodes self.now ≡ Some v.now) }
    {
        if usize::from(majority(nodes)) <= self.estimates.len() {
            match best_vote(&self.estimates) {
                Some(vote) => Some(&vote.command),
                None => None,
            }
        } else {
            None
        }
    }

    /// Whether a majority has acknowledged.
    pub fn is_acknowledged(&self, nodes: Nodes) -> bool
        ensures { result ≡ has_majority nodes self.now.acks }
    {
        is_majority(nodes, self.acks)
    }

    /// Whether a majority has answered, by acknowledgements and refusals together.
    pub fn is_answered(&self, nodes: Nodes) -> bool
        ensures { result ≡ has_majority nodes (joined self.now.acks self.now.nacks) }
    {
        is_majority(nodes, self.acks.joined(self.nacks))
    }
}

/// How many of the nodes a set has.
#[tactic(auto, using(crate::proofs::TallyLemmas::count_more))]
fn count_members(nodes: Nodes, set: NodeSet) -> u8
    ensures { result ≡ length (filter (λ q. has_member set q) (range_with_len 0 nodes)) }
{
    let mut count = 0;
    for index in 0..nodes.count() {
        if has(set, index) {
            count += 1;
        }
    }
    count
}

fn has(set: NodeSet, index: u8) -> bool
    requires { index < 7 }
    ensures { result ≡ has_member set index }
{
    match NodeId::at(index) {
        Some(node) => set.contains(node),
        None => unreachable!(),
    }
}

/// Whether a set has a majority of the nodes.
#[tactic(auto, using(crate::proofs::TallyLemmas::empty_lacks))]
fn is_majority(nodes: Nodes, set: NodeSet) -> bool
    ensures { result ≡ has_majority nodes set }
{
    if set.bits() == 0 {
        return false;
    }
    majority(nodes) <= count_members(nodes, set)
}
