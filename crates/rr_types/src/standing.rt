//! Where an instance stands by the facts about it.

ghost use Rattle.std.specs.Prelude.{◌≡◌, ◌≤◌, ◌<◌, Some, None, is_some};
ghost use Rattle.rr_types.specs.Facts.{after_fact, decision_of};
ghost use Rattle.rr_types.specs.Standings.{round_of, stamp_of, proposal_of, is_undecided, carries_on, fits, IsInRound};
ghost use Rattle.rr_types.specs.Limits.{last_round};

use crate::command::Command;
use crate::fact::{Estimate, Fact};
use crate::node::{NodeId, Nodes, coordinator};
use crate::promise::{OpenStanding, Standing};

impl Standing {
    /// The present round; 0 where the instance has decided.
    pub fn round(&self) -> u32
        ensures value { result ≡ round_of (Some self.now) }
        ensures range { result ≤ last_round }
    {
        match self {
            Standing::Decided(_) => 0,
            Standing::Open(open) => open.round().number(),
        }
    }

    /// The round in which the estimate was adopted; 0 where it never was, or the instance has decided.
    pub fn stamp(&self) -> u32
        ensures { result ≡ stamp_of (Some self.now) }
    {
        match self {
            Standing::Decided(_) => 0,
            Standing::Open(open) => open.stamp(),
        }
    }

    /// The command that the node proposed in the present round.
    pub fn proposal(&self) -> Option<Command>
        ensures { result ≡ proposal_of (Some self.now) }
    {
        match self {
            Standing::Decided(_) => None,
            Standing::Open(open) => open.proposal(),
        }
    }

    /// The command that the instance has decided.
    pub fn decision(&self) -> Option<Command>
        ensures { result ≡ decision_of (Some self.now) }
    {
        match self {
            Standing::Decided(command) => Some(*command),
            Standing::Open(_) => None,
        }
    }

    /// Whether the node has proposed a command in the present round.
    pub fn has_proposal(&self) -> bool
        ensures { result ≡ is_some (proposal_of (Some self.now)) }
    {
        match self {
            Standing::Decided(_) => false,
            Standing::Open(open) => open.proposal_ref().is_some(),
        }
    }

    /// Takes on a fact about the instance.
    pub fn take_on(&mut self, fact: &Fact)
        requires { IsInRound (Some self.old) fact.now }
        ensures { Some self.new ≡ after_fact (Some self.old) fact.now }
    {
        match fact {
            Fact::Enter(_, estimate) => *self = Standing::Open(OpenStanding::entered(estimate)),
            Fact::Propose(_, _, command) => {
                if let Standing::Open(open) = self {
                    open.propose(command);
                }
            }
            Fact::Adopt(_, _, command) => {
                if let Standing::Open(open) = self {
                    open.adopt(command);
                }
            }
            Fact::Decide(_, command) => *self = Standing::Decided(*command),
        }
    }

    /// Where an instance stands after the first fact about it; `None` where that names no standing.
    pub fn first(fact: &Fact) -> Option<Standing>
        ensures { result ≡ after_fact None fact.now }
    {
        match fact {
            Fact::Enter(_, estimate) => Some(Standing::Open(OpenStanding::entered(estimate))),
            Fact::Propose(..) | Fact::Adopt(..) => None,
            Fact::Decide(_, command) => Some(Standing::Decided(*command)),
        }
    }

    /// Where an instance stands after a fact about it, if it stood so before; `None` where no fact has named it.
    pub fn after(before: &Option<Standing>, fact: &Fact) -> Option<Standing>
        requires { IsInRound before.now fact.now }
        ensures { result ≡ after_fact before.now fact.now }
    {
        match before {
            None => Standing::first(fact),
            Some(before) => {
                let mut standing = *before;
                standing.take_on(fact);
                Some(standing)
            }
        }
    }
}

fn is_undecided(standing: &Option<Standing>) -> bool
    ensures { result ≡ is_undecided standing.now }
{
    !matches!(standing, Some(Standing::Decided(_)))
}

fn round_of(standing: &Option<Standing>) -> u32
    ensures { result ≡ round_of standing.now }
{
    match standing {
        Some(standing) => standing.round(),
        None => 0,
    }
}

fn stamp_of(standing: &Option<Standing>) -> u32
    ensures { result ≡ stamp_of standing.now }
{
    match standing {
        Some(standing) => standing.stamp(),
        None => 0,
    }
}

fn has_proposal(standing: &Option<Standing>) -> bool
    ensures { result ≡ is_some (proposal_of standing.now) }
{
    match standing {
        Some(standing) => standing.has_proposal(),
        None => false,
    }
}

/// Whether an estimate continues this standing: it repeats estimate and stamp or, where there is no standing, was never
/// adopted.
fn carries_on(standing: &Option<Standing>, estimate: &Estimate) -> bool
    ensures { result ≡ carries_on standing.now estimate.now }
{
    match standing {
        None => estimate.stamp() == 0,
        Some(Standing::Decided(_)) => false,
        Some(Standing::Open(open)) => {
            estimate.stamp() == open.stamp() && estimate.command_ref().is_same(open.estimate_ref())
        }
    }
}

impl Fact {
    /// Whether this fact of a node fits where its instance stood before it. A promise is made of facts that fit.
    pub fn fits(&self, nodes: Nodes, node: NodeId, before: &Option<Standing>) -> bool
        ensures { result ≡ fits nodes node before.now self.now }
    {
        let is_undecided = is_undecided(before);
        match self {
            Fact::Enter(_, estimate) => {
                is_undecided
                    && round_of(before) < estimate.round().number()
                    && carries_on(before, estimate)
            }
            Fact::Propose(_, round, _) => {
                is_undecided
                    && round_of(before) == round.number()
                    && coordinator(*round, nodes).index() == node.index()
                    && !has_proposal(before)
            }
            Fact::Adopt(_, round, _) => {
                is_undecided
                    && round_of(before) == round.number()
                    && stamp_of(before) < round.number()
            }
            Fact::Decide(_, _) => is_undecided,
        }
    }
}
