//! Promises: where each instance stands by the facts of a node.

ghost use Rattle.std.specs.Prelude.{◌≡◌, ◌≤◌, ◌<◌, ◌↔◌, None, Some, IsSome, IfSome, MatchOption, length, List};
ghost use Rattle.rr_types.specs.Promises.{IsAscending};

use crate::command::Command;
use crate::fact::Estimate;
use crate::kept::Kept;
use crate::round::{Instance, Round};
use std::marker::Model;

/// Where an open instance stands: the round, the estimate with its stamp, which is at most the round, and
/// the command that this node proposed in the round, if it did.
#[derive(Clone, Copy, Debug)]
pub struct OpenStanding {
    round: u32,
    stamp: u32,
    estimate: Command,
    proposal: Option<Command>,
}

impl Model for OpenStanding {
    ghost use Rattle.std.specs.Prelude.{◌≤◌};
    ghost use Rattle.rr_types.specs.Rounds.{OpenAt};
    ghost use Rattle.rr_types.specs.Limits.{last_round};

    ghost Value = { OpenAt };

    ghost view = { λ s. record { round = s.round; stamp = s.stamp; estimate = s.estimate; proposal = s.proposal } };

    ghost invariant = { λ s. (1 ≤ s.round) × (s.round ≤ last_round) × (s.stamp ≤ s.round) };

    ghost inverse = { λ s. record { round = s.round; stamp = s.stamp; estimate = s.estimate; proposal = s.proposal } };
}

impl OpenStanding {
    /// The standing of these parts, where the stamp is at most the round.
    pub fn new(
        round: Round,
        stamp: u32,
        estimate: Command,
        proposal: Option<Command>,
    ) -> Option<OpenStanding>
        ensures valid { IsSome result ↔ (stamp ≤ round) }
        ensures value { IfSome result (λ s. s ≡ record { round = round; stamp = stamp; estimate = estimate; proposal = proposal }) }
    {
        let round = round.number();
        if stamp <= round {
            Some(OpenStanding {
                round,
                stamp,
                estimate,
                proposal,
            })
        } else {
            None
        }
    }

    /// The round that the node is in.
    pub fn round(&self) -> Round
        ensures value { result ≡ self.now.round }
        ensures stamp { self.now.stamp ≤ result }
    {
        Round::at(self.round)
    }

    /// The round in which the node adopted its estimate, or 0.
    pub fn stamp(&self) -> u32
        ensures value { result ≡ self.now.stamp }
        ensures range { result ≤ self.now.round }
    {
        self.stamp
    }

    /// The command that the node holds to be the one.
    pub fn estimate(&self) -> Command
        ensures { result ≡ self.now.estimate }
    {
        self.estimate
    }

    /// The same without a copy: a command is large.
    pub fn estimate_ref(&self) -> &Command
        ensures { result.now ≡ self.now.estimate }
    {
        &self.estimate
    }

    /// The command that this node proposed in the round.
    pub fn proposal(&self) -> Option<Command>
        ensures { result ≡ self.now.proposal }
    {
        self.proposal
    }

    /// The same without a copy.
    pub fn proposal_ref(&self) -> Option<&Command>
        ensures { MatchOption result (self.now.proposal ≡ None) (λ c. self.now.proposal ≡ Some c.now) }
    {
        match &self.proposal {
            Some(command) => Some(command),
            None => None,
        }
    }

    /// Where an instance stands that has just entered a round with this estimate.
    pub(crate) fn entered(estimate: &Estimate) -> OpenStanding
        ensures { result ≡ record { round = estimate.now.round; stamp = estimate.now.stamp; estimate = estimate.now.command; proposal = None } }
    {
        OpenStanding {
            round: estimate.round().number(),
            stamp: estimate.stamp(),
            estimate: estimate.command(),
            proposal: None,
        }
    }

    /// The node proposes a command in the round.
    pub(crate) fn propose(&mut self, command: &Command)
        ensures { self.new ≡ record self.old { proposal = Some command.now } }
    {
        self.proposal = Some(*command);
    }

    /// The node adopts an estimate in the round.
    pub(crate) fn adopt(&mut self, command: &Command)
        ensures { self.new ≡ record self.old { stamp = self.old.round; estimate = command.now } }
    {
        self.stamp = self.round;
        self.estimate = *command;
    }
}

/// Where an instance stands by a node's facts.
#[derive(Clone, Copy, Debug)]
pub enum Standing {
    /// It has decided on this command.
    Decided(Command),
    /// It is in a round.
    Open(OpenStanding),
}

/// An instance and where it stands.
#[derive(Clone, Copy, Debug)]
pub struct Entry {
    pub instance: Instance,
    pub standing: Standing,
}

/// What a node's facts promise: where each instance stands that they name, ascending.
#[derive(Debug, Drop)]
pub struct Promise {
    entries: Vec<Kept>,
}

impl Model for Promise {
    ghost use Rattle.std.specs.Prelude.{List};
    ghost use Rattle.rr_types.specs.declared.promise.Entry.{Entry};
    ghost use Rattle.rr_types.specs.Promises.{IsAscending};

    ghost Value = { List Entry };

    ghost view = { λ p. p.entries.items };

    ghost invariant = { λ p. IsAscending p.entries.items };
}

impl Promise {
    /// The promise of these entries, which ascend by their instances. It keeps the vector.
    pub fn new(entries: Vec<Kept>) -> Promise
        requires { IsAscending entries.items }
        ensures { result ≡ entries.items }
    {
        Promise { entries }
    }

    /// The entries, ascending by their instances.
    pub fn entries(&self) -> &[Kept]
        ensures value { result.now ≡ self.now }
        ensures ascending { IsAscending result.now }
    {
        let entries = &self.entries;
        entries
    }

    /// The entries as the vector that the promise was made of.
    pub fn into_entries(self) -> Vec<Kept>
        ensures value { result.items ≡ self }
        ensures ascending { IsAscending result.items }
    {
        let Promise { entries } = self;
        entries
    }
}
