//! What a node within a step knows of its instances.

ghost use Rattle.std.specs.Prelude.{◌≡◌, ◌≤◌, Some, MatchOption};
ghost use Rattle.rr_types.specs.Standings.{round_of, stamp_of, is_undecided};
ghost use Rattle.rr_types.specs.Facts.{decision_of};
ghost use Rattle.rr_types.specs.Limits.{last_round};
ghost use Rattle.rr_model.specs.NodeState.{standing_at};
ghost use Rattle.rr_model.specs.NodeStep.{has_proposed};
ghost use Rattle.rr_types.specs.declared.promise.Standing.TheVariants as stands;
ghost use Rattle.rr_core.specs.Places.{HasNoRound};

use crate::step::Step;
use rr_types::{Command, Instance, OpenStanding, Round};

impl<'a> Step<'a> {
    /// Where an instance stands in its round, if it has one.
    #[tactic(auto, using(crate::proofs::StandLemmas::open_there, crate::proofs::StandLemmas::decided_there, crate::proofs::StandLemmas::nothing_there))]
    pub fn open(&self, instance: Instance) -> Option<&OpenStanding>
        ensures { MatchOption result (HasNoRound (standing_at self.now.state instance)) (λ o. standing_at self.now.state instance ≡ Some (stands.Open o.now)) }
    {
        match self.row(instance) {
            Some(row) => match row.open() {
                Some((at, _)) => Some(at),
                None => None,
            },
            None => None,
        }
    }

    /// The round of an instance; 0 where it has none.
    pub fn round(&self, instance: Instance) -> u32
        ensures value { result ≡ round_of (standing_at self.now.state instance) }
        ensures range { result ≤ last_round }
    {
        match self.row(instance) {
            Some(row) => row.round(),
            None => 0,
        }
    }

    /// The stamp of an instance's estimate; 0 where it has none.
    pub fn stamp(&self, instance: Instance) -> u32
        ensures { result ≡ stamp_of (standing_at self.now.state instance) }
    {
        match self.open(instance) {
            Some(at) => at.stamp(),
            None => 0,
        }
    }

    /// The command that an instance has decided.
    pub fn decision(&self, instance: Instance) -> Option<Command>
        ensures { result ≡ decision_of (standing_at self.now.state instance) }
    {
        match self.row(instance) {
            Some(row) => match row.decided_command() {
                Some(command) => Some(*command),
                None => None,
            },
            None => None,
        }
    }

    /// Whether an instance has not decided.
    pub fn is_undecided(&self, instance: Instance) -> bool
        ensures { result ≡ is_undecided (standing_at self.now.state instance) }
    {
        match self.row(instance) {
            Some(row) => !row.is_decided(),
            None => true,
        }
    }

    /// Whether the node has made a proposal in this round of an instance, which is the present one.
    #[tactic(auto, using(crate::proofs::StandLemmas::not_proposed))]
    pub fn has_proposed(&self, instance: Instance, round: Round) -> bool
        ensures { result ≡ has_proposed instance round self.now.state }
    {
        match self.open(instance) {
            Some(at) => at.round().number() == round.number() && at.proposal_ref().is_some(),
            None => false,
        }
    }
}
