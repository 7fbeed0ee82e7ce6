//! The answers to a round, in the row of its instance.

ghost use Rattle.std.specs.Prelude.{◌≡◌, OnOk};
ghost use Rattle.rr_model.specs.NodeStep.{count_estimate, count_ack, count_nack};
ghost use Rattle.rr_core.specs.Steps.{stepped};

use crate::step::Step;
use rr_types::{Estimate, Instance, NodeId};
use std::alloc::{AllocError, Global};

impl<'a> Step<'a> {
    /// The coordinator keeps an estimate.
    #[tactic(auto, using(crate::proofs::OverLemmas::still_stands), unfolding(rr_model::specs::NodeStep::count_estimate))]
    pub fn count_estimate(
        &mut self,
        alloc: Global,
        instance: Instance,
        sender: NodeId,
        estimate: &Estimate,
    ) -> Result<(), AllocError>
        ensures ok { OnOk result (self.new ≡ stepped (count_estimate instance sender estimate.now) self.old) }
    {
        let Some(row) = self.row(instance) else {
            return Ok(());
        };
        let row = row.with_estimate(alloc, sender, estimate)?;
        self.put_tally(row)
    }

    /// The coordinator keeps an acknowledgement.
    #[tactic(auto, using(crate::proofs::OverLemmas::still_stands), unfolding(rr_model::specs::NodeStep::count_ack))]
    pub fn count_ack(
        &mut self,
        alloc: Global,
        instance: Instance,
        sender: NodeId,
    ) -> Result<(), AllocError>
        ensures ok { OnOk result (self.new ≡ stepped (count_ack instance sender) self.old) }
    {
        let Some(row) = self.row(instance) else {
            return Ok(());
        };
        let row = row.with_ack(alloc, sender)?;
        self.put_tally(row)
    }

    /// The coordinator keeps a refusal.
    #[tactic(auto, using(crate::proofs::OverLemmas::still_stands), unfolding(rr_model::specs::NodeStep::count_nack))]
    pub fn count_nack(
        &mut self,
        alloc: Global,
        instance: Instance,
        sender: NodeId,
    ) -> Result<(), AllocError>
        ensures ok { OnOk result (self.new ≡ stepped (count_nack instance sender) self.old) }
    {
        let Some(row) = self.row(instance) else {
            return Ok(());
        };
        let row = row.with_nack(alloc, sender)?;
        self.put_tally(row)
    }
}
