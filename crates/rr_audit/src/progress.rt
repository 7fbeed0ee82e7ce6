//! An audit under way, event by event.

ghost use Rattle.std.specs.Prelude.{◌≡◌, ◌+◌, ◌∷◌, ◌++◌, [], ℕ, List, length, OnOk, IfOk, IfErr};
ghost use Rattle.rr_text.specs.declared.tape_event.TapeEvent.{TapeEvent};
ghost use Rattle.rr_audit.specs.Audits.{IsVerdict};
ghost use Rattle.rr_audit.specs.Following.{IsUnderWay};

use crate::auditing::Verdict;
use crate::given::Given;
use crate::replay::Replay;
use rr_text::TapeEvent;
use rr_types::{NodeId, Nodes, Refusal};
use std::alloc::{AllocError, Global};

/// The nodes behind the events so far, up to the first that isn't next.
#[derive(Drop)]
pub struct Progress {
    replay: Replay,
    /// The first event that isn't next, by its number from 1: its node, and what is given instead.
    stopped: Option<(u64, NodeId, Given)>,
}

impl Progress {
    /// The progress before the first event of `nodes` nodes.
    pub fn new(alloc: Global, nodes: Nodes) -> Result<Progress, AllocError>
        ensures ok { IfOk result (λ progress. IsUnderWay nodes [] progress) }
    {
        Ok(Progress {
            replay: Replay::new(alloc, nodes)?,
            stopped: None,
        })
    }

    /// Follows the event of this number. What stands behind one that isn't next is passed over.
    pub fn follow(&mut self, number: u64, event: &TapeEvent) -> Result<(), Refusal>
        ensures ok { OnOk result ((n : ℕ) (events : List TapeEvent) → number ≡ length events + 1 → IsUnderWay n events self.old → IsUnderWay n (events ++ event.now ∷ []) self.new) }
        ensures err { IfErr result (λ e. e ≡ Refusal.OutOfMemory) }
    {
        if self.stopped.is_some() {
            return Ok(());
        }
        if let Some(given) = self.replay.step(event)? {
            self.stopped = Some((number, event.node, given));
        }
        Ok(())
    }

    /// The verdict on all events, of which there are `count`.
    pub fn verdict(self, count: u64) -> Verdict
        ensures { (n : ℕ) (events : List TapeEvent) → count ≡ length events → IsUnderWay n events self → IsVerdict n events result }
    {
        let Progress { replay: _, stopped } = self;
        match stopped {
            None => Verdict::Yes(count),
            Some((number, node, given)) => Verdict::No(number, node, given),
        }
    }
}
