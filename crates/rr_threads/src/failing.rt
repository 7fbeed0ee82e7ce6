//! What a node's failure ends: the node alone where a host can start it again, and else the run.

ghost use Rattle.std.specs.Prelude.{◌≡◌, None, is_some, IsTrue};

use crate::running::{Broken, Running};
use crate::switches::{Switches, Tripped};
use rr_types::{NodeId, Refusal};
use std::sync::Wait;

/// What a node's failure has ended. Only what ends it gives what is in it.
#[derive(Debug, Drop)]
pub enum Outage {
    /// This node, which is down as one that was stopped. The others go on.
    Node(Tripped),
    /// The run.
    Run(Broken),
}

/// By which a node or its run ends where the node fails.
#[derive(Clone, Copy)]
pub struct Breaker<'x> {
    pub running: &'x Running,
    pub switches: Option<&'x Switches>,
}

impl Breaker<'_> {
    /// A node fails. It goes down alone, if there are switches by which it can be started again; else the run ends.
    pub fn fail<R: Wait>(&self, rt: &R, node: NodeId, refusal: Refusal) -> Outage
        ensures alone { IsTrue (is_some self.now.switches) → (t : Tripped) × (t.node ≡ node) × (result ≡ Outage.Node t) }
        ensures all { self.now.switches ≡ None → (b : Broken) × (result ≡ Outage.Run b) }
    {
        match self.switches {
            Some(switches) => {
                let tripped = switches.fail(rt, node, refusal);
                self.running.ring(node);
                Outage::Node(tripped)
            }
            None => Outage::Run(self.running.fail(rt, node, refusal)),
        }
    }
}
