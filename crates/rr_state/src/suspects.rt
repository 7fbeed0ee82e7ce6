//! The output of the reduction: one set, changed at each receipt.

ghost use Rattle.std.specs.Prelude.{◌≡◌};
ghost use Rattle.rr_model.specs.NodeDetector.{reduced};

use rr_types::{NodeId, NodeSet};
use std::marker::Model;

/// The nodes that are suspected.
#[derive(Clone, Copy, Debug)]
pub struct Suspects {
    output: NodeSet,
}

impl Model for Suspects {
    ghost use Rattle.std.specs.Prelude.{ℕ};

    ghost Value = { ℕ };

    ghost view = { λ s. s.output };

    ghost inverse = { λ n. record { output = n } };
}

impl Suspects {
    /// These are suspected.
    pub fn new(set: NodeSet) -> Suspects
        ensures { result ≡ set }
    {
        Suspects { output: set }
    }

    /// A node has told whom it suspects.
    pub fn receive(&mut self, node: NodeId, set: NodeSet)
        ensures { self.new ≡ reduced self.old node set }
    {
        self.output = self.output.joined(set).without(node);
    }

    /// Who is suspected.
    pub fn output(&self) -> NodeSet
        ensures { result ≡ self.now }
    {
        self.output
    }
}
