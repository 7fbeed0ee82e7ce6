//! Nodes at a run's begin: those that are opened, and those that are left out.

ghost use Rattle.std.specs.Prelude.{◌≡◌, [], None, IfSome};
ghost use Rattle.rr_threads.specs.Beginnings.{node_of, decided_of};
ghost use Rattle.rr_model.specs.NodeState.{decided_prefix};

use crate::node_run::Part;
use crate::wires::Mail;
use rr_core::Core;
use rr_disk::Disk;
use rr_types::NodeId;

/// A node that is left out at a run's begin. Its disk isn't opened: it is down, as one that was stopped before.
#[derive(Drop)]
pub struct LeftOut<D> {
    pub node: NodeId,
    pub disk: D,
    pub mail: Mail,
}

/// A node at a run's begin.
#[derive(Drop)]
pub enum Begun<D: Disk> {
    Up(Part<D>),
    LeftOut(LeftOut<D>),
}

impl<D: Disk> Begun<D> {
    /// Which node it is.
    pub fn node(&self) -> NodeId
        ensures { result ≡ node_of self.now }
    {
        match self {
            Begun::Up(part) => part.node,
            Begun::LeftOut(left) => left.node,
        }
    }

    /// What it has decided, if it is up. Of a node that is left out nobody knows it.
    pub fn core(&self) -> Option<&Core>
        ensures up { IfSome result (λ core. decided_of self.now ≡ decided_prefix core.now) }
        ensures none { result ≡ None → decided_of self.now ≡ [] }
    {
        match self {
            Begun::Up(part) => Some(&part.core),
            Begun::LeftOut(_) => None,
        }
    }
}
