//! What a flush ends with.

ghost use Rattle.std.specs.Prelude.{◌≡◌, ◌+◌, ◌<◌, ◌^◌, length};

use rr_types::{Group, NodeId};
use std::marker::Model;

/// A group of a node that a flush has made safe. It comes from the last step of a job, or from `Synced::on_trust` where
/// the disk tells no bytes. It can be dropped, as when its node has crashed before it was told; then it never marks.
#[derive(Debug, Drop)]
pub struct Synced {
    node: NodeId,
    group: Group,
}

impl Model for Synced {
    ghost use Rattle.rr_journal.specs.Flushes.{Kept};

    ghost Value = { Kept };

    ghost view = { λ s. record { node = s.node; group = s.group } };
}

impl Synced {
    // For the last step of a job.
    pub(crate) fn new(node: NodeId, group: Group) -> Synced
        ensures { result ≡ record { node = node; group = group } }
    {
        Synced { node, group }
    }

    /// Whose group it is.
    pub fn node(&self) -> NodeId
        ensures { result ≡ self.now.node }
    {
        self.node
    }

    /// The number of the group's first fact.
    pub fn first(&self) -> u64
        ensures { result ≡ self.now.group.serial }
    {
        self.group.serial()
    }

    /// The group.
    pub fn group(&self) -> &Group
        ensures { result.now ≡ self.now.group }
    {
        &self.group
    }

    /// Gives the group up, which then isn't known as safe any more.
    pub fn into_group(self) -> Group
        ensures { result ≡ self.group }
    {
        let Synced { node: _, group } = self;
        group
    }
}
