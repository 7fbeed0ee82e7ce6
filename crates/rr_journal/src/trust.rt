//! Two doors for a host that has no disk to show, such as one that follows the tape of a node that ran elsewhere. They
//! are shut for every disk that tells its bytes.

ghost use Rattle.std.specs.Prelude.{◌≡◌};

use crate::opened::Opened;
use crate::synced::Synced;
use rr_disk::Disk;
use rr_types::{Group, NodeId, Nodes, Promise};

impl Opened {
    /// The end of an opening that is known only by the caller's word, over a disk that tells no bytes.
    pub fn on_trust<D: Disk>(
        disk: &D,
        nodes: Nodes,
        node: NodeId,
        promise: Promise,
        next: u64,
    ) -> Opened
        requires { D.tells disk.now → ⊥ }
        ensures { result ≡ record { nodes = nodes; node = node; promise = promise; next = next } }
    {
        let _disk = disk;
        Opened {
            nodes,
            node,
            promise,
            next,
        }
    }
}

impl Synced {
    /// A group that a flush made safe by the caller's word alone, over a disk that tells no bytes.
    pub fn on_trust<D: Disk>(disk: &D, node: NodeId, group: Group) -> Synced
        requires { D.tells disk.now → ⊥ }
        ensures { result ≡ record { node = node; group = group } }
    {
        let _disk = disk;
        Synced::new(node, group)
    }
}
