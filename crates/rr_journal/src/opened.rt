//! What an opening ends with.

ghost use Rattle.std.specs.Prelude.{◌≡◌};

use rr_types::{NodeId, Nodes, Promise};

/// The end of an opening: its node, of how many nodes, the promise of the facts that the disk held, and the
/// number of the next one. It comes from the last step of an opening, or from `Opened::on_trust` where the disk tells
/// no bytes.
#[derive(Debug, Drop)]
pub struct Opened {
    pub(crate) nodes: Nodes,
    pub(crate) node: NodeId,
    pub(crate) promise: Promise,
    pub(crate) next: u64,
}

impl Opened {
    /// How many nodes there are.
    pub fn nodes(&self) -> Nodes
        ensures { result ≡ self.now.nodes }
    {
        self.nodes
    }

    /// Whose opening it was.
    pub fn node(&self) -> NodeId
        ensures { result ≡ self.now.node }
    {
        self.node
    }

    /// The promise of the facts that the disk held.
    pub fn promise(&self) -> &Promise
        ensures { result.now ≡ self.now.promise }
    {
        &self.promise
    }

    /// The promise of the facts that the disk held.
    pub fn into_promise(self) -> Promise
        ensures { result ≡ self.promise }
    {
        let Opened {
            nodes: _,
            node: _,
            promise,
            next: _,
        } = self;
        promise
    }

    /// The number of the node's next fact: how many facts the disk held.
    pub fn next(&self) -> u64
        ensures { result ≡ self.now.next }
    {
        self.next
    }
}
