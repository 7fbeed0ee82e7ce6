//! How a handle comes to a node, and a node out of it.

ghost use Rattle.std.specs.Prelude.{◌≡◌, Some, None, IsSome, is_some, IfOk, IfErr, OnOk};
ghost use Rattle.rr_handle.specs.Seen.{node_in};

use crate::handle::RrNode;
use crate::held::Held;
use rr_host::Host;
use rr_types::Refusal;

impl RrNode {
    /// The handle of a node.
    pub fn of(host: Box<Host>) -> RrNode
        ensures { node_in result ≡ Some host.value }
    {
        RrNode {
            is_open: true,
            held: Held::of(host),
        }
    }

    /// The node of a handle; else the handle, which is closed.
    pub(crate) fn into_host(self) -> Result<Box<Host>, RrNode>
        ensures open { IfOk result (λ host. node_in self ≡ Some host.value) }
        ensures closed { IfErr result (λ node. (node ≡ self) × (node_in self ≡ None)) }
    {
        if !self.is_open {
            return Err(self);
        }
        let RrNode { is_open: _, held } = self;
        Ok(held.into_box())
    }

    /// Whether there is a node.
    pub fn is_open(&self) -> bool
        ensures { result ≡ is_some (node_in self.now) }
    {
        self.is_open
    }

    /// A node is put in.
    ///
    /// # Errors
    /// `Busy` where there is one, which stays.
    pub fn open(&mut self, host: Box<Host>) -> Result<(), Refusal>
        ensures ok { OnOk result ((node_in self.old ≡ None) × (node_in self.new ≡ Some host.value)) }
        ensures err { IfErr result (λ e. (e ≡ Refusal.Busy) × IsSome (node_in self.old) × (self.new ≡ self.old)) }
    {
        if self.is_open {
            return Err(Refusal::Busy);
        }
        *self = RrNode::of(host);
        Ok(())
    }

    /// The node is given up: what isn't synced is lost, as in a crash.
    pub fn close(self) {
        if let Ok(host) = self.into_host() {
            drop(host);
        }
    }
}
