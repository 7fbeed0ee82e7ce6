//! How a cluster is run.

ghost use Rattle.std.specs.Prelude.{◌≡◌};

use rr_types::NodeSet;

/// How a cluster is run. Times are milliseconds.
#[derive(Clone, Copy, Debug)]
pub struct Options {
    /// How long after a tick of a node the next is due, from 10 to 10,000.
    pub tick: u64,
    /// How long a call waits for its reply before it gives up.
    pub patience: u64,
    /// Which nodes stay down, until somebody starts them. Before that their folders are neither read nor written, as they may be gone or
    /// broken. More than half of the nodes have to be there.
    pub without: NodeSet,
}

impl Options {
    /// A tick of 50 milliseconds, calls that wait five seconds, and all nodes.
    pub fn usual() -> Options
        ensures { result ≡ record { tick = 50; patience = 5000; without = 0 } }
    {
        Options {
            tick: 50,
            patience: 5_000,
            without: NodeSet::empty(),
        }
    }
}
