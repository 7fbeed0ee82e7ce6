//! What a node tells of itself.

ghost use Rattle.std.specs.Prelude.{◌≡◌};
ghost use Rattle.rr_shell.specs.Texts.{left_behind, is_nearly_full};

use rr_types::{INSTANCES, NodeId, NodeSummary};

/// Whether a node is up, and the node in brief; or why it is down.
#[derive(Debug, Drop)]
pub struct NodeStatus {
    pub node: NodeId,
    /// None: the node is down.
    pub summary: Option<NodeSummary>,
    /// Why a node that is down has failed, in words. None: it was stopped.
    pub failure: Option<Vec<u8>>,
}

/// Why a node doesn't do what is asked of it.
#[derive(Clone, Copy, Debug)]
pub enum NodeTrouble {
    /// It is down.
    Down,
    /// It is down or busy, and has written no snapshot.
    NoSnapshot,
    /// It was started, and has failed again.
    NoStart,
}

/// How many commands can still be decided, behind so many.
pub fn left_behind(decided: u64) -> u64
    ensures { result ≡ left_behind decided }
{
    u64::from(INSTANCES).saturating_sub(decided)
}

/// Whether at most a tenth of the commands that can be decided is left.
pub fn is_nearly_full(left: u64) -> bool
    ensures { result ≡ is_nearly_full left }
{
    left <= u64::from(INSTANCES) / 10
}
