//! Clusters, and whose a folder is.

ghost use Rattle.std.specs.Prelude.{◌≡◌, ◌+◌, ◌*◌, ◌^◌, ◌<◌, IfSome};
ghost use Rattle.rr_folders.specs.Clusters.{same_identity, same_digest, reaches, is_behind, times_in};

use rr_types::{NodeId, NodeSet, Nodes};

/// How often a node can be replaced.
const MOST_TIMES: u64 = 255;

/// Which cluster it is: two numbers that were drawn once, so that two clusters hardly ever have the same.
#[derive(Clone, Copy, Debug)]
pub struct Identity {
    /// The first number, of any 64 bits.
    pub first: u64,
    /// The second number, of any 64 bits.
    pub second: u64,
}

impl Identity {
    /// Whether it is the same identity.
    pub fn is(self, other: Identity) -> bool
        ensures { result ≡ same_identity self other }
    {
        self.first == other.first && self.second == other.second
    }
}

/// What the file of a cluster says.
#[derive(Clone, Copy, Debug)]
pub struct Cluster {
    /// Which cluster it is.
    pub identity: Identity,
    /// How many nodes it has.
    pub nodes: Nodes,
    /// The nodes whose disks have been formatted, so that they may have promised something. The others are being formatted.
    pub formatted: NodeSet,
    /// How often nodes were replaced: the sum of 256^P for each time that a node P was. It is 0 where none was.
    pub replaced: u64,
}

/// How often a node was replaced, by such a sum.
pub fn times_in(replaced: u64, node: NodeId) -> u64
    ensures { result ≡ times_in replaced node }
{
    (replaced >> (8 * node.index())) % 256
}

/// The sum once a node was replaced once more. None: it was 255 times, and can't be again.
pub fn once_more(replaced: u64, node: NodeId) -> Option<u64>
    ensures { IfSome result (λ r. (times_in replaced node < 255) × (r ≡ replaced + 2 ^ (8 * node))) }
{
    if times_in(replaced, node) >= MOST_TIMES {
        return None;
    }
    replaced.checked_add(1 << (8 * node.index()))
}

/// A digest of bytes, by SHA-256: four times 64 bits.
#[derive(Clone, Copy, Debug)]
pub struct Digest {
    /// The first 64 bits.
    pub first: u64,
    /// The second.
    pub second: u64,
    /// The third.
    pub third: u64,
    /// The last.
    pub fourth: u64,
}

impl Digest {
    /// Whether it is the same digest.
    pub fn is(self, other: Digest) -> bool
        ensures { result ≡ same_digest self other }
    {
        self.first == other.first
            && self.second == other.second
            && self.third == other.third
            && self.fourth == other.fourth
    }
}

/// How far an area came: its epoch, and the digest of so many of its first bytes.
#[derive(Clone, Copy, Debug)]
pub struct Reached {
    /// The epoch of its snapshot.
    pub epoch: u64,
    /// How many bytes.
    pub length: u64,
    /// Their digest.
    pub digest: Digest,
}

impl Reached {
    /// Whether it is as far as this.
    pub fn is(self, other: Reached) -> bool
        ensures { result ≡ reaches self other }
    {
        self.epoch == other.epoch && self.length == other.length && self.digest.is(other.digest)
    }

    /// Whether it isn't as far as this: it has a lower epoch, or the same one and fewer bytes.
    pub fn is_behind(self, other: Reached) -> bool
        ensures { result ≡ is_behind self other }
    {
        self.epoch < other.epoch || (self.epoch == other.epoch && self.length < other.length)
    }
}

/// How far a node's active area came at least: to one of these two. They differ while the node switches to its other area.
#[derive(Clone, Copy, Debug)]
pub struct Course {
    /// Before the switch.
    pub from: Reached,
    /// Behind it.
    pub to: Reached,
}

/// What the file in a node's folder says: whose folder it is, how far its disk came, and how often the node had been replaced before.
#[derive(Clone, Copy, Debug)]
pub struct Mark {
    /// The cluster.
    pub identity: Identity,
    /// The node.
    pub node: NodeId,
    /// How far the node's active area came at least. None: it isn't said.
    pub course: Option<Course>,
    /// How often the node had been replaced when the folder was made.
    pub replaced: u64,
}
