//! What comes of an event.

ghost use Rattle.std.specs.Prelude.{◌≡◌};

use rr_registry::Holding;
use rr_types::{Message, Name, Reply, RequestNo};
use std::marker::Model;

/// The bound names in byte order, with their holdings.
#[derive(Debug, Drop)]
pub struct BoundNames {
    entries: Vec<(Name, Holding)>,
}

impl Model for BoundNames {
    ghost use Rattle.rr_types.specs.Registry.{Bindings};

    ghost Value = { Bindings };

    ghost view = { λ b. b.entries.items };
}

impl BoundNames {
    /// These entries. It keeps the vector.
    pub fn new(entries: Vec<(Name, Holding)>) -> BoundNames
        ensures { result ≡ entries.items }
    {
        BoundNames { entries }
    }

    /// The names in byte order, with their holdings.
    pub fn entries(&self) -> &[(Name, Holding)]
        ensures { result.now ≡ self.now }
    {
        let entries = &self.entries;
        entries
    }
}

/// What comes of an event.
#[derive(Debug, Drop)]
pub enum Outcome {
    /// Nothing that a report tells of.
    Quiet,
    /// A message left for the wire.
    Left(Message),
    /// A request was acknowledged with this reply.
    Replied(RequestNo, Reply),
    /// An opening ended: the number of the next fact, the length of the decided prefix, and its registry.
    Opened(u64, u64, BoundNames),
}

/// An event at a node by which it is told nothing.
#[derive(Clone, Copy, Debug, PartialEq, Eq)]
pub enum Act {
    /// A flush of the staged facts begins.
    Take,
    /// The next device call of the opening, the flush or the switch is made.
    Device,
    /// The synced group is marked.
    Mark,
    /// The oldest message that may leave leaves.
    Send,
    /// The oldest decided request that waits is acknowledged.
    Acknowledge,
    /// A switch to a snapshot of the marked facts begins.
    Snap,
    /// The node is started again.
    Restart,
}

/// What a node waits for.
#[derive(Clone, Copy, Debug, PartialEq, Eq)]
pub enum Stance {
    /// A restart: it is down.
    Down,
    /// A restart: a device call of it has failed.
    Failed,
    /// The next device call of its opening.
    Opening,
    /// It is up, and no job runs.
    Resting,
    /// It is up, and the next device call of a flush or a switch is due.
    Calling,
    /// It is up, and a synced group waits for its mark.
    Flushed,
}
