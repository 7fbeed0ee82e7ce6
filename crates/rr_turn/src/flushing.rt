//! A group that comes is flushed, and goes back.

ghost use Rattle.std.specs.Prelude.{◌≡◌, Option, is_some};
ghost use Rattle.rr_types.specs.Groups.{Grouped};
ghost use Rattle.rr_turn.specs.Asked.{Call, receives, hands_back, wakes_loop};
ghost use Rattle.rr_turn.specs.Carries.{Carries};

use crate::bells::Rung;
use crate::flusher::{Unflushed, carry};
use crate::turnstile::Turnstile;
use rr_disk::Disk;
use rr_journal::{Journal, Synced};
use rr_types::{Group, NodeId};
use std::alloc::Global;

/// The flusher's ends of the hand-overs, and the bell of its node's loop.
pub trait FlusherEnds {
    /// That a call may have brought them from one state to another.
    ghost gives: { Self → Call → Self → Type 0 };

    /// Takes the group that came.
    fn receive(&mut self) -> Option<Group>
        ensures { gives self.old (receives result) self.new };

    /// Gives back what became of a group.
    fn hand_back(&mut self, back: Result<Synced, Unflushed>)
        ensures { gives self.old (hands_back back) self.new };

    /// Rings for the loop of this node.
    fn wake_loop(&mut self, node: NodeId) -> Rung
        ensures call { gives self.old (wakes_loop node) self.new }
        ensures rung { result.node ≡ node };
}

/// A turn of a flusher: a group that comes is flushed, what became of it goes back, and then the node's loop is rung. Answers whether one
/// came.
pub fn flush_group<D: Disk, T: Turnstile, E: FlusherEnds>(
    alloc: Global,
    turnstile: &T,
    node: NodeId,
    journal: &mut Journal<D>,
    ends: &mut E,
) -> bool
    ensures { (group : Option Grouped) × (result ≡ is_some group) × Carries D.tells D.areas D.calls D.faults E.gives node group journal.old journal.new ends.old ends.new }
{
    match ends.receive() {
        None => false,
        Some(group) => {
            let back = carry(turnstile, node, alloc, journal, group);
            ends.hand_back(back);
            ends.wake_loop(node);
            true
        }
    }
}
