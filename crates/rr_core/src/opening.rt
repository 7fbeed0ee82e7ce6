//! The opening of a node: its beginning, and how it is given up.

ghost use Rattle.std.specs.Prelude.{◌≡◌, ◌<◌, List, Some};
ghost use Rattle.rr_types.specs.declared.fact.Fact.{Fact};
ghost use Rattle.rr_types.specs.declared.refusal.Refusal.TheVariants.{Device};
ghost use Rattle.rr_disk.specs.Failing.{FailingRead, FailingWrite, FailingSync};
ghost use Rattle.rr_journal.specs.CrashedDisks.{MayStand, EachHoldsSome, SomeHolds};
ghost use Rattle.rr_journal.specs.Held.{Holds};
ghost use Rattle.rr_journal.specs.Openings.{Settling, Refused, due_call};
ghost use Rattle.rr_journal.specs.OpeningTable.{contents, OpensAny, OpensWith};
ghost use Rattle.rr_journal.specs.Phases.{phase_of};

use crate::recovery::measure;
use rr_disk::{Disk, FailingDisk};
use rr_types::{NodeId, Nodes};
use std::alloc::Global;
use std::marker::Model;

/// An opening of a node: it syncs its disk and reads both areas. Where neither is formatted it formats the first; where
/// the active one has version 1 it writes a snapshot of version 2 to the other.
#[derive(Drop)]
pub struct Opening<D: Disk> {
    pub(crate) journal: rr_journal::Opening<D>,
    pub(crate) nodes: Nodes,
    pub(crate) node: NodeId,
}

impl<D: Disk> Model for Opening<D> {
    ghost use Rattle.std.specs.Prelude.{◌≡◌, ◌<◌};
    ghost use Rattle.rr_journal.specs.OpeningStates.{OpeningState};
    ghost use Rattle.rr_core.specs.Known.{KnowsDisk};

    ghost Value = { OpeningState D };

    ghost view = { λ o. o.journal };

    ghost invariant = { λ o. (o.journal.nodes ≡ o.nodes) × (o.journal.node ≡ o.node) × (o.node < o.nodes) × ((one other : D) → D.tells one → D.tells other) × (D.tells o.journal.disk → KnowsDisk D.areas o.journal) };
}

impl<D: Disk> Opening<D> {
    /// Begins an opening of one of the nodes, of a kind of disk that tells its bytes always or never. No device call is made yet.
    pub fn start(nodes: Nodes, node: NodeId, disk: D) -> Opening<D>
        requires exists { node < nodes }
        requires alike { (one other : D) → D.tells one → D.tells other }
        ensures whose { (result.nodes ≡ nodes) × (result.node ≡ node) }
        ensures disk { result.disk ≡ disk }
        ensures phase { phase_of result.phase ≡ Settling }
        ensures rests { D.tells disk → OpensAny nodes node result.phase (D.areas disk) }
        ensures table { D.tells disk → (facts : List Fact) → Holds nodes node (contents (D.areas disk)) facts → OpensWith nodes node facts result.phase (D.areas disk) }
        ensures some { D.tells disk → MayStand (D.areas disk) → EachHoldsSome (Holds nodes node) (D.areas disk)
            → (facts : List Fact) × SomeHolds (Holds nodes node) (D.areas disk) facts × OpensWith nodes node facts result.phase (D.areas disk) }
    {
        measure(&disk);
        Opening {
            journal: rr_journal::Opening::start(nodes, node, disk),
            nodes,
            node,
        }
    }

    /// The disk that is opened.
    pub fn disk(&self) -> &D
        ensures { result.now ≡ self.now.disk }
    {
        self.journal.disk()
    }

    /// Gives the opening up, and the disk back.
    pub fn into_disk(self) -> D
        ensures { result ≡ self.disk }
    {
        let Opening {
            journal,
            nodes: _,
            node: _,
        } = self;
        journal.into_disk()
    }
}

impl<D: Disk> Opening<FailingDisk<D>> {
    /// Makes the next device call fail, as `FailingDisk::fail_next` says, and hands the disk back.
    pub fn fail(self, alloc: Global, fill: Vec<u8>) -> FailingDisk<D>
        ensures { Refused (FailingRead D.read_gives) (FailingWrite D.write_gives) (FailingSync D.sync_gives)
            (due_call (phase_of self.phase)) (record self.disk { due = Some fill.items }) Device result }
    {
        let Opening {
            journal,
            nodes: _,
            node: _,
        } = self;
        journal.fail(alloc, fill)
    }
}
