//! The writing of an area anew in an opening: the first of a disk that isn't formatted, or the one beside an area of
//! version 1.

ghost use Rattle.std.specs.Prelude.{◌≡◌, ◌⊎◌, ◌+◌, ◌<◌, ◌≤◌, true, false, OnOk, OnErr, IfOk, IfErr};
ghost use Rattle.rr_types.specs.declared.refusal.Refusal.TheVariants.{OutOfMemory, Device, TooLarge};
ghost use Rattle.rr_types.specs.Counts.{counted, Grew};
ghost use Rattle.rr_frame.specs.Snapshots.{IsSnapshot};
ghost use Rattle.rr_frame.specs.SnapshotFormat.{snapshot_bytes, IsLawfulSnapshot};
ghost use Rattle.rr_journal.specs.Ends.{found_of};
ghost use Rattle.rr_journal.specs.Image.{Unformatted, Outdated};
ghost use Rattle.rr_journal.specs.Calls.{frame_bytes, after_call};
ghost use Rattle.rr_journal.specs.Openings.{Opens, snapshot_with, formatted, end_by};
ghost use Rattle.rr_journal.specs.Migration.{migrated, may_migrate};
ghost use Rattle.rr_journal.specs.OpeningTable.{IsLeftBy};
ghost use Rattle.rr_journal.specs.Rewrites.{IsSized, writes_anew, area_anew};
ghost use Rattle.rr_journal.specs.Stages.{first_stage, call_at, Gave};

use crate::content::Content;
use crate::image::Image;
use crate::journal::frame;
use crate::snapshot::{beside, frame_of};
use crate::stage::Stage;
use rr_disk::{Area, Disk};
use rr_frame::{Snapshot, encode_snapshot};
use rr_types::{NodeId, Nodes, Promise, Refusal};
use std::alloc::Global;
use std::marker::Model;

/// The writing of an area anew: what was found, which makes it due, what is written behind the area's first gate, and
/// how far it has come.
#[derive(Debug, Drop)]
pub struct Rewrite {
    image: Image,
    body: Vec<u8>,
    stage: Stage,
}

impl Model for Rewrite {
    ghost use Rattle.rr_journal.specs.Ends.{found_of};
    ghost use Rattle.rr_journal.specs.Rewrites.{Rewrite as RewriteOf, IsSized};

    ghost Value = { RewriteOf };

    ghost view = { λ r. record { found = found_of r.image; body = r.body.items; stage = r.stage } };

    ghost invariant = { λ r. IsSized (record { found = found_of r.image; body = r.body.items; stage = r.stage }) };
}

impl Rewrite {
    // Behind the reads, where this was found: the first device call is due.
    fn new(image: Image, body: Vec<u8>, closes: bool) -> Rewrite
        requires { IsSized (record { found = found_of image; body = body.items; stage = first_stage closes }) }
        ensures { result ≡ record { found = found_of image; body = body.items; stage = first_stage closes } }
    {
        Rewrite {
            image,
            body,
            stage: Stage::first(closes),
        }
    }

    /// Of a disk that isn't formatted, to an empty snapshot of epoch 1.
    ///
    /// # Errors
    /// `OutOfMemory`.
    pub fn formatting(
        alloc: Global,
        nodes: Nodes,
        node: NodeId,
        closes: bool,
    ) -> Result<Rewrite, Refusal>
        requires { node < nodes }
        ensures ok { IfOk result (λ r. r ≡ record { found = Unformatted; body = frame_bytes (snapshot_bytes (snapshot_with nodes node formatted)); stage = first_stage closes }) }
        ensures lawful { OnOk result (IsLawfulSnapshot (snapshot_with nodes node formatted)) }
        ensures err { IfErr result (λ e. e ≡ OutOfMemory) }
    {
        let body = first_body(alloc, nodes, node)?;
        Ok(Rewrite::new(Image::Unformatted, body, closes))
    }

    /// Beside an area of version 1 with this content, to a snapshot of its promise with the next epoch.
    ///
    /// # Errors
    /// `TooLarge` where there is no next epoch, or the snapshot would pass byte 4,294,967,295 of its area; `OutOfMemory`.
    pub fn migration(
        alloc: Global,
        nodes: Nodes,
        node: NodeId,
        area: Area,
        content: Content,
        closes: bool,
    ) -> Result<Rewrite, Refusal>
        requires { IsSnapshot (snapshot_with nodes node (migrated content)) }
        ensures ok { IfOk result (λ r. (may_migrate content ≡ true)
            × (r ≡ record { found = Outdated area content; body = frame_bytes (snapshot_bytes (snapshot_with nodes node (migrated content))); stage = first_stage closes })) }
        ensures lawful { OnOk result (IsLawfulSnapshot (snapshot_with nodes node (migrated content))) }
        ensures err { IfErr result (λ e. (e ≡ OutOfMemory) ⊎ ((e ≡ TooLarge) × (may_migrate content ≡ false))) }
    {
        let epoch = content.epoch();
        let next = content.next();
        let gate = content.gate();
        if epoch == u64::MAX {
            return Err(Refusal::TooLarge);
        }
        let snapshot = match Snapshot::new(nodes, node, epoch + 1, next, content.into_promise()) {
            Ok(snapshot) => snapshot,
            Err(_) => unreachable!(),
        };
        let body = frame_of(alloc, &snapshot)?;
        let content = Content::new(epoch, snapshot.into_promise(), next, gate);
        Ok(Rewrite::new(Image::Outdated(area, content), body, closes))
    }

    /// How far it has come.
    pub fn stage(&self) -> Stage
        ensures { result ≡ self.now.stage }
    {
        self.stage
    }

    /// The area that it writes.
    fn area(&self) -> Area
        ensures { result ≡ area_anew self.now.found }
    {
        match &self.image {
            Image::Unformatted => Area::First,
            Image::Active(area, _) => *area,
            Image::Outdated(area, _) => beside(*area),
        }
    }

    /// Makes the device call that is due.
    ///
    /// # Errors
    /// `Device`.
    pub fn call<D: Disk>(&self, disk: &mut D) -> Result<(), Refusal>
        ensures due { writes_anew self.now.found ≡ true }
        ensures gave { Gave D.write_gives D.sync_gives (call_at (area_anew self.now.found) self.now.body self.now.stage) disk.old result disk.new }
        ensures cause { IfErr result (λ e. (e ≡ Device) × Grew (D.faults disk.old) (D.faults disk.new)) }
        ensures call { D.calls disk.new ≡ counted (D.calls disk.old) }
        ensures faults { D.faults disk.old ≤ D.faults disk.new }
        ensures tells { D.tells disk.old → D.tells disk.new }
        ensures ok { D.tells disk.old → OnOk result (D.areas disk.new ≡ after_call (call_at (area_anew self.now.found) self.now.body self.now.stage) (D.areas disk.old)) }
        ensures err { D.tells disk.old → OnErr result (IsLeftBy (call_at (area_anew self.now.found) self.now.body self.now.stage) (D.areas disk.old) (D.areas disk.new)) }
    {
        self.stage.call(disk, self.area(), &self.body)
    }

    /// The same at another stage.
    pub fn at(self, stage: Stage) -> Rewrite
        ensures { result ≡ record self { stage = stage } }
    {
        let Rewrite {
            image,
            body,
            stage: _,
        } = self;
        Rewrite { image, body, stage }
    }

    /// What it ends with: the area that is active then, its epoch, the place of its last gate, the promise and the
    /// number of the next fact.
    pub fn into_end(self, alloc: Global) -> (Area, u64, u64, Promise, u64)
        ensures { end_by self.found ≡ Opens result.0 (record { epoch = result.1; promise = result.3; next = result.4; gate = result.2 }) }
    {
        let Rewrite {
            image,
            body,
            stage: _,
        } = self;
        let gate = body.len() as u64;
        match image {
            Image::Unformatted => (Area::First, 1, gate, Promise::new(Vec::new(alloc)), 0),
            Image::Active(_, _) => unreachable!(),
            Image::Outdated(area, content) => {
                let epoch = content.epoch() + 1;
                let next = content.next();
                (beside(area), epoch, gate, content.into_promise(), next)
            }
        }
    }
}

/// The frame of an empty snapshot of epoch 1, behind its gate.
fn first_body(alloc: Global, nodes: Nodes, node: NodeId) -> Result<Vec<u8>, Refusal>
    requires { node < nodes }
    ensures ok { IfOk result (λ body. body.items ≡ frame_bytes (snapshot_bytes (snapshot_with nodes node formatted))) }
    ensures lawful { OnOk result (IsLawfulSnapshot (snapshot_with nodes node formatted)) }
    ensures err { IfErr result (λ e. e ≡ OutOfMemory) }
{
    match Snapshot::new(nodes, node, 1, 0, Promise::new(Vec::new(alloc))) {
        Ok(snapshot) => {
            let payload = encode_snapshot(alloc, &snapshot)?;
            frame(alloc, payload)
        }
        Err(_) => unreachable!(),
    }
}
