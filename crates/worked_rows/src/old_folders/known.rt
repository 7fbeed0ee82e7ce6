//! What a node knows once it has opened its disk.

use super::seat::Seat;
use rr_core::{Core, recover};
use rr_disk::MemDisk;
use rr_frame::{Snapshot, encode_snapshot};
use rr_text::text_report::push_report_words;
use rr_text::{BoundNames, ReportLine};
use rr_types::{Binding, Refusal};
use std::alloc::Global;

/// What a node knows. The words of its restart in a report tell how many facts it has, and the bound names. A snapshot of
/// epoch 1 tells where each instance stands.
#[derive(Drop)]
pub struct Known {
    restart: Vec<u8>,
    snapshot: Vec<u8>,
}

impl Known {
    /// What the node knows that opens this disk.
    ///
    /// # Errors
    /// Those of an opening, and `OutOfMemory`.
    pub fn by_opening(alloc: Global, seat: Seat, disk: MemDisk) -> Result<Known, Refusal> {
        match recover(alloc, seat.nodes, seat.node, disk) {
            Ok((core, _)) => Known::of_core(alloc, &core),
            Err((refusal, _)) => Err(refusal),
        }
    }

    fn of_core(alloc: Global, core: &Core) -> Result<Known, Refusal> {
        let restart = restart_of(alloc, core)?;
        let snapshot = snapshot_of(alloc, core)?;
        Ok(Known { restart, snapshot })
    }

    /// The words of its restart.
    pub fn restart(&self) -> &[u8] {
        &self.restart
    }

    /// Whether both know the same.
    pub fn is_same(&self, other: &Known) -> bool {
        self.restart.as_slice() == other.restart.as_slice()
            && self.snapshot.as_slice() == other.snapshot.as_slice()
    }
}

/// The names that the decided prefix of a core binds.
fn names_of(alloc: Global, core: &Core) -> Result<BoundNames, Refusal> {
    let mut bindings = Vec::new(alloc);
    for (name, holding) in core.bindings() {
        bindings.push(Binding {
            name,
            owner: holding.owner(),
            value: holding.value(),
        })?;
    }
    Ok(BoundNames::new(bindings))
}

fn restart_of(alloc: Global, core: &Core) -> Result<Vec<u8>, Refusal> {
    let line = ReportLine::Restart {
        node: core.node(),
        facts: core.facts(),
        decided: core.decided_count() as u64,
        bindings: names_of(alloc, core)?,
    };
    let mut text = Vec::new(alloc);
    push_report_words(&mut text, &line)?;
    Ok(text)
}

fn snapshot_of(alloc: Global, core: &Core) -> Result<Vec<u8>, Refusal> {
    let promise = core.marked_promise(alloc)?;
    match Snapshot::new(core.nodes(), core.node(), 1, core.facts(), promise) {
        Ok(snapshot) => encode_snapshot(alloc, &snapshot),
        Err(_) => Err(Refusal::BadNodes),
    }
}
