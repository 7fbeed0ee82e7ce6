//! A journal over an open disk: groups of facts are appended behind the last gate of the active area.

ghost use Rattle.std.specs.Prelude.{◌≡◌, ◌⊎◌, ◌+◌, ◌^◌, ◌<◌, ◌≤◌, [], ◌++◌, List, true, false, nat_lt, length, IfOk, IfErr, OnOk, Some};
ghost use Rattle.rr_types.specs.declared.fact.Fact.{Fact};
ghost use Rattle.rr_types.specs.declared.refusal.Refusal.TheVariants.{OutOfMemory, Failed, Busy, TooLarge};
ghost use Rattle.rr_types.specs.Promises.{all_fit};
ghost use Rattle.rr_disk.specs.Crash.{Images, restarted};
ghost use Rattle.rr_frame.specs.GroupFormat.{group_bytes, IsLawfulGroup};
ghost use Rattle.rr_journal.specs.Moments.{IsAt, body_due, with_group};
ghost use Rattle.rr_journal.specs.Calls.{frame_bytes};
ghost use Rattle.rr_journal.specs.Held.{Holds};
ghost use Rattle.rr_journal.specs.Journals.{IsOver, once_flushed};

use crate::job::{Body, Job};
use rr_disk::{Area, Disk, FailingDisk};
use rr_frame::{encode_group, put_u32};
use rr_types::{Group, NodeId, Nodes, Refusal};
use std::alloc::Global;

/// The journal of a node. It lends its disk to one flush at a time.
#[derive(Drop)]
pub struct Journal<D: Disk> {
    pub(crate) disk: D,
    nodes: Nodes,
    node: NodeId,
    area: Area,
    epoch: u64,
    gate: u64,
    next: u64,
    failed: bool,
    busy: bool,
    closes_other: bool,
}

impl<D: Disk> Journal<D> {
    // The journal after an opening, by what it has found: the active area, its last gate, the number of the next
    // fact, and whether the other area has to be closed before it is written anew.
    pub(crate) fn new(
        disk: D,
        nodes: Nodes,
        node: NodeId,
        area: Area,
        epoch: u64,
        gate: u64,
        next: u64,
        closes_other: bool,
    ) -> Journal<D>
        ensures { result ≡ record { disk = disk; nodes = nodes; node = node; area = area; epoch = epoch; gate = gate; next = next; failed = false; busy = false; closes_other = closes_other } }
    {
        Journal {
            disk,
            nodes,
            node,
            area,
            epoch,
            gate,
            next,
            failed: false,
            busy: false,
            closes_other,
        }
    }

    /// The number of the next fact behind the synced groups.
    pub fn facts(&self) -> u64
        ensures { result ≡ self.now.next }
    {
        self.next
    }

    /// The disk.
    pub fn disk(&self) -> &D
        ensures { result.now ≡ self.now.disk }
    {
        &self.disk
    }

    /// The disk, which then has to be opened again.
    pub fn into_disk(self) -> D
        ensures { result ≡ self.disk }
    {
        let Journal {
            disk,
            nodes: _,
            node: _,
            area: _,
            epoch: _,
            gate: _,
            next: _,
            failed: _,
            busy: _,
            closes_other: _,
        } = self;
        disk
    }

    /// Whose journal it is, of how many nodes.
    pub fn owner(&self) -> (Nodes, NodeId)
        ensures { result ≡ (self.now.nodes, self.now.node) }
    {
        (self.nodes, self.node)
    }

    /// The area to which it appends.
    pub fn area(&self) -> Area
        ensures { result ≡ self.now.area }
    {
        self.area
    }

    /// The epoch of that area.
    pub fn epoch(&self) -> u64
        ensures { result ≡ self.now.epoch }
    {
        self.epoch
    }

    /// Whether the other area has to be closed before it is written anew: it is empty or looks formatted.
    pub fn closes_other(&self) -> bool
        ensures { result ≡ self.now.closes_other }
    {
        self.closes_other
    }

    /// Whether a device call of it has failed.
    pub fn has_failed(&self) -> bool
        ensures { result ≡ self.now.failed }
    {
        self.failed
    }

    /// Whether a job runs.
    pub fn is_busy(&self) -> bool
        ensures { result ≡ self.now.busy }
    {
        self.busy
    }

    // Takes note of a job: a switch to the other area.
    pub(crate) fn note_job(&mut self)
        ensures { self.new ≡ record self.old { busy = true } }
    {
        self.busy = true;
    }

    // Takes note of the end of a switch: the other area has this epoch, and the journal continues there, after
    // the gate at this place. The area that it leaves looks formatted.
    pub(crate) fn note_switch(&mut self, area: Area, epoch: u64, place: u64)
        ensures { self.new ≡ record self.old { area = area; epoch = epoch; gate = place; busy = false; closes_other = true } }
    {
        self.area = area;
        self.epoch = epoch;
        self.gate = place;
        self.busy = false;
        self.closes_other = true;
    }

    /// Begins to flush a group: the job will append its frame behind the last gate. A refused group is handed
    /// back, and the journal is unchanged.
    /// Errors, and the first that applies is answered: `Failed` after a device failure; `Busy` while a job runs;
    /// `TooLarge` where the frame would pass byte 4,294,967,295 of the area, or `OutOfMemory`.
    pub fn begin(&mut self, alloc: Global, group: Group) -> Result<Job<Body>, (Refusal, Group)>
        ensures ok { IfOk result (λ job. (self.old.failed ≡ false) × (self.old.busy ≡ false)
            × (self.old.gate + 6 + length (group_bytes group) < 2 ^ 32) × (self.new ≡ record self.old { busy = true })
            × (job ≡ record { nodes = self.old.nodes; node = self.old.node; area = self.old.area; gate = self.old.gate; body = frame_bytes (group_bytes group); group = group })) }
        ensures lawful { OnOk result (IsLawfulGroup group) }
        ensures refused { IfErr result (λ r. (r.1 ≡ group) × (self.new ≡ self.old)) }
        ensures cause { IfErr result (λ r. (r.0 ≡ OutOfMemory) ⊎ ((r.0 ≡ Failed) × (self.old.failed ≡ true)) ⊎ ((r.0 ≡ Busy) × (self.old.busy ≡ true))
            ⊎ ((r.0 ≡ TooLarge) × (2 ^ 32 ≤ self.old.gate + 6 + length (group_bytes group)))) }
        ensures order { IfErr result (λ r. (self.old.failed ≡ true → r.0 ≡ Failed) × (self.old.failed ≡ false → self.old.busy ≡ true → r.0 ≡ Busy)) }
        ensures table { (start : Images) (facts : List Fact) → D.areas self.old.disk ≡ restarted start → IsOver self.old start facts
            → all_fit self.old.nodes self.old.node [] (facts ++ group.facts) ≡ true → group.serial ≡ length facts
            → IfOk result (λ job. IsAt body_due (Holds self.old.nodes self.old.node) job start facts (D.areas self.new.disk)
            × IsOver (once_flushed job self.new) (with_group job start) (facts ++ group.facts)) }
    {
        if self.failed {
            return Err((Refusal::Failed, group));
        }
        if self.busy {
            return Err((Refusal::Busy, group));
        }
        let payload = match encode_group(alloc, &group) {
            Ok(payload) => payload,
            Err(_) => return Err((Refusal::OutOfMemory, group)),
        };
        if !fits(self.gate, payload.len()) {
            return Err((Refusal::TooLarge, group));
        }
        match frame(alloc, payload) {
            Ok(body) => {
                self.busy = true;
                Ok(Job::new(self.nodes, self.node, self.area, self.gate, body, group))
            }
            Err(refusal) => Err((refusal, group)),
        }
    }
}

/// Whether a frame with its gate at `gate` and a payload of `payload` bytes ends below byte 4,294,967,296 of an area.
fn fits(gate: u64, payload: usize) -> bool
    ensures { result ≡ nat_lt (gate + 6 + payload) (2 ^ 32) }
{
    gate <= 0xFFFF_FFFF && payload as u64 <= 0xFFFF_FFFF && gate + 6 + payload as u64 <= 0xFFFF_FFFF
}

/// What stands behind a frame's gate: length, payload, a closed next gate.
pub fn frame(alloc: Global, payload: Vec<u8>) -> Result<Vec<u8>, Refusal>
    requires { length payload.items < 2 ^ 32 }
    ensures ok { IfOk result (λ body. body.items ≡ frame_bytes payload.items) }
    ensures err { IfErr result (λ e. e ≡ OutOfMemory) }
{
    let mut body = Vec::with_capacity(alloc, payload.len() + 5)?;
    put_u32(&mut body, payload.len() as u32)?;
    body.extend_from_slice(&payload)?;
    body.push(0)?;
    Ok(body)
}

impl<D: Disk> Journal<FailingDisk<D>> {
    /// Makes the next device call of the flush fail, as `FailingDisk::fail_next` says.
    pub fn fail_next(&mut self, fill: Vec<u8>)
        ensures { self.new ≡ record self.old { disk = record self.old.disk { due = Some fill.items } } }
    {
        self.disk.fail_next(fill);
    }
}

impl<D: Disk> Journal<D> {
    // Takes note of a failed device call.
    pub(crate) fn note_failure(&mut self)
        ensures { self.new ≡ record self.old { failed = true } }
    {
        self.failed = true;
    }

    // Takes note of the end of a flush: where the last gate stands now, and the next fact number.
    pub(crate) fn note_end(&mut self, gate: u64, next: u64)
        ensures { self.new ≡ record self.old { gate = gate; next = next; busy = false } }
    {
        self.gate = gate;
        self.next = next;
        self.busy = false;
    }
}
