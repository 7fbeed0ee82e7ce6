//! The job of a flush, and its four states.

ghost use Rattle.std.specs.Prelude.{◌≡◌, ◌⊎◌, ℕ, ◌+◌, ◌^◌, ◌<◌, ◌≤◌, [], ◌∷◌, ◌++◌, List, true, false, length, IfOk, IfErr, OnOk, OnErr, Ok, Err};
ghost use Rattle.rr_types.specs.declared.fact.Fact.{Fact};
ghost use Rattle.rr_types.specs.declared.refusal.Refusal.TheVariants.{Device, Failed};
ghost use Rattle.rr_types.specs.Counts.{counted, Grew};
ghost use Rattle.rr_disk.specs.Crash.{Images};
ghost use Rattle.rr_journal.specs.Held.{Holds};
ghost use Rattle.rr_journal.specs.Moments.{IsAt, EachHolds, EachHoldsEither, body_due, body_out, body_safe, gate_set, group_safe};

use crate::call::{sync, write};
use crate::content::OPEN_GATE;
use crate::journal::Journal;
use crate::synced::Synced;
use rr_disk::{Area, Disk};
use rr_types::{Group, NodeId, Nodes, Refusal};
use std::marker::Model;

/// The body is due: it will be written behind the last gate.
#[derive(Clone, Copy, Debug)]
pub struct Body;

/// The body is written: a sync will make it safe.
#[derive(Clone, Copy, Debug)]
pub struct BodyOut;

/// The body is safe: the gate will be opened.
#[derive(Clone, Copy, Debug)]
pub struct BodySafe;

/// The gate is open: a sync will make that safe.
#[derive(Clone, Copy, Debug)]
pub struct GateSet;

/// A flush in one of its states: `Body`, `BodyOut`, `BodySafe` or `GateSet`. A step spends it, whatever it
/// answers; `abandon` spends it when its node has crashed or failed. It can't be dropped otherwise.
#[derive(Debug)]
pub struct Job<S> {
    nodes: Nodes,
    node: NodeId,
    area: Area,
    gate: u64,
    body: Vec<u8>,
    group: Group,
    state: S,
}

impl<S> Model for Job<S> {
    ghost use Rattle.std.specs.Prelude.{◌+◌, ◌^◌, ◌<◌, length};
    ghost use Rattle.rr_journal.specs.Flushes.{Flush};

    ghost Value = { Flush };

    ghost view = { λ j. record { nodes = j.nodes; node = j.node; area = j.area; gate = j.gate; body = j.body.items; group = j.group } };

    ghost invariant = { λ j. j.gate + 1 + length j.body.items < 2 ^ 64 };
}

impl<S: Drop> Job<S> {
    // The same flush in another state.
    fn next<T>(self, state: T) -> Job<T>
        ensures { result ≡ self }
    {
        let Job {
            nodes,
            node,
            area,
            gate,
            body,
            group,
            state: _,
        } = self;
        Job {
            nodes,
            node,
            area,
            gate,
            body,
            group,
            state,
        }
    }

    /// Spends the job. Nothing more of it will be done.
    pub fn abandon(self) {
        let Job {
            nodes: _,
            node: _,
            area: _,
            gate: _,
            body: _,
            group: _,
            state: _,
        } = self;
    }
}

impl Job<Body> {
    // A flush of `group` at node `node` of `nodes` nodes. After the last gate, which is at `gate` in the area, it will
    // write `body`: the bytes of the group and a closed gate.
    pub(crate) fn new(
        nodes: Nodes,
        node: NodeId,
        area: Area,
        gate: u64,
        body: Vec<u8>,
        group: Group,
    ) -> Job<Body>
        requires { gate + 1 + length body.items < 2 ^ 64 }
        ensures { result ≡ record { nodes = nodes; node = node; area = area; gate = gate; body = body.items; group = group } }
    {
        Job {
            nodes,
            node,
            area,
            gate,
            body,
            group,
            state: Body,
        }
    }

    /// Writes the body behind the last gate, which it doesn't touch.
    ///
    /// # Errors
    /// `Failed` if the journal has failed already, and nothing has changed then; `Device`, and the journal notes it.
    pub fn step<D: Disk>(self, journal: &mut Journal<D>) -> Result<Job<BodyOut>, Refusal>
        ensures done { IfOk result (λ job. (job ≡ self) × (journal.old.failed ≡ false) × (journal.new ≡ record journal.old { disk = journal.new.disk })
            × D.write_gives journal.old.disk self.area (self.gate + 1) self.body (Ok tt) journal.new.disk) }
        ensures refused { IfErr result (λ e. ((e ≡ Failed) × (journal.old.failed ≡ true) × (journal.new ≡ journal.old))
            ⊎ ((e ≡ Device) × (journal.old.failed ≡ false) × (journal.new ≡ record journal.old { disk = journal.new.disk; failed = true })
            × D.write_gives journal.old.disk self.area (self.gate + 1) self.body (Err Device) journal.new.disk
            × Grew (D.faults journal.old.disk) (D.faults journal.new.disk))) }
        ensures calls { journal.old.failed ≡ false → D.calls journal.new.disk ≡ counted (D.calls journal.old.disk) }
        ensures faults { D.faults journal.old.disk ≤ D.faults journal.new.disk }
        ensures tells { D.tells journal.old.disk → D.tells journal.new.disk }
        ensures table { D.tells journal.old.disk → (start : Images) (facts : List Fact)
            → IsAt body_due (Holds self.nodes self.node) self start facts (D.areas journal.old.disk)
            → EachHolds (Holds self.nodes self.node) (D.areas journal.old.disk) facts
            × EachHolds (Holds self.nodes self.node) (D.areas journal.new.disk) facts
            × OnOk result (IsAt body_out (Holds self.nodes self.node) self start facts (D.areas journal.new.disk)) }
    {
        match write(journal, self.area, self.gate + 1, &self.body) {
            Ok(()) => Ok(self.next(BodyOut)),
            Err(e) => {
                self.abandon();
                Err(e)
            }
        }
    }
}

impl Job<BodyOut> {
    /// Syncs, which makes the body safe. The errors are those of the first step.
    pub fn step<D: Disk>(self, journal: &mut Journal<D>) -> Result<Job<BodySafe>, Refusal>
        ensures done { IfOk result (λ job. (job ≡ self) × (journal.old.failed ≡ false) × (journal.new ≡ record journal.old { disk = journal.new.disk })
            × D.sync_gives journal.old.disk (Ok tt) journal.new.disk) }
        ensures refused { IfErr result (λ e. ((e ≡ Failed) × (journal.old.failed ≡ true) × (journal.new ≡ journal.old))
            ⊎ ((e ≡ Device) × (journal.old.failed ≡ false) × (journal.new ≡ record journal.old { disk = journal.new.disk; failed = true })
            × D.sync_gives journal.old.disk (Err Device) journal.new.disk
            × Grew (D.faults journal.old.disk) (D.faults journal.new.disk))) }
        ensures calls { journal.old.failed ≡ false → D.calls journal.new.disk ≡ counted (D.calls journal.old.disk) }
        ensures faults { D.faults journal.old.disk ≤ D.faults journal.new.disk }
        ensures tells { D.tells journal.old.disk → D.tells journal.new.disk }
        ensures table { D.tells journal.old.disk → (start : Images) (facts : List Fact)
            → IsAt body_out (Holds self.nodes self.node) self start facts (D.areas journal.old.disk)
            → EachHolds (Holds self.nodes self.node) (D.areas journal.old.disk) facts
            × EachHolds (Holds self.nodes self.node) (D.areas journal.new.disk) facts
            × OnOk result (IsAt body_safe (Holds self.nodes self.node) self start facts (D.areas journal.new.disk)) }
    {
        match sync(journal) {
            Ok(()) => Ok(self.next(BodySafe)),
            Err(e) => {
                self.abandon();
                Err(e)
            }
        }
    }
}

impl Job<BodySafe> {
    /// Opens the gate. The errors are those of the first step.
    pub fn step<D: Disk>(self, journal: &mut Journal<D>) -> Result<Job<GateSet>, Refusal>
        ensures done { IfOk result (λ job. (job ≡ self) × (journal.old.failed ≡ false) × (journal.new ≡ record journal.old { disk = journal.new.disk })
            × D.write_gives journal.old.disk self.area self.gate (165 ∷ []) (Ok tt) journal.new.disk) }
        ensures refused { IfErr result (λ e. ((e ≡ Failed) × (journal.old.failed ≡ true) × (journal.new ≡ journal.old))
            ⊎ ((e ≡ Device) × (journal.old.failed ≡ false) × (journal.new ≡ record journal.old { disk = journal.new.disk; failed = true })
            × D.write_gives journal.old.disk self.area self.gate (165 ∷ []) (Err Device) journal.new.disk
            × Grew (D.faults journal.old.disk) (D.faults journal.new.disk))) }
        ensures calls { journal.old.failed ≡ false → D.calls journal.new.disk ≡ counted (D.calls journal.old.disk) }
        ensures faults { D.faults journal.old.disk ≤ D.faults journal.new.disk }
        ensures tells { D.tells journal.old.disk → D.tells journal.new.disk }
        ensures table { D.tells journal.old.disk → (start : Images) (facts : List Fact)
            → IsAt body_safe (Holds self.nodes self.node) self start facts (D.areas journal.old.disk)
            → EachHolds (Holds self.nodes self.node) (D.areas journal.old.disk) facts
            × EachHoldsEither (Holds self.nodes self.node) (D.areas journal.new.disk) facts self.group.facts
            × OnOk result (IsAt gate_set (Holds self.nodes self.node) self start facts (D.areas journal.new.disk)) }
    {
        // The body is safe by now. Until this byte is written, an opening takes the body for free room.
        match write(journal, self.area, self.gate, &[OPEN_GATE]) {
            Ok(()) => Ok(self.next(GateSet)),
            Err(e) => {
                self.abandon();
                Err(e)
            }
        }
    }
}

impl Job<GateSet> {
    /// Syncs, which makes the open gate safe, and the group with it. The journal takes note of the end: the body's
    /// last byte is the last gate now. The errors are those of the first step.
    pub fn step<D: Disk>(self, journal: &mut Journal<D>) -> Result<Synced, Refusal>
        ensures done { IfOk result (λ synced. (synced ≡ record { node = self.node; group = self.group }) × (journal.old.failed ≡ false)
            × (journal.new ≡ record journal.old { disk = journal.new.disk; gate = self.gate + length self.body; next = self.group.serial + length self.group.facts; busy = false })
            × D.sync_gives journal.old.disk (Ok tt) journal.new.disk) }
        ensures refused { IfErr result (λ e. ((e ≡ Failed) × (journal.old.failed ≡ true) × (journal.new ≡ journal.old))
            ⊎ ((e ≡ Device) × (journal.old.failed ≡ false) × (journal.new ≡ record journal.old { disk = journal.new.disk; failed = true })
            × D.sync_gives journal.old.disk (Err Device) journal.new.disk
            × Grew (D.faults journal.old.disk) (D.faults journal.new.disk))) }
        ensures calls { journal.old.failed ≡ false → D.calls journal.new.disk ≡ counted (D.calls journal.old.disk) }
        ensures faults { D.faults journal.old.disk ≤ D.faults journal.new.disk }
        ensures tells { D.tells journal.old.disk → D.tells journal.new.disk }
        ensures table { D.tells journal.old.disk → (start : Images) (facts : List Fact)
            → IsAt gate_set (Holds self.nodes self.node) self start facts (D.areas journal.old.disk)
            → EachHoldsEither (Holds self.nodes self.node) (D.areas journal.old.disk) facts self.group.facts
            × OnErr result (EachHoldsEither (Holds self.nodes self.node) (D.areas journal.new.disk) facts self.group.facts)
            × OnOk result (EachHolds (Holds self.nodes self.node) (D.areas journal.new.disk) (facts ++ self.group.facts))
            × OnOk result (D.areas journal.new.disk ≡ group_safe self start) }
    {
        match sync(journal) {
            Ok(()) => {
                let Job {
                    nodes: _,
                    node,
                    area: _,
                    gate,
                    body,
                    group,
                    state: _,
                } = self;
                let next = group.serial() + group.facts().len() as u64;
                journal.note_end(gate + body.len() as u64, next);
                Ok(Synced::new(node, group))
            }
            Err(e) => {
                self.abandon();
                Err(e)
            }
        }
    }
}
