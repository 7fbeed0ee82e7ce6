//! Snapshots: what an area's first frame holds, and their bytes.

ghost use Rattle.std.specs.Prelude.{◌≡◌, ℕ, ◌==◌, ◌++◌, ◌<◌, ◌≤◌, ◌^◌, ◌↔◌, ◌⊎◌, length, OnOk, IfOk, IfErr, IsOk, IfSome, IsTrue, Ok, Err};
ghost use Rattle.std.specs.List.{flat_map, list_all, AllByRecursion};
ghost use Rattle.rr_types.specs.declared.promise.Entry.{Entry};
ghost use Rattle.rr_types.specs.Rounds.{coordinator_of};
ghost use Rattle.rr_frame.specs.declared.version.Version.{Version as Versioned};
ghost use Rattle.rr_frame.specs.Snapshots.{Snapped, IsSnapshot, IsContents, proposes_lawfully};
ghost use Rattle.rr_frame.specs.CommandFormat.{IsLawfulCommand};
ghost use Rattle.rr_frame.specs.Reading.{Gives, Reads, Decodes};
ghost use Rattle.rr_frame.specs.SnapshotFormat.{proposal_bytes, open_bytes, standing_bytes, entry_bytes, contents_bytes, snapshot_bytes, snapshot_bytes_in, IsLawfulOpen, IsSpellable, IsLawfulSnapshot, IsLawfulSnapshotIn, proposal_at, open_at, standing_at, entry_at, entries_at, owner_at, contents_at, snapshot_at, snapshot_in};

use crate::command::{put_command, read_command};
use crate::number::{put_u8, put_u32, put_u64};
use crate::reader::Reader;
use crate::stop::{Fault, Stop};
use crate::version::{Version, read_version};
use rr_types::{
    Command, Entry, Instance, Kept, NodeId, Nodes, Op, OpenStanding, Promise, Refusal, Standing,
    coordinator, made_of,
};
use std::alloc::{AllocError, Global};
use std::marker::Model;

/// A snapshot: the promise of a node's facts so far, the number of its next fact, and the epoch, from 1,
/// of the area that begins with it. A node has a proposal only in a round that it coordinates, and before
/// its first fact it has promised nothing.
#[derive(Debug, Drop)]
pub struct Snapshot {
    nodes: Nodes,
    node: NodeId,
    epoch: u64,
    next: u64,
    promise: Promise,
}

impl Model for Snapshot {
    ghost use Rattle.rr_frame.specs.Snapshots.{Snapped, IsSnapshot};

    ghost Value = { Snapped };

    ghost view = { λ s. record { node = s.node; nodes = s.nodes; epoch = s.epoch; next = s.next; entries = s.promise } };

    ghost invariant = { λ s. IsSnapshot (record { node = s.node; nodes = s.nodes; epoch = s.epoch; next = s.next; entries = s.promise }) };
}

fn coordinates(nodes: Nodes, node: NodeId, standing: &OpenStanding) -> bool
    ensures { result ≡ (coordinator_of standing.now.round nodes == node) }
{
    coordinator(standing.round(), nodes).index() == node.index()
}

fn proposes_lawfully(nodes: Nodes, node: NodeId, entry: &Kept) -> bool
    ensures { result ≡ proposes_lawfully nodes node entry.now.standing }
{
    match entry.open() {
        None => true,
        Some(open) => match open.proposal_ref() {
            None => true,
            Some(_) => coordinates(nodes, node, open),
        },
    }
}

fn all_propose_lawfully(nodes: Nodes, node: NodeId, entries: &[Kept]) -> bool
    ensures { result ≡ list_all (λ (e : Entry). proposes_lawfully nodes node e.standing) entries.now }
{
    entries
        .iter()
        .all(|entry| proposes_lawfully(nodes, node, entry))
}

impl Snapshot {
    /// The snapshot of these parts, where they make one: the node is one of the nodes, the epoch is at
    /// least 1, before the first fact there is no entry, and a proposal stands only in a round that the
    /// node coordinates. Otherwise the promise is handed back.
    pub fn new(
        nodes: Nodes,
        node: NodeId,
        epoch: u64,
        next: u64,
        promise: Promise,
    ) -> Result<Snapshot, Promise>
        ensures valid { IsOk result ↔ IsSnapshot (record { node = node; nodes = nodes; epoch = epoch; next = next; entries = promise }) }
        ensures ok { IfOk result (λ s. s ≡ record { node = node; nodes = nodes; epoch = epoch; next = next; entries = promise }) }
        ensures err { IfErr result (λ back. back ≡ promise) }
    {
        let entries = promise.entries();
        let lawful = node.index() < nodes.count()
            && epoch > 0
            && (next > 0 || entries.is_empty())
            && all_propose_lawfully(nodes, node, entries);
        if lawful {
            Ok(Snapshot {
                nodes,
                node,
                epoch,
                next,
                promise,
            })
        } else {
            Err(promise)
        }
    }

    /// How many nodes there are.
    pub fn nodes(&self) -> Nodes
        ensures { result ≡ self.now.nodes }
    {
        self.nodes
    }

    /// The node whose snapshot it is.
    pub fn node(&self) -> NodeId
        ensures value { result ≡ self.now.node }
        ensures exists { result < self.now.nodes }
    {
        self.node
    }

    /// The epoch of the area that begins with it.
    pub fn epoch(&self) -> u64
        ensures value { result ≡ self.now.epoch }
        ensures from_one { 1 ≤ result }
    {
        self.epoch
    }

    /// The number of the node's next fact.
    pub fn next(&self) -> u64
        ensures { result ≡ self.now.next }
    {
        self.next
    }

    /// What the node's facts before promise.
    pub fn promise(&self) -> &Promise
        ensures { result.now ≡ self.now.entries }
    {
        &self.promise
    }

    /// What the node's facts before promise, as the promise that the snapshot was made of.
    pub fn into_promise(self) -> Promise
        ensures { result ≡ self.entries }
    {
        let Snapshot {
            nodes: _,
            node: _,
            epoch: _,
            next: _,
            promise,
        } = self;
        promise
    }
}

#[tactic(auto, unfolding(crate::specs::SnapshotFormat::proposal_at))]
fn read_proposal(
    version: Version,
    may_stand: bool,
    reader: &mut Reader<'_>,
) -> Result<Option<Command>, Fault>
    ensures { Gives result reader.new (proposal_at version may_stand reader.old) }
{
    made_of!(Op);
    let here = reader.fault();
    let flag = reader.u8()?;
    if flag == 0 {
        return Ok(None);
    }
    if flag > 1 || !may_stand {
        return Err(here);
    }
    let command = read_command(version, reader)?;
    Ok(Some(command))
}

#[tactic(auto, unfolding(crate::specs::SnapshotFormat::open_at))]
fn read_open(
    version: Version,
    nodes: Nodes,
    node: NodeId,
    reader: &mut Reader<'_>,
) -> Result<OpenStanding, Fault>
    ensures { Gives result reader.new (open_at version nodes node reader.old) }
{
    made_of!(Op);
    let round = reader.round()?;
    let here = reader.fault();
    let stamp = reader.u32()?;
    if stamp > round.number() {
        return Err(here);
    }
    let estimate = read_command(version, reader)?;
    let coordinates = coordinator(round, nodes).index() == node.index();
    let proposal = read_proposal(version, coordinates, reader)?;
    match OpenStanding::new(round, stamp, estimate, proposal) {
        Some(open) => Ok(open),
        None => Err(here),
    }
}

#[tactic(auto, unfolding(crate::specs::SnapshotFormat::standing_at))]
fn read_standing(
    version: Version,
    nodes: Nodes,
    node: NodeId,
    reader: &mut Reader<'_>,
) -> Result<Standing, Fault>
    ensures { Gives result reader.new (standing_at version nodes node reader.old) }
{
    made_of!(Command, Op);
    let here = reader.fault();
    let kind = reader.u8()?;
    match kind {
        1 => {
            let command = read_command(version, reader)?;
            Ok(Standing::Decided(command))
        }
        2 => {
            let open = read_open(version, nodes, node, reader)?;
            Ok(Standing::Open(open))
        }
        _ => Err(here),
    }
}

#[tactic(auto, unfolding(crate::specs::SnapshotFormat::entry_at))]
pub(crate) fn read_entry(
    version: Version,
    nodes: Nodes,
    node: NodeId,
    low: u32,
    reader: &mut Reader<'_>,
) -> Result<Entry, Fault>
    ensures { Gives result reader.new (entry_at version nodes node low reader.old) }
{
    made_of!(Command, Op);
    let here = reader.fault();
    let number = reader.u32()?;
    if number < low || number >= version.instances() {
        return Err(here);
    }
    match Instance::new(number) {
        Some(instance) => {
            let standing = read_standing(version, nodes, node, reader)?;
            Ok(Entry { instance, standing })
        }
        None => Err(here),
    }
}

fn read_entries(
    alloc: Global,
    version: Version,
    nodes: Nodes,
    node: NodeId,
    count: u32,
    reader: &mut Reader<'_>,
) -> Result<Vec<Kept>, Stop>
    ensures { Reads (λ v. v.items) result reader.new (entries_at version nodes node 0 count reader.old) }
{
    made_of!(Command, Op, Standing);
    let mut entries = Vec::new(alloc);
    let mut low = 0;
    for _ in 0..count {
        let entry = read_entry(version, nodes, node, low, reader)?;
        low = entry.instance.number() + 1;
        let kept = Kept::new(alloc, entry.instance, &entry.standing)?;
        entries.push(kept)?;
    }
    Ok(entries)
}

#[tactic(auto, unfolding(crate::specs::SnapshotFormat::owner_at))]
pub(crate) fn read_owner(reader: &mut Reader<'_>) -> Result<(Version, NodeId, Nodes), Fault>
    ensures read { Gives result reader.new (owner_at reader.old) }
    ensures exists { IfOk result (λ x. x.1 < x.2) }
{
    let version = read_version(reader)?;
    let here = reader.fault();
    let index = reader.u8()?;
    let Some(node) = NodeId::at(index) else {
        return Err(here);
    };
    let here = reader.fault();
    let count = reader.u8()?;
    if count <= index {
        return Err(here);
    }
    match Nodes::new(count) {
        Ok(nodes) => Ok((version, node, nodes)),
        Err(_) => Err(here),
    }
}

/// The next fact number and the entries.
fn read_contents(
    alloc: Global,
    version: Version,
    nodes: Nodes,
    node: NodeId,
    reader: &mut Reader<'_>,
) -> Result<(u64, Vec<Kept>), Stop>
    ensures read { Reads (λ x. (x.0, x.1.items)) result reader.new (contents_at version nodes node reader.old) }
    ensures lawful { IfOk result (λ x. IsContents nodes node x.0 x.1.items) }
{
    read_next_and_entries(alloc, version, nodes, node, reader)
}

#[tactic(auto, unfolding(crate::specs::SnapshotFormat::contents_at))]
fn read_next_and_entries(
    alloc: Global,
    version: Version,
    nodes: Nodes,
    node: NodeId,
    reader: &mut Reader<'_>,
) -> Result<(u64, Vec<Kept>), Stop>
    ensures { Reads (λ x. (x.0, x.1.items)) result reader.new (contents_at version nodes node reader.old) }
{
    let next = reader.u64()?;
    let here = reader.fault();
    let count = reader.u32()?;
    if count > 0 && next == 0 {
        return Err(Stop::Malformed(here));
    }
    match read_entries(alloc, version, nodes, node, count, reader) {
        Ok(entries) => Ok((next, entries)),
        Err(stop) => Err(stop),
    }
}

/// Reads a snapshot, and the version that it is spelled in. A fault is the first field that is cut short or holds no lawful value.
#[tactic(auto, unfolding(crate::specs::SnapshotFormat::snapshot_at))]
pub fn read_snapshot(alloc: Global, reader: &mut Reader<'_>) -> Result<(Version, Snapshot), Stop>
    ensures { Reads (λ x. x) result reader.new (snapshot_at reader.old) }
{
    let (version, node, nodes) = read_owner(reader)?;
    let here = reader.fault();
    let epoch = reader.u64()?;
    if epoch == 0 {
        return Err(Stop::Malformed(here));
    }
    match read_contents(alloc, version, nodes, node, reader) {
        Ok((next, entries)) => {
            let promise = Promise::new(entries);
            Ok((
                version,
                Snapshot {
                    nodes,
                    node,
                    epoch,
                    next,
                    promise,
                },
            ))
        }
        Err(stop) => Err(stop),
    }
}

fn put_proposal(out: &mut Vec<u8>, proposal: &Option<Command>) -> Result<(), AllocError>
    ensures ok { OnOk result (out.new.items ≡ out.old.items ++ proposal_bytes proposal.now) }
    ensures lawful { OnOk result (IfSome proposal.now IsLawfulCommand) }
{
    match proposal {
        None => {
            put_u8(out, 0)?;
            Ok(())
        }
        Some(command) => {
            put_u8(out, 1)?;
            put_command(out, command)?;
            Ok(())
        }
    }
}

#[tactic(auto, unfolding(crate::specs::SnapshotFormat::open_bytes))]
fn put_open(out: &mut Vec<u8>, standing: &OpenStanding) -> Result<(), AllocError>
    ensures ok { OnOk result (out.new.items ≡ out.old.items ++ open_bytes standing.now) }
    ensures lawful { OnOk result ((n p : ℕ) → IsTrue (proposes_lawfully n p (Standing.Open standing.now)) → IsLawfulOpen n p standing.now) }
{
    put_u32(out, standing.round().number())?;
    put_u32(out, standing.stamp())?;
    put_command(out, &standing.estimate())?;
    put_proposal(out, &standing.proposal())?;
    Ok(())
}

#[tactic(auto, unfolding(crate::specs::SnapshotFormat::standing_bytes, crate::specs::SnapshotFormat::entry_bytes))]
fn put_entry(out: &mut Vec<u8>, entry: &Kept) -> Result<(), AllocError>
    ensures ok { OnOk result (out.new.items ≡ out.old.items ++ entry_bytes entry.now) }
    ensures lawful { OnOk result (IsSpellable entry.now) }
{
    put_u32(out, entry.instance.number())?;
    if let Some(open) = entry.open() {
        put_u8(out, 2)?;
        put_open(out, open)?;
        return Ok(());
    }
    match entry.decision() {
        Some(command) => {
            put_u8(out, 1)?;
            put_command(out, command)?;
            Ok(())
        }
        None => unreachable!(),
    }
}

fn put_entries(out: &mut Vec<u8>, entries: &[Kept]) -> Result<(), AllocError>
    ensures ok { OnOk result (out.new.items ≡ out.old.items ++ flat_map entry_bytes entries.now) }
    ensures lawful { OnOk result (AllByRecursion IsSpellable entries.now) }
{
    for entry in entries {
        put_entry(out, entry)?;
    }
    Ok(())
}

#[tactic(auto, unfolding(crate::specs::SnapshotFormat::contents_bytes))]
fn put_contents(out: &mut Vec<u8>, next: u64, entries: &[Kept]) -> Result<(), AllocError>
    requires { length entries.now < 2 ^ 32 }
    ensures ok { OnOk result (out.new.items ≡ out.old.items ++ contents_bytes next entries.now) }
    ensures lawful { OnOk result (AllByRecursion IsSpellable entries.now) }
{
    put_u64(out, next)?;
    put_u32(out, entries.len() as u32)?;
    put_entries(out, entries)?;
    Ok(())
}

#[tactic(auto, unfolding(crate::specs::SnapshotFormat::owner_bytes, crate::specs::SnapshotFormat::snapshot_bytes_in))]
fn put_snapshot(out: &mut Vec<u8>, snapshot: &Snapshot) -> Result<(), AllocError>
    requires { length snapshot.now.entries < 2 ^ 32 }
    ensures ok { OnOk result (out.new.items ≡ out.old.items ++ snapshot_bytes snapshot.now) }
    ensures lawful { OnOk result (IsLawfulSnapshot snapshot.now) }
{
    let entries = snapshot.promise.entries();
    put_u8(out, Version::Two.number())?;
    put_u8(out, snapshot.node.index())?;
    put_u8(out, snapshot.nodes.count())?;
    put_u64(out, snapshot.epoch)?;
    put_contents(out, snapshot.next, entries)?;
    Ok(())
}

/// The one spelling of a snapshot, in version 2. It is `TooLarge` where the number of its entries has no four bytes.
pub fn encode_snapshot(alloc: Global, snapshot: &Snapshot) -> Result<Vec<u8>, Refusal>
    ensures ok { IfOk result (λ v. v.items ≡ snapshot_bytes snapshot.now) }
    ensures lawful { OnOk result (IsLawfulSnapshot snapshot.now) }
    ensures err { IfErr result (λ e. (e ≡ Refusal.OutOfMemory) ⊎ ((e ≡ Refusal.TooLarge) × (2 ^ 32 ≤ length snapshot.now.entries))) }
{
    if snapshot.promise().entries().len() > u32::MAX as usize {
        return Err(Refusal::TooLarge);
    }
    let mut out = Vec::new(alloc);
    match put_snapshot(&mut out, snapshot) {
        Ok(()) => Ok(out),
        Err(_) => Err(Refusal::OutOfMemory),
    }
}

#[tactic(auto, unfolding(crate::specs::SnapshotFormat::snapshot_in))]
fn read_whole(alloc: Global, bytes: &[u8]) -> Result<(Version, Snapshot), Refusal>
    ensures { Decodes result (snapshot_in bytes.now) }
{
    let mut reader = Reader::new(bytes);
    match read_snapshot(alloc, &mut reader) {
        Err(stop) => Err(stop.refusal(bytes.len())),
        Ok(_) if reader.left() > 0 => Err(reader.fault().refusal(bytes.len())),
        Ok(snapshot) => Ok(snapshot),
    }
}

/// The snapshot that all these bytes spell, and the version in which they do. Other bytes are `Malformed` at the first byte of the first
/// field that is cut short or holds no lawful value, or at the first byte behind the snapshot.
pub fn decode_snapshot(alloc: Global, bytes: &[u8]) -> Result<(Version, Snapshot), Refusal>
    // What is read is spelled so.
    ensures found { IfOk result (λ x. IsLawfulSnapshotIn x.0 x.1 × (bytes.now ≡ snapshot_bytes_in x.0 x.1)) }
    // What is spelled so is read, unless memory runs out.
    ensures only { (version : Versioned) (s : Snapped) → IsLawfulSnapshotIn version s → bytes.now ≡ snapshot_bytes_in version s → Decodes result (Ok (version, s)) }
    // Which answer it is, unless memory runs out.
    ensures exact { Decodes result (snapshot_in bytes.now) }
{
    read_whole(alloc, bytes)
}
