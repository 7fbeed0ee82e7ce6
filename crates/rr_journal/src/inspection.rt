//! What the areas of a disk tell a reader.

ghost use Rattle.std.specs.Prelude.{◌≡◌, ◌⊎◌, ◌^◌, ◌<◌, ◌≤◌, length, drop, Err, IfOk, IfErr, OnOk};
ghost use Rattle.rr_types.specs.declared.refusal.Refusal.TheVariants.{OutOfMemory, Device};
ghost use Rattle.rr_types.specs.Promises.{decided_from};
ghost use Rattle.rr_disk.specs.Areas.{bytes_of};
ghost use Rattle.rr_types.specs.Counts.{counted, Grew};
ghost use Rattle.rr_journal.specs.Image.{Begins};
ghost use Rattle.rr_journal.specs.Inspect.{told, active, inspected_by, inspected, IsOwnFront, IsTold, IsDamage, Inspects};

use crate::content::{Content, Halt, OPEN_GATE, frame_behind, read_groups};
use crate::image::broken;
use rr_disk::{Area, Disk};
use rr_frame::{Version, decode_snapshot};
use rr_types::{Command, Kept, NodeId, Nodes, Op, Refusal, Standing, made_of};
use std::alloc::{AllocError, Global};

/// What is told of a formatted area.
#[derive(Clone, Copy, Debug, PartialEq, Eq)]
pub struct AreaReport {
    /// The version of its bytes.
    pub version: Version,
    /// Its epoch, from 1.
    pub epoch: u64,
    /// The node that its snapshot names.
    pub node: NodeId,
    /// How many nodes there are by its snapshot.
    pub nodes: Nodes,
    /// The number of the next fact.
    pub next: u64,
    /// How many instances have decided from 0 on without a gap.
    pub decided: u64,
}

/// A snapshot that an area begins with: whose it is, its version, and the content that begins with it.
#[derive(Debug, Drop)]
pub struct OwnContent {
    version: Version,
    nodes: Nodes,
    node: NodeId,
    content: Content,
}

/// The first frame of an area, as the node reads it that it names.
#[derive(Debug, Drop)]
pub enum OwnFront {
    /// The area isn't formatted.
    Blank,
    /// An open gate stands before bytes that are no snapshot.
    Faulty,
    /// A snapshot.
    Begins(OwnContent),
}

// The first frame of an area of these bytes.
fn own_front(alloc: Global, bytes: &[u8]) -> Result<OwnFront, AllocError>
    ensures { IfOk result (λ f. IsOwnFront bytes.now f) }
{
    made_of!(Command, Op, Standing);
    if bytes.len() < 2 || bytes[0] != OPEN_GATE {
        return Ok(OwnFront::Blank);
    }
    let Some((payload, _)) = frame_behind(&bytes[1..]) else {
        return Ok(OwnFront::Faulty);
    };
    let (version, snapshot) = match decode_snapshot(alloc, payload) {
        Ok(read) => read,
        Err(Refusal::OutOfMemory) => return Err(AllocError),
        Err(_) => return Ok(OwnFront::Faulty),
    };
    let nodes = snapshot.nodes();
    let node = snapshot.node();
    let epoch = snapshot.epoch();
    let next = snapshot.next();
    let gate = 5 + payload.len() as u64;
    let content = Content::new(epoch, snapshot.into_promise(), next, gate);
    Ok(OwnFront::Begins(OwnContent {
        version,
        nodes,
        node,
        content,
    }))
}

// How many instances these entries decide from 0 on without a gap.
fn decided_count(entries: &[Kept]) -> u64
    ensures { result ≡ length (decided_from 0 entries.now) }
{
    for (place, entry) in entries.iter().enumerate() {
        if entry.instance.number() as usize != place {
            return place as u64;
        }
        match entry.decision() {
            Some(_) => {}
            None => return place as u64,
        }
    }
    entries.len() as u64
}

// What is told of an area of this version and content.
fn report(version: Version, nodes: Nodes, node: NodeId, content: Content) -> AreaReport
    ensures { result ≡ told (record { nodes = nodes; node = node }) version content }
{
    let epoch = content.epoch();
    let next = content.next();
    let promise = content.into_promise();
    AreaReport {
        version,
        epoch,
        node,
        nodes,
        next,
        decided: decided_count(promise.entries()),
    }
}

// What an active area with these bytes tells, and with it what is told of the other area.
#[tactic(auto, unfolding(crate::specs::Image::content_behind))]
fn active(
    alloc: Global,
    area: Area,
    own: OwnContent,
    bytes: &[u8],
    other: Option<AreaReport>,
) -> Result<(Option<AreaReport>, Option<AreaReport>), Refusal>
    requires { own.content.gate ≤ length bytes.now }
    ensures { IsTold result (active area (record { nodes = own.nodes; node = own.node }) own.version own.content (drop own.content.gate bytes.now) other) }
{
    let OwnContent {
        version,
        nodes,
        node,
        content,
    } = own;
    let gate = content.gate() as usize;
    let (_, rest) = bytes.split_at(gate);
    match read_groups(alloc, version, nodes, node, content, rest) {
        Ok(content) => {
            let one = Some(report(version, nodes, node, content));
            match area {
                Area::First => Ok((one, other)),
                Area::Second => Ok((other, one)),
            }
        }
        Err(Halt::OutOfMemory) => Err(Refusal::OutOfMemory),
        Err(Halt::Broken(offset)) => Err(broken(area, offset)),
    }
}

/// What the bytes of both areas tell, of area 0 and of area 1; `None` where an area isn't formatted. Each is read
/// as the node that its own snapshot names reads it. All frames of the active area are read, which is the
/// formatted one of the greatest epoch; of the other only its snapshot is read.
///
/// # Errors
/// `OutOfMemory`; `Damaged` at the open gate that stands before bytes that are no lawful frame there, or at the
/// start of area 1 where both areas are formatted and have one epoch.
#[tactic(auto, unfolding(crate::specs::Inspect::inspected))]
pub fn inspect_bytes(
    alloc: Global,
    first: &[u8],
    second: &[u8],
) -> Result<(Option<AreaReport>, Option<AreaReport>), Refusal>
    ensures { IsTold result (inspected first.now second.now) }
{
    let front_1 = match own_front(alloc, first) {
        Ok(front) => front,
        Err(_) => return Err(Refusal::OutOfMemory),
    };
    let front_2 = match own_front(alloc, second) {
        Ok(front) => front,
        Err(_) => return Err(Refusal::OutOfMemory),
    };
    match front_1 {
        OwnFront::Faulty => Err(broken(Area::First, 0)),
        OwnFront::Blank => match front_2 {
            OwnFront::Faulty => Err(broken(Area::Second, 0)),
            OwnFront::Blank => Ok((None, None)),
            OwnFront::Begins(own) => active(alloc, Area::Second, own, second, None),
        },
        OwnFront::Begins(own) => match front_2 {
            OwnFront::Faulty => Err(broken(Area::Second, 0)),
            OwnFront::Blank => active(alloc, Area::First, own, first, None),
            OwnFront::Begins(other) => both(alloc, own, first, other, second),
        },
    }
}

// What both areas tell where both begin with a snapshot.
fn both(
    alloc: Global,
    one: OwnContent,
    first: &[u8],
    other: OwnContent,
    second: &[u8],
) -> Result<(Option<AreaReport>, Option<AreaReport>), Refusal>
    requires first { one.content.gate ≤ length first.now }
    requires second { other.content.gate ≤ length second.now }
    ensures { IsTold result (inspected_by (record { nodes = one.nodes; node = one.node }) (record { nodes = other.nodes; node = other.node })
        (Begins one.version one.content (drop one.content.gate first.now)) (Begins other.version other.content (drop other.content.gate second.now))) }
{
    if one.content.epoch() == other.content.epoch() {
        Err(broken(Area::Second, 0))
    } else if other.content.epoch() < one.content.epoch() {
        let OwnContent {
            version,
            nodes,
            node,
            content,
        } = other;
        let beside = report(version, nodes, node, content);
        active(alloc, Area::First, one, first, Some(beside))
    } else {
        let OwnContent {
            version,
            nodes,
            node,
            content,
        } = one;
        let beside = report(version, nodes, node, content);
        active(alloc, Area::Second, other, second, Some(beside))
    }
}

/// What the areas of a disk tell, by one read of each: see `inspect_bytes`. Nothing is written.
///
/// # Errors
/// `OutOfMemory`, `Device`; `Damaged` as from `inspect_bytes`.
pub fn inspect<D: Disk>(
    alloc: Global,
    disk: &mut D,
) -> Result<(Option<AreaReport>, Option<AreaReport>), Refusal>
    ensures exact { Inspects D.read_gives disk.old result disk.new }
    ensures told { D.tells disk.old → length (D.areas disk.old).first.cells < 2 ^ 64 → length (D.areas disk.old).second.cells < 2 ^ 64
        → IsTold result (inspected (bytes_of (D.areas disk.old).first) (bytes_of (D.areas disk.old).second)) ⊎ (result ≡ Err Device) }
    ensures cause { IfErr result (λ e. (e ≡ OutOfMemory) ⊎ ((e ≡ Device) × Grew (D.faults disk.old) (D.faults disk.new)) ⊎ IsDamage e) }
    ensures same { D.tells disk.old → D.areas disk.new ≡ D.areas disk.old }
    ensures calls { OnOk result (D.calls disk.new ≡ counted (counted (D.calls disk.old))) }
    ensures tells { D.tells disk.old → D.tells disk.new }
{
    let first = disk.read(alloc, Area::First, 0, u64::MAX)?;
    let second = disk.read(alloc, Area::Second, 0, u64::MAX)?;
    inspect_bytes(alloc, first.as_slice(), second.as_slice())
}
