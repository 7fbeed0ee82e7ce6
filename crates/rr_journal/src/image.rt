//! What the two areas of a disk mean.

ghost use Rattle.std.specs.Prelude.{◌≡◌, ◌≤◌, length, drop, IfOk, IfErr};
ghost use Rattle.rr_journal.specs.Image.{is_formatted, front_of, content_behind, active, found};
ghost use Rattle.rr_journal.specs.Ends.{IsFront, Finds, area_number};
ghost use Rattle.rr_journal.specs.Choices.{beginning_of, beginning_with, choice_by, found_alone, found_chosen};

use crate::content::{Content, Halt, OPEN_GATE, frame_behind, read_groups};
use rr_disk::Area;
use rr_frame::{Heading, Version, decode_snapshot, snapshot_heading};
use rr_types::{Command, NodeId, Nodes, Op, Refusal, Standing, made_of};
use std::alloc::{AllocError, Global};

/// The first frame of an area.
#[derive(Debug, Drop)]
pub enum Front {
    /// The area isn't formatted.
    Blank,
    /// An open gate stands before bytes that are no snapshot of this node.
    Faulty,
    /// A snapshot of this version, with which this content begins.
    Begins(Version, Content),
}

/// What is told of the first frame of an area whose content isn't kept.
#[derive(Clone, Copy, Debug)]
pub enum Beginning {
    /// The area isn't formatted.
    Blank,
    /// An open gate stands before bytes that are no snapshot of this node.
    Faulty,
    /// A snapshot of this epoch.
    Epoch(u64),
}

/// What two areas are by their first frames.
#[derive(Clone, Copy, Debug)]
pub enum Choice {
    /// No area is formatted.
    Unformatted,
    /// This area is broken at its start.
    Broken(Area),
    /// This area is active, unless it is broken at its start where the other one isn't formatted.
    Active(Area),
}

/// What the two areas mean, where no fault is found.
#[derive(Debug, Drop)]
pub enum Image {
    /// No area is formatted.
    Unformatted,
    /// This area is active.
    Active(Area, Content),
    /// This area is active, and of version 1.
    Outdated(Area, Content),
}

/// The first frame of an area of these bytes.
fn front_of(alloc: Global, nodes: Nodes, node: NodeId, bytes: &[u8]) -> Result<Front, AllocError>
    ensures { IfOk result (λ f. IsFront bytes.now f (front_of nodes node bytes.now)) }
{
    made_of!(Command, Op, Standing);
    if bytes.len() < 2 || bytes[0] != OPEN_GATE {
        return Ok(Front::Blank);
    }
    let Some((payload, _)) = frame_behind(&bytes[1..]) else {
        return Ok(Front::Faulty);
    };
    let (version, snapshot) = match decode_snapshot(alloc, payload) {
        Ok(read) => read,
        Err(Refusal::OutOfMemory) => return Err(AllocError),
        Err(_) => return Ok(Front::Faulty),
    };
    if snapshot.node().index() != node.index() || snapshot.nodes().count() != nodes.count() {
        return Ok(Front::Faulty);
    }
    let epoch = snapshot.epoch();
    let next = snapshot.next();
    let gate = 5 + payload.len() as u64;
    let content = Content::new(epoch, snapshot.into_promise(), next, gate);
    Ok(Front::Begins(version, content))
}

/// The area with this number is broken at an offset.
pub(crate) fn broken(area: Area, offset: u64) -> Refusal
    ensures { result ≡ Refusal.Damaged (area_number area) offset }
{
    match area {
        Area::First => Refusal::Damaged { area: 0, offset },
        Area::Second => Refusal::Damaged { area: 1, offset },
    }
}

/// An active area of this version whose content begins so.
#[tactic(auto, unfolding(crate::specs::Image::content_behind))]
fn active(
    alloc: Global,
    nodes: Nodes,
    node: NodeId,
    area: Area,
    version: Version,
    content: Content,
    bytes: &[u8],
) -> Result<Image, Refusal>
    requires { content.gate ≤ length bytes.now }
    ensures { Finds result (active version area (content_behind version nodes node content (drop content.gate bytes.now))) }
{
    let gate = content.gate() as usize;
    let (_, rest) = bytes.split_at(gate);
    match read_groups(alloc, version, nodes, node, content, rest) {
        Ok(content) => match version {
            Version::One => Ok(Image::Outdated(area, content)),
            Version::Two => Ok(Image::Active(area, content)),
        },
        Err(Halt::OutOfMemory) => Err(Refusal::OutOfMemory),
        Err(Halt::Broken(offset)) => Err(broken(area, offset)),
    }
}

/// What is told of a whole first frame, of a snapshot with this heading or of none.
fn beginning_with(nodes: Nodes, node: NodeId, heading: Option<Heading>) -> Beginning
    ensures { result ≡ beginning_with nodes node heading }
{
    match heading {
        None => Beginning::Faulty,
        Some(heading) => {
            if heading.node.index() == node.index() && heading.nodes.count() == nodes.count() {
                Beginning::Epoch(heading.epoch)
            } else {
                Beginning::Faulty
            }
        }
    }
}

/// What is told of the first frame of an area of these bytes.
fn beginning_of(nodes: Nodes, node: NodeId, bytes: &[u8]) -> Beginning
    ensures { result ≡ beginning_of (front_of nodes node bytes.now) }
{
    if bytes.len() <= 1 || bytes[0] != OPEN_GATE {
        return Beginning::Blank;
    }
    let Some((payload, _)) = frame_behind(&bytes[1..]) else {
        return Beginning::Faulty;
    };
    beginning_with(nodes, node, snapshot_heading(payload))
}

/// What two areas are that begin so: the formatted one of the greatest epoch is active.
fn choose(first: Beginning, second: Beginning) -> Choice
    ensures { result ≡ choice_by first second }
{
    match first {
        Beginning::Faulty => Choice::Broken(Area::First),
        Beginning::Blank => match second {
            Beginning::Faulty => Choice::Broken(Area::Second),
            Beginning::Blank => Choice::Unformatted,
            Beginning::Epoch(_) => Choice::Active(Area::Second),
        },
        Beginning::Epoch(epoch) => match second {
            Beginning::Faulty => Choice::Broken(Area::Second),
            Beginning::Blank => Choice::Active(Area::First),
            Beginning::Epoch(other) => {
                if epoch == other {
                    Choice::Broken(Area::Second)
                } else if other < epoch {
                    Choice::Active(Area::First)
                } else {
                    Choice::Active(Area::Second)
                }
            }
        },
    }
}

/// Whether an area of these bytes is formatted.
fn is_formatted(bytes: &[u8]) -> bool
    ensures { result ≡ is_formatted bytes.now }
{
    bytes.len() > 1 && bytes[0] == OPEN_GATE
}

/// What the first frames of both areas make of them. Where one area alone is formatted, its frame is judged as it is read.
fn chosen(nodes: Nodes, node: NodeId, first: &[u8], second: &[u8]) -> Choice
    ensures { found nodes node first.now second.now ≡ found_chosen nodes node (front_of nodes node first.now) (front_of nodes node second.now) result }
{
    if !is_formatted(second) {
        return Choice::Active(Area::First);
    }
    if !is_formatted(first) {
        return Choice::Active(Area::Second);
    }
    let first = beginning_of(nodes, node, first);
    let second = beginning_of(nodes, node, second);
    choose(first, second)
}

/// What an area of these bytes stands for where the other one is of no account.
fn read_area(
    alloc: Global,
    nodes: Nodes,
    node: NodeId,
    area: Area,
    bytes: &[u8],
) -> Result<Image, Refusal>
    ensures { Finds result (found_alone nodes node area (front_of nodes node bytes.now)) }
{
    match front_of(alloc, nodes, node, bytes) {
        Err(_) => Err(Refusal::OutOfMemory),
        Ok(Front::Blank) => Ok(Image::Unformatted),
        Ok(Front::Faulty) => Err(broken(area, 0)),
        Ok(Front::Begins(version, content)) => {
            active(alloc, nodes, node, area, version, content, bytes)
        }
    }
}

/// What the two areas of a node mean.
///
/// # Errors
/// `OutOfMemory`; `Damaged` at the open gate that stands before bytes that are no lawful frame there.
pub fn read_image(
    alloc: Global,
    nodes: Nodes,
    node: NodeId,
    first: &[u8],
    second: &[u8],
) -> Result<Image, Refusal>
    ensures { Finds result (found nodes node first.now second.now) }
{
    match chosen(nodes, node, first, second) {
        Choice::Unformatted => Ok(Image::Unformatted),
        Choice::Broken(area) => Err(broken(area, 0)),
        Choice::Active(Area::First) => read_area(alloc, nodes, node, Area::First, first),
        Choice::Active(Area::Second) => read_area(alloc, nodes, node, Area::Second, second),
    }
}

/// Gives bytes back. Their block shrinks before it is freed: then the C library returns it to the system, and goes on doing so. It
/// would keep later blocks of its size in its heap, where a vector that grows leaves its old places behind.
fn give_back(bytes: Vec<u8>) {
    let mut bytes = bytes;
    bytes.truncate(1);
    bytes.shrink_to_fit();
}

/// The same of bytes that the caller needs no longer. Those of the area that isn't active are given back before the
/// content of the other is read.
///
/// # Errors
/// As of `read_image`.
pub fn take_image(
    alloc: Global,
    nodes: Nodes,
    node: NodeId,
    first: Vec<u8>,
    second: Vec<u8>,
) -> Result<Image, Refusal>
    ensures { Finds result (found nodes node first.items second.items) }
{
    match chosen(nodes, node, &first, &second) {
        Choice::Unformatted => Ok(Image::Unformatted),
        Choice::Broken(area) => Err(broken(area, 0)),
        Choice::Active(Area::First) => {
            give_back(second);
            read_area(alloc, nodes, node, Area::First, &first)
        }
        Choice::Active(Area::Second) => {
            give_back(first);
            read_area(alloc, nodes, node, Area::Second, &second)
        }
    }
}
