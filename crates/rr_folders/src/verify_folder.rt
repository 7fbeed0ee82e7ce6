//! What is read of a node's folder.

ghost use Rattle.std.specs.Prelude.{◌≡◌, ◌⊎◌, ◌^◌, ◌<◌, ℕ, List, length, IfOk};
ghost use Rattle.rr_types.specs.declared.refusal.Refusal.TheVariants.{Device};
ghost use Rattle.rr_disk.specs.Areas.{bytes_of};
ghost use Rattle.rr_journal.specs.Image.{found};
ghost use Rattle.rr_folders.specs.Folders.{newer, holding, by_owner, reading_of};
ghost use Rattle.rr_folders.specs.declared.verify_folder.Reading.TheVariants.{Refused};

use rr_disk::{Area, Disk};
use rr_frame::Version;
use rr_journal::{AreaReport, Content, Image, inspect_bytes, read_image};
use rr_types::{Command, NodeId, Nodes, Op, Promise, Refusal, Standing, made_of};
use std::alloc::{AllocError, Global};

/// What the areas of a folder hold, as the node reads them that they name.
#[derive(Debug, Drop)]
pub struct Folder {
    /// The version of the active area.
    pub version: Version,
    /// How many nodes there are, by the folder.
    pub nodes: Nodes,
    /// The node that it is of.
    pub node: NodeId,
    /// How many facts it has.
    pub facts: u64,
    /// Where each instance stands by them.
    pub promise: Promise,
}

/// What was read of a folder.
#[derive(Debug, Drop)]
pub enum Reading {
    /// The facts of a node.
    Facts(Folder),
    /// Neither area is formatted.
    Blank,
    /// It can't be read (`Device`), or is damaged (`Damaged`).
    Refused(Refusal),
}

// The report on the area of the greater epoch.
fn newer(first: Option<AreaReport>, second: Option<AreaReport>) -> Option<AreaReport>
    ensures { result ≡ newer first second }
{
    match (first, second) {
        (None, other) => other,
        (Some(one), None) => Some(one),
        (Some(one), Some(other)) if one.epoch < other.epoch => Some(other),
        (Some(one), Some(_)) => Some(one),
    }
}

// A folder with this active area, which the report names the node of.
fn holding(report: &AreaReport, version: Version, content: Content) -> Reading
    ensures { result ≡ holding report.now version content }
{
    let facts = content.next();
    Reading::Facts(Folder {
        version,
        nodes: report.nodes,
        node: report.node,
        facts,
        promise: content.into_promise(),
    })
}

// What the node finds in both areas that the report names.
fn read_as_owner(
    alloc: Global,
    report: &AreaReport,
    first: &[u8],
    second: &[u8],
) -> Result<Reading, AllocError>
    ensures { IfOk result (λ r. r ≡ by_owner report.now (found report.now.nodes report.now.node first.now second.now)) }
{
    made_of!(Command, Op, Standing);
    match read_image(alloc, report.nodes, report.node, first, second) {
        Ok(Image::Unformatted) => Ok(Reading::Blank),
        Ok(Image::Active(_, content)) => Ok(holding(report, Version::Two, content)),
        Ok(Image::Outdated(_, content)) => Ok(holding(report, Version::One, content)),
        Err(Refusal::OutOfMemory) => Err(AllocError),
        Err(refusal) => Ok(Reading::Refused(refusal)),
    }
}

/// What is read of a folder with areas of these bytes. It is what the node finds there that the newer area names.
///
/// # Errors
/// Memory alone.
pub fn read_areas(alloc: Global, first: &[u8], second: &[u8]) -> Result<Reading, AllocError>
    ensures { IfOk result (λ r. r ≡ reading_of first.now second.now) }
{
    match inspect_bytes(alloc, first, second) {
        Ok((one, other)) => match newer(one, other) {
            None => Ok(Reading::Blank),
            Some(report) => read_as_owner(alloc, &report, first, second),
        },
        Err(Refusal::OutOfMemory) => Err(AllocError),
        Err(refusal) => Ok(Reading::Refused(refusal)),
    }
}

/// What is read of the disk in a folder, by one read of each area. Nothing is written.
///
/// # Errors
/// Memory alone.
pub fn read_disk<D: Disk>(alloc: Global, disk: &mut D) -> Result<Reading, AllocError>
    ensures told { D.tells disk.old → length (D.areas disk.old).first.cells < 2 ^ 64 → length (D.areas disk.old).second.cells < 2 ^ 64
        → IfOk result (λ r. (r ≡ reading_of (bytes_of (D.areas disk.old).first) (bytes_of (D.areas disk.old).second)) ⊎ (r ≡ Refused Device)) }
    ensures some { IfOk result (λ r. ((first : List ℕ) × (second : List ℕ) × (r ≡ reading_of first second)) ⊎ (r ≡ Refused Device)) }
    ensures same { D.tells disk.old → D.areas disk.new ≡ D.areas disk.old }
{
    let first = match disk.read(alloc, Area::First, 0, u64::MAX) {
        Ok(bytes) => bytes,
        Err(Refusal::OutOfMemory) => return Err(AllocError),
        Err(_) => return Ok(Reading::Refused(Refusal::Device)),
    };
    let second = match disk.read(alloc, Area::Second, 0, u64::MAX) {
        Ok(bytes) => bytes,
        Err(Refusal::OutOfMemory) => return Err(AllocError),
        Err(_) => return Ok(Reading::Refused(Refusal::Device)),
    };
    read_areas(alloc, first.as_slice(), second.as_slice())
}
