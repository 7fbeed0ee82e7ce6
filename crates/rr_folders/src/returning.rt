//! The folder of a node that starts again. By then it may be gone, another's, or an older copy: it is looked at as at an opening of its
//! cluster, and as far as the node left its disk.

ghost use Rattle.std.specs.Prelude.{◌≡◌, Some, IfOk};
ghost use Rattle.rr_folders.specs.Returns.{IsReturn};

use crate::closed::Closed;
use crate::cluster::{Course, Mark};
use crate::judging::{Fault, Owner, return_fault};
use crate::lock::{Held, Lockable, lock_at};
use crate::noted::{noted_in, noted_of};
use crate::opening::{NodeFiles, open_files};
use crate::reason::Reason;
use crate::seen::{Seen, is_there, look_over, mark_in, reached_by, with_note};
use crate::tip::Tip;
use std::alloc::{AllocError, Global};
use std::fs;
use std::fs::OpenFile;
use std::io::{ErrorKind, Read, Seek, Write};
use std::os::unix::fs::{FileExt, MetadataExt};
use std::rt::Files;
use std::sync::Arc;

/// Where a node's disk lies, and whose it is.
#[derive(Drop)]
pub struct Site {
    pub(crate) dir: String,
    pub(crate) folder: String,
    pub(crate) owner: Owner,
}

impl Site {
    /// The place of a node of a cluster in the folder DIR.
    pub(crate) fn new(alloc: Global, dir: &str, owner: Owner) -> Result<Site, AllocError> {
        let index = owner.node.index();
        Ok(Site {
            dir: format!(in alloc; "{dir}")?,
            folder: format!(in alloc; "{dir}/{index}")?,
            owner,
        })
    }
}

/// Which folder it is, among all of a system: as long as it is there, no other has these numbers.
#[derive(Clone, Copy, Debug)]
pub struct FolderId {
    device: u64,
    number: u64,
}

/// Which folder is at a path. None: there is none, or that can't be known.
pub(crate) fn folder_id<R: Files>(rt: &R, folder: &str) -> Option<FolderId> {
    match fs::metadata(rt, folder) {
        Ok(found) => Some(FolderId {
            device: found.dev(),
            number: found.ino(),
        }),
        Err(_) => None,
    }
}

/// Where a node's folder is that was opened.
#[derive(Clone, Copy, Debug)]
pub enum Whereabouts {
    /// In its place, with the node's mark.
    Home,
    /// Nothing is in its place.
    Removed,
    /// Another folder is in its place, or it has the node's mark no more.
    Replaced,
    /// That can't be known, as a call failed.
    Unknown,
}

// Whether a mark is a node's.
fn is_mark_of(mark: Option<Mark>, site: &Site) -> bool {
    match mark {
        Some(mark) => mark.identity.is(site.owner.identity) && mark.node == site.owner.node,
        None => false,
    }
}

// Where a folder is in whose place it is still, by the mark in it.
fn whereabouts_by<R: Files + AllocGlobal>(rt: &R, site: &Site) -> Whereabouts {
    let Ok(mark) = mark_in(rt, site.folder.as_str()) else {
        return Whereabouts::Unknown;
    };
    if is_mark_of(mark, site) {
        Whereabouts::Home
    } else {
        Whereabouts::Replaced
    }
}

/// Where a node's folder is, which was this one.
pub(crate) fn whereabouts_of<R: Files + AllocGlobal>(
    rt: &R,
    site: &Site,
    id: Option<FolderId>,
) -> Whereabouts {
    let Some(id) = id else {
        return Whereabouts::Unknown;
    };
    match fs::metadata(rt, site.folder.as_str()) {
        Ok(found) if found.dev() == id.device && found.ino() == id.number => {
            whereabouts_by(rt, site)
        }
        Ok(_) => Whereabouts::Replaced,
        Err(error) if error.kind() == ErrorKind::NotFound => Whereabouts::Removed,
        Err(_) => Whereabouts::Unknown,
    }
}

/// A node's folder that was locked, looked at and opened again.
#[derive(Drop)]
pub struct Entered<F> {
    pub(crate) lock: Held<F>,
    pub(crate) files: NodeFiles<F>,
    // its mark, and what is known of its active area then
    pub(crate) mark: Option<Mark>,
    pub(crate) known: Option<Tip>,
    pub(crate) id: Option<FolderId>,
}

// What is found of a node's folder, and of its active area, if the node may come back to it.
fn look_again<R: Files + AllocGlobal>(
    rt: &R,
    site: &Site,
    left: Option<Course>,
) -> Result<(Seen, Option<Tip>), Closed>
    ensures { IfOk result (λ _. IsReturn site.now.owner left) }
{
    let folder = site.folder.as_str();
    let noted = noted_in(rt, site.dir.as_str())?;
    let (seen, tip) = look_over(rt, folder)?;
    let reached = reached_by(rt, folder, &seen, left)?;
    let noted = noted_of(noted.as_slice(), site.owner.node.index());
    let seen = with_note(rt, folder, seen, noted)?;
    match return_fault(&site.owner, &seen.found, left, reached) {
        Some(fault) => Err(Closed::Refused(site.owner.node, fault)),
        None => Ok((seen, tip)),
    }
}

/// Locks a node's folder, looks at it, and opens its files: only if it is the node's, and its disk as far as the node left it. Nothing is made.
///
/// # Errors
/// `Refused`, where the folder may not be opened; `Unopened`, `InUse`, `Failed` or `OutOfMemory`.
pub(crate) fn enter_site<
    F: Read + Write + Seek + FileExt + OpenFile + Drop + Lockable,
    R: Files<File = F> + AllocGlobal,
>(
    rt: &R,
    site: &Site,
    left: Option<Course>,
    reason: Option<Arc<Reason, Global>>,
) -> Result<Entered<F>, Closed>
    ensures { IfOk result (λ _. IsReturn site.now.owner left) }
{
    let folder = site.folder.as_str();
    if !is_there(rt, folder)? {
        return Err(Closed::Refused(site.owner.node, Fault::Missing));
    }
    let lock = lock_at(rt, folder)?;
    let (seen, known) = look_again(rt, site, left)?;
    let files = open_files(rt, folder, site.owner.node, false, reason)?;
    Ok(Entered {
        lock,
        files,
        mark: seen.found.mark,
        known,
        id: folder_id(rt, folder),
    })
}
