//! The two files of a node's disk, opened in its folder. The call that fails is told.

ghost use Rattle.std.specs.Prelude.{◌≡◌};

use crate::closed::{Closed, done};
use crate::plain::is_plain;
use crate::reason::{Reason, ToldFile, shared};
use rr_disk::{Area, AreaFile, FileDisk, make_folder};
use rr_types::{NodeId, Refusal};
use std::alloc::Global;
use std::fs::{OpenFile, OpenOptions};
use std::io::{Read, Seek, Write};
use std::os::unix::fs::FileExt;
use std::rt::Files;
use std::sync::Arc;
use std::{fs, io};

/// A file of a node's disk that is open. No contract knows what it holds.
#[derive(Drop)]
pub struct NodeFile<F> {
    file: F,
}

impl<F: FileExt + OpenFile> AreaFile for NodeFile<F> {
    ghost gives = { λ _ _ _. Unit {0} };

    fn read_at(&mut self, at: u64, bytes: &mut [u8]) -> io::Result<()> {
        self.file.read_exact_at(bytes, at)
    }

    fn write_at(&mut self, at: u64, bytes: &[u8]) -> io::Result<()> {
        self.file.write_all_at(bytes, at)
    }

    fn sync(&mut self) -> io::Result<()> {
        self.file.sync_data()
    }

    fn length(&self) -> io::Result<u64> {
        Ok(self.file.metadata()?.len())
    }
}

/// The two files in a node's folder. Why a call on them failed is noted.
pub type NodeFiles<F> = FileDisk<ToldFile<NodeFile<F>>>;

// Opens the file of an area to read and write. It may be missing only where it is to be made. What is no plain file isn't opened.
fn open_area<R: Files + AllocGlobal>(
    rt: &R,
    folder: &str,
    area: u8,
    make: bool,
) -> Result<R::File, Closed> {
    let path = format!(in rt.alloc(); "{folder}/a{area}")?;
    let path = path.as_str();
    let is_there = is_plain(rt, path)?;
    let call = if make && !is_there {
        "making the file"
    } else {
        "opening"
    };
    let mut options = OpenOptions::new();
    let _ = options.read(true).write(true).create(make);
    done(rt, path, call, options.open(rt, path))
}

// Makes the names of new files last.
fn sync_names<R: Files + AllocGlobal>(rt: &R, folder: &str) -> Result<(), Closed> {
    let opened = done(rt, folder, "opening the folder", fs::open(rt, folder))?;
    done(rt, folder, "syncing the folder", opened.sync_all())
}

/// Opens the files `a0` and `a1` of the disk in a node's folder. Where `make` is true, the folder and the files are made if they are missing, and
/// their names last. Why a later call on them fails is noted.
///
/// # Errors
/// `Failed`, with the call that failed; `Unopened`, where a file doesn't tell its length; `OutOfMemory`.
pub(crate) fn open_files<
    F: Read + Write + Seek + FileExt + OpenFile + Drop,
    R: Files<File = F> + AllocGlobal,
>(
    rt: &R,
    folder: &str,
    node: NodeId,
    make: bool,
    reason: Option<Arc<Reason, Global>>,
) -> Result<NodeFiles<F>, Closed> {
    if make {
        done(rt, folder, "making the folder", make_folder(rt, folder))?;
    }
    let first = open_area(rt, folder, 0, make)?;
    let second = open_area(rt, folder, 1, make)?;
    if make {
        sync_names(rt, folder)?;
    }
    let other = shared(&reason)?;
    let first = ToldFile::new(NodeFile { file: first }, Area::First, reason);
    let second = ToldFile::new(NodeFile { file: second }, Area::Second, other);
    match FileDisk::over(first, second) {
        Ok(disk) => Ok(disk),
        Err(refusal) => Err(Closed::Unopened(node, refusal)),
    }
}

/// Why a disk in a folder wasn't opened or formatted: the call that failed, as it was noted.
pub(crate) fn unopened<R: AllocGlobal>(
    rt: &R,
    folder: &str,
    node: NodeId,
    refusal: Refusal,
    reason: &Option<Arc<Reason, Global>>,
) -> Closed {
    if refusal == Refusal::Device {
        if let Some(reason) = reason {
            if let Some(closed) = reason.closed(rt, folder) {
                return closed;
            }
        }
    }
    Closed::Unopened(node, refusal)
}
