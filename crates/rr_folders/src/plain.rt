//! Only plain files are opened, and folders. An opening of a pipe may wait for ever, what a device gives may have no end, and a link may
//! lead to somebody's file. A folder may be reached by a link.

ghost use Rattle.std.specs.Prelude.{◌≡◌, ◌⊎◌, IfErr};
ghost use Rattle.rr_types.specs.declared.refusal.Refusal.TheVariants.{Device, OutOfMemory};

use crate::closed::{Closed, failed};
use rr_disk::{FileDisk, OpenedFile};
use rr_types::Refusal;
use std::fs::{OpenFile, OpenOptions};
use std::io::{ErrorKind, Read, Seek, Write};
use std::os::unix::fs::FileExt;
use std::rt::Files;
use std::{fs, io};

/// Sees that there is a plain file at a path, which is then no link.
///
/// # Errors
/// `InvalidInput`, where there is something else; `NotFound`, where there is nothing; those of the system.
pub fn see_plain<R: Files>(rt: &R, path: &str) -> io::Result<()> {
    if fs::symlink_metadata(rt, path)?.is_file() {
        Ok(())
    } else {
        Err(io::Error::new(ErrorKind::InvalidInput, "not a plain file"))
    }
}

/// Whether there is a plain file at a path. Anything else that is there is refused by name.
pub(crate) fn is_plain<R: Files + AllocGlobal>(rt: &R, path: &str) -> Result<bool, Closed> {
    match see_plain(rt, path) {
        Ok(()) => Ok(true),
        Err(error) if error.kind() == ErrorKind::NotFound => Ok(false),
        Err(error) => Err(failed(rt, path, "looking", error)),
    }
}

/// Sees that the file of request numbers in the folder DIR is a plain one, if it is there.
pub(crate) fn see_requests<R: Files + AllocGlobal>(rt: &R, dir: &str) -> Result<(), Closed> {
    let _ = is_plain(rt, format!(in rt.alloc(); "{dir}/requests")?.as_str())?;
    Ok(())
}

/// Opens a folder. What isn't one is refused, and not opened.
pub(crate) fn open_folder<R: Files + AllocGlobal>(rt: &R, path: &str) -> io::Result<R::File> {
    let inside = format!(in rt.alloc(); "{path}/.")?;
    fs::open(rt, inside.as_str())
}

/// Makes a file for a moment, in place of one that an earlier attempt left. No link is followed, and no file that is there is written.
pub(crate) fn make_fresh<R: Files>(rt: &R, path: &str) -> io::Result<R::File> {
    match see_plain(rt, path) {
        Ok(()) => fs::remove_file(rt, path)?,
        Err(error) if error.kind() == ErrorKind::NotFound => (),
        Err(error) => return Err(error),
    }
    let mut options = OpenOptions::new();
    let _ = options.write(true).create_new(true);
    options.open(rt, path)
}

/// Sees that the files `a0` and `a1` of a folder are plain.
pub(crate) fn see_areas<R: Files + AllocGlobal>(rt: &R, folder: &str) -> Result<(), Refusal>
    ensures cause { IfErr result (λ e. (e ≡ OutOfMemory) ⊎ (e ≡ Device)) }
{
    for area in 0..2u8 {
        let path = format!(in rt.alloc(); "{folder}/a{area}")?;
        if see_plain(rt, path.as_str()).is_err() {
            return Err(Refusal::Device);
        }
    }
    Ok(())
}

/// The disk of the files `a0` and `a1` of a folder, opened to read alone.
///
/// # Errors
/// `OutOfMemory`; `Device` where a file is missing, isn't plain, or can't be opened to read.
pub fn read_only_disk<
    F: Read + Write + Seek + FileExt + OpenFile + Drop,
    R: Files<File = F> + AllocGlobal,
>(rt: &R, folder: &str) -> Result<FileDisk<OpenedFile<F>>, Refusal>
    ensures cause { IfErr result (λ e. (e ≡ OutOfMemory) ⊎ (e ≡ Device)) }
{
    see_areas(rt, folder)?;
    FileDisk::open_read_only(rt, folder)
}
