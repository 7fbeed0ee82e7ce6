//! What is wrong with a node's folder, told to people.

ghost use Rattle.std.specs.Prelude.{◌≡◌, None, IfSome};
ghost use Rattle.rr_cli.specs.Ends.{IsStreamStatus};
ghost use Rattle.rr_cli.specs.Refusals.{status_of};

use crate::refusals::end_by_refusal;
use rr_folders::{Closed, print_closed, see_plain};
use rr_types::Refusal;
use std::io::{ErrorKind, Read, Seek, SeekFrom, Write};
use std::rt::Files;
use std::{fs, io};

/// How many bytes are told of a damaged place, at most.
const TOLD_BYTES: usize = 16;

// Ends by the refusal of a node's folder. A second line tells people what is wrong there.
pub(crate) fn end_by_folder_fault<R: Files + AllocGlobal, E: Write>(
    rt: &R,
    err: &mut E,
    folder: &str,
    refusal: &Refusal,
) -> u8
    ensures { result ≡ status_of refusal.now }
{
    let ending = end_by_refusal(err, refusal);
    let _ = print_folder_fault(rt, err, folder, refusal);
    ending
}

/// Ends because folders couldn't be locked. A second line tells people which it is and why.
pub fn end_by_unlocked<E: Write>(err: &mut E, closed: &Closed) -> u8
    ensures { IsStreamStatus result }
{
    match closed {
        Closed::OutOfMemory => end_by_refusal(err, &Refusal::OutOfMemory),
        _ => {
            let ending = end_by_refusal(err, &Refusal::Device);
            let _ = print_closed(err, closed);
            ending
        }
    }
}

/// Ends where there is no folder of a name, and tells people so. None: there is one, or that can't be known.
pub(crate) fn end_without_such<R: Files, E: Write>(rt: &R, err: &mut E, folder: &str) -> Option<u8>
    ensures status { IfSome result IsStreamStatus }
    ensures quiet { result ≡ None → E.contents err.new ≡ E.contents err.old }
{
    match fs::metadata(rt, folder) {
        Err(error) if error.kind() == ErrorKind::NotFound => {
            let status = end_by_refusal(err, &Refusal::Device);
            let _ = writeln!(err, "{folder}: there is no folder of this name");
            Some(status)
        }
        _ => None,
    }
}

/// Prints what is wrong in a node's folder, by the refusal of its disk.
///
/// # Errors
/// Those of the writer.
pub fn print_folder_fault<R: Files + AllocGlobal, W: Write>(
    rt: &R,
    err: &mut W,
    folder: &str,
    refusal: &Refusal,
) -> io::Result<()> {
    match refusal {
        Refusal::Damaged { area, offset } => print_damage(rt, err, folder, *area, *offset),
        Refusal::TooLarge => writeln!(err, "{folder}: an area of version 1 has no next epoch"),
        Refusal::OutOfMemory => Ok(()),
        _ => print_closed_file(rt, err, folder),
    }
}

// Prints where an area is damaged, and what is there if that can be read.
fn print_damage<R: Files + AllocGlobal, W: Write>(
    rt: &R,
    err: &mut W,
    folder: &str,
    area: u8,
    offset: u64,
) -> io::Result<()> {
    let mut room = [0u8; TOLD_BYTES];
    let read = read_area(rt, folder, area, offset, &mut room);
    write!(
        err,
        "{folder}: the file a{area} is damaged at byte {offset}"
    )?;
    match read {
        Ok(0) => write!(err, ", where it ends")?,
        Ok(count) => {
            write!(err, ", where it has")?;
            for byte in room.iter().take(count) {
                write!(err, " {byte:02x}")?;
            }
        }
        Err(_) => (),
    }
    writeln!(err)
}

// Reads the file of an area from an offset on, as much as one call gives, and says how much that is.
fn read_area<R: Files + AllocGlobal>(
    rt: &R,
    folder: &str,
    area: u8,
    offset: u64,
    room: &mut [u8; TOLD_BYTES],
) -> io::Result<usize> {
    let path = format!(in rt.alloc(); "{folder}/a{area}")?;
    see_plain(rt, path.as_str())?;
    let mut file = fs::open(rt, path.as_str())?;
    file.seek(SeekFrom::Start(offset))?;
    file.read(room)
}

// Opens a file to read, if it is plain.
fn open_plain<R: Files>(rt: &R, path: &str) -> io::Result<R::File> {
    see_plain(rt, path)?;
    fs::open(rt, path)
}

// Prints why the first file of a folder can't be opened that can't be.
fn print_closed_file<R: Files + AllocGlobal, W: Write>(
    rt: &R,
    err: &mut W,
    folder: &str,
) -> io::Result<()> {
    for area in 0..2u8 {
        let path = format!(in rt.alloc(); "{folder}/a{area}")?;
        if let Err(reason) = open_plain(rt, path.as_str()) {
            return writeln!(err, "{path}: {reason}");
        }
    }
    writeln!(err, "{folder}: its files can't be read or written")
}
