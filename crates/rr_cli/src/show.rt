//! The areas of a disk, told as text.

ghost use Rattle.std.specs.Prelude.{◌≡◌, ◌⊎◌, ℕ, ◌^◌, ◌<◌, List, length, Err, IfOk, IfErr, OnOk};
ghost use Rattle.std.specs.Io.KnownBytes.{Appends, Keeps};
ghost use Rattle.rr_types.specs.declared.refusal.Refusal.TheVariants.{Device};
ghost use Rattle.rr_text.specs.ReportTexts.{line};
ghost use Rattle.rr_disk.specs.Areas.{bytes_of};
ghost use Rattle.rr_types.specs.Counts.{counted, Grew};
ghost use Rattle.rr_journal.specs.Inspect.{inspected};
ghost use Rattle.rr_cli.specs.Areas.{area_words, areas_text, areas_in, IsShown, IsShownIn};
ghost use Rattle.rr_cli.specs.Ends.{EndsOnFolder};

use crate::area_objects::areas_objects;
use crate::folder_faults::{end_by_folder_fault, end_by_unlocked, end_without_such};
use crate::streams::end_by_text;
use rr_disk::Disk;
use rr_folders::{Lockable, Shares, read_only_disk, share_node};
use rr_frame::Version;
use rr_journal::{AreaReport, inspect};
use rr_stream::Sink;
use rr_types::Refusal;
use rr_words::Form;
use std::alloc::{AllocError, Global};
use std::io;
use std::io::Write;
use std::os::unix::fs::FileExt;
use std::rt::Files;

// Prints the line on an area.
fn print_area<W: Write>(out: &mut W, area: u8, told: Option<AreaReport>) -> io::Result<()>
    ensures { OnOk result (Appends (W.contents out.old) (W.contents out.new) (line (area_words area told))) }
{
    match told {
        None => {
            let state = "unformatted";
            writeln!(out, "area {area} {state}")
        }
        Some(told) => {
            let epoch = told.epoch;
            let node = told.node.index();
            let nodes = told.nodes.count();
            let next = told.next;
            let decided = told.decided;
            match told.version {
                Version::One => writeln!(
                    out,
                    "area {area} epoch {epoch} node {node} of {nodes} facts {next} decided {decided} version 1"
                ),
                Version::Two => writeln!(
                    out,
                    "area {area} epoch {epoch} node {node} of {nodes} facts {next} decided {decided}"
                ),
            }
        }
    }
}

// The text on both areas.
fn text_of(
    alloc: Global,
    first: Option<AreaReport>,
    second: Option<AreaReport>,
) -> Result<Vec<u8>, AllocError>
    ensures { IfOk result (λ text. text.items ≡ areas_text first second) }
{
    let mut text = Vec::new(alloc);
    if print_area(&mut text, 0, first).is_err() {
        return Err(AllocError);
    }
    if print_area(&mut text, 1, second).is_err() {
        return Err(AllocError);
    }
    Ok(text)
}

// The text on both areas, in a form.
fn text_in(
    alloc: Global,
    form: Form,
    first: Option<AreaReport>,
    second: Option<AreaReport>,
) -> Result<Vec<u8>, AllocError>
    ensures { IfOk result (λ text. text.items ≡ areas_in form first second) }
{
    match form {
        Form::Plain => text_of(alloc, first, second),
        Form::Json => areas_objects(alloc, first, second),
    }
}

/// What the areas of a disk hold, as text: a line for each, `area A unformatted` or
/// `area A epoch E node P of N facts F decided D`, with ` version 1` at its end where that is the area's version.
/// Nothing is written to the disk.
///
/// # Errors
/// `OutOfMemory`, `Device`; `Damaged` where an area is broken.
pub fn show_disk<D: Disk>(alloc: Global, disk: &mut D) -> Result<Vec<u8>, Refusal>
    ensures told { D.tells disk.old → length (D.areas disk.old).first.cells < 2 ^ 64 → length (D.areas disk.old).second.cells < 2 ^ 64
        → IsShown result (inspected (bytes_of (D.areas disk.old).first) (bytes_of (D.areas disk.old).second)) ⊎ (result ≡ Err Device) }
    ensures some { ((first : List ℕ) × (second : List ℕ) × IsShown result (inspected first second)) ⊎ (result ≡ Err Device) }
    ensures same { D.tells disk.old → D.areas disk.new ≡ D.areas disk.old }
    ensures cause { IfErr result (λ e. e ≡ Device → Grew (D.faults disk.old) (D.faults disk.new)) }
    ensures calls { OnOk result (D.calls disk.new ≡ counted (counted (D.calls disk.old))) }
{
    show_disk_in(alloc, Form::Plain, disk)
}

/// What the areas of a disk hold, in a form: for people as by `show_disk`, or as an object of JSON for each area. The
/// errors are the same, and nothing is written to the disk.
pub fn show_disk_in<D: Disk>(alloc: Global, form: Form, disk: &mut D) -> Result<Vec<u8>, Refusal>
    ensures told { D.tells disk.old → length (D.areas disk.old).first.cells < 2 ^ 64 → length (D.areas disk.old).second.cells < 2 ^ 64
        → IsShownIn form result (inspected (bytes_of (D.areas disk.old).first) (bytes_of (D.areas disk.old).second)) ⊎ (result ≡ Err Device) }
    ensures some { ((first : List ℕ) × (second : List ℕ) × IsShownIn form result (inspected first second)) ⊎ (result ≡ Err Device) }
    ensures same { D.tells disk.old → D.areas disk.new ≡ D.areas disk.old }
    ensures cause { IfErr result (λ e. e ≡ Device → Grew (D.faults disk.old) (D.faults disk.new)) }
    ensures calls { OnOk result (D.calls disk.new ≡ counted (counted (D.calls disk.old))) }
{
    match inspect(alloc, disk) {
        Ok((first, second)) => match text_in(alloc, form, first, second) {
            Ok(text) => Ok(text),
            Err(_) => Err(Refusal::OutOfMemory),
        },
        Err(refusal) => Err(refusal),
    }
}

// The text on the areas of the disk in a folder, while these locks are held. Its files are opened for reading alone, and nothing is made.
fn folder_text<R: Files + AllocGlobal>(
    rt: &R,
    _shares: &Shares<R::File>,
    form: Form,
    folder: &str,
) -> Result<Vec<u8>, Refusal>
where
    R::File: FileExt,
    ensures { ((first : List ℕ) × (second : List ℕ) × IsShownIn form result (inspected first second)) ⊎ (result ≡ Err Device) }
{
    match read_only_disk(rt, folder) {
        Ok(disk) => {
            let mut disk = disk;
            show_disk_in(rt.alloc(), form, &mut disk)
        }
        Err(refusal) => Err(refusal),
    }
}

// Prints what the areas hold of the disk in a folder, in a form, while these locks are held.
fn show_shared<R: Files + AllocGlobal, O: Sink, E: Write>(
    rt: &R,
    shares: &Shares<R::File>,
    form: Form,
    folder: &str,
    out: &mut O,
    err: &mut E,
) -> u8
where
    R::File: FileExt,
    ensures ends { EndsOnFolder form result (O.printing out.old) (O.printing out.new) }
    ensures quiet { result ≡ 0 → Keeps (E.contents err.old) (E.contents err.new) }
{
    match folder_text(rt, shares, form, folder) {
        Ok(text) => end_by_text(out, err, text.as_slice()),
        Err(refusal) => end_by_folder_fault(rt, err, folder, &refusal),
    }
}

// Prints what the areas hold of the disk in a folder, in a form. No program runs its node meanwhile.
pub(crate) fn show_folder<R: Files + AllocGlobal, O: Sink, E: Write>(
    rt: &R,
    form: Form,
    folder: &str,
    out: &mut O,
    err: &mut E,
) -> u8
where
    R::File: FileExt + Lockable,
    ensures ends { EndsOnFolder form result (O.printing out.old) (O.printing out.new) }
    ensures quiet { result ≡ 0 → Keeps (E.contents err.old) (E.contents err.new) }
{
    if let Some(ending) = end_without_such(rt, err, folder) {
        return ending;
    }
    match share_node(rt, folder) {
        Ok(shares) => show_shared(rt, &shares, form, folder, out, err),
        Err(closed) => end_by_unlocked(err, &closed),
    }
}

// Ends where no folder is named, which the command line doesn't let through.
pub(crate) fn end_without_folder<E: Write>(err: &mut E) -> u8
    ensures { result ≡ 2 }
{
    let _ = writeln!(err, "rr: show: no DIR");
    2
}
