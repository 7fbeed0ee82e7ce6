//! The migration of a node's folder: an opening of its disk, and what its areas hold then.

ghost use Rattle.std.specs.Prelude.{◌≡◌, ◌⊎◌, ◌<◌, ◌^◌, ℕ, length, Contains, None, Ok, Err, IfOk, IfErr, IfSome, option_map};
ghost use Rattle.std.specs.Io.KnownBytes.{Keeps};
ghost use Rattle.rr_types.specs.declared.refusal.Refusal.TheVariants.{Device, OutOfMemory};
ghost use Rattle.rr_disk.specs.Areas.{bytes_of};
ghost use Rattle.rr_journal.specs.Inspect.{inspected};
ghost use Rattle.rr_journal.specs.Openings.{Settling, Stops, end_by};
ghost use Rattle.rr_journal.specs.OpeningCourse.{found_from};
ghost use Rattle.rr_cli.specs.Areas.{IsShown};
ghost use Rattle.rr_cli.specs.Ends.{EndsOnMigration, EndsOnSeat, AreSeat};
ghost use Rattle.rr_cli.specs.Migrations.{opened_areas, TellsSome, IsUnmigrated};

use crate::folder_faults::{end_by_folder_fault, end_by_unlocked};
use crate::random_schedule::{nodes_of, number_of};
use crate::show::show_disk;
use crate::streams::end_by_text;
use rr_disk::{Area, Disk};
use rr_folders::{Lockable, Locks, MarkWriter, lock_node};
use rr_journal::Journal;
use rr_stream::Sink;
use rr_types::{NodeId, Nodes, Refusal};
use std::alloc::Global;
use std::fs::OpenFile;
use std::io::{Read, Seek, Write};
use std::os::unix::fs::FileExt;
use std::rt::Files;

/// A node of a cluster, and how many nodes that has.
#[derive(Clone, Copy, Debug)]
struct Seat {
    node: NodeId,
    nodes: Nodes,
}

// The lengths of both areas have numbers of 64 bits.
fn measure<D: Disk>(disk: &D)
    ensures { D.tells disk.now → (length (D.areas disk.now).first.cells < 2 ^ 64) × (length (D.areas disk.now).second.cells < 2 ^ 64) }
{
    let _first = disk.len(Area::First);
    let _second = disk.len(Area::Second);
}

// What the areas of a disk hold that was opened. Nothing is written to it.
fn show_opened<D: Disk>(alloc: Global, disk: &mut D) -> Result<Vec<u8>, Refusal>
    ensures told { D.tells disk.old → IsShown result (inspected (bytes_of (D.areas disk.old).first) (bytes_of (D.areas disk.old).second)) ⊎ (result ≡ Err Device) }
    ensures same { D.tells disk.old → D.areas disk.new ≡ D.areas disk.old }
    ensures some { IfOk result TellsSome }
    ensures cause { IfErr result IsUnmigrated }
{
    measure(disk);
    show_disk(alloc, disk)
}

/// Opens the disk of one of the nodes as it does before it serves, and tells as text what its areas hold then, as `show_disk`
/// does. The disk is handed back with the areas that the opening leaves.
///
/// # Errors
/// Those of an opening: `OutOfMemory`; `Device`; `Damaged`, of a disk that holds no facts; `TooLarge`, where an area of
/// version 1 has no next epoch; and those of `show_disk`.
pub fn migrate_disk<D: Disk + Drop>(
    alloc: Global,
    nodes: Nodes,
    node: NodeId,
    disk: D,
) -> Result<(Vec<u8>, D), Refusal>
    requires exists { node < nodes }
    ensures migrated { D.tells disk → IfOk result (λ r. D.areas r.1 ≡ opened_areas nodes node (D.areas disk)) }
    ensures told { D.tells disk → IfOk result (λ r. IsShown (Ok r.0) (inspected (bytes_of (opened_areas nodes node (D.areas disk)).first) (bytes_of (opened_areas nodes node (D.areas disk)).second))) }
    ensures refused { D.tells disk → IfErr result (λ e. (e ≡ OutOfMemory) ⊎ (e ≡ Device) ⊎ (end_by (found_from nodes node Settling (D.areas disk)) ≡ Stops e)
        ⊎ IsShown (Err e) (inspected (bytes_of (opened_areas nodes node (D.areas disk)).first) (bytes_of (opened_areas nodes node (D.areas disk)).second))) }
    ensures some { IfOk result (λ r. TellsSome r.0) }
    ensures cause { IfErr result IsUnmigrated }
{
    match Journal::open(alloc, nodes, node, disk) {
        Ok((journal, _)) => {
            let mut opened = journal.into_disk();
            match show_opened(alloc, &mut opened) {
                Ok(text) => Ok((text, opened)),
                Err(refusal) => Err(refusal),
            }
        }
        Err((refusal, _)) => Err(refusal),
    }
}

// Migrates a disk: the text on what its areas hold then.
fn disk_text<D: Disk + Drop>(alloc: Global, seat: Seat, disk: D) -> Result<Vec<u8>, Refusal>
    requires exists { seat.node < seat.nodes }
    ensures some { IfOk result TellsSome }
    ensures cause { IfErr result IsUnmigrated }
{
    match migrate_disk(alloc, seat.nodes, seat.node, disk) {
        Ok((text, _)) => Ok(text),
        Err(refusal) => Err(refusal),
    }
}

// Migrates the disk in a folder that is locked, and its mark if there is one. Its files are opened to read and write, and nothing is
// made that is missing.
#[tactic(auto, using(crate::proofs::MigrateLemmas::unmade))]
fn folder_text<
    F: Read + Write + Seek + FileExt + OpenFile + Drop,
    R: Files<File = F> + AllocGlobal + MarkWriter,
>(rt: &R, locks: &Locks<F>, folder: &str, seat: Seat) -> Result<Vec<u8>, Refusal>
    requires locked { Contains locks.now folder.now }
    requires exists { seat.node < seat.nodes }
    ensures some { IfOk result TellsSome }
    ensures cause { IfErr result IsUnmigrated }
{
    match locks.marked_disk_in(rt, folder) {
        Ok(Some(disk)) => disk_text(rt.alloc(), seat, disk),
        Ok(None) => match locks.disk_in(rt, folder) {
            Ok(disk) => disk_text(rt.alloc(), seat, disk),
            Err(refusal) => Err(refusal),
        },
        Err(refusal) => Err(refusal),
    }
}

// Migrates the disk in a folder that is locked, and prints what its areas hold then.
fn migrate_folder<
    F: Read + Write + Seek + FileExt + OpenFile + Drop,
    R: Files<File = F> + AllocGlobal + MarkWriter,
    O: Sink,
    E: Write,
>(rt: &R, locks: &Locks<F>, folder: &str, seat: Seat, out: &mut O, err: &mut E) -> u8
    requires locked { Contains locks.now folder.now }
    requires exists { seat.node < seat.nodes }
    ensures ends { EndsOnMigration result (O.printing out.old) (O.printing out.new) }
    ensures quiet { result ≡ 0 → Keeps (E.contents err.old) (E.contents err.new) }
{
    match folder_text(rt, locks, folder, seat) {
        Ok(text) => end_by_text(out, err, text.as_slice()),
        Err(refusal) => end_by_folder_fault(rt, err, folder, &refusal),
    }
}

// Locks a folder as those do who run its node, and migrates the disk in it.
fn migrate_alone<
    F: Read + Write + Seek + FileExt + OpenFile + Drop + Lockable,
    R: Files<File = F> + AllocGlobal + MarkWriter,
    O: Sink,
    E: Write,
>(rt: &R, folder: &str, seat: Seat, out: &mut O, err: &mut E) -> u8
    requires exists { seat.node < seat.nodes }
    ensures ends { EndsOnMigration result (O.printing out.old) (O.printing out.new) }
    ensures quiet { result ≡ 0 → Keeps (E.contents err.old) (E.contents err.new) }
{
    match lock_node(rt, folder) {
        Ok(locks) => migrate_folder(rt, &locks, folder, seat, out, err),
        Err(closed) => end_by_unlocked(err, &closed),
    }
}

// The node that the word `node` names, of as many nodes as the word `nodes` names.
fn seat_of(node: Option<&str>, nodes: Option<&str>) -> Option<Seat>
    ensures some { IfSome result (λ s. AreSeat (option_map (λ s. s.now) node.entry) (option_map (λ s. s.now) nodes.entry) s.node s.nodes) }
    ensures none { result ≡ None → (p n : ℕ) → AreSeat (option_map (λ s. s.now) node.entry) (option_map (λ s. s.now) nodes.entry) p n → ⊥ }
{
    let node = number_of(node, 0, 6)?;
    let nodes = nodes_of(nodes?)?;
    match NodeId::new(nodes, node as u8) {
        Some(node) => Some(Seat { node, nodes }),
        None => None,
    }
}

/// Migrates the disk in the folder that the word `folder` names, that of node `node` of `nodes` nodes. Words that name
/// no folder, or no such node, end with 2.
pub(crate) fn migrate_by_words<R: Files + AllocGlobal + MarkWriter, O: Sink, E: Write>(
    rt: &R,
    folder: Option<&str>,
    node: Option<&str>,
    nodes: Option<&str>,
    out: &mut O,
    err: &mut E,
) -> u8
where
    R::File: FileExt + Lockable,
    ensures ends { EndsOnSeat (option_map (λ s. s.now) folder.entry) (option_map (λ s. s.now) node.entry) (option_map (λ s. s.now) nodes.entry) result (O.printing out.old) (O.printing out.new) }
    ensures quiet { result ≡ 0 → Keeps (E.contents err.old) (E.contents err.new) }
{
    let Some(folder) = folder else {
        return end_without_seat(err);
    };
    match seat_of(node, nodes) {
        Some(seat) => migrate_alone(rt, folder, seat, out, err),
        None => end_without_seat(err),
    }
}

// Ends with 2, because the words name no folder or no such node.
fn end_without_seat<E: Write>(err: &mut E) -> u8
    ensures { result ≡ 2 }
{
    let _ = writeln!(err, "rr: migrate: there is no such node");
    2
}
