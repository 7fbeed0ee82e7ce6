//! Reading the folders of a cluster. Nothing is written, and nothing is made.

ghost use Rattle.std.specs.Prelude.{◌≡◌, ◌≤◌, length, false, IfOk};
ghost use Rattle.std.specs.List.{AllByRecursion};
ghost use Rattle.rr_types.specs.Limits.{max_nodes};
ghost use Rattle.rr_folders.specs.Judged.{MayStart, MayStartWithout};
ghost use Rattle.rr_cli.specs.Clusters.{IsRead, AreRead};

use crate::folder_faults::print_folder_fault;
use rr_folders::{
    Closed, Judged, Lockable, Reading, Shares, Sifted, judge_cluster, read_disk, read_only_disk,
    share_cluster, sift_cluster,
};
use rr_types::{MAX_NODES, Nodes, Refusal};
use std::alloc::AllocError;
use std::io;
use std::io::Write;
use std::os::unix::fs::FileExt;
use std::rt::Files;

// What is read of the folder of a place.
fn read_folder<R: Files + AllocGlobal>(rt: &R, dir: &str, place: u8) -> Result<Reading, AllocError>
where
    R::File: FileExt,
    ensures { IfOk result IsRead }
{
    let folder = format!(in rt.alloc(); "{dir}/{place}")?;
    match read_only_disk(rt, folder.as_str()) {
        Ok(disk) => {
            let mut disk = disk;
            read_disk(rt.alloc(), &mut disk)
        }
        Err(Refusal::OutOfMemory) => Err(AllocError),
        Err(_) => Ok(Reading::Refused(Refusal::Device)),
    }
}

// What is read of the folders of all places that a cluster may have, while these locks are held.
fn read_places<R: Files + AllocGlobal>(
    rt: &R,
    _shares: &Shares<R::File>,
    dir: &str,
) -> Result<Vec<Reading>, AllocError>
where
    R::File: FileExt,
    ensures each { IfOk result (λ v. AllByRecursion IsRead v.items) }
    ensures number { IfOk result (λ v. length v.items ≡ 7) }
{
    let mut readings = Vec::new(rt.alloc());
    for place in 0..MAX_NODES {
        readings.push(read_folder(rt, dir, place)?)?;
    }
    Ok(readings)
}

// How many folders there are, as the first says that holds facts. Where none does, it is one.
fn folder_count(readings: &[Reading]) -> Nodes {
    for reading in readings {
        if let Reading::Facts(folder) = reading {
            return folder.nodes;
        }
    }
    match Nodes::new(1) {
        Ok(one) => one,
        Err(_) => unreachable!(),
    }
}

// What is read of the folders of a cluster, and how many there are, while these locks are held.
fn read_shared<R: Files + AllocGlobal>(
    rt: &R,
    shares: &Shares<R::File>,
    dir: &str,
) -> Result<(Vec<Reading>, Nodes), AllocError>
where
    R::File: FileExt,
    ensures read { IfOk result (λ r. AreRead r.0.items) }
    ensures number { IfOk result (λ r. length r.0.items ≡ r.1) }
{
    let mut readings = read_places(rt, shares, dir)?;
    let nodes = folder_count(readings.as_slice());
    readings.truncate(usize::from(nodes.count()));
    Ok((readings, nodes))
}

/// What is read of the folders DIR/0, DIR/1 and so on of a cluster, and whether a start over them would be refused. There are as many as
/// the first of them says that holds facts; if none does, only DIR/0 counts. No program runs the cluster meanwhile.
///
/// # Errors
/// `InUse`, where one does. `OutOfMemory`.
pub(crate) fn read_judged<R: Files + AllocGlobal>(
    rt: &R,
    dir: &str,
) -> Result<(Vec<Reading>, Judged), Closed>
where
    R::File: FileExt + Lockable,
    ensures read { IfOk result (λ r. AreRead r.0.items) }
    ensures judged { IfOk result (λ r. r.1 ≡ false → MayStart (length r.0.items)) }
{
    let shares = share_cluster(rt, dir, MAX_NODES)?;
    let (readings, nodes) = read_shared(rt, &shares, dir)?;
    let judged = judge_cluster(rt, &shares, nodes, dir)?;
    Ok((readings, judged))
}

/// What is read of the folders of a cluster, as `read_judged` reads them, and which of them a start would refuse.
///
/// # Errors
/// `InUse`, where a program runs the cluster. `OutOfMemory`.
pub(crate) fn read_sifted<R: Files + AllocGlobal>(
    rt: &R,
    dir: &str,
) -> Result<(Vec<Reading>, Sifted), Closed>
where
    R::File: FileExt + Lockable,
    ensures read { IfOk result (λ r. AreRead r.0.items) }
    ensures few { IfOk result (λ r. length r.0.items ≤ max_nodes) }
    ensures sifted { IfOk result (λ r. r.1.refused ≡ false → MayStartWithout (length r.0.items) r.1.without) }
{
    let shares = share_cluster(rt, dir, MAX_NODES)?;
    let (readings, nodes) = read_shared(rt, &shares, dir)?;
    let _count = nodes.count();
    let sifted = sift_cluster(rt, &shares, nodes, dir)?;
    Ok((readings, sifted))
}

/// Tells people why folders were refused, a line each.
///
/// # Errors
/// Those of the writer.
pub(crate) fn print_folder_faults<R: Files + AllocGlobal, E: Write>(
    rt: &R,
    err: &mut E,
    dir: &str,
    readings: &[Reading],
) -> io::Result<()> {
    for (place, reading) in readings.iter().enumerate() {
        let folder = format!(in rt.alloc(); "{dir}/{place}")?;
        match reading {
            Reading::Facts(_) => (),
            Reading::Blank => writeln!(err, "{folder}: neither area is formatted")?,
            Reading::Refused(refusal) => print_folder_fault(rt, err, folder.as_str(), refusal)?,
        }
    }
    Ok(())
}

// Ends where no folder is named, which the command line doesn't let through.
pub(crate) fn end_without_dir<E: Write>(err: &mut E, command: &str) -> u8
    ensures { result ≡ 2 }
{
    let _ = writeln!(err, "rr: {command}: no DIR");
    2
}
