//! What is written when a cluster begins: its file, the folders of its nodes with a file each, and their disks, formatted. The
//! cluster's file says that nodes have been formatted after they have, and before they answer anybody.

ghost use Rattle.std.specs.Prelude.{◌≡◌, ◌<◌, length, map, is_none, IfOk};
ghost use Rattle.rr_types.specs.Nodes.{has_member};
ghost use Rattle.rr_folders.specs.Judging.{AreLeftOut};

use crate::closed::{Closed, done, failed};
use crate::cluster::{Cluster, Course, Digest, Identity, Mark, Reached, once_more, times_in};
use crate::folder::{NodeDisk, NodeHome, Survey, remove_made};
use crate::folder_home::FolderHome;
use crate::front::AreaFront;
use crate::home::HomeDisk;
use crate::judging::{Found, Owner};
use crate::lock::{Lockable, Locks};
use crate::mark_file::{FolderMark, MarkWriter};
use crate::marked::MarkedDisk;
use crate::noted::Noter;
use crate::opening::{NodeFiles, open_files, unopened};
use crate::plain::make_fresh;
use crate::reason::{Reason, Reasons, shared};
use crate::returning::{Site, folder_id};
use crate::seen::{Seen, course_of, is_there};
use crate::tip::Tip;
use rr_disk::make_folder;
use rr_journal::Journal;
use rr_types::{NodeId, NodeSet, Nodes, Refusal, made_of};
use std::alloc::Global;
use std::fs;
use std::fs::{OpenFile, OpenOptions};
use std::io::{Read, Seek, Write};
use std::os::unix::fs::FileExt;
use std::rt::Files;
use std::sync::Arc;

/// Draws the identity of a new cluster from the system's random device.
pub(crate) fn draw_identity<R: Files + AllocGlobal>(rt: &R) -> Result<Identity, Closed> {
    let path = "/dev/urandom";
    let mut source = done(rt, path, "opening", fs::open(rt, path))?;
    let mut first = [0u8; 8];
    let mut second = [0u8; 8];
    done(rt, path, "reading", source.read_exact(&mut first))?;
    done(rt, path, "reading", source.read_exact(&mut second))?;
    Ok(Identity {
        first: u64::from_be_bytes(first),
        second: u64::from_be_bytes(second),
    })
}

/// Writes a text to a new file, and syncs it. Where that fails there is no such file.
pub(crate) fn write_fresh<R: Files + AllocGlobal>(
    rt: &R,
    fresh: &str,
    text: &[u8],
) -> Result<(), Closed> {
    let mut file = done(rt, fresh, "making the file", make_fresh(rt, fresh))?;
    let written = match done(rt, fresh, "writing", file.write_all(text)) {
        Ok(()) => done(rt, fresh, "syncing", file.sync_all()),
        Err(closed) => Err(closed),
    };
    if written.is_err() {
        let _ = fs::remove_file(rt, fresh);
    }
    written
}

// Renames a file that is synced. Where that fails there is no such file.
fn rename_fresh<R: Files + AllocGlobal>(rt: &R, fresh: &str, path: &str) -> Result<(), Closed> {
    let renamed = done(rt, path, "renaming", fs::rename(rt, fresh, path));
    if renamed.is_err() {
        let _ = fs::remove_file(rt, fresh);
    }
    renamed
}

/// Puts a file that is synced in place of another one, and makes that last.
pub(crate) fn put_in_place<R: Files + AllocGlobal>(
    rt: &R,
    dir: &str,
    fresh: &str,
    path: &str,
) -> Result<(), Closed> {
    rename_fresh(rt, fresh, path)?;
    sync_folder(rt, dir)
}

/// Makes the names in a folder last.
pub(crate) fn sync_folder<R: Files + AllocGlobal>(rt: &R, dir: &str) -> Result<(), Closed> {
    let folder = done(rt, dir, "opening the folder", fs::open(rt, dir))?;
    done(rt, dir, "syncing the folder", folder.sync_all())
}

// Writes the file of a node's folder, unless it is there.
fn write_mark<R: Files + AllocGlobal>(
    rt: &R,
    dir: &str,
    node: NodeId,
    cluster: &Cluster,
    seen: &Seen,
) -> Result<(), Closed> {
    if let Some(mark) = seen.found.mark {
        if mark.identity.is(cluster.identity) && mark.node == node {
            return Ok(());
        }
    }
    let index = node.index();
    let folder = format!(in rt.alloc(); "{dir}/{index}")?;
    put_mark(rt, folder.as_str(), &first_mark(cluster, node))
}

/// What the mark of a node's folder says first.
pub(crate) fn first_mark(cluster: &Cluster, node: NodeId) -> Mark {
    Mark {
        identity: cluster.identity,
        node,
        course: None,
        replaced: times_in(cluster.replaced, node),
    }
}

/// Puts a mark in a folder.
pub(crate) fn put_mark<R: Files + AllocGlobal>(
    rt: &R,
    folder: &str,
    mark: &Mark,
) -> Result<(), Closed> {
    let path = format!(in rt.alloc(); "{folder}/node")?;
    let fresh = format!(in rt.alloc(); "{folder}/node.new")?;
    let text = mark.text(rt.alloc())?;
    write_fresh(rt, fresh.as_str(), text.as_slice())?;
    put_in_place(rt, folder, fresh.as_str(), path.as_str())
}

/// Writes the cluster's file.
pub(crate) fn write_cluster<R: Files + AllocGlobal>(
    rt: &R,
    dir: &str,
    cluster: &Cluster,
) -> Result<(), Closed> {
    let path = format!(in rt.alloc(); "{dir}/cluster")?;
    let fresh = format!(in rt.alloc(); "{dir}/cluster.new")?;
    let text = cluster.text(rt.alloc())?;
    write_fresh(rt, fresh.as_str(), text.as_slice())?;
    put_in_place(rt, dir, fresh.as_str(), path.as_str())
}

/// Opens the files of a disk in a folder, and writes and syncs a file beside them, which is taken away: so a program that was
/// refused learns which call fails.
///
/// # Errors
/// `Failed`, with the first call that fails. `OutOfMemory`.
pub fn try_folder<R: Files + AllocGlobal>(rt: &R, folder: &str) -> Result<(), Closed> {
    for area in 0..2u8 {
        let path = format!(in rt.alloc(); "{folder}/a{area}")?;
        let mut options = OpenOptions::new();
        let _ = options.read(true).write(true);
        let _file = done(
            rt,
            path.as_str(),
            "opening",
            options.open(rt, path.as_str()),
        )?;
    }
    try_file(rt, folder)
}

/// Writes and syncs a file in the folder DIR, which is taken away: so a program that was refused learns which call fails.
///
/// # Errors
/// `Failed`, with the call that fails. `OutOfMemory`.
pub fn try_dir<R: Files + AllocGlobal>(rt: &R, dir: &str) -> Result<(), Closed> {
    try_file(rt, dir)
}

// Writes and syncs a file in a folder, and takes it away. The folder is named where a call fails.
fn try_file<R: Files + AllocGlobal>(rt: &R, folder: &str) -> Result<(), Closed> {
    // (the number is drawn, so that no file of anybody's has this name)
    let drawn = draw_identity(rt)?.first;
    let probe = format!(in rt.alloc(); "{folder}/probe-{drawn}")?;
    match write_fresh(rt, probe.as_str(), &[0u8; 4096]) {
        Ok(()) => {
            let _ = fs::remove_file(rt, probe.as_str());
            Ok(())
        }
        Err(Closed::Failed { call, error, .. }) => Err(failed(rt, folder, call, error)),
        Err(closed) => Err(closed),
    }
}

// Formats a disk that was opened in a folder, unless it is formatted.
fn formatted<F: Read + Write + Seek + FileExt + OpenFile + Drop, R: Files<File = F> + AllocGlobal>(
    rt: &R,
    folder: &str,
    nodes: Nodes,
    node: NodeId,
    disk: NodeFiles<F>,
    reason: &Option<Arc<Reason, Global>>,
) -> Result<NodeFiles<F>, Closed>
    requires { node < nodes }
{
    match Journal::open(rt.alloc(), nodes, node, disk) {
        Ok((journal, _)) => Ok(journal.into_disk()),
        Err((refusal, _)) => Err(unopened(rt, folder, node, refusal, reason)),
    }
}

// Makes a node's folder where it is missing, locks it then, and marks it.
fn form_folder<
    F: Read + Write + Seek + FileExt + OpenFile + Drop + Lockable,
    R: Files<File = F> + AllocGlobal,
>(
    rt: &R,
    dir: &str,
    cluster: &Cluster,
    node: NodeId,
    seen: &Seen,
    locks: &mut Locks<F>,
) -> Result<(), Closed> {
    let index = node.index();
    let folder = format!(in rt.alloc(); "{dir}/{index}")?;
    if !seen.is_there {
        done(
            rt,
            folder.as_str(),
            "making the folder",
            make_folder(rt, folder.as_str()),
        )?;
        locks.add(rt, folder.as_str())?;
    }
    write_mark(rt, dir, node, cluster, seen)
}

// The mark with which a node's folder goes on: the one that it has, or else its first one.
fn mark_of<F>(survey: &Survey<F>, cluster: &Cluster, node: NodeId) -> Mark {
    made_of!(Course, Reached, Digest, Identity);
    match survey.seen.get(usize::from(node.index())) {
        Some(Some(seen)) => match seen.found.mark {
            Some(mark) => mark,
            None => first_mark(cluster, node),
        },
        _ => first_mark(cluster, node),
    }
}

// What is known of how far a node's disk came.
fn known_of<F>(survey: &mut Survey<F>, index: u8) -> Option<Tip> {
    survey.known.get_mut(usize::from(index))?.take()
}

// Opens the disk in the folder of a node. One that hasn't been formatted is.
fn open_disk<
    'x,
    F: Read + Write + Seek + FileExt + OpenFile + Drop + Lockable,
    R: Files<File = F> + AllocGlobal + MarkWriter<Handle = F>,
>(
    rt: &'x R,
    nodes: Nodes,
    dir: &str,
    cluster: &Cluster,
    mark: Mark,
    survey: &mut Survey<F>,
    reason: Option<Arc<Reason, Global>>,
) -> Result<NodeDisk<'x, F, R>, Closed>
    requires { mark.node < nodes }
{
    let (node, course) = (mark.node, mark.course);
    let index = node.index();
    let folder = format!(in rt.alloc(); "{dir}/{index}")?;
    let is_formatted = cluster.formatted.contains(node);
    if !is_formatted {
        if let Some(Some(seen)) = survey.seen.get(usize::from(index)) {
            let seen = *seen;
            form_folder(rt, dir, cluster, node, &seen, &mut survey.locks)?;
        }
    }
    let keeper = FolderMark::new(rt.alloc(), rt, folder.as_str(), mark, shared(&reason)?)?;
    let noted = shared(&reason)?;
    let disk = open_files(rt, folder.as_str(), node, true, reason)?;
    if is_formatted {
        let known = known_of(survey, index);
        Ok(MarkedDisk::new(disk, keeper, course, known))
    } else {
        let disk = formatted(rt, folder.as_str(), nodes, node, disk, &noted)?;
        Ok(MarkedDisk::new(disk, keeper, None, None))
    }
}

// Opens the disk of a node at its home. Of one that is left out nothing is opened.
fn open_home<
    'x,
    F: Read + Write + Seek + FileExt + OpenFile + Drop + Lockable,
    R: Files<File = F> + AllocGlobal + MarkWriter<Handle = F>,
>(
    rt: &'x R,
    nodes: Nodes,
    dir: &str,
    cluster: &Cluster,
    node: NodeId,
    without: NodeSet,
    survey: &mut Survey<F>,
    mut home: FolderHome<'x, F, R>,
) -> Result<NodeHome<'x, F, R>, Closed>
    requires { node < nodes }
    ensures { IfOk result (λ home. has_member without node ≡ is_none home.disk) }
{
    if without.contains(node) {
        return Ok(HomeDisk::new(home, None));
    }
    let reason = home.reason()?;
    let mark = Mark {
        identity: cluster.identity,
        node,
        ..mark_of(survey, cluster, node)
    };
    home.go_on(&mark);
    let disk = open_disk(rt, nodes, dir, cluster, mark, survey, reason)?;
    let folder = home.folder();
    let lock = survey.locks.give(folder);
    let id = folder_id(rt, folder);
    home.hold(lock, id);
    Ok(HomeDisk::new(home, Some(disk)))
}

/// Opens the disks of a cluster's nodes, ascending, but of those that are left out. Those that haven't been formatted are.
#[tactic(auto, using(crate::proofs::Guarding::home_pushed))]
pub(crate) fn open_homes<
    'x,
    F: Read + Write + Seek + FileExt + OpenFile + Drop + Lockable,
    R: Files<File = F> + AllocGlobal + MarkWriter<Handle = F>,
>(
    rt: &'x R,
    nodes: Nodes,
    dir: &str,
    cluster: &Cluster,
    survey: &mut Survey<F>,
    reasons: &Reasons,
) -> Result<Vec<NodeHome<'x, F, R>>, Closed>
    ensures count { IfOk result (λ v. length v.items ≡ nodes) }
    ensures left_out { IfOk result (λ v. AreLeftOut survey.old.without 0 (map (λ h. h.disk) v.items)) }
{
    let without = survey.without();
    let noter = Arc::new(rt.alloc(), Noter::new(rt, dir, nodes)?)?;
    let mut homes = Vec::new(rt.alloc());
    for index in 0..nodes.count() {
        let Some(node) = NodeId::new(nodes, index) else {
            unreachable!()
        };
        let owner = Owner {
            identity: cluster.identity,
            nodes,
            node,
            replaced: cluster.replaced,
        };
        let site = Site::new(rt.alloc(), dir, owner)?;
        let reason = reasons.of(index)?;
        let home = FolderHome::new(rt.alloc(), rt, site, reason, Arc::try_clone(&noter)?);
        homes.push(open_home(rt, nodes, dir, cluster, node, without, survey, home)?)?;
    }
    Ok(homes)
}

// Marks the folders of a cluster that have no mark.
fn mark_nodes<F, R: Files<File = F> + AllocGlobal>(
    rt: &R,
    dir: &str,
    cluster: &Cluster,
    survey: &Survey<F>,
) -> Result<(), Closed> {
    for (index, seen) in survey.seen.iter().enumerate() {
        if index < 7 {
            if let (Some(node), Some(seen)) = (NodeId::new(cluster.nodes, index as u8), seen) {
                write_mark(rt, dir, node, cluster, seen)?;
            }
        }
    }
    Ok(())
}

// Takes away what was made in a node's folder, and the folder if it was made. It tells whether a mark is left that was made.
fn tidy_node<R: Files + AllocGlobal>(
    rt: &R,
    dir: &str,
    index: usize,
    seen: &Seen,
) -> Result<bool, Closed> {
    let missing = [
        ("a0", matches!(seen.first, AreaFront::Missing)),
        ("a1", matches!(seen.second, AreaFront::Missing)),
        ("node", !seen.has_mark_file),
    ];
    for (name, was_missing) in &missing {
        if *was_missing {
            let path = format!(in rt.alloc(); "{dir}/{index}/{name}")?;
            let _ = fs::remove_file(rt, path.as_str());
        }
    }
    if !seen.is_there {
        let path = format!(in rt.alloc(); "{dir}/{index}")?;
        let _ = fs::remove_dir(rt, path.as_str());
    }
    let path = format!(in rt.alloc(); "{dir}/{index}/node")?;
    Ok(!seen.has_mark_file && is_there(rt, path.as_str())?)
}

/// Takes away all that was made since the survey. The cluster's file stays if a mark does, as no cluster begins over marks.
pub(crate) fn tidy<F, R: Files<File = F> + AllocGlobal>(
    rt: &R,
    dir: &str,
    survey: &Survey<F>,
) -> Result<(), Closed> {
    let mut is_marked = false;
    for (index, seen) in survey.seen.iter().enumerate() {
        if let Some(seen) = seen {
            if tidy_node(rt, dir, index, seen)? {
                is_marked = true;
            }
        }
    }
    if !survey.has_cluster_file && !is_marked {
        let path = format!(in rt.alloc(); "{dir}/cluster")?;
        let _ = fs::remove_file(rt, path.as_str());
    }
    remove_made(rt, dir, survey.made);
    Ok(())
}

// The cluster, of which all nodes have been formatted.
fn all_of(cluster: &Cluster) -> Cluster
    ensures { result.nodes ≡ cluster.now.nodes }
{
    let mut all = *cluster;
    for index in 0..all.nodes.count() {
        if let Some(node) = NodeId::at(index) {
            all.formatted = all.formatted.with(node);
        }
    }
    all
}

/// Whether all nodes of a cluster have been formatted.
pub(crate) fn are_formatted(cluster: &Cluster) -> bool {
    (0..cluster.nodes.count()).all(|index| match NodeId::at(index) {
        Some(node) => cluster.formatted.contains(node),
        None => true,
    })
}

/// Says in the cluster's file that all nodes have been formatted. Where it can't be written, what was made is taken away; from
/// when a file that stays may say so, nothing is. A rename that is said to have failed may still have been made.
pub(crate) fn conclude<F, R: Files<File = F> + AllocGlobal>(
    rt: &R,
    dir: &str,
    cluster: &Cluster,
    survey: &Survey<F>,
) -> Result<Cluster, Closed>
    ensures { IfOk result (λ all. all.nodes ≡ cluster.now.nodes) }
{
    let all = all_of(cluster);
    let path = format!(in rt.alloc(); "{dir}/cluster")?;
    let fresh = format!(in rt.alloc(); "{dir}/cluster.new")?;
    let text = all.text(rt.alloc())?;
    if let Err(closed) = write_fresh(rt, fresh.as_str(), text.as_slice()) {
        let _ = tidy(rt, dir, survey);
        return Err(closed);
    }
    if let Err(closed) = rename_fresh(rt, fresh.as_str(), path.as_str()) {
        if !survey.has_cluster_file {
            let _ = tidy(rt, dir, survey);
        }
        return Err(closed);
    }
    sync_folder(rt, dir)?;
    Ok(all)
}

/// Begins a new cluster: writes its file, by which no node has been formatted.
pub(crate) fn begin<F, R: Files<File = F> + AllocGlobal>(
    rt: &R,
    dir: &str,
    nodes: Nodes,
    survey: &Survey<F>,
) -> Result<Cluster, Closed>
    ensures { IfOk result (λ cluster. cluster.nodes ≡ nodes) }
{
    let cluster = Cluster {
        identity: draw_identity(rt)?,
        nodes,
        formatted: NodeSet::empty(),
        replaced: 0,
    };
    match write_cluster(rt, dir, &cluster) {
        Ok(()) => Ok(cluster),
        Err(closed) => {
            let _ = tidy(rt, dir, survey);
            Err(closed)
        }
    }
}

// How often nodes were replaced, by the marks of their folders.
fn replaced_by<F>(survey: &Survey<F>) -> u64 {
    let mut replaced = 0u64;
    for seen in survey.seen.iter() {
        let Some(
            Seen {
                found: Found {
                    mark: Some(mark),
                    ..
                },
                ..
            },
        ) = seen
        else {
            continue;
        };
        for _ in 0..mark.replaced {
            match once_more(replaced, mark.node) {
                Some(more) => replaced = more,
                None => break,
            }
        }
    }
    replaced
}

/// Takes a cluster on that has no file: marks its folders, and writes the file. Some folder may name its identity.
pub(crate) fn take_on<F, R: Files<File = F> + AllocGlobal>(
    rt: &R,
    dir: &str,
    nodes: Nodes,
    named: Option<Identity>,
    survey: &Survey<F>,
) -> Result<Cluster, Closed>
    ensures { IfOk result (λ cluster. cluster.nodes ≡ nodes) }
{
    let identity = match named {
        Some(identity) => identity,
        None => draw_identity(rt)?,
    };
    let cluster = Cluster {
        identity,
        nodes,
        formatted: NodeSet::empty(),
        replaced: replaced_by(survey),
    };
    match mark_nodes(rt, dir, &cluster, survey) {
        Ok(()) => conclude(rt, dir, &cluster, survey),
        Err(closed) => {
            let _ = tidy(rt, dir, survey);
            Err(closed)
        }
    }
}
