//! A node whose disk is lost is replaced: its new folder has the decisions of the others, and what stood in its place is put aside. The order
//! is such that a cluster opens with the old folder, with the new one, or not with that node, wherever it is interrupted: the new folder is
//! whole before anything is moved, the old one is put aside, the cluster's file counts the replacement, and the new one takes its place.

ghost use Rattle.std.specs.Prelude.{◌≡◌, ◌≤◌, ◌<◌, length, IfOk, IfErr, IfSome, Some};
ghost use Rattle.rr_types.specs.declared.refusal.Refusal.TheVariants.{Device, OutOfMemory};

use crate::closed::{Closed, done, failed};
use crate::cluster::{Cluster, Mark, once_more, times_in};
use crate::decided::longest_decided;
use crate::folder::{Survey, remove_made};
use crate::forming::{first_mark, put_mark, sync_folder, write_cluster};
use crate::judging::{Fault, Owner, return_fault};
use crate::lock::Locks;
use crate::mark_file::{FolderMark, MarkWriter};
use crate::marked::MarkedDisk;
use crate::noted::note_marks;
use crate::opening::{open_files, unopened};
use crate::plain::read_only_disk;
use crate::reason::{Reason, shared};
use crate::renewal::{Bound, Renewal, is_decided, write_renewal};
use crate::seen::{look_over, mark_in};
use crate::verify_folder::{Reading, read_disk};
use rr_types::{NodeId, NodeSet, Nodes, Refusal};
use std::fs::OpenFile;
use std::io::{ErrorKind, Read, Seek, Write};
use std::os::unix::fs::FileExt;
use std::rt::Files;
use std::sync::Arc;
use std::{fs, io};

/// What is to be done where a node is replaced, by what was found in the cluster's folder. Only `plan_replacement` gives this.
#[derive(Drop)]
pub struct Replacement {
    nodes: Nodes,
    node: NodeId,
    without: NodeSet,
    // the cluster once the node is replaced
    cluster: Cluster,
    bound: Bound,
    decided: u64,
    aside: Option<u64>,
}

impl Replacement {
    /// The node.
    pub fn node(&self) -> NodeId
        ensures { result ≡ self.now.node }
    {
        self.node
    }

    /// How many instances have to be decided before.
    pub fn least(&self) -> u64
        ensures { result ≡ self.now.bound.least }
    {
        self.bound.least()
    }

    /// How many commands the others had decided.
    pub fn decided(&self) -> u64
        ensures { result ≡ self.now.decided }
    {
        self.decided
    }

    /// With which number the folder of the node would be put aside. None: there is nothing in its place.
    pub fn aside(&self) -> Option<u64>
        ensures { result ≡ self.now.aside }
    {
        self.aside
    }

    // Whose the new folder is.
    fn owner(&self) -> Owner {
        Owner {
            identity: self.cluster.identity,
            nodes: self.nodes,
            node: self.node,
            replaced: self.cluster.replaced,
        }
    }

    /// What the node's new folder is to have, by the others' folders as they are now. None: they haven't decided enough.
    ///
    /// # Errors
    /// As of `plan_replacement`, where a folder can't be read.
    pub fn renewal<
        F: Read + Write + Seek + FileExt + OpenFile + Drop,
        R: Files<File = F> + AllocGlobal,
    >(&self, rt: &R, locks: &Locks<F>) -> Result<Option<Renewal>, Closed>
        ensures { IfOk result (λ r. IfSome r (λ commands. self.now.bound.least ≤ length commands)) }
    {
        let readings = read_others(rt, self.nodes, locks.dir(), self.without)?;
        Ok(self.bound.renewal(rt.alloc(), readings.as_slice())?)
    }
}

/// That a node was replaced: how many decided commands its new folder has, and with which number the old one was put aside, if one was there.
/// Only `replace_folder` gives this.
#[derive(Clone, Copy, Debug)]
pub struct Replaced {
    count: u64,
    aside: Option<u64>,
}

impl Replaced {
    /// How many decided commands.
    pub fn count(&self) -> u64
        ensures { result ≡ self.now.count }
    {
        self.count
    }

    /// The number of the folder that was put aside.
    pub fn aside(&self) -> Option<u64>
        ensures { result ≡ self.now.aside }
    {
        self.aside
    }
}

// What is read of the folder of a node, which has to hold facts.
fn read_other<F: Read + Write + Seek + FileExt + OpenFile + Drop, R: Files<File = F> + AllocGlobal>(
    rt: &R,
    dir: &str,
    node: NodeId,
) -> Result<Reading, Closed> {
    let index = node.index();
    let folder = format!(in rt.alloc(); "{dir}/{index}")?;
    let mut disk = match read_only_disk(rt, folder.as_str()) {
        Ok(disk) => disk,
        Err(refusal) => return Err(Closed::Unopened(node, refusal)),
    };
    match read_disk(rt.alloc(), &mut disk)? {
        Reading::Facts(folder) => Ok(Reading::Facts(folder)),
        Reading::Blank => Err(Closed::Refused(node, Fault::Blank)),
        Reading::Refused(refusal) => Err(Closed::Unopened(node, refusal)),
    }
}

// What is read of the folders of so many nodes, but of those that are left out.
fn read_others<
    F: Read + Write + Seek + FileExt + OpenFile + Drop,
    R: Files<File = F> + AllocGlobal,
>(rt: &R, nodes: Nodes, dir: &str, without: NodeSet) -> Result<Vec<Reading>, Closed> {
    let mut readings = Vec::new(rt.alloc());
    for index in 0..nodes.count() {
        if let Some(node) = NodeId::new(nodes, index) {
            if !without.contains(node) {
                readings.push(read_other(rt, dir, node)?)?;
            }
        }
    }
    Ok(readings)
}

// Whether there is anything at a path, be it a link that leads nowhere.
fn is_taken<R: Files + AllocGlobal>(rt: &R, path: &str) -> Result<bool, Closed> {
    match fs::symlink_metadata(rt, path) {
        Ok(_) => Ok(true),
        Err(error) if error.kind() == ErrorKind::NotFound => Ok(false),
        Err(error) => Err(failed(rt, path, "looking", error)),
    }
}

// With which number what stands in a node's place is put aside: the first one that isn't taken from this one on. None: nothing stands there.
fn aside_number<R: Files + AllocGlobal>(
    rt: &R,
    dir: &str,
    node: NodeId,
    times: u64,
) -> Result<Option<u64>, Closed> {
    let index = node.index();
    let folder = format!(in rt.alloc(); "{dir}/{index}")?;
    if !is_taken(rt, folder.as_str())? {
        return Ok(None);
    }
    for number in times..u64::MAX {
        let path = format!(in rt.alloc(); "{dir}/{index}.replaced-{number}")?;
        if !is_taken(rt, path.as_str())? {
            return Ok(Some(number));
        }
    }
    Ok(None)
}

// A cluster once a node of it is replaced once more.
fn counted<R: AllocGlobal>(
    rt: &R,
    dir: &str,
    cluster: &Cluster,
    node: NodeId,
) -> Result<Cluster, Closed> {
    match once_more(cluster.replaced, node) {
        Some(replaced) => Ok(Cluster {
            replaced,
            ..*cluster
        }),
        None => {
            let path = format!(in rt.alloc(); "{dir}/cluster")?;
            let call = "counting";
            let words = "the node was replaced 255 times, and can't be again";
            let error = io::Error::new(ErrorKind::InvalidData, words);
            Err(Closed::Failed { path, call, error })
        }
    }
}

// The same as of `plan_replacement`. Where there is no plan, nothing is taken away.
fn planned<F: Read + Write + Seek + FileExt + OpenFile + Drop, R: Files<File = F> + AllocGlobal>(
    rt: &R,
    nodes: Nodes,
    dir: &str,
    node: NodeId,
    survey: &Survey<F>,
) -> Result<Replacement, Closed>
    ensures { IfOk result (λ plan. plan.node ≡ node) }
{
    let now = survey.cluster_without(node)?;
    let without = survey.without();
    let readings = read_others(rt, nodes, dir, without)?;
    let cluster = counted(rt, dir, &now, node)?;
    let decided = longest_decided(rt.alloc(), readings.as_slice())?.len() as u64;
    Ok(Replacement {
        nodes,
        node,
        without,
        cluster,
        bound: Bound::of(readings.as_slice()),
        decided,
        aside: aside_number(rt, dir, node, times_in(cluster.replaced, node))?,
    })
}

/// What is to be done where a node of a cluster is replaced that is left out, by what was found in the folder DIR. Nothing is written.
///
/// # Errors
/// `Refused`, where a start without the node would be refused; `Unopened`, where a folder of another node can't be read; `Failed` or
/// `OutOfMemory`. Folders that were made for DIR are taken away then.
pub fn plan_replacement<
    F: Read + Write + Seek + FileExt + OpenFile + Drop,
    R: Files<File = F> + AllocGlobal,
>(rt: &R, nodes: Nodes, dir: &str, node: NodeId, survey: &Survey<F>) -> Result<Replacement, Closed>
    ensures { IfOk result (λ plan. plan.node ≡ node) }
{
    let plan = planned(rt, nodes, dir, node, survey);
    if plan.is_err() {
        remove_made(rt, dir, survey.made);
    }
    plan
}

// Takes away what an earlier attempt left.
fn remove_left<R: Files + AllocGlobal>(rt: &R, folder: &str) -> Result<(), Closed> {
    if !is_taken(rt, folder)? {
        return Ok(());
    }
    for name in &["a0", "a1", "node", "node.new"] {
        let path = format!(in rt.alloc(); "{folder}/{name}")?;
        let _ = fs::remove_file(rt, path.as_str());
    }
    done(
        rt,
        folder,
        "removing the folder",
        fs::remove_dir(rt, folder),
    )
}

// Writes a disk of these decisions in a folder, and its mark.
fn write_disk<
    F: Read + Write + Seek + FileExt + OpenFile + Drop,
    R: Files<File = F> + AllocGlobal + MarkWriter<Handle = F>,
>(rt: &R, plan: &Replacement, folder: &str, mark: Mark, renewal: &Renewal) -> Result<(), Closed> {
    let nodes = plan.nodes;
    let Some(node) = NodeId::new(nodes, plan.node.index()) else {
        return Err(Closed::Unopened(plan.node, Refusal::BadNodes));
    };
    let reason = Some(Arc::new(rt.alloc(), Reason::new())?);
    let keeper = FolderMark::new(rt.alloc(), rt, folder, mark, shared(&reason)?)?;
    let files = open_files(rt, folder, node, true, shared(&reason)?)?;
    let disk = MarkedDisk::new(files, keeper, None, None);
    match write_renewal(rt.alloc(), nodes, node, disk, renewal) {
        Ok(_) => Ok(()),
        Err(refusal) => Err(unopened(rt, folder, node, refusal, &reason)),
    }
}

// Sees that a folder is as it was to be written: it has this node's disk, as far as its mark says, and just these decisions.
fn see_written<
    F: Read + Write + Seek + FileExt + OpenFile + Drop,
    R: Files<File = F> + AllocGlobal,
>(rt: &R, plan: &Replacement, folder: &str, renewal: &Renewal) -> Result<(), Closed> {
    let (seen, _) = look_over(rt, folder)?;
    if return_fault(&plan.owner(), &seen.found, None, None).is_none() {
        if let Ok(mut disk) = read_only_disk(rt, folder) {
            if let Reading::Facts(read) = read_disk(rt.alloc(), &mut disk)? {
                if read.facts == renewal.count() && is_decided(&read, renewal) {
                    return Ok(());
                }
            }
        }
    }
    let error = io::Error::new(ErrorKind::InvalidData, "it isn't as it was written");
    Err(failed(rt, folder, "reading", error))
}

// Makes the node's new folder beside its place, whole and lasting.
fn make_anew<
    F: Read + Write + Seek + FileExt + OpenFile + Drop,
    R: Files<File = F> + AllocGlobal + MarkWriter<Handle = F>,
>(rt: &R, dir: &str, plan: &Replacement, folder: &str, renewal: &Renewal) -> Result<(), Closed> {
    remove_left(rt, folder)?;
    done(rt, folder, "making the folder", fs::create_dir(rt, folder))?;
    let mark = first_mark(&plan.cluster, plan.node);
    put_mark(rt, folder, &mark)?;
    write_disk(rt, plan, folder, mark, renewal)?;
    sync_folder(rt, folder)?;
    sync_folder(rt, dir)?;
    see_written(rt, plan, folder, renewal)
}

// Renames a folder, and makes that last.
fn rename_folder<R: Files + AllocGlobal>(
    rt: &R,
    dir: &str,
    from: &str,
    to: &str,
) -> Result<(), Closed> {
    done(rt, from, "renaming", fs::rename(rt, from, to))?;
    sync_folder(rt, dir)
}

// Puts aside what stands in the node's place.
fn put_aside<R: Files + AllocGlobal>(
    rt: &R,
    dir: &str,
    plan: &Replacement,
) -> Result<Option<u64>, Closed> {
    let index = plan.node.index();
    let times = times_in(plan.cluster.replaced, plan.node);
    let Some(number) = aside_number(rt, dir, plan.node, times)? else {
        return Ok(None);
    };
    let from = format!(in rt.alloc(); "{dir}/{index}")?;
    let to = format!(in rt.alloc(); "{dir}/{index}.replaced-{number}")?;
    rename_folder(rt, dir, from.as_str(), to.as_str())?;
    Ok(Some(number))
}

// Notes the mark of the node's new folder. Where that can't be noted, what was noted of the old one doesn't count for it.
fn note_new<R: Files + AllocGlobal>(rt: &R, dir: &str, plan: &Replacement) -> Result<(), Closed> {
    let index = plan.node.index();
    let folder = format!(in rt.alloc(); "{dir}/{index}")?;
    let mark = mark_in(rt, folder.as_str())?;
    let mut last = [None; 7];
    if let Some(place) = last.get_mut(usize::from(index)) {
        *place = mark;
    }
    note_marks(rt, dir, &last[..usize::from(plan.nodes.count()).min(7)])
}

/// Replaces a node by a new folder with just these decisions, in the folder DIR, which is locked, and where no node runs. What stood in its
/// place is put aside, and never deleted.
///
/// # Errors
/// `Failed`, `Unopened` or `OutOfMemory`. It can be done again then.
pub fn replace_folder<
    F: Read + Write + Seek + FileExt + OpenFile + Drop,
    R: Files<File = F> + AllocGlobal + MarkWriter<Handle = F>,
>(rt: &R, locks: &Locks<F>, plan: &Replacement, renewal: &Renewal) -> Result<Replaced, Closed>
    ensures { IfOk result (λ replaced. replaced.count ≡ length renewal.now) }
{
    let dir = locks.dir();
    let index = plan.node.index();
    let fresh = format!(in rt.alloc(); "{dir}/{index}.new")?;
    let folder = format!(in rt.alloc(); "{dir}/{index}")?;
    make_anew(rt, dir, plan, fresh.as_str(), renewal)?;
    let aside = put_aside(rt, dir, plan)?;
    write_cluster(rt, dir, &plan.cluster)?;
    rename_folder(rt, dir, fresh.as_str(), folder.as_str())?;
    let _ = note_new(rt, dir, plan);
    let count = renewal.count();
    Ok(Replaced { count, aside })
}
