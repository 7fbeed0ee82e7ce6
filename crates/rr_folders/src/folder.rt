//! The folders of a cluster, found and opened.

ghost use Rattle.std.specs.Prelude.{◌≡◌, ◌⊎◌, length, map, not, is_none, Contains, IsOk, IfOk, IfErr};
ghost use Rattle.rr_types.specs.declared.refusal.Refusal.TheVariants.{Device, OutOfMemory};
ghost use Rattle.rr_types.specs.Nodes.{has_member};
ghost use Rattle.rr_folders.specs.Judging.{AreLeftOut};
ghost use Rattle.rr_folders.specs.Judged.{IsJudged};
ghost use Rattle.rr_folders.specs.Surveys.{IsGoingOn, IsPrepared, MayBeOpened, begins_by};

use crate::closed::{Closed, done};
use crate::cluster::{Cluster, Mark};
use crate::folder_home::FolderHome;
use crate::forming::{are_formatted, begin, conclude, open_homes, take_on, tidy};
use crate::front::Content;
use crate::home::HomeDisk;
use crate::judging::{Fault, Found, Verdict, judge};
use crate::lock::{Lockable, Locks};
use crate::mark_file::{FolderMark, MarkWriter};
use crate::marked::MarkedDisk;
use crate::noted::{note_all, noted_in, noted_of};
use crate::opening::{NodeFiles, open_files};
use crate::plain::see_requests;
use crate::reason::Reasons;
use crate::seen::{Seen, cluster_in, is_there, look_at, look_over, with_note};
use crate::tip::Tip;
use rr_disk::make_folder;
use rr_types::{NodeId, NodeSet, Nodes, Refusal};
use std::alloc::AllocFailed;
use std::fs;
use std::fs::OpenFile;
use std::io::{ErrorKind, Read, Seek, Write};
use std::marker::Model;
use std::os::unix::fs::FileExt;
use std::rt::Files;

/// A disk of the two files in a node's folder, whose mark is the file `node` there.
pub type NodeDisk<'x, F, R> = MarkedDisk<NodeFiles<F>, FolderMark<'x, R>>;

/// The same at home: while it isn't open, as that of a node that is left out, its calls fail. `reopen` opens it again.
pub type NodeHome<'x, F, R> = HomeDisk<NodeDisk<'x, F, R>, FolderHome<'x, F, R>>;

/// The folders of a cluster: DIR, locked while `locks` is there, and the disks of its nodes, ascending, each of which holds the lock of its
/// folder. `reasons` has why a disk failed or isn't opened again, once one has.
#[derive(Drop)]
pub struct Folders<
    'x,
    F: Read + Write + Seek + FileExt + OpenFile + Drop,
    R: Files<File = F> + AllocGlobal + MarkWriter<Handle = F>,
> {
    pub locks: Locks<F>,
    pub disks: Vec<NodeHome<'x, F, R>>,
    pub reasons: Reasons,
}

/// What was found in the folder DIR, which is locked while this is there. Contracts see for how many nodes it was looked through, which of
/// them are left out, and what is to be done with it.
#[derive(Drop)]
pub struct Survey<F> {
    pub(crate) locks: Locks<F>,
    // the nodes that are left out, and what was seen of the folders of the others
    pub(crate) without: NodeSet,
    pub(crate) seen: Vec<Option<Seen>>,
    // what is known of each folder's active area
    pub(crate) known: Vec<Option<Tip>>,
    pub(crate) has_cluster_file: bool,
    // where the path of the first folder ends that was made for DIR
    pub(crate) made: Option<usize>,
    verdict: Verdict,
}

impl<F> Model for Survey<F> {
    ghost use Rattle.std.specs.Prelude.{length};
    ghost use Rattle.rr_folders.specs.Surveys.{Surveyed};

    ghost Value = { Surveyed };

    ghost view = { λ s. record { nodes = length s.seen.items; without = s.without; verdict = s.verdict } };
}

impl<F> Survey<F> {
    /// Whether no node has a disk that is formatted. A damaged one is, and so may be one that is left out.
    pub fn is_fresh(&self) -> bool {
        self.seen.iter().all(|seen| match seen {
            Some(seen) => matches!(seen.found.content, Content::Absent | Content::Blank),
            None => false,
        })
    }

    /// Whether a new cluster begins in the folders, if they are entered.
    pub fn begins(&self) -> bool
        ensures { result ≡ begins_by self.now.verdict }
    {
        matches!(self.verdict, Verdict::Begin)
    }

    /// The nodes that are left out: their folders are neither locked nor looked at.
    pub fn without(&self) -> NodeSet
        ensures { result ≡ self.now.without }
    {
        self.without
    }

    /// The cluster that goes on, by what was found, where this node is left out.
    pub(crate) fn cluster_without(&self, node: NodeId) -> Result<Cluster, Closed>
        ensures { IsGoingOn node self.now.verdict result }
    {
        match self.verdict {
            Verdict::Open(cluster) => Ok(cluster),
            Verdict::Refused(first, fault) => Err(Closed::Refused(first, fault)),
            Verdict::Begin | Verdict::TakeOn(_) => Err(Closed::Refused(node, Fault::Unfounded)),
        }
    }

    // The locks alone.
    fn into_locks(self) -> Locks<F> {
        let Survey {
            locks,
            without: _,
            seen: _,
            known: _,
            has_cluster_file: _,
            made: _,
            verdict: _,
        } = self;
        locks
    }
}

// Where the path of the first folder ends that is missing of those in this path.
fn first_missing<R: Files>(rt: &R, dir: &str) -> Option<usize> {
    for (at, byte) in dir.as_bytes().iter().enumerate() {
        if *byte == b'/' && at > 0 {
            if let Some(folder) = dir.get(..at) {
                if is_missing(rt, folder) {
                    return Some(at);
                }
            }
        }
    }
    if is_missing(rt, dir) {
        Some(dir.len())
    } else {
        None
    }
}

// Whether there is nothing at a path.
fn is_missing<R: Files>(rt: &R, path: &str) -> bool {
    match fs::metadata(rt, path) {
        Ok(_) => false,
        Err(error) => error.kind() == ErrorKind::NotFound,
    }
}

/// Takes folders away that were made for DIR, from where the path of the first ends. Those that aren't empty stay.
pub(crate) fn remove_made<R: Files>(rt: &R, dir: &str, made: Option<usize>) {
    let Some(first) = made else {
        return;
    };
    let _ = fs::remove_dir(rt, dir);
    for (at, byte) in dir.as_bytes().iter().enumerate().rev() {
        if *byte == b'/' && at >= first {
            if let Some(folder) = dir.get(..at) {
                let _ = fs::remove_dir(rt, folder);
            }
        }
    }
}

// What was found of a folder, as it is judged.
fn found_of(seen: Option<Seen>) -> Option<Found>
    ensures { is_none result ≡ is_none seen }
{
    match seen {
        Some(seen) => Some(seen.found),
        None => None,
    }
}

// Locks the folder of a node if it is there, and looks at it, unless it is left out.
fn look_in_node<
    F: Read + Write + Seek + FileExt + OpenFile + Drop + Lockable,
    R: Files<File = F> + AllocGlobal,
>(
    rt: &R,
    locks: &mut Locks<F>,
    dir: &str,
    node: NodeId,
    without: NodeSet,
    noted: Option<Mark>,
) -> Result<(Option<Seen>, Option<Tip>), Closed>
    ensures { IfOk result (λ look. has_member without node ≡ is_none look.0) }
{
    if without.contains(node) {
        return Ok((None, None));
    }
    let index = node.index();
    let path = format!(in rt.alloc(); "{dir}/{index}")?;
    if is_there(rt, path.as_str())? {
        locks.add(rt, path.as_str())?;
    }
    let (seen, tip) = look_at(rt, locks, path.as_str())?;
    let seen = with_note(rt, path.as_str(), seen, noted)?;
    Ok((Some(seen), tip))
}

// Locks DIR and the folders in it that are there, but not those that are left out, and looks at all of these.
#[tactic(auto, using(crate::proofs::Guarding::left_out_pushed))]
fn look_in<
    F: Read + Write + Seek + FileExt + OpenFile + Drop + Lockable,
    R: Files<File = F> + AllocGlobal,
>(
    rt: &R,
    nodes: Nodes,
    dir: &str,
    without: NodeSet,
    made: Option<usize>,
) -> Result<Survey<F>, Closed>
    ensures nodes { IfOk result (λ s. s.nodes ≡ nodes) }
    ensures without { IfOk result (λ s. s.without ≡ without) }
    ensures judged { IfOk result (λ s. IsJudged nodes without s.verdict) }
{
    let mut locks = Locks::on(rt, dir)?;
    let mut seen = Vec::new(rt.alloc());
    let mut known = Vec::new(rt.alloc());
    let mut found = Vec::new(rt.alloc());
    let noted = noted_in(rt, dir)?;
    for index in 0..nodes.count() {
        let Some(node) = NodeId::new(nodes, index) else {
            unreachable!()
        };
        let noted = noted_of(noted.as_slice(), index);
        let (look, tip) = look_in_node(rt, &mut locks, dir, node, without, noted)?;
        found.push(found_of(look))?;
        seen.push(look)?;
        known.push(tip)?;
    }
    let path = format!(in rt.alloc(); "{dir}/cluster")?;
    let cluster = cluster_in(rt, locks.dir())?;
    see_requests(rt, dir)?;
    let verdict = judge(nodes, cluster.as_ref(), found.as_slice());
    Ok(Survey {
        locks,
        without,
        seen,
        known,
        has_cluster_file: is_there(rt, path.as_str())?,
        made,
        verdict,
    })
}

/// Locks the folder DIR, which is made where it is missing, and looks at all folders of a cluster but those of the nodes that are left out:
/// these are neither locked nor looked at. Nothing else is made.
///
/// # Errors
/// `InUse`, `Failed` or `OutOfMemory`. Then what was made is taken away.
pub fn survey_folders<
    F: Read + Write + Seek + FileExt + OpenFile + Drop + Lockable,
    R: Files<File = F> + AllocGlobal,
>(rt: &R, nodes: Nodes, dir: &str, without: NodeSet) -> Result<Survey<F>, Closed>
    ensures nodes { IfOk result (λ s. s.nodes ≡ nodes) }
    ensures without { IfOk result (λ s. s.without ≡ without) }
    ensures judged { IfOk result (λ s. IsJudged nodes without s.verdict) }
{
    let made = first_missing(rt, dir);
    let looked = match done(rt, dir, "making the folder", make_folder(rt, dir)) {
        Ok(()) => look_in(rt, nodes, dir, without, made),
        Err(closed) => Err(closed),
    };
    if looked.is_err() {
        remove_made(rt, dir, made);
    }
    looked
}

/// Why folders aren't judged: a call failed in the folder of this node, or elsewhere.
#[derive(Drop)]
pub(crate) struct Unjudged {
    pub(crate) node: Option<NodeId>,
    pub(crate) why: Closed,
}

impl From<Closed> for Unjudged {
    fn from(why: Closed) -> Unjudged {
        Unjudged { node: None, why }
    }
}

impl<T: Drop> From<AllocFailed<T>> for Unjudged {
    fn from(_error: AllocFailed<T>) -> Unjudged {
        Unjudged {
            node: None,
            why: Closed::OutOfMemory,
        }
    }
}

// What is found of a node's folder, unless it is left out.
fn find_in_node<R: Files + AllocGlobal>(
    rt: &R,
    dir: &str,
    node: NodeId,
    without: NodeSet,
    noted: Option<Mark>,
) -> Result<Option<Found>, Closed>
    ensures { IfOk result (λ found. has_member without node ≡ is_none found) }
{
    let is_left_out = without.contains(node);
    if is_left_out {
        return Ok(None);
    }
    let index = node.index();
    let path = format!(in rt.alloc(); "{dir}/{index}")?;
    let (look, _) = look_over(rt, path.as_str())?;
    let look = with_note(rt, path.as_str(), look, noted)?;
    Ok(Some(look.found))
}

/// What would be done with the folders of a cluster in the folder DIR, but those of the nodes that are left out. Nothing is locked, made or written.
///
/// # Errors
/// `Failed`, with the node whose folder it is, if it is one's; `OutOfMemory`.
#[tactic(auto, using(crate::proofs::Guarding::left_out_pushed))]
pub(crate) fn judge_without<R: Files + AllocGlobal>(
    rt: &R,
    nodes: Nodes,
    dir: &str,
    without: NodeSet,
) -> Result<Verdict, Unjudged>
    ensures { IfOk result (IsJudged nodes without) }
{
    let mut found = Vec::new(rt.alloc());
    let noted = noted_in(rt, dir)?;
    for index in 0..nodes.count() {
        let Some(node) = NodeId::new(nodes, index) else {
            unreachable!()
        };
        let noted = noted_of(noted.as_slice(), index);
        match find_in_node(rt, dir, node, without, noted) {
            Ok(look) => found.push(look)?,
            Err(why) => {
                let node = Some(node);
                return Err(Unjudged { node, why });
            }
        }
    }
    let cluster = cluster_in(rt, dir)?;
    Ok(judge(nodes, cluster.as_ref(), found.as_slice()))
}

/// What would be done with the folders of a cluster in the folder DIR, none of them left out. Nothing is locked, made or written, so another program may change
/// them meanwhile.
///
/// # Errors
/// `Failed`, `OutOfMemory`.
pub fn judge_folders<R: Files + AllocGlobal>(
    rt: &R,
    nodes: Nodes,
    dir: &str,
) -> Result<Verdict, Closed>
    ensures { IfOk result (IsJudged nodes 0) }
{
    match judge_without(rt, nodes, dir, NodeSet::empty()) {
        Ok(verdict) => Ok(verdict),
        Err(Unjudged { node: _, why }) => Err(why),
    }
}

// The disk in a folder that has a mark. What is written there goes on in the mark. None: it has none.
fn open_marked<
    'x,
    F: Read + Write + Seek + FileExt + OpenFile + Drop,
    R: Files<File = F> + AllocGlobal + MarkWriter,
>(rt: &'x R, folder: &str) -> Result<Option<NodeDisk<'x, F, R>>, Closed> {
    let (seen, known) = look_over(rt, folder)?;
    let Some(mark) = seen.found.mark else {
        return Ok(None);
    };
    let (node, course) = (mark.node, mark.course);
    let keeper = FolderMark::new(rt.alloc(), rt, folder, mark, None)?;
    let disk = open_files(rt, folder, node, false, None)?;
    Ok(Some(MarkedDisk::new(disk, keeper, course, known)))
}

impl<F: Read + Write + Seek + FileExt + OpenFile + Drop> Locks<F> {
    /// The disk in a folder that is locked, opened to read and write, where the folder has a mark: what is written there goes on in
    /// the mark. None: it has none.
    ///
    /// # Errors
    /// `OutOfMemory`; `Device` where a file is missing, isn't plain, or can't be opened so.
    pub fn marked_disk_in<'x, R: Files<File = F> + AllocGlobal + MarkWriter>(
        &self,
        rt: &'x R,
        folder: &str,
    ) -> Result<Option<NodeDisk<'x, F, R>>, Refusal>
        requires locked { Contains self.now folder.now }
        ensures cause { IfErr result (λ e. (e ≡ OutOfMemory) ⊎ (e ≡ Device)) }
    {
        match open_marked(rt, folder) {
            Ok(disk) => Ok(disk),
            Err(Closed::OutOfMemory | Closed::Unopened(_, Refusal::OutOfMemory)) => {
                Err(Refusal::OutOfMemory)
            }
            Err(_) => Err(Refusal::Device),
        }
    }
}

// The cluster whose disks may be opened, by what was found. What has to be written before is.
fn prepare<F, R: Files<File = F> + AllocGlobal>(
    rt: &R,
    nodes: Nodes,
    dir: &str,
    survey: &Survey<F>,
) -> Result<Cluster, Closed>
    ensures { IsPrepared nodes survey.now.verdict result }
{
    match survey.verdict {
        Verdict::Refused(node, fault) => Err(Closed::Refused(node, fault)),
        Verdict::Begin => begin(rt, dir, nodes, survey),
        Verdict::TakeOn(named) => take_on(rt, dir, nodes, named, survey),
        Verdict::Open(cluster) => Ok(cluster),
    }
}

// The same. Where there is none, folders that were made for DIR are taken away.
fn prepare_or_remove<F, R: Files<File = F> + AllocGlobal>(
    rt: &R,
    nodes: Nodes,
    dir: &str,
    survey: &Survey<F>,
) -> Result<Cluster, Closed>
    ensures { IsPrepared nodes survey.now.verdict result }
{
    let prepared = prepare(rt, nodes, dir, survey);
    if prepared.is_err() {
        remove_made(rt, dir, survey.made);
    }
    prepared
}

// Makes the names of new folders last, as what is written in them does.
fn sync_names<R: Files + AllocGlobal>(rt: &R, dir: &str) -> Result<(), Closed> {
    let folder = done(rt, dir, "opening the folder", fs::open(rt, dir))?;
    done(rt, dir, "syncing the folder", folder.sync_all())
}

// Opens the disks. Where they can't be, what was made is taken away.
fn open_or_tidy<
    'x,
    F: Read + Write + Seek + FileExt + OpenFile + Drop + Lockable,
    R: Files<File = F> + AllocGlobal + MarkWriter<Handle = F>,
>(
    rt: &'x R,
    nodes: Nodes,
    dir: &str,
    cluster: &Cluster,
    survey: &mut Survey<F>,
    reasons: &Reasons,
) -> Result<Vec<NodeHome<'x, F, R>>, Closed>
    ensures count { IfOk result (λ v. length v.items ≡ nodes) }
    ensures left_out { IfOk result (λ v. AreLeftOut survey.old.without 0 (map (λ h. h.disk) v.items)) }
{
    match open_homes(rt, nodes, dir, cluster, survey, reasons) {
        Ok(homes) => Ok(homes),
        Err(closed) => {
            let _ = tidy(rt, dir, survey);
            Err(closed)
        }
    }
}

/// Opens the disks of folders as they were found. Nodes that haven't been formatted are, and the cluster's file says so before any
/// serves. The disks of nodes that are left out aren't opened: their folders stay as they are.
///
/// # Errors
/// `Refused`, where the folders may not be opened: nothing is written then. `Unopened`, `InUse`, `Failed` or `OutOfMemory`: what was
/// made is taken away, unless the cluster's file may say already that its nodes have been formatted.
pub fn enter<
    'x,
    F: Read + Write + Seek + FileExt + OpenFile + Drop + Lockable,
    R: Files<File = F> + AllocGlobal + MarkWriter<Handle = F>,
>(rt: &'x R, nodes: Nodes, dir: &str, survey: Survey<F>) -> Result<Folders<'x, F, R>, Closed>
    ensures disks { IfOk result (λ f. length f.disks.items ≡ nodes) }
    ensures left_out { IfOk result (λ f. AreLeftOut survey.without 0 (map (λ h. h.disk) f.disks.items)) }
    ensures allowed { IsOk result → MayBeOpened survey.verdict }
{
    let mut survey = survey;
    let without = survey.without;
    let cluster = prepare_or_remove(rt, nodes, dir, &survey)?;
    let reasons = Reasons::new(rt.alloc(), dir, nodes)?;
    let disks = open_or_tidy(rt, nodes, dir, &cluster, &mut survey, &reasons)?;
    if !are_formatted(&cluster) {
        let _ = conclude(rt, dir, &cluster, &survey)?;
    }
    sync_names(rt, dir)?;
    // (where they can't be noted, what was noted before holds on)
    let _ = note_all(rt, dir, nodes, cluster.identity, without);
    Ok(Folders {
        locks: survey.into_locks(),
        disks,
        reasons,
    })
}

/// Opens the folders of a cluster in the folder DIR, but those of the nodes that are left out. What is missing is made where a new cluster
/// begins.
///
/// # Errors
/// Those of `survey_folders` and of `enter`.
pub fn open_folders<
    'x,
    F: Read + Write + Seek + FileExt + OpenFile + Drop + Lockable,
    R: Files<File = F> + AllocGlobal + MarkWriter<Handle = F>,
>(rt: &'x R, nodes: Nodes, dir: &str, without: NodeSet) -> Result<Folders<'x, F, R>, Closed>
    ensures disks { IfOk result (λ f. length f.disks.items ≡ nodes) }
    ensures left_out { IfOk result (λ f. AreLeftOut without 0 (map (λ h. h.disk) f.disks.items)) }
{
    let survey = survey_folders(rt, nodes, dir, without)?;
    enter(rt, nodes, dir, survey)
}
