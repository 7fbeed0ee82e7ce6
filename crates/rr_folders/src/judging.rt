//! Whether the folders of a cluster may be opened.

ghost use Rattle.std.specs.Prelude.{◌≡◌, ◌+◌, ◌≤◌, ◌<◌, length, option_map, is_some, Option, Some, None};
ghost use Rattle.std.specs.List.{list_all};
ghost use Rattle.rr_types.specs.Limits.{max_nodes};
ghost use Rattle.rr_folders.specs.Judging.{mark_fault, owner_fault, loss_fault, course_of, lapse_of, lapse_fault, forgetful_fault, lag_fault, outdated_fault, older_fault, memory_fault, disk_fault, fault_of, return_fault, fault_at, first_fault, is_blank, is_fresh, is_fresh_at, first_identity, first_left_out, first_there, count_there, leave_fault, verdict_by_nodes, verdict_by_file, verdict_by_all, verdict_by_folders, verdict_of, Guards, MayReturn, stale_fault, noted_fault, past_fault};

use crate::cluster::{Cluster, Course, Digest, Identity, Mark, Reached, times_in};
use crate::front::Content;
use rr_types::{NodeId, NodeSet, Nodes, made_of};

/// What was found of a node's folder.
#[derive(Clone, Copy, Debug)]
pub struct Found {
    /// What its areas hold.
    pub content: Content,
    /// Whose it is by the file in it. None: it has no such file, or that says nothing.
    pub mark: Option<Mark>,
    /// How far its active area came, looked at as far as the mark says of that epoch. None: no area is active.
    pub active: Option<Reached>,
    /// What was noted last of the folder's mark, outside the folder. None: nothing.
    pub noted: Option<Mark>,
    /// How far its active area came, looked at as far as was noted of that epoch. None: no area is active, or that wasn't looked at.
    pub by_note: Option<Reached>,
}

/// Why the folder of a node may not be opened.
#[derive(Clone, Copy, Debug)]
pub enum Fault {
    /// The node has been formatted, and its folder is gone.
    Missing,
    /// The node has been formatted, and no area in its folder is.
    Blank,
    /// The node has been formatted, and an area is shorter than it was, or gone.
    Cut,
    /// The folder is this node's.
    OtherNode(NodeId),
    /// The cluster, or the disk in the folder, has this number of nodes.
    OtherNodes(Nodes),
    /// The folder is another cluster's.
    OtherCluster,
    /// The node has marked its folder, and nobody has marked this one.
    Unmarked,
    /// The active area has another epoch than the node has marked.
    Older,
    /// The active area is shorter than the node has marked.
    Shorter,
    /// The active area has other bytes than the node has marked.
    Altered,
    /// The node's mark and its disk aren't as far as was noted once: the folder is an older copy.
    Outdated,
    /// The node was replaced since, by the cluster's file: the folder is one of before.
    Replaced,
    /// The folder is left out, and those that aren't are no majority.
    LeftOut,
    /// The folder is left out, and no cluster's file says that each node has been formatted.
    Unfounded,
}

/// What is to be done with folders.
#[derive(Clone, Copy, Debug)]
pub enum Verdict {
    /// This cluster goes on. Its nodes that haven't been formatted are.
    Open(Cluster),
    /// A new cluster begins.
    Begin,
    /// A cluster without a file goes on. This identity some folder names; there is none where none does.
    TakeOn(Option<Identity>),
    /// Nothing is to be opened or written, for the folder of this node.
    Refused(NodeId, Fault),
}

/// What a cluster's file says of the past of its nodes: which have been formatted, and how often nodes were replaced.
#[derive(Clone, Copy, Debug)]
pub struct Past {
    /// The nodes that have been formatted.
    pub formatted: NodeSet,
    /// The sum of 256^P for each time that a node P was replaced.
    pub replaced: u64,
}

/// Whose a folder is: this node's, of so many in this cluster, of which nodes were replaced so often.
#[derive(Clone, Copy, Debug)]
pub struct Owner {
    /// The cluster.
    pub identity: Identity,
    /// How many nodes it has.
    pub nodes: Nodes,
    /// The node.
    pub node: NodeId,
    /// The sum of 256^P for each time that a node P was replaced.
    pub replaced: u64,
}

// What folders are to be: this cluster's, for so many nodes of this past. None: all may have been formatted, and no file counts
// replacements.
#[derive(Clone, Copy, Debug)]
struct Expected {
    identity: Identity,
    nodes: Nodes,
    past: Option<Past>,
}

// What the file in a node's folder has against it.
fn mark_fault(identity: Identity, node: NodeId, mark: Option<Mark>) -> Option<Fault>
    ensures { result ≡ mark_fault identity node mark }
{
    let mark = mark?;
    if !mark.identity.is(identity) {
        Some(Fault::OtherCluster)
    } else if mark.node != node {
        Some(Fault::OtherNode(mark.node))
    } else {
        None
    }
}

// What a disk of this other node, of so many others, has against it.
fn other_owner(nodes: Nodes, node: NodeId, others: Nodes, other: NodeId) -> Option<Fault>
    ensures { result ≡ owner_fault nodes node (Content.Holds other others) }
{
    if others != nodes {
        Some(Fault::OtherNodes(others))
    } else if other != node {
        Some(Fault::OtherNode(other))
    } else {
        None
    }
}

// What the areas have against it: they are another node's.
fn owner_fault(nodes: Nodes, node: NodeId, content: Content) -> Option<Fault>
    ensures { result ≡ owner_fault nodes node content }
{
    match content {
        Content::Holds {
            node: other,
            nodes: others,
        } => other_owner(nodes, node, others, other),
        _ => None,
    }
}

// What they have against it if the node has been formatted.
fn loss_fault(content: Content) -> Option<Fault>
    ensures { result ≡ loss_fault content }
{
    match content {
        Content::Absent => Some(Fault::Missing),
        Content::Blank => Some(Fault::Blank),
        Content::Cut => Some(Fault::Cut),
        Content::Holds { .. } => None,
    }
}

// How far a folder's mark says that its active area came.
fn course_of(mark: Option<Mark>) -> Option<Course>
    ensures { result ≡ course_of mark }
{
    mark?.course
}

// What an area of the marked epoch that isn't as far has against it.
fn lapse_of(reached: Reached, to: Reached) -> Fault
    ensures { result ≡ lapse_of reached to }
{
    if reached.length < to.length {
        Fault::Shorter
    } else {
        Fault::Altered
    }
}

// What an active area that came this far has against it.
fn lapse_fault(course: Course, reached: Reached) -> Option<Fault>
    ensures { result ≡ lapse_fault course reached }
{
    if reached.is(course.from) || reached.is(course.to) {
        None
    } else if reached.epoch == course.to.epoch {
        Some(lapse_of(reached, course.to))
    } else if reached.epoch == course.from.epoch {
        Some(lapse_of(reached, course.from))
    } else {
        Some(Fault::Older)
    }
}

// That the disk in a folder forgot what the folder's mark says.
fn forgetful_fault(course: Option<Course>, active: Option<Reached>) -> Option<Fault>
    ensures { result ≡ forgetful_fault course active }
{
    let course = course?;
    match active {
        Some(reached) => lapse_fault(course, reached),
        None => Some(Fault::Older),
    }
}

// What a mark has against it of which it was noted once how far it says that the disk came.
fn lag_fault(noted: Option<Course>, course: Option<Course>) -> Option<Fault>
    ensures { result ≡ lag_fault noted course }
{
    let noted = noted?;
    match course {
        Some(course) if !course.to.is_behind(noted.from) => None,
        _ => Some(Fault::Outdated),
    }
}

// What a mark has against it of which this one was noted. One from behind a replacement is another disk's, and further.
fn noted_fault(noted: Mark, mark: Mark) -> Option<Fault>
    ensures { result ≡ noted_fault noted mark }
{
    if mark.replaced < noted.replaced {
        Some(Fault::Outdated)
    } else if mark.replaced == noted.replaced {
        lag_fault(noted.course, mark.course)
    } else {
        None
    }
}

// That a folder is older than what was noted of it.
fn outdated_fault(noted: Option<Mark>, mark: Option<Mark>) -> Option<Fault>
    ensures { result ≡ outdated_fault noted mark }
{
    made_of!(Course, Reached, Digest, Identity);
    let noted = noted?;
    let mark = mark?;
    if noted.identity.is(mark.identity) {
        noted_fault(noted, mark)
    } else {
        None
    }
}

// That a node was replaced since its folder was marked.
fn stale_fault(replaced: u64, node: NodeId, mark: Option<Mark>) -> Option<Fault>
    ensures { result ≡ stale_fault replaced node mark }
{
    let mark = mark?;
    if mark.replaced < times_in(replaced, node) {
        Some(Fault::Replaced)
    } else {
        None
    }
}

/// Whether a mark is behind one of the same cluster that was noted before.
pub(crate) fn is_outdated(noted: Mark, mark: Mark) -> bool
    ensures { result ≡ is_some (outdated_fault (Some noted) (Some mark)) }
{
    made_of!(Mark, Course, Reached, Digest, Identity);
    outdated_fault(Some(noted), Some(mark)).is_some()
}

// That a folder is older than what was noted of it. A mark that is behind that is nothing, where the disk isn't.
fn older_fault(found: &Found) -> Option<Fault>
    ensures { result ≡ older_fault found.now }
{
    made_of!(Mark, Course, Reached, Digest, Identity);
    let fault = outdated_fault(found.noted, found.mark)?;
    match forgetful_fault(course_of(found.noted), found.by_note) {
        Some(_) => Some(fault),
        None => None,
    }
}

// That a node forgot something.
fn memory_fault(found: &Found) -> Option<Fault>
    ensures { result ≡ memory_fault found.now }
{
    made_of!(Mark, Course, Reached, Digest, Identity);
    match forgetful_fault(course_of(found.mark), found.active) {
        Some(fault) => Some(fault),
        None => older_fault(found),
    }
}

// That no mark is in the folder of a node that has been formatted, or one from before it was replaced.
fn past_fault(past: Option<Past>, node: NodeId, mark: Option<Mark>) -> Option<Fault>
    ensures { result ≡ past_fault past node mark }
{
    made_of!(Course, Reached, Digest, Identity);
    let past = past?;
    if mark.is_none() {
        Some(Fault::Unmarked)
    } else {
        stale_fault(past.replaced, node, mark)
    }
}

// What is lost of a node.
fn disk_fault(past: Option<Past>, node: NodeId, found: &Found) -> Option<Fault>
    ensures { result ≡ disk_fault past node found.now }
{
    made_of!(Mark, Course, Reached, Digest, Identity);
    let is_formatted = match &past {
        Some(past) => past.formatted.contains(node),
        None => true,
    };
    if !is_formatted {
        return None;
    }
    if let Some(fault) = loss_fault(found.content) {
        return Some(fault);
    }
    match past_fault(past, node, found.mark) {
        Some(fault) => Some(fault),
        None => memory_fault(found),
    }
}

// What is wrong with the folder of a node.
fn fault_of(expected: &Expected, node: NodeId, found: &Found) -> Option<Fault>
    ensures { result ≡ fault_of expected.now.identity expected.now.nodes expected.now.past node found.now }
{
    if let Some(fault) = mark_fault(expected.identity, node, found.mark) {
        return Some(fault);
    }
    match owner_fault(expected.nodes, node, found.content) {
        Some(fault) => Some(fault),
        None => disk_fault(expected.past, node, found),
    }
}

/// What is wrong with the folder of a node of this cluster that starts again: as at an opening of the cluster, or the disk isn't as far as the
/// node left it. It was looked at as far as that, too.
pub(crate) fn return_fault(
    owner: &Owner,
    found: &Found,
    left: Option<Course>,
    reached: Option<Reached>,
) -> Option<Fault>
    ensures fault { result ≡ return_fault owner.now found.now left reached }
    // A node comes back only to its own disk, as far as it was.
    ensures guards { result ≡ None → MayReturn owner.now found.now left reached }
{
    made_of!(Mark, Course, Reached, Digest, Identity, Found);
    let node = owner.node;
    let _index = node.index();
    let past = Past {
        formatted: NodeSet::empty().with(node),
        replaced: owner.replaced,
    };
    let expected = Expected {
        identity: owner.identity,
        nodes: owner.nodes,
        past: Some(past),
    };
    match fault_of(&expected, node, found) {
        Some(fault) => Some(fault),
        None => match forgetful_fault(left, reached) {
            Some(_) => Some(Fault::Outdated),
            None => None,
        },
    }
}

// What is wrong with the folder at a node's place. One that is left out isn't looked at.
fn fault_at(expected: &Expected, node: NodeId, found: &Option<Found>) -> Option<Fault>
    ensures { result ≡ fault_at expected.now.identity expected.now.nodes expected.now.past node found.now }
{
    match found {
        Some(found) => fault_of(expected, node, found),
        None => None,
    }
}

// The first folder that has a fault, from a node on.
fn first_fault(expected: &Expected, index: u8, found: &[Option<Found>]) -> Option<(NodeId, Fault)>
    requires { index + length found.now ≤ max_nodes }
    ensures { result ≡ first_fault expected.now.identity expected.now.nodes expected.now.past index found.now }
{
    let [first, rest @ ..] = found else {
        return None;
    };
    let node = NodeId::at(index)?;
    match fault_at(expected, node, first) {
        Some(fault) => Some((node, fault)),
        None => first_fault(expected, index + 1, rest),
    }
}

// Whether a folder has no disk.
fn is_blank(content: Content) -> bool
    ensures { result ≡ is_blank content }
{
    matches!(content, Content::Absent | Content::Blank)
}

// Whether a folder has neither a disk nor a mark.
fn is_fresh(found: &Found) -> bool
    ensures { result ≡ is_fresh found.now }
{
    is_blank(found.content) && found.mark.is_none()
}

// Whether the folder at a node's place is known to have neither.
fn is_fresh_at(found: &Option<Found>) -> bool
    ensures { result ≡ is_fresh_at found.now }
{
    match found {
        Some(found) => is_fresh(found),
        None => false,
    }
}

// Whether no folder has a disk or a mark.
fn are_fresh(found: &[Option<Found>]) -> bool
    ensures { result ≡ list_all is_fresh_at found.now }
{
    match found {
        [] => true,
        [first, rest @ ..] => is_fresh_at(first) && are_fresh(rest),
    }
}

// The cluster that the first marked folder names.
fn first_identity(found: &[Option<Found>]) -> Option<Identity>
    ensures { result ≡ first_identity found.now }
{
    match found {
        [] => None,
        [
            Some(
                Found {
                    mark: Some(mark),
                    ..
                },
            ),
            ..
        ] => Some(mark.identity),
        [_, rest @ ..] => first_identity(rest),
    }
}

// The first node whose folder is left out, from a node on.
fn first_left_out(index: u8, found: &[Option<Found>]) -> Option<NodeId>
    requires { index + length found.now ≤ max_nodes }
    ensures { result ≡ first_left_out index found.now }
{
    match found {
        [] => None,
        [None, ..] => NodeId::at(index),
        [Some(_), rest @ ..] => first_left_out(index + 1, rest),
    }
}

// The first node whose folder isn't, from a node on; node 0 where all are.
fn first_there(index: u8, found: &[Option<Found>]) -> u8
    requires { index + length found.now ≤ max_nodes }
    ensures first { result ≡ first_there index found.now }
    ensures node { result < max_nodes }
{
    match found {
        [] => 0,
        [Some(_), ..] => index,
        [None, rest @ ..] => first_there(index + 1, rest),
    }
}

// How many folders aren't left out.
fn count_there(found: &[Option<Found>]) -> usize
    ensures count { result ≡ count_there found.now }
    ensures bound { result ≤ length found.now }
{
    match found {
        [] => 0,
        [None, rest @ ..] => count_there(rest),
        [Some(_), rest @ ..] => 1 + count_there(rest),
    }
}

// What so many nodes, of which these have been formatted, have against a start with so many of their folders.
fn leave_fault(nodes: Nodes, formatted: NodeSet, count: usize) -> Option<Fault>
    requires { count ≤ max_nodes }
    ensures { result ≡ leave_fault nodes formatted count }
{
    if formatted.bits() + 1 != 1 << nodes.count() {
        Some(Fault::Unfounded)
    } else if usize::from(nodes.count()) < 2 * count {
        None
    } else {
        Some(Fault::LeftOut)
    }
}

// The verdict on a cluster of this file where none of its nodes is in the way.
fn by_nodes(nodes: Nodes, cluster: &Cluster, found: &[Option<Found>]) -> Verdict
    requires { length found.now ≡ nodes }
    ensures { result ≡ verdict_by_nodes nodes cluster.now found.now }
{
    made_of!(Cluster, Identity, Course, Reached, Digest, Found, Verdict);
    let _count = nodes.count();
    let past = Past {
        formatted: cluster.formatted,
        replaced: cluster.replaced,
    };
    let expected = Expected {
        identity: cluster.identity,
        nodes,
        past: Some(past),
    };
    match first_fault(&expected, 0, found) {
        Some((node, fault)) => Verdict::Refused(node, fault),
        None => Verdict::Open(*cluster),
    }
}

fn by_file(nodes: Nodes, cluster: &Cluster, found: &[Option<Found>]) -> Verdict
    requires { length found.now ≡ nodes }
    ensures { result ≡ verdict_by_file nodes cluster.now found.now }
{
    made_of!(Cluster, Identity, Course, Reached, Digest, Found, Verdict);
    let _count = nodes.count();
    if cluster.nodes != nodes {
        let Some(node) = NodeId::at(first_there(0, found)) else {
            unreachable!()
        };
        return Verdict::Refused(node, Fault::OtherNodes(cluster.nodes));
    }
    if let Some(node) = first_left_out(0, found) {
        if let Some(fault) = leave_fault(nodes, cluster.formatted, count_there(found)) {
            return Verdict::Refused(node, fault);
        }
    }
    by_nodes(nodes, cluster, found)
}

// The verdict on folders none of which is left out.
fn by_all(nodes: Nodes, found: &[Option<Found>]) -> Verdict
    requires { length found.now ≡ nodes }
    ensures { result ≡ verdict_by_all nodes found.now }
{
    let _count = nodes.count();
    if are_fresh(found) {
        return Verdict::Begin;
    }
    let named = first_identity(found);
    let identity = match named {
        Some(identity) => identity,
        None => Identity {
            first: 0,
            second: 0,
        },
    };
    let expected = Expected {
        identity,
        nodes,
        past: None,
    };
    match first_fault(&expected, 0, found) {
        Some((node, fault)) => Verdict::Refused(node, fault),
        None => Verdict::TakeOn(named),
    }
}

fn by_folders(nodes: Nodes, found: &[Option<Found>]) -> Verdict
    requires { length found.now ≡ nodes }
    ensures { result ≡ verdict_by_folders nodes found.now }
{
    let _count = nodes.count();
    match first_left_out(0, found) {
        Some(node) => Verdict::Refused(node, Fault::Unfounded),
        None => by_all(nodes, found),
    }
}

/// What is to be done where so many nodes are asked for: by the cluster's file, which may be missing or say nothing, and by what
/// was found of each node's folder, from node 0 on. None: it is left out.
#[tactic(auto, using(crate::proofs::Guarding::verdict_guards))]
pub fn judge(nodes: Nodes, file: Option<&Cluster>, found: &[Option<Found>]) -> Verdict
    requires { length found.now ≡ nodes }
    ensures verdict { result ≡ verdict_of nodes (option_map (λ c. c.now) file.entry) found.now }
    // No node that has been formatted is taken for a fresh one, and none begins in a folder that one has marked. A majority serves.
    ensures guards { Guards nodes (option_map (λ c. c.now) file.entry) found.now result }
{
    let _count = nodes.count();
    match file {
        Some(cluster) => by_file(nodes, cluster, found),
        None => by_folders(nodes, found),
    }
}
