//! The file `marks` of a cluster's folder: how far each node's mark was noted to say that its disk came. A folder whose mark isn't as far any
//! more is an older copy.

use crate::closed::{Closed, done};
use crate::cluster::{Course, Digest, Identity, Mark, Reached};
use crate::forming::{put_in_place, write_fresh};
use crate::judging::is_outdated;
use crate::mark_file::MarkWriter;
use crate::seen::{bytes_of, mark_in};
use rr_types::{NodeId, NodeSet, Nodes, made_of};
use std::alloc::AllocError;
use std::fs;
use std::fs::OpenFile;
use std::rt::Files;
use std::sync::OnceLock;
use std::sync::atomic::{AtomicU64, Ordering};

/// How many marks there are at most.
const MOST: usize = 7;

/// Where the marks of a cluster's nodes are noted, once the last of their disks is let go.
#[derive(Drop)]
pub(crate) struct Noter {
    dir: String,
    // how far the disk of a node came, as a mark says it, if it was ever open, from node 0 on
    last: Vec<OnceLock<Mark>>,
    // how many disks haven't been let go
    held: AtomicU64,
}

impl Noter {
    /// For the disks of so many nodes in the folder DIR.
    pub(crate) fn new<R: AllocGlobal>(
        rt: &R,
        dir: &str,
        nodes: Nodes,
    ) -> Result<Noter, AllocError> {
        let mut last = Vec::new(rt.alloc());
        for _ in 0..nodes.count() {
            last.push(OnceLock::new())?;
        }
        Ok(Noter {
            dir: format!(in rt.alloc(); "{dir}")?,
            last,
            held: AtomicU64::new(u64::from(nodes.count())),
        })
    }

    // How far the nodes' disks came, as far as that is known by now.
    fn marks(&self) -> [Option<Mark>; MOST] {
        made_of!(Mark, Course, Reached, Digest, Identity);
        let mut marks = [None; MOST];
        for (mark, last) in marks.iter_mut().zip(self.last.iter()) {
            *mark = match last.get() {
                Some(last) => Some(*last),
                None => None,
            };
        }
        marks
    }

    /// Lets one of the disks go, which came as far as this mark says; none, if it was never open. Behind the last one all is noted. Where it
    /// can't be, what was noted before holds on.
    pub(crate) fn let_go<R: MarkWriter>(&self, rt: &R, node: NodeId, mark: Option<Mark>) {
        if let Some(mark) = mark {
            if let Some(last) = self.last.get(usize::from(node.index())) {
                let _ = last.try_set(mark);
            }
        }
        if self.held.fetch_sub(1, Ordering::SeqCst) == 1 {
            let marks = self.marks();
            let count = self.last.len().min(MOST);
            let _ = rt.note(self.dir.as_str(), &marks[..count]);
        }
    }
}

/// The node of a place in a list.
pub(crate) fn node_at(place: usize) -> Option<NodeId> {
    let index = u8::try_from(place).ok()?;
    NodeId::at(index)
}

/// Notes the marks of the nodes of a cluster in the folder DIR, but of those that are left out.
pub(crate) fn note_all<R: Files + AllocGlobal>(
    rt: &R,
    dir: &str,
    nodes: Nodes,
    identity: Identity,
    without: NodeSet,
) -> Result<(), Closed> {
    let mut last = [None; MOST];
    for (index, last) in last.iter_mut().enumerate() {
        if let Some(node) = node_at(index) {
            if !without.contains(node) {
                *last = Some(Mark {
                    identity,
                    node,
                    course: None,
                    replaced: 0,
                });
            }
        }
    }
    let count = usize::from(nodes.count()).min(MOST);
    note_marks(rt, dir, &last[..count])
}

// The marks of the lines of a text, from node 0 on. A line that is no mark is passed over.
fn marks_of<R: AllocGlobal>(rt: &R, text: &[u8]) -> Result<Vec<Option<Mark>>, AllocError> {
    let mut marks = Vec::new(rt.alloc());
    for _ in 0..MOST {
        marks.push(None)?;
    }
    let mut rest = text;
    for _ in 0..MOST {
        let Some(end) = rest.iter().position(|byte| *byte == b'\n') else {
            break;
        };
        let (line, more) = rest.split_at(end + 1);
        if let Some(mark) = Mark::parse(line) {
            if let Some(place) = marks.get_mut(usize::from(mark.node.index())) {
                *place = Some(mark);
            }
        }
        rest = more;
    }
    Ok(marks)
}

/// The marks that were noted in the folder DIR, from node 0 on.
pub(crate) fn noted_in<R: Files + AllocGlobal>(
    rt: &R,
    dir: &str,
) -> Result<Vec<Option<Mark>>, Closed> {
    let path = format!(in rt.alloc(); "{dir}/marks")?;
    match bytes_of(rt, path.as_str())? {
        Some(text) => Ok(marks_of(rt, text.as_slice())?),
        None => Ok(marks_of(rt, b"")?),
    }
}

// The mark that was noted at a place.
fn noted_at(noted: &[Option<Mark>], place: usize) -> Option<Mark> {
    match noted.get(place) {
        Some(mark) => *mark,
        None => None,
    }
}

/// The mark that was noted of a node.
pub(crate) fn noted_of(noted: &[Option<Mark>], index: u8) -> Option<Mark> {
    noted_at(noted, usize::from(index))
}

// What is to be noted of a node: a mark, and whether it is in the node's folder.
#[derive(Clone, Copy, Debug)]
struct Line {
    mark: Mark,
    is_found: bool,
}

// Whether the mark that is in a node's folder is the node's, says how far its disk came, and isn't behind the one that the node had last.
fn is_own(found: &Mark, last: &Mark) -> bool {
    made_of!(Mark, Course, Reached, Digest, Identity);
    found.identity.is(last.identity)
        && found.node == last.node
        && found.course.is_some()
        && !is_outdated(*last, *found)
}

// The mark that is in a node's folder, if it is the node's.
fn own_mark(found: &Option<Mark>, last: &Mark) -> Option<Mark> {
    made_of!(Mark, Course, Reached, Digest, Identity);
    match found {
        Some(mark) if is_own(mark, last) => Some(*mark),
        _ => None,
    }
}

// The mark that a node had last, if it says how far the disk came; else what was noted.
fn known_mark(last: &Mark, noted: Option<Mark>) -> Option<Mark> {
    made_of!(Mark, Course, Reached, Digest, Identity);
    if last.course.is_some() {
        Some(*last)
    } else {
        noted
    }
}

// What is to be noted where this mark is, if there is one.
fn line_of(mark: Option<Mark>, is_found: bool) -> Option<Line> {
    let mark = mark?;
    Some(Line { mark, is_found })
}

// What is to be noted of a node: the mark in its folder, else how far its disk came last. What was noted before stays where it says more: a
// folder's mark may be behind it, though its disk isn't.
fn latest_line(found: &Option<Mark>, last: &Mark, noted: Option<Mark>) -> Option<Line> {
    made_of!(Mark, Course, Reached, Digest, Identity);
    let Line { mark, is_found } = line_by(own_mark(found, last), known_mark(last, noted))?;
    if says_more(&noted, &mark) {
        line_of(noted, false)
    } else {
        Some(Line { mark, is_found })
    }
}

// What is to be noted of a node: a mark that was found, else what is known.
fn line_by(own: Option<Mark>, known: Option<Mark>) -> Option<Line> {
    made_of!(Mark, Course, Reached, Digest, Identity);
    if own.is_some() {
        line_of(own, true)
    } else {
        line_of(known, false)
    }
}

// Whether what was noted before says more of a node than this mark.
fn says_more(noted: &Option<Mark>, mark: &Mark) -> bool {
    made_of!(Mark, Course, Reached, Digest, Identity);
    match noted {
        Some(before) => is_outdated(*before, *mark),
        None => false,
    }
}

// The mark in a folder. A folder that can't be looked at has none.
fn seen_mark<R: Files + AllocGlobal>(rt: &R, folder: &str) -> Result<Option<Mark>, Closed> {
    match mark_in(rt, folder) {
        Err(Closed::Failed { .. }) => Ok(None),
        found => found,
    }
}

// What is to be noted of the nodes that had these marks last. A folder of whose node none is given isn't looked at.
fn lines_of<R: Files + AllocGlobal>(
    rt: &R,
    dir: &str,
    last: &[Option<Mark>],
    noted: &[Option<Mark>],
) -> Result<Vec<Option<Line>>, Closed> {
    made_of!(Mark, Course, Reached, Digest, Identity);
    let mut lines = Vec::new(rt.alloc());
    for (index, last) in last.iter().enumerate().take(MOST) {
        let noted = noted_at(noted, index);
        let line = match last {
            Some(last) => {
                let folder = format!(in rt.alloc(); "{dir}/{index}")?;
                latest_line(&seen_mark(rt, folder.as_str())?, last, noted)
            }
            None => line_of(noted, false),
        };
        lines.push(line)?;
    }
    Ok(lines)
}

// The text of what is to be noted.
fn text_of<R: AllocGlobal>(rt: &R, lines: &[Option<Line>]) -> Result<Vec<u8>, Closed> {
    let mut text = Vec::new(rt.alloc());
    for line in lines {
        if let Some(line) = line {
            text.extend_from_slice(line.mark.text(rt.alloc())?.as_slice())?;
        }
    }
    Ok(text)
}

// Makes what is in the nodes' folders last whose marks are noted.
fn sync_folders<R: Files + AllocGlobal>(
    rt: &R,
    dir: &str,
    lines: &[Option<Line>],
) -> Result<(), Closed> {
    for (index, line) in lines.iter().enumerate() {
        if matches!(line, Some(Line { is_found: true, .. })) {
            let folder = format!(in rt.alloc(); "{dir}/{index}")?;
            let path = folder.as_str();
            let opened = done(rt, path, "opening the folder", fs::open(rt, path))?;
            done(rt, path, "syncing the folder", opened.sync_all())?;
        }
    }
    Ok(())
}

/// Notes the marks of the nodes whose disks came this far last, unless the file says the same or there are none. What is noted lasts in the
/// folders.
pub(crate) fn note_marks<R: Files + AllocGlobal>(
    rt: &R,
    dir: &str,
    last: &[Option<Mark>],
) -> Result<(), Closed> {
    let path = format!(in rt.alloc(); "{dir}/marks")?;
    let fresh = format!(in rt.alloc(); "{dir}/marks.new")?;
    let before = bytes_of(rt, path.as_str())?;
    let noted = match &before {
        Some(text) => marks_of(rt, text.as_slice())?,
        None => marks_of(rt, b"")?,
    };
    let lines = lines_of(rt, dir, last, noted.as_slice())?;
    let text = text_of(rt, lines.as_slice())?;
    let is_noted = match &before {
        Some(before) => before.as_slice() == text.as_slice(),
        None => text.is_empty(),
    };
    if is_noted {
        return Ok(());
    }
    sync_folders(rt, dir, lines.as_slice())?;
    write_fresh(rt, fresh.as_str(), text.as_slice())?;
    put_in_place(rt, dir, fresh.as_str(), path.as_str())
}
