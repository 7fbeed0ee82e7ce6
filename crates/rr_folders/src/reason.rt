//! Why a disk in a node's folder failed, or isn't opened again: which call on which of its files, and what the system said, or what is wrong
//! with the folder. A thread that calls the disk notes it, and whoever ends the run tells it. An atomic's value is in no clause.

ghost use Rattle.std.specs.Prelude.{◌≡◌};

use crate::closed::{Closed, failed};
use crate::faults::{print_fault, print_moved};
use crate::noted::node_at;
use crate::number_file::Unreserved;
use crate::returning::Whereabouts;
use crate::trouble::{Call, Spot, Trouble, code_of, error_of};
use rr_disk::{Area, AreaFile};
use rr_types::{NodeId, Nodes, Refusal};
use std::alloc::{AllocError, Global};
use std::io;
use std::io::Write;
use std::sync::Arc;
use std::sync::atomic::{AtomicU64, Ordering};

/// What went wrong last with a node's disk, as a number. 0: nothing.
#[derive(Drop)]
pub struct Reason {
    noted: AtomicU64,
}

impl Reason {
    /// Nothing went wrong.
    pub(crate) fn new() -> Reason {
        Reason {
            noted: AtomicU64::new(0),
        }
    }

    // Notes a call that failed on the file of an area.
    fn note(&self, area: Area, call: Call, error: &io::Error) {
        let code = code_of(error);
        let trouble = Trouble::Area { area, call, code };
        self.noted.store(trouble.number(), Ordering::SeqCst);
    }

    /// Notes why the folder isn't opened again; nothing where memory was refused.
    pub(crate) fn note_closed(&self, closed: &Closed) {
        if let Some(trouble) = Trouble::of_closed(closed) {
            self.noted.store(trouble.number(), Ordering::SeqCst);
        }
    }

    /// Notes that the folder isn't in its place any more, if it isn't.
    pub(crate) fn note_whereabouts(&self, whereabouts: Whereabouts) {
        let trouble = match whereabouts {
            Whereabouts::Removed => Trouble::Removed,
            Whereabouts::Replaced => Trouble::Replaced,
            Whereabouts::Home | Whereabouts::Unknown => return,
        };
        self.noted.store(trouble.number(), Ordering::SeqCst);
    }

    /// Notes that the disk is open again.
    pub(crate) fn note_nothing(&self) {
        self.noted.store(0, Ordering::SeqCst);
    }

    /// The call that failed in a folder, if one was noted.
    pub(crate) fn closed<R: AllocGlobal>(&self, rt: &R, folder: &str) -> Option<Closed> {
        let (name, call, code) = match self.trouble()? {
            Trouble::Area { area, call, code } => (Spot::of_area(area).name(), call, code),
            Trouble::Entering { spot, call, code } => (spot.name(), call, code),
            _ => return None,
        };
        let path = match format!(in rt.alloc(); "{folder}{name}") {
            Ok(path) => path,
            Err(_) => return Some(Closed::OutOfMemory),
        };
        Some(failed(rt, path.as_str(), call.words(), error_of(code)))
    }

    // What was noted.
    fn trouble(&self) -> Option<Trouble> {
        Trouble::of_number(self.noted.load(Ordering::SeqCst))
    }
}

/// Another owner of a reason.
pub(crate) fn shared(
    reason: &Option<Arc<Reason, Global>>,
) -> Result<Option<Arc<Reason, Global>>, AllocError> {
    match reason {
        Some(reason) => Ok(Some(Arc::try_clone(reason)?)),
        None => Ok(None),
    }
}

// The number of an area in the name of its file.
fn number_of(area: Area) -> u8 {
    match area {
        Area::First => 0,
        Area::Second => 1,
    }
}

// Prints what went wrong with the disk of a node of so many in the folder DIR, in one line.
fn print_trouble<W: Write>(
    err: &mut W,
    dir: &str,
    nodes: Nodes,
    node: NodeId,
    trouble: &Trouble,
) -> io::Result<()> {
    let index = node.index();
    match trouble {
        Trouble::Area { area, call, code } => {
            let (area, call, error) = (number_of(*area), call.words(), error_of(*code));
            writeln!(err, "{dir}/{index}/a{area}: {call}: {error}")
        }
        Trouble::Entering { spot, call, code } => {
            print_entering(err, dir, node, *spot, *call, &error_of(*code))
        }
        Trouble::InUse => writeln!(err, "{dir}/{index}: another program has locked it"),
        Trouble::Removed => print_moved(err, dir, nodes, node, true),
        Trouble::Replaced => print_moved(err, dir, nodes, node, false),
        Trouble::Refused(fault) => print_fault(err, dir, nodes, node, fault),
    }
}

// Prints the call by which a node's folder was to be opened again, and what the system said.
fn print_entering<W: Write>(
    err: &mut W,
    dir: &str,
    node: NodeId,
    spot: Spot,
    call: Call,
    error: &io::Error,
) -> io::Result<()> {
    let (index, call) = (node.index(), call.words());
    match spot {
        Spot::Marks => writeln!(err, "{dir}/marks: {call}: {error}"),
        _ => {
            let name = spot.name();
            writeln!(err, "{dir}/{index}{name}: {call}: {error}")
        }
    }
}

/// Why the disks of a cluster's nodes failed or aren't opened again, from node 0 on, and why no request numbers could be reserved.
#[derive(Drop)]
pub struct Reasons {
    dir: String,
    nodes: Nodes,
    noted: Vec<Arc<Reason, Global>>,
    numbers: Reason,
}

impl Reasons {
    /// For the disks of so many nodes in the folder DIR.
    pub(crate) fn new(alloc: Global, dir: &str, nodes: Nodes) -> Result<Reasons, AllocError> {
        let mut noted = Vec::new(alloc);
        for _ in 0..nodes.count() {
            noted.push(Arc::new(alloc, Reason::new())?)?;
        }
        Ok(Reasons {
            dir: format!(in alloc; "{dir}")?,
            nodes,
            noted,
            numbers: Reason::new(),
        })
    }

    /// Notes why no request numbers are reserved, and gives the refusal.
    pub(crate) fn note_numbers(&self, unreserved: Unreserved) -> Refusal
        ensures { result ≡ unreserved.refusal }
    {
        let Unreserved { refusal, why } = unreserved;
        if let Some(closed) = &why {
            self.numbers.note_closed(closed);
        }
        refusal
    }

    /// That of a node's disk.
    pub(crate) fn of(&self, index: u8) -> Result<Option<Arc<Reason, Global>>, AllocError> {
        match self.noted.get(usize::from(index)) {
            Some(reason) => Ok(Some(Arc::try_clone(reason)?)),
            None => Ok(None),
        }
    }

    /// Why the disk of a node failed last, or isn't opened again, without a line feed. Of a call on an open file that is the file, the call and
    /// the system's words; else the line that `print` prints. None: nothing went wrong since it was opened.
    ///
    /// # Errors
    /// Those of a text's memory.
    pub fn text(&self, alloc: Global, node: NodeId) -> Result<Option<String>, AllocError> {
        let index = node.index();
        let Some(reason) = self.noted.get(usize::from(index)) else {
            return Ok(None);
        };
        match reason.trouble() {
            None => Ok(None),
            Some(Trouble::Area { area, call, code }) => {
                let (area, call, error) = (number_of(area), call.words(), error_of(code));
                Ok(Some(format!(in alloc; "{index}/a{area}: {call}: {error}")?))
            }
            Some(trouble) => Ok(Some(self.line(alloc, node, &trouble)?)),
        }
    }

    // The line on what went wrong with a node's disk, without its line feed.
    fn line(&self, alloc: Global, node: NodeId, trouble: &Trouble) -> Result<String, AllocError> {
        let mut line = Vec::new(alloc);
        if print_trouble(&mut line, self.dir.as_str(), self.nodes, node, trouble).is_err() {
            return Err(AllocError);
        }
        let _ = line.pop();
        match String::from_utf8(line) {
            Ok(line) => Ok(line),
            Err(_) => Err(AllocError),
        }
    }

    /// Whether the folder of some node wasn't in its place any more when the node's disk was let go last: it was removed or replaced meanwhile.
    pub fn have_moved(&self) -> bool {
        self.noted.iter().any(|reason| match reason.trouble() {
            Some(trouble) => trouble.is_of_place(),
            None => false,
        })
    }

    // Prints why no request numbers are reserved, where a call failed.
    fn print_numbers<W: Write>(&self, err: &mut W, dir: &str) -> io::Result<bool> {
        match self.numbers.trouble() {
            Some(Trouble::Entering { spot, call, code }) => {
                let (name, call, error) = (spot.name(), call.words(), error_of(code));
                writeln!(err, "{dir}{name}: {call}: {error}")?;
                Ok(true)
            }
            _ => Ok(false),
        }
    }

    /// Prints in the folder DIR the first that was noted, the file, the call and the system's words, or what is wrong with the folder; and each
    /// folder that isn't in its place any more. A line has one. That of the request numbers comes first. It is false where nothing was noted.
    ///
    /// # Errors
    /// Those of the writer.
    pub fn print<W: Write>(&self, err: &mut W, dir: &str) -> io::Result<bool> {
        let mut has_printed = self.print_numbers(err, dir)?;
        for (index, reason) in self.noted.iter().enumerate() {
            if let (Some(trouble), Some(node)) = (reason.trouble(), node_at(index)) {
                if trouble.is_of_place() || !has_printed {
                    print_trouble(err, dir, self.nodes, node, &trouble)?;
                    has_printed = true;
                }
            }
        }
        Ok(has_printed)
    }
}

/// A file of a node's disk. Why a call on it failed is noted.
#[derive(Drop)]
pub struct ToldFile<F> {
    below: F,
    area: Area,
    reason: Option<Arc<Reason, Global>>,
}

impl<F> ToldFile<F> {
    /// Over this file.
    pub(crate) fn new(below: F, area: Area, reason: Option<Arc<Reason, Global>>) -> ToldFile<F>
        ensures { result.below ≡ below }
    {
        ToldFile {
            below,
            area,
            reason,
        }
    }

    // Notes why a call failed.
    fn note(&self, call: Call, given: &io::Result<()>) {
        let Err(error) = given else {
            return;
        };
        if let Some(reason) = &self.reason {
            reason.note(self.area, call, error);
        }
    }
}

impl<F: AreaFile> AreaFile for ToldFile<F> {
    ghost gives = { λ f call g. F.gives f.below call g.below };

    fn read_at(&mut self, at: u64, bytes: &mut [u8]) -> io::Result<()> {
        let given = self.below.read_at(at, bytes);
        self.note(Call::Reading, &given);
        given
    }

    fn write_at(&mut self, at: u64, bytes: &[u8]) -> io::Result<()> {
        let given = self.below.write_at(at, bytes);
        self.note(Call::Writing, &given);
        given
    }

    fn sync(&mut self) -> io::Result<()> {
        let given = self.below.sync();
        self.note(Call::Syncing, &given);
        given
    }

    fn length(&self) -> io::Result<u64> {
        self.below.length()
    }
}
