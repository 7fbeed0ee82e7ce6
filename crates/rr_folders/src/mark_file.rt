//! The file that marks a node's folder.

ghost use Rattle.std.specs.Prelude.{is_ok, Bool, Option, IfOk};

use crate::closed::Closed;
use crate::cluster::{Course, Mark};
use crate::forming::{put_in_place, write_fresh};
use crate::noted::note_marks;
use crate::reason::Reason;
use crate::returning::{Entered, FolderId, Site, Whereabouts, enter_site, whereabouts_of};
use rr_types::Refusal;
use std::alloc::{AllocError, Global};
use std::fs::File;
use std::rt::HostRuntime;
use std::sync::Arc;

/// Where it is kept how far a node's disk came.
pub trait MarkKeeper {
    ghost use Rattle.rr_folders.specs.declared.cluster.Course.{Course};

    /// That a put of this course, which succeeded or not, may have brought it from one state to another.
    ghost puts: { Self → Course → Bool → Self → Type 0 };

    /// Puts a mark with this course in place of the one before, and makes it last. A crash leaves one of the two.
    ///
    /// # Errors
    /// `OutOfMemory`, `Device`; it may have been put all the same.
    fn put(&mut self, course: Course) -> Result<(), Refusal>
        ensures { puts self.old course (is_ok result) self.new };
}

/// Who writes marks and opens a node's folder again, in the thread in which the node runs. (A trait of our own: a bound by `Files` can't be
/// rested on in another thread.)
pub trait MarkWriter {
    ghost use Rattle.rr_folders.specs.Returns.{IsReturn};

    /// A file or folder that is open.
    type Handle;

    /// Writes a mark to a new file of a folder, puts that in place of the one at the path, and makes it last.
    ///
    /// # Errors
    /// `OutOfMemory`, `Failed`; it may have been put all the same.
    fn put_mark(&self, mark: &Mark, folder: &str, fresh: &str, path: &str) -> Result<(), Closed>;

    /// Notes in the folder DIR how far the nodes' disks came, from node 0 on: the mark in a node's folder, or where that isn't the node's or says
    /// less, this one, which says how far its disk came. None: the folder isn't looked at, and what was noted stays.
    ///
    /// # Errors
    /// `OutOfMemory`, `Failed`; they may have been noted all the same.
    fn note(&self, dir: &str, last: &[Option<Mark>]) -> Result<(), Closed>;

    /// Where a node's folder is, which was this one.
    fn whereabouts(&self, site: &Site, id: Option<FolderId>) -> Whereabouts;

    /// Locks a node's folder, looks at it, and opens its files: only if it is the node's, and its disk as far as the node left it.
    ///
    /// # Errors
    /// `Refused`, where the folder may not be opened; `Unopened`, `InUse`, `Failed` or `OutOfMemory`.
    fn enter(
        &self,
        site: &Site,
        left: Option<Course>,
        reason: Option<Arc<Reason, Global>>,
    ) -> Result<Entered<Self::Handle>, Closed>
        ensures { IfOk result (λ _. IsReturn site.now.owner left) };
}

impl MarkWriter for HostRuntime {
    type Handle = File;

    fn put_mark(&self, mark: &Mark, folder: &str, fresh: &str, path: &str) -> Result<(), Closed> {
        let text = mark.text(self.alloc())?;
        write_fresh(self, fresh, text.as_slice())?;
        put_in_place(self, folder, fresh, path)
    }

    fn note(&self, dir: &str, last: &[Option<Mark>]) -> Result<(), Closed> {
        note_marks(self, dir, last)
    }

    fn whereabouts(&self, site: &Site, id: Option<FolderId>) -> Whereabouts {
        whereabouts_of(self, site, id)
    }

    fn enter(
        &self,
        site: &Site,
        left: Option<Course>,
        reason: Option<Arc<Reason, Global>>,
    ) -> Result<Entered<File>, Closed> {
        enter_site(self, site, left, reason)
    }
}

/// The file `node` of a node's folder. No contract knows what it holds.
#[derive(Drop)]
pub struct FolderMark<'x, R: MarkWriter> {
    rt: &'x R,
    folder: String,
    path: String,
    fresh: String,
    // what it says but for how far the disk came
    mark: Mark,
    reason: Option<Arc<Reason, Global>>,
}

impl<'x, R: MarkWriter> FolderMark<'x, R> {
    /// That of a folder, which says what this mark says but for how far the disk came. Why a mark can't be put is noted.
    pub(crate) fn new(
        alloc: Global,
        rt: &'x R,
        folder: &str,
        mark: Mark,
        reason: Option<Arc<Reason, Global>>,
    ) -> Result<FolderMark<'x, R>, AllocError> {
        Ok(FolderMark {
            rt,
            folder: format!(in alloc; "{folder}")?,
            path: format!(in alloc; "{folder}/node")?,
            fresh: format!(in alloc; "{folder}/node.new")?,
            mark,
            reason,
        })
    }

    // Writes the file.
    fn write(&self, course: Course) -> Result<(), Closed> {
        let mark = Mark {
            course: Some(course),
            ..self.mark
        };
        self.rt.put_mark(
            &mark,
            self.folder.as_str(),
            self.fresh.as_str(),
            self.path.as_str(),
        )
    }
}

impl<'x, R: MarkWriter> MarkKeeper for FolderMark<'x, R> {
    ghost puts = { λ _ _ _ _. Unit {0} };

    fn put(&mut self, course: Course) -> Result<(), Refusal> {
        match self.write(course) {
            Ok(()) => Ok(()),
            Err(Closed::OutOfMemory) => Err(Refusal::OutOfMemory),
            Err(closed) => {
                if let Some(reason) = &self.reason {
                    reason.note_closed(&closed);
                }
                Err(Refusal::Device)
            }
        }
    }
}
