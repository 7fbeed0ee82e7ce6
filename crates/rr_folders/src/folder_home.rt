//! The folder of a node as its disk's home.

ghost use Rattle.std.specs.Prelude.{◌≡◌, ◌⊎◌, IfOk};
ghost use Rattle.rr_types.specs.declared.refusal.Refusal.TheVariants.{Device, OutOfMemory};
ghost use Rattle.rr_folders.specs.Returns.{IsReturn, IsKept, WasLeft};

use crate::closed::Closed;
use crate::cluster::{Course, Digest, Mark, Reached};
use crate::folder::NodeDisk;
use crate::home::Home;
use crate::lock::Held;
use crate::mark_file::{FolderMark, MarkWriter};
use crate::marked::MarkedDisk;
use crate::noted::Noter;
use crate::reason::{Reason, shared};
use crate::returning::{Entered, FolderId, Site, Whereabouts};
use crate::seen::course_of;
use rr_types::{Refusal, made_of};
use std::alloc::Global;
use std::fs::OpenFile;
use std::io::{Read, Seek, Write};
use std::os::unix::fs::FileExt;
use std::sync::Arc;

/// The folder of a node, which is locked while the disk in it is open. It knows how far the disk came that was let go: an older copy that
/// lies in its place later isn't opened.
pub struct FolderHome<'x, F: Drop, R: MarkWriter<Handle = F>> {
    rt: &'x R,
    alloc: Global,
    site: Site,
    lock: Option<Held<F>>,
    id: Option<FolderId>,
    // how far the disk came that was let go last
    left: Option<Course>,
    // what is to be noted of it; none if no disk was let go yet
    last: Option<Mark>,
    // how often the node had been replaced, by the mark of the disk that was opened last
    replaced: u64,
    reason: Option<Arc<Reason, Global>>,
    noter: Arc<Noter, Global>,
}

impl<'x, F: Drop, R: MarkWriter<Handle = F>> FolderHome<'x, F, R> {
    /// That of a node, which isn't locked yet.
    pub(crate) fn new(
        alloc: Global,
        rt: &'x R,
        site: Site,
        reason: Option<Arc<Reason, Global>>,
        noter: Arc<Noter, Global>,
    ) -> FolderHome<'x, F, R> {
        FolderHome {
            rt,
            alloc,
            site,
            lock: None,
            id: None,
            left: None,
            last: None,
            replaced: 0,
            reason,
            noter,
        }
    }

    /// Where the failures of its disk are noted.
    pub(crate) fn reason(&self) -> Result<Option<Arc<Reason, Global>>, Closed> {
        Ok(shared(&self.reason)?)
    }

    /// The folder's path.
    pub(crate) fn folder(&self) -> &str {
        self.site.folder.as_str()
    }

    /// The disk goes on in a folder with this mark.
    pub(crate) fn go_on(&mut self, mark: &Mark)
        ensures { self.new ≡ record self.old { replaced = mark.now.replaced } }
    {
        self.replaced = mark.replaced;
    }

    // What the node's mark says that is with the disk, if it says this of how far that came.
    fn mark(&self, course: Option<Course>) -> Mark
        ensures { result ≡ record { identity = self.now.site.owner.identity; node = self.now.site.owner.node; course = course; replaced = self.now.replaced } }
    {
        Mark {
            identity: self.site.owner.identity,
            node: self.site.owner.node,
            course,
            replaced: self.replaced,
        }
    }

    /// Holds the lock on the folder, which is this one, for as long as the disk in it is open.
    pub(crate) fn hold(&mut self, lock: Option<Held<F>>, id: Option<FolderId>)
        ensures { self.new ≡ record self.old { lock = lock; id = id } }
    {
        self.lock = lock;
        self.id = id;
    }

    // Notes why the folder isn't opened.
    fn note(&self, closed: &Closed) {
        if let Some(reason) = &self.reason {
            reason.note_closed(closed);
        }
    }

    // Notes that the folder isn't in its place any more, if it isn't.
    fn note_whereabouts(&self, whereabouts: Whereabouts) {
        if let Some(reason) = &self.reason {
            reason.note_whereabouts(whereabouts);
        }
    }

    // A call on the folder goes well again.
    fn note_nothing(&self) {
        if let Some(reason) = &self.reason {
            reason.note_nothing();
        }
    }
}

// What a disk is refused with whose folder isn't opened.
fn refusal_of(closed: &Closed) -> Refusal
    ensures { (result ≡ OutOfMemory) ⊎ (result ≡ Device) }
{
    match closed {
        Closed::OutOfMemory | Closed::Unopened(_, Refusal::OutOfMemory) => Refusal::OutOfMemory,
        _ => Refusal::Device,
    }
}

// The further of how far a disk came at two times, the later one where neither is behind the other.
fn further(before: Option<Course>, since: Option<Course>) -> Option<Course>
    ensures { IsKept before result }
{
    made_of!(Course, Reached, Digest);
    let Some(later) = since else {
        return before;
    };
    match before {
        Some(earlier) if later.to.is_behind(earlier.from) => before,
        _ => since,
    }
}

impl<'x, F: Read + Write + Seek + FileExt + OpenFile + Drop, R: MarkWriter<Handle = F>> FolderHome<
    'x,
    F,
    R,
> {
    // Locks, looks at and opens the folder.
    fn enter_folder(&mut self) -> Result<NodeDisk<'x, F, R>, Closed>
        ensures site { self.new.site ≡ self.old.site }
        ensures returned { IfOk result (λ _. IsReturn self.old.site.owner self.old.left) }
    {
        let reason = self.reason()?;
        let Entered {
            lock,
            files,
            mark,
            known,
            id,
        } = self.rt.enter(&self.site, self.left, reason)?;
        let course = course_of(mark);
        if let Some(mark) = mark {
            self.go_on(&mark);
        }
        let keeper = FolderMark::new(
            self.alloc,
            self.rt,
            self.site.folder.as_str(),
            self.mark(course),
            self.reason()?,
        )?;
        self.hold(Some(lock), id);
        Ok(MarkedDisk::new(files, keeper, course, known))
    }
}

impl<'x, F: Read + Write + Seek + FileExt + OpenFile + Drop, R: MarkWriter<Handle = F>> Home<
    NodeDisk<'x, F, R>,
> for FolderHome<'x, F, R> {
    ghost leaves = { λ h _ g. (g.site ≡ h.site) × WasLeft h.site.owner h.replaced h.left g.left g.last };

    ghost enters = { λ h r g. (g.site ≡ h.site) × IfOk r (λ _. IsReturn h.site.owner h.left) };

    fn leave(&mut self, disk: NodeDisk<'x, F, R>) {
        let whereabouts = self.rt.whereabouts(&self.site, self.id);
        self.note_whereabouts(whereabouts);
        let came = disk.leave(matches!(whereabouts, Whereabouts::Home));
        let left = further(self.left, came);
        self.left = left;
        self.last = Some(self.mark(left));
        self.hold(None, None);
    }

    fn enter(&mut self) -> Result<NodeDisk<'x, F, R>, Refusal> {
        match self.enter_folder() {
            Ok(disk) => {
                self.note_nothing();
                Ok(disk)
            }
            Err(closed) => {
                self.note(&closed);
                Err(refusal_of(&closed))
            }
        }
    }
}

impl<'x, F: Drop, R: MarkWriter<Handle = F>> Drop for FolderHome<'x, F, R> {
    fn drop(self) {
        self.noter.let_go(self.rt, self.site.owner.node, self.last);
        let FolderHome {
            rt: _,
            alloc: _,
            site: _,
            lock: _,
            id: _,
            left: _,
            last: _,
            replaced: _,
            reason: _,
            noter: _,
        } = self;
    }
}
