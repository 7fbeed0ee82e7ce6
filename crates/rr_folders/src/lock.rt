//! Locks on folders, by which a program keeps others off.

ghost use Rattle.std.specs.Prelude.{◌≡◌, ◌+◌, ◌≤◌, ◌⊎◌, ◌∷◌, [], ◌++◌, true, map, string_bytes, Contains, IfOk, IfErr, IfSome, OnOk, OnErr};
ghost use Rattle.rr_types.specs.declared.refusal.Refusal.TheVariants.{Device, OutOfMemory};

use crate::closed::{Closed, done};
use crate::number_file::{Unreserved, reserve, see_numbers};
use crate::plain::{open_folder, see_areas};
use crate::reason::Reasons;
use crate::requests::Block;
use rr_disk::{FileDisk, OpenedFile};
use rr_types::Refusal;
use std::fs::{File, OpenFile, TryLockError};
use std::io;
use std::io::{Read, Seek, Write};
use std::marker::Model;
use std::os::unix::fs::FileExt;
use std::rt::Files;

/// A folder or file that is open. A program can lock it for as long as it is.
pub trait Lockable {
    /// That it was locked.
    ghost was_locked: { Self → Type 0 };

    /// That it was locked beside others that only read.
    ghost was_shared: { Self → Type 0 };

    /// Locks it. The answer is false where another opening of it is locked.
    ///
    /// # Errors
    /// Those of the system.
    fn lock_now(&self) -> io::Result<bool>
        ensures { IfOk result (λ is_locked. is_locked ≡ true → was_locked self.now) };

    /// Locks it beside others that only read. The answer is false where another opening of it is locked alone.
    ///
    /// # Errors
    /// Those of the system.
    fn share_now(&self) -> io::Result<bool>
        ensures { IfOk result (λ is_shared. is_shared ≡ true → was_shared self.now) };
}

// Whether a lock was had.
fn had(locked: Result<(), TryLockError>) -> io::Result<bool> {
    match locked {
        Ok(()) => Ok(true),
        Err(TryLockError::WouldBlock) => Ok(false),
        Err(TryLockError::Error(error)) => Err(error),
    }
}

impl Lockable for File {
    ghost was_locked = { λ _. Unit {0} };

    ghost was_shared = { λ _. Unit {0} };

    fn lock_now(&self) -> io::Result<bool> {
        had(self.try_lock())
    }

    fn share_now(&self) -> io::Result<bool> {
        had(self.try_lock_shared())
    }
}

/// A folder of this path that was locked, and is for as long as this is there. Only `lock` gives this.
#[derive(Drop)]
pub struct Held<F> {
    path: String,
    folder: F,
}

// Locks a folder that is open. None: another opening of it is locked.
fn lock<F: Lockable + Drop>(path: String, folder: F) -> io::Result<Option<Held<F>>>
    ensures { IfOk result (λ held. IfSome held (λ h. (h.path ≡ path) × F.was_locked h.folder)) }
{
    if folder.lock_now()? {
        Ok(Some(Held { path, folder }))
    } else {
        Ok(None)
    }
}

/// The locks on the folder DIR of a cluster and on those in it that are there. They are held for as long as this is there, so whoever
/// reads or writes in the folders borrows it meanwhile. Contracts see the paths of the folders that are locked.
#[derive(Drop)]
pub struct Locks<F> {
    own: Held<F>,
    held: Vec<Held<F>>,
}

impl<F> Model for Locks<F> {
    ghost use Rattle.std.specs.Prelude.{ℕ, List, ◌∷◌, map, string_bytes};

    ghost Value = { List (List ℕ) };

    ghost view = { λ l. string_bytes l.own.path ∷ map (λ h. string_bytes h.path) l.held.items };
}

/// Locks the folder of this path.
///
/// # Errors
/// `InUse`, `Failed` or `OutOfMemory`.
pub(crate) fn lock_at<F: Lockable + Drop, R: Files<File = F> + AllocGlobal>(
    rt: &R,
    path: &str,
) -> Result<Held<F>, Closed>
    ensures { IfOk result (λ h. (string_bytes h.path ≡ path.now) × F.was_locked h.folder) }
{
    let folder = done(rt, path, "opening the folder", open_folder(rt, path))?;
    let name = format!(in rt.alloc(); "{path}")?;
    match done(rt, path, "locking", lock(name, folder))? {
        Some(held) => Ok(held),
        None => Err(Closed::InUse(format!(in rt.alloc(); "{path}")?)),
    }
}

impl<F: Read + Write + Seek + FileExt + OpenFile + Drop> Locks<F> {
    /// Locks the folder DIR.
    pub(crate) fn on<R: Files<File = F> + AllocGlobal>(
        rt: &R,
        dir: &str,
    ) -> Result<Locks<F>, Closed>
    where
        F: Lockable,
        ensures { IfOk result (λ locks. locks ≡ dir.now ∷ []) }
    {
        let own = lock_at(rt, dir)?;
        Ok(Locks {
            own,
            held: Vec::new(rt.alloc()),
        })
    }

    /// Locks another folder.
    pub(crate) fn add<R: Files<File = F> + AllocGlobal>(
        &mut self,
        rt: &R,
        path: &str,
    ) -> Result<(), Closed>
    where
        F: Lockable,
        ensures ok { OnOk result (self.new ≡ self.old ++ path.now ∷ []) }
        ensures err { OnErr result (self.new ≡ self.old) }
    {
        let held = lock_at(rt, path)?;
        self.held.push(held)?;
        Ok(())
    }

    /// Gives the lock on a folder to somebody else. None: the folder isn't among those.
    pub(crate) fn give(&mut self, path: &str) -> Option<Held<F>> {
        let place = self
            .held
            .iter()
            .position(|held| held.path.as_str() == path)?;
        Some(self.held.remove(place))
    }

    /// The path of the folder DIR.
    pub fn dir(&self) -> &str {
        self.own.path.as_str()
    }

    /// The disk of the files `a0` and `a1` of a folder that is locked, opened to read and write. Nothing is made.
    ///
    /// # Errors
    /// `OutOfMemory`; `Device` where a file is missing, isn't plain, or can't be opened so.
    pub fn disk_in<R: Files<File = F> + AllocGlobal>(
        &self,
        rt: &R,
        folder: &str,
    ) -> Result<FileDisk<OpenedFile<F>>, Refusal>
        requires locked { Contains self.now folder.now }
        ensures cause { IfErr result (λ e. (e ≡ OutOfMemory) ⊎ (e ≡ Device)) }
    {
        see_areas(rt, folder)?;
        FileDisk::open(rt, folder, false)
    }

    /// Sees that request numbers can be reserved by the file `requests` of the folder DIR. Nothing is written.
    ///
    /// # Errors
    /// Those of `see_in`, with the call that failed, if one did.
    pub fn see_numbers<R: Files<File = F> + AllocGlobal>(&self, rt: &R) -> Result<(), Unreserved> {
        see_numbers(rt, self.dir())
    }

    /// Reserves the next block of request numbers, from `least` on, by the file `requests` of the folder DIR. No earlier block has any of
    /// them. Why a call failed is noted.
    ///
    /// # Errors
    /// Those of `reserve_in`.
    pub fn reserve<R: Files<File = F> + AllocGlobal>(
        &self,
        rt: &R,
        least: u64,
        reasons: &Reasons,
    ) -> Result<Block, Refusal>
        ensures whole { IfOk result (λ b. b.end ≡ b.next + 1048576) }
        ensures least { IfOk result (λ b. least ≤ b.next) }
    {
        match reserve(rt, self.dir(), least) {
            Ok(block) => Ok(block),
            Err(unreserved) => Err(reasons.note_numbers(unreserved)),
        }
    }
}
