//! The file of request numbers: what a reservation asks of it.

ghost use Rattle.std.specs.Prelude.{◌≡◌, ◌+◌, ◌≤◌, is_ok, IfOk};
ghost use Rattle.rr_folders.specs.NumberCalls.{NumberCall, reads, writes, syncs, renames, syncs_folder, found_by};

use crate::closed::{Closed, failed};
use crate::plain::{make_fresh, see_plain};
use crate::requests::{Block, reserve_in, see_in};
use rr_types::Refusal;
use std::fs::OpenFile;
use std::io::{ErrorKind, Write};
use std::marker::Model;
use std::rt::Files;
use std::{fs, io};

/// The file that says which request numbers are reserved. A reservation changes it by these calls alone, so its clauses can name the
/// calls that it made, in their order.
pub trait NumberFile {
    /// That a call, with its bytes and whether it succeeded, may have brought the file from one state to another.
    ghost gives: { Self → NumberCall → Self → Type 0 };

    /// The bytes of the file. None: there is no file.
    ///
    /// # Errors
    /// Those of the system.
    fn read(&mut self) -> io::Result<Option<Vec<u8>>>
        ensures { gives self.old (reads (found_by result) (is_ok result)) self.new };

    /// Writes a new file beside it, which replaces one that an earlier attempt left.
    ///
    /// # Errors
    /// Those of the system; part of the text may then be written.
    fn write_fresh(&mut self, text: &[u8]) -> io::Result<()>
        ensures { gives self.old (writes text.now (is_ok result)) self.new };

    /// Makes what the new file holds last.
    ///
    /// # Errors
    /// Those of the system.
    fn sync_fresh(&mut self) -> io::Result<()>
        ensures { gives self.old (syncs (is_ok result)) self.new };

    /// Puts the new file in place of the file. A crash leaves one of them.
    ///
    /// # Errors
    /// Those of the system; it may have been renamed all the same.
    fn rename_fresh(&mut self) -> io::Result<()>
        ensures { gives self.old (renames (is_ok result)) self.new };

    /// Makes the names in the folder last.
    ///
    /// # Errors
    /// Those of the system.
    fn sync_folder(&mut self) -> io::Result<()>
        ensures { gives self.old (syncs_folder (is_ok result)) self.new };
}

/// On what a call is made by which numbers are reserved.
#[derive(Clone, Copy, Debug)]
enum On {
    File,
    Fresh,
    Folder,
}

/// The file `requests` of a folder. No contract knows what it holds.
#[derive(Drop)]
pub(crate) struct FolderNumbers<'x, R: Files> {
    rt: &'x R,
    dir: &'x str,
    path: String,
    fresh_path: String,
    fresh: Option<R::File>,
    // why a call failed last
    failed: Option<Closed>,
}

/// Why no request numbers are reserved: the refusal, and the call that failed, if one did.
#[derive(Drop)]
pub struct Unreserved {
    /// The refusal.
    pub refusal: Refusal,
    /// The call that failed: `Failed`.
    pub why: Option<Closed>,
}

impl From<Refusal> for Unreserved {
    fn from(refusal: Refusal) -> Unreserved {
        Unreserved { refusal, why: None }
    }
}

impl<'x, R: Files + AllocGlobal> FolderNumbers<'x, R> {
    /// That of this folder.
    pub(crate) fn new(rt: &'x R, dir: &'x str) -> Result<FolderNumbers<'x, R>, Refusal> {
        Ok(FolderNumbers {
            rt,
            dir,
            path: format!(in rt.alloc(); "{dir}/requests")?,
            fresh_path: format!(in rt.alloc(); "{dir}/requests.new")?,
            fresh: None,
            failed: None,
        })
    }

    // The path of what a call is made on.
    fn path_of(&self, on: On) -> &str {
        match on {
            On::File => self.path.as_str(),
            On::Fresh => self.fresh_path.as_str(),
            On::Folder => self.dir,
        }
    }

    // What a call gave. Why it failed is kept.
    fn kept<T: Drop>(&mut self, on: On, call: &'static str, given: io::Result<T>) -> io::Result<T> {
        match given {
            Ok(value) => Ok(value),
            Err(error) => {
                let kind = error.kind();
                let why = failed(self.rt, self.path_of(on), call, error);
                self.failed = Some(why);
                Err(io::Error::from(kind))
            }
        }
    }

    /// Why a call failed last.
    pub(crate) fn take_failed(&mut self) -> Option<Closed> {
        self.failed.take()
    }
}

impl<'x, R: Files + AllocGlobal> NumberFile for FolderNumbers<'x, R> {
    ghost gives = { λ _ _ _. Unit {0} };

    fn read(&mut self) -> io::Result<Option<Vec<u8>>> {
        match see_plain(self.rt, self.path.as_str()) {
            Ok(()) => {
                let read = fs::read(self.rt, self.path.as_str());
                Ok(Some(self.kept(On::File, "reading", read)?))
            }
            Err(error) if error.kind() == ErrorKind::NotFound => Ok(None),
            Err(error) => self.kept(On::File, "looking", Err(error)),
        }
    }

    fn write_fresh(&mut self, text: &[u8]) -> io::Result<()> {
        let made = make_fresh(self.rt, self.fresh_path.as_str());
        let mut file = self.kept(On::Fresh, "making the file", made)?;
        let written = file.write_all(text);
        self.kept(On::Fresh, "writing", written)?;
        self.fresh = Some(file);
        Ok(())
    }

    fn sync_fresh(&mut self) -> io::Result<()> {
        let synced = match &self.fresh {
            Some(file) => file.sync_all(),
            None => Err(io::Error::from(ErrorKind::NotFound)),
        };
        self.kept(On::Fresh, "syncing", synced)
    }

    fn rename_fresh(&mut self) -> io::Result<()> {
        let renamed = fs::rename(self.rt, self.fresh_path.as_str(), self.path.as_str());
        self.kept(On::File, "renaming", renamed)
    }

    fn sync_folder(&mut self) -> io::Result<()> {
        let opened = fs::open(self.rt, self.dir);
        let folder = self.kept(On::Folder, "opening the folder", opened)?;
        let synced = folder.sync_all();
        self.kept(On::Folder, "syncing the folder", synced)
    }
}

/// Sees that request numbers can be reserved by the file `requests` of a folder. Nothing is written.
pub(crate) fn see_numbers<R: Files + AllocGlobal>(rt: &R, dir: &str) -> Result<(), Unreserved> {
    let mut file = FolderNumbers::new(rt, dir)?;
    match see_in(&mut file) {
        Ok(()) => Ok(()),
        Err(refusal) => {
            let why = file.take_failed();
            Err(Unreserved { refusal, why })
        }
    }
}

/// Reserves the next block of request numbers, from `least` on, by the file `requests` of a folder that is locked. No earlier block
/// has any of them. `Locks::reserve` is the same, for a program that has the locks at hand.
///
/// # Errors
/// Those of `reserve_in`, with the call that failed, if one did.
pub fn reserve<R: Files + AllocGlobal>(rt: &R, dir: &str, least: u64) -> Result<Block, Unreserved>
    ensures whole { IfOk result (λ b. b.end ≡ b.next + 1048576) }
    ensures least { IfOk result (λ b. least ≤ b.next) }
{
    let mut file = FolderNumbers::new(rt, dir)?;
    match reserve_in(rt.alloc(), &mut file, least) {
        Ok(block) => Ok(block),
        Err(refusal) => {
            let why = file.take_failed();
            Err(Unreserved { refusal, why })
        }
    }
}
