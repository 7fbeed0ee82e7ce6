//! Locks for a single node's folder, and for programs that only read folders.

ghost use Rattle.std.specs.Prelude.{Contains, IfOk, IfSome};

use crate::closed::Closed;
use crate::lock::{Lockable, Locks};
use crate::plain::{open_folder, see_plain};
use std::alloc::AllocError;
use std::fs::OpenFile;
use std::io;
use std::io::{ErrorKind, Read, Seek, Write};
use std::os::unix::fs::FileExt;
use std::path::Path;
use std::rt::Files;

// The path of the folder above a folder.
fn above<R: AllocGlobal>(rt: &R, folder: &str) -> Result<String, AllocError> {
    let path = Path::new(folder);
    match (path.file_name(), path.parent()) {
        (Some(_), Some(dir)) if dir.as_str() == "" => Ok(format!(in rt.alloc(); ".")?),
        (Some(_), Some(dir)) => {
            let dir = dir.as_str();
            Ok(format!(in rt.alloc(); "{dir}")?)
        }
        _ => Ok(format!(in rt.alloc(); "{folder}/..")?),
    }
}

// The path of the folder above a folder, where that is seen to hold a cluster's file.
fn cluster_above<R: Files + AllocGlobal>(
    rt: &R,
    folder: &str,
) -> Result<Option<String>, AllocError> {
    let dir = above(rt, folder)?;
    let path = dir.as_str();
    if see_plain(rt, format!(in rt.alloc(); "{path}/cluster")?.as_str()).is_ok() {
        Ok(Some(dir))
    } else {
        Ok(None)
    }
}

/// Locks the folder of one node, and before it the folder above, where that holds a cluster's file: as those lock it who run the
/// cluster.
///
/// # Errors
/// `InUse`, where another program has locked one of them. `Failed` or `OutOfMemory`.
pub fn lock_node<
    F: Read + Write + Seek + FileExt + OpenFile + Drop + Lockable,
    R: Files<File = F> + AllocGlobal,
>(rt: &R, folder: &str) -> Result<Locks<F>, Closed>
    ensures { IfOk result (λ locks. Contains locks folder.now) }
{
    match cluster_above(rt, folder)? {
        Some(dir) => {
            let mut locks = Locks::on(rt, dir.as_str())?;
            locks.add(rt, folder)?;
            Ok(locks)
        }
        None => Locks::on(rt, folder),
    }
}

/// A folder that was locked beside others that only read, and is for as long as this is there. Only `share` gives this.
#[derive(Drop)]
struct Shared<F> {
    folder: F,
}

// Locks a folder that is open beside others that only read. None: another opening of it is locked alone.
fn share<F: Lockable + Drop>(folder: F) -> io::Result<Option<Shared<F>>>
    ensures { IfOk result (λ shared. IfSome shared (λ s. F.was_shared s.folder)) }
{
    if folder.share_now()? {
        Ok(Some(Shared { folder }))
    } else {
        Ok(None)
    }
}

/// The locks of a program that only reads folders. They are held for as long as this is there: no program runs nodes over the folders
/// meanwhile, and others may read them too. What can't be opened or locked isn't, and is read all the same.
#[derive(Drop)]
pub struct Shares<F> {
    held: Vec<Shared<F>>,
}

impl<F: Read + Write + Seek + FileExt + OpenFile + Drop + Lockable> Shares<F> {
    // Locks one more folder, unless that can't be.
    fn add<R: Files<File = F> + AllocGlobal>(&mut self, rt: &R, path: &str) -> Result<(), Closed> {
        let folder = match open_folder(rt, path) {
            Ok(folder) => folder,
            Err(error) if error.kind() == ErrorKind::OutOfMemory => return Err(Closed::OutOfMemory),
            Err(_) => return Ok(()),
        };
        match share(folder) {
            Ok(Some(shared)) => Ok(self.held.push(shared)?),
            Ok(None) => Err(Closed::InUse(format!(in rt.alloc(); "{path}")?)),
            Err(_) => Ok(()),
        }
    }
}

/// Locks the folder of one node to read it, and before it the folder above, where that holds a cluster's file.
///
/// # Errors
/// `InUse`, where a program has locked one of them alone. `OutOfMemory`.
pub fn share_node<
    F: Read + Write + Seek + FileExt + OpenFile + Drop + Lockable,
    R: Files<File = F> + AllocGlobal,
>(rt: &R, folder: &str) -> Result<Shares<F>, Closed> {
    let mut shares = Shares {
        held: Vec::new(rt.alloc()),
    };
    if let Some(dir) = cluster_above(rt, folder)? {
        shares.add(rt, dir.as_str())?;
    }
    shares.add(rt, folder)?;
    Ok(shares)
}

/// Locks the folder DIR, and its folders of the first `count` nodes, to read them.
///
/// # Errors
/// `InUse`, where a program has locked one of them alone. `OutOfMemory`.
pub fn share_cluster<
    F: Read + Write + Seek + FileExt + OpenFile + Drop + Lockable,
    R: Files<File = F> + AllocGlobal,
>(rt: &R, dir: &str, count: u8) -> Result<Shares<F>, Closed> {
    let mut shares = Shares {
        held: Vec::new(rt.alloc()),
    };
    shares.add(rt, dir)?;
    for node in 0..count {
        shares.add(rt, format!(in rt.alloc(); "{dir}/{node}")?.as_str())?;
    }
    Ok(shares)
}
