//! One area in a file.

ghost use Rattle.std.specs.Prelude.{◌≡◌, true, false, is_ok, OnOk, OnErr};
ghost use Rattle.rr_disk.specs.Asked.{syncs, WritesBack};
ghost use Rattle.rr_disk.specs.Files.{HeldRead, HeldWrite, HeldSync};

use crate::area_file::AreaFile;
use rr_types::Refusal;
use std::alloc::Global;
use std::io;
use std::marker::Model;

/// How many bytes are written back at a time.
const BLOCK: usize = 16384;

/// A file that holds an area.
#[derive(Drop)]
pub struct HeldArea<F> {
    file: F,
    len: u64,
    // whether something was written since the last sync
    unsynced: bool,
}

impl<F> Model for HeldArea<F> {
    ghost use Rattle.rr_disk.specs.Files.{Held};

    ghost Value = { Held F };

    ghost view = { λ a. record { file = a.file; len = a.len; unsynced = a.unsynced } };
}

impl<F> HeldArea<F> {
    /// Over a file of this length, which was just opened.
    pub fn new(file: F, len: u64) -> HeldArea<F>
        ensures { result ≡ record { file = file; len = len; unsynced = false } }
    {
        HeldArea {
            file,
            len,
            unsynced: false,
        }
    }

    /// Its length.
    pub fn len(&self) -> u64
        ensures { result ≡ self.now.len }
    {
        self.len
    }

    /// Gives the file back.
    pub fn into_file(self) -> F
        ensures { result ≡ self.file }
    {
        let HeldArea {
            file,
            len: _,
            unsynced: _,
        } = self;
        file
    }
}

impl<F: AreaFile> HeldArea<F> {
    /// The bytes from an offset on, as many as are asked for or as there are.
    pub fn read(&mut self, alloc: Global, at: u64, count: u64) -> Result<Vec<u8>, Refusal>
        ensures { HeldRead F.gives self.old at count result self.new }
    {
        let there = count.min(self.len.saturating_sub(at));
        let mut bytes = vec![in alloc; 0u8; there as usize]?;
        match self.file.read_at(at, bytes.as_mut_slice()) {
            Ok(()) => Ok(bytes),
            Err(_) => Err(Refusal::Device),
        }
    }

    /// Writes over what is there and past the end. Where that fails the area may have grown.
    pub fn write(&mut self, at: u64, bytes: &[u8]) -> Result<(), Refusal>
        ensures { HeldWrite F.gives self.old at bytes.now result self.new }
    {
        let Some(end) = at.checked_add(bytes.len() as u64) else {
            return Err(Refusal::Device);
        };
        if self.len < at {
            return Err(Refusal::Device);
        }
        let whole = self.len.max(end);
        self.unsynced = true;
        match self.file.write_at(at, bytes) {
            Ok(()) => {
                self.len = whole;
                Ok(())
            }
            Err(_) => {
                if let Ok(found) = self.file.length() {
                    self.len = self.len.max(found.min(whole));
                }
                Err(Refusal::Device)
            }
        }
    }

    /// Makes what was written last. Where it is doubted that the device has what a read gives, all of it is
    /// written back first; else a file is left alone in which nothing was written.
    pub fn sync(&mut self, doubted: bool) -> io::Result<()>
        ensures { HeldSync F.gives doubted (is_ok result) self.old self.new }
    {
        if doubted {
            self.sync_behind()
        } else if self.unsynced {
            self.sync_needed()
        } else {
            Ok(())
        }
    }

    // Writes all of it back, and syncs the file.
    fn sync_behind(&mut self) -> io::Result<()>
        ensures { HeldSync F.gives true (is_ok result) self.old self.new }
    {
        let written = write_back(&mut self.file, self.len);
        if written.is_err() {
            return written;
        }
        self.sync_file()
    }

    // Syncs the file, in which something was written.
    #[tactic(auto, using(crate::proofs::Syncs::is_needed))]
    fn sync_needed(&mut self) -> io::Result<()>
        requires { self.old.unsynced ≡ true }
        ensures { HeldSync F.gives false (is_ok result) self.old self.new }
    {
        self.sync_file()
    }

    // Syncs the file.
    fn sync_file(&mut self) -> io::Result<()>
        ensures asked { F.gives self.old.file (syncs (is_ok result)) self.new.file }
        ensures ok { OnOk result (self.new ≡ record self.old { file = self.new.file; unsynced = false }) }
        ensures err { OnErr result (self.new ≡ record self.old { file = self.new.file }) }
    {
        match self.file.sync() {
            Ok(()) => {
                self.unsynced = false;
                Ok(())
            }
            Err(error) => Err(error),
        }
    }
}

// Reads the first `len` bytes of a file and writes them back, block by block.
fn write_back<F: AreaFile>(file: &mut F, len: u64) -> io::Result<()>
    ensures { WritesBack F.gives len (is_ok result) 0 file.old file.new }
{
    let mut buffer = [0u8; BLOCK];
    let mut at: u64 = 0;
    while at < len {
        let count = (len - at).min(BLOCK as u64) as usize;
        let block = &mut buffer[..count];
        file.read_at(at, block)?;
        file.write_at(at, block)?;
        at += count as u64;
    }
    Ok(())
}
