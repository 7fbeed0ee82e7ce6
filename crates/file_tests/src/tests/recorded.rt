//! A file in memory that notes what it is asked.

use rr_disk::AreaFile;
use std::alloc::Global;
use std::io;
use std::io::ErrorKind;

/// What a file was asked to do: to read or write, at this offset, this many bytes, or to sync.
#[derive(Clone, Copy, Debug, PartialEq, Eq)]
pub enum Asked {
    Read(u64, u64),
    Write(u64, u64),
    Sync,
}

/// A file as Linux has it. A read gives what was written. A sync that fails takes nothing to the device, and no
/// later one does: what was written counts as clean.
#[derive(Drop)]
pub struct Recorded {
    alloc: Global,
    // what a read gives
    bytes: Vec<u8>,
    // what a power cut leaves
    firm: Vec<u8>,
    dirty: bool,
    fails: bool,
    asked: Vec<Asked>,
}

impl Recorded {
    /// An empty file, whose next sync fails if `fails`.
    pub fn new(alloc: Global, fails: bool) -> Recorded {
        Recorded {
            alloc,
            bytes: Vec::new(alloc),
            firm: Vec::new(alloc),
            dirty: false,
            fails,
            asked: Vec::new(alloc),
        }
    }

    /// What a read gives.
    pub fn bytes(&self) -> &[u8] {
        &self.bytes
    }

    /// What a power cut leaves.
    pub fn firm(&self) -> &[u8] {
        &self.firm
    }

    /// What it was asked, in turn.
    pub fn asked(&self) -> &[Asked] {
        &self.asked
    }

    fn note(&mut self, asked: Asked) -> io::Result<()> {
        match self.asked.push(asked) {
            Ok(()) => Ok(()),
            Err(_) => Err(io::Error::from(ErrorKind::OutOfMemory)),
        }
    }

    fn put(&mut self, at: u64, byte: u8) -> io::Result<()> {
        if at < self.bytes.len() as u64 {
            self.bytes[at as usize] = byte;
            return Ok(());
        }
        match self.bytes.push(byte) {
            Ok(()) => Ok(()),
            Err(_) => Err(io::Error::from(ErrorKind::OutOfMemory)),
        }
    }
}

impl AreaFile for Recorded {
    ghost gives = { λ _ _ _. Unit {0} };

    fn read_at(&mut self, at: u64, bytes: &mut [u8]) -> io::Result<()> {
        self.note(Asked::Read(at, bytes.len() as u64))?;
        let start = at.min(self.bytes.len() as u64) as usize;
        let there = &self.bytes[start..];
        if there.len() < bytes.len() {
            return Err(io::Error::from(ErrorKind::UnexpectedEof));
        }
        for (to, from) in bytes.iter_mut().zip(there) {
            *to = *from;
        }
        Ok(())
    }

    fn write_at(&mut self, at: u64, bytes: &[u8]) -> io::Result<()> {
        self.note(Asked::Write(at, bytes.len() as u64))?;
        self.dirty = true;
        for (i, byte) in bytes.iter().enumerate() {
            self.put(at.saturating_add(i as u64), *byte)?;
        }
        Ok(())
    }

    fn sync(&mut self) -> io::Result<()> {
        self.note(Asked::Sync)?;
        if self.fails {
            self.fails = false;
            self.dirty = false;
            return Err(io::Error::from(ErrorKind::Other));
        }
        if self.dirty {
            self.dirty = false;
            let mut firm = Vec::new(self.alloc);
            if firm.extend_from_slice(&self.bytes).is_err() {
                return Err(io::Error::from(ErrorKind::OutOfMemory));
            }
            self.firm = firm;
        }
        Ok(())
    }

    fn length(&self) -> io::Result<u64> {
        Ok(self.bytes.len() as u64)
    }
}
