//! What a disk of files asks of a file.

ghost use Rattle.std.specs.Prelude.{is_ok};
ghost use Rattle.rr_disk.specs.Asked.{Call, reads, writes, syncs};

use std::fs::OpenFile;
use std::io;
use std::os::unix::fs::FileExt;

/// A file that holds an area. A disk over any such file can change it by these calls alone, so its clauses can
/// name the calls that it made, in their order.
pub trait AreaFile {
    /// That a call, with its bytes and its answer, may have brought the file from one state to another.
    ghost gives: { Self → Call → Self → Type 0 };

    /// Fills a buffer with the bytes from an offset on.
    ///
    /// # Errors
    /// Those of the file; the buffer may then hold any bytes.
    fn read_at(&mut self, at: u64, bytes: &mut [u8]) -> io::Result<()>
        ensures { gives self.old (reads at bytes.new (is_ok result)) self.new };

    /// Writes the bytes from an offset on.
    ///
    /// # Errors
    /// Those of the file; some of the bytes may then have been written.
    fn write_at(&mut self, at: u64, bytes: &[u8]) -> io::Result<()>
        ensures { gives self.old (writes at bytes.now (is_ok result)) self.new };

    /// Makes what was written, and the length, last.
    ///
    /// # Errors
    /// Those of the file; what was written since the last sync may then be lost, though a read gives it.
    fn sync(&mut self) -> io::Result<()>
        ensures { gives self.old (syncs (is_ok result)) self.new };

    /// The file's length.
    ///
    /// # Errors
    /// Those of the file.
    fn length(&self) -> io::Result<u64>;
}

/// An open file of the runtime. No contract knows what it holds.
#[derive(Drop)]
pub struct OpenedFile<F> {
    file: F,
}

impl<F> OpenedFile<F> {
    /// Over this file.
    pub(crate) fn new(file: F) -> OpenedFile<F> {
        OpenedFile { file }
    }
}

impl<F: FileExt + OpenFile> AreaFile for OpenedFile<F> {
    ghost gives = { λ _ _ _. Unit {0} };

    fn read_at(&mut self, at: u64, bytes: &mut [u8]) -> io::Result<()> {
        self.file.read_exact_at(bytes, at)
    }

    fn write_at(&mut self, at: u64, bytes: &[u8]) -> io::Result<()> {
        self.file.write_all_at(bytes, at)
    }

    fn sync(&mut self) -> io::Result<()> {
        self.file.sync_data()
    }

    fn length(&self) -> io::Result<u64> {
        Ok(self.file.metadata()?.len())
    }
}
