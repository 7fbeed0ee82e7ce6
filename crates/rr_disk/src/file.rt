//! A disk of two files.

ghost use Rattle.std.specs.Prelude.{◌≡◌, ◌+◌, ◌-◌, ◌<◌, ◌≤◌, ◌⊎◌, ◌^◌, ℕ, true, false, [], length, min, max, IfOk, IfErr, OnOk, OnErr};
ghost use Rattle.std.specs.Fs.{new_options, with_read, with_write, with_create};
ghost use Rattle.rr_types.specs.declared.refusal.Refusal.TheVariants.{Device, OutOfMemory};
ghost use Rattle.rr_disk.specs.Crash.{restarted};
ghost use Rattle.rr_disk.specs.Files.{held_of, opened, FileRead, FileWrite, FileSync};

use crate::area::Area;
use crate::area_file::{AreaFile, OpenedFile};
use crate::disk::Disk;
use crate::held::HeldArea;
use rr_types::Refusal;
use std::alloc::Global;
use std::fs::{OpenFile, OpenOptions};
use std::io::{ErrorKind, Read, Seek, Write};
use std::marker::Model;
use std::os::unix::fs::FileExt;
use std::rt::Files;
use std::{fs, io};

/// A disk of two files. It tells no bytes: what a file holds no contract knows. Its calls fail as those of the
/// files do, and a write fails that starts past the end, which then changes nothing.
///
/// A sync asks nothing of a file in which nothing was written since its last one. The first sync after an
/// opening, and each after one that failed, doesn't rely on earlier ones: it reads both files and writes back
/// what the reads gave, and syncs both. (After an `fsync` that failed a system may drop what was written, give
/// it in reads all the same, and report success the next time.)
#[derive(Drop)]
pub struct FileDisk<F> {
    first: HeldArea<F>,
    second: HeldArea<F>,
    // whether no sync has succeeded since the opening, or since one that failed
    doubted: bool,
    calls: u64,
    faults: u64,
}

impl<F> Model for FileDisk<F> {
    ghost use Rattle.rr_disk.specs.Files.{FileState};

    ghost Value = { FileState F };

    ghost view = { λ d. record { first = d.first; second = d.second; doubted = d.doubted; calls = d.calls; faults = d.faults } };
}

impl<F: AreaFile + Drop> FileDisk<F> {
    /// The disk of two files that were just opened.
    ///
    /// # Errors
    /// `Device` where a file doesn't tell its length.
    pub fn over(first: F, second: F) -> Result<FileDisk<F>, Refusal>
        ensures opened { IfOk result (λ d. (first_len : ℕ) × (second_len : ℕ) × (d ≡ opened first first_len second second_len)) }
        ensures cause { IfErr result (λ e. e ≡ Device) }
    {
        let (Ok(first_len), Ok(second_len)) = (first.length(), second.length()) else {
            return Err(Refusal::Device);
        };
        Ok(FileDisk {
            first: HeldArea::new(first, first_len),
            second: HeldArea::new(second, second_len),
            doubted: true,
            calls: 0,
            faults: 0,
        })
    }

    /// Gives the files back.
    pub fn into_files(self) -> (F, F)
        ensures { (result.0 ≡ self.first.file) × (result.1 ≡ self.second.file) }
    {
        let FileDisk {
            first,
            second,
            doubted: _,
            calls: _,
            faults: _,
        } = self;
        (first.into_file(), second.into_file())
    }
}

impl<F: Read + Write + Seek + FileExt + OpenFile + Drop> FileDisk<OpenedFile<F>> {
    /// The disk of the files `a0` and `a1` of a folder. Where `make` is true, the folder, those above it and the
    /// files are made if missing, and folders in which something was made are synced. Nothing is truncated.
    ///
    /// # Errors
    /// `OutOfMemory`; `Device` where the folder or a file can't be opened to read and write, or can't be made, as
    /// where a folder has the file's name.
    pub fn open<R: Files<File = F> + AllocGlobal>(
        rt: &R,
        dir: &str,
        make: bool,
    ) -> Result<FileDisk<OpenedFile<F>>, Refusal>
        ensures counts { IfOk result (λ d. (d.calls ≡ 0) × (d.faults ≡ 0) × (d.doubted ≡ true)) }
        ensures cause { IfErr result (λ e. (e ≡ OutOfMemory) ⊎ (e ≡ Device)) }
    {
        if make && make_folder(rt, dir).is_err() {
            return Err(Refusal::Device);
        }
        let disk = open_areas(rt, dir, true, make)?;
        if make && sync_folder(rt, dir).is_err() {
            return Err(Refusal::Device);
        }
        Ok(disk)
    }

    /// The same, for files that exist and are opened only for reading. A write to it fails, and so does a
    /// first sync, unless the areas are empty.
    ///
    /// # Errors
    /// `OutOfMemory`; `Device` where a file can't be opened to read.
    pub fn open_read_only<R: Files<File = F> + AllocGlobal>(
        rt: &R,
        dir: &str,
    ) -> Result<FileDisk<OpenedFile<F>>, Refusal>
        ensures counts { IfOk result (λ d. (d.calls ≡ 0) × (d.faults ≡ 0) × (d.doubted ≡ true)) }
        ensures cause { IfErr result (λ e. (e ≡ OutOfMemory) ⊎ (e ≡ Device)) }
    {
        open_areas(rt, dir, false, false)
    }
}

// Opens the files of a folder, to read, and to write where that is asked for. They may be missing only where
// they are to be made.
fn open_areas<R: Files + AllocGlobal>(
    rt: &R,
    dir: &str,
    write: bool,
    make: bool,
) -> Result<FileDisk<OpenedFile<R::File>>, Refusal>
where
    R::File: FileExt,
    requires { make ≡ true → write ≡ true }
    ensures counts { IfOk result (λ d. (d.calls ≡ 0) × (d.faults ≡ 0) × (d.doubted ≡ true)) }
    ensures cause { IfErr result (λ e. (e ≡ OutOfMemory) ⊎ (e ≡ Device)) }
{
    let first = format!(in rt.alloc(); "{dir}/a0")?;
    let second = format!(in rt.alloc(); "{dir}/a1")?;
    let options = options_of(write, make);
    let Ok(first) = open_file(rt, first.as_str(), &options, make) else {
        return Err(Refusal::Device);
    };
    let Ok(second) = open_file(rt, second.as_str(), &options, make) else {
        return Err(Refusal::Device);
    };
    FileDisk::over(OpenedFile::new(first), OpenedFile::new(second))
}

// How a file is opened: to read, and to write or be made where that is asked for; it is never truncated.
fn options_of(write: bool, make: bool) -> OpenOptions
    ensures { result ≡ with_create (with_write (with_read new_options true) write) make }
{
    let mut options = OpenOptions::new();
    let _ = options.read(true).write(write).create(make);
    options
}

// Opens a file, which may be missing only where it is to be made. What is there and is no file isn't opened.
fn open_file<R: Files>(
    rt: &R,
    path: &str,
    options: &OpenOptions,
    make: bool,
) -> io::Result<R::File> {
    match fs::metadata(rt, path) {
        Ok(found) if !found.is_file() => return Err(io::Error::from(ErrorKind::Unsupported)),
        Ok(_) => {}
        Err(error) => {
            if !make || error.kind() != ErrorKind::NotFound {
                return Err(error);
            }
        }
    }
    options.open(rt, path)
}

/// Makes a folder, and those above it, where they are missing. Of each that is made the name lasts, as what is
/// written in its files does.
///
/// # Errors
/// Those of the system.
pub fn make_folder<R: Files>(rt: &R, dir: &str) -> io::Result<()> {
    let mut above = if dir.starts_with('/') { "/" } else { "." };
    for (at, byte) in dir.as_bytes().iter().enumerate() {
        if *byte == b'/' && at > 0 {
            if let Some(folder) = dir.get(..at) {
                make_in(rt, above, folder)?;
                above = folder;
            }
        }
    }
    make_in(rt, above, dir)
}

// Makes a folder where it is missing. The one above it is synced then.
fn make_in<R: Files>(rt: &R, above: &str, folder: &str) -> io::Result<()> {
    match fs::create_dir(rt, folder) {
        Ok(()) => sync_folder(rt, above),
        Err(error) => {
            if error.kind() == ErrorKind::AlreadyExists {
                Ok(())
            } else {
                Err(error)
            }
        }
    }
}

// Makes the names of new files last, as what is written in them does.
fn sync_folder<R: Files>(rt: &R, dir: &str) -> io::Result<()> {
    fs::open(rt, dir)?.sync_all()
}

impl<F: AreaFile + Drop> Disk for FileDisk<F> {
    ghost tells = { λ _. ⊥ };

    ghost areas = { λ _. restarted (record { of_first = []; of_second = [] }) };

    ghost calls = { λ d. d.calls };

    ghost faults = { λ d. d.faults };

    ghost read_gives = { FileRead F.gives };

    ghost write_gives = { FileWrite F.gives };

    ghost sync_gives = { FileSync F.gives };

    fn read(&mut self, alloc: Global, area: Area, at: u64, count: u64) -> Result<Vec<u8>, Refusal> {
        self.calls = self.calls.saturating_add(1);
        let read = match area {
            Area::First => self.first.read(alloc, at, count),
            Area::Second => self.second.read(alloc, at, count),
        };
        match read {
            Ok(bytes) => Ok(bytes),
            Err(Refusal::OutOfMemory) => Err(Refusal::OutOfMemory),
            Err(_) => {
                self.faults = self.faults.saturating_add(1);
                Err(Refusal::Device)
            }
        }
    }

    fn write_at(&mut self, area: Area, at: u64, bytes: &[u8]) -> Result<(), Refusal> {
        self.calls = self.calls.saturating_add(1);
        let written = match area {
            Area::First => self.first.write(at, bytes),
            Area::Second => self.second.write(at, bytes),
        };
        if written.is_err() {
            self.faults = self.faults.saturating_add(1);
        }
        written
    }

    fn sync(&mut self) -> Result<(), Refusal> {
        self.calls = self.calls.saturating_add(1);
        if self.first.sync(self.doubted).is_ok() && self.second.sync(self.doubted).is_ok() {
            self.doubted = false;
            Ok(())
        } else {
            self.doubted = true;
            self.faults = self.faults.saturating_add(1);
            Err(Refusal::Device)
        }
    }

    fn len(&self, area: Area) -> u64 {
        match area {
            Area::First => self.first.len(),
            Area::Second => self.second.len(),
        }
    }
}
