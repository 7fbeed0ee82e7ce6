//! The files of the host.

ghost use Rattle.std.specs.Prelude.{◌≡◌, None};

use crate::counted::Counted;
use crate::reader::FileReader;
use crate::whole::read_all;
use std::alloc::Global;
use std::rt::Files;
use std::{fs, io};

/// The files of the host, as its runtime opens them. No contract knows what they hold.
#[derive(Drop)]
pub struct HostFiles<'a, R> {
    rt: &'a R,
    faults: u64,
}

impl<'a, R> HostFiles<'a, R> {
    /// The files that this runtime opens.
    pub fn new(rt: &'a R) -> HostFiles<'a, R>
        ensures { result.faults ≡ 0 }
    {
        HostFiles { rt, faults: 0 }
    }
}

// All bytes of a file of the host.
fn read_path<R: Files>(rt: &R, alloc: Global, path: &str) -> io::Result<Vec<u8>> {
    let file = fs::open(rt, path)?;
    read_all(alloc, &mut Counted::new(file))
}

impl<R: Files> FileReader for HostFiles<'_, R> {
    ghost held = { λ f. record { bytes_at = λ path. None; faults = f.faults } };

    fn read_file(&mut self, alloc: Global, path: &str) -> io::Result<Vec<u8>> {
        let read = read_path(self.rt, alloc, path);
        if read.is_err() {
            self.faults = self.faults.saturating_add(1);
        }
        read
    }
}
