//! A text as a file.

ghost use Rattle.std.specs.Prelude.{◌≡◌, None, Some, if◌then◌else◌};
ghost use Rattle.std.specs.Str.{bytes_eq};

use crate::reader::FileReader;
use std::alloc::Global;
use std::io;
use std::io::{Error, ErrorKind};

/// A text at a path, and no other file.
#[derive(Drop)]
pub struct NamedText<'a> {
    path: &'a str,
    text: &'a [u8],
    faults: u64,
}

impl<'a> NamedText<'a> {
    /// This text at this path.
    pub fn new(path: &'a str, text: &'a [u8]) -> NamedText<'a>
        ensures path { result.path ≡ path.entry }
        ensures text { result.text ≡ text.entry }
        ensures faults { result.faults ≡ 0 }
    {
        NamedText {
            path,
            text,
            faults: 0,
        }
    }
}

impl FileReader for NamedText<'_> {
    ghost held = { λ f. record { bytes_at = λ path. if bytes_eq path f.path.now then Some f.text.now else None; faults = f.faults } };

    fn read_file(&mut self, alloc: Global, path: &str) -> io::Result<Vec<u8>> {
        if path != self.path {
            self.faults = self.faults.saturating_add(1);
            return Err(Error::from(ErrorKind::NotFound));
        }
        let mut bytes = Vec::new(alloc);
        match bytes.extend_from_slice(self.text) {
            Ok(()) => Ok(bytes),
            Err(_) => Err(Error::from(ErrorKind::OutOfMemory)),
        }
    }
}
