//! The interface to files.

ghost use Rattle.std.specs.Prelude.{◌≡◌, ◌⊎◌, ◌≤◌, IfOk, IfErr};
ghost use Rattle.std.specs.IoError.{error_kind};
ghost use Rattle.rr_types.specs.Counts.{Grew};
ghost use Rattle.rr_stream.specs.Streams.{AreAllOf};
ghost use Rattle.rr_stream.specs.Files.{HeldFiles};

use std::alloc::Global;
use std::io;
use std::io::ErrorKind;

/// Files that a program reads by their paths. A read that fails is counted as a fault, also where there is no such file.
/// Counts stop at 2^64 - 1.
pub trait FileReader {
    /// The bytes at each path, where they are known, and how many reads failed.
    ghost held: { Self → HeldFiles };

    /// All bytes of the file at a path.
    ///
    /// # Errors
    /// Those of the file, and `OutOfMemory`.
    fn read_file(&mut self, alloc: Global, path: &str) -> io::Result<Vec<u8>>
        ensures all { IfOk result (λ bytes. AreAllOf ((held self.old).bytes_at path.now) bytes.items) }
        ensures cause { IfErr result (λ e. (error_kind e ≡ ErrorKind.OutOfMemory) ⊎ Grew (held self.old).faults (held self.new).faults) }
        ensures faults { (held self.old).faults ≤ (held self.new).faults }
        ensures same { (held self.new).bytes_at ≡ (held self.old).bytes_at };
}
