//! Whole texts: printing all of one, and reading all that an input has left.

ghost use Rattle.std.specs.Prelude.{◌≡◌, ◌⊎◌, ℕ, ◌<◌, ◌≤◌, false, IsTrue, List, ◌++◌, length, vec_len, IfOk, IfErr, OnOk, OnErr};
ghost use Rattle.std.specs.Io.KnownBytes.{Consumes, IsAtEnd};
ghost use Rattle.std.specs.IoError.{error_kind};
ghost use Rattle.rr_types.specs.Counts.{Grew};
ghost use Rattle.rr_stream.specs.Streams.{IsPrinted, IsFrontPrinted, AreAllOf};

use crate::stream::{Sink, Source};
use std::alloc::{AllocError, Global};
use std::io;
use std::io::ErrorKind;

/// How many bytes are read at a time, at most.
const ROOM: usize = 65536;

/// Prints the bytes and flushes them. Where the stream fails it has taken a front of them.
///
/// # Errors
/// Those of the stream.
pub fn print_all<O: Sink>(out: &mut O, bytes: &[u8]) -> io::Result<()>
    ensures all { OnOk result (IsPrinted (O.printing out.old) (O.printing out.new) bytes.now) }
    ensures front { IsFrontPrinted (O.printing out.old) (O.printing out.new) bytes.now }
    ensures cause { OnErr result (Grew (O.printing out.old).faults (O.printing out.new).faults) }
    ensures faults { (O.printing out.old).faults ≤ (O.printing out.new).faults }
{
    let mut rest = bytes;
    while !rest.is_empty() {
        let taken = out.write(rest)?;
        rest = &rest[taken..];
    }
    out.flush()
}

/// All that the stream has left.
///
/// # Errors
/// Those of the stream, and `OutOfMemory`.
pub fn read_all<I: Source>(alloc: Global, input: &mut I) -> io::Result<Vec<u8>>
    ensures all { IfOk result (λ bytes. AreAllOf (I.reading input.old).remaining bytes.items) }
    ensures cause { IfErr result (λ e. (error_kind e ≡ ErrorKind.OutOfMemory) ⊎ Grew (I.reading input.old).faults (I.reading input.new).faults) }
    ensures faults { (I.reading input.old).faults ≤ (I.reading input.new).faults }
{
    let mut bytes = Vec::new(alloc);
    let mut buffer = room_of(alloc, ROOM)?;
    let room = buffer.as_mut_slice();
    'reads: loop {
        if !read_more(input, room, &mut bytes)? {
            return Ok(bytes);
        }
    }
}

// Room for `size` bytes.
fn room_of(alloc: Global, size: usize) -> Result<Vec<u8>, AllocError>
    ensures { IfOk result (λ room. length room.items ≡ size) }
{
    vec![in alloc; 0u8; size]
}

// Reads once more, to the end of the bytes, and says whether there was anything.
fn read_more<I: Source>(input: &mut I, room: &mut [u8], bytes: &mut Vec<u8>) -> io::Result<bool>
    requires { 0 < length room.old }
    ensures read { OnOk result ((more : List ℕ) × Consumes (I.reading input.old).remaining (I.reading input.new).remaining more
        × (bytes.new.items ≡ bytes.old.items ++ more)) }
    ensures more { IfOk result (λ more. IsTrue more → vec_len bytes.old < vec_len bytes.new) }
    ensures end { IfOk result (λ more. more ≡ false → IsAtEnd (I.reading input.new).remaining) }
    ensures cause { IfErr result (λ e. (error_kind e ≡ ErrorKind.OutOfMemory) ⊎ Grew (I.reading input.old).faults (I.reading input.new).faults) }
    ensures faults { (I.reading input.old).faults ≤ (I.reading input.new).faults }
{
    let read = input.read(room)?;
    bytes.extend_from_slice(&room[..read])?;
    Ok(read > 0)
}
