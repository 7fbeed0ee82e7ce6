//! What a command reads: standard input or a file.

ghost use Rattle.std.specs.Prelude.{◌≡◌, ◌≤◌, List, ℕ, option_map, Some, IfOk, IfErr, OnOk};
ghost use Rattle.rr_stream.specs.Streams.{AreAllOf};
ghost use Rattle.rr_stream.specs.Files.{reading_of};
ghost use Rattle.rr_cli.specs.Ends.{IsUnread};

use crate::streams::end_by_stream;
use rr_stream::{FileReader, Source, read_all};
use std::alloc::Global;
use std::io::Write;

/// What standard input is called.
pub(crate) const STANDARD_INPUT: &str = "standard input";

/// What a file is called: its path, or standard input.
pub(crate) fn name_of(file: Option<&str>) -> &str {
    match file {
        Some(path) => path,
        None => STANDARD_INPUT,
    }
}

/// All bytes of a file, or else of standard input. What goes wrong is told on `err`, and its status is the error.
pub(crate) fn read_file<F: FileReader, I: Source, E: Write>(
    alloc: Global,
    files: &mut F,
    file: Option<&str>,
    input: &mut I,
    err: &mut E,
) -> Result<Vec<u8>, u8>
    ensures ok { IfOk result (λ bytes. AreAllOf (reading_of (option_map (λ s. s.now) file.entry) (record { input = I.reading input.old; files = F.held files.old })).remaining bytes.items) }
    ensures quiet { OnOk result (E.contents err.new ≡ E.contents err.old) }
    ensures unread { IfErr result (λ status. IsUnread (reading_of (option_map (λ s. s.now) file.entry) (record { input = I.reading input.old; files = F.held files.old }))
        (reading_of (option_map (λ s. s.now) file.entry) (record { input = I.reading input.new; files = F.held files.new })) status) }
    ensures same { (F.held files.new).bytes_at ≡ (F.held files.old).bytes_at }
    ensures untouched { (path : List ℕ) → option_map (λ s. s.now) file.entry ≡ Some path → I.reading input.new ≡ I.reading input.old }
    ensures file_faults { (F.held files.old).faults ≤ (F.held files.new).faults }
    ensures input_faults { (I.reading input.old).faults ≤ (I.reading input.new).faults }
{
    match file {
        None => match read_all(alloc, input) {
            Ok(bytes) => Ok(bytes),
            Err(failure) => Err(end_by_stream(err, STANDARD_INPUT, &failure)),
        },
        Some(path) => match files.read_file(alloc, path) {
            Ok(bytes) => Ok(bytes),
            Err(failure) => Err(end_by_stream(err, path, &failure)),
        },
    }
}
