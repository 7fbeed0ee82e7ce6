//! How the program ends after printing a text, and how it ends where a file or a stream fails.

ghost use Rattle.std.specs.Prelude.{◌≡◌, ◌≢◌};
ghost use Rattle.std.specs.Io.KnownBytes.{Keeps};
ghost use Rattle.std.specs.IoError.{error_kind};
ghost use Rattle.rr_cli.specs.Ends.{IsStreamStatus, Prints};

use crate::refusals::end_by_refusal;
use rr_stream::{Sink, print_all};
use rr_types::Refusal;
use std::io;
use std::io::{ErrorKind, Write};

/// Prints a text on standard output, and ends with 0 where that has taken it, with 5 or 6 where it failed.
pub fn end_by_text<O: Sink, E: Write>(out: &mut O, err: &mut E, text: &[u8]) -> u8
    ensures ends { Prints text.now result (O.printing out.old) (O.printing out.new) }
    ensures quiet { result ≡ 0 → Keeps (E.contents err.old) (E.contents err.new) }
{
    match print_all(out, text) {
        Ok(()) => 0,
        Err(failure) => end_by_unprinted(err, &failure),
    }
}

/// Ends because standard output failed: with 6 if memory ran out, else with 5. Where its reader has gone, nothing is
/// told.
pub fn end_by_unprinted<E: Write>(err: &mut E, error: &io::Error) -> u8
    ensures memory { error_kind error.now ≡ ErrorKind.OutOfMemory → result ≡ 6 }
    ensures device { error_kind error.now ≢ ErrorKind.OutOfMemory → result ≡ 5 }
    ensures status { IsStreamStatus result }
    ensures gone { error_kind error.now ≡ ErrorKind.BrokenPipe → Keeps (E.contents err.old) (E.contents err.new) }
{
    if error.kind() == ErrorKind::BrokenPipe {
        return 5;
    }
    end_by_stream(err, "standard output", error)
}

/// Ends because a file or stream of this name can't be read or written: with 6 if memory ran out, else with 5.
pub fn end_by_stream<E: Write>(err: &mut E, name: &str, error: &io::Error) -> u8
    ensures memory { error_kind error.now ≡ ErrorKind.OutOfMemory → result ≡ 6 }
    ensures device { error_kind error.now ≢ ErrorKind.OutOfMemory → result ≡ 5 }
    ensures status { IsStreamStatus result }
{
    if error.kind() == ErrorKind::OutOfMemory {
        return end_by_refusal(err, &Refusal::OutOfMemory);
    }
    let _ = writeln!(err, "rr: {name}: {error}");
    5
}

/// Ends the program where its words can't be had: with 6 if memory ran out, else with 2, as for a word that is no text.
pub fn end_without_words<E: Write>(err: &mut E, error: &io::Error) -> u8
    ensures memory { error_kind error.now ≡ ErrorKind.OutOfMemory → result ≡ 6 }
    ensures words { error_kind error.now ≢ ErrorKind.OutOfMemory → result ≡ 2 }
{
    if error.kind() == ErrorKind::OutOfMemory {
        return end_by_refusal(err, &Refusal::OutOfMemory);
    }
    let _ = writeln!(err, "rr: words: {error}");
    2
}

// Ends because a program without views is asked for a view of a run.
pub(crate) fn end_without_views<E: Write>(err: &mut E) -> u8
    ensures { result ≡ 2 }
{
    let _ = writeln!(err, "rr: there are no views");
    2
}

// Ends because a program without threads is asked for a run.
pub(crate) fn end_without_threads<E: Write>(err: &mut E) -> u8
    ensures { result ≡ 2 }
{
    let _ = writeln!(err, "rr: run: there are no threads");
    2
}

// Ends because a program without threads is asked for a shell.
pub(crate) fn end_without_shell<E: Write>(err: &mut E) -> u8
    ensures { result ≡ 2 }
{
    let _ = writeln!(err, "rr: shell: there are no threads");
    2
}

// Ends because a program without threads is asked to replace a node.
pub(crate) fn end_without_nodes<E: Write>(err: &mut E) -> u8
    ensures { result ≡ 2 }
{
    let _ = writeln!(err, "rr: replace: there are no threads");
    2
}
