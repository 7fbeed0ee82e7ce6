//! How words that are no command end the program.

ghost use Rattle.std.specs.Prelude.{◌≡◌, ◌≢◌, ℕ, List, ◌++◌, IfOk, string_bytes};
ghost use Rattle.std.specs.Io.KnownBytes.{Keeps};
ghost use Rattle.clap.specs.Words.{kind_of};
ghost use Rattle.rr_cli.specs.Ends.{IsMistake, Helps, Prints, statuses_text, version_text};

use crate::refusals::end_by_refusal;
use crate::streams::end_by_text;
use clap::Error;
use clap::error::ErrorKind;
use rr_stream::Sink;
use rr_types::Refusal;
use std::alloc::{AllocError, Global};
use std::io::Write;

// The version, and the logic of the kits that the proofs are checked with.
const VERSION: &[u8] = b"rr 0.1.0, proved with rattle logic dac8208d650f15bf\n";

/// Ends by words that are no command: a mistake is told on standard error, and what was asked for is printed.
pub fn end_by_words<O: Sink, E: Write>(alloc: Global, out: &mut O, err: &mut E, error: &Error) -> u8
    ensures memory { kind_of error.now ≡ ErrorKind.OutOfMemory
        → (result ≡ 6) × (O.printing out.new ≡ O.printing out.old) }
    ensures mistake { kind_of error.now ≢ ErrorKind.OutOfMemory → IsMistake (kind_of error.now)
        → (result ≡ 2) × (O.printing out.new ≡ O.printing out.old) }
    ensures help { kind_of error.now ≡ ErrorKind.DisplayHelp → Helps result (O.printing out.old) (O.printing out.new) }
    ensures version { kind_of error.now ≡ ErrorKind.DisplayVersion → Prints version_text result (O.printing out.old) (O.printing out.new) }
    ensures quiet { result ≡ 0 → Keeps (E.contents err.old) (E.contents err.new) }
{
    match error.kind() {
        ErrorKind::OutOfMemory => end_by_refusal(err, &Refusal::OutOfMemory),
        ErrorKind::DisplayVersion => end_by_text(out, err, VERSION),
        ErrorKind::DisplayHelp => end_by_help(alloc, out, err, error),
        _ => {
            let _ = write!(err, "{error}");
            2
        }
    }
}

// The help, and what the exit status means.
fn help_text(alloc: Global, error: &Error) -> Result<String, AllocError>
    ensures { IfOk result (λ text. (front : List ℕ) × (string_bytes text ≡ front ++ statuses_text)) }
{
    let mut text = format!(in alloc; "{error}")?;
    text.push_str(
        "\nExit status: 0 done, 1 a difference, 2 wrong words, 3 no schedule, 4 a damaged area,\n5 a stream, a file or a device, 6 memory, 7 an audit, 8 no finish, 10 to 18 a strict shell\n",
    )?;
    Ok(text)
}

// Prints the help.
fn end_by_help<O: Sink, E: Write>(alloc: Global, out: &mut O, err: &mut E, error: &Error) -> u8
    ensures ends { Helps result (O.printing out.old) (O.printing out.new) }
    ensures quiet { result ≡ 0 → Keeps (E.contents err.old) (E.contents err.new) }
{
    match help_text(alloc, error) {
        Ok(text) => end_by_text(out, err, text.as_bytes()),
        Err(_) => end_by_refusal(err, &Refusal::OutOfMemory),
    }
}
