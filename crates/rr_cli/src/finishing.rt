//! `rr sim --finish`: the finish of a schedule, and how it ends the program.

ghost use Rattle.std.specs.Prelude.{◌≡◌, ◌≢◌, ℕ, option_map, IfOk, IfErr};
ghost use Rattle.std.specs.Io.KnownBytes.{Keeps};
ghost use Rattle.rr_stream.specs.Files.{reading_of};
ghost use Rattle.rr_cli.specs.Ends.{EndsOnInput, Prints};
ghost use Rattle.rr_cli.specs.Finishing.{finished_by, unfinished};
ghost use Rattle.rr_cli.specs.Views.{ShowsBoth, TellsFinish, EndsOnFinish};

use crate::input::{name_of, read_file};
use crate::refusals::{TextKind, end_by_fault, end_by_refusal};
use crate::streams::end_by_text;
use crate::views::{Shown, shown_text};
use rr_account::account_on;
use rr_lively::{Ending, Finish, finish_run};
use rr_stream::{FileReader, Sink, Source};
use rr_types::Refusal;
use rr_words::FinishView;
use std::alloc::Global;
use std::io::Write;

/// Prints a text on a finish. Where the schedule isn't finished this is told, and 8 stands for a status of 0.
pub(crate) fn end_by_finish<O: Sink, E: Write>(
    out: &mut O,
    err: &mut E,
    text: &[u8],
    ending: Ending,
) -> u8
    ensures ends { (printing : ℕ) × Prints text.now printing (O.printing out.old) (O.printing out.new) × (result ≡ finished_by ending printing) }
    ensures quiet { result ≡ 0 → Keeps (E.contents err.old) (E.contents err.new) }
{
    let printing = end_by_text(out, err, text);
    match ending {
        Ending::Finished => printing,
        Ending::Full => end_unfinished(err, printing, "the schedule has a million events"),
        Ending::Stuck => end_unfinished(
            err,
            printing,
            "in 64 turns nothing was decided or acknowledged",
        ),
    }
}

// Ends where a schedule isn't finished, by the status of the printing.
fn end_unfinished<E: Write>(err: &mut E, printing: u8, reason: &str) -> u8
    ensures status { result ≡ unfinished printing }
    ensures told { result ≢ 0 }
{
    let _ = writeln!(err, "rr: not finished: {reason}");
    if printing == 0 { 8 } else { printing }
}

// The text that shows the account of a schedule and the events that were added to it.
fn account_text<O: Sink>(
    alloc: Global,
    how: Shown,
    bytes: &[u8],
    added: &[u8],
    out: &mut O,
) -> Result<Vec<u8>, Refusal>
    ensures ok { IfOk result (λ text. ShowsBoth how bytes.now added.now text.items) }
    ensures err { IfErr result (λ e. e ≡ Refusal.OutOfMemory) }
    ensures unprinted { O.printing out.new ≡ O.printing out.old }
{
    let mut whole = Vec::from_slice(alloc, bytes)?;
    whole.extend_from_slice(added)?;
    // The whole is the text of a schedule, so only memory may be wanting.
    let Ok(account) = account_on(alloc, whole.as_slice(), out) else {
        return Err(Refusal::OutOfMemory);
    };
    let text = shown_text(alloc, how, &account)?;
    Ok(text)
}

// The text that tells the finish of the schedule that the bytes are.
fn text_of<O: Sink>(
    alloc: Global,
    what: FinishView,
    bytes: &[u8],
    finish: Finish,
    out: &mut O,
) -> Result<Vec<u8>, Refusal>
    ensures ok { IfOk result (λ text. TellsFinish what bytes.now finish.added.items finish.report.items text.items) }
    ensures err { IfErr result (λ e. e ≡ Refusal.OutOfMemory) }
    ensures unprinted { O.printing out.new ≡ O.printing out.old }
{
    let Finish { added, report, .. } = finish;
    match what {
        FinishView::Events => Ok(added),
        FinishView::Report => Ok(report),
        FinishView::Objects => account_text(alloc, Shown::Report, bytes, added.as_slice(), out),
        FinishView::Explanation(form) => {
            account_text(
                alloc,
                Shown::Explanation(form),
                bytes,
                added.as_slice(),
                out,
            )
        }
    }
}

// Finishes the schedule that the bytes of this name are, and shows the finish.
fn finish_bytes<O: Sink, E: Write>(
    alloc: Global,
    what: FinishView,
    name: &str,
    bytes: &[u8],
    out: &mut O,
    err: &mut E,
) -> u8
    ensures ends { EndsOnFinish what bytes.now result (O.printing out.old) (O.printing out.new) }
    ensures quiet { result ≡ 0 → Keeps (E.contents err.old) (E.contents err.new) }
{
    let finish = match finish_run(alloc, bytes, out) {
        Ok(finish) => finish,
        Err(refusal) => return end_by_fault(alloc, err, TextKind::Schedule, name, bytes, &refusal),
    };
    let ending = finish.ending;
    match text_of(alloc, what, bytes, finish, out) {
        Ok(text) => end_by_finish(out, err, text.as_slice(), ending),
        Err(refusal) => end_by_refusal(err, &refusal),
    }
}

/// Finishes the schedule in a file, or else in standard input, and shows the finish.
pub(crate) fn finish_file<F: FileReader, I: Source, O: Sink, E: Write>(
    alloc: Global,
    files: &mut F,
    what: FinishView,
    file: Option<&str>,
    input: &mut I,
    out: &mut O,
    err: &mut E,
) -> u8
    ensures ends { EndsOnInput (EndsOnFinish what) (reading_of (option_map (λ s. s.now) file.entry) (record { input = I.reading input.old; files = F.held files.old })) (reading_of (option_map (λ s. s.now) file.entry) (record { input = I.reading input.new; files = F.held files.new })) result (O.printing out.old) (O.printing out.new) }
    ensures quiet { result ≡ 0 → Keeps (E.contents err.old) (E.contents err.new) }
{
    match read_file(alloc, files, file, input, err) {
        Ok(bytes) => finish_bytes(alloc, what, name_of(file), bytes.as_slice(), out, err),
        Err(status) => status,
    }
}
