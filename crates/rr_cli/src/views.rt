//! The commands that show a run.

ghost use Rattle.std.specs.Prelude.{◌≡◌, option_map, IfOk, IfErr};
ghost use Rattle.std.specs.Io.KnownBytes.{Keeps};
ghost use Rattle.rr_words.specs.Tasks.{view_in};
ghost use Rattle.rr_stream.specs.Files.{reading_of};
ghost use Rattle.rr_cli.specs.Ends.{EndsOnInput};
ghost use Rattle.rr_cli.specs.Shown.{Shows};
ghost use Rattle.rr_cli.specs.Views.{EndsOnText, EndsOnShown, EndsOnCompared, EndsOnView, left_behind, different};

use crate::finishing::finish_file;
use crate::input::{name_of, read_file};
use crate::refusals::{TextKind, end_by_fault, end_by_refusal};
use crate::streams::end_by_text;
use crate::taped::{TextAs, show_text};
use rr_account::{
    Account, Difference, account_on, difference_of, explanation, json_explanation, json_report,
    json_statistics, push_difference, statistics_of, statistics_table,
};
use rr_stream::{FileReader, Sink, Source};
use rr_types::Refusal;
use rr_words::{Form, View};
use std::alloc::Global;
use std::io::Write;

/// What a text shows of an account.
#[derive(Clone, Copy)]
pub(crate) enum Shown {
    /// The report, as JSON.
    Report,
    /// The report with events and reasons.
    Explanation(Form),
    /// Statistics.
    Statistics(Form),
}

// The text that shows an account.
pub(crate) fn shown_text(alloc: Global, how: Shown, account: &Account) -> Result<Vec<u8>, Refusal>
    ensures ok { IfOk result (λ text. Shows how account.now text.items) }
    ensures err { IfErr result (λ e. e ≡ Refusal.OutOfMemory) }
{
    match how {
        Shown::Report => json_report(alloc, account),
        Shown::Explanation(Form::Plain) => explanation(alloc, account),
        Shown::Explanation(Form::Json) => json_explanation(alloc, account),
        Shown::Statistics(form) => statistics_text(alloc, form, account),
    }
}

// The text on the statistics of an account.
fn statistics_text(alloc: Global, form: Form, account: &Account) -> Result<Vec<u8>, Refusal>
    ensures ok { IfOk result (λ text. Shows (Shown.Statistics form) account.now text.items) }
    ensures err { IfErr result (λ e. e ≡ Refusal.OutOfMemory) }
{
    let statistics = statistics_of(alloc, account)?;
    match form {
        Form::Plain => statistics_table(alloc, &statistics),
        Form::Json => json_statistics(alloc, &statistics),
    }
}

// Shows the run of the schedule that the bytes of this name are.
pub(crate) fn show_bytes<O: Sink, E: Write>(
    alloc: Global,
    how: Shown,
    name: &str,
    bytes: &[u8],
    out: &mut O,
    err: &mut E,
) -> u8
    ensures ends { EndsOnShown how bytes.now result (O.printing out.old) (O.printing out.new) }
    ensures quiet { result ≡ 0 → Keeps (E.contents err.old) (E.contents err.new) }
{
    let account = match account_on(alloc, bytes, out) {
        Ok(account) => account,
        Err(refusal) => return end_by_fault(alloc, err, TextKind::Schedule, name, bytes, &refusal),
    };
    match shown_text(alloc, how, &account) {
        Ok(text) => end_by_text(out, err, text.as_slice()),
        Err(refusal) => end_by_refusal(err, &refusal),
    }
}

// Shows what is in a file, whose text is read so.
fn show_file<F: FileReader, I: Source, O: Sink, E: Write>(
    alloc: Global,
    files: &mut F,
    text_as: TextAs,
    how: Shown,
    file: Option<&str>,
    input: &mut I,
    out: &mut O,
    err: &mut E,
) -> u8
    ensures ends { EndsOnInput (EndsOnText text_as how) (reading_of (option_map (λ s. s.now) file.entry) (record { input = I.reading input.old; files = F.held files.old })) (reading_of (option_map (λ s. s.now) file.entry) (record { input = I.reading input.new; files = F.held files.new })) result (O.printing out.old) (O.printing out.new) }
    ensures quiet { result ≡ 0 → Keeps (E.contents err.old) (E.contents err.new) }
{
    match read_file(alloc, files, file, input, err) {
        Ok(bytes) => show_text(
            alloc,
            text_as,
            how,
            name_of(file),
            bytes.as_slice(),
            out,
            err,
        ),
        Err(status) => status,
    }
}

// The text on where the report of an account differs from the text of this name.
fn difference_text(
    alloc: Global,
    account: &Account,
    name: &str,
    difference: &Difference<'_>,
) -> Result<Vec<u8>, Refusal>
    ensures { IfErr result (λ e. e ≡ Refusal.OutOfMemory) }
{
    let mut text = Vec::new(alloc);
    match push_difference(&mut text, account, name, difference) {
        Ok(()) => Ok(text),
        Err(_) => Err(Refusal::OutOfMemory),
    }
}

// The status of a difference that was to be printed, by the status of its printing.
fn different(printing: u8) -> u8
    ensures { result ≡ different printing }
{
    if printing == 0 { 1 } else { printing }
}

// Compares the report of the schedule that the bytes of the first name are with the text of the second.
fn compare_bytes<O: Sink, E: Write>(
    alloc: Global,
    names: (&str, &str),
    bytes: &[u8],
    text: &[u8],
    out: &mut O,
    err: &mut E,
) -> u8
    ensures ends { EndsOnCompared bytes.now text.now result (O.printing out.old) (O.printing out.new) }
    ensures quiet { result ≡ 0 → Keeps (E.contents err.old) (E.contents err.new) }
{
    let account = match account_on(alloc, bytes, out) {
        Ok(account) => account,
        Err(refusal) => return end_by_fault(
            alloc,
            err,
            TextKind::Schedule,
            names.0,
            bytes,
            &refusal,
        ),
    };
    let report = match account.report().text(alloc) {
        Ok(report) => report,
        Err(_) => return end_by_refusal(err, &Refusal::OutOfMemory),
    };
    match difference_of(report.as_slice(), text) {
        None => 0,
        Some(difference) => match difference_text(alloc, &account, names.1, &difference) {
            Ok(told) => different(end_by_text(out, err, told.as_slice())),
            Err(refusal) => end_by_refusal(err, &refusal),
        },
    }
}

// Compares the report of the schedule in a file with the text in another.
fn compare_files<F: FileReader, I: Source, O: Sink, E: Write>(
    alloc: Global,
    files: &mut F,
    file: Option<&str>,
    report: Option<&str>,
    input: &mut I,
    out: &mut O,
    err: &mut E,
) -> u8
    ensures ends { EndsOnInput (λ bytes. EndsOnInput (EndsOnCompared bytes) (left_behind (option_map (λ s. s.now) file.entry) (option_map (λ s. s.now) report.entry) (record { input = I.reading input.old; files = F.held files.old })) (reading_of (option_map (λ s. s.now) report.entry) (record { input = I.reading input.new; files = F.held files.new })))
        (reading_of (option_map (λ s. s.now) file.entry) (record { input = I.reading input.old; files = F.held files.old })) (reading_of (option_map (λ s. s.now) file.entry) (record { input = I.reading input.new; files = F.held files.new })) result (O.printing out.old) (O.printing out.new) }
    ensures quiet { result ≡ 0 → Keeps (E.contents err.old) (E.contents err.new) }
{
    let bytes = match read_file(alloc, files, file, input, err) {
        Ok(bytes) => bytes,
        Err(status) => return status,
    };
    match read_file(alloc, files, report, input, err) {
        Ok(text) => compare_bytes(
            alloc,
            (name_of(file), name_of(report)),
            bytes.as_slice(),
            text.as_slice(),
            out,
            err,
        ),
        Err(status) => status,
    }
}

/// Shows a run as a view asks for it.
pub(crate) fn show_view<F: FileReader, I: Source, O: Sink, E: Write>(
    alloc: Global,
    files: &mut F,
    view: View<'_>,
    input: &mut I,
    out: &mut O,
    err: &mut E,
) -> u8
    ensures ends { EndsOnView (view_in view.entry) (record { input = I.reading input.old; files = F.held files.old }) (record { input = I.reading input.new; files = F.held files.new }) result (O.printing out.old) (O.printing out.new) }
    ensures quiet { result ≡ 0 → Keeps (E.contents err.old) (E.contents err.new) }
{
    match view {
        View::Report(file) => {
            let how = Shown::Report;
            show_file(alloc, files, TextAs::Schedule, how, file, input, out, err)
        }
        View::Explanation(form, file) => {
            let how = Shown::Explanation(form);
            show_file(alloc, files, TextAs::Schedule, how, file, input, out, err)
        }
        View::Finish(what, file) => finish_file(alloc, files, what, file, input, out, err),
        View::Statistics(form, file) => {
            let how = Shown::Statistics(form);
            show_file(alloc, files, TextAs::Either, how, file, input, out, err)
        }
        View::TapeExplanation(form, file) => {
            let how = Shown::Explanation(form);
            show_file(alloc, files, TextAs::Tape, how, file, input, out, err)
        }
        View::TapeStatistics(form, file) => {
            let how = Shown::Statistics(form);
            show_file(alloc, files, TextAs::Tape, how, file, input, out, err)
        }
        View::Comparison(file, report) => compare_files(
            alloc, files, file, report, input, out, err,
        ),
    }
}
