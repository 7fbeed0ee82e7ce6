//! The program with views: its words and streams, and how it ends.

ghost use Rattle.std.specs.Prelude.{◌≡◌, map};
ghost use Rattle.std.specs.Io.KnownBytes.{Keeps};
ghost use Rattle.rr_words.specs.Tasks.{faults_of, task_of};
ghost use Rattle.rr_cli.specs.Views.{EndsWithViews};

use crate::program::execute;
use crate::views::show_view;
use crate::words::end_by_words;
use rr_folders::{Lockable, MarkWriter};
use rr_stream::{FileReader, Sink, Source};
use rr_words::{Task, read_words};
use std::convert::AsStr;
use std::io::Write;
use std::os::unix::fs::FileExt;
use std::rt::Files;

/// Runs the program `rr` by these words, the first of which is its name, and gives its exit status. It is
/// `execute` with the views of runs.
///
/// `rr sim --explain [FILE]` prints the report of the schedule in FILE, or else in `input`, with each event and what came
/// of it. `rr sim --json [FILE]` prints the report as JSON, an object a line; both options go together.
/// `rr sim --finish [FILE]` goes on from the schedule's end until nothing is left to do, and shows the run of both; with
/// `--schedule-only` it prints the lines of the added events. Where it isn't finished the status is 8.
/// `rr stats [--json] [FILE]` prints statistics of the run. `rr check FILE REPORT` compares the report with the file
/// REPORT, and prints where they differ first; then the status is 1.
pub fn execute_with_views<
    R: Files + AllocGlobal + MarkWriter,
    S: AsStr,
    F: FileReader,
    I: Source,
    O: Sink,
    E: Write,
>(rt: &R, words: &[S], files: &mut F, input: &mut I, out: &mut O, err: &mut E) -> u8
where
    R::File: FileExt + Lockable,
    ensures ends { EndsWithViews (faults_of (map S.text words.now)) (task_of (map S.text words.now))
        (record { input = I.reading input.old; files = F.held files.old }) (record { input = I.reading input.new; files = F.held files.new }) result (O.printing out.old) (O.printing out.new) }
    ensures quiet { result ≡ 0 → Keeps (E.contents err.old) (E.contents err.new) }
{
    match read_words(rt.alloc(), words) {
        Ok(Task::View(view)) => show_view(rt.alloc(), files, view, input, out, err),
        Ok(Task::Simulate(_)) => execute(rt, words, files, input, out, err),
        Ok(Task::Show(_, _)) => execute(rt, words, files, input, out, err),
        Ok(Task::Random(_)) => execute(rt, words, files, input, out, err),
        Ok(Task::Audit(_, _)) => execute(rt, words, files, input, out, err),
        Ok(Task::Run(_, _, _, _, _, _, _)) => execute(rt, words, files, input, out, err),
        Ok(Task::Shell(_)) => execute(rt, words, files, input, out, err),
        Ok(Task::Sweep(_, _)) => execute(rt, words, files, input, out, err),
        Ok(Task::Draw(_, _)) => execute(rt, words, files, input, out, err),
        Ok(Task::Migrate(_, _, _)) => execute(rt, words, files, input, out, err),
        Ok(Task::Replace(_)) => execute(rt, words, files, input, out, err),
        Ok(Task::Verify(_, _)) => execute(rt, words, files, input, out, err),
        Ok(Task::Export(_, _)) => execute(rt, words, files, input, out, err),
        Err(error) => end_by_words(rt.alloc(), out, err, &error),
    }
}
