//! The program: what it reads, what it prints and how it ends.

ghost use Rattle.std.specs.Prelude.{◌≡◌, ◌≢◌, Option, IfOk, IfErr, OnErr, None, map, string_bytes};
ghost use Rattle.std.specs.Io.KnownBytes.{Keeps};
ghost use Rattle.std.specs.IoError.{error_kind};
ghost use Rattle.clap.specs.Words.{Text};
ghost use Rattle.rr_words.specs.declared.tasks.Form.{Form};
ghost use Rattle.rr_words.specs.Tasks.{CutWords, Simulate, Audit, Sweep, Draw, faults_of, task_of};
ghost use Rattle.rr_stream.specs.Files.{file_at};
ghost use Rattle.rr_cli.specs.Ends.{EndsOn, EndsOnInput, EndsBy};

use crate::audit::{audit_file, audit_input};
use crate::exporting::export_by_word;
use crate::input::STANDARD_INPUT;
use crate::migrate::migrate_by_words;
use crate::picture::{picture_file, picture_input};
use crate::random_schedule::random_by_words;
use crate::refusals::{TextKind, end_by_fault};
use crate::show::{end_without_folder, show_folder};
use crate::streams::{
    end_by_stream, end_by_text, end_without_nodes, end_without_shell, end_without_threads,
    end_without_views, end_without_words,
};
use crate::sweep::{end_without_seed, sweep_by_word, sweep_file};
use crate::verification::verify_by_word;
use crate::words::end_by_words;
use rr_folders::{Lockable, MarkWriter};
use rr_sim::report_on;
use rr_stream::{FileReader, Sink, Source, read_all};
use rr_words::{Task, read_words};
use std::alloc::Global;
use std::convert::AsStr;
use std::io;
use std::io::{ErrorKind, Write};
use std::os::unix::fs::FileExt;
use std::rt::Files;

// Runs the schedule that the bytes of this name are, and prints the report.
fn simulate_bytes<O: Sink, E: Write>(
    alloc: Global,
    name: &str,
    bytes: &[u8],
    out: &mut O,
    err: &mut E,
) -> u8
    ensures ends { EndsOn bytes.now result (O.printing out.old) (O.printing out.new) }
    ensures quiet { result ≡ 0 → Keeps (E.contents err.old) (E.contents err.new) }
{
    match report_on(alloc, bytes, out) {
        Ok(text) => end_by_text(out, err, text.as_slice()),
        Err(refusal) => end_by_fault(alloc, err, TextKind::Schedule, name, bytes, &refusal),
    }
}

// Runs the schedule on standard input, and prints the report.
fn simulate_input<I: Source, O: Sink, E: Write>(
    alloc: Global,
    input: &mut I,
    out: &mut O,
    err: &mut E,
) -> u8
    ensures ends { EndsOnInput EndsOn (I.reading input.old) (I.reading input.new) result (O.printing out.old) (O.printing out.new) }
    ensures quiet { result ≡ 0 → Keeps (E.contents err.old) (E.contents err.new) }
{
    match read_all(alloc, input) {
        Ok(bytes) => simulate_bytes(alloc, STANDARD_INPUT, bytes.as_slice(), out, err),
        Err(failure) => end_by_stream(err, STANDARD_INPUT, &failure),
    }
}

// Runs the schedule in a file, and prints the report.
fn simulate_file<F: FileReader, O: Sink, E: Write>(
    alloc: Global,
    files: &mut F,
    path: &str,
    out: &mut O,
    err: &mut E,
) -> u8
    ensures ends { EndsOnInput EndsOn (file_at (F.held files.old) path.now) (file_at (F.held files.new) path.now) result (O.printing out.old) (O.printing out.new) }
    ensures quiet { result ≡ 0 → Keeps (E.contents err.old) (E.contents err.new) }
{
    match files.read_file(alloc, path) {
        Ok(bytes) => simulate_bytes(alloc, path, bytes.as_slice(), out, err),
        Err(failure) => end_by_stream(err, path, &failure),
    }
}

/// Runs the program `rr` by these words, the first of which is its name, and gives its exit status. A FILE is read by `files`.
///
/// `rr sim [FILE]` reads a schedule from FILE, or else from `input`, and prints its report on `out`. `rr show DIR [--json]`
/// prints what the areas of the disk in the folder DIR hold. `rr random --seed SEED --steps STEPS --nodes NODES` prints
/// a random schedule, a line `report` and the report of its run. With `--schedule-only` it prints the schedule alone. With
/// `--finish` the events that finish it stand behind it. With `--json` it prints that report as JSON instead; this goes with
/// neither of the other two.
/// With `--lively` it is a schedule in which something happens, and `--faults` of a thousand steps have a fault.
/// `rr audit [FILE] [--json]` reads a tape as `rr sim` does a schedule, and prints whether its events are what nodes do.
/// `rr sweep [FILE] --seed SEED` reads a schedule, crashes a node after each device call, and prints what it restarts
/// with, as it goes.
/// `rr draw [FILE] [--from FROM] [--to TO] [--node NODE] [--instance INSTANCE] [--requests]` reads a schedule, and prints the
/// picture of its run: of the lines FROM to TO, of one node or of all, and of the messages of one instance or of every event.
/// `rr migrate DIR --node NODE --nodes NODES` opens the disk in the folder DIR, and prints what its areas hold then.
/// The disk is that of node NODE of NODES nodes.
/// `rr verify DIR [--json]` reads the folders of a cluster in DIR, and prints what they hold and whether they agree.
/// `rr export DIR [--list] [--json]` prints the registry of the longest list that they have decided as a script, or else the list.
/// What goes wrong is told on `err`, but for a reader of `out` that has gone. The statuses: 0 done, 2 wrong words, 3 no
/// schedule or tape, 4 a damaged area or folders that don't agree, 5 a device, a file or a stream, 6 memory, 7 a tape with an event that isn't what
/// its node does next, 8 a schedule that isn't finished.
pub fn execute<
    R: Files + AllocGlobal + MarkWriter,
    S: AsStr,
    F: FileReader,
    I: Source,
    O: Sink,
    E: Write,
>(rt: &R, words: &[S], files: &mut F, input: &mut I, out: &mut O, err: &mut E) -> u8
where
    R::File: FileExt + Lockable,
    ensures ends { EndsBy (faults_of (map S.text words.now)) (task_of (map S.text words.now))
        (record { input = I.reading input.old; files = F.held files.old }) (record { input = I.reading input.new; files = F.held files.new }) result (O.printing out.old) (O.printing out.new) }
    ensures quiet { result ≡ 0 → Keeps (E.contents err.old) (E.contents err.new) }
    ensures untouched { task_of (map S.text words.now) ≢ Simulate None → ((form : Form) → task_of (map S.text words.now) ≢ Audit None form)
        → ((seed : Option Text) → task_of (map S.text words.now) ≢ Sweep None seed)
        → ((cut : CutWords) → task_of (map S.text words.now) ≢ Draw None cut) → I.reading input.new ≡ I.reading input.old }
{
    match read_words(rt.alloc(), words) {
        Ok(Task::Simulate(None)) => simulate_input(rt.alloc(), input, out, err),
        Ok(Task::Simulate(Some(path))) => simulate_file(rt.alloc(), files, path, out, err),
        Ok(Task::Show(Some(folder), form)) => show_folder(rt, form, folder, out, err),
        Ok(Task::Show(None, _)) => end_without_folder(err),
        Ok(Task::Random(words)) => random_by_words(rt.alloc(), &words, out, err),
        Ok(Task::Audit(None, form)) => audit_input(rt.alloc(), form, input, out, err),
        Ok(Task::Audit(Some(path), form)) => audit_file(rt.alloc(), form, files, path, out, err),
        Ok(Task::View(_)) => end_without_views(err),
        Ok(Task::Run(_, _, _, _, _, _, _)) => end_without_threads(err),
        Ok(Task::Shell(_)) => end_without_shell(err),
        Ok(Task::Sweep(_, None)) => end_without_seed(err),
        Ok(Task::Sweep(None, Some(seed))) => sweep_by_word(rt.alloc(), seed, input, out, err),
        Ok(Task::Sweep(Some(path), Some(seed))) => {
            sweep_file(rt.alloc(), files, path, seed, out, err)
        }
        Ok(Task::Draw(None, cut)) => picture_input(rt.alloc(), &cut, input, out, err),
        Ok(Task::Draw(Some(path), cut)) => { picture_file(rt.alloc(), files, path, &cut, out, err) }
        Ok(Task::Migrate(folder, node, nodes)) => {
            migrate_by_words(rt, folder, node, nodes, out, err)
        }
        Ok(Task::Replace(_)) => end_without_nodes(err),
        Ok(Task::Verify(dir, form)) => verify_by_word(rt, dir, form, out, err),
        Ok(Task::Export(dir, what)) => export_by_word(rt, dir, what, out, err),
        Err(error) => end_by_words(rt.alloc(), out, err, &error),
    }
}

/// Runs the program as `execute` does, where its words could be had. Otherwise it ends with 6 if memory ran out, else
/// with 2, as for a word that is no text.
pub fn run<R: Files + AllocGlobal + MarkWriter, F: FileReader, I: Source, O: Sink, E: Write>(
    rt: &R,
    words: io::Result<Vec<String>>,
    files: &mut F,
    input: &mut I,
    out: &mut O,
    err: &mut E,
) -> u8
where
    R::File: FileExt + Lockable,
    ensures ends { IfOk words (λ words. EndsBy (faults_of (map string_bytes words.items)) (task_of (map string_bytes words.items))
        (record { input = I.reading input.old; files = F.held files.old }) (record { input = I.reading input.new; files = F.held files.new }) result (O.printing out.old) (O.printing out.new)) }
    ensures memory { IfErr words (λ error. error_kind error ≡ ErrorKind.OutOfMemory → result ≡ 6) }
    ensures no_text { IfErr words (λ error. error_kind error ≢ ErrorKind.OutOfMemory → result ≡ 2) }
    ensures unprinted { OnErr words (O.printing out.new ≡ O.printing out.old) }
    ensures quiet { result ≡ 0 → Keeps (E.contents err.old) (E.contents err.new) }
{
    match words {
        Ok(words) => execute(rt, words.as_slice(), files, input, out, err),
        Err(error) => end_without_words(err, &error),
    }
}
