//! The program with threads: its words and streams, and how it ends.

ghost use Rattle.std.specs.Prelude.{◌≡◌, ◌≢◌, IfOk, IfErr, OnErr, map, string_bytes};
ghost use Rattle.std.specs.Io.KnownBytes.{Keeps};
ghost use Rattle.std.specs.IoError.{error_kind};
ghost use Rattle.rr_words.specs.Tasks.{faults_of, task_of};
ghost use Rattle.rr_run.specs.Runs.{EndsWithThreads};
ghost use Rattle.rr_run.specs.Telling.{IsQuiet};

use crate::replacing::replace_by_words;
use crate::script_run::{RunWords, run_by_words};
use crate::shell_run::shell_by_words;
use rr_cli::{Task, end_by_words, end_without_words, read_words};
use rr_folders::{Lockable, MarkWriter};
use rr_shell::Prompting;
use rr_stream::{FileReader, Sink};
use std::convert::AsStr;
use std::fs::OpenFile;
use std::io;
use std::io::{ErrorKind, Read, Seek, Write};
use std::os::unix::fs::FileExt;
use std::rt::Files;
use std::sync::Wait;
use std::thread::Threads;
use std::time::Clock;

/// Runs the program `rr` by these words, the first of which is its name, and gives its exit status. It is
/// `rr_cli::execute_with_views` with three more commands.
///
/// `rr run --nodes NODES --dir DIR --script SCRIPT [--tape TAPE] [--tick MILLISECONDS] [--without NODES] [--json]` reads a script from the file
/// SCRIPT, or from `input` where SCRIPT is `-`. It runs that many nodes in threads, node P over the disk in the folder DIR/P, and prints the
/// answers to the script, in words or with JSON. Folders and files that are missing are made. With a TAPE all areas have to be unformatted, and
/// the tape of the run is written to that file before the answers are printed. The nodes of `--without` stay down, and their folders aren't
/// touched. What goes wrong is told on `err`: the words, then the file, then its text, then the folders, ascending, then areas that are
/// formatted, then the run, then request numbers that are decided as other commands, then the file TAPE.
///
/// `rr shell [--nodes NODES] [--dir DIR] [--client CLIENT] [--tick MILLISECONDS] [--without NODES] [-c LINE].. [--strict] [--json]` runs nodes over
/// folders in the same way, and reads commands from `input`, or else answers each LINE. A line is answered on `out` before the next is read, in words
/// or with JSON. Where somebody types, `input` shows a prompt before each. With `--strict` it ends at the first line that isn't
/// answered as asked. What goes wrong is told on `err`: the words, then the folders, ascending, then the file DIR/requests, then the run or a stream.
/// Behind the folders it's told there that a new registry begins, if one does.
///
/// `rr replace DIR --node NODE [--without NODES] [--tick MILLISECONDS] [--dry-run]` runs nodes over folders in the same way, without node NODE,
/// until they have decided all in which that node can have had a say. Then it gives the node a new folder with these decisions, and puts the
/// old one aside. With `--dry-run` it tells what it would do. What goes wrong is told on `err`, as of a shell.
pub fn execute<
    F: Read + Write + Seek + FileExt + OpenFile + Drop + Send + Lockable,
    R: Files<File = F> + AllocGlobal + Threads + Wait + Clock + Sync + MarkWriter<Handle = F>,
    S: AsStr,
    L: FileReader,
    I: Prompting,
    O: Sink + Send,
    E: Write,
>(rt: &R, words: &[S], files: &mut L, input: &mut I, out: &mut O, err: &mut E) -> u8
where
    R::Dir: Send,
    ensures ends { EndsWithThreads (faults_of (map S.text words.now)) (task_of (map S.text words.now))
        (record { input = I.reading input.old; files = L.held files.old }) (record { input = I.reading input.new; files = L.held files.new }) result (O.printing out.old) (O.printing out.new) }
    ensures quiet { result ≡ 0 → IsQuiet (faults_of (map S.text words.now)) (task_of (map S.text words.now)) (record { input = I.reading input.old; files = L.held files.old })
        (E.contents err.old) (E.contents err.new) }
{
    match read_words(rt.alloc(), words) {
        Ok(Task::Run(Some(nodes), Some(dir), Some(script), tape, tick, without, form)) => {
            let words = RunWords {
                nodes,
                dir,
                script,
                tape,
                tick,
                without,
                form,
            };
            run_by_words(rt, files, &words, input, out, err)
        }
        Ok(Task::Run(None, _, _, _, _, _, _)) => rr_cli::execute_with_views(
            rt, words, files, input, out, err,
        ),
        Ok(Task::Run(_, None, _, _, _, _, _)) => rr_cli::execute_with_views(
            rt, words, files, input, out, err,
        ),
        Ok(Task::Run(_, _, None, _, _, _, _)) => rr_cli::execute_with_views(
            rt, words, files, input, out, err,
        ),
        Ok(Task::Shell(asked)) => shell_by_words(rt, &asked, input, out, err),
        Ok(Task::View(_)) => rr_cli::execute_with_views(rt, words, files, input, out, err),
        Ok(Task::Simulate(_)) => rr_cli::execute_with_views(rt, words, files, input, out, err),
        Ok(Task::Show(_, _)) => rr_cli::execute_with_views(rt, words, files, input, out, err),
        Ok(Task::Random(_)) => rr_cli::execute_with_views(rt, words, files, input, out, err),
        Ok(Task::Audit(_, _)) => rr_cli::execute_with_views(rt, words, files, input, out, err),
        Ok(Task::Sweep(_, _)) => rr_cli::execute_with_views(rt, words, files, input, out, err),
        Ok(Task::Draw(_, _)) => rr_cli::execute_with_views(rt, words, files, input, out, err),
        Ok(Task::Migrate(_, _, _)) => rr_cli::execute_with_views(rt, words, files, input, out, err),
        Ok(Task::Replace(asked)) => replace_by_words(rt, &asked, out, err),
        Ok(Task::Verify(_, _)) => rr_cli::execute_with_views(rt, words, files, input, out, err),
        Ok(Task::Export(_, _)) => rr_cli::execute_with_views(rt, words, files, input, out, err),
        Err(error) => end_by_words(rt.alloc(), out, err, &error),
    }
}

/// Runs the program as `execute` does, where its words could be had. Otherwise it ends with 6 if memory ran out, else
/// with 2, as for a word that is no text.
pub fn run<
    F: Read + Write + Seek + FileExt + OpenFile + Drop + Send + Lockable,
    R: Files<File = F> + AllocGlobal + Threads + Wait + Clock + Sync + MarkWriter<Handle = F>,
    L: FileReader,
    I: Prompting,
    O: Sink + Send,
    E: Write,
>(
    rt: &R,
    words: io::Result<Vec<String>>,
    files: &mut L,
    input: &mut I,
    out: &mut O,
    err: &mut E,
) -> u8
where
    R::Dir: Send,
    ensures ends { IfOk words (λ words. EndsWithThreads (faults_of (map string_bytes words.items)) (task_of (map string_bytes words.items))
        (record { input = I.reading input.old; files = L.held files.old }) (record { input = I.reading input.new; files = L.held files.new }) result (O.printing out.old) (O.printing out.new)) }
    ensures memory { IfErr words (λ error. error_kind error ≡ ErrorKind.OutOfMemory → result ≡ 6) }
    ensures no_text { IfErr words (λ error. error_kind error ≢ ErrorKind.OutOfMemory → result ≡ 2) }
    ensures unprinted { OnErr words (O.printing out.new ≡ O.printing out.old) }
    ensures quiet { IfOk words (λ words. result ≡ 0 → IsQuiet (faults_of (map string_bytes words.items)) (task_of (map string_bytes words.items))
        (record { input = I.reading input.old; files = L.held files.old }) (E.contents err.old) (E.contents err.new)) }
    ensures silent { OnErr words (result ≡ 0 → Keeps (E.contents err.old) (E.contents err.new)) }
{
    match words {
        Ok(words) => execute(rt, words.as_slice(), files, input, out, err),
        Err(error) => end_without_words(err, &error),
    }
}
