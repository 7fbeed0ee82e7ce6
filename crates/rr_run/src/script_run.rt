//! The run of a script: what it reads, what it prints and how it ends.

ghost use Rattle.std.specs.Prelude.{◌≡◌, ◌⊎◌, true, length, Option, None, Some, option_map, IfOk, IfErr, IsErr};
ghost use Rattle.std.specs.Io.KnownBytes.{Keeps};
ghost use Rattle.clap.specs.Words.{Text};
ghost use Rattle.rr_types.specs.declared.refusal.Refusal.TheVariants.{OutOfMemory, Device};
ghost use Rattle.rr_stream.specs.Files.{file_at};
ghost use Rattle.rr_cli.specs.Ends.{EndsOnInput};
ghost use Rattle.rr_cli.specs.Refusals.{status_of};
ghost use Rattle.rr_threads.specs.Reusing.{are_reused};
ghost use Rattle.rr_run.specs.Runs.{EndsOnFolders, EndsOnScript, EndsOnNamed, EndsOnRun};
ghost use Rattle.rr_run.specs.Telling.{TellsReused, TellsOfBytes, TellsOfInput, TellsOfNamed};

use crate::answer_objects::answers_in;
use crate::closed::end_by_closed;
use crate::leaving_out::{end_without_list, left_out_by};
use crate::reused::tell_reused;
use crate::ticking::tick_by;
use rr_cli::{Form, end_by_refusal, end_by_stream, end_by_text, nodes_of, print_folder_fault};
use rr_disk::{Disk, FileDisk, Reopen};
use rr_explain::print_script_fault;
use rr_folders::{
    Closed, Folders, Lockable, Locks, MarkWriter, Reasons, Survey, enter, read_only_disk,
    survey_folders, try_dir, try_folder,
};
use rr_journal::inspect;
use rr_stream::{FileReader, Sink, Source, read_all};
use rr_text::{Answers, Script, Tape};
use rr_threads::{Ran, Recorder, run_script_told};
use rr_turn::Open;
use rr_types::{NodeId, NodeSet, Nodes, Refusal};
use std::alloc::Global;
use std::fs::OpenFile;
use std::io::{Read, Seek, Write};
use std::os::unix::fs::FileExt;
use std::rt::Files;
use std::sync::Wait;
use std::thread::Threads;
use std::time::{Clock, Duration};
use std::{fs, io};

/// What the words of a run say.
#[derive(Clone, Copy, Debug)]
pub(crate) struct RunWords<'a> {
    /// How many nodes there are.
    pub(crate) nodes: &'a str,
    /// The folder of their folders.
    pub(crate) dir: &'a str,
    /// The script.
    pub(crate) script: &'a str,
    /// Where the tape is written.
    pub(crate) tape: Option<&'a str>,
    /// How many milliseconds are between two ticks of a node.
    pub(crate) tick: Option<&'a str>,
    /// The nodes that are left down.
    pub(crate) without: Option<&'a str>,
    /// How the answers are printed.
    pub(crate) form: Form,
}

/// How a script is run: how long after a tick of a node the next is due, which nodes are left down, and how the answers are printed.
#[derive(Clone, Copy, Debug)]
struct Manner {
    tick: Duration,
    without: NodeSet,
    form: Form,
}

/// Ends by the refusal of a run over the folders in the folder DIR. Where a folder has what is refused, a second line tells it. Those of
/// nodes that are left out aren't looked at.
pub(crate) fn end_by_run_fault<R: Files + AllocGlobal, E: Write>(
    rt: &R,
    err: &mut E,
    dir: &str,
    nodes: Nodes,
    without: NodeSet,
    reasons: &Reasons,
    refusal: &Refusal,
) -> u8
where
    R::File: FileExt,
    ensures { result ≡ status_of refusal.now }
{
    let ending = end_by_refusal(err, refusal);
    let _ = match refusal {
        Refusal::Device => print_reason(rt, err, dir, nodes, without, reasons),
        Refusal::Damaged { .. } => print_refused_folder(rt, err, dir, nodes, without, refusal),
        _ => Ok(()),
    };
    ending
}

// Prints why a device call failed, as it was noted; or else what is wrong in the first folder of a run.
fn print_reason<R: Files + AllocGlobal, W: Write>(
    rt: &R,
    err: &mut W,
    dir: &str,
    nodes: Nodes,
    without: NodeSet,
    reasons: &Reasons,
) -> io::Result<()>
where
    R::File: FileExt,
{
    if reasons.print(err, dir)? {
        return Ok(());
    }
    print_refused_folder(rt, err, dir, nodes, without, &Refusal::Device)
}

// Whether a node is left out that has this number.
fn is_left_out(without: NodeSet, index: u8) -> bool {
    match NodeId::at(index) {
        Some(node) => without.contains(node),
        None => false,
    }
}

// Prints what is wrong in the first folder of a run that can't be read, or that those which can be differ.
fn print_refused_folder<R: Files + AllocGlobal, W: Write>(
    rt: &R,
    err: &mut W,
    dir: &str,
    nodes: Nodes,
    without: NodeSet,
    refusal: &Refusal,
) -> io::Result<()>
where
    R::File: FileExt,
{
    for node in 0..nodes.count() {
        if is_left_out(without, node) {
            continue;
        }
        let path = format!(in rt.alloc(); "{dir}/{node}")?;
        if let Err(error) = fs::open(rt, path.as_str()) {
            return writeln!(err, "{path}: opening the folder: {error}");
        }
        if let Err(refusal) = read_folder(rt, path.as_str()) {
            return print_folder_fault(rt, err, path.as_str(), &refusal);
        }
    }
    if matches!(refusal, Refusal::Damaged { .. }) {
        return writeln!(
            err,
            "{dir}: its folders decide an instance differently: see rr verify {dir}"
        );
    }
    print_untried_folder(rt, err, dir, nodes, without)
}

// Prints why the first folder of a run can't be written, or else that a file in them failed.
fn print_untried_folder<R: Files + AllocGlobal, W: Write>(
    rt: &R,
    err: &mut W,
    dir: &str,
    nodes: Nodes,
    without: NodeSet,
) -> io::Result<()>
where
    R::File: FileExt,
{
    for node in 0..nodes.count() {
        if is_left_out(without, node) {
            continue;
        }
        let path = format!(in rt.alloc(); "{dir}/{node}")?;
        if let Err(Closed::Failed { path, call, error }) = try_folder(rt, path.as_str()) {
            return writeln!(err, "{path}: {call}: {error}");
        }
    }
    match try_dir(rt, dir) {
        Err(Closed::Failed { path, call, error }) => writeln!(err, "{path}: {call}: {error}"),
        _ => writeln!(
            err,
            "{dir}: a file in its folders couldn't be read or written"
        ),
    }
}

// Reads both areas of the disk in a folder.
fn read_folder<R: Files + AllocGlobal>(rt: &R, folder: &str) -> Result<(), Refusal>
where
    R::File: FileExt,
{
    let mut disk = read_only_disk(rt, folder)?;
    let _ = inspect(rt.alloc(), &mut disk)?;
    Ok(())
}

// Ends by the refusal of a script of this name. A second line tells people where it is at fault and why.
fn end_by_script_fault<E: Write>(
    err: &mut E,
    name: &str,
    nodes: Nodes,
    bytes: &[u8],
    refusal: &Refusal,
) -> u8
    ensures { result ≡ status_of refusal.now }
{
    let ending = end_by_refusal(err, refusal);
    let _ = print_script_fault(err, name, nodes, bytes, refusal);
    ending
}

// Prints answers in a form.
fn end_by_answers<O: Sink, E: Write>(
    alloc: Global,
    form: Form,
    answers: &Answers,
    out: &mut O,
    err: &mut E,
) -> u8
    ensures ends { (tape : Option Text) → EndsOnFolders form tape result (O.printing out.old) (O.printing out.new) }
    ensures quiet { result ≡ 0 → Keeps (E.contents err.old) (E.contents err.new) }
{
    match answers_in(alloc, form, answers) {
        Ok(text) => end_by_text(out, err, text.as_slice()),
        Err(_) => end_by_refusal(err, &Refusal::OutOfMemory),
    }
}

// Writes a tape to a file of this name, then prints answers.
fn end_by_tape<R: Files + AllocGlobal, O: Sink, E: Write>(
    rt: &R,
    form: Form,
    path: &str,
    tape: &Tape,
    answers: &Answers,
    out: &mut O,
    err: &mut E,
) -> u8
    ensures ends { EndsOnFolders form (Some path.now) result (O.printing out.old) (O.printing out.new) }
    ensures quiet { result ≡ 0 → Keeps (E.contents err.old) (E.contents err.new) }
{
    let text = match tape.text(rt.alloc()) {
        Ok(text) => text,
        Err(_) => return end_by_refusal(err, &Refusal::OutOfMemory),
    };
    match fs::write(rt, path, text.as_slice()) {
        Ok(()) => end_by_answers(rt.alloc(), form, answers, out, err),
        Err(failure) => end_by_stream(err, path, &failure),
    }
}

// Runs a script over the disks of folders, whose locks are held meanwhile.
fn run_locked<
    F: Read + Write + Seek + FileExt + OpenFile + Drop,
    D: Disk + Reopen + Drop + Send,
    R: AllocGlobal + Threads + Wait + Clock + Sync,
>(
    rt: &R,
    _locks: &Locks<F>,
    disks: Vec<D>,
    script: &Script,
    recorder: Option<&Recorder>,
    without: NodeSet,
    tick: Duration,
) -> Result<Ran, Refusal>
    requires alike { (one other : D) → D.tells one → D.tells other }
    ensures { IfOk result (λ ran. are_reused script.now.lines ran.reused.items ≡ true) }
{
    run_script_told(
        rt,
        rt.alloc(),
        without,
        disks,
        script,
        &Open,
        recorder,
        tick,
    )
}

// What a run of a script gave. Where a node's folder has left its place, it is refused as one whose device fails.
fn unless_moved(script: &Script, ran: Result<Ran, Refusal>, has_moved: bool) -> Result<Ran, Refusal>
    requires { IfOk ran (λ ran. are_reused script.now.lines ran.reused.items ≡ true) }
    ensures reused { IfOk result (λ ran. are_reused script.now.lines ran.reused.items ≡ true) }
    ensures moved { has_moved ≡ true → IsErr result }
{
    if has_moved {
        let _ = ran?;
        return Err(Refusal::Device);
    }
    ran
}

// Runs a script over folders as they were found, and prints the answers. The locks are released after the run.
fn run_in<
    F: Read + Write + Seek + FileExt + OpenFile + Drop + Send + Lockable,
    R: Files<File = F> + AllocGlobal + Threads + Wait + Clock + Sync + MarkWriter<Handle = F>,
    O: Sink,
    E: Write,
>(
    rt: &R,
    dir: &str,
    survey: Survey<F>,
    script: &Script,
    manner: Manner,
    out: &mut O,
    err: &mut E,
) -> u8
    ensures ends { EndsOnFolders manner.form None result (O.printing out.old) (O.printing out.new) }
    ensures quiet { result ≡ 0 → TellsReused script.now.lines (E.contents err.old) (E.contents err.new) }
{
    let Manner {
        tick,
        without,
        form,
    } = manner;
    let nodes = script.nodes();
    let folders = match enter(rt, nodes, dir, survey) {
        Ok(folders) => folders,
        Err(closed) => return end_by_closed(rt, err, dir, nodes, &closed),
    };
    let Folders {
        locks,
        disks,
        reasons,
    } = folders;
    let ran = run_locked(rt, &locks, disks, script, None, without, tick);
    drop(locks);
    let ran = unless_moved(script, ran, reasons.have_moved());
    match ran {
        Ok(ran) => {
            let Ran { answers, reused } = ran;
            tell_reused(rt.alloc(), err, script.lines(), reused.as_slice());
            end_by_answers(rt.alloc(), form, &answers, out, err)
        }
        Err(refusal) => { end_by_run_fault(rt, err, dir, nodes, without, &reasons, &refusal) }
    }
}

// Runs a script over folders that were found fresh, writes the tape to a file of this name, and prints the answers.
fn run_taped<
    F: Read + Write + Seek + FileExt + OpenFile + Drop + Send + Lockable,
    R: Files<File = F> + AllocGlobal + Threads + Wait + Clock + Sync + MarkWriter<Handle = F>,
    O: Sink,
    E: Write,
>(
    rt: &R,
    dir: &str,
    survey: Survey<F>,
    script: &Script,
    path: &str,
    manner: Manner,
    out: &mut O,
    err: &mut E,
) -> u8
    ensures ends { EndsOnFolders manner.form (Some path.now) result (O.printing out.old) (O.printing out.new) }
    ensures quiet { result ≡ 0 → TellsReused script.now.lines (E.contents err.old) (E.contents err.new) }
{
    let Manner {
        tick,
        without,
        form,
    } = manner;
    let nodes = script.nodes();
    let folders = match enter(rt, nodes, dir, survey) {
        Ok(folders) => folders,
        Err(closed) => return end_by_closed(rt, err, dir, nodes, &closed),
    };
    let Folders {
        locks,
        disks,
        reasons,
    } = folders;
    let recorder = Recorder::new(rt.alloc(), nodes);
    let ran = run_locked(rt, &locks, disks, script, Some(&recorder), without, tick);
    drop(locks);
    let ran = unless_moved(script, ran, reasons.have_moved());
    match ran {
        Ok(ran) => {
            let Ran { answers, reused } = ran;
            tell_reused(rt.alloc(), err, script.lines(), reused.as_slice());
            end_by_tape(rt, form, path, &recorder.into_tape(), &answers, out, err)
        }
        Err(refusal) => { end_by_run_fault(rt, err, dir, nodes, without, &reasons, &refusal) }
    }
}

// Runs a script with a tape over folders, unless an area was found that is formatted.
fn run_if_fresh<
    F: Read + Write + Seek + FileExt + OpenFile + Drop + Send + Lockable,
    R: Files<File = F> + AllocGlobal + Threads + Wait + Clock + Sync + MarkWriter<Handle = F>,
    O: Sink,
    E: Write,
>(rt: &R, dir: &str, script: &Script, path: &str, manner: Manner, out: &mut O, err: &mut E) -> u8
    ensures ends { EndsOnFolders manner.form (Some path.now) result (O.printing out.old) (O.printing out.new) }
    ensures quiet { result ≡ 0 → TellsReused script.now.lines (E.contents err.old) (E.contents err.new) }
{
    if manner.without.bits() > 0 {
        return end_by_tape_without(err);
    }
    let nodes = script.nodes();
    let survey = match survey_folders(rt, nodes, dir, manner.without) {
        Ok(survey) => survey,
        Err(closed) => return end_by_closed(rt, err, dir, nodes, &closed),
    };
    if !survey.is_fresh() {
        let _ = writeln!(err, "rr: --tape wants fresh folders");
        return 2;
    }
    run_taped(rt, dir, survey, script, path, manner, out, err)
}

// Ends where a tape is asked for, and nodes are left out, which only a cluster can be that is there.
fn end_by_tape_without<E: Write>(err: &mut E) -> u8
    ensures { result ≡ 2 }
{
    let _ = writeln!(
        err,
        "rr: run: --tape wants fresh folders, so it doesn't go with --without"
    );
    2
}

// Runs a script over the folders in the folder DIR, without those that are left out, and prints the answers.
fn run_found<
    F: Read + Write + Seek + FileExt + OpenFile + Drop + Send + Lockable,
    R: Files<File = F> + AllocGlobal + Threads + Wait + Clock + Sync + MarkWriter<Handle = F>,
    O: Sink,
    E: Write,
>(rt: &R, dir: &str, script: &Script, manner: Manner, out: &mut O, err: &mut E) -> u8
    ensures ends { EndsOnFolders manner.form None result (O.printing out.old) (O.printing out.new) }
    ensures quiet { result ≡ 0 → TellsReused script.now.lines (E.contents err.old) (E.contents err.new) }
{
    let nodes = script.nodes();
    let survey = match survey_folders(rt, nodes, dir, manner.without) {
        Ok(survey) => survey,
        Err(closed) => return end_by_closed(rt, err, dir, nodes, &closed),
    };
    run_in(rt, dir, survey, script, manner, out, err)
}

// Runs a script over the folders in the folder DIR, and prints the answers; with a tape where a file is named for it.
fn run_over<
    F: Read + Write + Seek + FileExt + OpenFile + Drop + Send + Lockable,
    R: Files<File = F> + AllocGlobal + Threads + Wait + Clock + Sync + MarkWriter<Handle = F>,
    O: Sink,
    E: Write,
>(
    rt: &R,
    dir: &str,
    script: &Script,
    tape: Option<&str>,
    manner: Manner,
    out: &mut O,
    err: &mut E,
) -> u8
    ensures ends { EndsOnFolders manner.form (option_map (λ s. s.now) tape.entry) result (O.printing out.old) (O.printing out.new) }
    ensures quiet { result ≡ 0 → TellsReused script.now.lines (E.contents err.old) (E.contents err.new) }
{
    match tape {
        Some(path) => run_if_fresh(rt, dir, script, path, manner, out, err),
        None => run_found(rt, dir, script, manner, out, err),
    }
}

// Runs the script that the bytes of this name are.
fn run_bytes<
    F: Read + Write + Seek + FileExt + OpenFile + Drop + Send + Lockable,
    R: Files<File = F> + AllocGlobal + Threads + Wait + Clock + Sync + MarkWriter<Handle = F>,
    O: Sink,
    E: Write,
>(
    rt: &R,
    nodes: Nodes,
    dir: &str,
    tape: Option<&str>,
    manner: Manner,
    name: &str,
    bytes: &[u8],
    out: &mut O,
    err: &mut E,
) -> u8
    ensures ends { EndsOnScript manner.form nodes (option_map (λ s. s.now) tape.entry) bytes.now result (O.printing out.old) (O.printing out.new) }
    ensures quiet { result ≡ 0 → TellsOfBytes bytes.now (E.contents err.old) (E.contents err.new) }
{
    match Script::parse(rt.alloc(), nodes, bytes) {
        Ok(script) => run_over(rt, dir, &script, tape, manner, out, err),
        Err(refusal) => end_by_script_fault(err, name, nodes, bytes, &refusal),
    }
}

// Runs the script that the input of this name holds.
fn run_input<
    F: Read + Write + Seek + FileExt + OpenFile + Drop + Send + Lockable,
    R: Files<File = F> + AllocGlobal + Threads + Wait + Clock + Sync + MarkWriter<Handle = F>,
    I: Source,
    O: Sink,
    E: Write,
>(
    rt: &R,
    nodes: Nodes,
    dir: &str,
    tape: Option<&str>,
    manner: Manner,
    name: &str,
    input: &mut I,
    out: &mut O,
    err: &mut E,
) -> u8
    ensures ends { EndsOnInput (EndsOnScript manner.form nodes (option_map (λ s. s.now) tape.entry)) (I.reading input.old) (I.reading input.new) result (O.printing out.old) (O.printing out.new) }
    ensures quiet { result ≡ 0 → TellsOfInput (I.reading input.old) (E.contents err.old) (E.contents err.new) }
{
    match read_all(rt.alloc(), input) {
        Ok(bytes) => run_bytes(
            rt,
            nodes,
            dir,
            tape,
            manner,
            name,
            bytes.as_slice(),
            out,
            err,
        ),
        Err(failure) => end_by_stream(err, name, &failure),
    }
}

// Runs the script in a file.
fn run_file<
    F: Read + Write + Seek + FileExt + OpenFile + Drop + Send + Lockable,
    R: Files<File = F> + AllocGlobal + Threads + Wait + Clock + Sync + MarkWriter<Handle = F>,
    L: FileReader,
    O: Sink,
    E: Write,
>(
    rt: &R,
    files: &mut L,
    nodes: Nodes,
    dir: &str,
    tape: Option<&str>,
    manner: Manner,
    path: &str,
    out: &mut O,
    err: &mut E,
) -> u8
    ensures ends { EndsOnInput (EndsOnScript manner.form nodes (option_map (λ s. s.now) tape.entry)) (file_at (L.held files.old) path.now) (file_at (L.held files.new) path.now) result (O.printing out.old) (O.printing out.new) }
    ensures quiet { result ≡ 0 → TellsOfInput (file_at (L.held files.old) path.now) (E.contents err.old) (E.contents err.new) }
{
    match files.read_file(rt.alloc(), path) {
        Ok(bytes) => run_bytes(
            rt,
            nodes,
            dir,
            tape,
            manner,
            path,
            bytes.as_slice(),
            out,
            err,
        ),
        Err(failure) => end_by_stream(err, path, &failure),
    }
}

// Runs the script in the file that a word names, or in the input where the word is a hyphen.
fn run_named<
    F: Read + Write + Seek + FileExt + OpenFile + Drop + Send + Lockable,
    R: Files<File = F> + AllocGlobal + Threads + Wait + Clock + Sync + MarkWriter<Handle = F>,
    L: FileReader,
    I: Source,
    O: Sink,
    E: Write,
>(
    rt: &R,
    files: &mut L,
    nodes: Nodes,
    dir: &str,
    tape: Option<&str>,
    manner: Manner,
    path: &str,
    input: &mut I,
    out: &mut O,
    err: &mut E,
) -> u8
    ensures ends { EndsOnNamed path.now (EndsOnScript manner.form nodes (option_map (λ s. s.now) tape.entry)) (record { input = I.reading input.old; files = L.held files.old }) (record { input = I.reading input.new; files = L.held files.new }) result (O.printing out.old) (O.printing out.new) }
    ensures quiet { result ≡ 0 → TellsOfNamed path.now (record { input = I.reading input.old; files = L.held files.old }) (E.contents err.old) (E.contents err.new) }
{
    if path == "-" {
        run_input(
            rt,
            nodes,
            dir,
            tape,
            manner,
            "standard input",
            input,
            out,
            err,
        )
    } else {
        run_file(rt, files, nodes, dir, tape, manner, path, out, err)
    }
}

/// Runs as many nodes as a word names, over the folders in the folder DIR, by the script in a file or in the input, and prints
/// the answers in a form. Words say how often nodes tick, and which are left down. One for their number that is none from 1 to 7, which the
/// command line doesn't let through, ends with 2, as does one that isn't a list of nodes.
pub(crate) fn run_by_words<
    F: Read + Write + Seek + FileExt + OpenFile + Drop + Send + Lockable,
    R: Files<File = F> + AllocGlobal + Threads + Wait + Clock + Sync + MarkWriter<Handle = F>,
    L: FileReader,
    I: Source,
    O: Sink,
    E: Write,
>(rt: &R, files: &mut L, words: &RunWords<'_>, input: &mut I, out: &mut O, err: &mut E) -> u8
    ensures ends { EndsOnRun words.now.form words.now.nodes.now words.now.script.now (option_map (λ s. s.now) words.now.tape) (option_map (λ s. s.now) words.now.without) (record { input = I.reading input.old; files = L.held files.old }) (record { input = I.reading input.new; files = L.held files.new }) result (O.printing out.old) (O.printing out.new) }
    ensures quiet { result ≡ 0 → TellsOfNamed words.now.script.now (record { input = I.reading input.old; files = L.held files.old }) (E.contents err.old) (E.contents err.new) }
{
    let Some(nodes) = nodes_of(words.nodes) else {
        return end_without_number(err);
    };
    let Some(without) = left_out_by(nodes, words.without) else {
        return end_without_list(err, "run", nodes);
    };
    let manner = Manner {
        tick: tick_by(words.tick),
        without,
        form: words.form,
    };
    let (dir, tape, path) = (words.dir, words.tape, words.script);
    run_named(rt, files, nodes, dir, tape, manner, path, input, out, err)
}

// Ends where a word names no number of nodes.
fn end_without_number<E: Write>(err: &mut E) -> u8
    ensures { result ≡ 2 }
{
    let _ = writeln!(err, "rr: run: there is no such number of nodes");
    2
}
