//! `rr shell`: nodes in threads, and in the program's own thread the talk with the person or program at its standard input.

ghost use Rattle.std.specs.Prelude.{◌≡◌, ◌⊎◌, ℕ, IfOk, IfErr, IfSome, map, option_map};
ghost use Rattle.std.specs.Io.KnownBytes.{Keeps};
ghost use Rattle.rr_types.specs.declared.refusal.Refusal.TheVariants.{OutOfMemory};
ghost use Rattle.rr_words.specs.Tasks.{shell_words_in};
ghost use Rattle.rr_cli.specs.Refusals.{status_of};
ghost use Rattle.rr_shell.specs.Troubles.{ending_status};
ghost use Rattle.rr_run.specs.Endings.{refusal_behind};
ghost use Rattle.rr_run.specs.Differences.{TellsDispute};
ghost use Rattle.rr_run.specs.Telling.{TellsNew, TellsNewBy};
ghost use Rattle.rr_run.specs.Shells.{IsClientBy, EndsOnTalk, EndsOnShell, EndsOnLines, EndsOnShellWords, lines_text};

use crate::beside::talk_beside;
use crate::closed::end_by_closed;
use crate::console::Console;
use crate::defaults::{nodes_by, show_begin};
use crate::disputes::{Failure, end_by_dispute, failure_by};
use crate::founding::{folder_of, tell_if_new};
use crate::leaving_out::{end_without_list, first_left, left_out_by};
use crate::post::{AtPost, Post};
use crate::script_run::end_by_run_fault;
use crate::teller::tellers;
use crate::ticking::tick_by;
use rr_cli::{ShellWords, end_by_refusal, end_by_stream, end_by_unprinted, number_in};
use rr_folders::{
    Block, Folders, Lockable, Locks, MarkWriter, Reasons, Unreserved, enter, print_closed,
    survey_folders,
};
use rr_shell::{Prompting, Stop, Trouble};
use rr_stream::{Counted, Sink};
use rr_text::text_word::{push_byte, push_bytes};
use rr_types::{NodeId, NodeSet, Nodes, Refusal};
use rr_words::LAST_CLIENT;
use std::alloc::Global;
use std::fs::OpenFile;
use std::io::{Read, Seek, Write};
use std::os::unix::fs::FileExt;
use std::rt::Files;
use std::sync::Wait;
use std::thread::Threads;
use std::time::{Clock, Duration};

/// How a shell talks: as which client, how long after a tick of a node the next is due, with JSON or not, whether it ends at the first line
/// that isn't answered as asked, which nodes are left down, and which one is asked first.
#[derive(Clone, Copy, Debug)]
struct Manner {
    client: u32,
    tick: Duration,
    json: bool,
    strict: bool,
    without: NodeSet,
    first: NodeId,
}

// The status behind a talk that is over: that of the trouble that ended it, or 0.
fn ending_status(trouble: Option<Trouble>) -> u8
    ensures { result ≡ ending_status trouble }
{
    match trouble {
        Some(trouble) => trouble.status(),
        None => 0,
    }
}

// The refusal that a shell ends with: that of its run, or else a device that fails, where a node's folder has left its place.
fn refusal_behind(refusal: Option<Refusal>, has_moved: bool) -> Option<Refusal>
    ensures { result ≡ refusal_behind refusal has_moved }
{
    match refusal {
        Some(refusal) => Some(refusal),
        None if has_moved => Some(Refusal::Device),
        None => None,
    }
}

// Ends by a talk, and by what has failed if something has.
fn end_by_talk<R: Files + AllocGlobal, E: Write>(
    rt: &R,
    err: &mut E,
    dir: &str,
    nodes: Nodes,
    without: NodeSet,
    reasons: &Reasons,
    talked: Result<Option<Trouble>, Stop>,
    failure: Option<Failure>,
) -> u8
where
    R::File: FileExt,
    ensures ends { EndsOnTalk talked failure result }
    ensures quiet { result ≡ 0 → Keeps (E.contents err.old) (E.contents err.new) }
    ensures differing { TellsDispute talked failure (E.contents err.old) (E.contents err.new) }
{
    match talked {
        Ok(trouble) => match failure {
            Some(Failure::Refused(refusal)) => {
                end_by_run_fault(rt, err, dir, nodes, without, reasons, &refusal)
            }
            Some(Failure::Differing(disputed)) => end_by_dispute(rt.alloc(), err, &disputed),
            None => ending_status(trouble),
        },
        Err(Stop::Refused(refusal)) => {
            end_by_run_fault(rt, err, dir, nodes, without, reasons, &refusal)
        }
        Err(Stop::Unread(error)) => end_by_stream(err, "standard input", &error),
        Err(Stop::Unprinted(error)) => end_by_unprinted(err, &error),
    }
}

/// What a shell asks the nodes through at first, as this client.
pub(crate) fn console_at<'x, 'y, F, R>(
    rt: &'x R,
    reasons: &'y Reasons,
    locks: Locks<F>,
    nodes: Nodes,
    client: u32,
    post: &'y Post,
) -> Console<'x, 'y, AtPost<'y>, F, R> {
    Console {
        rt,
        reasons,
        locks,
        nodes,
        client,
        block: Block::behind(0),
        board: AtPost { post },
        unanswered: None,
        hint: None,
        has_warned: false,
        ear: None,
        failed: NodeSet::empty(),
    }
}

// Talks over folders that are open, and lets their locks go behind the talk, with the console.
fn shell_in<
    F: Read + Write + Seek + FileExt + OpenFile + Drop + Send,
    R: Files<File = F> + AllocGlobal + Threads + Wait + Clock + Sync + MarkWriter<Handle = F>,
    I: Prompting,
    O: Sink + Send,
    E: Write,
>(
    rt: &R,
    dir: &str,
    nodes: Nodes,
    manner: Manner,
    folders: Folders<'_, F, R>,
    input: &mut I,
    out: &mut O,
    err: &mut E,
) -> u8
where
    R::Dir: Send,
    ensures ends { EndsOnShell manner.json manner.strict nodes manner.first (I.reading input.old) (I.reading input.new) result (O.printing out.old) (O.printing out.new) }
    ensures quiet { result ≡ 0 → Keeps (E.contents err.old) (E.contents err.new) }
{
    let Folders {
        locks,
        disks,
        reasons,
    } = folders;
    // (the first submit reserves them: a look writes nothing)
    if let Err(unreserved) = locks.see_numbers(rt) {
        return end_by_requests(err, dir, &unreserved);
    }
    let post = match Post::new(rt.alloc(), nodes, manner.tick, manner.without) {
        Ok(post) => post,
        Err(refusal) => return end_by_refusal(err, &refusal),
    };
    let clients = match tellers(rt.alloc(), nodes, &post) {
        Ok(clients) => clients,
        Err(refusal) => return end_by_refusal(err, &refusal),
    };
    let console = console_at(rt, &reasons, locks, nodes, manner.client, &post);
    let (json, strict) = (manner.json, manner.strict);
    let talked = talk_beside(
        rt,
        nodes,
        manner.first,
        disks,
        clients,
        &post,
        json,
        strict,
        console,
        input,
        out,
    );
    let disputed = post.disputed(rt, nodes);
    let refusal = refusal_behind(post.into_refusal(rt, nodes), reasons.have_moved());
    let failure = failure_by(disputed, refusal);
    end_by_talk(
        rt,
        err,
        dir,
        nodes,
        manner.without,
        &reasons,
        talked,
        failure,
    )
}

/// Ends by a file of request numbers that none can be reserved in. A second line tells it.
pub(crate) fn end_by_requests<E: Write>(err: &mut E, dir: &str, unreserved: &Unreserved) -> u8
    ensures { result ≡ status_of unreserved.now.refusal }
{
    let ending = end_by_refusal(err, &unreserved.refusal);
    if let Some(closed) = &unreserved.why {
        let _ = print_closed(err, closed);
        return ending;
    }
    let _ = match &unreserved.refusal {
        Refusal::Malformed(_) => {
            writeln!(
                err,
                "{dir}/requests: expected the first number that is not reserved, and a line feed"
            )
        }
        Refusal::TooLarge => writeln!(err, "{dir}/requests: all request numbers are reserved"),
        Refusal::Device => writeln!(err, "{dir}/requests: it can't be read or written"),
        _ => Ok(()),
    };
    ending
}

// The client that a word names: client 0 where there is no word.
fn client_of(word: Option<&str>) -> Option<u32>
    ensures some { IfSome result (λ c. IsClientBy (option_map (λ s. s.now) word.entry) c) }
    ensures none { result ≡ None → (c : ℕ) → IsClientBy (option_map (λ s. s.now) word.entry) c → ⊥ }
{
    match word {
        Some(word) => {
            let client = number_in(word, 0, LAST_CLIENT)?;
            Some(client as u32)
        }
        None => Some(0),
    }
}

// Talks over the folders in the folder DIR. That a new registry begins there is told.
fn shell_over<
    F: Read + Write + Seek + FileExt + OpenFile + Drop + Send + Lockable,
    R: Files<File = F> + AllocGlobal + Threads + Wait + Clock + Sync + MarkWriter<Handle = F>,
    I: Prompting,
    O: Sink + Send,
    E: Write,
>(rt: &R, nodes: Nodes, dir: &str, manner: Manner, input: &mut I, out: &mut O, err: &mut E) -> u8
where
    R::Dir: Send,
    ensures ends { EndsOnShell manner.json manner.strict nodes manner.first (I.reading input.old) (I.reading input.new) result (O.printing out.old) (O.printing out.new) }
    ensures quiet { result ≡ 0 → TellsNew dir.now nodes manner.without (E.contents err.old) (E.contents err.new) }
{
    let survey = match survey_folders(rt, nodes, dir, manner.without) {
        Ok(survey) => survey,
        Err(closed) => return end_by_closed(rt, err, dir, nodes, &closed),
    };
    let begins = survey.begins();
    match enter(rt, nodes, dir, survey) {
        Ok(folders) => {
            tell_if_new(rt.alloc(), err, begins, dir, nodes);
            shell_in(rt, dir, nodes, manner, folders, input, out, err)
        }
        Err(closed) => end_by_closed(rt, err, dir, nodes, &closed),
    }
}

// The text of lines: each with a line feed behind it.
fn lines_text(alloc: Global, lines: &[&str]) -> Result<Vec<u8>, Refusal>
    ensures ok { IfOk result (λ v. v.items ≡ lines_text (map (λ s. s.now) lines.now)) }
    ensures err { IfErr result (λ e. e ≡ OutOfMemory) }
{
    let mut text = Vec::new(alloc);
    for line in lines {
        push_bytes(&mut text, line.as_bytes())?;
        push_byte(&mut text, b'\n')?;
    }
    Ok(text)
}

// Talks over the folders in the folder DIR, by these lines. The input is left alone.
fn shell_by_lines<
    F: Read + Write + Seek + FileExt + OpenFile + Drop + Send + Lockable,
    R: Files<File = F> + AllocGlobal + Threads + Wait + Clock + Sync + MarkWriter<Handle = F>,
    O: Sink + Send,
    E: Write,
>(rt: &R, nodes: Nodes, dir: &str, manner: Manner, lines: &[&str], out: &mut O, err: &mut E) -> u8
where
    R::Dir: Send,
    ensures ends { EndsOnLines manner.json manner.strict nodes manner.first (map (λ s. s.now) lines.now) result (O.printing out.old) (O.printing out.new) }
    ensures quiet { result ≡ 0 → TellsNew dir.now nodes manner.without (E.contents err.old) (E.contents err.new) }
{
    match lines_text(rt.alloc(), lines) {
        Ok(text) => {
            let mut spoken = Counted::new(text.as_slice());
            shell_over(rt, nodes, dir, manner, &mut spoken, out, err)
        }
        Err(refusal) => end_by_refusal(err, &refusal),
    }
}

/// Runs nodes over the folders in a folder, and answers lines, by these words. Without a number of nodes these are as many as
/// the folder has, or else three. Words that are no such numbers, which the command line doesn't let through, end with 2, as does one for nodes
/// that are left down that isn't a list of these.
pub(crate) fn shell_by_words<
    F: Read + Write + Seek + FileExt + OpenFile + Drop + Send + Lockable,
    R: Files<File = F> + AllocGlobal + Threads + Wait + Clock + Sync + MarkWriter<Handle = F>,
    I: Prompting,
    O: Sink + Send,
    E: Write,
>(rt: &R, words: &ShellWords<'_>, input: &mut I, out: &mut O, err: &mut E) -> u8
where
    R::Dir: Send,
    ensures ends { EndsOnShellWords (shell_words_in words.now) (I.reading input.old) (I.reading input.new) result (O.printing out.old) (O.printing out.new) }
    ensures quiet { result ≡ 0 → TellsNewBy (shell_words_in words.now) (E.contents err.old) (E.contents err.new) }
{
    let dir = folder_of(words.dir);
    let Some(nodes) = nodes_by(rt, words.nodes, dir, words.without) else {
        return end_without_numbers(err);
    };
    let Some(client) = client_of(words.client) else {
        return end_without_numbers(err);
    };
    let Some(without) = left_out_by(nodes, words.without) else {
        return end_without_list(err, "shell", nodes);
    };
    let manner = Manner {
        client,
        tick: tick_by(words.tick),
        json: words.json,
        strict: words.strict,
        without,
        first: first_left(nodes, without),
    };
    let lines = words.lines.as_slice();
    match lines {
        [] => {
            show_begin(rt.alloc(), nodes, dir, client, without, input);
            shell_over(rt, nodes, dir, manner, input, out, err)
        }
        [_, ..] => shell_by_lines(rt, nodes, dir, manner, lines, out, err),
    }
}

// Ends where words name no number of nodes or no client.
fn end_without_numbers<E: Write>(err: &mut E) -> u8
    ensures { result ≡ 2 }
{
    let _ = writeln!(
        err,
        "rr: shell: there is no such number of nodes or no such client"
    );
    2
}
