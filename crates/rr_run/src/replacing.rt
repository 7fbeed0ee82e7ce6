//! `rr replace`: the others decide all in which a lost node can have had a say, and it gets a new folder with these decisions.

ghost use Rattle.std.specs.Prelude.{◌≡◌, ◌⊎◌, ◌++◌, ◌∷◌, true, false, Option, Some, Ok, IfOk, IfErr, IfSome, OnOk, option_map};
ghost use Rattle.std.specs.Io.KnownBytes.{Keeps};
ghost use Rattle.rr_words.specs.Tasks.{replace_words_in};
ghost use Rattle.rr_cli.specs.Randoms.{IsNumberOf};
ghost use Rattle.rr_run.specs.Replacings.{aside_text, replaced_text, planned_text, IsHalt, IsTold, EndsOnReplacing};

use crate::beside::decide_beside;
use crate::closed::end_by_closed;
use crate::deciding::Decided;
use crate::defaults::nodes_of_folders;
use crate::leaving_out::{end_without_list, left_out_by, left_out_of_any};
use crate::post::Post;
use crate::script_run::end_by_run_fault;
use crate::shell_run::{console_at, end_by_requests};
use crate::teller::tellers;
use crate::ticking::tick_by;
use rr_cli::{ReplaceWords, end_by_refusal, end_by_text, number_in};
use rr_disk::{Disk, Reopen};
use rr_folders::{
    Folders, Lockable, Locks, MarkWriter, Reasons, Replaced, Replacement, Survey, enter,
    plan_replacement, replace_folder, survey_folders,
};
use rr_stream::Sink;
use rr_text::text_word::{push_byte, push_bytes, push_number};
use rr_types::{INSTANCES, NodeId, NodeSet, Nodes, Refusal};
use std::alloc::{AllocError, Global};
use std::fs::OpenFile;
use std::io::{Read, Seek, Write};
use std::os::unix::fs::FileExt;
use std::rt::Files;
use std::sync::Wait;
use std::thread::Threads;
use std::time::{Clock, Duration};

/// Which node of how many is replaced, in which folder; the nodes that are left down, it among them; and how long after a tick of a node the
/// next is due.
#[derive(Clone, Copy, Debug)]
struct Scene<'a> {
    dir: &'a str,
    nodes: Nodes,
    node: NodeId,
    without: NodeSet,
    tick: Duration,
}

// Appends a line with the path at which a node's folder is put aside; nothing where none is.
fn push_aside(
    out: &mut Vec<u8>,
    words: &[u8],
    dir: &str,
    node: NodeId,
    aside: Option<u64>,
) -> Result<(), AllocError>
    ensures ok { OnOk result (out.new.items ≡ out.old.items ++ aside_text words.now dir.now node aside) }
{
    let Some(number) = aside else {
        return Ok(());
    };
    push_bytes(out, words)?;
    push_bytes(out, dir.as_bytes())?;
    push_byte(out, b'/')?;
    push_number(out, u64::from(node.index()))?;
    push_bytes(out, b".replaced-")?;
    push_number(out, number)?;
    push_byte(out, b'\n')
}

// What is told of a node that was replaced.
fn replaced_text(
    alloc: Global,
    dir: &str,
    node: NodeId,
    replaced: &Replaced,
) -> Result<Vec<u8>, AllocError>
    ensures { IfOk result (λ v. v.items ≡ replaced_text dir.now node replaced.now.count replaced.now.aside) }
{
    let mut text = Vec::new(alloc);
    push_bytes(&mut text, b"node ")?;
    push_number(&mut text, u64::from(node.index()))?;
    push_bytes(&mut text, b" replaced: ")?;
    push_number(&mut text, replaced.count())?;
    push_bytes(&mut text, b" decided commands\n")?;
    push_aside(&mut text, b"moved aside: ", dir, node, replaced.aside())?;
    Ok(text)
}

// What is told of a node that would be replaced.
fn planned_text(
    alloc: Global,
    dir: &str,
    node: NodeId,
    plan: &Replacement,
) -> Result<Vec<u8>, AllocError>
    ensures { IfOk result (λ v. v.items ≡ planned_text dir.now node plan.now.decided plan.now.bound.least plan.now.aside) }
{
    let more = plan.least().saturating_sub(plan.decided());
    let mut text = Vec::new(alloc);
    push_bytes(&mut text, b"node ")?;
    push_number(&mut text, u64::from(node.index()))?;
    push_bytes(&mut text, b" would be replaced: ")?;
    push_number(&mut text, plan.decided())?;
    push_bytes(&mut text, b" decided commands, ")?;
    push_number(&mut text, more)?;
    push_bytes(&mut text, b" more to decide\n")?;
    push_aside(&mut text, b"would move aside: ", dir, node, plan.aside())?;
    Ok(text)
}

// Ends where the others have decided too little.
fn end_by_decided<E: Write>(err: &mut E, decided: u64, least: u64) -> u8
    ensures { result ≡ 8 }
{
    let _ = writeln!(
        err,
        "rr: replace: {decided} of {least} instances are decided, and no more for a minute; when more than half of the nodes answer one another, give it again"
    );
    8
}

// Ends where the list has no room for what has to be decided.
fn end_by_room<E: Write>(err: &mut E, least: u64) -> u8
    ensures { result ≡ 8 }
{
    let _ = writeln!(
        err,
        "rr: replace: {least} instances would have to be decided, and a list has room for {INSTANCES}; go on from the others by rr export"
    );
    8
}

// Has the nodes decide over these disks until enough is decided, and hands back the lock on the cluster's folder.
fn decide_at<
    'y,
    D: Disk + Reopen + Drop + Send,
    F: Read + Write + Seek + FileExt + OpenFile + Drop + Send,
    R: Files<File = F> + AllocGlobal + Threads + Wait + Clock + Sync + MarkWriter<Handle = F>,
>(
    rt: &R,
    reasons: &'y Reasons,
    post: &'y Post,
    nodes: Nodes,
    disks: Vec<D>,
    locks: Locks<F>,
    least: u64,
) -> Result<(Result<Decided, Refusal>, Locks<F>), Refusal>
where
    R::Dir: Send,
    requires alike { (one other : D) → D.tells one → D.tells other }
{
    let clients = tellers(rt.alloc(), nodes, post)?;
    let console = console_at(rt, reasons, locks, nodes, 0, post);
    let (decided, console) = decide_beside(rt, nodes, disks, clients, post, console, least);
    Ok((decided, console.into_locks()))
}

// Runs the others until enough is decided, and hands back the lock on the cluster's folder.
fn decide_others<
    F: Read + Write + Seek + FileExt + OpenFile + Drop + Send + Lockable,
    R: Files<File = F> + AllocGlobal + Threads + Wait + Clock + Sync + MarkWriter<Handle = F>,
    E: Write,
>(
    rt: &R,
    err: &mut E,
    scene: &Scene<'_>,
    least: u64,
    folders: Folders<'_, F, R>,
) -> Result<Locks<F>, u8>
where
    R::Dir: Send,
    ensures halt { IfErr result IsHalt }
    ensures quiet { OnOk result (Keeps (E.contents err.old) (E.contents err.new)) }
{
    let (dir, nodes, without, tick) = (scene.dir, scene.nodes, scene.without, scene.tick);
    let Folders {
        locks,
        disks,
        reasons,
    } = folders;
    if let Err(unreserved) = locks.see_numbers(rt) {
        return Err(end_by_requests(err, dir, &unreserved));
    }
    let post = match Post::new(rt.alloc(), nodes, tick, without) {
        Ok(post) => post,
        Err(refusal) => return Err(end_by_refusal(err, &refusal)),
    };
    let (decided, locks) = match decide_at(rt, &reasons, &post, nodes, disks, locks, least) {
        Ok(decided) => decided,
        Err(refusal) => return Err(end_by_refusal(err, &refusal)),
    };
    let failed = post.into_refusal(rt, nodes);
    match end_of_run(rt, err, scene, least, &reasons, decided, failed) {
        Some(status) => Err(status),
        None => Ok(locks),
    }
}

// How it ends behind a run of the others, if it does.
fn end_of_run<R: Files + AllocGlobal, E: Write>(
    rt: &R,
    err: &mut E,
    scene: &Scene<'_>,
    least: u64,
    reasons: &Reasons,
    decided: Result<Decided, Refusal>,
    failed: Option<Refusal>,
) -> Option<u8>
where
    R::File: FileExt,
    ensures halt { IfSome result IsHalt }
    ensures quiet { result ≡ None → Keeps (E.contents err.old) (E.contents err.new) }
{
    let (dir, nodes, without) = (scene.dir, scene.nodes, scene.without);
    let refusal = match decided {
        Err(refusal) => Some(refusal),
        Ok(_) => failed,
    };
    if let Some(refusal) = refusal {
        return Some(end_by_run_fault(rt, err, dir, nodes, without, reasons, &refusal));
    }
    match decided {
        Ok(Decided::Stuck(count)) => Some(end_by_decided(err, count, least)),
        Ok(Decided::Full(_)) => Some(end_by_room(err, least)),
        Ok(Decided::Enough(_)) | Err(_) => None,
    }
}

// Gives the node its new folder, by what the others have decided by now.
fn renew<
    F: Read + Write + Seek + FileExt + OpenFile + Drop + Lockable,
    R: Files<File = F> + AllocGlobal + MarkWriter<Handle = F>,
    E: Write,
>(
    rt: &R,
    err: &mut E,
    scene: &Scene<'_>,
    plan: &Replacement,
    locks: &Locks<F>,
) -> Result<Replaced, u8>
    ensures halt { IfErr result IsHalt }
    ensures quiet { OnOk result (Keeps (E.contents err.old) (E.contents err.new)) }
{
    let (dir, nodes) = (scene.dir, scene.nodes);
    let renewal = match plan.renewal(rt, locks) {
        Ok(Some(renewal)) => renewal,
        Ok(None) => return Err(end_by_decided(err, plan.decided(), plan.least())),
        Err(closed) => return Err(end_by_closed(rt, err, dir, nodes, &closed)),
    };
    match replace_folder(rt, locks, plan, &renewal) {
        Ok(replaced) => Ok(replaced),
        Err(closed) => Err(end_by_closed(rt, err, dir, nodes, &closed)),
    }
}

// A text, or how the program ends without memory for it.
fn text_or_end<E: Write>(err: &mut E, text: Result<Vec<u8>, AllocError>) -> Result<Vec<u8>, u8>
    ensures ok { IfOk result (λ v. text ≡ Ok v) }
    ensures halt { IfErr result IsHalt }
    ensures quiet { OnOk result (Keeps (E.contents err.old) (E.contents err.new)) }
{
    match text {
        Ok(text) => Ok(text),
        Err(_) => Err(end_by_refusal(err, &Refusal::OutOfMemory)),
    }
}

// What was found of the folders, and what is to be done.
fn plan_by<
    F: Read + Write + Seek + FileExt + OpenFile + Drop + Lockable,
    R: Files<File = F> + AllocGlobal,
    E: Write,
>(rt: &R, err: &mut E, scene: &Scene<'_>) -> Result<(Survey<F>, Replacement), u8>
    ensures halt { IfErr result IsHalt }
    ensures quiet { OnOk result (Keeps (E.contents err.old) (E.contents err.new)) }
{
    let (dir, nodes, node, without) = (scene.dir, scene.nodes, scene.node, scene.without);
    let survey = match survey_folders(rt, nodes, dir, without) {
        Ok(survey) => survey,
        Err(closed) => return Err(end_by_closed(rt, err, dir, nodes, &closed)),
    };
    let plan = match plan_replacement(rt, nodes, dir, node, &survey) {
        Ok(plan) => plan,
        Err(closed) => return Err(end_by_closed(rt, err, dir, nodes, &closed)),
    };
    if plan.least() > u64::from(INSTANCES) {
        return Err(end_by_room(err, plan.least()));
    }
    Ok((survey, plan))
}

// The others' folders, opened.
fn enter_by<
    'x,
    F: Read + Write + Seek + FileExt + OpenFile + Drop + Lockable,
    R: Files<File = F> + AllocGlobal + MarkWriter<Handle = F>,
    E: Write,
>(rt: &'x R, err: &mut E, scene: &Scene<'_>, survey: Survey<F>) -> Result<Folders<'x, F, R>, u8>
    ensures halt { IfErr result IsHalt }
    ensures quiet { OnOk result (Keeps (E.contents err.old) (E.contents err.new)) }
{
    let (dir, nodes) = (scene.dir, scene.nodes);
    match enter(rt, nodes, dir, survey) {
        Ok(folders) => Ok(folders),
        Err(closed) => Err(end_by_closed(rt, err, dir, nodes, &closed)),
    }
}

// What is told of what would be done.
fn tell_plan<E: Write>(
    alloc: Global,
    err: &mut E,
    scene: &Scene<'_>,
    plan: &Replacement,
) -> Result<Vec<u8>, u8>
    ensures told { IfOk result (λ v. IsTold scene.now.dir.now scene.now.node true v.items) }
    ensures halt { IfErr result IsHalt }
    ensures quiet { OnOk result (Keeps (E.contents err.old) (E.contents err.new)) }
{
    let (dir, node) = (scene.dir, scene.node);
    text_or_end(err, planned_text(alloc, dir, node, plan))
}

// What is told of what was done.
fn tell_replaced<E: Write>(
    alloc: Global,
    err: &mut E,
    scene: &Scene<'_>,
    replaced: &Replaced,
) -> Result<Vec<u8>, u8>
    ensures told { IfOk result (λ v. IsTold scene.now.dir.now scene.now.node false v.items) }
    ensures halt { IfErr result IsHalt }
    ensures quiet { OnOk result (Keeps (E.contents err.old) (E.contents err.new)) }
{
    let (dir, node) = (scene.dir, scene.node);
    text_or_end(err, replaced_text(alloc, dir, node, replaced))
}

// Replaces the node, or only tells what would be done; and what is told.
fn replacement<
    F: Read + Write + Seek + FileExt + OpenFile + Drop + Send + Lockable,
    R: Files<File = F> + AllocGlobal + Threads + Wait + Clock + Sync + MarkWriter<Handle = F>,
    E: Write,
>(rt: &R, err: &mut E, scene: &Scene<'_>, dry: bool) -> Result<Vec<u8>, u8>
where
    R::Dir: Send,
    ensures told { IfOk result (λ v. IsTold scene.now.dir.now scene.now.node dry v.items) }
    ensures halt { IfErr result IsHalt }
    ensures quiet { OnOk result (Keeps (E.contents err.old) (E.contents err.new)) }
{
    let (survey, plan) = plan_by(rt, err, scene)?;
    if dry {
        return tell_plan(rt.alloc(), err, scene, &plan);
    }
    let folders = enter_by(rt, err, scene, survey)?;
    let locks = decide_others(rt, err, scene, plan.least(), folders)?;
    let replaced = renew(rt, err, scene, &plan, &locks)?;
    tell_replaced(rt.alloc(), err, scene, &replaced)
}

// The node of so many that a word names.
fn node_of(word: Option<&str>, nodes: Nodes) -> Option<NodeId>
    ensures { IfSome result (λ p. IsNumberOf 0 6 (option_map (λ s. s.now) word.entry) p) }
{
    let index = number_in(word?, 0, 6)?;
    NodeId::new(nodes, index as u8)
}

// The node that a word names, however many there are, with those that another word names.
fn away(node: Option<&str>, without: Option<&str>) -> NodeSet {
    let left_out = left_out_of_any(without);
    let Some(word) = node else {
        return left_out;
    };
    match number_in(word, 0, 6) {
        Some(index) => match NodeId::at(index as u8) {
            Some(node) => left_out.with(node),
            None => left_out,
        },
        None => left_out,
    }
}

/// Replaces a node of the cluster in a folder by these words, and prints what was done, or what would be. Words that name no folder, or no
/// node of it, which the command line doesn't let through, end with 2, as does one for nodes that are left down that isn't a list of these.
pub(crate) fn replace_by_words<
    F: Read + Write + Seek + FileExt + OpenFile + Drop + Send + Lockable,
    R: Files<File = F> + AllocGlobal + Threads + Wait + Clock + Sync + MarkWriter<Handle = F>,
    O: Sink,
    E: Write,
>(rt: &R, words: &ReplaceWords<'_>, out: &mut O, err: &mut E) -> u8
where
    R::Dir: Send,
    ensures ends { EndsOnReplacing (replace_words_in words.now) result (O.printing out.old) (O.printing out.new) }
    ensures quiet { result ≡ 0 → Keeps (E.contents err.old) (E.contents err.new) }
{
    let Some(dir) = words.dir else {
        return end_without_node(err);
    };
    let nodes = nodes_of_folders(rt, dir, away(words.node, words.without));
    let Some(node) = node_of(words.node, nodes) else {
        return end_without_node(err);
    };
    let Some(without) = left_out_by(nodes, words.without) else {
        return end_without_list(err, "replace", nodes);
    };
    let scene = Scene {
        dir,
        nodes,
        node,
        without: without.with(node),
        tick: tick_by(words.tick),
    };
    match replacement(rt, err, &scene, words.dry) {
        Ok(text) => end_by_text(out, err, text.as_slice()),
        Err(status) => status,
    }
}

// Ends where words name no folder or no node of it.
fn end_without_node<E: Write>(err: &mut E) -> u8
    ensures { result ≡ 2 }
{
    let _ = writeln!(err, "rr: replace: there is no such node");
    2
}
