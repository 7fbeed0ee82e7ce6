//! Runs of a script: a client of each node asks what the lines ask of it.
//!
//! What the clients put under locks no contract knows. So that each line is asked once, and answered at its place, is read: `Reader::run`,
//! `in_order`.

ghost use Rattle.std.specs.Prelude.{◌≡◌, true, length, map, IfOk};
ghost use Rattle.rr_threads.specs.Reusing.{are_reused};
ghost use Rattle.rr_threads.specs.Unasked.{unasked, first_answer};

use crate::client::{Client, Handle};
use crate::recorder::Recorder;
use crate::reused::{Reused, are_reused};
use crate::run::{run_all, usual_tick};
use rr_disk::{Disk, Reopen};
use rr_text::{Answer, Answers, Script, ScriptLine};
use rr_turn::Turnstile;
use rr_types::{Command, Name, NodeSet, Nodes, Op, Refusal, Reply, Value, made_of};
use rr_window::WindowName;
use std::alloc::Global;
use std::sync::{Mutex, Wait};
use std::thread::Threads;
use std::time::{Clock, Duration};

/// An answer, and the place of its line in the script.
#[derive(Clone, Copy, Debug)]
struct Answered {
    place: usize,
    answer: Answer,
}

/// What a run of a script gives.
#[derive(Debug, Drop)]
pub struct Ran {
    /// The answers to its lines.
    pub answers: Answers,
    /// The submits whose request numbers are decided as other commands, in the order of the script.
    pub reused: Vec<Reused>,
}

/// The client that asks what the lines of a script ask of its node.
#[derive(Drop)]
struct Reader<'x> {
    alloc: Global,
    lines: &'x [ScriptLine],
    answers: &'x Mutex<Vec<Answered>>,
    reused: &'x Mutex<Vec<Reused>>,
}

impl<'x> Client for Reader<'x> {
    fn run<W: WindowName, T: Turnstile, R: Wait>(
        &mut self,
        handle: &mut Handle<'_, '_, W, T, R>,
    ) -> Result<(), Refusal> {
        made_of!(Answer, ScriptLine, Command, Op, Name, Reply, Value);
        for place in 0..self.lines.len() {
            let line = &self.lines[place];
            if line.node().index() == handle.node().index() {
                let answer = handle.ask(line);
                let pushed = self
                    .answers
                    .lock(handle.rt())
                    .push(Answered { place, answer });
                if pushed.is_err() {
                    return Err(Refusal::OutOfMemory);
                }
                if handle.is_over() {
                    break;
                }
            }
        }
        let mut found = handle.reused(self.alloc, self.lines)?;
        if self.reused.lock(handle.rt()).append(&mut found).is_err() {
            return Err(Refusal::OutOfMemory);
        }
        Ok(())
    }
}

/// What a line is answered that nobody asks, as its node is left out: the same as by a node that is down.
fn unasked(line: &ScriptLine) -> Answer
    ensures { result ≡ unasked line.now }
{
    made_of!(Command, Op, Name, Value);
    match line {
        ScriptLine::Submit { node, command } => Answer::Unacknowledged {
            node: *node,
            request: command.request,
        },
        ScriptLine::Look { node, name } => Answer::Unseen {
            node: *node,
            name: *name,
        },
    }
}

/// What a line is answered before any is asked, where these nodes are left out.
fn first_answer(without: NodeSet, line: &ScriptLine) -> Option<Answer>
    ensures { result ≡ first_answer without line.now }
{
    if without.contains(line.node()) {
        Some(unasked(line))
    } else {
        None
    }
}

/// Room for the answers to these lines. Those of nodes that are left out are answered.
fn slots(
    alloc: Global,
    without: NodeSet,
    lines: &[ScriptLine],
) -> Result<Vec<Option<Answer>>, Refusal>
    ensures { IfOk result (λ slots. slots.items ≡ map (first_answer without) lines.now) }
{
    let mut slots = Vec::new(alloc);
    for line in lines {
        slots.push(first_answer(without, line))?;
    }
    Ok(slots)
}

/// The answers in the order of their lines.
fn in_order(
    alloc: Global,
    without: NodeSet,
    lines: &[ScriptLine],
    answered: &[Answered],
) -> Result<Answers, Refusal> {
    made_of!(Answer, Name, Op, Reply, Value);
    let mut slots = slots(alloc, without, lines)?;
    for one in answered {
        if let Some(slot) = slots.get_mut(one.place) {
            *slot = Some(one.answer);
        }
    }
    let mut answers = Vec::new(alloc);
    for slot in &slots {
        if let Some(answer) = slot {
            answers.push(*answer)?;
        }
    }
    Ok(Answers::new(answers))
}

/// Those whose request numbers are decided as other commands, in the order of their lines.
fn reused_in_order(
    alloc: Global,
    lines: &[ScriptLine],
    found: &[Reused],
) -> Result<Vec<Reused>, Refusal>
    ensures { IfOk result (λ reused. are_reused lines.now reused.items ≡ true) }
{
    made_of!(Command, Op, Name, Value);
    let mut slots: Vec<Option<Reused>> = Vec::new(alloc);
    for _ in 0..lines.len() {
        slots.push(None)?;
    }
    for one in found {
        if let Some(slot) = slots.get_mut(one.place) {
            *slot = Some(*one);
        }
    }
    let mut reused = Vec::new(alloc);
    for slot in &slots {
        if let Some(one) = slot {
            reused.push(*one)?;
        }
    }
    if are_reused(lines, reused.as_slice()) {
        Ok(reused)
    } else {
        Ok(Vec::new(alloc))
    }
}

/// A client of each node, that asks what the lines ask of it.
fn readers<'x>(
    alloc: Global,
    nodes: Nodes,
    lines: &'x [ScriptLine],
    answers: &'x Mutex<Vec<Answered>>,
    reused: &'x Mutex<Vec<Reused>>,
) -> Result<Vec<Vec<Reader<'x>>>, Refusal>
    ensures { IfOk result (λ readers. length readers.items ≡ nodes) }
{
    let mut readers = Vec::new(alloc);
    for made in 0..nodes.count() {
        let reader = Reader {
            alloc,
            lines,
            answers,
            reused,
        };
        readers.push(vec![in alloc; reader]?)?;
    }
    Ok(readers)
}

/// Runs nodes in threads over these disks, the first of them node 0's, with a client of each that asks what the lines of
/// a script ask of its node, line by line; and answers the lines. A recorder makes a tape of the run, over fresh disks.
///
/// # Errors
/// As of `run_clients`, but `SeatsTaken`. It is `BadNodes` unless there is a disk for each node of the script.
pub fn run_script<
    D: Disk + Reopen + Drop + Send,
    T: Turnstile + Sync,
    R: Threads + Wait + Clock + Sync,
>(
    rt: &R,
    alloc: Global,
    disks: Vec<D>,
    script: &Script,
    turnstile: &T,
    recorder: Option<&Recorder>,
) -> Result<Answers, Refusal>
    requires alike { (one other : D) → D.tells one → D.tells other }
    ensures counts { IfOk result (λ _. length disks.items ≡ script.now.nodes) }
{
    let tick = usual_tick();
    run_script_ticking(rt, alloc, disks, script, turnstile, recorder, tick)
}

/// As `run_script`, but the next tick of a node is due so long after one.
///
/// # Errors
/// As of `run_script`.
pub fn run_script_ticking<
    D: Disk + Reopen + Drop + Send,
    T: Turnstile + Sync,
    R: Threads + Wait + Clock + Sync,
>(
    rt: &R,
    alloc: Global,
    disks: Vec<D>,
    script: &Script,
    turnstile: &T,
    recorder: Option<&Recorder>,
    tick: Duration,
) -> Result<Answers, Refusal>
    requires alike { (one other : D) → D.tells one → D.tells other }
    ensures counts { IfOk result (λ _. length disks.items ≡ script.now.nodes) }
{
    let without = NodeSet::empty();
    let ran = run_script_told(rt, alloc, without, disks, script, turnstile, recorder, tick)?;
    Ok(ran.answers)
}

/// As `run_script_ticking`, but it also tells which request numbers of the script are decided as other commands. Each node's client
/// looks for those of its lines once it has asked them all. The nodes of a set are left out: their disks aren't opened, and their lines
/// are answered as by a node that is down, at their places.
///
/// # Errors
/// As of `run_script`.
pub fn run_script_told<
    D: Disk + Reopen + Drop + Send,
    T: Turnstile + Sync,
    R: Threads + Wait + Clock + Sync,
>(
    rt: &R,
    alloc: Global,
    without: NodeSet,
    disks: Vec<D>,
    script: &Script,
    turnstile: &T,
    recorder: Option<&Recorder>,
    tick: Duration,
) -> Result<Ran, Refusal>
    requires alike { (one other : D) → D.tells one → D.tells other }
    ensures counts { IfOk result (λ _. length disks.items ≡ script.now.nodes) }
    ensures reused { IfOk result (λ ran. are_reused script.now.lines ran.reused.items ≡ true) }
{
    let nodes = script.nodes();
    let lines = script.lines();
    let answers: Mutex<Vec<Answered>> = Mutex::new(Vec::new(alloc));
    let found: Mutex<Vec<Reused>> = Mutex::new(Vec::new(alloc));
    let clients = readers(alloc, nodes, lines, &answers, &found)?;
    run_all(
        rt, alloc, nodes, without, disks, clients, turnstile, recorder, None, tick,
    )?;
    let answers = in_order(alloc, without, lines, answers.into_inner().as_slice())?;
    let reused = reused_in_order(alloc, lines, found.into_inner().as_slice())?;
    Ok(Ran { answers, reused })
}
