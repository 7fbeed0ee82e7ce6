//! The clients of the nodes, who tell a shell what it asks.

ghost use Rattle.std.specs.Prelude.{◌≡◌, Option, Some, is_some, IfOk, IfErr, IfSome, OnOk};
ghost use Rattle.rr_types.specs.Registry.{registry_of};
ghost use Rattle.rr_window.specs.Sights.{bindings_with};
ghost use Rattle.rr_types.specs.declared.summary.NodeSummary.{NodeSummary};
ghost use Rattle.rr_threads.specs.Asking.{IsAnswered};
ghost use Rattle.rr_threads.specs.Summaries.{IsSummary};
ghost use Rattle.rr_threads.specs.declared.desk.Written.{Written};
ghost use Rattle.rr_shell.specs.Watches.{bytes_of};
ghost use Rattle.rr_run.specs.Submits.{outcome_by, IsOutcome, IsSynced};
ghost use Rattle.rr_run.specs.Tellings.{IsGreatest, IsToldTo};

use crate::asking::{Question, Told, bytes_of};
use crate::news::NewEar;
use crate::post::Post;
use crate::used::{Greatest, greatest_by};
use crate::watcher::{Watcher, begin_watch};
use rr_shell::{Listing, Outcome};
use rr_text::{Answer, BoundNames};
use rr_threads::{Client, Fate, Handle};
use rr_turn::Turnstile;
use rr_types::{Command, Name, Nodes, Op, Refusal, Reply, RequestNo, Value, made_of};
use rr_window::WindowName;
use std::alloc::Global;
use std::sync::Wait;

/// How many times a node's client looks for the reply to a submit before it gives up: some five seconds.
const LOOKS: u32 = 120;

/// The name that a sync transfers from its client to its client. Any would do.
const SYNC: &[u8] = b"sync";

/// The client of a node that asks it what a shell asks.
#[derive(Drop)]
pub(crate) struct Teller<'x> {
    alloc: Global,
    post: &'x Post,
}

// The bound names of a node that begin so, or all. It is refused for lack of memory alone.
fn names_at<W: WindowName, T: Turnstile, R: Wait>(
    alloc: Global,
    handle: &mut Handle<'_, '_, W, T, R>,
    prefix: &Option<Name>,
) -> Result<Listing, Refusal>
    ensures node { IfOk result (λ l. l.node ≡ handle.old.node) }
    ensures names { IfOk result (λ l. IfSome l.names (λ names. names ≡ bindings_with (bytes_of prefix.now) (registry_of handle.new.known))) }
    ensures err { IfErr result (λ e. e ≡ Refusal.OutOfMemory) }
{
    let node = handle.node();
    match handle.list(alloc, bytes_of(prefix)) {
        Ok(bindings) => Ok(Listing {
            node,
            names: Some(BoundNames::new(bindings)),
        }),
        Err(Refusal::OutOfMemory) => Err(Refusal::OutOfMemory),
        Err(_) => Ok(Listing { node, names: None }),
    }
}

// What a submit has come to that isn't acknowledged, by what the node's list says of its command.
fn outcome_by(fate: &Fate, answer: Answer) -> Outcome
    ensures { result ≡ outcome_by fate.now answer }
{
    match fate {
        Fate::Never => Outcome::ListFull,
        Fate::Used(other) => Outcome::Used(*other),
        Fate::Open | Fate::Decided => Outcome::Answered(answer),
    }
}

// What a submit of a command has come to, by its answer. None: the node goes down, or the run has failed, and its refusal is the
// answer.
fn outcome_behind<W: WindowName, T: Turnstile, R: Wait>(
    handle: &Handle<'_, '_, W, T, R>,
    command: &Command,
    answer: Answer,
) -> Option<Outcome>
    ensures { IsAnswered command.now.request handle.now answer → IfSome result (IsOutcome command.now.request handle.now) }
{
    if !matches!(answer, Answer::Unacknowledged { .. }) {
        return Some(Outcome::Answered(answer));
    }
    if handle.is_over() {
        return None;
    }
    Some(outcome_by(&handle.fate(command), answer))
}

// What comes of a submit. None: as of `outcome_behind`.
fn outcome_of<W: WindowName, T: Turnstile, R: Wait>(
    handle: &mut Handle<'_, '_, W, T, R>,
    command: &Command,
) -> Option<Outcome>
    ensures { IfSome result (IsOutcome command.now.request handle.new) }
{
    if let Fate::Used(other) = handle.fate(command) {
        return Some(Outcome::Used(other));
    }
    let answer = handle.submit_within(LOOKS, command);
    outcome_behind(handle, command, answer)
}

// What comes of a sync where the list is full: the node is waited for until all of it is published. None: as of `outcome_behind`.
fn outcome_of_whole<W: WindowName, T: Turnstile, R: Wait>(
    handle: &mut Handle<'_, '_, W, T, R>,
    request: RequestNo,
) -> Option<Outcome>
    ensures { IfSome result (IsSynced request handle.new) }
{
    if handle.know_all(LOOKS) {
        return Some(Outcome::Whole);
    }
    if handle.is_over() {
        return None;
    }
    let node = handle.node();
    Some(Outcome::Answered(Answer::Unacknowledged { node, request }))
}

// What comes of a sync that is submitted: of a full list as of `outcome_of_whole`. None: as of `outcome_behind`.
fn outcome_of_open<W: WindowName, T: Turnstile, R: Wait>(
    handle: &mut Handle<'_, '_, W, T, R>,
    command: &Command,
    name: &Name,
) -> Option<Outcome>
    ensures { IfSome result (IsSynced command.now.request handle.new) }
{
    let request = command.request;
    let answer = handle.sync(LOOKS, request, name);
    match outcome_behind(handle, command, answer) {
        Some(Outcome::ListFull) => outcome_of_whole(handle, request),
        Some(Outcome::Answered(answer)) => Some(Outcome::Answered(answer)),
        Some(Outcome::Used(other)) => Some(Outcome::Used(other)),
        _ => None,
    }
}

// What comes of a sync under a request number that the node's list doesn't have yet. None: as of `outcome_behind`.
fn outcome_of_sync<W: WindowName, T: Turnstile, R: Wait>(
    handle: &mut Handle<'_, '_, W, T, R>,
    request: RequestNo,
) -> Result<Option<Outcome>, Refusal>
    ensures { IfOk result (λ outcome. IfSome outcome (IsSynced request handle.new)) }
{
    let name = Name::new(SYNC)?;
    let op = Op::Transfer(name, request.client);
    let command = Command { request, op };
    match handle.fate(&command) {
        Fate::Used(other) => Ok(Some(Outcome::Used(other))),
        Fate::Decided => Ok(Some(Outcome::Used(command))),
        Fate::Never => Ok(outcome_of_whole(handle, request)),
        Fate::Open => Ok(outcome_of_open(handle, &command, &name)),
    }
}

// What is told of what a submit has come to.
fn told_of<W: WindowName, T: Turnstile, R: Wait>(
    handle: &Handle<'_, '_, W, T, R>,
    outcome: Outcome,
) -> Told
    ensures { (s : NodeSummary) × IsSummary s × (result ≡ Told.Outcome outcome s) }
{
    Told::Outcome(outcome, handle.summary())
}

// Tells what has changed of what is watched, and whether none was missed.
fn tell_changes<W: WindowName, T: Turnstile, R: Wait>(
    alloc: Global,
    handle: &mut Handle<'_, '_, W, T, R>,
    watcher: &mut Option<Watcher<W>>,
) -> Result<bool, Refusal>
    ensures told { IfOk result (λ are_told. are_told ≡ is_some watcher.new) }
    ensures reached { OnOk result (IfSome watcher.new (λ w. w.reached ≡ handle.new.known)) }
{
    let Some(watching) = watcher.take() else {
        return Ok(false);
    };
    *watcher = watching.tell(alloc, handle)?;
    Ok(watcher.is_some())
}

// What is told of a snapshot. None: as of `outcome_behind`.
fn told_of_snapshot<W: WindowName, T: Turnstile, R: Wait>(
    handle: &Handle<'_, '_, W, T, R>,
) -> Option<Told>
    ensures { IfSome result (λ told. (written : Option Written) × (told ≡ Told.Written written)) }
{
    match handle.snapshot(LOOKS) {
        Some(written) => Some(Told::Written(Some(written))),
        None if handle.is_over() => None,
        None => Some(Told::Written(None)),
    }
}

// The greatest request number of a client that a node's facts name.
fn greatest_at<W: WindowName, T: Turnstile, R: Wait>(
    alloc: Global,
    handle: &Handle<'_, '_, W, T, R>,
    client: u32,
) -> Result<Greatest, Refusal>
    ensures { IfOk result (λ g. IsGreatest client g.number) }
{
    let promise = handle.promise(alloc)?;
    Ok(greatest_by(client, &promise))
}

// Begins to watch names for a shell, and gives where it hears the changes.
fn begin_to_tell<W: WindowName, T: Turnstile, R: Wait>(
    alloc: Global,
    handle: &mut Handle<'_, '_, W, T, R>,
    watcher: &mut Option<Watcher<W>>,
    prefix: &Option<Name>,
) -> Result<NewEar, Refusal>
    ensures node { IfOk result (λ new. new.ear.node ≡ handle.old.node) }
    ensures begun { OnOk result ((w : _) × (watcher.new ≡ Some w) × (w.prefix ≡ prefix.now) × (w.begun ≡ handle.new.known)) }
{
    let (begun, new) = begin_watch(alloc, handle, prefix)?;
    *watcher = Some(begun);
    Ok(new)
}

// What a node tells. None: the node goes down, or the run has failed, and its refusal is the answer.
fn answer_to<W: WindowName, T: Turnstile, R: Wait>(
    alloc: Global,
    handle: &mut Handle<'_, '_, W, T, R>,
    watcher: &mut Option<Watcher<W>>,
    question: &Question,
) -> Result<Option<Told>, Refusal>
    ensures { IfOk result (λ told. IfSome told (IsToldTo question.now handle.old handle.new)) }
{
    made_of!(Answer, Command, Op, Name, Reply, Value);
    match question {
        Question::Submit { node: _, command } => match outcome_of(handle, command) {
            Some(outcome) => Ok(Some(told_of(handle, outcome))),
            None => Ok(None),
        },
        Question::Sync { node: _, request } => match outcome_of_sync(handle, *request)? {
            Some(outcome) => Ok(Some(told_of(handle, outcome))),
            None => Ok(None),
        },
        Question::Look { node: _, name } => Ok(Some(Told::Sight(handle.look(name)))),
        Question::Names { node: _, prefix } => {
            Ok(Some(Told::Listing(names_at(alloc, handle, prefix)?)))
        }
        Question::Watch { node: _, prefix } => {
            let new = begin_to_tell(alloc, handle, watcher, prefix)?;
            Ok(Some(Told::Watching(new)))
        }
        Question::Changes { node: _ } => {
            Ok(Some(Told::Changed(tell_changes(alloc, handle, watcher)?)))
        }
        Question::Summary { node: _ } => Ok(Some(Told::Summary(handle.summary()))),
        Question::Snapshot { node: _ } => Ok(told_of_snapshot(handle)),
        Question::Greatest { node: _, client } => {
            Ok(Some(Told::Greatest(greatest_at(alloc, handle, *client)?)))
        }
    }
}

impl<'x> Client for Teller<'x> {
    fn run<W: WindowName, T: Turnstile, R: Wait>(
        &mut self,
        handle: &mut Handle<'_, '_, W, T, R>,
    ) -> Result<(), Refusal> {
        made_of!(Question, Command, Op, Name, Value);
        let node = handle.node();
        let mut watcher = None;
        for _ in 0..u64::MAX {
            if self.post.is_closed() {
                break;
            }
            if handle.is_over() {
                return Err(Refusal::Down);
            }
            let Some(question) = self.post.take_question(handle.rt(), node) else {
                self.post.wait_at(handle.rt(), node);
                continue;
            };
            match answer_to(self.alloc, handle, &mut watcher, &question)? {
                Some(told) => self.post.answer(handle.rt(), told),
                None => return Err(Refusal::Down),
            }
        }
        Ok(())
    }
}

/// A client for each node.
///
/// # Errors
/// `OutOfMemory`.
pub(crate) fn tellers<'x>(
    alloc: Global,
    nodes: Nodes,
    post: &'x Post,
) -> Result<Vec<Vec<Teller<'x>>>, Refusal> {
    let mut tellers = Vec::new(alloc);
    for _ in 0..nodes.count() {
        tellers.push(vec![in alloc; Teller { alloc, post }]?)?;
    }
    Ok(tellers)
}
