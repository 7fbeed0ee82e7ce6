//! The talk of a shell: it hears a line, says what there is to say to it, and hears the next.

ghost use Rattle.std.specs.Prelude.{◌≡◌, ◌<◌, IfOk, OnOk, OnErr};
ghost use Rattle.std.specs.Io.BufRead.{strip_last};
ghost use Rattle.rr_shell.specs.Hearings.{Hears};
ghost use Rattle.rr_shell.specs.Watches.{IsShown, IsFrontSaid};
ghost use Rattle.rr_shell.specs.Talks.{IsSaidTo, IsTurn, ending_trouble, Talks};

use crate::answering::{Asked, Hint};
use crate::hearing::{Heard, hear};
use crate::line_read::{read_shell_line, tidied};
use crate::prompting::Prompting;
use crate::saying::{Said, faulted, said_to_request};
use crate::shell_line::{LineFault, ShellLine};
use crate::troubles::Trouble;
use crate::watching::{Watched, watch_and_hear};
use rr_stream::{Sink, print_all};
use rr_types::{NodeId, Nodes, Op, Refusal};
use std::alloc::Global;
use std::io;
use std::thread::Threads;

/// Why a talk is broken off.
#[derive(Debug)]
pub enum Stop {
    /// Memory ran out, or the nodes can't be asked any more.
    Refused(Refusal),
    /// The input failed.
    Unread(io::Error),
    /// The output failed.
    Unprinted(io::Error),
}

/// Which node is asked behind a turn, why its line wasn't answered as it asked, if it wasn't, and what is watched until the next.
#[derive(Clone, Copy, Debug)]
pub struct Turn {
    pub node: NodeId,
    pub trouble: Option<Trouble>,
    pub watched: Option<Watched>,
}

// A line without the carriage return that it ends with, if it does.
fn without_return(line: &[u8]) -> &[u8]
    ensures { result.now ≡ strip_last 13 line.now }
{
    let count = line.len();
    if 0 < count && line[count - 1] == b'\r' {
        &line[..count - 1]
    } else {
        line
    }
}

// What is said to what was heard, where this node is asked. None: the talk is over.
fn said_to<A: Asked>(
    alloc: Global,
    json: bool,
    nodes: Nodes,
    node: NodeId,
    asked: &mut A,
    heard: &Heard,
) -> Result<Option<Said>, Refusal>
    ensures { IfOk result (IsSaidTo A.did json nodes node heard.now) }
{
    let line = match heard {
        Heard::Line(line) => without_return(line.as_slice()),
        Heard::TooLong => return Ok(Some(faulted(alloc, json, nodes, node, LineFault::TooLong)?)),
        Heard::End => return Ok(None),
    };
    let words = tidied(alloc, line)?;
    let words = words.as_slice();
    if let [] = words {
        return Ok(Some(Said {
            node,
            text: Vec::new(alloc),
            trouble: None,
            watched: None,
        }));
    }
    match read_shell_line(nodes, words) {
        Ok(line) => said_to_request(alloc, json, nodes, node, asked, &line),
        Err(fault) => Ok(Some(faulted(alloc, json, nodes, node, fault)?)),
    }
}

// Whether a line sets the empty value.
fn sets_empty(line: &ShellLine) -> bool {
    match line {
        ShellLine::Submit(Op::Claim(_, value)) => value.as_bytes().is_empty(),
        ShellLine::Submit(Op::Update(_, value)) => value.as_bytes().is_empty(),
        _ => false,
    }
}

// Shows that a line has set the empty value, since it has none, where somebody types.
fn show_empty<I: Prompting>(
    alloc: Global,
    nodes: Nodes,
    trouble: Option<Trouble>,
    heard: &Heard,
    input: &mut I,
)
    ensures { I.reading input.new ≡ I.reading input.old }
{
    if trouble.is_some() {
        return;
    }
    let Heard::Line(line) = heard else {
        return;
    };
    let Ok(words) = tidied(alloc, without_return(line.as_slice())) else {
        return;
    };
    if let Ok(line) = read_shell_line(nodes, words.as_slice()) {
        if sets_empty(&line) {
            input.show(b"the value is empty, as none was given\n");
        }
    }
}

// Shows a hint, where somebody types.
fn show_hint<I: Prompting>(alloc: Global, input: &mut I, hint: Hint)
    ensures { I.reading input.new ≡ I.reading input.old }
{
    match hint {
        Hint::Again => input.show(
            b"it may count or not; \"again\" asks once more under its request number, so that it counts once\n",
        ),
        Hint::Left(left) => {
            if let Ok(text) = format!(in alloc;
                "the list is nearly full: {left} commands are left\n"
            ) {
                input.show(text.as_bytes());
            }
        }
        Hint::Failed(node) => {
            let node = node.index();
            if let Ok(text) = format!(in alloc;
                "node {node} has failed, and the others go on: status says why, and start {node} tries again\n"
            ) {
                input.show(text.as_bytes());
            }
        }
    }
}

// Hears the next line. Until then what is watched is shown.
fn hear_next<I: Prompting, O: Sink + Send, A: Asked + Send, R: Threads>(
    alloc: Global,
    json: bool,
    node: NodeId,
    watched: Option<Watched>,
    asked: &mut A,
    rt: &R,
    input: &mut I,
    out: &mut O,
) -> Result<Heard, Stop>
    ensures heard { IfOk result (Hears (I.reading input.old) (I.reading input.new)) }
    ensures shown { OnOk result (IsShown A.did json node watched (O.printing out.old) (O.printing out.new)) }
    ensures front { OnErr result (IsFrontSaid (O.printing out.old) (O.printing out.new)) }
{
    match &watched {
        Some(watched) => watch_and_hear(alloc, json, node, watched, asked, rt, input, out),
        None => {
            input.prompt();
            match hear(alloc, input) {
                Ok(heard) => Ok(heard),
                Err(error) => Err(Stop::Unread(error)),
            }
        }
    }
}

// Hears a line and says what there is to say to it, where this node is asked and this is watched until then. None: the talk is over.
fn take_turn<I: Prompting, O: Sink + Send, A: Asked + Send, R: Threads>(
    alloc: Global,
    json: bool,
    nodes: Nodes,
    node: NodeId,
    watched: Option<Watched>,
    asked: &mut A,
    rt: &R,
    input: &mut I,
    out: &mut O,
) -> Result<Option<Turn>, Stop>
    ensures turn { IfOk result (IsTurn A.did json nodes node watched (I.reading input.old) (I.reading input.new) (O.printing out.old) (O.printing out.new)) }
    ensures front { OnErr result (IsFrontSaid (O.printing out.old) (O.printing out.new)) }
{
    let heard = hear_next(alloc, json, node, watched, asked, rt, input, out)?;
    let said = match said_to(alloc, json, nodes, node, asked, &heard) {
        Ok(Some(said)) => said,
        Ok(None) => return Ok(None),
        Err(refusal) => return Err(Stop::Refused(refusal)),
    };
    let Said {
        node,
        text,
        trouble,
        watched,
    } = said;
    if let Err(error) = print_all(out, text.as_slice()) {
        return Err(Stop::Unprinted(error));
    }
    show_empty(alloc, nodes, trouble, &heard, input);
    if let Some(hint) = asked.hint() {
        show_hint(alloc, input, hint);
    }
    Ok(Some(Turn {
        node,
        trouble,
        watched,
    }))
}

// Why a talk ends behind a turn: strict, it ends where the line wasn't answered as it asked.
fn ending_trouble(strict: bool, trouble: Option<Trouble>) -> Option<Trouble>
    ensures { result ≡ ending_trouble strict trouble }
{
    if strict { trouble } else { None }
}

/// Waits until the nodes can be asked. Then it hears line after line, each behind a prompt where somebody types, and says to each
/// what there is to say, in words or with JSON, before it hears the next. Behind a line that asks for a watch it says what changes
/// while the next line is heard, in a thread of its own. It ends with a line that asks for that, or with the
/// input. Strict, it also ends behind the first line that isn't answered as it asked, and tells why. It asks `first` until a
/// line moves it.
///
/// # Errors
/// `Refused`: what `asked` refuses with, or `OutOfMemory`; `Unread` and `Unprinted`: those of the streams. By then a front of
/// one more line may have been said.
pub fn talk<I: Prompting, O: Sink + Send, A: Asked + Send, R: Threads>(
    alloc: Global,
    nodes: Nodes,
    first: NodeId,
    json: bool,
    strict: bool,
    asked: &mut A,
    rt: &R,
    input: &mut I,
    out: &mut O,
) -> Result<Option<Trouble>, Stop>
    ensures { Talks A.did json strict nodes first (I.reading input.old) (I.reading input.new) (O.printing out.old) (O.printing out.new) result }
{
    match asked.wait_until_ready() {
        Ok(()) => {}
        Err(refusal) => return Err(Stop::Refused(refusal)),
    }
    let mut node = first;
    let mut watched = None;
    'turns: for _ in 0..u64::MAX {
        match take_turn(alloc, json, nodes, node, watched, asked, rt, input, out)? {
            None => return Ok(None),
            Some(turn) => {
                let Turn {
                    node: next,
                    trouble,
                    watched: begun,
                } = turn;
                match ending_trouble(strict, trouble) {
                    Some(trouble) => return Ok(Some(trouble)),
                    None => {
                        node = next;
                        watched = begun;
                    }
                }
            }
        }
    }
    Err(Stop::Refused(Refusal::TooLarge))
}
