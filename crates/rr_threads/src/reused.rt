//! Request numbers of a script that its nodes have decided as other commands.

ghost use Rattle.std.specs.Prelude.{◌≡◌, option_map};
ghost use Rattle.rr_threads.specs.Reusing.{is_reused_by, is_reused, follow, are_reused};

use rr_core::Core;
use rr_text::ScriptLine;
use rr_types::{Command, Name, NodeId, Op, RequestNo, Value, made_of};
use std::alloc::{AllocError, Global};
use std::collections::BTreeMap;

/// A submit of a script whose request number is decided as another command.
#[derive(Clone, Copy, Debug)]
pub struct Reused {
    /// The place of its line in the script.
    pub place: usize,
    /// The other command, which counts for the request number.
    pub command: Command,
}

// The request numbers of the submits at a node.
fn numbers_at(
    alloc: Global,
    node: NodeId,
    lines: &[ScriptLine],
) -> Result<BTreeMap<RequestNo, Option<Command>>, AllocError> {
    let mut firsts = BTreeMap::new(alloc);
    for line in lines {
        if let ScriptLine::Submit { node: own, command } = line {
            if own.index() == node.index() {
                firsts.insert(command.request, None)?;
            }
        }
    }
    Ok(firsts)
}

// Finds the first command under each of these numbers, in one pass over a node's list of decided commands.
fn find_firsts(core: &Core, firsts: &mut BTreeMap<RequestNo, Option<Command>>) {
    for place in 0..core.decided_count() {
        made_of!(Op);
        let Some(command) = core.decided_at(place) else {
            unreachable!()
        };
        if let Some(first) = firsts.get_mut(&command.request) {
            if first.is_none() {
                *first = Some(command);
            }
        }
    }
}

/// The submits of a script at a node, in its order, for whose request numbers the node's list of decided commands has other
/// commands.
pub(crate) fn reused_at(
    alloc: Global,
    core: &Core,
    node: NodeId,
    lines: &[ScriptLine],
) -> Result<Vec<Reused>, AllocError> {
    made_of!(Command, Op, Name, Value);
    let mut firsts = numbers_at(alloc, node, lines)?;
    let mut reused = Vec::new(alloc);
    if firsts.is_empty() {
        return Ok(reused);
    }
    find_firsts(core, &mut firsts);
    for place in 0..lines.len() {
        let ScriptLine::Submit { node: own, command } = &lines[place] else {
            continue;
        };
        if own.index() != node.index() {
            continue;
        }
        if let Some(Some(first)) = firsts.get(&command.request) {
            if !first.op.is_same(&command.op) {
                reused.push(Reused {
                    place,
                    command: *first,
                })?;
            }
        }
    }
    Ok(reused)
}

// Whether a line submits a command whose request number another command has.
fn is_reused_by(line: Option<&ScriptLine>, other: &Command) -> bool
    ensures { result ≡ is_reused_by (option_map (λ l. l.now) line.entry) other.now }
{
    match line {
        Some(ScriptLine::Submit { command, .. }) => {
            command.request.is_same(other.request) && !command.op.is_same(&other.op)
        }
        _ => false,
    }
}

// Whether the submit at its place in a script has the request number of its command, which is another.
fn is_reused(lines: &[ScriptLine], reused: &Reused) -> bool
    ensures { result ≡ is_reused lines.now reused.now }
{
    is_reused_by(lines.get(reused.place), &reused.command)
}

// Whether each is so, at places that ascend from behind this one on.
fn follow(lines: &[ScriptLine], first: &Reused, rest: &[Reused]) -> bool
    ensures { result ≡ follow lines.now first.now rest.now }
{
    let mut last = first;
    for reused in rest {
        if reused.place <= last.place || !is_reused(lines, reused) {
            return false;
        }
        last = reused;
    }
    true
}

/// Whether each of these stands at a submit of a script that has the request number of its command and is another, and their
/// places ascend.
pub(crate) fn are_reused(lines: &[ScriptLine], reused: &[Reused]) -> bool
    ensures { result ≡ are_reused lines.now reused.now }
{
    match reused {
        [] => true,
        [first, rest @ ..] => is_reused(lines, first) && follow(lines, first, rest),
    }
}
