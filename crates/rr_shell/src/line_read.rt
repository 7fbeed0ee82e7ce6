//! Reading a line of a shell.

ghost use Rattle.std.specs.Prelude.{◌≡◌, IfOk};
ghost use Rattle.rr_shell.specs.Lines.{tidied, parts_of, named_fault, shape_fault, command_at, prefix_line, prefix_at, node_line, node_line_at, alone, help_at, line_by, shell_line_at};

use crate::shell_line::{LineFault, ShellLine};
use rr_explain::ShellWord;
use rr_text::text_read::{cut, name, node, op};
use rr_types::{Name, NodeId, Nodes, Op, OpKind, Shape, Value, made_of};
use std::alloc::{AllocError, Global};

/// The words of a line, with one space between two of them.
pub(crate) fn tidied(alloc: Global, line: &[u8]) -> Result<Vec<u8>, AllocError>
    ensures { IfOk result (λ v. v.items ≡ tidied line.now) }
{
    let mut read = Vec::new(alloc);
    let mut seen = false;
    for byte in line {
        if *byte == b' ' || *byte == b'\t' {
            seen = true;
        } else {
            if seen && !read.is_empty() {
                read.push(b' ')?;
            }
            read.push(*byte)?;
            seen = false;
        }
    }
    Ok(read)
}

// The first word of a text, and what stands behind it. A word alone has nothing behind it.
fn parts(text: &[u8]) -> (&[u8], &[u8])
    ensures { parts_of text.now ≡ (result.0.now, result.1.now) }
{
    match cut(text, b' ') {
        Some((word, rest)) => (word, rest),
        None => (text, &[]),
    }
}

// What is wrong behind a word that wants a name there: the name, or else this.
fn named_fault(fault: LineFault, word: ShellWord, rest: &[u8]) -> LineFault
    ensures { result ≡ named_fault fault word rest.now }
{
    let (first, _) = parts(rest);
    if name(first).is_some() {
        fault
    } else {
        LineFault::BadName(word)
    }
}

// Why a line of an operation which has this beside its name, with this behind its word, is none.
fn shape_fault(shape: Shape, word: ShellWord, rest: &[u8]) -> LineFault
    ensures { result ≡ shape_fault shape word rest.now }
{
    match shape {
        Shape::Bare => named_fault(LineFault::Behind(word), word, rest),
        Shape::Valued => named_fault(LineFault::BadValue(word), word, rest),
        Shape::Owned => named_fault(LineFault::BadOwner(word), word, rest),
    }
}

fn command(text: &[u8], kind: OpKind, rest: &[u8]) -> Result<ShellLine, LineFault>
    ensures { result ≡ command_at text.now kind rest.now }
{
    match op(text) {
        Some(op) => Ok(ShellLine::Submit(op)),
        None => Err(shape_fault(kind.shape(), ShellWord::Op(kind), rest)),
    }
}

fn prefix_line(word: ShellWord, prefix: Option<Name>) -> ShellLine
    ensures { result ≡ prefix_line word prefix }
{
    match word {
        ShellWord::Watch => ShellLine::Watch(prefix),
        _ => ShellLine::Names(prefix),
    }
}

// What is done with the names that begin with a prefix, or with all.
fn prefixed(word: ShellWord, rest: &[u8]) -> Result<ShellLine, LineFault>
    ensures { result ≡ prefix_at word rest.now }
{
    match rest {
        [] => Ok(prefix_line(word, None)),
        [_, ..] => match name(rest) {
            Some(prefix) => Ok(prefix_line(word, Some(prefix))),
            None => Err(named_fault(LineFault::Behind(word), word, rest)),
        },
    }
}

fn node_line(word: ShellWord, node: NodeId) -> ShellLine
    ensures { result ≡ node_line word node }
{
    match word {
        ShellWord::Stop => ShellLine::Stop(node),
        ShellWord::Start => ShellLine::Start(node),
        ShellWord::Snapshot => ShellLine::Snapshot(node),
        _ => ShellLine::At(node),
    }
}

// What is done with a node.
fn of_node(nodes: Nodes, word: ShellWord, rest: &[u8]) -> Result<ShellLine, LineFault>
    ensures { result ≡ node_line_at nodes word rest.now }
{
    if let Some(node) = node(nodes, rest) {
        return Ok(node_line(word, node));
    }
    let (first, _) = parts(rest);
    if node(nodes, first).is_some() {
        Err(LineFault::Behind(word))
    } else {
        Err(LineFault::NoNode(word))
    }
}

// What a word alone asks for, with nothing behind it.
fn alone(word: ShellWord, line: ShellLine, rest: &[u8]) -> Result<ShellLine, LineFault>
    ensures { result ≡ alone word line rest.now }
{
    match rest {
        [] => Ok(line),
        [_, ..] => Err(LineFault::Behind(word)),
    }
}

fn help(rest: &[u8]) -> Result<ShellLine, LineFault>
    ensures { result ≡ help_at rest.now }
{
    match rest {
        [] => Ok(ShellLine::Help(None)),
        [_, ..] => match ShellWord::of_word(rest) {
            Some(word) => Ok(ShellLine::Help(Some(word))),
            None => Err(LineFault::NoCommand(ShellWord::nearest(rest))),
        },
    }
}

// What a line asks for that begins with this word, with this behind it.
#[tactic(auto, unfolding(crate::specs::Lines::line_by))]
fn line_by(nodes: Nodes, text: &[u8], rest: &[u8], word: ShellWord) -> Result<ShellLine, LineFault>
    ensures { result ≡ line_by nodes text.now rest.now word }
{
    match word {
        ShellWord::Op(kind) => command(text, kind, rest),
        ShellWord::Look => match name(rest) {
            Some(name) => Ok(ShellLine::Look(name)),
            None => Err(named_fault(LineFault::Behind(ShellWord::Look), ShellWord::Look, rest)),
        },
        ShellWord::List => prefixed(word, rest),
        ShellWord::Watch => prefixed(word, rest),
        ShellWord::Sync => alone(word, ShellLine::Sync, rest),
        ShellWord::At => of_node(nodes, word, rest),
        ShellWord::Stop => of_node(nodes, word, rest),
        ShellWord::Start => of_node(nodes, word, rest),
        ShellWord::Snapshot => of_node(nodes, word, rest),
        ShellWord::Status => alone(word, ShellLine::Status, rest),
        ShellWord::Again => alone(word, ShellLine::Again, rest),
        ShellWord::Help => help(rest),
        ShellWord::Quit => alone(word, ShellLine::Quit, rest),
        ShellWord::Exit => alone(word, ShellLine::Quit, rest),
    }
}

/// What a line asks for, where there are `nodes` nodes. `text` is the words of the line, with one space between two of them.
///
/// # Errors
/// Why it asks for nothing: any fault but `TooLong`.
pub fn read_shell_line(nodes: Nodes, text: &[u8]) -> Result<ShellLine, LineFault>
    ensures { result ≡ shell_line_at nodes text.now }
{
    made_of!(Name, NodeId, Op, Value);
    let (word, rest) = parts(text);
    match ShellWord::of_word(word) {
        Some(word) => line_by(nodes, text, rest, word),
        None => Err(LineFault::NoCommand(ShellWord::nearest(word))),
    }
}
