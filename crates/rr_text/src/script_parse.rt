//! Reading scripts.

ghost use Rattle.std.specs.Prelude.{◌≡◌, MatchResult, IfOk, IfErr};
ghost use Rattle.std.specs.List.{AllByRecursion};
ghost use Rattle.rr_text.specs.Scripted.{Scripted, IsScriptLine, IsScript};
ghost use Rattle.rr_text.specs.ScriptTexts.{script_text};
ghost use Rattle.rr_text.specs.Faults.{IsScriptFault};
ghost use Rattle.rr_text.specs.ScriptReading.{submit_at, look_at, script_line_at};

use crate::script::Script;
use crate::script_line::ScriptLine;
use crate::text_parse::first_node;
use crate::text_read::{cut, name, submitted};
use rr_types::{Command, Name, Nodes, Op, Refusal, RequestNo, made_of};
use std::alloc::Global;

fn submit(nodes: Nodes, text: &[u8]) -> Option<ScriptLine>
    ensures { result ≡ submit_at nodes text.now }
{
    let Some((node, rest)) = first_node(nodes, text) else {
        return None;
    };
    let Some(command) = submitted(rest) else {
        return None;
    };
    Some(ScriptLine::Submit { node, command })
}

fn look(nodes: Nodes, text: &[u8]) -> Option<ScriptLine>
    ensures { result ≡ look_at nodes text.now }
{
    let Some((node, rest)) = first_node(nodes, text) else {
        return None;
    };
    let Some(name) = name(rest) else {
        return None;
    };
    Some(ScriptLine::Look { node, name })
}

fn script_line(nodes: Nodes, text: &[u8]) -> Option<ScriptLine>
    ensures { result ≡ script_line_at nodes text.now }
{
    let (word, rest) = cut(text, b' ')?;
    if word == b"submit".as_slice() {
        submit(nodes, rest)
    } else if word == b"look".as_slice() {
        look(nodes, rest)
    } else {
        None
    }
}

fn script_lines(alloc: Global, nodes: Nodes, bytes: &[u8]) -> Result<Vec<ScriptLine>, Refusal>
    ensures ok { IfOk result (λ v. AllByRecursion (IsScriptLine nodes) v.items × (bytes.now ≡ script_text v.items)) }
    ensures err { IfErr result (λ e. IsScriptFault nodes bytes.now e) }
{
    made_of!(Command, Name, Op, RequestNo);
    let _count = nodes.count();
    let mut lines = Vec::new(alloc);
    let mut rest = bytes;
    while !rest.is_empty() {
        let number = lines.len() as u64 + 1;
        match cut(rest, b'\n') {
            None => return Err(Refusal::BadEvent(number)),
            Some((text, after)) => match script_line(nodes, text) {
                None => return Err(Refusal::BadEvent(number)),
                Some(line) => {
                    lines.push(line)?;
                    rest = after;
                }
            },
        }
    }
    Ok(lines)
}

fn script(alloc: Global, nodes: Nodes, bytes: &[u8]) -> Result<Script, Refusal>
    ensures found { IfOk result (λ s. (s.nodes ≡ nodes) × IsScript s × (bytes.now ≡ script_text s.lines)) }
    ensures fault { IfErr result (λ e. IsScriptFault nodes bytes.now e) }
{
    let _count = nodes.count();
    match script_lines(alloc, nodes, bytes) {
        Ok(lines) => Ok(Script::of_parts(nodes, lines)),
        Err(refusal) => Err(refusal),
    }
}

impl Script {
    /// The script for these nodes that the bytes are the text of. Bytes that are none are `BadEvent` of the first line
    /// that has no place, from 1.
    ///
    /// # Errors
    /// `OutOfMemory`, `BadEvent`.
    pub fn parse(alloc: Global, nodes: Nodes, bytes: &[u8]) -> Result<Script, Refusal>
        // What is read is printed so.
        ensures found { IfOk result (λ s. (s.nodes ≡ nodes) × IsScript s × (bytes.now ≡ script_text s.lines)) }
        // What is printed so is read, unless memory runs out.
        ensures only { (s : Scripted) → IsScript s → s.nodes ≡ nodes → bytes.now ≡ script_text s.lines → MatchResult result (λ t. t ≡ s) (λ e. e ≡ Refusal.OutOfMemory) }
        // Which line is at fault.
        ensures fault { IfErr result (λ e. IsScriptFault nodes bytes.now e) }
    {
        script(alloc, nodes, bytes)
    }
}
