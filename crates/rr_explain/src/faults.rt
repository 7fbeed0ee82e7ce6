//! The fault of a schedule, a tape or a script.

ghost use Rattle.std.specs.Prelude.{◌≡◌, ◌⊎◌, ℕ, ◌+◌, ◌-◌, ◌≤◌, List, ◌∷◌, ◌++◌, length, IfSome, OnOk};
ghost use Rattle.std.specs.Io.KnownBytes.{Appends};
ghost use Rattle.rr_explain.specs.Faults.{ArePlain, line_at, first_word, AreSaid, IsTold, IsToldOfScript};
ghost use Rattle.rr_explain.specs.Found.{kind_words, IsFaultOf, IsFound, EndsWith};

use crate::awaited::Awaited;
use crate::fault::{Fault, Kind, print_found, said};
use crate::recorded::Recorded;
use rr_text::MAX_EVENTS;
use rr_text::text_parse::first_line;
use rr_text::text_read::{cut, is_number};
use rr_types::{Nodes, Refusal};
use std::io;
use std::io::Write;

/// Prints a line for people, behind the line of the refusal with which `Schedule::parse` answers these bytes: the name of
/// the text, the line and the byte of it where it is at fault, both from 1, what stands there, and what is expected. It
/// takes no memory. Nothing is printed where the refusal is no fault of a text.
///
/// # Errors
/// Those of the writer.
pub fn print_schedule_fault<W: Write>(
    err: &mut W,
    name: &str,
    bytes: &[u8],
    refusal: &Refusal,
) -> io::Result<()>
    ensures { OnOk result ((text : List ℕ) × IsTold name.now bytes.now refusal.now text × Appends (W.contents err.old) (W.contents err.new) text) }
{
    print_text_fault(err, name, Awaited::Event, bytes, refusal)
}

/// The same of a tape, and of the refusal with which `Tape::parse` answers.
///
/// # Errors
/// Those of the writer.
pub fn print_tape_fault<W: Write>(
    err: &mut W,
    name: &str,
    bytes: &[u8],
    refusal: &Refusal,
) -> io::Result<()>
    ensures { OnOk result ((text : List ℕ) × IsTold name.now bytes.now refusal.now text × Appends (W.contents err.old) (W.contents err.new) text) }
{
    print_text_fault(
        err,
        name,
        Awaited::Recorded(Recorded::Event),
        bytes,
        refusal,
    )
}

/// The same of a script for these nodes, and of the refusal with which `Script::parse` answers.
///
/// # Errors
/// Those of the writer.
pub fn print_script_fault<W: Write>(
    err: &mut W,
    name: &str,
    nodes: Nodes,
    bytes: &[u8],
    refusal: &Refusal,
) -> io::Result<()>
    ensures { OnOk result ((text : List ℕ) × IsToldOfScript name.now bytes.now refusal.now text × Appends (W.contents err.old) (W.contents err.new) text) }
{
    match refusal {
        Refusal::BadEvent(line) => print_script_line_fault(err, name, nodes, *line, bytes),
        _ => Ok(()),
    }
}

// Prints what is wrong where bytes are refused so, whose lines from the second on begin with what is awaited.
fn print_text_fault<W: Write>(
    err: &mut W,
    name: &str,
    begin: Awaited,
    bytes: &[u8],
    refusal: &Refusal,
) -> io::Result<()>
    ensures { OnOk result ((text : List ℕ) × IsTold name.now bytes.now refusal.now text × Appends (W.contents err.old) (W.contents err.new) text) }
{
    let found = fault_of(begin, bytes, refusal);
    print_found(err, name, found)
}

// Prints what is wrong in the line of this number of a script.
fn print_script_line_fault<W: Write>(
    err: &mut W,
    name: &str,
    nodes: Nodes,
    number: u64,
    bytes: &[u8],
) -> io::Result<()>
    ensures { OnOk result ((text : List ℕ) × IsToldOfScript name.now bytes.now (Refusal.BadEvent number) text × Appends (W.contents err.old) (W.contents err.new) text) }
{
    let fault = fault_at(Awaited::Asked, nodes, number, bytes);
    print_found(err, name, Some(fault))
}

// What is wrong where these bytes are refused so, whose lines from the second on begin with what is awaited.
fn fault_of<'a>(begin: Awaited, bytes: &'a [u8], refusal: &Refusal) -> Option<Fault<'a>>
    ensures { IsFound bytes.now refusal.now result }
{
    match refusal {
        Refusal::BadNodes => Some(fault_of_first(bytes)),
        Refusal::BadEvent(line) => Some(fault_of_event(begin, *line, bytes)),
        _ => None,
    }
}

// What is wrong where the line of this number has no place.
fn fault_of_event<'a>(begin: Awaited, number: u64, bytes: &'a [u8]) -> Fault<'a>
    ensures { IsFaultOf (line_at number bytes.now) number result }
{
    if number == 1 {
        return fault_of_first(bytes);
    }
    if number > MAX_EVENTS as u64 + 1 {
        return said(number, 1, "there are at most 1,000,000 events");
    }
    match first_line(bytes) {
        Ok((nodes, _)) => fault_at(begin, nodes, number, bytes),
        Err(_) => said(number, 1, "no line that can stand here"),
    }
}

// What is wrong in the line of this number, which is refused. Where none of its words is at fault, the line is.
fn fault_at<'a>(begin: Awaited, nodes: Nodes, number: u64, lines: &'a [u8]) -> Fault<'a>
    ensures { IsFaultOf (line_at number lines.now) number result }
{
    match fault_in_line(begin, nodes, number, lines) {
        Some(fault) => fault,
        None => said(number, 1, "no line that can stand here"),
    }
}

// What is wrong in the first line.
fn fault_of_first<'a>(bytes: &'a [u8]) -> Fault<'a>
    ensures { IsFaultOf (line_at 1 bytes.now) 1 result }
{
    if bytes.is_empty() {
        return said(
            1,
            1,
            "the text is empty; expected nodes N, with N from 1 to 7",
        );
    }
    match cut(bytes, b'\n') {
        Some((line, _)) => fault_of_first_line(line),
        None => said(1, 1, "the last line has no line feed"),
    }
}

// What is wrong in the first line, without its line feed.
fn fault_of_first_line<'a>(line: &'a [u8]) -> Fault<'a>
    ensures { IsFaultOf line.now 1 result }
{
    if let Some(fault) = fault_of_ending(1, line) {
        return fault;
    }
    let (word, behind) = next_word(line);
    if word != b"nodes".as_slice() {
        return said(1, 1, "the first line isn't nodes N, with N from 1 to 7");
    }
    match behind {
        Some(count) => fault_of_count(line, count),
        None => said(
            1,
            line.len() as u64 + 1,
            "the line ends without its number of nodes; expected 1 to 7",
        ),
    }
}

// What is wrong with the number of nodes, with which the first line ends.
fn fault_of_count<'a>(line: &[u8], count: &'a [u8]) -> Fault<'a>
    requires { EndsWith line.now count.now }
    ensures { IsFaultOf line.now 1 result }
{
    let column = column_of(line, count);
    if is_number(count) {
        Fault {
            line: 1,
            column,
            kind: Kind::Word(count, "number of nodes", "1 to 7"),
        }
    } else {
        said(
            1,
            column,
            "no number alone; expected a number of nodes from 1 to 7",
        )
    }
}

// At which byte of a line, from 1, the rest of it begins.
fn column_of(line: &[u8], rest: &[u8]) -> u64
    requires { EndsWith line.now rest.now }
    ensures { result ≡ length line.now - length rest.now + 1 }
{
    (line.len() - rest.len()) as u64 + 1
}

// What is wrong in the line of this number.
fn fault_in_line<'a>(
    begin: Awaited,
    nodes: Nodes,
    number: u64,
    lines: &'a [u8],
) -> Option<Fault<'a>>
    ensures { IfSome result (IsFaultOf (line_at number lines.now) number) }
{
    let mut rest = lines;
    for _line in 1..number {
        match cut(rest, b'\n') {
            Some((_, behind)) => rest = behind,
            None => return None,
        }
    }
    match cut(rest, b'\n') {
        Some((line, _)) => fault_of_line(begin, nodes, number, line),
        None => Some(said(number, 1, "the last line has no line feed")),
    }
}

// What is wrong in a line without its line feed.
fn fault_of_line<'a>(begin: Awaited, nodes: Nodes, number: u64, line: &'a [u8]) -> Option<Fault<'a>>
    ensures { IfSome result (IsFaultOf line.now number) }
{
    if line.is_empty() {
        return Some(said(number, 1, begin.empty()));
    }
    match fault_of_ending(number, line) {
        Some(fault) => Some(fault),
        None => fault_of_words(begin, nodes, number, line),
    }
}

// What is wrong at the end of a line without its line feed, whatever its words are.
fn fault_of_ending<'a>(number: u64, line: &[u8]) -> Option<Fault<'a>>
    ensures { IfSome result (IsFaultOf line.now number) }
{
    let [.., b'\r'] = line else {
        return None;
    };
    Some(said(
        number,
        line.len() as u64,
        "a carriage return stands before the line feed",
    ))
}

// What is wrong with the words of a line.
fn fault_of_words<'a>(
    begin: Awaited,
    nodes: Nodes,
    number: u64,
    line: &'a [u8],
) -> Option<Fault<'a>>
    ensures { IfSome result (IsFaultOf line.now number) }
{
    let mut awaited = begin;
    let mut rest = line;
    // No line has more than twelve words.
    for _ in 0..13 {
        let (word, behind) = next_word(rest);
        if let Some(kind) = fault_of_word(nodes, awaited, word) {
            return Some(Fault {
                line: number,
                column: column_of(line, rest),
                kind,
            });
        }
        awaited = awaited.behind(word);
        match behind {
            Some(behind) => rest = behind,
            None => return fault_at_the_end(nodes, awaited, number, line),
        }
    }
    None
}

// The first word of the rest of a line, and what stands behind the space behind it.
fn next_word(rest: &[u8]) -> (&[u8], Option<&[u8]>)
    ensures word { result.0.now ≡ first_word rest.now }
    ensures behind { IfSome result.1 (λ behind. rest.now ≡ result.0.now ++ 32 ∷ behind.now) }
{
    match cut(rest, b' ') {
        Some((word, behind)) => (word, Some(behind)),
        None => (rest, None),
    }
}

// What is wrong with a word and where it stands.
fn fault_of_word<'a>(nodes: Nodes, awaited: Awaited, word: &'a [u8]) -> Option<Kind<'a>>
    ensures { (left : List ℕ) → word.now ≡ first_word left → IfSome result (λ kind. AreSaid left (kind_words kind)) }
{
    if word.is_empty() {
        Some(Kind::Said("a space too many"))
    } else if awaited.fits(nodes, word) {
        None
    } else if let Awaited::End = awaited {
        Some(Kind::Said("more words than the line has"))
    } else {
        Some(Kind::Word(word, awaited.called(), awaited.expected(nodes)))
    }
}

// What is wrong where a line ends, and this is awaited.
fn fault_at_the_end<'a>(
    nodes: Nodes,
    awaited: Awaited,
    number: u64,
    line: &[u8],
) -> Option<Fault<'a>>
    ensures { IfSome result (IsFaultOf line.now number) }
{
    if awaited.may_end() {
        return None;
    }
    Some(Fault {
        line: number,
        column: line.len() as u64 + 1,
        kind: Kind::Missing(awaited.called(), awaited.expected(nodes)),
    })
}
