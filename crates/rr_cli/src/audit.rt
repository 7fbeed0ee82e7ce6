//! The audit of a tape: what it prints, and a no in plain words.

ghost use Rattle.std.specs.Prelude.{◌≡◌, ◌≤◌, ◌⊎◌, IfOk, IfErr, string_bytes};
ghost use Rattle.std.specs.Io.KnownBytes.{Keeps};
ghost use Rattle.rr_text.specs.Lines.{IsFault};
ghost use Rattle.rr_text.specs.Taped.{IsTapeEvent};
ghost use Rattle.rr_text.specs.TapeTexts.{tape_line};
ghost use Rattle.rr_audit.specs.AuditTexts.{IsVerdictOn};
ghost use Rattle.rr_cli.specs.Tapes.{yes_text};
ghost use Rattle.rr_stream.specs.Files.{file_at};
ghost use Rattle.rr_cli.specs.AuditObjects.{no_status};
ghost use Rattle.rr_cli.specs.Ends.{EndsOnTape, EndsOnInput, TellsNo, yes_in};

use crate::audit_objects::{no_object, yes_object};
use crate::input::STANDARD_INPUT;
use crate::refusals::{TextKind, end_by_fault, end_by_refusal};
use crate::streams::{end_by_stream, end_by_text};
use rr_audit::{Given, Verdict, audit_on};
use rr_stream::{FileReader, Sink, Source, read_all};
use rr_text::ReportLine;
use rr_text::text_read::cut;
use rr_text::text_report::push_report_words;
use rr_types::{NodeId, Refusal};
use rr_words::Form;
use std::alloc::{AllocError, Global};
use std::io;
use std::io::{ErrorKind, Write};

// Audits the tape on standard input, and tells what is found.
pub(crate) fn audit_input<I: Source, O: Sink, E: Write>(
    alloc: Global,
    form: Form,
    input: &mut I,
    out: &mut O,
    err: &mut E,
) -> u8
    ensures ends { EndsOnInput (EndsOnTape form) (I.reading input.old) (I.reading input.new) result (O.printing out.old) (O.printing out.new) }
    ensures quiet { result ≡ 0 → Keeps (E.contents err.old) (E.contents err.new) }
{
    match read_all(alloc, input) {
        Ok(bytes) => audit_bytes(alloc, form, STANDARD_INPUT, bytes.as_slice(), out, err),
        Err(failure) => end_by_stream(err, STANDARD_INPUT, &failure),
    }
}

// Audits the tape in a file, and tells what is found.
pub(crate) fn audit_file<F: FileReader, O: Sink, E: Write>(
    alloc: Global,
    form: Form,
    files: &mut F,
    path: &str,
    out: &mut O,
    err: &mut E,
) -> u8
    ensures ends { EndsOnInput (EndsOnTape form) (file_at (F.held files.old) path.now) (file_at (F.held files.new) path.now) result (O.printing out.old) (O.printing out.new) }
    ensures quiet { result ≡ 0 → Keeps (E.contents err.old) (E.contents err.new) }
{
    match files.read_file(alloc, path) {
        Ok(bytes) => audit_bytes(alloc, form, path, bytes.as_slice(), out, err),
        Err(failure) => end_by_stream(err, path, &failure),
    }
}

// Audits the tape that the bytes are, and tells what is found.
fn audit_bytes<O: Sink, E: Write>(
    alloc: Global,
    form: Form,
    name: &str,
    bytes: &[u8],
    out: &mut O,
    err: &mut E,
) -> u8
    ensures ends { EndsOnTape form bytes.now result (O.printing out.old) (O.printing out.new) }
    ensures quiet { result ≡ 0 → Keeps (E.contents err.old) (E.contents err.new) }
{
    match audit_on(alloc, bytes, out) {
        Ok(verdict) => end_by_verdict(alloc, form, bytes, verdict, out, err),
        Err(refusal) => end_by_fault(alloc, err, TextKind::Tape, name, bytes, &refusal),
    }
}

// Tells what an audit has found of the tape that the bytes are.
fn end_by_verdict<O: Sink, E: Write>(
    alloc: Global,
    form: Form,
    bytes: &[u8],
    verdict: Verdict,
    out: &mut O,
    err: &mut E,
) -> u8
    requires { IsVerdictOn bytes.now verdict }
    ensures ends { EndsOnTape form bytes.now result (O.printing out.old) (O.printing out.new) }
    ensures quiet { result ≡ 0 → Keeps (E.contents err.old) (E.contents err.new) }
{
    match verdict {
        Verdict::Yes(count) => match yes_in(alloc, form, count) {
            Ok(text) => end_by_text(out, err, text.as_slice()),
            Err(_) => end_by_refusal(err, &Refusal::OutOfMemory),
        },
        Verdict::No(number, node, given) => match form {
            Form::Plain => end_by_no(alloc, bytes, number, node, &given, err),
            Form::Json => end_by_no_object(alloc, bytes, number, node, &given, out, err),
        },
    }
}

// A yes to a tape of `count` events, in a form.
fn yes_in(alloc: Global, form: Form, count: u64) -> Result<Vec<u8>, AllocError>
    ensures { IfOk result (λ text. text.items ≡ yes_in form count) }
{
    match form {
        Form::Plain => Ok(yes_text(alloc, count)?.into_bytes()),
        Form::Json => yes_object(alloc, count),
    }
}

// The line that says yes to a tape of `count` events.
fn yes_text(alloc: Global, count: u64) -> Result<String, AllocError>
    ensures { IfOk result (λ text. string_bytes text ≡ yes_text count) }
{
    format!(in alloc; "audit yes {count}\n")
}

// Ends by a no to the event of this number. A second line tells it in plain words, where memory suffices for it.
pub(crate) fn end_by_no<E: Write>(
    alloc: Global,
    bytes: &[u8],
    number: u64,
    node: NodeId,
    given: &Given,
    err: &mut E,
) -> u8
    ensures { result ≡ 7 }
{
    let ending = end_by_refusal(err, &Refusal::AuditNo(number));
    if let Ok(text) = no_text(alloc, bytes, number, node, given) {
        let _ = err.write_all(text.as_slice());
    }
    ending
}

// The status of a no that was to be printed, by that of the printing.
fn no_status(printing: u8) -> u8
    ensures { result ≡ no_status printing }
{
    if printing == 0 { 7 } else { printing }
}

// Ends by a no to the event of this number as `end_by_no` does, and prints its object before.
fn end_by_no_object<O: Sink, E: Write>(
    alloc: Global,
    bytes: &[u8],
    number: u64,
    node: NodeId,
    given: &Given,
    out: &mut O,
    err: &mut E,
) -> u8
    requires { number ≤ 1000000 }
    ensures ends { ((result ≡ 6) × (O.printing out.new ≡ O.printing out.old)) ⊎ TellsNo Form.Json number result (O.printing out.old) (O.printing out.new) }
{
    match no_object(alloc, number, node, given) {
        Ok(text) => {
            let printing = end_by_text(out, err, text.as_slice());
            let _ = end_by_no(alloc, bytes, number, node, given, err);
            no_status(printing)
        }
        Err(_) => end_by_refusal(err, &Refusal::OutOfMemory),
    }
}

// A no in plain words: what the tape has as its event of this number, and what the world gives there.
fn no_text(
    alloc: Global,
    bytes: &[u8],
    number: u64,
    node: NodeId,
    given: &Given,
) -> io::Result<Vec<u8>> {
    let mut text = Vec::new(alloc);
    let line = number.saturating_add(1);
    write!(text, "event {number} (line {line}): recorded \"")?;
    text.extend_from_slice(line_behind(bytes, number))?;
    write!(text, "\", but ")?;
    push_given(&mut text, node, given)?;
    text.push(b'\n')?;
    Ok(text)
}

// The line of a text that follows its first `count` lines.
fn line_behind(text: &[u8], count: u64) -> &[u8] {
    let mut rest = text;
    for _ in 0..count {
        match cut(rest, b'\n') {
            Some((_, behind)) => rest = behind,
            None => return b"",
        }
    }
    match cut(rest, b'\n') {
        Some((line, _)) => line,
        None => rest,
    }
}

// Appends in words what is given at a node instead of an event. A message or a reply is told as on a tape.
fn push_given(text: &mut Vec<u8>, node: NodeId, given: &Given) -> io::Result<()> {
    let at = node.index();
    match given {
        Given::NoNode => write!(text, "there is no node {at}"),
        Given::Refused(refusal) => write!(text, "node {at} refuses it: {refusal}"),
        Given::NoMessage => write!(text, "no message of this number is sent before it"),
        Given::OtherNode(to) => {
            let to = to.index();
            write!(text, "that message is for node {to}")
        }
        Given::NothingStaged => write!(text, "node {at} has nothing to flush"),
        Given::StillFlushing => write!(text, "node {at} hasn't marked its last group"),
        Given::NothingFlushed => write!(text, "node {at} has no group to mark"),
        Given::Number(next) => write!(text, "the next message has number {next}"),
        Given::NothingToSend => write!(text, "node {at} has nothing to send"),
        Given::Sends(number, message) => {
            let number = u64::from(*number);
            let message = **message;
            push_next(text, at, &ReportLine::Send { number, message })
        }
        Given::NothingToAcknowledge => write!(text, "node {at} has nothing to acknowledge"),
        Given::Acknowledges(request, reply) => {
            let request = *request;
            let reply = *reply;
            push_next(
                text,
                at,
                &ReportLine::Ack {
                    node,
                    request,
                    reply,
                },
            )
        }
    }
}

// Appends what a node gives next, spelled as the same line on a tape and in a report.
fn push_next(text: &mut Vec<u8>, at: u8, next: &ReportLine) -> io::Result<()> {
    write!(text, "node {at} gives \"")?;
    match push_report_words(text, next) {
        Ok(()) => write!(text, "\""),
        Err(_) => Err(io::Error::from(ErrorKind::OutOfMemory)),
    }
}
