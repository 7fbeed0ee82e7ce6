//! The picture of a schedule's run or of a tape, of the cut that words write; or a page with it.

ghost use Rattle.std.specs.Prelude.{◌≡◌, ℕ, None, IfSome, IfOk, IfErr, Option, option_map, false};
ghost use Rattle.std.specs.Io.KnownBytes.{Keeps};
ghost use Rattle.rr_draw.specs.declared.cut.Cut.{Cut as SomeCut};
ghost use Rattle.rr_text.specs.Lines.{IsFault};
ghost use Rattle.rr_text.specs.Scheduled.{IsEvent};
ghost use Rattle.rr_text.specs.ScheduleTexts.{event_line};
ghost use Rattle.rr_cli.specs.Shown.{IsPictured};
ghost use Rattle.rr_cli.specs.Cuts.{IsNumberOr, IsNumberIfAny, IsCutBy};
ghost use Rattle.rr_stream.specs.Files.{file_at};
ghost use Rattle.rr_cli.specs.Ends.{EndsOnPicture, EndsOnDrawn, drawn_of_tape, EndsOnCut, EndsOnInput};
ghost use Rattle.rr_words.specs.Tasks.{cut_words_in};

use crate::bare::end_by_cut;
use crate::input::STANDARD_INPUT;
use crate::page::page_of;
use crate::random_schedule::number_in;
use crate::recognising::{Recognised, recognise};
use crate::refusals::{TextKind, end_by_fault, end_by_refusal};
use crate::streams::end_by_stream;
use crate::taped::{TapeView, show_tape, show_tape_bytes};
use rr_draw::{Cut, picture_of};
use rr_stream::{FileReader, Sink, Source, read_all};
use rr_types::{Instance, NodeId, Refusal};
use rr_words::{CutWords, LAST_LINE};
use std::alloc::Global;
use std::io::Write;

// Prints the picture of the schedule on standard input, of the cut that words write.
pub(crate) fn picture_input<I: Source, O: Sink, E: Write>(
    alloc: Global,
    words: &CutWords,
    input: &mut I,
    out: &mut O,
    err: &mut E,
) -> u8
    ensures ends { EndsOnCut (λ on. EndsOnInput on (I.reading input.old) (I.reading input.new)) (cut_words_in words.now) result (O.printing out.old) (O.printing out.new) }
    ensures quiet { result ≡ 0 → Keeps (E.contents err.old) (E.contents err.new) }
{
    match cut_of(words) {
        Some(cut) => print_input(alloc, &cut, words.tape, words.html, input, out, err),
        None => end_without_cut(err),
    }
}

// Prints the picture of the schedule in a file, of the cut that words write.
pub(crate) fn picture_file<F: FileReader, O: Sink, E: Write>(
    alloc: Global,
    files: &mut F,
    path: &str,
    words: &CutWords,
    out: &mut O,
    err: &mut E,
) -> u8
    ensures ends { EndsOnCut (λ on. EndsOnInput on (file_at (F.held files.old) path.now) (file_at (F.held files.new) path.now)) (cut_words_in words.now) result (O.printing out.old) (O.printing out.new) }
    ensures quiet { result ≡ 0 → Keeps (E.contents err.old) (E.contents err.new) }
{
    let Some(cut) = cut_of(words) else {
        return end_without_cut(err);
    };
    match files.read_file(alloc, path) {
        Ok(bytes) => {
            let html = words.html;
            print_drawn(
                alloc,
                path,
                bytes.as_slice(),
                &cut,
                words.tape,
                html,
                out,
                err,
            )
        }
        Err(failure) => end_by_stream(err, path, &failure),
    }
}

// The cut that words write.
#[tactic(auto, using(crate::proofs::CutLemmas::no_cut))]
fn cut_of(words: &CutWords) -> Option<Cut>
    ensures some { IfSome result (λ cut. IsCutBy (cut_words_in words.now) cut) }
    ensures none { result ≡ None → (cut : SomeCut) → IsCutBy (cut_words_in words.now) cut → ⊥ }
{
    let from = line_or(words.from, 1)?;
    let to = line_or(words.to, u64::MAX)?;
    let node = node_if_any(words.node)?;
    let instance = instance_if_any(words.instance)?;
    if to < from {
        return None;
    }
    Some(Cut {
        from,
        to,
        node,
        instance,
        requests: words.requests,
    })
}

// The line that a word names, or this one where there is no word.
fn line_or(word: Option<&str>, other: u64) -> Option<u64>
    ensures some { IfSome result (λ n. IsNumberOr other 1 4294967295 (option_map (λ s. s.now) word.entry) n) }
    ensures none { result ≡ None → (n : ℕ) → IsNumberOr other 1 4294967295 (option_map (λ s. s.now) word.entry) n → ⊥ }
{
    match word {
        Some(word) => number_in(word, 1, LAST_LINE),
        None => Some(other),
    }
}

// The node that a word names, where there is a word.
fn node_if_any(word: Option<&str>) -> Option<Option<NodeId>>
    ensures some { IfSome result (λ n. IsNumberIfAny 0 6 (option_map (λ s. s.now) word.entry) n) }
    ensures none { result ≡ None → (n : Option ℕ) → IsNumberIfAny 0 6 (option_map (λ s. s.now) word.entry) n → ⊥ }
{
    match word {
        Some(word) => match NodeId::at(number_in(word, 0, 6)? as u8) {
            Some(node) => Some(Some(node)),
            None => unreachable!(),
        },
        None => Some(None),
    }
}

// The instance that a word names, where there is a word.
fn instance_if_any(word: Option<&str>) -> Option<Option<Instance>>
    ensures some { IfSome result (λ n. IsNumberIfAny 0 1048575 (option_map (λ s. s.now) word.entry) n) }
    ensures none { result ≡ None → (n : Option ℕ) → IsNumberIfAny 0 1048575 (option_map (λ s. s.now) word.entry) n → ⊥ }
{
    match word {
        Some(word) => match Instance::new(number_in(word, 0, 1_048_575)? as u32) {
            Some(instance) => Some(Some(instance)),
            None => unreachable!(),
        },
        None => Some(None),
    }
}

// Prints the picture of what is on standard input, of a cut: of a tape, or of a schedule or else a tape.
fn print_input<I: Source, O: Sink, E: Write>(
    alloc: Global,
    cut: &Cut,
    is_tape: bool,
    html: bool,
    input: &mut I,
    out: &mut O,
    err: &mut E,
) -> u8
    ensures ends { EndsOnInput (EndsOnDrawn is_tape html cut.now) (I.reading input.old) (I.reading input.new) result (O.printing out.old) (O.printing out.new) }
    ensures quiet { result ≡ 0 → Keeps (E.contents err.old) (E.contents err.new) }
{
    match read_all(alloc, input) {
        Ok(bytes) => {
            let name = STANDARD_INPUT;
            print_drawn(alloc, name, bytes.as_slice(), cut, is_tape, html, out, err)
        }
        Err(failure) => end_by_stream(err, STANDARD_INPUT, &failure),
    }
}

// Prints the picture of what the bytes are, of a cut: of a tape, or of a schedule or else a tape.
fn print_drawn<O: Sink, E: Write>(
    alloc: Global,
    name: &str,
    bytes: &[u8],
    cut: &Cut,
    is_tape: bool,
    html: bool,
    out: &mut O,
    err: &mut E,
) -> u8
    ensures ends { EndsOnDrawn is_tape html cut.now bytes.now result (O.printing out.old) (O.printing out.new) }
    ensures quiet { result ≡ 0 → Keeps (E.contents err.old) (E.contents err.new) }
{
    if is_tape {
        show_tape_bytes(alloc, drawn_of_tape(html, cut), name, bytes, out, err)
    } else {
        print_either(alloc, name, bytes, cut, html, out, err)
    }
}

// What is drawn of a tape: its picture, or a page with it.
fn drawn_of_tape(html: bool, cut: &Cut) -> TapeView
    ensures { result ≡ drawn_of_tape html cut.now }
{
    if html {
        TapeView::Page(*cut)
    } else {
        TapeView::Picture(*cut)
    }
}

// Prints the picture of the schedule that the bytes are, or else of the tape that they are, of a cut.
fn print_either<O: Sink, E: Write>(
    alloc: Global,
    name: &str,
    bytes: &[u8],
    cut: &Cut,
    html: bool,
    out: &mut O,
    err: &mut E,
) -> u8
    ensures ends { EndsOnDrawn false html cut.now bytes.now result (O.printing out.old) (O.printing out.new) }
    ensures quiet { result ≡ 0 → Keeps (E.contents err.old) (E.contents err.new) }
{
    match recognise(alloc, bytes) {
        Ok(Recognised::Schedule) => print_picture(alloc, name, bytes, cut, html, out, err),
        Ok(Recognised::Tape(tape)) => {
            show_tape(alloc, drawn_of_tape(html, cut), bytes, &tape, out, err)
        }
        Ok(Recognised::Neither(kind, refusal)) => end_by_fault(
            alloc, err, kind, name, bytes, &refusal,
        ),
        Err(refusal) => end_by_refusal(err, &refusal),
    }
}

// The picture of the schedule that the bytes are, of a cut, or a page with it.
fn picture_in<O: Sink>(
    alloc: Global,
    bytes: &[u8],
    cut: &Cut,
    html: bool,
    out: &mut O,
) -> Result<Vec<u8>, Refusal>
    ensures ok { IfOk result (λ text. IsPictured html cut.now bytes.now text.items) }
    ensures fault { IfErr result (λ e. IsFault IsEvent event_line bytes.now e) }
    ensures unprinted { O.printing out.new ≡ O.printing out.old }
{
    if html {
        page_of(alloc, bytes, cut, out)
    } else {
        picture_of(alloc, bytes, cut, out)
    }
}

// Prints the picture of the schedule that the bytes are, of a cut, or a page with it.
fn print_picture<O: Sink, E: Write>(
    alloc: Global,
    name: &str,
    bytes: &[u8],
    cut: &Cut,
    html: bool,
    out: &mut O,
    err: &mut E,
) -> u8
    ensures ends { EndsOnPicture html cut.now bytes.now result (O.printing out.old) (O.printing out.new) }
    ensures quiet { result ≡ 0 → Keeps (E.contents err.old) (E.contents err.new) }
{
    match picture_in(alloc, bytes, cut, html, out) {
        Ok(text) => end_by_cut(cut, bytes, text.as_slice(), out, err),
        Err(refusal) => end_by_fault(alloc, err, TextKind::Schedule, name, bytes, &refusal),
    }
}

// Ends where words write no cut. The command line lets no number through that is out of its range, so the cut ends before it
// begins.
fn end_without_cut<E: Write>(err: &mut E) -> u8
    ensures { result ≡ 2 }
{
    let _ = writeln!(err, "rr: draw: the line of --from is behind that of --to");
    2
}
