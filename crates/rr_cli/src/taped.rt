//! What is shown of a tape, and of bytes that are a schedule or a tape.

ghost use Rattle.std.specs.Prelude.{◌≡◌, IfOk, IfErr};
ghost use Rattle.std.specs.Io.KnownBytes.{Keeps};
ghost use Rattle.rr_audit.specs.Audits.{IsVerdict};
ghost use Rattle.rr_cli.specs.Ends.{EndsOnTaped, PrintsShown};
ghost use Rattle.rr_cli.specs.Recognised.{IsTextOf};
ghost use Rattle.rr_cli.specs.Shown.{Shows, ShowsTape};
ghost use Rattle.rr_cli.specs.Views.{EndsOnText};

use crate::audit::end_by_no;
use crate::bare::end_by_cut;
use crate::page::tape_page;
use crate::recognising::{Recognised, recognise};
use crate::refusals::{TextKind, end_by_fault, end_by_refusal};
use crate::streams::end_by_text;
use crate::views::{Shown, show_bytes, shown_text};
use rr_account::account_of_tape;
use rr_audit::{Verdict, watch_tape};
use rr_draw::{Cut, tape_picture};
use rr_stream::Sink;
use rr_text::Tape;
use rr_types::Refusal;
use std::alloc::Global;
use std::io::Write;

/// What a text shows of a tape.
#[derive(Clone, Copy)]
pub(crate) enum TapeView {
    /// Its account.
    Account(Shown),
    /// Its picture.
    Picture(Cut),
    /// A page with its picture.
    Page(Cut),
}

/// As what a text is read.
#[derive(Clone, Copy)]
pub(crate) enum TextAs {
    /// As a schedule.
    Schedule,
    /// As a tape.
    Tape,
    /// As a schedule, or else as a tape.
    Either,
}

// The text that shows the account of a tape.
fn account_text(alloc: Global, how: Shown, tape: &Tape) -> Result<Vec<u8>, Refusal>
    ensures ok { IfOk result (λ text. ShowsTape (TapeView.Account how) tape.now text.items) }
    ensures err { IfErr result (λ e. e ≡ Refusal.OutOfMemory) }
{
    let account = account_of_tape(alloc, tape)?;
    shown_text(alloc, how, &account)
}

// The text that shows a tape.
fn tape_text(alloc: Global, what: &TapeView, tape: &Tape) -> Result<Vec<u8>, Refusal>
    ensures ok { IfOk result (λ text. ShowsTape what.now tape.now text.items) }
    ensures err { IfErr result (λ e. e ≡ Refusal.OutOfMemory) }
{
    match what {
        TapeView::Account(how) => account_text(alloc, *how, tape),
        TapeView::Picture(cut) => tape_picture(alloc, tape, cut),
        TapeView::Page(cut) => tape_page(alloc, tape, cut),
    }
}

// Prints what is shown of a tape, unless that is a picture in which its cut has left no event.
fn end_by_shown<O: Sink, E: Write>(
    what: &TapeView,
    bytes: &[u8],
    text: &[u8],
    out: &mut O,
    err: &mut E,
) -> u8
    ensures ends { PrintsShown what.now text.now result (O.printing out.old) (O.printing out.new) }
    ensures quiet { result ≡ 0 → Keeps (E.contents err.old) (E.contents err.new) }
{
    match what {
        TapeView::Account(_) => end_by_text(out, err, text),
        TapeView::Picture(cut) => end_by_cut(cut, bytes, text, out, err),
        TapeView::Page(cut) => end_by_cut(cut, bytes, text, out, err),
    }
}

// Shows the tape that the bytes are, of which this is found: where its events are what nodes do. Else it tells the first that isn't.
fn show_found<O: Sink, E: Write>(
    alloc: Global,
    what: TapeView,
    bytes: &[u8],
    tape: &Tape,
    verdict: Verdict,
    out: &mut O,
    err: &mut E,
) -> u8
    requires text { IsTextOf tape.now bytes.now }
    requires found { IsVerdict tape.now.nodes tape.now.events verdict }
    ensures ends { EndsOnTaped what bytes.now result (O.printing out.old) (O.printing out.new) }
    ensures quiet { result ≡ 0 → Keeps (E.contents err.old) (E.contents err.new) }
{
    match verdict {
        Verdict::Yes(_) => match tape_text(alloc, &what, tape) {
            Ok(text) => end_by_shown(&what, bytes, text.as_slice(), out, err),
            Err(refusal) => end_by_refusal(err, &refusal),
        },
        Verdict::No(number, node, given) => end_by_no(alloc, bytes, number, node, &given, err),
    }
}

/// Shows the tape that the bytes are, where its events are what nodes do. Else it tells the first that isn't.
pub(crate) fn show_tape<O: Sink, E: Write>(
    alloc: Global,
    what: TapeView,
    bytes: &[u8],
    tape: &Tape,
    out: &mut O,
    err: &mut E,
) -> u8
    requires { IsTextOf tape.now bytes.now }
    ensures ends { EndsOnTaped what bytes.now result (O.printing out.old) (O.printing out.new) }
    ensures quiet { result ≡ 0 → Keeps (E.contents err.old) (E.contents err.new) }
{
    match watch_tape(alloc, tape, out) {
        Ok(verdict) => show_found(alloc, what, bytes, tape, verdict, out, err),
        Err(refusal) => end_by_refusal(err, &refusal),
    }
}

/// Shows the tape that the bytes of this name are.
pub(crate) fn show_tape_bytes<O: Sink, E: Write>(
    alloc: Global,
    what: TapeView,
    name: &str,
    bytes: &[u8],
    out: &mut O,
    err: &mut E,
) -> u8
    ensures ends { EndsOnTaped what bytes.now result (O.printing out.old) (O.printing out.new) }
    ensures quiet { result ≡ 0 → Keeps (E.contents err.old) (E.contents err.new) }
{
    match Tape::parse(alloc, bytes) {
        Ok(tape) => show_tape(alloc, what, bytes, &tape, out, err),
        Err(refusal) => end_by_fault(alloc, err, TextKind::Tape, name, bytes, &refusal),
    }
}

// Shows the run of the schedule that the bytes of this name are, or else the tape that they are.
fn show_either<O: Sink, E: Write>(
    alloc: Global,
    how: Shown,
    name: &str,
    bytes: &[u8],
    out: &mut O,
    err: &mut E,
) -> u8
    ensures ends { EndsOnText TextAs.Either how bytes.now result (O.printing out.old) (O.printing out.new) }
    ensures quiet { result ≡ 0 → Keeps (E.contents err.old) (E.contents err.new) }
{
    match recognise(alloc, bytes) {
        Ok(Recognised::Schedule) => show_bytes(alloc, how, name, bytes, out, err),
        Ok(Recognised::Tape(tape)) => {
            show_tape(alloc, TapeView::Account(how), bytes, &tape, out, err)
        }
        Ok(Recognised::Neither(kind, refusal)) => end_by_fault(
            alloc, err, kind, name, bytes, &refusal,
        ),
        Err(refusal) => end_by_refusal(err, &refusal),
    }
}

/// Shows what the bytes of this name are, read so.
pub(crate) fn show_text<O: Sink, E: Write>(
    alloc: Global,
    text_as: TextAs,
    how: Shown,
    name: &str,
    bytes: &[u8],
    out: &mut O,
    err: &mut E,
) -> u8
    ensures ends { EndsOnText text_as how bytes.now result (O.printing out.old) (O.printing out.new) }
    ensures quiet { result ≡ 0 → Keeps (E.contents err.old) (E.contents err.new) }
{
    match text_as {
        TextAs::Schedule => show_bytes(alloc, how, name, bytes, out, err),
        TextAs::Tape => show_tape_bytes(alloc, TapeView::Account(how), name, bytes, out, err),
        TextAs::Either => show_either(alloc, how, name, bytes, out, err),
    }
}
