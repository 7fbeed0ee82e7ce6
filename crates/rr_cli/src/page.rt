//! The page of a run or of a tape.

ghost use Rattle.std.specs.Prelude.{◌≡◌, IfOk, IfErr};
ghost use Rattle.rr_text.specs.Lines.{IsFault};
ghost use Rattle.rr_text.specs.Scheduled.{IsEvent};
ghost use Rattle.rr_text.specs.ScheduleTexts.{event_line};
ghost use Rattle.rr_cli.specs.Pages.{HasBoth, IsPageOf, IsTapePage};

use crate::page_script::PAGE_SCRIPT;
use crate::parts::{BACK, END, FRONT, MIDDLE};
use crate::run_script::RUN_SCRIPT;
use rr_account::{account_of_tape, account_on, page_data, tape_page_data};
use rr_draw::{Cut, picture_of, push_script_data, tape_picture};
use rr_stream::Sink;
use rr_text::Tape;
use rr_text::text_word::push_bytes;
use rr_types::Refusal;
use std::alloc::{AllocError, Global};

// The page behind its picture, the same in all.
fn back_of_all(alloc: Global) -> Result<Vec<u8>, AllocError> {
    let mut back = Vec::from_slice(alloc, BACK)?;
    back.extend_from_slice(RUN_SCRIPT)?;
    back.extend_from_slice(PAGE_SCRIPT)?;
    back.extend_from_slice(END)?;
    Ok(back)
}

// The page that has these data and this picture.
fn page_with(alloc: Global, objects: &[u8], picture: &[u8]) -> Result<Vec<u8>, Refusal>
    ensures ok { IfOk result (λ text. HasBoth objects.now picture.now text.items) }
    ensures err { IfErr result (λ e. e ≡ Refusal.OutOfMemory) }
{
    let back = back_of_all(alloc)?;
    let mut page = Vec::new(alloc);
    push_bytes(&mut page, FRONT)?;
    push_script_data(&mut page, objects)?;
    push_bytes(&mut page, MIDDLE)?;
    push_bytes(&mut page, picture)?;
    push_bytes(&mut page, back.as_slice())?;
    Ok(page)
}

/// The page of the run of the schedule whose text the bytes are, with its picture as far as a cut shows it. Its data are those of
/// the events on the cut's lines: how many nodes there are, what came of each event, and which instance it decides. Those who watch
/// `out` are told how far it is; `out` takes nothing.
///
/// # Errors
/// `BadNodes` and `BadEvent` for bytes that are no schedule, as from `Schedule::parse`; `OutOfMemory`.
pub fn page_of<O: Sink>(
    alloc: Global,
    bytes: &[u8],
    cut: &Cut,
    out: &mut O,
) -> Result<Vec<u8>, Refusal>
    ensures ok { IfOk result (λ text. IsPageOf cut.now bytes.now text.items) }
    ensures fault { IfErr result (λ e. IsFault IsEvent event_line bytes.now e) }
    ensures unprinted { O.printing out.new ≡ O.printing out.old }
{
    let account = account_on(alloc, bytes, out)?;
    let objects = page_data(alloc, &account, cut.from, cut.to)?;
    let picture = picture_of(alloc, bytes, cut, out)?;
    page_with(alloc, objects.as_slice(), picture.as_slice())
}

/// The page of a tape, with its picture as far as a cut shows it. Whether nodes can do its events, an audit says.
///
/// # Errors
/// `OutOfMemory`.
pub fn tape_page(alloc: Global, tape: &Tape, cut: &Cut) -> Result<Vec<u8>, Refusal>
    ensures ok { IfOk result (λ text. IsTapePage cut.now tape.now text.items) }
    ensures err { IfErr result (λ e. e ≡ Refusal.OutOfMemory) }
{
    let account = account_of_tape(alloc, tape)?;
    let objects = tape_page_data(alloc, &account, cut.from, cut.to)?;
    let picture = tape_picture(alloc, tape, cut)?;
    page_with(alloc, objects.as_slice(), picture.as_slice())
}
