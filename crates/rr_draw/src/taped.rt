//! The picture of a tape.

ghost use Rattle.std.specs.Prelude.{◌≡◌, ◌++◌, [], ℕ, List, OnOk, IfOk, IfErr};
ghost use Rattle.rr_audit.specs.Audits.{sent_by};
ghost use Rattle.rr_draw.specs.Fates.{heard_at, Keeps};
ghost use Rattle.rr_draw.specs.Pictures.{AreDrawn, Adds};
ghost use Rattle.rr_draw.specs.TapePictures.{lines_on, seen_on, all_on, IsTapePicture};

use crate::cut::Cut;
use crate::drawing::Drawing;
use crate::fate::Heard;
use crate::picture::{Picture, draw_event, has_many, written};
use crate::scene::tape_scene;
use rr_audit::{Replay, as_reported, as_scheduled};
use rr_text::text_word::push_bytes;
use rr_text::{Recorded, ReportLine, Tape, TapeEvent};
use rr_types::{Body, Command, Estimate, Message, Op, Refusal, made_of};
use std::alloc::{AllocError, Global};

/// The lines of a report that an event of a tape is: one or none.
fn lines_on(alloc: Global, event: &TapeEvent) -> Result<Vec<ReportLine>, AllocError>
    ensures { IfOk result (λ lines. lines.items ≡ lines_on event.now) }
{
    let mut lines = Vec::new(alloc);
    if let Some(line) = as_reported(event) {
        lines.push(line)?;
    }
    Ok(lines)
}

/// A message that an event of a tape sends joins the wire.
fn push_sent(wire: &mut Vec<Message>, event: &TapeEvent) -> Result<(), AllocError>
    ensures { OnOk result (wire.new.items ≡ wire.old.items ++ sent_by event.now) }
{
    made_of!(Body, Command, Estimate, Message, Op);
    match &event.what {
        Recorded::Sent { message, .. } => Ok(wire.push(*message)?),
        _ => Ok(()),
    }
}

/// Draws the event of a line of a tape, where the cut shows it. The replay is behind it, and the wire has what was sent.
fn draw_tape_event(
    alloc: Global,
    cut: &Cut,
    line: u64,
    event: &TapeEvent,
    replay: &Replay,
    wire: &[Message],
    picture: &mut Picture,
    elements: &mut Vec<u8>,
) -> Result<(), Refusal>
    ensures ok { OnOk result ((before : List ℕ) → Keeps picture.old.heard before → Adds cut.now line before (seen_on wire.now event.now) elements.old.items elements.new.items) }
    ensures keeps { OnOk result ((before : List ℕ) → Keeps picture.old.heard before → Keeps picture.new.heard (before ++ heard_at (seen_on wire.now event.now))) }
    ensures err { IfErr result (λ e. e ≡ Refusal.OutOfMemory) }
{
    let lines = lines_on(alloc, event)?;
    let scene = tape_scene(replay, lines.as_slice(), wire, event.node);
    let scheduled = as_scheduled(event);
    draw_event(alloc, cut, line, &scheduled, &scene, picture, elements)?;
    Ok(())
}

/// Draws the events of a tape, which are replayed for what the nodes flush. The wire has then what was sent.
fn draw_tape_events(
    alloc: Global,
    tape: &Tape,
    cut: &Cut,
    picture: &mut Picture,
    wire: &mut Vec<Message>,
) -> Result<Vec<u8>, Refusal>
    requires unsent { wire.old.items ≡ [] }
    requires unheard { Keeps picture.old.heard [] }
    ensures ok { IfOk result (λ elements. AreDrawn cut.now 2 [] (all_on [] tape.now.events) elements.items) }
    ensures err { IfErr result (λ e. e ≡ Refusal.OutOfMemory) }
{
    let mut replay = Replay::new(alloc, tape.nodes())?;
    let mut elements = Vec::new(alloc);
    let mut line = 2u64;
    let events = tape.events();
    for event in events {
        let _given = replay.step(event)?;
        push_sent(wire, event)?;
        draw_tape_event(
            alloc,
            cut,
            line,
            event,
            &replay,
            wire.as_slice(),
            picture,
            &mut elements,
        )?;
        line += 1;
    }
    Ok(elements)
}

/// The picture of a tape, as far as a cut shows it. Each node is up from the beginning, and a flush goes from its take to its mark.
/// Whether nodes can do these events, an audit says.
///
/// # Errors
/// `OutOfMemory`.
pub fn tape_picture(alloc: Global, tape: &Tape, cut: &Cut) -> Result<Vec<u8>, Refusal>
    ensures ok { IfOk result (λ text. IsTapePicture cut.now tape.now text.items) }
    ensures err { IfErr result (λ e. e ≡ Refusal.OutOfMemory) }
{
    let lines = (tape.events().len() as u64).saturating_add(1);
    let drawing = written(Drawing::of_tape(alloc, tape.nodes(), cut, has_many(lines, cut)))?;
    let mut picture = Picture {
        drawing,
        heard: Heard::new(alloc),
    };
    let mut wire = Vec::new(alloc);
    let elements = draw_tape_events(alloc, tape, cut, &mut picture, &mut wire)?;
    let mut text = written(picture.drawing.front())?;
    push_bytes(&mut text, elements.as_slice())?;
    let back = picture.back(alloc, wire.as_slice())?;
    push_bytes(&mut text, back.as_slice())?;
    Ok(text)
}
