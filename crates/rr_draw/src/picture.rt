//! The picture of a run, from the text of its schedule.

ghost use Rattle.std.specs.Prelude.{◌≡◌, ◌≤◌, ◌++◌, ◌∷◌, ◌||◌, [], true, false, ℕ, List, None, Some, option_map, OnOk, IfOk, IfErr};
ghost use Rattle.rr_text.specs.Lines.{nodes_line, IsStop, IsFault};
ghost use Rattle.rr_text.specs.Scheduled.{IsEvent};
ghost use Rattle.rr_text.specs.ScheduleTexts.{event_line};
ghost use Rattle.rr_draw.specs.Fates.{message_of, heard_by, may_tell_facts, number_of, heard_at, Keeps, IsHearing};
ghost use Rattle.rr_draw.specs.Labels.{heard_words};
ghost use Rattle.rr_draw.specs.Pictures.{element, title_of, Adds, ShowsOne, ShowsAll, IsPictureOf};

use crate::arrow::arrow_between;
use crate::cut::Cut;
use crate::drawing::{Art, Drawing, Shown};
use crate::escape::push_escaped;
use crate::fate::{Heard, heard_by, message_at};
use crate::scene::{Scene, scene_of};
use crate::words::{heard_words, message_in};
use rr_sim::{Cluster, decided_list, tell_read};
use rr_stream::Sink;
use rr_text::text_parse::{first_line, next_event};
use rr_text::text_report::{push_decided_list, push_report_lines};
use rr_text::text_schedule::push_event_line;
use rr_text::text_word::{push_bytes, push_number};
use rr_text::{Event, Happening, ReportLine};
use rr_types::{Input, Message, NodeEvent, Nodes, Refusal};
use std::alloc::{AllocError, Global};
use std::io;

/// Writing a text fails only where memory runs out.
pub(crate) fn written<T: Drop>(text: io::Result<T>) -> Result<T, Refusal>
    ensures err { IfErr result (λ e. e ≡ Refusal.OutOfMemory) }
{
    match text {
        Ok(text) => Ok(text),
        Err(_) => Err(Refusal::OutOfMemory),
    }
}

/// A picture as it grows: what is drawn, and which messages were heard.
#[derive(Drop)]
pub(crate) struct Picture {
    pub(crate) drawing: Drawing,
    pub(crate) heard: Heard,
}

impl Picture {
    /// What stands behind the events, where these messages were sent.
    pub(crate) fn back(&self, alloc: Global, wire: &[Message]) -> Result<Vec<u8>, Refusal>
        ensures { IfErr result (λ e. e ≡ Refusal.OutOfMemory) }
    {
        let lost = self.heard.never_heard(alloc, wire.len())?;
        written(self.drawing.back(wire, lost.as_slice()))
    }
}

/// The message that an event has sent, or that it names as one to hear.
fn message_of<'a>(
    event: &Event,
    lines: &'a [ReportLine],
    wire: &'a [Message],
) -> Option<&'a Message>
    ensures { option_map (λ m. m.now) result ≡ message_of event.now lines.entry.now wire.entry.now }
{
    match &event.what {
        Happening::At(NodeEvent::Send) => message_in(lines),
        Happening::At(NodeEvent::Told(Input::Hear(message))) => message_at(wire, *message),
        _ => None,
    }
}

/// Whether facts may be synced or marked at an event.
fn may_tell_facts(event: &Event) -> bool
    ensures { result ≡ may_tell_facts event.now }
{
    match &event.what {
        Happening::At(NodeEvent::Device | NodeEvent::Take | NodeEvent::Mark) => true,
        _ => false,
    }
}

/// Whether an event within the lines and the node of a cut is shown, by whether its message speaks of the instance, and
/// whether facts of that are synced or marked at it.
fn is_about(event: &Event, speaks: bool, has_facts: bool) -> bool
    ensures shown { result ≡ true → (speaks || may_tell_facts event.now) ≡ true }
    ensures left_out { result ≡ false → speaks ≡ false }
{
    speaks || (has_facts && may_tell_facts(event))
}

/// The arrow of a message that is heard, or none where it is folded. It was heard then.
fn draw_heard(
    alloc: Global,
    cut: &Cut,
    number: u32,
    message: &Message,
    picture: &mut Picture,
) -> Result<Vec<u8>, AllocError>
    ensures ok { IfOk result (λ text. (before : List ℕ) → Keeps picture.old.heard before → IsHearing cut.now before (Some (number, message.now)) text.items) }
    ensures keeps { OnOk result ((before : List ℕ) → Keeps picture.old.heard before → Keeps picture.new.heard (before ++ number ∷ [])) }
{
    let fate = picture.heard.hear(number as u64)?;
    let kind = message.body.kind();
    if picture.drawing.is_long() && cut.folds(kind) {
        return Ok(Vec::new(alloc));
    }
    let ends = picture.drawing.ends(number, message);
    let text = arrow_between(alloc, kind, fate, &ends)?;
    Ok(text)
}

/// The arrow of a message that is heard, if one is. It was heard then.
fn draw_hearing(
    alloc: Global,
    cut: &Cut,
    message: Option<(u32, &Message)>,
    picture: &mut Picture,
) -> Result<Vec<u8>, AllocError>
    ensures ok { IfOk result (λ text. (before : List ℕ) → Keeps picture.old.heard before → IsHearing cut.now before (option_map (λ it. (it.0, it.1.now)) message.entry) text.items) }
    ensures keeps { OnOk result ((before : List ℕ) → Keeps picture.old.heard before → Keeps picture.new.heard (before ++ number_of (option_map (λ it. (it.0, it.1.now)) message.entry))) }
{
    let Some(heard) = message else {
        return Ok(Vec::new(alloc));
    };
    let text = draw_heard(alloc, cut, heard.0, heard.1, picture)?;
    Ok(text)
}

/// What the title of the event of a line begins with.
fn title_of(
    alloc: Global,
    line: u64,
    event: &Event,
    lines: &[ReportLine],
) -> Result<Vec<u8>, AllocError>
    ensures { IfOk result (λ title. title.items ≡ title_of line event.now lines.now) }
{
    let mut title = Vec::new(alloc);
    push_bytes(&mut title, b"line ")?;
    push_number(&mut title, line)?;
    push_bytes(&mut title, b": ")?;
    push_event_line(&mut title, event)?;
    push_report_lines(&mut title, lines)?;
    Ok(title)
}

/// Appends an element with a title and more behind it. Its shapes begin with an arrow, if there is one.
fn push_element(
    out: &mut Vec<u8>,
    title: &[u8],
    more: &[u8],
    arrow: &[u8],
    shapes: &[u8],
) -> Result<(), Refusal>
    ensures ok { OnOk result (out.new.items ≡ out.old.items ++ element title.now more.now (arrow.now ++ shapes.now)) }
    ensures err { IfErr result (λ e. e ≡ Refusal.OutOfMemory) }
{
    push_bytes(out, b"<g><title>")?;
    push_escaped(out, title)?;
    push_bytes(out, more)?;
    push_bytes(out, b"</title>")?;
    push_bytes(out, arrow)?;
    push_bytes(out, shapes)?;
    Ok(push_bytes(out, b"</g>\n")?)
}

/// Appends the element of the event of a line, of which the scene is behind it. Its shapes begin with this arrow.
fn push_event_element(
    alloc: Global,
    line: u64,
    event: &Event,
    scene: &Scene<'_>,
    arrow: &[u8],
    shapes: &[u8],
    elements: &mut Vec<u8>,
) -> Result<(), Refusal>
    ensures ok { OnOk result (elements.new.items ≡ elements.old.items ++ element (title_of line event.now scene.now.lines.now)
        (heard_words (heard_by event.now scene.now.lines.now scene.now.wire.now)) (arrow.now ++ shapes.now)) }
    ensures err { IfErr result (λ e. e ≡ Refusal.OutOfMemory) }
{
    let title = title_of(alloc, line, event, scene.lines)?;
    let more = heard_words(alloc, heard_by(event, scene.lines, scene.wire))?;
    push_element(elements, title.as_slice(), more.as_slice(), arrow, shapes)
}

/// Appends the element of the event of a line where the cut shows it. Its shapes begin with this arrow.
fn push_shown(
    alloc: Global,
    cut: &Cut,
    line: u64,
    event: &Event,
    scene: &Scene<'_>,
    arrow: &[u8],
    art: &Art,
    elements: &mut Vec<u8>,
) -> Result<(), Refusal>
    ensures ok { OnOk result ((before : List ℕ) → IsHearing cut.now before (heard_by event.now scene.now.lines.now scene.now.wire.now) arrow.now
        → Adds cut.now line before (record { event = event.now; lines = scene.now.lines.now; wire = scene.now.wire.now }) elements.old.items elements.new.items) }
    ensures err { IfErr result (λ e. e ≡ Refusal.OutOfMemory) }
{
    let is_within = cut.shows(line, event);
    if !is_within {
        return Ok(());
    }
    let message = message_of(event, scene.lines, scene.wire);
    let speaks = cut.speaks(message);
    if !is_about(event, speaks, art.is_about) {
        return Ok(());
    }
    let shapes = art.shapes.as_slice();
    push_event_element(alloc, line, event, scene, arrow, shapes, elements)?;
    Ok(())
}

/// Draws the event of a line, where the cut shows it. The scene is behind it.
pub(crate) fn draw_event(
    alloc: Global,
    cut: &Cut,
    line: u64,
    event: &Event,
    scene: &Scene<'_>,
    picture: &mut Picture,
    elements: &mut Vec<u8>,
) -> Result<(), Refusal>
    ensures ok { OnOk result ((before : List ℕ) → Keeps picture.old.heard before
        → Adds cut.now line before (record { event = event.now; lines = scene.now.lines.now; wire = scene.now.wire.now }) elements.old.items elements.new.items) }
    ensures keeps { OnOk result ((before : List ℕ) → Keeps picture.old.heard before
        → Keeps picture.new.heard (before ++ heard_at (record { event = event.now; lines = scene.now.lines.now; wire = scene.now.wire.now }))) }
    ensures err { IfErr result (λ e. e ≡ Refusal.OutOfMemory) }
{
    let heard = heard_by(event, scene.lines, scene.wire);
    let arrow = draw_hearing(alloc, cut, heard, picture)?;
    let message = message_of(event, scene.lines, scene.wire);
    let shown = Shown {
        is_within: cut.shows(line, event),
        speaks: cut.speaks(message),
    };
    let art = written(picture.drawing.draw(line, event, scene, message, shown))?;
    let arrow = arrow.as_slice();
    push_shown(alloc, cut, line, event, scene, arrow, &art, elements)?;
    Ok(())
}

/// Makes the event of a line, appends what the report has of it, and draws it.
fn draw_line(
    alloc: Global,
    cut: &Cut,
    line: u64,
    event: &Event,
    cluster: &mut Cluster,
    picture: &mut Picture,
    report: &mut Vec<u8>,
    elements: &mut Vec<u8>,
) -> Result<(), Refusal>
    ensures ok { OnOk result (ShowsOne cut.now line event.now cluster.old cluster.new report.old.items report.new.items elements.old.items elements.new.items picture.old.heard picture.new.heard) }
    ensures err { IfErr result (λ e. e ≡ Refusal.OutOfMemory) }
{
    cluster.step(alloc, line, event)?;
    push_report_lines(report, cluster.lines())?;
    let scene = scene_of(cluster, event.node);
    draw_event(alloc, cut, line, event, &scene, picture, elements)?;
    cluster.forget_lines();
    Ok(())
}

/// Makes the events of the lines, appends what the report has of them, draws them, and tells the sink how far it is.
fn draw_events<O: Sink>(
    alloc: Global,
    nodes: Nodes,
    bytes: &[u8],
    cut: &Cut,
    cluster: &mut Cluster,
    picture: &mut Picture,
    report: &mut Vec<u8>,
    out: &mut O,
) -> Result<Vec<u8>, Refusal>
    requires untold { cluster.old.lines ≡ [] }
    requires unheard { Keeps picture.old.heard [] }
    ensures ok { IfOk result (λ elements. ShowsAll nodes bytes.now cut.now cluster.old cluster.new report.old.items report.new.items elements.items) }
    ensures err { IfErr result (λ e. IsStop (IsEvent nodes) event_line bytes.now e) }
    ensures unprinted { O.printing out.new ≡ O.printing out.old }
{
    let mut elements = Vec::new(alloc);
    let mut line = 2u64;
    let mut rest = bytes;
    while let Some((event, behind)) = next_event(alloc, nodes, rest, line)? {
        tell_read(line, rest, bytes, out);
        draw_line(
            alloc,
            cut,
            line,
            &event,
            cluster,
            picture,
            report,
            &mut elements,
        )?;
        rest = behind;
        line += 1;
    }
    Ok(elements)
}

/// Beyond so many events a picture is long.
const MANY: u64 = 300;

/// Whether a cut of so many lines has many of them.
pub(crate) fn has_many(lines: u64, cut: &Cut) -> bool {
    lines.min(cut.to).saturating_sub(cut.from) > MANY
}

/// Whether a cut of a text of lines has many of them.
fn is_long(bytes: &[u8], cut: &Cut) -> bool {
    let mut lines = 1u64;
    for byte in bytes {
        if *byte == b'\n' {
            lines = lines.saturating_add(1);
        }
    }
    has_many(lines, cut)
}

/// The picture of the run of a schedule on `nodes` nodes, whose lines after the first are `bytes`.
fn picture_behind<O: Sink>(
    alloc: Global,
    nodes: Nodes,
    bytes: &[u8],
    cut: &Cut,
    out: &mut O,
) -> Result<Vec<u8>, Refusal>
    ensures ok { IfOk result (λ text. IsPictureOf cut.now (nodes_line nodes ++ bytes.now) text.items) }
    ensures err { IfErr result (λ e. IsStop (IsEvent nodes) event_line bytes.now e) }
    ensures unprinted { O.printing out.new ≡ O.printing out.old }
{
    let _count = nodes.count();
    let mut cluster = Cluster::new(alloc, nodes)?;
    let drawing = written(Drawing::new(alloc, nodes, cut, is_long(bytes, cut)))?;
    let mut picture = Picture {
        drawing,
        heard: Heard::new(alloc),
    };
    let mut report = Vec::new(alloc);
    let elements = draw_events(
        alloc,
        nodes,
        bytes,
        cut,
        &mut cluster,
        &mut picture,
        &mut report,
        out,
    )?;
    let decided = decided_list(alloc, nodes, cluster.wire())?;
    push_decided_list(&mut report, decided.as_slice())?;
    let mut text = written(picture.drawing.front())?;
    push_bytes(&mut text, elements.as_slice())?;
    let back = picture.back(alloc, cluster.wire())?;
    push_bytes(&mut text, back.as_slice())?;
    Ok(text)
}

/// The picture of the run of the schedule whose text the bytes are, as far as a cut shows it. Those who watch `out` are
/// told how far it is; `out` takes nothing.
///
/// # Errors
/// `BadNodes` and `BadEvent` for bytes that are no schedule, as from `Schedule::parse`; `OutOfMemory`.
pub fn picture_of<O: Sink>(
    alloc: Global,
    bytes: &[u8],
    cut: &Cut,
    out: &mut O,
) -> Result<Vec<u8>, Refusal>
    ensures ok { IfOk result (λ text. IsPictureOf cut.now bytes.now text.items) }
    ensures fault { IfErr result (λ e. IsFault IsEvent event_line bytes.now e) }
    ensures unprinted { O.printing out.new ≡ O.printing out.old }
{
    match first_line(bytes) {
        Err(refusal) => Err(refusal),
        Ok((nodes, rest)) => {
            let picture = picture_behind(alloc, nodes, rest, cut, out);
            out.tell_progress(1, 1);
            picture
        }
    }
}
