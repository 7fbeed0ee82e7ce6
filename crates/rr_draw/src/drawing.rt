//! A picture as it grows, event by event.

ghost use Rattle.std.specs.Prelude.{◌≡◌};

use crate::arrow::Ends;
use crate::cut::Cut;
use crate::glyphs::{class_of, push_facts, push_mark};
use crate::lane::{Job, Lane, lanes_of, width_of, x_of};
use crate::scene::Scene;
use crate::style::{LEGEND, LEGEND_WIDTH, STYLE};
use crate::words::{decided_by, decided_words, is_of_a_call, line_words, message_in};
use rr_sim::Stance;
use rr_text::text_word::{push_op, push_set};
use rr_text::{Event, Happening, ReportLine};
use rr_types::{Command, Fact, Input, Message, NodeEvent, NodeId, NodeSet, Nodes, Refusal};
use std::alloc::Global;
use std::io;
use std::io::Write;

/// Where the first event stands.
const TOP: u64 = 56;
/// How far an event stands below the one before.
const ROW: u64 = 4;
/// How far below an event stands that is folded.
const FOLDED_ROW: u64 = 1;
/// How far the numbers of lines stand apart.
const NUMBERS: u64 = 40;
/// How many letters of a command are shown.
const LETTERS: usize = 20;

/// A message that was sent: where, and whether that is shown.
#[derive(Clone, Copy, Debug)]
struct Sent {
    y: u64,
    is_shown: bool,
}

/// Whether an event lies within the lines and the node of a cut, and whether its message speaks of the cut's instance.
#[derive(Clone, Copy)]
pub(crate) struct Shown {
    pub(crate) is_within: bool,
    pub(crate) speaks: bool,
}

/// What is drawn of an event.
#[derive(Drop)]
pub(crate) struct Art {
    pub(crate) shapes: Vec<u8>,
    /// Whether a fact of the instance that is asked for is synced or marked here.
    pub(crate) is_about: bool,
}

/// A picture as far as it is drawn. What lies below the events is kept apart.
#[derive(Drop)]
pub(crate) struct Drawing {
    alloc: Global,
    nodes: Nodes,
    cut: Cut,
    /// Whether there are so many events that those are folded which nobody looks at.
    is_long: bool,
    /// Whether it is a picture of a tape, whose nodes are up from the beginning and make no device calls.
    is_tape: bool,
    /// Whether the event that is drawn is shown, and has labels.
    is_shown: bool,
    y: u64,
    lanes: Vec<Lane>,
    sent: Vec<Sent>,
    below: Vec<u8>,
    /// Where the next number of a line may stand.
    next_number: u64,
}

/// A side of a line.
#[derive(Clone, Copy, PartialEq, Eq)]
enum Side {
    Left,
    Right,
}

impl Drawing {
    /// A picture of `nodes` nodes, without events. Of a long one more is folded.
    pub(crate) fn new(
        alloc: Global,
        nodes: Nodes,
        cut: &Cut,
        is_long: bool,
    ) -> io::Result<Drawing> {
        Ok(Drawing {
            alloc,
            nodes,
            cut: *cut,
            is_long,
            is_tape: false,
            is_shown: false,
            y: TOP,
            lanes: lanes_of(alloc, nodes)?,
            sent: Vec::new(alloc),
            below: Vec::new(alloc),
            next_number: TOP,
        })
    }

    /// The same of a tape.
    pub(crate) fn of_tape(
        alloc: Global,
        nodes: Nodes,
        cut: &Cut,
        is_long: bool,
    ) -> io::Result<Drawing> {
        let mut drawing = Drawing::new(alloc, nodes, cut, is_long)?;
        drawing.is_tape = true;
        for lane in &mut drawing.lanes {
            lane.since = Some(TOP);
            lane.is_up = true;
        }
        Ok(drawing)
    }

    /// What is drawn of an event, where the scene is behind it. It speaks of this message.
    pub(crate) fn draw(
        &mut self,
        line: u64,
        event: &Event,
        scene: &Scene<'_>,
        message: Option<&Message>,
        shown: Shown,
    ) -> io::Result<Art> {
        let mut art = Art {
            shapes: Vec::new(self.alloc),
            is_about: false,
        };
        let Shown { is_within, speaks } = shown;
        let node = event.node;
        let is_folded = self.is_folded(event, scene, message);
        let told = line_words(self.alloc, event, scene.lines)?;
        self.is_shown = is_within && speaks && !is_folded;
        self.draw_input(event, scene.lines, told.as_slice(), &mut art.shapes)?;
        self.is_shown = is_within && !is_folded;
        self.follow(node, event, scene, told.as_slice(), &mut art)?;
        if let Some(ReportLine::Refuse { refusal, .. }) = scene.lines.get(0) {
            self.draw_refusal(node, event, *refusal, told.as_slice(), &mut art.shapes)?;
        }
        if is_folded {
            self.fold(node, &mut art.shapes)?;
        }
        let is_shown = is_within && (speaks || art.is_about);
        self.draw_rest(line, node, is_shown, &mut art.shapes)?;
        if is_shown {
            let down = if is_folded { FOLDED_ROW } else { ROW };
            self.y = self.y.saturating_add(down);
        }
        Ok(art)
    }

    /// Of an event that is folded only a small dot is drawn.
    fn fold(&self, node: NodeId, out: &mut Vec<u8>) -> io::Result<()> {
        out.clear();
        let (x, y) = (x_of(node), self.y);
        write!(out, "<circle class=\"f\" cx=\"{x}\" cy=\"{y}\" r=\".7\"/>")
    }

    /// Whether the events are so many that some are folded.
    pub(crate) fn is_long(&self) -> bool {
        self.is_long
    }

    /// Whether an event is folded: in a long picture heartbeats, device calls without a job, and requests unless they are
    /// asked for.
    fn is_folded(&self, event: &Event, scene: &Scene<'_>, message: Option<&Message>) -> bool {
        if !self.is_long {
            return false;
        }
        if let Some(message) = message {
            return self.cut.folds(message.body.kind());
        }
        if !scene.lines.is_empty() {
            return false;
        }
        match &event.what {
            Happening::At(NodeEvent::Told(Input::Tick)) => true,
            Happening::At(NodeEvent::Device) => {
                self.is_idle(event.node)
                    && matches!(scene.stance, Some(Stance::Resting | Stance::Flushed))
            }
            _ => false,
        }
    }

    /// Whether a node has no job, or has synced its group.
    fn is_idle(&self, node: NodeId) -> bool {
        match self.lanes.get(usize::from(node.index())) {
            Some(lane) => lane.is_idle(),
            None => true,
        }
    }

    /// A label at a node, where the event has labels.
    fn label(
        &mut self,
        node: NodeId,
        side: Side,
        y: u64,
        class: &'static str,
        text: &[u8],
    ) -> io::Result<()> {
        if !self.is_shown {
            return Ok(());
        }
        let alloc = self.alloc;
        if let Some(lane) = self.lanes.get_mut(usize::from(node.index())) {
            match side {
                Side::Left => lane.left.add(alloc, y, class, text)?,
                Side::Right => lane.right.add(alloc, y, class, text)?,
            }
        }
        Ok(())
    }

    /// What comes from a client or from another node, or goes there. Its label says what the report's line tells.
    fn draw_input(
        &mut self,
        event: &Event,
        lines: &[ReportLine],
        told: &[u8],
        out: &mut Vec<u8>,
    ) -> io::Result<()> {
        let node = event.node;
        match &event.what {
            Happening::At(NodeEvent::Told(input)) => self.draw_told(node, input, out),
            Happening::At(NodeEvent::Send) => match message_in(lines) {
                Some(message) => self.draw_send(node, message, told, out),
                None => Ok(()),
            },
            Happening::At(NodeEvent::Acknowledge) => {
                if let Some(ReportLine::Ack { .. }) = lines.get(0) {
                    push_mark(out, "t", x_of(node), self.y)?;
                    self.label(node, Side::Right, self.y, "a", told)?;
                }
                Ok(())
            }
            _ => Ok(()),
        }
    }

    /// What a node is told, but for a message: that has an arrow.
    fn draw_told(&mut self, node: NodeId, input: &Input<u32>, out: &mut Vec<u8>) -> io::Result<()> {
        match input {
            Input::Submit(command) => self.draw_submit(node, command, out),
            Input::Hear(_) => Ok(()),
            Input::Suspect(set) => self.draw_suspects(node, *set, out),
            Input::Tick => self.draw_word(node, b"tick", out),
            Input::Advance => self.draw_word(node, b"advance", out),
        }
    }

    /// The nodes that a node suspects.
    fn draw_suspects(&mut self, node: NodeId, set: NodeSet, out: &mut Vec<u8>) -> io::Result<()> {
        push_mark(out, "v", x_of(node), self.y)?;
        let mut text = Vec::new(self.alloc);
        text.extend_from_slice(b"suspects")?;
        if set.bits() == 0 {
            text.extend_from_slice(b" nobody")?;
        } else {
            push_set(&mut text, set)?;
        }
        self.label(node, Side::Left, self.y, "v", text.as_slice())
    }

    fn draw_submit(
        &mut self,
        node: NodeId,
        command: &Command,
        out: &mut Vec<u8>,
    ) -> io::Result<()> {
        push_mark(out, "s", x_of(node), self.y)?;
        let mut words = Vec::new(self.alloc);
        push_op(&mut words, &command.op)?;
        let (client, seq) = (command.request.client, command.request.seq);
        let mut text = Vec::new(self.alloc);
        write!(text, "{client}.{seq}")?;
        // The words begin with a space.
        let letters = words.as_slice();
        match letters.get(..LETTERS + 1) {
            Some(some) if letters.len() > LETTERS + 1 => {
                text.extend_from_slice(some)?;
                text.extend_from_slice(b"..")?;
            }
            _ => text.extend_from_slice(letters)?,
        }
        self.label(node, Side::Left, self.y, "", text.as_slice())
    }

    /// Where the arrow of a message begins that is heard here, and where it ends.
    pub(crate) fn ends(&self, number: u32, message: &Message) -> Ends
        ensures from { result.from ≡ message.now.from }
        ensures to { result.to ≡ message.now.to }
    {
        let sent_at = match self.sent.get(number as usize) {
            Some(sent) => sent.y,
            None => self.y,
        };
        Ends {
            from: message.from,
            to: message.to,
            sent_at,
            heard_at: self.y,
        }
    }

    /// A message is sent: where its arrow will begin, and its name.
    fn draw_send(
        &mut self,
        node: NodeId,
        message: &Message,
        told: &[u8],
        out: &mut Vec<u8>,
    ) -> io::Result<()> {
        self.sent.push(Sent {
            y: self.y,
            is_shown: self.is_shown,
        })?;
        let x = x_of(node);
        let y = self.y;
        let kind = class_of(message.body.kind());
        write!(
            out,
            "<circle class=\"{kind}\" cx=\"{x}\" cy=\"{y}\" r=\"1.2\"/>"
        )?;
        let side = if x_of(message.to) > x {
            Side::Right
        } else {
            Side::Left
        };
        self.label(node, side, y, kind, told)
    }

    fn draw_word(&mut self, node: NodeId, word: &[u8], out: &mut Vec<u8>) -> io::Result<()> {
        let x = x_of(node);
        let y = self.y;
        write!(out, "<circle class=\"o\" cx=\"{x}\" cy=\"{y}\" r=\"2\"/>")?;
        self.label(node, Side::Left, y, "o", word)
    }

    /// What becomes of the node and of its job.
    fn follow(
        &mut self,
        node: NodeId,
        event: &Event,
        scene: &Scene<'_>,
        told: &[u8],
        art: &mut Art,
    ) -> io::Result<()> {
        let Some(stance) = scene.stance else {
            return Ok(());
        };
        match &event.what {
            Happening::At(NodeEvent::Take) => {
                self.begin(node, stance, false)?;
                if self.is_tape {
                    self.draw_facts(node, scene.synced, art)?;
                }
            }
            Happening::At(NodeEvent::Snap) => self.begin(node, stance, true)?,
            Happening::At(NodeEvent::Device) => self.draw_call(node, stance, scene, told, art)?,
            // A mark that comes while a job runs, or to a node that is down, marks nothing.
            Happening::At(NodeEvent::Mark) if stance == Stance::Resting => {
                self.draw_mark(node, art)?;
            }
            Happening::At(NodeEvent::Restart) => {
                self.draw_restart(node, stance, &mut art.shapes)?;
            }
            Happening::Crash { .. } => self.draw_crash(node, &mut art.shapes)?,
            _ => (),
        }
        if matches!(stance, Stance::Down | Stance::Failed) {
            self.break_line(node)?;
        }
        Ok(())
    }

    /// A flush or a switch begins, unless one runs or there is nothing to flush.
    fn begin(&mut self, node: NodeId, stance: Stance, is_switch: bool) -> io::Result<()> {
        let since = self.y;
        let Some(lane) = self.lanes.get_mut(usize::from(node.index())) else {
            return Ok(());
        };
        if stance != Stance::Calling || lane.job.is_some() {
            return Ok(());
        }
        lane.begin(since, is_switch);
        if is_switch {
            self.label(node, Side::Left, since, "", b"snapshot")?;
        }
        Ok(())
    }

    /// A crash: what it cuts short.
    fn draw_crash(&mut self, node: NodeId, out: &mut Vec<u8>) -> io::Result<()> {
        push_mark(out, "x", x_of(node), self.y)?;
        let words: &[u8] = match self.lanes.get(usize::from(node.index())) {
            Some(lane) => match &lane.job {
                Some(job) if job.is_switch => b"crash cuts a snapshot",
                Some(_) if lane.is_idle() => b"crash before a mark",
                Some(_) => b"crash cuts a flush",
                None if lane.since.is_some() && !lane.is_up => b"crash cuts an opening",
                None => b"crash",
            },
            None => b"crash",
        };
        self.label(node, Side::Left, self.y, "b", words)
    }

    /// A device call, and what comes of it.
    fn draw_call(
        &mut self,
        node: NodeId,
        stance: Stance,
        scene: &Scene<'_>,
        told: &[u8],
        art: &mut Art,
    ) -> io::Result<()> {
        let x = x_of(node);
        let y = self.y;
        let left = x.saturating_sub(4);
        if let Some(ReportLine::Restart { .. }) = scene.lines.get(0) {
            self.open(node)?;
            push_mark(&mut art.shapes, "u", x, y)?;
            self.label(node, Side::Right, y, "", told)?;
        }
        let is_idle = self.is_idle(node);
        if !is_idle || stance == Stance::Opening {
            write!(art.shapes, "<path d=\"M{left} {y}h8\"/>")?;
        }
        if stance == Stance::Flushed && !is_idle {
            self.draw_facts(node, scene.synced, art)?;
        }
        if stance == Stance::Resting {
            let _ended = self.end_job(node)?;
        }
        Ok(())
    }

    /// The facts of a synced group: their names beside the flush, of the instance alone that is asked for.
    fn draw_facts(&mut self, node: NodeId, synced: &[Fact], art: &mut Art) -> io::Result<()> {
        let alloc = self.alloc;
        let instance = self.cut.instance;
        let decides = decided_by(alloc, &self.cut, synced)?;
        let Some(lane) = self.lanes.get_mut(usize::from(node.index())) else {
            return Ok(());
        };
        let since = match &lane.job {
            Some(job) => job.since,
            None => return Ok(()),
        };
        lane.sync(decides);
        for kind in 0..4u8 {
            let mut text = Vec::new(alloc);
            push_facts(&mut text, synced, kind, instance)?;
            if !text.is_empty() {
                art.is_about = instance.is_some();
                let at = since.saturating_add(2);
                self.label(node, Side::Right, at, "", text.as_slice())?;
            }
        }
        Ok(())
    }

    /// A group is marked: the flush has ended, and what it decides is decided for good.
    fn draw_mark(&mut self, node: NodeId, art: &mut Art) -> io::Result<()> {
        let Some(job) = self.end_job(node)? else {
            return Ok(());
        };
        let Job {
            since: _,
            is_switch: _,
            decides,
        } = job;
        let Some(decides) = decides else {
            return Ok(());
        };
        if decides.is_empty() {
            return Ok(());
        }
        art.is_about = self.cut.instance.is_some();
        let y = self.y;
        push_mark(&mut art.shapes, "k", x_of(node), y)?;
        let words = decided_words(self.alloc, decides.as_slice())?;
        self.label(node, Side::Left, y, "d", words.as_slice())
    }

    /// A job has ended, or is cut short: its block. There is none where no job runs.
    fn end_job(&mut self, node: NodeId) -> io::Result<Option<Job>> {
        let y = self.y;
        let Some(lane) = self.lanes.get_mut(usize::from(node.index())) else {
            return Ok(None);
        };
        let Some(job) = lane.end() else {
            return Ok(None);
        };
        let class = if job.is_switch { "w" } else { "j" };
        let left = lane.x.saturating_sub(5);
        let top = job.since;
        let height = y.saturating_sub(top);
        write!(
            self.below,
            "<rect class=\"{class}\" x=\"{left}\" y=\"{top}\" width=\"10\" height=\"{height}\"/>\n"
        )?;
        Ok(Some(job))
    }

    /// An opening begins.
    fn draw_restart(&mut self, node: NodeId, stance: Stance, out: &mut Vec<u8>) -> io::Result<()> {
        let y = self.y;
        let x = x_of(node);
        let Some(lane) = self.lanes.get_mut(usize::from(node.index())) else {
            return Ok(());
        };
        if stance == Stance::Opening && lane.since.is_none() {
            lane.since = Some(y);
            lane.is_up = false;
            push_mark(out, "u", x, y)?;
        }
        Ok(())
    }

    /// An opening has ended: the node is up.
    fn open(&mut self, node: NodeId) -> io::Result<()> {
        self.draw_line(node)?;
        let y = self.y;
        if let Some(lane) = self.lanes.get_mut(usize::from(node.index())) {
            lane.since = Some(y);
            lane.is_up = true;
        }
        Ok(())
    }

    /// The node is down, or has failed.
    fn break_line(&mut self, node: NodeId) -> io::Result<()> {
        let _cut_short = self.end_job(node)?;
        self.draw_line(node)?;
        if let Some(lane) = self.lanes.get_mut(usize::from(node.index())) {
            lane.since = None;
            lane.is_up = false;
        }
        Ok(())
    }

    /// The node's line up to here.
    fn draw_line(&mut self, node: NodeId) -> io::Result<()> {
        let y = self.y;
        let Some(lane) = self.lanes.get_mut(usize::from(node.index())) else {
            return Ok(());
        };
        let Some(since) = lane.since else {
            return Ok(());
        };
        let class = if lane.is_up { "up" } else { "op" };
        let x = lane.x;
        write!(
            self.below,
            "<path class=\"{class}\" d=\"M{x} {since}V{y}\"/>\n"
        )
    }

    /// An event that was refused: a red ring with a bar, and the name of the refusal. A call that fails has a larger one; a
    /// node that is down or has failed refuses a call before it makes it.
    fn draw_refusal(
        &mut self,
        node: NodeId,
        event: &Event,
        refusal: Refusal,
        told: &[u8],
        out: &mut Vec<u8>,
    ) -> io::Result<()> {
        let mark = if is_of_a_call(event, refusal) {
            "y"
        } else {
            "n"
        };
        push_mark(out, mark, x_of(node), self.y)?;
        self.label(node, Side::Left, self.y, "b", told)
    }

    /// The number of the line, now and then, and a place for the pointer.
    fn draw_rest(
        &mut self,
        line: u64,
        node: NodeId,
        is_shown: bool,
        out: &mut Vec<u8>,
    ) -> io::Result<()> {
        let left = x_of(node).saturating_sub(9);
        let top = self.y.saturating_sub(2);
        write!(
            out,
            "<rect class=\"x\" x=\"{left}\" y=\"{top}\" width=\"18\" height=\"4\"/>"
        )?;
        if is_shown && self.y >= self.next_number {
            let y = self.y.saturating_add(3);
            write!(out, "<text class=\"g\" x=\"4\" y=\"{y}\">{line}</text>")?;
            self.next_number = self.y.saturating_add(NUMBERS);
        }
        Ok(())
    }

    /// What stands before the events: style, legend, the names of the nodes, and what lies below.
    pub(crate) fn front(&mut self) -> io::Result<Vec<u8>> {
        for index in 0..self.nodes.count() {
            if let Some(node) = NodeId::new(self.nodes, index) {
                let _open = self.end_job(node)?;
                self.draw_line(node)?;
            }
        }
        let mut out = Vec::new(self.alloc);
        let width = width_of(self.nodes).max(LEGEND_WIDTH);
        let height = self.y.saturating_add(30);
        // A label is eight units high, so that three halves of them are twelve dots.
        let across = width.saturating_mul(3) / 2;
        let down = height.saturating_mul(3) / 2;
        write!(
            out,
            "<svg xmlns=\"http://www.w3.org/2000/svg\" width=\"{across}\" height=\"{down}\" viewBox=\"0 0 {width} {height}\" role=\"img\">\n"
        )?;
        out.extend_from_slice(STYLE)?;
        out.extend_from_slice(LEGEND)?;
        for (index, lane) in self.lanes.iter().enumerate() {
            let (x, y) = (lane.x, self.y);
            write!(out, "<path class=\"z\" d=\"M{x} {TOP}V{y}\"/>")?;
            write!(
                out,
                "<text class=\"h\" x=\"{x}\" y=\"46\">node {index}</text>\n"
            )?;
        }
        out.extend_from_slice(self.below.as_slice())?;
        Ok(out)
    }

    /// What stands behind the events: the messages that nobody hears, by their numbers, and the labels.
    pub(crate) fn back(&self, wire: &[Message], lost: &[usize]) -> io::Result<Vec<u8>> {
        let mut out = Vec::new(self.alloc);
        for number in lost {
            if let (Some(message), Some(sent)) = (wire.get(*number), self.sent.get(*number)) {
                if sent.is_shown {
                    self.draw_lost(message, sent.y, &mut out)?;
                }
            }
        }
        for lane in &self.lanes {
            lane.left.draw(&mut out, lane.x.saturating_sub(11), " r")?;
            lane.right.draw(&mut out, lane.x.saturating_add(11), "")?;
        }
        write!(out, "</svg>\n")?;
        Ok(out)
    }

    /// A message that nobody hears ends in a dot.
    fn draw_lost(&self, message: &Message, y: u64, out: &mut Vec<u8>) -> io::Result<()> {
        let x = x_of(message.from);
        let to = x_of(message.to);
        let class = class_of(message.body.kind());
        let end = if to > x {
            x.saturating_add(16)
        } else {
            x.saturating_sub(16)
        };
        let down = y.saturating_add(5);
        write!(
            out,
            "<line class=\"{class}\" x1=\"{x}\" y1=\"{y}\" x2=\"{end}\" y2=\"{down}\"/><circle class=\"{class}\" cx=\"{end}\" cy=\"{down}\" r=\"1.6\"/>\n"
        )
    }
}
