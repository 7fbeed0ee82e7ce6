//! Printing schedules.

ghost use Rattle.std.specs.Prelude.{◌≡◌, ◌∷◌, ◌++◌, [], OnOk, IfOk, codes, decimal};
ghost use Rattle.std.specs.List.{flat_map};
ghost use Rattle.rr_text.specs.Words.{spaced, op_words};
ghost use Rattle.rr_text.specs.Lines.{nodes_line};
ghost use Rattle.rr_text.specs.Reading.{keyword_text};
ghost use Rattle.rr_text.specs.ScheduleTexts.{event_words, event_text, event_line, schedule_text};

use crate::event::{Event, Happening};
use crate::kind::EventKind;
use crate::schedule::Schedule;
use crate::text_word::{
    push_byte, push_bytes, push_fill, push_number, push_number_word, push_op, push_set,
};
use rr_types::{Command, Input, NodeEvent, NodeId, Nodes};
use std::alloc::{AllocError, Global};

fn push_at_node(out: &mut Vec<u8>, kind: EventKind, node: NodeId) -> Result<(), AllocError>
    ensures ok { OnOk result (out.new.items ≡ out.old.items ++ spaced (keyword_text kind ∷ decimal node ∷ [])) }
{
    push_bytes(out, kind.word().as_bytes())?;
    push_number_word(out, u64::from(node.index()))
}

fn push_submitted(out: &mut Vec<u8>, command: &Command) -> Result<(), AllocError>
    ensures ok { OnOk result (out.new.items ≡ out.old.items ++ 32 ∷ spaced (decimal command.now.request.client ∷ decimal command.now.request.seq ∷ op_words command.now.op)) }
{
    push_number_word(out, u64::from(command.request.client))?;
    push_number_word(out, command.request.seq)?;
    push_op(out, &command.op)
}

/// Appends the text of an event.
pub fn push_event(out: &mut Vec<u8>, event: &Event) -> Result<(), AllocError>
    ensures ok { OnOk result (out.new.items ≡ out.old.items ++ event_text event.now) }
{
    push_at_node(out, event.what.kind(), event.node)?;
    match &event.what {
        Happening::At(NodeEvent::Told(Input::Submit(command))) => push_submitted(out, command),
        Happening::At(NodeEvent::Told(Input::Hear(message))) => {
            push_number_word(out, u64::from(*message))
        }
        Happening::At(NodeEvent::Told(Input::Suspect(set))) => push_set(out, *set),
        Happening::At(_) => Ok(()),
        Happening::Fail(fill) => push_fill(out, fill.as_bytes()),
        Happening::Crash { cut_0, cut_1, fill } => {
            push_number_word(out, u64::from(*cut_0))?;
            push_number_word(out, u64::from(*cut_1))?;
            push_fill(out, fill.as_bytes())
        }
    }
}

/// Appends the line of an event.
pub fn push_event_line(out: &mut Vec<u8>, event: &Event) -> Result<(), AllocError>
    ensures ok { OnOk result (out.new.items ≡ out.old.items ++ event_line event.now) }
{
    push_event(out, event)?;
    push_byte(out, b'\n')
}

/// Appends the lines of events.
pub fn push_event_lines(out: &mut Vec<u8>, events: &[Event]) -> Result<(), AllocError>
    ensures ok { OnOk result (out.new.items ≡ out.old.items ++ flat_map event_line events.now) }
{
    for event in events {
        push_event_line(out, event)?;
    }
    Ok(())
}

/// Appends the first line.
pub fn push_nodes_line(out: &mut Vec<u8>, nodes: Nodes) -> Result<(), AllocError>
    ensures ok { OnOk result (out.new.items ≡ out.old.items ++ nodes_line nodes) }
{
    push_bytes(out, b"nodes ")?;
    push_number(out, u64::from(nodes.count()))?;
    push_byte(out, b'\n')
}

impl Schedule {
    /// The text of the schedule.
    pub fn text(&self, alloc: Global) -> Result<Vec<u8>, AllocError>
        ensures ok { IfOk result (λ v. v.items ≡ schedule_text self.now) }
    {
        let mut out = Vec::new(alloc);
        push_nodes_line(&mut out, self.nodes())?;
        push_event_lines(&mut out, self.events())?;
        Ok(out)
    }
}
