//! Printing tapes.

ghost use Rattle.std.specs.Prelude.{◌≡◌, ◌++◌, OnOk, IfOk};
ghost use Rattle.std.specs.List.{flat_map};
ghost use Rattle.rr_text.specs.Words.{spaced};
ghost use Rattle.rr_text.specs.TapeTexts.{tape_words, tape_line, tape_text};

use crate::event::Event;
use crate::report::ReportLine;
use crate::tape::Tape;
use crate::tape_event::{Recorded, TapeEvent};
use crate::text_report::push_report_words;
use crate::text_schedule::{push_event, push_nodes_line};
use rr_types::NodeEvent;
use std::alloc::{AllocError, Global};

fn push_tape_event(out: &mut Vec<u8>, event: &TapeEvent) -> Result<(), AllocError>
    ensures ok { OnOk result (out.new.items ≡ out.old.items ++ spaced (tape_words event.now)) }
{
    let TapeEvent { node, what } = *event;
    match what {
        Recorded::Told(input) => push_event(out, &Event::told(node, input)),
        Recorded::Take => push_event(out, &Event::at(node, NodeEvent::Take)),
        Recorded::Mark => push_event(out, &Event::at(node, NodeEvent::Mark)),
        Recorded::Sent { number, message } => {
            let number = u64::from(number);
            push_report_words(out, &ReportLine::Send { number, message })
        }
        Recorded::Acked { request, reply } => push_report_words(
            out,
            &ReportLine::Ack {
                node,
                request,
                reply,
            },
        ),
    }
}

fn push_tape_line(out: &mut Vec<u8>, event: &TapeEvent) -> Result<(), AllocError>
    ensures ok { OnOk result (out.new.items ≡ out.old.items ++ tape_line event.now) }
{
    push_tape_event(out, event)?;
    out.push(b'\n')?;
    Ok(())
}

fn push_tape_lines(out: &mut Vec<u8>, events: &[TapeEvent]) -> Result<(), AllocError>
    ensures ok { OnOk result (out.new.items ≡ out.old.items ++ flat_map tape_line events.now) }
{
    for event in events {
        push_tape_line(out, event)?;
    }
    Ok(())
}

impl Tape {
    /// The text of the tape.
    pub fn text(&self, alloc: Global) -> Result<Vec<u8>, AllocError>
        ensures ok { IfOk result (λ v. v.items ≡ tape_text self.now) }
    {
        let mut out = Vec::new(alloc);
        push_nodes_line(&mut out, self.nodes())?;
        push_tape_lines(&mut out, self.events())?;
        Ok(out)
    }
}
