//! The tape of a run, as it grows.

ghost use Rattle.std.specs.Prelude.{◌≡◌, ◌≤◌, [], length, OnOk, OnErr, IfErr};
ghost use Rattle.rr_turn.specs.Recorded.{sent_on, with_event, HasNoPlace};

use crate::among::is_among;
use rr_text::{MAX_EVENTS, Recorded, Tape, TapeEvent};
use rr_types::{Body, Command, Estimate, Input, Message, Nodes, Op, Refusal, Reply, made_of};
use std::alloc::Global;
use std::marker::Model;

/// What is recorded of a run: the events, as they were made. Contracts see it as a tape.
#[derive(Debug, Drop)]
pub struct Recording {
    nodes: Nodes,
    events: Vec<TapeEvent>,
    sent: u32,
}

impl Model for Recording {
    ghost use Rattle.std.specs.Prelude.{◌≡◌};
    ghost use Rattle.rr_text.specs.Taped.{Taped, IsTape};
    ghost use Rattle.rr_turn.specs.Recorded.{sent_on};

    ghost Value = { Taped };

    ghost view = { λ r. record { nodes = r.nodes; events = r.events.items } };

    ghost invariant = { λ r. IsTape (record { nodes = r.nodes; events = r.events.items }) × (r.sent ≡ sent_on (record { nodes = r.nodes; events = r.events.items })) };
}

impl Recording {
    /// A tape of these nodes without events.
    pub fn new(alloc: Global, nodes: Nodes) -> Recording
        ensures { result ≡ record { nodes = nodes; events = [] } }
    {
        let _count = nodes.count();
        Recording {
            nodes,
            events: Vec::new(alloc),
            sent: 0,
        }
    }

    /// How many messages are sent on it: the number of the next.
    #[tactic(auto, using(crate::proofs::Counting::sent_few))]
    pub fn sent(&self) -> u32
        ensures value { result ≡ sent_on self.now }
        ensures range { result ≤ length self.now.events }
    {
        self.sent
    }

    /// One more event. After an error nothing has changed.
    ///
    /// # Errors
    /// `OutOfMemory`; `BadEvent` of the line that the event would have, where the tape has a million events or the event
    /// isn't of its nodes.
    #[tactic(auto, using(crate::proofs::Counting::sent_few))]
    pub fn note(&mut self, event: &TapeEvent) -> Result<(), Refusal>
        ensures ok { OnOk result (self.new ≡ with_event self.old event.now) }
        ensures err { OnErr result (self.new ≡ self.old) }
        ensures cause { IfErr result (HasNoPlace self.old event.now) }
    {
        made_of!(Body, Command, Estimate, Input<u32>, Message, Op, Reply);
        if self.events.len() == MAX_EVENTS || !is_among(self.nodes, event) {
            return Err(Refusal::BadEvent(self.events.len() as u64 + 2));
        }
        self.events.push(*event)?;
        if let Recorded::Sent { .. } = event.what {
            self.sent += 1;
        }
        Ok(())
    }

    /// The tape.
    pub fn into_tape(self) -> Tape
        ensures { result ≡ self }
    {
        let Recording {
            nodes,
            events,
            sent: _,
        } = self;
        Tape::of_parts(nodes, events)
    }
}
