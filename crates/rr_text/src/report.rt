//! Reports of runs.

ghost use Rattle.std.specs.Prelude.{◌≡◌};

use rr_types::{Binding, Command, Message, NodeId, Refusal, Reply, RequestNo};
use std::marker::Model;

/// The bound names that a node reports, in byte order.
#[derive(Debug, Drop)]
pub struct BoundNames {
    bindings: Vec<Binding>,
}

impl Model for BoundNames {
    ghost use Rattle.std.specs.Prelude.{List};
    ghost use Rattle.rr_types.specs.declared.binding.Binding.{Binding};

    ghost Value = { List Binding };

    ghost view = { λ b. b.bindings.items };
}

impl BoundNames {
    /// These bound names. It keeps the vector.
    pub fn new(bindings: Vec<Binding>) -> BoundNames
        ensures { result ≡ bindings.items }
    {
        BoundNames { bindings }
    }

    /// The bound names, in the order that they were given in.
    pub fn as_slice(&self) -> &[Binding]
        ensures { result.now ≡ self.now }
    {
        let bindings = &self.bindings;
        bindings
    }
}

/// A line of a report.
#[derive(Debug, Drop)]
pub enum ReportLine {
    /// A message was put on the wire: its number, from 0, and the message.
    Send {
        number: u64,
        message: Message,
    },
    /// A node acknowledged a request.
    Ack {
        node: NodeId,
        request: RequestNo,
        reply: Reply,
    },
    /// A node has opened: the number of its next fact, how many commands it knows as decided without a
    /// gap, and the names that these bind.
    Restart {
        node: NodeId,
        facts: u64,
        decided: u64,
        bindings: BoundNames,
    },
    /// The event of this line of the schedule, from 1, was refused.
    Refuse {
        line: u64,
        refusal: Refusal,
    },
}

/// The report of a run: its lines in the order of the events, and the commands that the run has decided,
/// from instance 0 on.
#[derive(Debug, Drop)]
pub struct Report {
    lines: Vec<ReportLine>,
    decided: Vec<Command>,
}

impl Model for Report {
    ghost use Rattle.rr_text.specs.Reported.{Reported};

    ghost Value = { Reported };

    ghost view = { λ r. record { lines = r.lines.items; decided = r.decided.items } };
}

impl Report {
    /// The report of these lines and decided commands. It keeps the vectors.
    pub fn new(lines: Vec<ReportLine>, decided: Vec<Command>) -> Report
        ensures { result ≡ record { lines = lines.items; decided = decided.items } }
    {
        Report { lines, decided }
    }

    /// Its lines, in the order of the events.
    pub fn lines(&self) -> &[ReportLine]
        ensures { result.now ≡ self.now.lines }
    {
        let lines = &self.lines;
        lines
    }

    /// The decided commands, from instance 0 on.
    pub fn decided(&self) -> &[Command]
        ensures { result.now ≡ self.now.decided }
    {
        let decided = &self.decided;
        decided
    }
}
