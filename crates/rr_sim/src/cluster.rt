//! A cluster of nodes with their disks: what each event of a schedule does to it.

ghost use Rattle.std.specs.Prelude.{◌≡◌, ◌≢◌, ◌↔◌, ◌∷◌, ◌++◌, ℕ, Option, [], length, slice_get, None, Some, false, IsTrue, IfSome, MatchOption, Ok, Err, OnOk, IfOk};
ghost use Rattle.rr_sim.specs.Clusters.{shown, note_of, new_cluster, at_node, fail_at, crash_at, with_refusal, IsEither, Steps, TellsOfWant, IsSpeltAt, IsSpeltBehind};
ghost use Rattle.rr_text.specs.Events.{told_at};
ghost use Rattle.rr_text.specs.declared.report.ReportLine.{ReportLine};
ghost use Rattle.rr_sim.specs.Random.{IsFailing, StepsInMemory};
ghost use Rattle.rr_types.specs.declared.event.NodeEvent.{NodeEvent};
ghost use Rattle.rr_types.specs.declared.message.Message.{Message};
ghost use Rattle.rr_types.specs.declared.input.Input.{Input};
ghost use Rattle.rr_types.specs.Inputs.{HearsNothing, happens_as};
ghost use Rattle.rr_node.specs.Runs.{sent_by};
ghost use Rattle.rr_node.specs.Stances.{event_of as event_by};
ghost use Rattle.rr_sim.specs.Told.{told, TellsOne};

use rr_disk::MemDisk;
use rr_node::{Act, Node, Outcome};
use rr_registry::binding_of;
use rr_text::text_report::push_report_lines;
use rr_text::{BoundNames, Event, Happening, ReportLine};
use rr_types::{Input, Message, NodeEvent, NodeId, Nodes, Refusal};
use std::alloc::{AllocError, Global};
use std::marker::Model;

/// The nodes by their numbers, all messages ever sent, and the lines of the report so far.
#[derive(Drop)]
pub struct Cluster {
    seats: Vec<Node>,
    wire: Vec<Message>,
    lines: Vec<ReportLine>,
}

impl Model for Cluster {
    ghost use Rattle.rr_sim.specs.Clusters as cluster;

    ghost Value = { cluster.Cluster };

    ghost view = { λ c.
        record { seats = c.seats.items; wire = c.wire.items; lines = c.lines.items } };
}

/// The bound names as a report shows them.
pub fn shown(alloc: Global, names: &rr_node::BoundNames) -> Result<BoundNames, AllocError>
    ensures ok { IfOk result (λ b. b ≡ shown names.now) }
{
    let entries = names.entries();
    let mut bindings = Vec::new(alloc);
    for entry in entries {
        bindings.push(binding_of(entry))?;
    }
    Ok(BoundNames::new(bindings))
}

/// The act that an event of a node is, by which the node is told nothing.
fn act_of(event: &NodeEvent<u32>) -> Act
    requires { (input : Input ℕ) → event.now ≢ NodeEvent.Told input }
    ensures { (name : ℕ → Option Message) → happens_as name event.now ≡ Some (event_by result) }
{
    match event {
        NodeEvent::Told(_) => unreachable!(),
        NodeEvent::Take => Act::Take,
        NodeEvent::Device => Act::Device,
        NodeEvent::Mark => Act::Mark,
        NodeEvent::Send => Act::Send,
        NodeEvent::Acknowledge => Act::Acknowledge,
        NodeEvent::Snap => Act::Snap,
        NodeEvent::Restart => Act::Restart,
    }
}

/// The event of a node that an act is.
fn event_by(act: Act) -> NodeEvent<Message>
    ensures { result ≡ event_by act }
{
    match act {
        Act::Take => NodeEvent::Take,
        Act::Device => NodeEvent::Device,
        Act::Mark => NodeEvent::Mark,
        Act::Send => NodeEvent::Send,
        Act::Acknowledge => NodeEvent::Acknowledge,
        Act::Snap => NodeEvent::Snap,
        Act::Restart => NodeEvent::Restart,
    }
}

/// Appends the line that refuses the event of a line.
fn push_refusal(text: &mut Vec<u8>, line: u64, refusal: Refusal) -> Result<(), AllocError>
    ensures ok { OnOk result (text.new.items ≡ text.old.items ++ told (ReportLine.Refuse line refusal ∷ [])) }
{
    push_report_lines(text, &[ReportLine::Refuse { line, refusal }])
}

/// Whether an event is a failing device call.
fn is_failing(event: &Event) -> bool
    ensures { IsTrue result ↔ IsFailing event.now }
{
    matches!(event.what, Happening::Fail(_))
}

impl Cluster {
    /// Nodes that are all down, over empty disks.
    pub fn new(alloc: Global, nodes: Nodes) -> Result<Cluster, AllocError>
        ensures ok { IfOk result (λ c. c ≡ new_cluster nodes) }
    {
        let mut seats = Vec::new(alloc);
        for index in 0..nodes.count() {
            let node = NodeId::new(nodes, index).unwrap();
            seats.push(Node::new(nodes, node, MemDisk::new(alloc)))?;
        }
        Ok(Cluster {
            seats,
            wire: Vec::new(alloc),
            lines: Vec::new(alloc),
        })
    }

    /// The node of this number, where there is one.
    pub fn node(&self, node: NodeId) -> Option<&Node>
        ensures { MatchOption result (slice_get self.now.seats node ≡ None) (λ seat. slice_get self.now.seats node ≡ Some seat.now) }
    {
        self.seats.get(usize::from(node.index()))
    }

    /// The nodes by their numbers.
    pub fn into_nodes(self) -> Vec<Node>
        ensures { result.items ≡ self.seats }
    {
        let Cluster {
            seats,
            wire: _,
            lines: _,
        } = self;
        seats
    }

    /// The nodes by their numbers.
    pub fn nodes(&self) -> &[Node]
        ensures { result.now ≡ self.now.seats }
    {
        let seats = &self.seats;
        seats
    }

    /// All messages ever sent.
    pub fn wire(&self) -> &[Message]
        ensures { result.now ≡ self.now.wire }
    {
        let wire = &self.wire;
        wire
    }

    /// All messages ever sent. The nodes go.
    pub fn into_wire(self) -> Vec<Message>
        ensures { result.items ≡ self.wire }
    {
        let Cluster {
            seats: _,
            wire,
            lines: _,
        } = self;
        wire
    }

    /// The lines of the report so far.
    pub fn into_lines(self) -> Vec<ReportLine>
        ensures { result.items ≡ self.lines }
    {
        let Cluster {
            seats: _,
            wire: _,
            lines,
        } = self;
        lines
    }

    /// Appends the lines of the report so far to a text, and keeps them no longer.
    pub fn tell(&mut self, text: &mut Vec<u8>) -> Result<(), AllocError>
        ensures told { OnOk result (text.new.items ≡ text.old.items ++ told self.old.lines) }
        ensures kept { OnOk result (self.new ≡ record self.old { lines = [] }) }
    {
        if self.lines.is_empty() {
            return Ok(());
        }
        push_report_lines(text, self.lines.as_slice())?;
        self.lines.clear();
        Ok(())
    }

    /// The lines of the report so far that it keeps.
    pub fn lines(&self) -> &[ReportLine]
        ensures { result.now ≡ self.now.lines }
    {
        let lines = &self.lines;
        lines
    }

    /// Keeps the lines of the report so far no longer.
    pub fn forget_lines(&mut self)
        ensures { self.new ≡ record self.old { lines = [] } }
    {
        self.lines.clear();
    }

    /// An event at a node itself, but for the line that refuses it.
    fn at_node(
        &mut self,
        alloc: Global,
        node: NodeId,
        event: &NodeEvent<Message>,
    ) -> Result<Option<Refusal>, AllocError>
        ensures ok { IfOk result (λ refused. (at : ℕ)
            → IsEither (λ starved. with_refusal at refused self.new ≡ at_node node at starved event.now self.old)) }
        ensures spelt { OnOk result (IsSpeltAt node self.new) }
    {
        let at = usize::from(node.index());
        if at >= self.seats.len() {
            return Ok(None);
        }
        let seat = &mut self.seats[at];
        match seat.step_quietly(alloc, event) {
            Some(Ok(())) => Ok(None),
            Some(Err(refusal)) => Ok(Some(refusal)),
            None => self.step_at(alloc, node, event),
        }
    }

    /// The same of an event that may give more than a refusal.
    fn step_at(
        &mut self,
        alloc: Global,
        node: NodeId,
        event: &NodeEvent<Message>,
    ) -> Result<Option<Refusal>, AllocError>
        ensures ok { IfOk result (λ refused. (at : ℕ)
            → IsEither (λ starved. with_refusal at refused self.new ≡ at_node node at starved event.now self.old)) }
        ensures spelt { OnOk result (IsSpeltAt node self.new) }
    {
        let at = usize::from(node.index());
        if at >= self.seats.len() {
            return Ok(None);
        }
        let seat = &mut self.seats[at];
        let answer = seat.step(alloc, event);
        self.take_down(alloc, node, &answer)
    }

    /// An act of a node, but for the line that refuses it.
    fn act_at(
        &mut self,
        alloc: Global,
        node: NodeId,
        act: Act,
    ) -> Result<Option<Refusal>, AllocError>
        ensures ok { IfOk result (λ refused. (at : ℕ)
            → IsEither (λ starved. with_refusal at refused self.new ≡ at_node node at starved (event_by act) self.old)) }
        ensures spelt { OnOk result (IsSpeltAt node self.new) }
    {
        let at = usize::from(node.index());
        if at >= self.seats.len() {
            return Ok(None);
        }
        let seat = &mut self.seats[at];
        match seat.act(alloc, act) {
            Some(Ok(())) => Ok(None),
            Some(Err(refusal)) => Ok(Some(refusal)),
            None => self.step_at(alloc, node, &event_by(act)),
        }
    }

    /// The next device call of a node fails with this fill, but for the line that refuses it.
    fn fail_at(
        &mut self,
        alloc: Global,
        node: NodeId,
        fill: &[u8],
    ) -> Result<Option<Refusal>, AllocError>
        ensures ok { IfOk result (λ refused. (at : ℕ)
            → IsEither (λ starved. with_refusal at refused self.new ≡ fail_at node at starved fill.now self.old)) }
        ensures spelt { OnOk result (IsSpeltAt node self.new) }
    {
        let at = usize::from(node.index());
        if at >= self.seats.len() {
            return Ok(None);
        }
        let fill = Vec::from_slice(alloc, fill)?;
        let seat = &mut self.seats[at];
        let answer = seat.fail(alloc, fill);
        self.take_down(alloc, node, &answer)
    }

    /// What an answer of a node puts on the wire and into the report, but for a refusal, which is given.
    fn take_down(
        &mut self,
        alloc: Global,
        node: NodeId,
        answer: &Result<Outcome, Refusal>,
    ) -> Result<Option<Refusal>, AllocError>
        ensures ok { IfOk result (λ refused. (at : ℕ) → with_refusal at refused self.new ≡ record self.old {
          wire = self.old.wire ++ sent_by answer.now;
          lines = self.old.lines ++ note_of node at (length self.old.wire) answer.now;
        }) }
    {
        match answer {
            Ok(outcome) => {
                self.take_outcome(alloc, node, outcome)?;
                Ok(None)
            }
            Err(refusal) => Ok(Some(*refusal)),
        }
    }

    /// What an outcome puts on the wire and into the report.
    fn take_outcome(
        &mut self,
        alloc: Global,
        node: NodeId,
        outcome: &Outcome,
    ) -> Result<(), AllocError>
        ensures ok { OnOk result ((at : ℕ) → self.new ≡ record self.old {
          wire = self.old.wire ++ sent_by (Ok outcome.now);
          lines = self.old.lines ++ note_of node at (length self.old.wire) (Ok outcome.now);
        }) }
    {
        match outcome {
            Outcome::Quiet => Ok(()),
            Outcome::Left(message) => self.carry(message),
            Outcome::Replied(request, reply) => self.note(ReportLine::Ack {
                node,
                request: *request,
                reply: *reply,
            }),
            Outcome::Opened(facts, decided, names) => {
                let bindings = shown(alloc, names)?;
                self.note(ReportLine::Restart {
                    node,
                    facts: *facts,
                    decided: *decided,
                    bindings,
                })
            }
        }
    }

    /// A message joins the wire, and the report tells of it.
    fn carry(&mut self, message: &Message) -> Result<(), AllocError>
        ensures ok { OnOk result (self.new ≡ record self.old {
          wire = self.old.wire ++ message.now ∷ [];
          lines = self.old.lines ++ ReportLine.Send (length self.old.wire) message.now ∷ [];
        }) }
    {
        let number = self.wire.len() as u64;
        self.lines.reserve(1)?;
        self.wire.reserve(1)?;
        self.lines.push_reserved(ReportLine::Send {
            number,
            message: *message,
        });
        self.wire.push_reserved(*message);
        Ok(())
    }

    /// The report has one more line.
    fn note(&mut self, line: ReportLine) -> Result<(), AllocError>
        ensures ok { OnOk result (self.new ≡ record self.old { lines = self.old.lines ++ line ∷ [] }) }
    {
        self.lines.push(line)?;
        Ok(())
    }

    /// A node hears the message of this number, but for the line that refuses it.
    fn hear_at(
        &mut self,
        alloc: Global,
        node: NodeId,
        number: u32,
    ) -> Result<Option<Refusal>, AllocError>
        ensures ok { IfOk result (λ refused. (at : ℕ)
            → Steps at (told_at node (Input.Hear number)) self.old (with_refusal at refused self.new)) }
        ensures spelt { IfOk result (λ refused. (at : ℕ)
            → IsSpeltBehind (told_at node (Input.Hear number)) self.old (with_refusal at refused self.new)) }
    {
        match self.wire.get(number as usize) {
            Some(message) if message.to == node => match self.refusal_at(node) {
                Some(refusal) => Ok(Some(refusal)),
                None => {
                    let event = NodeEvent::Told(Input::Hear(*message));
                    self.at_node(alloc, node, &event)
                }
            },
            _ => Ok(None),
        }
    }

    /// A node is told an input that is no message, but for the line that refuses it.
    fn tell_at(
        &mut self,
        alloc: Global,
        node: NodeId,
        input: &Input<u32>,
    ) -> Result<Option<Refusal>, AllocError>
        requires { HearsNothing input.now }
        ensures ok { IfOk result (λ refused. (at : ℕ)
            → Steps at (told_at node input.now) self.old (with_refusal at refused self.new)) }
        ensures spelt { IfOk result (λ refused. (at : ℕ)
            → IsSpeltBehind (told_at node input.now) self.old (with_refusal at refused self.new)) }
    {
        match self.refusal_at(node) {
            Some(refusal) => Ok(Some(refusal)),
            None => {
                let event = NodeEvent::Told(input.unheard());
                self.at_node(alloc, node, &event)
            }
        }
    }

    fn crash_at(&mut self, node: NodeId, cut_first: u32, cut_second: u32, fill: &[u8])
        ensures crash { self.new ≡ crash_at node cut_first cut_second fill.now self.old }
        ensures spelt { IsSpeltAt node self.new }
    {
        let at = usize::from(node.index());
        if at < self.seats.len() {
            let seat = &mut self.seats[at];
            seat.crash(cut_first, cut_second, fill);
        }
    }

    /// What the event of a line does, memory aside. It fails only where the wire or the report can't grow.
    pub fn step(&mut self, alloc: Global, line: u64, event: &Event) -> Result<(), AllocError>
        ensures ok { OnOk result (Steps line event.now self.old self.new) }
        ensures spelt { OnOk result (IsSpeltBehind event.now self.old self.new) }
    {
        match self.take(alloc, event)? {
            None => Ok(()),
            Some(refusal) => self.refuse(line, refusal),
        }
    }

    /// What an event does, memory aside, but for the line that refuses it.
    fn take(&mut self, alloc: Global, event: &Event) -> Result<Option<Refusal>, AllocError>
        ensures ok { IfOk result (λ refused. (at : ℕ) → Steps at event.now self.old (with_refusal at refused self.new)) }
        ensures spelt { IfOk result (λ refused. (at : ℕ) → IsSpeltBehind event.now self.old (with_refusal at refused self.new)) }
    {
        let node = event.node;
        match &event.what {
            Happening::At(NodeEvent::Told(Input::Hear(number))) => {
                self.hear_at(alloc, node, *number)
            }
            Happening::At(NodeEvent::Told(input)) => self.tell_at(alloc, node, input),
            Happening::At(event) => self.act_at(alloc, node, act_of(event)),
            Happening::Fail(fill) => self.fail_at(alloc, node, fill.as_bytes()),
            Happening::Crash { cut_0, cut_1, fill } => {
                self.crash_at(node, *cut_0, *cut_1, fill.as_bytes());
                Ok(None)
            }
        }
    }

    /// What the event of a line does, memory aside. The lines that the report then has are appended to a text, and kept no
    /// longer. It fails only where the wire, the report or the text can't grow.
    pub(crate) fn step_told(
        &mut self,
        alloc: Global,
        line: u64,
        event: &Event,
        text: &mut Vec<u8>,
    ) -> Result<(), AllocError>
        ensures ok { OnOk result (TellsOne line event.now self.old self.new text.old.items text.new.items) }
    {
        let refused = self.take(alloc, event)?;
        self.tell(text)?;
        match refused {
            None => Ok(()),
            Some(refusal) => push_refusal(text, line, refusal),
        }
    }

    /// The refusal of each event of a node but a restart and a device call, where the node isn't up.
    fn refusal_at(&self, node: NodeId) -> Option<Refusal>
        ensures refused { IfSome result (λ e. (at : ℕ) (event : NodeEvent Message) → event ≢ NodeEvent.Restart → event ≢ NodeEvent.Device
            → at_node node at false event self.now ≡ record self.now { lines = self.now.lines ++ note_of node at 0 (Err e) }) }
        ensures spelt { IfSome result (λ _. IsSpeltAt node self.now) }
    {
        match self.node(node) {
            Some(seat) => seat.refusal(),
            None => None,
        }
    }

    /// The event of a line is refused.
    fn refuse(&mut self, line: u64, refusal: Refusal) -> Result<(), AllocError>
        ensures ok { OnOk result (self.new ≡ record self.old { lines = self.old.lines ++ note_of 0 line 0 (Err refusal) }) }
    {
        self.lines.push(ReportLine::Refuse { line, refusal })?;
        Ok(())
    }

    /// What the event of a line does where memory suffices. It fails also where the answer tells that memory ran out. A
    /// failing device call answers the same in both cases.
    #[tactic(auto, using(crate::proofs::WantLaws::failing_in_memory))]
    pub fn step_in_memory(
        &mut self,
        alloc: Global,
        line: u64,
        event: &Event,
    ) -> Result<(), AllocError>
        ensures ok { OnOk result (StepsInMemory line event.now self.old self.new) }
        ensures spelt { OnOk result (IsSpeltBehind event.now self.old self.new) }
    {
        let told = self.count_of_lines();
        self.step(alloc, line, event)?;
        if is_failing(event) {
            return Ok(());
        }
        if self.tells_of_want(told) {
            return Err(AllocError);
        }
        Ok(())
    }

    fn count_of_lines(&self) -> usize
        ensures { result ≡ length self.now.lines }
    {
        self.lines.len()
    }

    /// Whether the line of this number refuses an event because memory ran out or the device failed.
    fn tells_of_want(&self, number: usize) -> bool
        ensures { IsTrue result ↔ TellsOfWant self.now.lines number }
    {
        matches!(
            self.lines.get(number),
            Some(ReportLine::Refuse {
                refusal: Refusal::OutOfMemory | Refusal::Device,
                ..
            })
        )
    }
}
