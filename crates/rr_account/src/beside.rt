//! Nodes beside a run. Each is told what its node is told, and flushes at once: so one sees which facts an event stages. What is
//! decided doesn't hang on when a fact is synced: only messages, replies and openings wait for that.

ghost use Rattle.std.specs.Prelude.{◌≡◌, IfErr};

use crate::reasons::Reason;
use rr_node::{Node, Outcome, Stance};
use rr_sim::Cluster;
use rr_text::{Event, Happening};
use rr_types::{Fact, Input, Message, NodeEvent, Nodes, Refusal};
use std::alloc::Global;

/// More groups than an event stages, and more calls than an opening makes.
const MANY: u32 = 64;

// Opens a node that is down.
fn open(alloc: Global, node: &mut Node) -> Result<(), Refusal> {
    node.step(alloc, &NodeEvent::Restart)?;
    for _ in 0..MANY {
        if let Outcome::Opened(_, _, _) = node.step(alloc, &NodeEvent::Device)? {
            return Ok(());
        }
    }
    Ok(())
}

// Flushes a group of staged facts, if any are. Tells whether there were some, and whether one decides an instance.
fn flush(alloc: Global, node: &mut Node) -> Result<(bool, bool), Refusal> {
    node.step(alloc, &NodeEvent::Take)?;
    if !matches!(node.stance(), Stance::Calling) {
        return Ok((false, false));
    }
    for _ in 0..MANY {
        if !matches!(node.stance(), Stance::Calling) {
            break;
        }
        node.step(alloc, &NodeEvent::Device)?;
    }
    let mut decides = false;
    for fact in node.synced() {
        if let Fact::Decide(_, _) = fact {
            decides = true;
        }
    }
    node.step(alloc, &NodeEvent::Mark)?;
    Ok((true, decides))
}

// Tells a node an input. Whether it stages a decision.
fn tell(alloc: Global, node: &mut Node, input: Input<Message>) -> Result<bool, Refusal> {
    node.step(alloc, &NodeEvent::Told(input))?;
    let mut decides = false;
    for _ in 0..MANY {
        let (has_flushed, has_decided) = flush(alloc, node)?;
        if !has_flushed {
            break;
        }
        decides = decides || has_decided;
    }
    Ok(decides)
}

// A refusal other than of memory comes to nothing here: the node beside stages nothing then.
fn unless_in_want<T: Drop>(answer: Result<T, Refusal>, other: T) -> Result<T, Refusal>
    ensures { IfErr result (λ e. e ≡ Refusal.OutOfMemory) }
{
    match answer {
        Ok(value) => Ok(value),
        Err(Refusal::OutOfMemory) => Err(Refusal::OutOfMemory),
        Err(_) => Ok(other),
    }
}

// The input of an event that is told, by the messages that were sent.
fn told_by(input: &Input<u32>, wire: &[Message]) -> Option<Input<Message>> {
    match input {
        Input::Hear(number) => match wire.get(*number as usize) {
            Some(message) => Some(Input::Hear(*message)),
            None => None,
        },
        _ => Some(input.unheard()),
    }
}

// The node beside another that has just opened: it opens over a copy of its disk.
fn beside(alloc: Global, node: &Node) -> Result<Node, Refusal>
    ensures { IfErr result (λ e. e ≡ Refusal.OutOfMemory) }
{
    let mut copy = node.after_crash(alloc, u32::MAX, u32::MAX, &[])?;
    let opened = open(alloc, &mut copy);
    unless_in_want(opened, ())?;
    Ok(copy)
}

/// A run, and the nodes beside it by their numbers. On a tape nothing runs: all nodes are up from the beginning.
#[derive(Drop)]
pub(crate) struct Besides {
    run: Option<Cluster>,
    nodes: Vec<Node>,
}

impl Besides {
    /// The nodes beside a run before its first event, all down.
    pub(crate) fn of_run(alloc: Global, nodes: Nodes) -> Result<Besides, Refusal>
        ensures { IfErr result (λ e. e ≡ Refusal.OutOfMemory) }
    {
        Ok(Besides {
            run: Some(Cluster::new(alloc, nodes)?),
            nodes: Cluster::new(alloc, nodes)?.into_nodes(),
        })
    }

    /// The nodes beside a tape, all up.
    pub(crate) fn of_tape(alloc: Global, nodes: Nodes) -> Result<Besides, Refusal>
        ensures { IfErr result (λ e. e ≡ Refusal.OutOfMemory) }
    {
        let mut all = Cluster::new(alloc, nodes)?.into_nodes();
        for node in all.as_mut_slice() {
            let opened = open(alloc, node);
            unless_in_want(opened, ())?;
        }
        Ok(Besides {
            run: None,
            nodes: all,
        })
    }

    // The run goes on by the event of a line.
    fn step(&mut self, alloc: Global, line: u64, event: &Event) -> Result<(), Refusal>
        ensures { IfErr result (λ e. e ≡ Refusal.OutOfMemory) }
    {
        if let Some(run) = &mut self.run {
            run.step(alloc, line, event)?;
            run.forget_lines();
        }
        Ok(())
    }

    // The node of an event has opened.
    fn reopen(&mut self, alloc: Global, event: &Event) -> Result<(), Refusal>
        ensures { IfErr result (λ e. e ≡ Refusal.OutOfMemory) }
    {
        let at = usize::from(event.node.index());
        if let Some(run) = &self.run {
            if let Some(node) = run.node(event.node) {
                let copy = beside(alloc, node)?;
                if at < self.nodes.len() {
                    self.nodes[at] = copy;
                }
            }
        }
        Ok(())
    }

    // The node beside that of an event is told an input. Whether it stages a decision.
    fn tell(
        &mut self,
        alloc: Global,
        event: &Event,
        input: &Input<u32>,
        wire: &[Message],
    ) -> Result<bool, Refusal>
        ensures { IfErr result (λ e. e ≡ Refusal.OutOfMemory) }
    {
        let at = usize::from(event.node.index());
        if at >= self.nodes.len() {
            return Ok(false);
        }
        let Some(input) = told_by(input, wire) else {
            return Ok(false);
        };
        let decides = tell(alloc, &mut self.nodes[at], input);
        unless_in_want(decides, false)
    }

    /// The event of a line, of which this is said, where these messages are sent in the run. Whether its node stages a decision.
    pub(crate) fn go_on(
        &mut self,
        alloc: Global,
        line: u64,
        event: &Event,
        reason: Reason,
        wire: &[Message],
    ) -> Result<bool, Refusal>
        ensures { IfErr result (λ e. e ≡ Refusal.OutOfMemory) }
    {
        self.step(alloc, line, event)?;
        match &event.what {
            Happening::At(NodeEvent::Told(input)) if reason.is_done() => {
                self.tell(alloc, event, input, wire)
            }
            Happening::At(NodeEvent::Device) if reason.is_told() => {
                self.reopen(alloc, event)?;
                Ok(false)
            }
            _ => Ok(false),
        }
    }
}
