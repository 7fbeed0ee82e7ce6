//! The nodes of a tape and their wire, and what each event does to them.

ghost use Rattle.std.specs.Prelude.{◌≡◌, ◌++◌, [], map, option_map, slice_get, OnOk, IfOk};
ghost use Rattle.std.specs.List.{range_with_len};
ghost use Rattle.rr_model.specs.NodeStep.{started};
ghost use Rattle.rr_audit.specs.Audits.{sent_by, new_replay};
ghost use Rattle.rr_audit.specs.Following.{Steps};

use crate::given::Given;
use crate::replay_node::ReplayNode;
use rr_frame::MessageLog;
use rr_text::{Recorded, TapeEvent};
use rr_types::{NodeId, Nodes, Refusal};
use std::alloc::{AllocError, Global};
use std::marker::Model;

/// The nodes of a tape, all up, by their numbers, and all messages ever sent.
#[derive(Drop)]
pub struct Replay {
    nodes: Vec<ReplayNode>,
    wire: MessageLog,
}

impl Model for Replay {
    ghost use Rattle.rr_audit.specs.Audits as audit;

    ghost Value = { audit.Replay };

    ghost view = { λ r. record { nodes = r.nodes.items; wire = r.wire } };
}

// All nodes, each over no facts.
fn all_nodes(alloc: Global, nodes: Nodes) -> Result<Vec<ReplayNode>, AllocError>
    ensures ok { IfOk result (λ v. v.items ≡ map (λ p. started nodes p [] 0) (range_with_len 0 nodes)) }
{
    let mut all = Vec::new(alloc);
    for index in 0..nodes.count() {
        match NodeId::new(nodes, index) {
            None => unreachable!(),
            Some(node) => all.push(ReplayNode::new(alloc, nodes, node)?)?,
        }
    }
    Ok(all)
}

impl Replay {
    /// A replay of `nodes` nodes, all up and without facts, with nothing sent.
    pub fn new(alloc: Global, nodes: Nodes) -> Result<Replay, AllocError>
        ensures ok { IfOk result (λ r. r ≡ new_replay nodes) }
    {
        Ok(Replay {
            nodes: all_nodes(alloc, nodes)?,
            wire: MessageLog::new(alloc),
        })
    }

    /// The node of this number; `None` where there is no such node.
    pub fn node(&self, node: NodeId) -> Option<&ReplayNode>
        ensures { option_map (λ n. n.now) result ≡ slice_get self.now.nodes node }
    {
        self.nodes.get(usize::from(node.index()))
    }

    // A message that was sent joins the wire.
    fn carry(&mut self, event: &TapeEvent) -> Result<(), AllocError>
        ensures ok { OnOk result (self.new ≡ record self.old { wire = self.old.wire ++ sent_by event.now }) }
    {
        match &event.what {
            Recorded::Sent { message, .. } => self.wire.push(message)?,
            _ => (),
        }
        Ok(())
    }

    /// An event of a tape: `None` where the world gives it next, and then it has happened; else what is given instead.
    ///
    /// # Errors
    /// `OutOfMemory`.
    pub fn step(&mut self, event: &TapeEvent) -> Result<Option<Given>, Refusal>
        ensures { Steps event.now self.old self.new result }
    {
        let at = usize::from(event.node.index());
        if at >= self.nodes.len() {
            return Ok(Some(Given::NoNode));
        }
        let node = &mut self.nodes[at];
        if let Some(given) = node.follow(&self.wire, event)? {
            return Ok(Some(given));
        }
        self.carry(event)?;
        Ok(None)
    }
}
