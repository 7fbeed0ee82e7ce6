//! Events with a fault.

ghost use Rattle.std.specs.Prelude.{◌≡◌};

use crate::random_run::RandomRun;
use crate::stances::{Kind, first_from, node_at};
use rr_sim::Cluster;
use rr_text::{Event, Fill, Happening};
use rr_types::{Input, NodeEvent, NodeId, NodeSet};
use std::alloc::{AllocError, Global};

/// A fault.
#[derive(Clone, Copy)]
enum Fault {
    Crash,
    Fail,
    Lose,
    Suspect,
    Advance,
    Tick,
    Snap,
    Restart,
    Refused,
}

/// The fault of a kind from 0 to 63.
fn fault_of(kind: u32) -> Fault {
    match kind {
        0..=1 => Fault::Crash,
        2..=3 => Fault::Fail,
        4..=11 => Fault::Lose,
        12..=14 => Fault::Suspect,
        15 => Fault::Advance,
        16 => Fault::Tick,
        17..=31 => Fault::Snap,
        32..=47 => Fault::Restart,
        _ => Fault::Refused,
    }
}

/// The stance of the node that a fault is at.
fn kind_of(fault: Fault) -> Kind {
    match fault {
        Fault::Crash | Fault::Fail => Kind::Calling,
        Fault::Lose | Fault::Suspect | Fault::Advance | Fault::Tick => Kind::Up,
        Fault::Snap => Kind::Resting,
        Fault::Restart => Kind::Running,
        Fault::Refused => Kind::NotUp,
    }
}

/// Where both areas are cut by a crash.
fn cut_of(detail: u32) -> u32 {
    match detail / 256 % 4 {
        0 => 0,
        1 => u32::MAX,
        _ => detail / 1024 % 4096,
    }
}

/// A fill of one byte.
fn fill_of(alloc: Global, detail: u32) -> Result<Fill, AllocError> {
    Ok(Fill::new(Vec::from_slice(alloc, &[(detail % 256) as u8])?))
}

impl RandomRun {
    /// An event with a fault, at the first node for it, counted from this one on. `None` where there is no such event,
    /// or where a message is lost.
    pub(crate) fn fault(
        &mut self,
        alloc: Global,
        cluster: &Cluster,
        from: NodeId,
        word: u32,
    ) -> Result<Option<Event>, AllocError> {
        let fault = fault_of(word % 64);
        let detail = word / 64;
        let Some(node) = first_from(self.nodes, cluster, from, kind_of(fault)) else {
            return Ok(None);
        };
        Ok(match fault {
            Fault::Crash => Some(Event {
                node,
                what: Happening::Crash {
                    cut_0: cut_of(detail),
                    cut_1: cut_of(detail),
                    fill: fill_of(alloc, detail)?,
                },
            }),
            Fault::Fail => Some(Event {
                node,
                what: Happening::Fail(fill_of(alloc, detail)?),
            }),
            Fault::Lose => self.lose(node, detail),
            Fault::Suspect => Some(self.suspect(node, detail)),
            Fault::Advance => self.advance(node),
            Fault::Tick => Some(self.tick(node)),
            Fault::Snap => Some(Event::at(node, NodeEvent::Snap)),
            Fault::Restart => Some(Event::at(node, NodeEvent::Restart)),
            Fault::Refused => Some(Event::told(node, Input::Tick)),
        })
    }

    /// A message for a node is lost.
    fn lose(&mut self, node: NodeId, detail: u32) -> Option<Event> {
        if let Some(memory) = self.memories.get_mut(usize::from(node.index())) {
            memory.lose(detail);
        }
        None
    }

    /// An input came to a node.
    fn stir_at(&mut self, node: NodeId, suspects: bool) {
        if let Some(memory) = self.memories.get_mut(usize::from(node.index())) {
            memory.stir();
            memory.suspects = memory.suspects || suspects;
        }
    }

    /// Whether a node coordinates the first round of each instance, and isn't the only one.
    fn leads(&self, node: NodeId) -> bool {
        self.nodes.count() > 1 && node.index() == 1
    }

    /// A node suspects one that doesn't coordinate first rounds, where there are several.
    fn suspect(&mut self, node: NodeId, detail: u32) -> Event {
        let drawn = node_at(self.nodes, detail);
        let suspected = if self.leads(drawn) {
            node_at(self.nodes, 0)
        } else {
            drawn
        };
        self.stir_at(node, true);
        Event::told(node, Input::Suspect(NodeSet::empty().with(suspected)))
    }

    /// A node that doesn't coordinate first rounds enters the next round.
    fn advance(&mut self, node: NodeId) -> Option<Event> {
        if self.leads(node) {
            return None;
        }
        self.stir_at(node, false);
        Some(Event::told(node, Input::Advance))
    }

    /// The heartbeat detector of a node ticks.
    pub(crate) fn tick(&mut self, node: NodeId) -> Event {
        self.stir_at(node, false);
        Event::told(node, Input::Tick)
    }
}
