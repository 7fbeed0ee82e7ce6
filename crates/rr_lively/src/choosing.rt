//! What a node that is up does next.

ghost use Rattle.std.specs.Prelude.{◌≡◌};

use crate::memory::Memory;
use crate::random_run::RandomRun;
use crate::stances::{Kind, node_at, stance_of};
use rr_sim::{Cluster, Stance};
use rr_text::{Event, EventKind};
use rr_types::{Input, NodeEvent, NodeId, NodeSet};
use std::alloc::AllocError;

/// How many requests may be undecided before clients ask for no more.
const UNDECIDED: usize = 16;

/// A weight, or none where the choice isn't there.
fn weight(may: bool, weight: u32) -> u32 {
    if may { weight } else { 0 }
}

/// The choice that a word falls on, by the weights; none where there is no weight.
fn chosen(choices: &[(EventKind, u32); 9], word: u32) -> Option<EventKind> {
    let mut sum = 0u32;
    for (_, weight) in choices {
        sum = sum.saturating_add(*weight);
    }
    if sum == 0 {
        return None;
    }
    let mut left = word % sum;
    for (choice, weight) in choices {
        if left < *weight {
            return Some(*choice);
        }
        left -= *weight;
    }
    None
}

impl RandomRun {
    /// What a node that is up does next, by weights, if there is something.
    pub(crate) fn choose(
        &mut self,
        cluster: &Cluster,
        node: NodeId,
        stance: Stance,
        word: u32,
    ) -> Result<Option<Event>, AllocError> {
        let choices = match self.memories.get(usize::from(node.index())) {
            Some(memory) => self.choices(memory, stance, !self.is_busy(cluster), word / 256),
            None => return Ok(None),
        };
        match chosen(&choices, word) {
            Some(choice) => self.event_of(cluster, node, choice, word / 256),
            None => Ok(None),
        }
    }

    /// What a node may do, with the weights.
    fn choices(
        &self,
        memory: &Memory,
        stance: Stance,
        is_calm: bool,
        detail: u32,
    ) -> [(EventKind, u32); 9] {
        let takes = is_calm || detail % 1024 == 0;
        let may_take = takes && stance == Stance::Resting && memory.may_take;
        let may_tick = is_calm && detail % 16 == 0 && memory.lags(self.prefix);
        // Found by trial: with these weights seven nodes decided a command in 118 steps in the mean, over 1,500 seeds.
        [
            (EventKind::Hear, weight(memory.may_hear(), 32)),
            (EventKind::Send, weight(memory.may_send, 32)),
            (EventKind::Device, weight(stance == Stance::Calling, 32)),
            (EventKind::Mark, weight(stance == Stance::Flushed, 32)),
            (EventKind::Ack, weight(memory.may_ack, 16)),
            (EventKind::Take, weight(may_take, 4)),
            (EventKind::Submit, weight(self.may_submit(), 16)),
            (EventKind::Suspect, weight(memory.suspects, 8)),
            (EventKind::Tick, weight(may_tick, 8)),
        ]
    }

    /// Whether clients may ask for a new command.
    fn may_submit(&self) -> bool {
        let mut undecided = self.decided_behind();
        for memory in &self.memories {
            undecided = undecided.saturating_add(memory.asked());
        }
        undecided < UNDECIDED
    }

    /// Whether some node that is up has something to hear or maybe to send.
    fn is_busy(&self, cluster: &Cluster) -> bool {
        let mut number = 0u32;
        for memory in &self.memories {
            let stance = stance_of(cluster, node_at(self.nodes, number));
            if Kind::Up.has(stance) && (memory.may_send || memory.may_hear()) {
                return true;
            }
            number = number.saturating_add(1);
        }
        false
    }

    /// The event of a choice.
    fn event_of(
        &mut self,
        cluster: &Cluster,
        node: NodeId,
        choice: EventKind,
        detail: u32,
    ) -> Result<Option<Event>, AllocError> {
        match choice {
            EventKind::Hear => self.hear(cluster, node, detail),
            EventKind::Send => Ok(Some(Event::at(node, NodeEvent::Send))),
            EventKind::Device => Ok(Some(Event::at(node, NodeEvent::Device))),
            EventKind::Mark => {
                self.mark(cluster, node)?;
                Ok(Some(Event::at(node, NodeEvent::Mark)))
            }
            EventKind::Ack => Ok(Some(Event::at(node, NodeEvent::Acknowledge))),
            EventKind::Take => Ok(Some(Event::at(node, NodeEvent::Take))),
            EventKind::Submit => {
                let event = self.submit(node, detail)?;
                Ok(Some(event))
            }
            EventKind::Suspect => Ok(Some(self.trust(node))),
            EventKind::Tick => Ok(Some(self.tick(node))),
            // The others have no weight.
            _ => Ok(None),
        }
    }

    /// A node hears a message.
    fn hear(
        &mut self,
        cluster: &Cluster,
        node: NodeId,
        detail: u32,
    ) -> Result<Option<Event>, AllocError> {
        let Some(memory) = self.memories.get_mut(usize::from(node.index())) else {
            return Ok(None);
        };
        let Some(number) = memory.next_heard(detail)? else {
            return Ok(None);
        };
        memory.may_take = true;
        if let Some(message) = cluster.wire().get(number as usize) {
            memory.hear(message)?;
        }
        Ok(Some(Event::told(node, Input::Hear(number))))
    }

    /// A node suspects nobody any more.
    fn trust(&mut self, node: NodeId) -> Event {
        if let Some(memory) = self.memories.get_mut(usize::from(node.index())) {
            memory.stir();
            memory.suspects = false;
        }
        Event::told(node, Input::Suspect(NodeSet::empty()))
    }
}
