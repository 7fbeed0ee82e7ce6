//! The plan of a finish: which event comes next, by what is known of the nodes.

ghost use Rattle.std.specs.Prelude.{◌≡◌};

use crate::finish::Ending;
use crate::known::Known;
use rr_sim::{Cluster, Stance};
use rr_text::{Event, Happening, ReportLine};
use rr_types::{Body, Fact, Input, Message, NodeEvent, NodeId, Nodes};
use std::alloc::{AllocError, Global};

/// In how many turns nothing may be decided or acknowledged before the run is taken for stuck. With all nodes up, a decision
/// takes at most a turn for each node and a few more.
const IDLE_TURNS: u32 = 64;

/// What is known of a run, and what is planned.
#[derive(Drop)]
pub(crate) struct Plan {
    nodes: Nodes,
    known: Vec<Known>,
    /// Whether the schedule was read, and events are added.
    is_begun: bool,
    /// Whether the nodes have ticked in this turn.
    is_ticked: bool,
    /// In how many turns nothing was decided or acknowledged.
    idle_turns: u32,
}

impl Plan {
    /// Nothing has happened.
    pub(crate) fn new(alloc: Global, nodes: Nodes) -> Result<Plan, AllocError> {
        let mut known = Vec::new(alloc);
        for _node in 0..nodes.count() {
            known.push(Known::new(alloc))?;
        }
        Ok(Plan {
            nodes,
            known,
            is_begun: false,
            is_ticked: false,
            idle_turns: 0,
        })
    }

    /// The schedule was read: what is sent from now on is to be heard.
    pub(crate) fn begin(&mut self) {
        self.is_begun = true;
    }

    /// How far the run is finished, where no event is next.
    pub(crate) fn ending(&self) -> Ending {
        if self.has_left() {
            Ending::Stuck
        } else {
            Ending::Finished
        }
    }

    /// Whether nodes have something left, as far as it is known.
    fn has_left(&self) -> bool {
        for known in &self.known {
            if known.has_left() {
                return true;
            }
        }
        false
    }

    /// An event is about to happen: a mark may decide instances.
    pub(crate) fn foresee(&mut self, cluster: &Cluster, event: &Event) -> Result<(), AllocError> {
        if !matches!(event.what, Happening::At(NodeEvent::Mark)) {
            return Ok(());
        }
        let (Some(seat), Some(known)) = (
            cluster.node(event.node),
            self.known.get_mut(usize::from(event.node.index())),
        ) else {
            return Ok(());
        };
        for fact in seat.synced() {
            if let Fact::Decide(instance, _) = fact {
                if known.decide(instance.number())? {
                    self.idle_turns = 0;
                }
            }
        }
        Ok(())
    }

    /// An event has happened. The cluster's lines are what is told of it.
    pub(crate) fn learn(&mut self, cluster: &Cluster, event: &Event) -> Result<(), AllocError> {
        let is_told = !cluster.lines().is_empty();
        for line in cluster.lines() {
            self.learn_line(line)?;
        }
        let node = event.node;
        let stance = stance_of(cluster, node);
        let Some(known) = self.known.get_mut(usize::from(node.index())) else {
            return Ok(());
        };
        match &event.what {
            Happening::At(NodeEvent::Told(Input::Submit(command))) if !is_told => {
                known.ask(command.request)?
            }
            Happening::At(NodeEvent::Told(Input::Suspect(set))) if !is_told => known.suspect(*set),
            Happening::At(NodeEvent::Told(Input::Hear(message))) => {
                if let Some(message) = cluster.wire().get(*message as usize) {
                    if let Body::Suspects(set) = message.body {
                        known.suspect_too(set);
                    }
                }
            }
            _ => (),
        }
        known.learn(&event.what, stance, is_told);
        if matches!(stance, Stance::Down | Stance::Failed | Stance::Opening) {
            known.stop();
        }
        Ok(())
    }

    /// What a line tells: a message that was sent, or a request that was acknowledged.
    fn learn_line(&mut self, line: &ReportLine) -> Result<(), AllocError> {
        match line {
            // A schedule has at most a million events, and each sends at most one message.
            ReportLine::Send { number, message } => {
                self.carry((*number).min(4_294_967_295) as u32, message)
            }
            ReportLine::Ack { node, request, .. } => {
                self.idle_turns = 0;
                if let Some(known) = self.known.get_mut(usize::from(node.index())) {
                    known.acknowledge(*request);
                }
                Ok(())
            }
            ReportLine::Restart { .. } | ReportLine::Refuse { .. } => Ok(()),
        }
    }

    /// A message was sent.
    fn carry(&mut self, number: u32, message: &Message) -> Result<(), AllocError> {
        if let Some(known) = self.known.get_mut(usize::from(message.from.index())) {
            known.tell(&message.body)?;
            if self.is_begun && matches!(message.body, Body::Ask(_)) {
                known.catch_up()?;
            }
        }
        match self.known.get_mut(usize::from(message.to.index())) {
            Some(known) => known.expect(number, &message.body, self.is_begun),
            None => Ok(()),
        }
    }

    /// The next event. `None` where nothing is left to do, or where the run is taken for stuck.
    pub(crate) fn next_event(&mut self, cluster: &Cluster) -> Result<Option<Event>, AllocError> {
        // A half of a turn may have nothing to do.
        for _half in 0..2 * IDLE_TURNS + 4 {
            let event = self.event_of_some(cluster)?;
            if event.is_some() {
                return Ok(event);
            }
            if self.idle_turns > IDLE_TURNS || !self.has_left() {
                return Ok(None);
            }
            self.go_on();
        }
        Ok(None)
    }

    /// The next event of the first node that has something to do.
    fn event_of_some(&mut self, cluster: &Cluster) -> Result<Option<Event>, AllocError> {
        let mut index = 0u8;
        for known in &mut self.known {
            if let Some(node) = NodeId::new(self.nodes, index) {
                let stance = stance_of(cluster, node);
                let event = known.next_event(node, stance, cluster.wire())?;
                if event.is_some() {
                    return Ok(event);
                }
            }
            index = index.saturating_add(1);
        }
        Ok(None)
    }

    /// Nobody has anything to do, and something is left. A turn has two halves: the nodes tick, so that they say again what
    /// they still have; and those whose round is behind go on to the last one, or else all go on to the next.
    fn go_on(&mut self) {
        if self.is_ticked {
            self.is_ticked = false;
            self.plan_advances();
        } else {
            self.is_ticked = true;
            self.idle_turns = self.idle_turns.saturating_add(1);
            for known in &mut self.known {
                known.plan_tick();
            }
        }
    }

    /// The nodes whose lowest instance is the lowest of all go on to its last round, or if all are there, to the next one.
    fn plan_advances(&mut self) {
        let Some((instance, last)) = self.last_round() else {
            return;
        };
        let is_one_behind = self.is_one_behind(instance, last);
        for known in &mut self.known {
            if let Some((own, round)) = known.lowest() {
                if own == instance {
                    let rounds = if is_one_behind {
                        last.saturating_sub(round)
                    } else {
                        1
                    };
                    known.plan_advances(rounds);
                }
            }
        }
    }

    /// The lowest instance that some node has left, and the last of the rounds in which nodes have it.
    fn last_round(&self) -> Option<(u32, u32)> {
        let mut lowest: Option<(u32, u32)> = None;
        for known in &self.known {
            if let Some((instance, round)) = known.lowest() {
                lowest = match lowest {
                    Some((least, last)) if least < instance => Some((least, last)),
                    Some((least, last)) if least == instance => Some((least, last.max(round))),
                    _ => Some((instance, round)),
                };
            }
        }
        lowest
    }

    /// Whether a node whose lowest instance this is has it in an earlier round.
    fn is_one_behind(&self, instance: u32, last: u32) -> bool {
        for known in &self.known {
            if let Some((own, round)) = known.lowest() {
                if own == instance && round < last {
                    return true;
                }
            }
        }
        false
    }
}

/// What a node waits for; one that isn't there is down.
fn stance_of(cluster: &Cluster, node: NodeId) -> Stance {
    match cluster.node(node) {
        Some(seat) => seat.stance(),
        None => Stance::Down,
    }
}
