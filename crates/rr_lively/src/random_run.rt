//! The drawing of events: what is remembered of the run, and what the next event is.

ghost use Rattle.std.specs.Prelude.{◌≡◌};

use crate::memory::Memory;
use crate::stances::{Kind, count_of, first_from, node_at, node_behind, stance_of};
use rr_sim::{Cluster, Stance};
use rr_text::{Event, Happening};
use rr_types::{Command, Fact, Input, Name, NodeEvent, NodeId, Nodes, Op, RequestNo, Value};
use std::alloc::{AllocError, Global};
use std::collections::BTreeSet;

/// What is remembered of a random run: of each node, and of what clients asked.
#[derive(Drop)]
pub(crate) struct RandomRun {
    pub(crate) nodes: Nodes,
    pub(crate) memories: Vec<Memory>,
    /// The instances that some node has decided, and how many of them there are from 0 on without a gap.
    decided: BTreeSet<u32>,
    pub(crate) prefix: u64,
    /// How many requests were made.
    requests: u64,
    /// How often nobody had anything to do.
    quiet: u32,
}

impl RandomRun {
    /// Nothing was drawn yet.
    pub(crate) fn new(alloc: Global, nodes: Nodes) -> Result<RandomRun, AllocError> {
        let mut memories = Vec::new(alloc);
        for _node in 0..nodes.count() {
            memories.push(Memory::new(alloc))?;
        }
        Ok(RandomRun {
            nodes,
            memories,
            decided: BTreeSet::new(alloc),
            prefix: 0,
            requests: 0,
            quiet: 0,
        })
    }

    /// What came of an event: whether it stands in the schedule. Else it has changed nothing.
    pub(crate) fn learn(
        &mut self,
        cluster: &Cluster,
        event: &Event,
        is_kept: bool,
    ) -> Result<(), AllocError> {
        let node = event.node;
        if let Some(memory) = self.memories.get_mut(usize::from(node.index())) {
            match event.what {
                Happening::At(NodeEvent::Send) => memory.may_send = is_kept,
                Happening::At(NodeEvent::Acknowledge) => memory.may_ack = is_kept,
                Happening::At(NodeEvent::Take) => memory.may_take = is_kept,
                _ => (),
            }
            if Kind::NotUp.has(stance_of(cluster, node)) {
                memory.stop()?;
            }
        }
        if is_kept && matches!(event.what, Happening::At(NodeEvent::Send)) {
            self.carry_last(cluster)?;
        }
        Ok(())
    }

    /// The last message on the wire was sent, and may be heard from now on.
    fn carry_last(&mut self, cluster: &Cluster) -> Result<(), AllocError> {
        let Some(message) = cluster.wire().last() else {
            return Ok(());
        };
        // A schedule has at most a million events, and each sends at most one message.
        let number = (cluster.wire().len() as u64 - 1).min(4_294_967_295) as u32;
        if let Some(memory) = self.memories.get_mut(usize::from(message.from.index())) {
            memory.tell(&message.body)?;
        }
        match self.memories.get_mut(usize::from(message.to.index())) {
            Some(memory) => memory.expect(number, &message.body),
            None => Ok(()),
        }
    }

    /// The next event without a fault: of the first node, counted from this one on, that does something.
    pub(crate) fn plan(
        &mut self,
        cluster: &Cluster,
        from: NodeId,
        word: u32,
    ) -> Result<Event, AllocError> {
        for count in 0..self.nodes.count() {
            let node = node_behind(self.nodes, from, count);
            if let Some(event) = self.act(cluster, node, word)? {
                return Ok(event);
            }
        }
        self.stir(cluster, from, word)
    }

    /// What a node does next, if there is something.
    fn act(
        &mut self,
        cluster: &Cluster,
        node: NodeId,
        word: u32,
    ) -> Result<Option<Event>, AllocError> {
        let stance = stance_of(cluster, node);
        match stance {
            Stance::Down | Stance::Failed => Ok(self.restart(cluster, node, word)),
            Stance::Opening => Ok(Some(Event::at(node, NodeEvent::Device))),
            _ => {
                if let Some(memory) = self.memories.get_mut(usize::from(node.index())) {
                    memory.forget_idle(self.nodes, cluster.wire(), word / 4096);
                }
                self.choose(cluster, node, stance, word)
            }
        }
    }

    /// A node that is down is restarted at times: node 1, or without it node 0, and those that a majority needs, at once.
    fn restart(&self, cluster: &Cluster, node: NodeId, word: u32) -> Option<Event> {
        let nodes = self.nodes;
        let is_first = node.index() == node_at(nodes, 1).index();
        let running = count_of(nodes, cluster, Kind::Running);
        if is_first || running <= u32::from(nodes.count() / 2) || word / 256 % 256 == 0 {
            Some(Event::at(node, NodeEvent::Restart))
        } else {
            None
        }
    }

    /// The synced group of a node is marked.
    pub(crate) fn mark(&mut self, cluster: &Cluster, node: NodeId) -> Result<(), AllocError> {
        let (Some(seat), Some(memory)) = (
            cluster.node(node),
            self.memories.get_mut(usize::from(node.index())),
        ) else {
            return Ok(());
        };
        memory.may_send = true;
        for fact in seat.synced() {
            if let Fact::Decide(instance, _) = fact {
                memory.decide(instance.number())?;
                self.decided.insert(instance.number())?;
            }
        }
        self.settle(seat.synced());
        self.count_prefix();
        Ok(())
    }

    /// The requests of decided commands are no longer undecided.
    fn settle(&mut self, facts: &[Fact]) {
        for fact in facts {
            if let Fact::Decide(_, command) = fact {
                for memory in &mut self.memories {
                    memory.settle(command.request);
                }
            }
        }
    }

    /// How many instances are decided beyond the first that isn't.
    pub(crate) fn decided_behind(&self) -> usize {
        (self.decided.len() as u64).saturating_sub(self.prefix) as usize
    }

    /// Counts the instances that are decided from 0 on.
    fn count_prefix(&mut self) {
        for _instance in 0..self.decided.len() {
            if self.prefix > 4_294_967_295 || !self.decided.contains(&(self.prefix as u32)) {
                return;
            }
            self.prefix += 1;
        }
    }

    /// A client asks a node for a new command, or again for one of the last eight.
    pub(crate) fn submit(&mut self, node: NodeId, detail: u32) -> Result<Event, AllocError> {
        let is_again = detail % 8 == 0 && self.requests > 0;
        let number = if is_again {
            let back = u64::from(detail / 8) % self.requests.min(8);
            self.requests.saturating_sub(1).saturating_sub(back)
        } else {
            let number = self.requests;
            self.requests = number.saturating_add(1);
            number
        };
        let command = command_of(number);
        if let Some(memory) = self.memories.get_mut(usize::from(node.index())) {
            memory.stir();
            if is_again {
                memory.may_ack = true;
            } else {
                memory.ask(command.request)?;
            }
        }
        Ok(Event::told(node, Input::Submit(command)))
    }

    /// Nobody has anything to do: a node is restarted, or a client asks for a new command, or a node whose round is
    /// behind another's enters the next round, or all nodes tick in turn.
    fn stir(&mut self, cluster: &Cluster, from: NodeId, word: u32) -> Result<Event, AllocError> {
        if let Some(node) = first_from(self.nodes, cluster, from, Kind::Down) {
            return Ok(Event::at(node, NodeEvent::Restart));
        }
        if word / 256 % 32 == 0 {
            for memory in &mut self.memories {
                memory.lose_requests();
            }
            return self.submit(from, 1);
        }
        if let Some(node) = self.advance_behind(from)? {
            return Ok(Event::told(node, Input::Advance));
        }
        let node = node_at(self.nodes, self.quiet);
        self.quiet = self.quiet.wrapping_add(1);
        Ok(self.tick(node))
    }

    /// The first node, counted from this one on, whose round of the first undecided instance is behind another's enters
    /// the next one.
    fn advance_behind(&mut self, from: NodeId) -> Result<Option<NodeId>, AllocError> {
        let instance = self.prefix.min(4_294_967_295) as u32;
        let last = self.last_round(instance);
        for count in 0..self.nodes.count() {
            let node = node_behind(self.nodes, from, count);
            if let Some(memory) = self.memories.get_mut(usize::from(node.index())) {
                if let Some(round) = memory.round_of(instance) {
                    if round < last {
                        memory.advance(instance, round)?;
                        return Ok(Some(node));
                    }
                }
            }
        }
        Ok(None)
    }

    /// The greatest round of an instance that a node's messages have told, else 0.
    fn last_round(&self, instance: u32) -> u32 {
        let mut last = 0u32;
        for memory in &self.memories {
            if let Some(round) = memory.round_of(instance) {
                last = last.max(round);
            }
        }
        last
    }
}

/// The command of a request: four clients ask in turn for four operations on five names.
fn command_of(number: u64) -> Command {
    let request = RequestNo {
        client: (number % 4) as u32,
        seq: number / 4 + 1,
    };
    let letter = b'a' + (number % 5) as u8;
    let digit = b'0' + (number % 10) as u8;
    let (Ok(name), Ok(value)) = (Name::new(&[letter]), Value::new(&[digit])) else {
        unreachable!()
    };
    let op = match number / 4 % 4 {
        0 => Op::Claim(name, value),
        1 => Op::Update(name, value),
        2 => Op::Transfer(name, ((number % 4 + 1) % 4) as u32),
        _ => Op::Release(name),
    };
    Command { request, op }
}
