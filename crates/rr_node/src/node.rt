//! A node over its disk.

ghost use Rattle.std.specs.Prelude.{◌≡◌, ◌≢◌, ◌<◌, None, Err, is_some, IfSome, IfOk};
ghost use Rattle.rr_types.specs.declared.event.NodeEvent.{NodeEvent};
ghost use Rattle.rr_types.specs.declared.message.Message.{Message};
ghost use Rattle.rr_node.specs.Runs.{IsSpelt};
ghost use Rattle.rr_node.specs.Seats.{Stopped, Gives, Fails, AtMostOneCall, crashed, seat_step};
ghost use Rattle.rr_node.specs.declared.event.Act.{Act};
ghost use Rattle.rr_node.specs.Stances.{stance_of, synced_of, refusal_by, is_quiet, is_plain, event_of};
ghost use Rattle.rr_node.specs.Views.{quiet};

use crate::doing::{Doing, crash, fail, go_on, go_on_by, go_on_quietly};
use crate::event::{Act, Outcome, Stance};
use rr_disk::{FailingDisk, MemDisk};
use rr_types::{Fact, Message, NodeEvent, NodeId, Nodes, Refusal};
use std::alloc::{AllocError, Global};
use std::marker::Model;
use std::mem;

/// One of `nodes` nodes, over a disk in memory. At first it is down.
pub struct Node {
    nodes: Nodes,
    node: NodeId,
    doing: Doing,
}

impl Model for Node {
    ghost use Rattle.std.specs.Prelude.{◌<◌};
    ghost use Rattle.rr_node.specs.Seats.{Seat};
    ghost use Rattle.rr_node.specs.Views.{seat_of, IsSteady};

    ghost Value = { Seat };

    ghost view = { λ n. seat_of n.nodes n.node n.doing };

    ghost invariant = { λ n. (n.node < n.nodes) × IsSteady n.nodes n.node n.doing };
}

impl Drop for Node {
    // Whatever runs is given up.
    fn drop(self) {
        let Node {
            nodes: _,
            node: _,
            doing,
        } = self;
        drop(doing.into_disk());
    }
}

impl Node {
    /// One of the nodes, which was never started, over its disk. Device calls are counted from here on.
    pub fn new(nodes: Nodes, node: NodeId, disk: MemDisk) -> Node
        requires { node < nodes }
        ensures { result ≡ record { nodes = nodes; node = node; doing = Stopped; areas = disk.areas; calls = 0 } }
    {
        Node {
            nodes,
            node,
            doing: Doing::Stopped(FailingDisk::new(disk)),
        }
    }

    /// What the node waits for.
    pub fn stance(&self) -> Stance
        ensures { result ≡ stance_of self.now.doing }
    {
        match &self.doing {
            Doing::Stopped(_) => Stance::Down,
            Doing::Faulted(_) => Stance::Failed,
            Doing::Opening(_) => Stance::Opening,
            Doing::Serving(serving) => serving.stance(),
        }
    }

    /// The facts of its group that is synced and not marked yet; none where there is no such group.
    pub fn synced(&self) -> &[Fact]
        ensures { result.now ≡ synced_of self.now.doing }
    {
        match &self.doing {
            Doing::Stopped(_) => &[],
            Doing::Faulted(_) => &[],
            Doing::Opening(_) => &[],
            Doing::Serving(serving) => serving.synced(),
        }
    }

    /// An event at the node, with at most one device call, and none but by a `Device` event. A refused event leaves
    /// the node as it was, but for a device call: an opening that is refused ends, and a node whose flush fails has
    /// failed.
    ///
    /// # Errors
    /// `OutOfMemory`, `Device`, `Damaged`, `Failed`, `Down`, `ListFull`, `RoundsOut`, `Busy`, `TooLarge`.
    pub fn step(&mut self, alloc: Global, event: &NodeEvent<Message>) -> Result<Outcome, Refusal>
        ensures gives { Gives event.now self.old result self.new }
        ensures one_call { AtMostOneCall self.old self.new }
        ensures no_call { event.now ≢ NodeEvent.Device → self.new.calls ≡ self.old.calls }
        ensures spelt { IsSpelt self.new.doing }
    {
        match self.doing.refusal_of(event) {
            Some(refusal) => Err(refusal),
            None => go_on(alloc, self.nodes, self.node, &mut self.doing, event),
        }
    }

    /// An event that gives nothing but, perhaps, a refusal: any but a send and an acknowledgement, at a node that is up.
    /// `None`: it may give more, so it is `step`'s, and the node stays as it was. It is `step` without the cost of an
    /// `Outcome`.
    ///
    /// # Errors
    /// `OutOfMemory`, `Device`, `ListFull`, `RoundsOut`, `Busy`, `TooLarge`.
    pub fn step_quietly(
        &mut self,
        alloc: Global,
        event: &NodeEvent<Message>,
    ) -> Option<Result<(), Refusal>>
        ensures taken { is_some result ≡ is_quiet event.now self.old.doing }
        ensures gives { IfSome result (λ answer. Gives event.now self.old (quiet answer) self.new) }
        ensures kept { result ≡ None → self.new ≡ self.old }
        ensures one_call { AtMostOneCall self.old self.new }
        ensures no_call { event.now ≢ NodeEvent.Device → self.new.calls ≡ self.old.calls }
        ensures spelt { IsSpelt self.new.doing }
    {
        go_on_quietly(alloc, &mut self.doing, event)
    }

    /// An act that gives nothing but, perhaps, a refusal: one that the node doesn't take, or any but a send and an
    /// acknowledgement at a node that is up. `None`: it may give more, so it is `step`'s, and the node stays as it was.
    ///
    /// # Errors
    /// `OutOfMemory`, `Device`, `Failed`, `Down`, `Busy`, `TooLarge`.
    pub fn act(&mut self, alloc: Global, act: Act) -> Option<Result<(), Refusal>>
        ensures taken { is_some result ≡ is_plain (event_of act) self.old.doing }
        ensures gives { IfSome result (λ answer. Gives (event_of act) self.old (quiet answer) self.new) }
        ensures kept { result ≡ None → self.new ≡ self.old }
        ensures one_call { AtMostOneCall self.old self.new }
        ensures no_call { act ≢ Act.Device → self.new.calls ≡ self.old.calls }
        ensures spelt { IsSpelt self.new.doing }
    {
        go_on_by(alloc, &mut self.doing, act)
    }

    /// The refusal of each event but a restart and a device call, while the node isn't up. It moves nothing.
    pub fn refusal(&self) -> Option<Refusal>
        ensures value { result ≡ refusal_by self.now.doing }
        ensures refused { IfSome result (λ e. (event : NodeEvent Message) → event ≢ NodeEvent.Restart → event ≢ NodeEvent.Device → seat_step event self.now ≡ (Err e, self.now)) }
        ensures spelt { IfSome result (λ _. IsSpelt self.now.doing) }
    {
        match &self.doing {
            Doing::Stopped(_) => Some(Refusal::Down),
            Doing::Faulted(_) => Some(Refusal::Failed),
            Doing::Opening(_) => Some(Refusal::Down),
            Doing::Serving(_) => None,
        }
    }

    /// The next device call of the node fails with `Device`, as `FailingDisk::fail_next` says, and the node has
    /// failed. A node that is down refuses it with `Down` and one that has failed with `Failed`; where no
    /// device call is due nothing happens.
    pub fn fail(&mut self, alloc: Global, fill: Vec<u8>) -> Result<Outcome, Refusal>
        ensures fails { Fails fill.items self.old result self.new }
        ensures one_call { AtMostOneCall self.old self.new }
        ensures spelt { IsSpelt self.new.doing }
    {
        fail(alloc, self.nodes, self.node, &mut self.doing, fill)
    }

    /// The node crashes: each area keeps a length from its safe to its present one, the cut where that lies between,
    /// and loose bytes take those of the fill in turn. It is no device call.
    pub fn crash(&mut self, cut_first: u32, cut_second: u32, fill: &[u8])
        ensures left { self.new ≡ crashed cut_first cut_second fill.now self.old }
        ensures no_call { self.new.calls ≡ self.old.calls }
    {
        let first = u64::from(cut_first);
        crash(&mut self.doing, first, u64::from(cut_second), fill);
    }

    /// The node as this crash would leave it, over a copy of its disk. The node itself goes on.
    pub fn after_crash(
        &self,
        alloc: Global,
        cut_first: u32,
        cut_second: u32,
        fill: &[u8],
    ) -> Result<Node, AllocError>
        ensures left { IfOk result (λ node. node ≡ crashed cut_first cut_second fill.now self.now) }
    {
        let mut disk = self.doing.disk().copied(alloc)?;
        disk.crash(u64::from(cut_first), u64::from(cut_second), fill);
        Ok(Node {
            nodes: self.nodes,
            node: self.node,
            doing: Doing::Stopped(disk),
        })
    }

    /// The node's disk. Whatever ran over it is given up.
    pub fn into_disk(mut self, alloc: Global) -> FailingDisk<MemDisk>
        ensures areas { result.below.areas ≡ self.areas }
        ensures calls { result.calls ≡ self.calls }
    {
        let down = Doing::Stopped(FailingDisk::new(MemDisk::new(alloc)));
        mem::replace(&mut self.doing, down).into_disk()
    }
}
