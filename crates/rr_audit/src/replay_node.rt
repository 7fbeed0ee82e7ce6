//! A node of a tape: its core, and the group that it flushes.

ghost use Rattle.std.specs.Prelude.{◌≡◌, ◌≢◌, [], length, IfOk, IfErr, IsSome, MatchResult, None, Some, option_map};
ghost use Rattle.rr_model.specs.NodeState.{decided_prefix};
ghost use Rattle.rr_model.specs.NodeStep.{node_step, refusal_of, group_taken, running_group, marked_running, message_left, next_leaving, next_acknowledged, acknowledged, started};
ghost use Rattle.rr_types.specs.Registry.{reply_of};
ghost use Rattle.rr_text.specs.Taped.{of_node};
ghost use Rattle.rr_audit.specs.Following.{Tells, Answers, FollowsAt};

use crate::given::Given;
use crate::paper::{opened, synced};
use crate::same::is_same_message;
use rr_core::Core;
use rr_frame::MessageLog;
use rr_text::{Recorded, TapeEvent};
use rr_types::{Group, Input, Message, NodeId, Nodes, Refusal, Reply, RequestNo};
use std::alloc::{AllocError, Global};
use std::marker::Model;

/// A node that is up and keeps everything: its core, and the group that it flushes.
#[derive(Drop)]
pub struct ReplayNode {
    alloc: Global,
    core: Core,
    flushed: Option<Group>,
}

impl Model for ReplayNode {
    ghost use Rattle.std.specs.Prelude.{◌≡◌};
    ghost use Rattle.rr_model.specs.NodeState.{NodeState};
    ghost use Rattle.rr_model.specs.NodeStep.{running_group};

    ghost Value = { NodeState };

    ghost view = { λ n. n.core };

    ghost invariant = { λ n. n.flushed ≡ running_group n.core };
}

// What a node gives that refuses an input.
fn refused(refusal: Refusal) -> Result<Option<Given>, Refusal>
    ensures given { IfOk result (λ g. IsSome g × (refusal ≢ Refusal.OutOfMemory)) }
    ensures err { IfErr result (λ e. e ≡ Refusal.OutOfMemory) }
{
    match refusal {
        Refusal::OutOfMemory => Err(Refusal::OutOfMemory),
        _ => Ok(Some(Given::Refused(refusal))),
    }
}

impl ReplayNode {
    /// A node that has opened over no facts.
    pub fn new(alloc: Global, nodes: Nodes, node: NodeId) -> Result<ReplayNode, AllocError>
        ensures ok { IfOk result (λ n. n ≡ started nodes node [] 0) }
    {
        let opened = opened(alloc, nodes, node);
        match Core::start(alloc, &opened) {
            Ok(core) => Ok(ReplayNode {
                alloc,
                core,
                flushed: None,
            }),
            Err(refusal) => Err(refusal),
        }
    }

    // Tells the core an input.
    fn tell(&mut self, input: &Input<Message>) -> Result<Option<Given>, Refusal>
        ensures { Answers (refusal_of input.now self.old ≡ None) (node_step input.now self.old) self.new result }
    {
        match self.core.step(input) {
            Ok(()) => Ok(None),
            Err(refusal) => refused(refusal),
        }
    }

    // Hears the message of this number, where it is there and for this node.
    fn hear_from(
        &mut self,
        wire: &MessageLog,
        node: NodeId,
        number: u32,
    ) -> Result<Option<Given>, Refusal>
        ensures { FollowsAt wire.now (of_node node (Recorded.Told (Input.Hear number))) self.old self.new result }
    {
        let Some(message) = wire.get(number as usize) else {
            return Ok(Some(Given::NoMessage));
        };
        if message.to.index() != node.index() {
            return Ok(Some(Given::OtherNode(message.to)));
        }
        self.tell(&Input::Hear(message))
    }

    // Is told an input of a tape. A message that it hears is one of the wire.
    fn tell_from(
        &mut self,
        wire: &MessageLog,
        node: NodeId,
        input: &Input<u32>,
    ) -> Result<Option<Given>, Refusal>
        ensures { FollowsAt wire.now (of_node node (Recorded.Told input.now)) self.old self.new result }
    {
        match input {
            Input::Hear(number) => self.hear_from(wire, node, *number),
            _ => self.tell(&input.unheard()),
        }
    }

    // Begins to flush the oldest staged facts.
    fn take(&mut self) -> Result<Option<Given>, Refusal>
        ensures { Answers ((self.old.running ≡ None) × (self.old.staged ≢ [])) (group_taken self.old) self.new result }
    {
        match self.core.take_group() {
            Ok(Some(group)) => {
                self.flushed = Some(group);
                Ok(None)
            }
            Ok(None) => Ok(Some(Given::NothingStaged)),
            Err(Refusal::OutOfMemory) => Err(Refusal::OutOfMemory),
            Err(_) => Ok(Some(Given::StillFlushing)),
        }
    }

    // Marks the group that it flushes.
    fn mark(&mut self) -> Result<Option<Given>, Refusal>
        ensures { Answers (IsSome self.old.running) (marked_running self.old) self.new result }
    {
        let Some(group) = self.flushed.take() else {
            return Ok(Some(Given::NothingFlushed));
        };
        let synced = synced(self.core.node(), group);
        match self.core.mark(synced) {
            Ok(()) => Ok(None),
            Err((refusal, synced)) => {
                self.flushed = Some(synced.into_group());
                Err(refusal)
            }
        }
    }

    // Sends this message, which is to be the next one.
    fn send(&mut self, number: u32, message: &Message) -> Result<Option<Given>, Refusal>
        ensures { Answers (next_leaving self.old ≡ Some message.now) (message_left self.old) self.new result }
    {
        match self.core.next_message() {
            None => Ok(Some(Given::NothingToSend)),
            Some(cleared) => {
                let next = cleared.as_message();
                if is_same_message(next, message) {
                    Ok(None)
                } else {
                    let next = Box::new(self.alloc, *next)?;
                    Ok(Some(Given::Sends(number, next)))
                }
            }
        }
    }

    // Acknowledges this request by this reply, which are to be next. It needs no memory.
    fn acknowledge(&mut self, request: RequestNo, reply: Reply) -> Option<Given>
        ensures { Tells ((next_acknowledged self.old ≡ Some request) × (reply_of (decided_prefix self.old) request ≡ Some reply)) (acknowledged self.old) self.new result }
    {
        match self.core.next_ack() {
            None => Some(Given::NothingToAcknowledge),
            Some((next, given)) => {
                if next == request && given == reply {
                    None
                } else {
                    Some(Given::Acknowledges(next, given))
                }
            }
        }
    }

    /// The group that the node flushes, if any.
    pub fn flushed(&self) -> Option<&Group>
        ensures { option_map (λ g. g.now) result ≡ running_group self.now }
    {
        self.flushed.as_ref()
    }

    /// What the node answers to an event of a tape, over this wire. `None`: the world gives it next, and it has
    /// happened here. Else it is what is given instead.
    ///
    /// # Errors
    /// `OutOfMemory`.
    pub fn follow(&mut self, wire: &MessageLog, event: &TapeEvent) -> Result<Option<Given>, Refusal>
        ensures { FollowsAt wire.now event.now self.old self.new result }
    {
        match &event.what {
            Recorded::Told(input) => self.tell_from(wire, event.node, input),
            Recorded::Take => self.take(),
            Recorded::Mark => self.mark(),
            Recorded::Sent { number, message } => {
                if *number as usize != wire.len() {
                    return Ok(Some(Given::Number(wire.len() as u64)));
                }
                self.send(*number, message)
            }
            Recorded::Acked { request, reply } => Ok(self.acknowledge(*request, *reply)),
        }
    }
}
