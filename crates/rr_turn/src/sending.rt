//! What may leave is sent.

ghost use Rattle.std.specs.Prelude.{◌≡◌, IfOk};
ghost use Rattle.rr_model.specs.NodeState.{NodeState};
ghost use Rattle.rr_turn.specs.Asked.{Ran};
ghost use Rattle.rr_turn.specs.Looks.{Puts, Sends};
ghost use Rattle.rr_turn.specs.Turns.{wakes, noted_one, put_of, woken_by, rings_from};

use crate::chase::Chase;
use crate::links::Links;
use crate::locked::Locked;
use crate::sent::Sent;
use rr_types::{Body, Command, Estimate, Message, NodeId, NodeSet, Op, Refusal, made_of};
use std::sync::{Mutex, Wait};

/// Whether a message is worth waking its receiver. What says that its sender is up and suspects nobody is heard at the
/// receiver's next tick, which is before it counts.
fn is_waking(message: &Message) -> bool
    ensures { result ≡ wakes message.now.body }
{
    made_of!(Body, Command, Estimate, Op);
    match &message.body {
        Body::Beat => false,
        Body::Suspects(set) => set.bits() != 0,
        _ => true,
    }
}

/// Whether a message was put into an inbox, and who is woken by what was.
#[derive(Clone, Copy, Debug)]
pub struct Receivers {
    pub has_any: bool,
    pub woken: NodeSet,
}

/// A message goes into the inbox of its receiver, and the chase knows of it. Gives who is woken, beside these.
fn put<L: Links>(chase: &mut Chase, links: &mut L, woken: NodeSet, sent: Sent) -> NodeSet
    ensures calls { L.gives links.old (put_of sent) links.new }
    ensures woken { result ≡ woken_by woken sent }
    ensures chase { chase.new ≡ noted_one sent chase.old }
{
    made_of!(Body, Command, Estimate, Message, Op);
    let to = sent.message().to;
    let is_woken = is_waking(sent.message());
    chase.note(&sent);
    links.put(to, sent);
    if is_woken { woken.with(to) } else { woken }
}

/// The messages that may leave go into the inboxes of their receivers, of more than `most` the oldest.
fn put_all<L: Links>(
    locked: &mut Locked,
    chase: &mut Chase,
    links: &mut L,
    most: usize,
) -> Result<Receivers, Refusal>
    ensures { IfOk result (λ to. Puts L.gives locked.old locked.new most to.has_any to.woken chase.old links.old chase.new links.new) }
{
    let mut has_any = false;
    let mut woken = NodeSet::empty();
    for turn in 0..most {
        match links.send(locked) {
            Ok(Some(sent)) => {
                woken = put(chase, links, woken, sent);
                has_any = true;
            }
            Ok(None) => break,
            Err(refusal) => return Err(refusal),
        }
    }
    Ok(Receivers { has_any, woken })
}

/// As `put_all`, in one section of the node's lock.
pub fn put_in<L: Links, R: Wait>(
    rt: &R,
    node: &Mutex<Locked>,
    chase: &mut Chase,
    links: &mut L,
    most: usize,
) -> Result<Receivers, Refusal>
    ensures { IfOk result (λ to. (s t : NodeState) × Puts L.gives s t most to.has_any to.woken chase.old links.old chase.new links.new) }
{
    let mut locked = node.lock(rt);
    put_all(&mut *locked, chase, links, most)
}

/// Rings for these nodes.
pub fn ring_each<L: Links>(links: &mut L, nodes: NodeSet)
    ensures { Ran L.gives (rings_from 7 0 nodes) links.old links.new }
{
    for index in 0..7u8 {
        if let Some(node) = NodeId::at(index) {
            if nodes.contains(node) {
                links.ring(node);
            }
        }
    }
}

/// The messages that may leave are sent, of more than `most` the oldest. Those that they wake are rung once all are there,
/// so that each wakes once. Answers whether there was one.
pub fn send_all<L: Links, R: Wait>(
    rt: &R,
    node: &Mutex<Locked>,
    chase: &mut Chase,
    links: &mut L,
    most: usize,
) -> Result<bool, Refusal>
    ensures { IfOk result (λ has. Sends L.gives most has chase.old links.old chase.new links.new) }
{
    let receivers = put_in(rt, node, chase, links, most)?;
    ring_each(links, receivers.woken);
    Ok(receivers.has_any)
}
