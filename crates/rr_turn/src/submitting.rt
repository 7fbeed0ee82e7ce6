//! What clients want is submitted.

ghost use Rattle.std.specs.Prelude.{◌≡◌, IfOk, Result};
ghost use Rattle.rr_types.specs.declared.refusal.Refusal.{Refusal};
ghost use Rattle.rr_model.specs.NodeState.{NodeState};
ghost use Rattle.rr_turn.specs.Asked.{Ran};
ghost use Rattle.rr_turn.specs.Looks.{Submits, SubmitsInOrder};
ghost use Rattle.rr_turn.specs.Wants.{asking, AsksAt, AsksAll};

use crate::chase::Chase;
use crate::hearing::hear_next;
use crate::links::Links;
use crate::locked::Locked;
use crate::sending::{Receivers, put_in, ring_each};
use rr_types::{Command, Input, Op, Refusal, made_of};
use std::sync::{Mutex, Wait};

/// The node is asked for the command of the client at this place. That client is told of a refusal. The publisher is rung where the reply
/// is there already.
fn ask<L: Links>(locked: &mut Locked, links: &mut L, place: usize, command: &Command)
    ensures { (answer : Result (Unit {0}) Refusal) × Ran L.gives (asking place command.now locked.old answer) links.old links.new }
{
    made_of!(Op);
    match links.tell(locked, &Input::Submit(*command)) {
        Err(refusal) => links.refuse(place, refusal),
        Ok(()) => {
            if locked.reply(command.request).is_some() {
                links.wake_publisher();
            }
        }
    }
}

/// As `ask`, in one section of the node's lock.
fn ask_in<L: Links, R: Wait>(
    rt: &R,
    node: &Mutex<Locked>,
    links: &mut L,
    place: usize,
    command: &Command,
)
    ensures { (s : NodeState) × (answer : Result (Unit {0}) Refusal) × Ran L.gives (asking place command.now s answer) links.old links.new }
{
    let mut locked = node.lock(rt);
    ask(&mut *locked, links, place, command)
}

/// The node is asked for what the client at this place wants. Answers whether it wanted something.
fn ask_at<L: Links, R: Wait>(rt: &R, node: &Mutex<Locked>, links: &mut L, place: usize) -> bool
    ensures { AsksAt L.gives place result links.old links.new }
{
    match links.take_wanted(place) {
        None => false,
        Some(command) => {
            ask_in(rt, node, links, place, &command);
            true
        }
    }
}

/// The node is asked for what its clients want, in the order of their places. Gives how many commands these were.
fn ask_all<L: Links, R: Wait>(rt: &R, node: &Mutex<Locked>, links: &mut L) -> usize
    ensures { AsksAll L.gives result links.old links.new }
{
    let clients = links.clients();
    let mut count = 0usize;
    for place in 0..clients {
        count += usize::from(ask_at(rt, node, links, place));
    }
    count
}

/// How many commands were submitted, and who is woken by what the node owes then.
#[derive(Clone, Copy, Debug)]
struct Submitted {
    count: usize,
    receivers: Receivers,
}

/// The node hears what came, is asked for what its clients want, and puts what it owes into the inboxes, while it holds the order.
fn submit_in_order<L: Links, R: Wait>(
    rt: &R,
    order: &Mutex<()>,
    node: &Mutex<Locked>,
    chase: &mut Chase,
    links: &mut L,
    most: usize,
) -> Result<Submitted, Refusal>
    ensures { IfOk result (λ did. SubmitsInOrder L.gives most did.count did.receivers.woken chase.old links.old chase.new links.new) }
{
    let _order = order.lock(rt);
    hear_next(rt, node, chase, links, most)?;
    let count = ask_all(rt, node, links);
    let receivers = put_in(rt, node, chase, links, most)?;
    Ok(Submitted { count, receivers })
}

/// What clients of the node want is submitted, one node after another: the node hears what came, submits, and puts what
/// it owes into the inboxes. So all pools have one order, and two nodes seldom begin two instances with one command.
/// Answers whether a client wanted something.
pub fn submit_next<L: Links, R: Wait>(
    rt: &R,
    order: &Mutex<()>,
    node: &Mutex<Locked>,
    chase: &mut Chase,
    links: &mut L,
    most: usize,
) -> Result<bool, Refusal>
    ensures { IfOk result (λ has. Submits L.gives most has chase.old links.old chase.new links.new) }
{
    if !links.is_wanted() {
        return Ok(false);
    }
    let submitted = submit_in_order(rt, order, node, chase, links, most)?;
    ring_each(links, submitted.receivers.woken);
    links.pass_submits(submitted.count);
    Ok(true)
}
