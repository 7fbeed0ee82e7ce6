//! The mail of a run's nodes, before any of them is up: an inbox of each, and its ways to the inboxes of all.

ghost use Rattle.std.specs.Prelude.{◌≡◌, ◌<◌, length, map, slice_get, All, Some, IfOk};
ghost use Rattle.rr_threads.specs.Ways.{named, led_to, AreWired};

use crate::wires::{Mail, Way};
use rr_turn::{Kept, Sent};
use rr_types::{Nodes, Refusal};
use rr_window::{Outlet, Port};
use std::alloc::{AllocError, Global};
use std::collections::VecDeque;

/// An inbox for each node.
fn open_inboxes(alloc: Global, nodes: Nodes) -> Result<Vec<Outlet<Sent>>, Refusal>
    ensures { IfOk result (λ inboxes. length inboxes.items ≡ nodes) }
{
    let mut inboxes = Vec::new(alloc);
    for made in 0..nodes.count() {
        inboxes.push(Outlet::new(alloc)?)?;
    }
    Ok(inboxes)
}

/// One more end that puts into the inbox at this place.
fn port_to(inboxes: &mut [Outlet<Sent>], place: usize) -> Result<Port<Sent>, AllocError>
    requires { place < length inboxes.old }
    ensures leads { IfOk result (λ port. slice_get (named inboxes.old) place ≡ Some port.queue) }
    ensures same { named inboxes.new ≡ named inboxes.old }
{
    inboxes[place].port()
}

/// The ways of a node: one to each of these inboxes, in their order.
fn ways_to(alloc: Global, inboxes: &mut [Outlet<Sent>]) -> Result<Vec<Way>, Refusal>
    ensures lead { IfOk result (λ ways. led_to ways.items ≡ named inboxes.old) }
    ensures same { named inboxes.new ≡ named inboxes.old }
{
    let mut ways = Vec::new(alloc);
    for place in 0..inboxes.len() {
        let port = port_to(inboxes, place)?;
        ways.push(Way::new(port))?;
    }
    Ok(ways)
}

/// The ways of each node.
fn open_rows(
    alloc: Global,
    nodes: Nodes,
    inboxes: &mut [Outlet<Sent>],
) -> Result<VecDeque<Vec<Way>>, Refusal>
    ensures count { IfOk result (λ rows. length rows.items ≡ nodes) }
    ensures lead { IfOk result (λ rows. All (λ ways. led_to ways.items ≡ named inboxes.old) rows.items) }
    ensures same { named inboxes.new ≡ named inboxes.old }
{
    let mut rows = VecDeque::new(alloc);
    for made in 0..nodes.count() {
        rows.push_back(ways_to(alloc, inboxes)?)?;
    }
    Ok(rows)
}

/// The mail of each node: these inboxes, in their order, and these ways.
fn join_rows(
    alloc: Global,
    inboxes: Vec<Outlet<Sent>>,
    rows: VecDeque<Vec<Way>>,
) -> Result<Vec<Mail>, Refusal>
    requires count { length rows.items ≡ length inboxes.items }
    requires lead { All (λ ways. led_to ways.items ≡ named inboxes.items) rows.items }
    ensures inboxes { IfOk result (λ mails. map (λ m. m.inbox) mails.items ≡ inboxes.items) }
    ensures lead { IfOk result (λ mails. All (λ m. led_to m.ways.items ≡ named inboxes.items) mails.items) }
{
    let mut rows = rows;
    let mut mails = Vec::new(alloc);
    for inbox in inboxes {
        let Some(ways) = rows.pop_front() else {
            unreachable!()
        };
        let kept = Kept::new();
        mails.push(Mail { inbox, ways, kept })?;
    }
    Ok(mails)
}

/// The mail of each node of a run: its inbox, and a way to the inbox of each, in the order of the nodes.
pub fn open_mails(alloc: Global, nodes: Nodes) -> Result<Vec<Mail>, Refusal>
    ensures count { IfOk result (λ mails. length mails.items ≡ nodes) }
    ensures wired { IfOk result (λ mails. AreWired mails.items) }
{
    let mut inboxes = open_inboxes(alloc, nodes)?;
    let rows = open_rows(alloc, nodes, &mut inboxes)?;
    join_rows(alloc, inboxes, rows)
}
