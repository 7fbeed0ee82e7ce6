//! Runs of nodes, some of which are held up at a turnstile.

use super::asking::{
    Asker, OPENING_CALLS, Shared, TURNS, askers, claim, claims, node_of, numbered, runs,
};
use rr_text::ScriptLine;
use rr_turn::{Open, Place, Turnstile};
use rr_types::{Name, NodeId, Refusal};
use std::process::Abort;
use std::sync::Wait;
use std::sync::atomic::Ordering;
use std::thread::Threads;
use std::time::Clock;

/// Holds the first device call of a flush until two submits are answered.
#[derive(Drop)]
struct UntilAnswered<'s, R> {
    rt: &'s R,
    shared: &'s Shared,
}

impl<'s, R: Wait> Turnstile for UntilAnswered<'s, R> {
    fn pass(&self, _node: NodeId, place: Place) {
        let shared = self.shared;
        match place {
            Place::AfterSubmit => {
                shared.submitted.fetch_add(1, Ordering::SeqCst);
            }
            Place::BeforeDevice => {
                if shared.first_calls.fetch_add(1, Ordering::SeqCst) == OPENING_CALLS {
                    shared.wait_for(self.rt, &shared.submitted, 2);
                }
            }
        }
    }
}

/// A node with two clients: the second submits while the flush of the first one's command is held.
fn answers_while_it_flushes<R: Threads + Wait + Clock + Abort + AllocGlobal + Sync>(
    rt: &R,
) -> Result<bool, Refusal> {
    let nodes = numbered(rt, 1);
    let node = node_of(rt, nodes, 0);
    let lines = vec![in rt.alloc(); claim(rt, node, 1, b'a'), claim(rt, node, 2, b'b')]?;
    let shared = Shared::new(lines);
    let mut own = Vec::new(rt.alloc());
    for place in 0..2usize {
        own.push(Asker {
            shared: &shared,
            place,
            times: 1,
            waits: place == 1,
        })?;
    }
    let clients = vec![in rt.alloc(); own]?;
    let turnstile = UntilAnswered {
        rt,
        shared: &shared,
    };
    Ok(runs(rt, nodes, clients, &turnstile) && shared.came_to(2))
}

#[test]
fn a_node_answers_two_clients_while_its_flush_is_held(rt: HostRuntime) {
    assert!(rt; answers_while_it_flushes(&rt).expect(&rt, "memory"));
}

/// Holds the first device call of each of two nodes' flushes until the other's is reached.
#[derive(Drop)]
struct UntilBoth<'s, R> {
    rt: &'s R,
    shared: &'s Shared,
}

impl<'s, R: Wait> Turnstile for UntilBoth<'s, R> {
    fn pass(&self, node: NodeId, place: Place) {
        if place == Place::AfterSubmit {
            return;
        }
        let shared = self.shared;
        let (own, other) = if node.index() == 0 {
            (&shared.first_calls, &shared.other_calls)
        } else {
            (&shared.other_calls, &shared.first_calls)
        };
        if own.fetch_add(1, Ordering::SeqCst) == OPENING_CALLS {
            shared.wait_for(self.rt, other, OPENING_CALLS + 1);
        }
    }
}

/// Two nodes with a client each, which claim two names.
fn two_flush_at_once<R: Threads + Wait + Clock + Abort + AllocGlobal + Sync>(
    rt: &R,
) -> Result<bool, Refusal> {
    let nodes = numbered(rt, 2);
    let shared = Shared::new(claims(rt, rt.alloc(), nodes)?);
    let clients = askers(rt.alloc(), nodes, &shared)?;
    let turnstile = UntilBoth {
        rt,
        shared: &shared,
    };
    Ok(runs(rt, nodes, clients, &turnstile) && shared.came_to(2))
}

#[test]
fn two_nodes_flush_at_once(rt: HostRuntime) {
    assert!(rt; two_flush_at_once(&rt).expect(&rt, "memory"));
}

/// A name is claimed at node 0, and a client of node 1, which submits nothing, looks until it sees that.
fn a_seat_elsewhere_shows_it<R: Threads + Wait + Clock + Abort + AllocGlobal + Sync>(
    rt: &R,
) -> Result<bool, Refusal> {
    let nodes = numbered(rt, 2);
    let (zero, one) = (node_of(rt, nodes, 0), node_of(rt, nodes, 1));
    let name = Name::new(b"a")?;
    let look = ScriptLine::Look { node: one, name };
    let shared = Shared::new(vec![in rt.alloc(); claim(rt, zero, 1, b'a'), look]?);
    let mut clients = Vec::new(rt.alloc());
    for place in 0..2usize {
        let asker = Asker {
            shared: &shared,
            place,
            times: if place == 0 { 1 } else { TURNS },
            waits: false,
        };
        clients.push(vec![in rt.alloc(); asker]?)?;
    }
    Ok(runs(rt, nodes, clients, &Open) && shared.came_to(2))
}

#[test]
fn a_seat_of_a_node_that_acknowledges_nothing_shows_a_claim(rt: HostRuntime) {
    assert!(rt; a_seat_elsewhere_shows_it(&rt).expect(&rt, "memory"));
}
