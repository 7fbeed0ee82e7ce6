//! A run of which a node is stopped and started again.

use super::asking::{TURNS, claim, disks_for, node_of, numbered, rest};
use rr_text::{Answer, ScriptLine};
use rr_threads::{Client, Handle, Switches, run_switched};
use rr_turn::{Open, Turnstile};
use rr_types::{Name, NodeId, Refusal};
use rr_window::WindowName;
use std::process::Abort;
use std::sync::Wait;
use std::sync::atomic::{AtomicU64, Ordering};
use std::thread::Threads;
use std::time::Clock;

/// What the clients share: the switches, the node that is stopped, a claim at that node and one at another, and how many claims
/// and looks were answered as they have to be.
#[derive(Drop)]
struct Shared {
    switches: Switches,
    node: NodeId,
    early: ScriptLine,
    late: ScriptLine,
    early_name: Name,
    right: AtomicU64,
}

impl Shared {
    /// Waits until so many were right.
    fn wait_for<R: Wait>(&self, rt: &R, right: u64) {
        for _ in 0..TURNS {
            if self.right.load(Ordering::SeqCst) >= right {
                break;
            }
            rest(rt);
        }
    }

    /// Waits until the node is up, or down.
    fn wait_until<R: Wait>(&self, rt: &R, is_up: bool) {
        for _ in 0..TURNS {
            if self.switches.is_up(self.node) == is_up {
                break;
            }
            self.switches.wait(rt);
        }
    }

    fn count(&self, is_right: bool) {
        if is_right {
            self.right.fetch_add(1, Ordering::SeqCst);
        }
    }
}

/// The client of another node, which stops the node and starts it; or the node's own, and how many lives it has had.
#[derive(Drop)]
struct Guest<'s> {
    shared: &'s Shared,
    is_host: bool,
    lives: u32,
}

fn guest_of<'s>(shared: &'s Shared, is_host: bool) -> Guest<'s> {
    Guest {
        shared,
        is_host,
        lives: 0,
    }
}

/// Claims a name, and waits until the node goes down.
fn live_first<W: WindowName, T: Turnstile, R: Wait>(
    shared: &Shared,
    handle: &mut Handle<'_, '_, W, T, R>,
) {
    let answer = handle.ask_within(TURNS, &shared.early);
    shared.count(matches!(answer, Answer::Acknowledged { .. }));
    for _ in 0..TURNS {
        if handle.is_over() {
            break;
        }
        rest(handle.rt());
    }
}

/// What the first life claimed is there at the first look.
fn live_again<W: WindowName, T: Turnstile, R: Wait>(
    shared: &Shared,
    handle: &mut Handle<'_, '_, W, T, R>,
) {
    let answer = handle.look(&shared.early_name);
    shared.count(matches!(answer, Answer::Bound { .. }));
}

/// Stops the node, claims a name meanwhile, and starts the node.
fn stop_and_start<W: WindowName, T: Turnstile, R: Wait>(
    shared: &Shared,
    handle: &mut Handle<'_, '_, W, T, R>,
) {
    shared.wait_for(handle.rt(), 1);
    shared.switches.stop(shared.node);
    shared.wait_until(handle.rt(), false);
    let answer = handle.ask_within(TURNS, &shared.late);
    shared.count(matches!(answer, Answer::Acknowledged { .. }));
    shared.switches.start(shared.node);
    shared.wait_until(handle.rt(), true);
}

impl<'s> Client for Guest<'s> {
    fn run<W: WindowName, T: Turnstile, R: Wait>(
        &mut self,
        handle: &mut Handle<'_, '_, W, T, R>,
    ) -> Result<(), Refusal> {
        let shared = self.shared;
        if self.is_host {
            stop_and_start(shared, handle);
            return Ok(());
        }
        self.lives = self.lives.saturating_add(1);
        if self.lives == 1 {
            live_first(shared, handle);
            return Err(Refusal::Down);
        }
        live_again(shared, handle);
        Ok(())
    }
}

/// Of three nodes one is stopped and started again: how many claims and looks were answered as they have to be.
fn right_answers<R: Threads + Wait + Clock + Abort + AllocGlobal + Sync>(
    rt: &R,
) -> Result<u64, Refusal> {
    let nodes = numbered(rt, 3);
    let node = node_of(rt, nodes, 1);
    let shared = Shared {
        switches: Switches::new(rt.alloc(), nodes)?,
        node,
        early: claim(rt, node, 1, b'a'),
        late: claim(rt, node_of(rt, nodes, 0), 2, b'b'),
        early_name: Name::new(b"a")?,
        right: AtomicU64::new(0),
    };
    let clients = vec![in rt.alloc();
        vec![in rt.alloc(); guest_of(&shared, true)]?,
        vec![in rt.alloc(); guest_of(&shared, false)]?,
        Vec::new(rt.alloc()),
    ]?;
    let disks = disks_for(rt, nodes);
    let switches = &shared.switches;
    run_switched(rt, rt.alloc(), nodes, disks, clients, &Open, switches)?;
    Ok(shared.right.load(Ordering::SeqCst))
}

#[test]
fn a_stopped_node_has_what_it_answered_once_it_is_started(rt: HostRuntime) {
    assert!(rt; right_answers(&rt).expect(&rt, "a run") == 3);
}
