//! A run in which a snapshot of a node is held up before its first device call.

use super::asking::{TURNS, claim, disks_for, node_of, numbered, rest};
use rr_text::{Answer, ScriptLine};
use rr_threads::{Client, Handle, Switches, run_switched};
use rr_turn::{Place, Turnstile};
use rr_types::{Name, NodeId, Refusal};
use rr_window::WindowName;
use std::process::Abort;
use std::sync::Wait;
use std::sync::atomic::{AtomicBool, AtomicU64, Ordering};
use std::thread::Threads;
use std::time::Clock;

/// How many times the node's client looks for the snapshot while it is held up: for about a second.
const LOOKS: u32 = 30;

/// What the clients and the turnstile share: the switches, the node of the snapshot, a claim at that node and one at another, how far
/// the run has come, and how many answers were as they have to be.
#[derive(Drop)]
struct Shared {
    switches: Switches,
    node: NodeId,
    early: ScriptLine,
    late: ScriptLine,
    early_name: Name,
    /// Whether the node's device calls are held up from now on, and whether one is.
    is_armed: AtomicBool,
    is_held: AtomicBool,
    /// Whether the other node has answered meanwhile, and whether the snapshot may go on.
    has_answered: AtomicBool,
    may_go_on: AtomicBool,
    /// Whether the node has written the snapshot.
    is_written: AtomicBool,
    right: AtomicU64,
}

impl Shared {
    /// Waits until this is so.
    fn wait_for<R: Wait>(&self, rt: &R, is_so: &AtomicBool) {
        for _ in 0..TURNS {
            if is_so.load(Ordering::SeqCst) {
                break;
            }
            rest(rt);
        }
    }

    /// Waits until the node is up, or down.
    fn wait_until<R: Wait>(&self, rt: &R, is_up: bool) {
        for _ in 0..TURNS {
            if self.switches.is_up(self.node) == is_up {
                break;
            }
            self.switches.wait(rt);
        }
    }

    fn count(&self, is_right: bool) {
        if is_right {
            self.right.fetch_add(1, Ordering::SeqCst);
        }
    }
}

/// Holds the node up before the first device call that it comes to once it is asked for the snapshot.
#[derive(Drop)]
struct Gate<'s, R> {
    rt: &'s R,
    shared: &'s Shared,
}

impl<'s, R: Wait> Turnstile for Gate<'s, R> {
    fn pass(&self, node: NodeId, place: Place) {
        let shared = self.shared;
        let is_its = place == Place::BeforeDevice && node.index() == shared.node.index();
        if is_its && shared.is_armed.load(Ordering::SeqCst) {
            shared.is_held.store(true, Ordering::SeqCst);
            shared.wait_for(self.rt, &shared.may_go_on);
        }
    }
}

/// The client of another node; or the node's own, and how many lives it has had.
#[derive(Drop)]
struct Guest<'s> {
    shared: &'s Shared,
    is_host: bool,
    lives: u32,
}

fn guest_of<'s>(shared: &'s Shared, is_host: bool) -> Guest<'s> {
    Guest {
        shared,
        is_host,
        lives: 0,
    }
}

/// Claims a name and asks for a snapshot. It isn't told as written while it is held up, and then it is. Waits until the node goes
/// down.
fn live_first<W: WindowName, T: Turnstile, R: Wait>(
    shared: &Shared,
    handle: &mut Handle<'_, '_, W, T, R>,
) {
    let answer = handle.ask_within(TURNS, &shared.early);
    shared.count(matches!(answer, Answer::Acknowledged { .. }));
    shared.is_armed.store(true, Ordering::SeqCst);
    shared.count(handle.snapshot(LOOKS).is_none());
    shared.wait_for(handle.rt(), &shared.has_answered);
    shared.may_go_on.store(true, Ordering::SeqCst);
    shared.count(handle.snapshot(TURNS).is_some());
    shared.is_written.store(true, Ordering::SeqCst);
    for _ in 0..TURNS {
        if handle.is_over() {
            break;
        }
        rest(handle.rt());
    }
}

/// What the first life claimed is there at the first look.
fn live_again<W: WindowName, T: Turnstile, R: Wait>(
    shared: &Shared,
    handle: &mut Handle<'_, '_, W, T, R>,
) {
    let answer = handle.look(&shared.early_name);
    shared.count(matches!(answer, Answer::Bound { .. }));
}

/// Claims a name while the snapshot is held up, and once it is written stops the node and starts it.
fn go_on_beside<W: WindowName, T: Turnstile, R: Wait>(
    shared: &Shared,
    handle: &mut Handle<'_, '_, W, T, R>,
) {
    shared.wait_for(handle.rt(), &shared.is_held);
    let answer = handle.ask_within(TURNS, &shared.late);
    let is_held = shared.is_held.load(Ordering::SeqCst) && !shared.may_go_on.load(Ordering::SeqCst);
    shared.count(is_held && matches!(answer, Answer::Acknowledged { .. }));
    shared.has_answered.store(true, Ordering::SeqCst);
    shared.wait_for(handle.rt(), &shared.is_written);
    shared.switches.stop(shared.node);
    shared.wait_until(handle.rt(), false);
    shared.switches.start(shared.node);
    shared.wait_until(handle.rt(), true);
}

impl<'s> Client for Guest<'s> {
    fn run<W: WindowName, T: Turnstile, R: Wait>(
        &mut self,
        handle: &mut Handle<'_, '_, W, T, R>,
    ) -> Result<(), Refusal> {
        let shared = self.shared;
        if self.is_host {
            go_on_beside(shared, handle);
            return Ok(());
        }
        self.lives = self.lives.saturating_add(1);
        if self.lives == 1 {
            live_first(shared, handle);
            return Err(Refusal::Down);
        }
        live_again(shared, handle);
        Ok(())
    }
}

/// Of three nodes one is held up before the first device call of a snapshot: how many answers were as they have to be.
fn right_answers<R: Threads + Wait + Clock + Abort + AllocGlobal + Sync>(
    rt: &R,
) -> Result<u64, Refusal> {
    let nodes = numbered(rt, 3);
    let node = node_of(rt, nodes, 1);
    let shared = Shared {
        switches: Switches::new(rt.alloc(), nodes)?,
        node,
        early: claim(rt, node, 1, b'a'),
        late: claim(rt, node_of(rt, nodes, 0), 2, b'b'),
        early_name: Name::new(b"a")?,
        is_armed: AtomicBool::new(false),
        is_held: AtomicBool::new(false),
        has_answered: AtomicBool::new(false),
        may_go_on: AtomicBool::new(false),
        is_written: AtomicBool::new(false),
        right: AtomicU64::new(0),
    };
    let clients = vec![in rt.alloc();
        vec![in rt.alloc(); guest_of(&shared, true)]?,
        vec![in rt.alloc(); guest_of(&shared, false)]?,
        Vec::new(rt.alloc()),
    ]?;
    let disks = disks_for(rt, nodes);
    let gate = Gate {
        rt,
        shared: &shared,
    };
    let switches = &shared.switches;
    run_switched(rt, rt.alloc(), nodes, disks, clients, &gate, switches)?;
    Ok(shared.right.load(Ordering::SeqCst))
}

/// The snapshot isn't told before its calls are made. Meanwhile another node acknowledges a claim, and what the node itself has
/// acknowledged is there once it is started again.
#[test]
fn a_snapshot_is_told_only_behind_its_calls(rt: HostRuntime) {
    assert!(rt; right_answers(&rt).expect(&rt, "a run") == 5);
}
