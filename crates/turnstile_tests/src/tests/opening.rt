//! Openings that are stopped at a turnstile: at the beginning of a run, and where a node is started again.

use super::asking::{Asker, OPENING_CALLS, TURNS, claim, disks_for, node_of, numbered, rest};
use rr_disk::{AreaFile, FileDisk};
use rr_text::{Answer, ScriptLine};
use rr_threads::{Client, Handle, Switches, run_clients, run_switched};
use rr_turn::{Place, Turnstile};
use rr_types::{NodeId, Refusal};
use rr_window::WindowName;
use std::alloc::Global;
use std::io;
use std::io::ErrorKind;
use std::process::Abort;
use std::sync::Wait;
use std::sync::atomic::{AtomicBool, AtomicU64, Ordering};
use std::thread::Threads;
use std::time::Clock;

/// Files that may be cut off, and how many writes were made in them before.
#[derive(Drop)]
struct Cut {
    is_cut: AtomicBool,
    writes: AtomicU64,
}

impl Cut {
    fn new() -> Cut {
        Cut {
            is_cut: AtomicBool::new(false),
            writes: AtomicU64::new(0),
        }
    }
}

/// A file in memory that fails once it is cut off.
#[derive(Drop)]
struct CutFile<'s> {
    bytes: Vec<u8>,
    cut: &'s Cut,
}

impl<'s> CutFile<'s> {
    fn check(&self) -> io::Result<()> {
        if self.cut.is_cut.load(Ordering::SeqCst) {
            return Err(io::Error::from(ErrorKind::Unsupported));
        }
        Ok(())
    }
}

impl<'s> AreaFile for CutFile<'s> {
    ghost gives = { λ _ _ _. Unit {0} };

    fn read_at(&mut self, at: u64, bytes: &mut [u8]) -> io::Result<()> {
        self.check()?;
        let mut place = at as usize;
        for byte in bytes {
            *byte = match self.bytes.get(place) {
                Some(held) => *held,
                None => return Err(io::Error::from(ErrorKind::Unsupported)),
            };
            place = place.saturating_add(1);
        }
        Ok(())
    }

    fn write_at(&mut self, at: u64, bytes: &[u8]) -> io::Result<()> {
        self.check()?;
        self.cut.writes.fetch_add(1, Ordering::SeqCst);
        let mut place = at as usize;
        for byte in bytes {
            match self.bytes.get_mut(place) {
                Some(held) => *held = *byte,
                None => {
                    if self.bytes.push(*byte).is_err() {
                        return Err(io::Error::from(ErrorKind::Unsupported));
                    }
                }
            }
            place = place.saturating_add(1);
        }
        Ok(())
    }

    fn sync(&mut self) -> io::Result<()> {
        self.check()
    }

    fn length(&self) -> io::Result<u64> {
        Ok(self.bytes.len() as u64)
    }
}

/// Cuts the files of the middle one of three nodes off before one of its device calls.
#[derive(Drop)]
struct CutsBefore<'s> {
    cut: &'s Cut,
    call: u64,
    calls: AtomicU64,
}

impl<'s> Turnstile for CutsBefore<'s> {
    fn pass(&self, node: NodeId, place: Place) {
        if place == Place::BeforeDevice && node.index() == 1 {
            if self.calls.fetch_add(1, Ordering::SeqCst) == self.call {
                self.cut.is_cut.store(true, Ordering::SeqCst);
            }
        }
    }
}

fn cut_disk<'s>(rt: &impl Abort, alloc: Global, cut: &'s Cut) -> FileDisk<CutFile<'s>> {
    let first = CutFile {
        bytes: Vec::new(alloc),
        cut,
    };
    let second = CutFile {
        bytes: Vec::new(alloc),
        cut,
    };
    FileDisk::over(first, second).expect(rt, "a disk")
}

/// Runs three nodes without clients, of which the middle one's files are cut off before its device call of this number: whether the
/// run ended well, how many device calls the node came to, and how many writes it made.
fn cut_before<R: Threads + Wait + Clock + Abort + AllocGlobal + Sync>(
    rt: &R,
    call: u64,
) -> (Result<(), Refusal>, u64, u64) {
    let (first, second, third) = (Cut::new(), Cut::new(), Cut::new());
    let mut disks = Vec::new(rt.alloc());
    for cut in [&first, &second, &third] {
        disks
            .push(cut_disk(rt, rt.alloc(), cut))
            .expect(rt, "memory");
    }
    let mut clients: Vec<Vec<Asker<'_>>> = Vec::new(rt.alloc());
    for _ in 0..3 {
        clients.push(Vec::new(rt.alloc())).expect(rt, "memory");
    }
    let turnstile = CutsBefore {
        cut: &second,
        call,
        calls: AtomicU64::new(0),
    };
    let nodes = numbered(rt, 3);
    let ran = run_clients(rt, rt.alloc(), nodes, disks, clients, &turnstile, None);
    let calls = turnstile.calls.load(Ordering::SeqCst);
    (ran, calls, second.writes.load(Ordering::SeqCst))
}

/// The turnstile is passed before each of the nine device calls of an opening that formats a disk, of which the fourth, the sixth and
/// the eighth write.
#[test]
fn an_opening_is_stopped_before_each_of_its_calls(rt: HostRuntime) {
    for call in 0..OPENING_CALLS {
        let (ran, calls, writes) = cut_before(&rt, call);
        assert!(rt; matches!(ran, Err(Refusal::Device)));
        assert!(rt; writes == call.saturating_sub(2) / 2);
        assert!(rt; calls > call && calls <= OPENING_CALLS);
    }
    let (ran, calls, writes) = cut_before(&rt, OPENING_CALLS);
    assert!(rt; ran.is_ok());
    assert!(rt; (calls, writes) == (OPENING_CALLS, 3));
}

/// What the client of node 0 and the turnstile share: the switches, the node that is stopped and started again, before which device
/// call of that it is held up, and how far that has come.
#[derive(Drop)]
struct Shared {
    switches: Switches,
    node: NodeId,
    call: u64,
    line: ScriptLine,
    is_down: AtomicBool,
    calls: AtomicU64,
    is_held: AtomicBool,
    may_go_on: AtomicBool,
    is_right: AtomicBool,
}

/// Holds up the node, which was down, before a device call of its opening until another node has answered.
#[derive(Drop)]
struct UntilTheOthersAnswer<'s, R> {
    rt: &'s R,
    shared: &'s Shared,
}

impl<'s, R: Wait> Turnstile for UntilTheOthersAnswer<'s, R> {
    fn pass(&self, node: NodeId, place: Place) {
        let shared = self.shared;
        let is_its = place == Place::BeforeDevice && node.index() == shared.node.index();
        if !is_its || !shared.is_down.load(Ordering::SeqCst) {
            return;
        }
        if shared.calls.fetch_add(1, Ordering::SeqCst) == shared.call {
            shared.is_held.store(true, Ordering::SeqCst);
            wait_for(self.rt, &shared.may_go_on);
        }
    }
}

/// Waits until this is so. Answers whether it came to be.
fn wait_for<R: Wait>(rt: &R, is_so: &AtomicBool) -> bool {
    for _ in 0..TURNS {
        if is_so.load(Ordering::SeqCst) {
            return true;
        }
        rest(rt);
    }
    false
}

/// Waits until the node is up, or down. Answers whether it came to be.
fn wait_until<R: Wait>(rt: &R, shared: &Shared, is_up: bool) -> bool {
    for _ in 0..TURNS {
        if shared.switches.is_up(shared.node) == is_up {
            return true;
        }
        shared.switches.wait(rt);
    }
    false
}

/// A client of node 0.
#[derive(Drop)]
struct Host<'s> {
    shared: &'s Shared,
}

impl<'s> Client for Host<'s> {
    fn run<W: WindowName, T: Turnstile, R: Wait>(
        &mut self,
        handle: &mut Handle<'_, '_, W, T, R>,
    ) -> Result<(), Refusal> {
        let shared = self.shared;
        shared.switches.stop(shared.node);
        let is_down = wait_until(handle.rt(), shared, false);
        shared.is_down.store(true, Ordering::SeqCst);
        shared.switches.start(shared.node);
        let is_held = wait_for(handle.rt(), &shared.is_held);
        let answer = handle.ask_within(TURNS, &shared.line);
        let is_acknowledged = matches!(answer, Answer::Acknowledged { .. });
        let is_still_down = !shared.switches.is_up(shared.node);
        shared.may_go_on.store(true, Ordering::SeqCst);
        let is_up = wait_until(handle.rt(), shared, true);
        let is_right = is_down && is_held && is_acknowledged && is_still_down && is_up;
        shared.is_right.store(is_right, Ordering::SeqCst);
        Ok(())
    }
}

/// Of three nodes the last is stopped and started again, and held up before a device call of its opening: whether meanwhile the
/// others acknowledged a claim, and the node came up only behind that.
fn held_before<R: Threads + Wait + Clock + Abort + AllocGlobal + Sync>(
    rt: &R,
    call: u64,
) -> Result<bool, Refusal> {
    let nodes = numbered(rt, 3);
    let shared = Shared {
        switches: Switches::new(rt.alloc(), nodes)?,
        node: node_of(rt, nodes, 2),
        call,
        line: claim(rt, node_of(rt, nodes, 0), 1, b'a'),
        is_down: AtomicBool::new(false),
        calls: AtomicU64::new(0),
        is_held: AtomicBool::new(false),
        may_go_on: AtomicBool::new(false),
        is_right: AtomicBool::new(false),
    };
    let clients = vec![in rt.alloc();
        vec![in rt.alloc(); Host { shared: &shared }]?,
        Vec::new(rt.alloc()),
        Vec::new(rt.alloc()),
    ]?;
    let disks = disks_for(rt, nodes);
    let turnstile = UntilTheOthersAnswer {
        rt,
        shared: &shared,
    };
    let switches = &shared.switches;
    run_switched(rt, rt.alloc(), nodes, disks, clients, &turnstile, switches)?;
    Ok(shared.is_right.load(Ordering::SeqCst))
}

/// An opening of a disk that is formatted makes three device calls.
#[test]
fn a_started_node_is_held_up_before_each_call_of_its_opening(rt: HostRuntime) {
    for call in 0..3u64 {
        assert!(rt; held_before(&rt, call).expect(&rt, "a run"));
    }
}
