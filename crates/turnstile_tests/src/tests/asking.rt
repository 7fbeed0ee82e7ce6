//! Clients that ask one thing, and runs of them over empty disks.

use rr_disk::MemDisk;
use rr_text::{Answer, ScriptLine};
use rr_threads::{Client, Handle, run_clients};
use rr_turn::Turnstile;
use rr_types::{Command, Name, NodeId, Nodes, Op, Refusal, Reply, RequestNo, Value};
use rr_window::WindowName;
use std::alloc::Global;
use std::process::Abort;
use std::sync::Wait;
use std::sync::atomic::{AtomicBool, AtomicU64, Ordering};
use std::thread::{Parker, Threads};
use std::time::{Clock, Duration};

/// How many turns, at most, a thread of a test waits for something. In a turn it looks once, and rests if that is vain.
pub const TURNS: u32 = 10_000;

/// How long a thread rests in a turn, in milliseconds: so it waits for twenty seconds, and a test may take sixty.
const REST: u64 = 2;

/// How many device calls an opening makes that formats a disk.
pub const OPENING_CALLS: u64 = 9;

/// The rest in a turn of a thread that waits.
pub fn rest<R: Wait>(rt: &R) {
    Parker::new().park_timeout(rt, Duration::from_millis(REST));
}

/// What the threads of a test share: the lines that are asked, and what is counted.
#[derive(Drop)]
pub struct Shared {
    pub lines: Vec<ScriptLine>,
    /// The device calls: of the node that the test is about, and of the other nodes.
    pub first_calls: AtomicU64,
    pub other_calls: AtomicU64,
    /// The submits that were answered.
    pub submitted: AtomicU64,
    /// The clients that were answered that a name is their own.
    pub right: AtomicU64,
    /// A thread has waited in vain for a number to be reached.
    pub gave_up: AtomicBool,
}

impl Shared {
    pub fn new(lines: Vec<ScriptLine>) -> Shared {
        Shared {
            lines,
            first_calls: AtomicU64::new(0),
            other_calls: AtomicU64::new(0),
            submitted: AtomicU64::new(0),
            right: AtomicU64::new(0),
            gave_up: AtomicBool::new(false),
        }
    }

    /// Waits until a number is at least `least`, or gives up.
    pub fn wait_for<R: Wait>(&self, rt: &R, number: &AtomicU64, least: u64) {
        for _ in 0..TURNS {
            if number.load(Ordering::SeqCst) >= least {
                return;
            }
            rest(rt);
        }
        self.gave_up.store(true, Ordering::SeqCst);
    }

    /// Whether nobody gave up, and `right` clients were answered that a name is their own.
    pub fn came_to(&self, right: u64) -> bool {
        !self.gave_up.load(Ordering::SeqCst) && self.right.load(Ordering::SeqCst) == right
    }
}

/// A client that asks the line at `place`, at most `times` times, until the answer says that the name is its own.
#[derive(Drop)]
pub struct Asker<'s> {
    pub shared: &'s Shared,
    pub place: usize,
    pub times: u32,
    /// Whether it asks only once the node flushes.
    pub waits: bool,
}

/// Whether an answer says that client 7 has the name, or that the node has claimed it.
fn is_right(answer: &Answer) -> bool {
    match answer {
        Answer::Acknowledged { reply, .. } => matches!(reply, Reply::Claimed),
        Answer::Bound { owner, .. } => *owner == 7,
        _ => false,
    }
}

impl<'s> Client for Asker<'s> {
    fn run<W: WindowName, T: Turnstile, R: Wait>(
        &mut self,
        handle: &mut Handle<'_, '_, W, T, R>,
    ) -> Result<(), Refusal> {
        let shared = self.shared;
        let Some(line) = shared.lines.get(self.place) else {
            return Ok(());
        };
        if self.waits {
            shared.wait_for(handle.rt(), &shared.first_calls, OPENING_CALLS + 1);
        }
        for _ in 0..self.times {
            if is_right(&handle.ask_within(TURNS, line)) {
                shared.right.fetch_add(1, Ordering::SeqCst);
                break;
            }
            if handle.is_over() {
                break;
            }
            rest(handle.rt());
        }
        Ok(())
    }
}

/// A claim of a name by client 7, as request SEQ.
pub fn claim(rt: &impl Abort, node: NodeId, seq: u64, letter: u8) -> ScriptLine {
    let name = Name::new(&[letter]).expect(rt, "a name");
    let value = Value::new(b"x").expect(rt, "a value");
    let command = Command {
        request: RequestNo { client: 7, seq },
        op: Op::Claim(name, value),
    };
    ScriptLine::Submit { node, command }
}

pub fn numbered(rt: &impl Abort, count: u8) -> Nodes {
    Nodes::new(count).expect(rt, "so many nodes")
}

pub fn node_of(rt: &impl Abort, nodes: Nodes, index: u8) -> NodeId {
    NodeId::new(nodes, index).expect(rt, "a node")
}

/// For each node the claim of a name of its own.
pub fn claims(rt: &impl Abort, alloc: Global, nodes: Nodes) -> Result<Vec<ScriptLine>, Refusal> {
    let mut lines = Vec::new(alloc);
    for index in 0..nodes.count() {
        let letter = *b"abcdefg".get(usize::from(index)).expect(rt, "a letter");
        let node = node_of(rt, nodes, index);
        lines.push(claim(rt, node, u64::from(index), letter))?;
    }
    Ok(lines)
}

/// A client of each node, which asks the line at its place once.
pub fn askers<'s>(
    alloc: Global,
    nodes: Nodes,
    shared: &'s Shared,
) -> Result<Vec<Vec<Asker<'s>>>, Refusal> {
    let mut clients = Vec::new(alloc);
    for index in 0..nodes.count() {
        let asker = Asker {
            shared,
            place: usize::from(index),
            times: 1,
            waits: false,
        };
        clients.push(vec![in alloc; asker]?)?;
    }
    Ok(clients)
}

/// Empty disks in memory.
pub fn disks_for<R: Abort + AllocGlobal>(rt: &R, nodes: Nodes) -> Vec<MemDisk> {
    let mut disks = Vec::new(rt.alloc());
    for _ in 0..nodes.count() {
        disks.push(MemDisk::new(rt.alloc())).expect(rt, "memory");
    }
    disks
}

/// Runs these clients over empty disks, and says whether the run ended well.
pub fn runs<
    T: Turnstile + Sync,
    C: Client + Drop + Send,
    R: Threads + Wait + Clock + Abort + AllocGlobal + Sync,
>(rt: &R, nodes: Nodes, clients: Vec<Vec<C>>, turnstile: &T) -> bool {
    let disks = disks_for(rt, nodes);
    run_clients(rt, rt.alloc(), nodes, disks, clients, turnstile, None).is_ok()
}
