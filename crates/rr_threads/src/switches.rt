//! Switches by which the nodes of a run are stopped and started again.
//!
//! No contract knows what an atomic or a lock holds. What a count of moves means has its clauses (`is_even`, `if_on`, `failure_at`,
//! `dispute_at`, `is_life_up`). That a switch is moved, noted and looked at is read: a line or two each.

ghost use Rattle.std.specs.Prelude.{◌≡◌, ◌%◌, ◌==◌, ◌&&◌, ◌||◌, not, if◌then◌else◌, None, Some, slice_get, vec_len, IfOk};
ghost use Rattle.std.specs.Option.{option_copied};
ghost use Rattle.rr_threads.specs.Trips.{failure_at, dispute_at, is_life_up};

use crate::disputing::Dispute;
use crate::rest::LONG;
use crate::run::usual_tick;
use rr_types::{Command, Name, NodeId, NodeSet, Nodes, Op, Refusal, Value, made_of};
use std::alloc::Global;
use std::sync::atomic::{AtomicBool, AtomicU64, Ordering};
use std::sync::{Mutex, Wait};
use std::thread::Parker;
use std::time::Duration;

/// How long the thread of a node that is down rests, in milliseconds, where no message rings it. Then it empties the node's inbox,
/// and looks at its switch.
pub const DOWN: u64 = 5;

/// A failure that moved the switch of a node, and how often it was moved by then.
#[derive(Clone, Copy, Debug)]
struct Trip {
    moves: u64,
    refusal: Refusal,
}

/// A dispute by which a node goes down, and how often its switch is moved then.
#[derive(Clone, Copy, Debug)]
struct Noted {
    moves: u64,
    dispute: Dispute,
}

/// How often the switch of a node was moved, whether the node is up, at which move the life began that came up last, the last failure
/// that moved the switch, and the last dispute. The switch is on where that number is even.
#[derive(Drop)]
struct Switch {
    moves: AtomicU64,
    is_up: AtomicBool,
    life: AtomicU64,
    trip: Mutex<Option<Trip>>,
    noted: Mutex<Option<Noted>>,
}

/// That a node's switch was turned off as the node failed. Only `Switches::fail` gives this.
#[derive(Debug, Drop)]
pub struct Tripped {
    node: NodeId,
}

impl Tripped {
    /// Which node failed.
    pub fn node(&self) -> NodeId
        ensures { result ≡ self.now.node }
    {
        self.node
    }
}

impl Switch {
    /// A switch that is on.
    fn new() -> Switch {
        made_of!(Command, Dispute, Name, Noted, Op, Value);
        Switch {
            moves: AtomicU64::new(0),
            is_up: AtomicBool::new(false),
            life: AtomicU64::new(0),
            trip: Mutex::new(None),
            noted: Mutex::new(None),
        }
    }

    /// Notes a dispute by which the node goes down, unless it does so already.
    fn note_dispute<R: Wait>(&self, rt: &R, dispute: &Dispute) {
        made_of!(Command, Name, Op, Value);
        let next = self.moves.load(Ordering::SeqCst).saturating_add(1);
        if !is_even(next) {
            *self.noted.lock(rt) = Some(Noted {
                moves: next,
                dispute: *dispute,
            });
        }
    }

    /// Whether the node is up, and by the start at which the switch stands, if it is on.
    fn is_up(&self) -> bool {
        let is_up = self.is_up.load(Ordering::SeqCst);
        let life = self.life.load(Ordering::SeqCst);
        is_life_up(is_up, life, self.moves.load(Ordering::SeqCst))
    }

    /// Turns it off by a failure, which is noted first, so that whoever sees the switch off sees why.
    fn trip<R: Wait>(&self, rt: &R, refusal: Refusal) {
        let next = self.moves.load(Ordering::SeqCst).saturating_add(1);
        if !is_even(next) {
            *self.trip.lock(rt) = Some(Trip {
                moves: next,
                refusal,
            });
        }
        self.turn(false);
    }

    /// Moves it, unless it stands so. Of two that move it at once one does.
    fn turn(&self, is_on: bool) {
        let moves = self.moves.load(Ordering::SeqCst);
        if is_even(moves) != is_on {
            let next = moves.saturating_add(1);
            let _moved = self
                .moves
                .compare_exchange(moves, next, Ordering::SeqCst, Ordering::SeqCst);
        }
    }
}

// Whether a switch is on that was moved so often.
fn is_even(moves: u64) -> bool
    ensures { result ≡ (moves % 2 == 0) }
{
    moves % 2 == 0
}

// The failure by which a switch stands where it does, which was moved so often.
fn failure_at(trip: &Option<Trip>, moves: u64) -> Option<Refusal>
    ensures { result ≡ failure_at trip.now moves }
{
    match trip {
        Some(trip) if trip.moves == moves => Some(trip.refusal),
        _ => None,
    }
}

// The dispute by which a node went down whose switch was moved so often.
fn dispute_at(noted: &Option<Noted>, moves: u64) -> Option<Dispute>
    ensures { result ≡ dispute_at noted.now moves }
{
    made_of!(Command, Name, Op, Value);
    match noted {
        Some(noted) if noted.moves == moves => Some(noted.dispute),
        _ => None,
    }
}

// Whether a node is up whose last life came up by the start at this move. Where its switch is on, it is to be the start at which that
// stands: a life that is about to end is no start's behind it.
fn is_life_up(is_up: bool, life: u64, moves: u64) -> bool
    ensures { result ≡ is_life_up is_up life moves }
{
    is_up && (life == moves || !is_even(moves))
}

// How often a switch was moved, where it is on.
fn if_on(moves: u64) -> Option<u64>
    ensures { result ≡ (if moves % 2 == 0 then Some moves else None) }
{
    if is_even(moves) { Some(moves) } else { None }
}

/// Switches by which a host stops nodes of a run and starts them again, while the others go on. They are on at first. A node that is
/// stopped before the run begins is left out of its begin.
///
/// A stopped node goes down as by a crash of its threads: of what it knew there is left what its disk has. It
/// recovers from that disk when it is started. A node that fails goes down in the same way, alone, and why is told by `failure`, and by
/// `dispute` where it has heard a decision against its own.
#[derive(Drop)]
pub struct Switches {
    switches: Vec<Switch>,
    is_closed: AtomicBool,
    host: Parker,
    tick: Duration,
}

impl Switches {
    /// Switches for these nodes.
    ///
    /// # Errors
    /// `OutOfMemory`.
    pub fn new(alloc: Global, nodes: Nodes) -> Result<Switches, Refusal>
        ensures { IfOk result (λ made. vec_len made.switches ≡ nodes) }
    {
        let mut switches = Vec::new(alloc);
        for made in 0..nodes.count() {
            switches.push(Switch::new())?;
        }
        Ok(Switches {
            switches,
            is_closed: AtomicBool::new(false),
            host: Parker::new(),
            tick: usual_tick(),
        })
    }

    /// The same switches of nodes that tick so often: the next tick of a node is due so long after one. It is 50 milliseconds else.
    pub fn with_tick(self, tick: Duration) -> Switches
        ensures { result.tick ≡ tick }
    {
        Switches { tick, ..self }
    }

    /// How long after a tick of a node the next is due.
    pub(crate) fn tick(&self) -> Duration
        ensures { result ≡ self.now.tick }
    {
        self.tick
    }

    // A node's switch, if the run has the node.
    fn switch(&self, node: NodeId) -> Option<&Switch>
        ensures { option_copied result ≡ slice_get self.now.switches.items node }
    {
        self.switches.get(usize::from(node.index()))
    }

    /// The node is to go down. It has, once it isn't up.
    pub fn stop(&self, node: NodeId) {
        if let Some(switch) = self.switch(node) {
            switch.turn(false);
        }
    }

    /// The node is to come up. It has, once it is up.
    pub fn start(&self, node: NodeId) {
        if let Some(switch) = self.switch(node) {
            switch.turn(true);
        }
    }

    /// Whether the node is up or to come up: it hasn't been stopped since it was last started.
    pub fn is_on(&self, node: NodeId) -> bool {
        self.moves_if_on(node).is_some()
    }

    /// The refusal by which the node went down, if it went down by one and hasn't been started since.
    pub fn failure<R: Wait>(&self, rt: &R, node: NodeId) -> Option<Refusal> {
        let switch = self.switch(node)?;
        let trip = *switch.trip.lock(rt);
        failure_at(&trip, switch.moves.load(Ordering::SeqCst))
    }

    /// The decisions over which the node went down, if it went down since another node's differed from its own, and hasn't been started
    /// since. Its failure is then `Damaged { area: 0, offset: 0 }`, unless another came first.
    pub fn dispute<R: Wait>(&self, rt: &R, node: NodeId) -> Option<Dispute> {
        made_of!(Command, Name, Op, Value);
        let switch = self.switch(node)?;
        let noted = *switch.noted.lock(rt);
        dispute_at(&noted, switch.moves.load(Ordering::SeqCst))
    }

    /// Whether the node is up: what its disk had is published, and its threads haven't ended. A node that was started counts as up only
    /// once it is by that start.
    pub fn is_up(&self, node: NodeId) -> bool {
        match self.switch(node) {
            Some(switch) => switch.is_up(),
            None => false,
        }
    }

    /// Whether all nodes have begun: each is up, or has gone down again, or was left out.
    pub fn have_all_begun(&self) -> bool {
        for switch in &self.switches {
            if !switch.is_up() && is_even(switch.moves.load(Ordering::SeqCst)) {
                return false;
            }
        }
        true
    }

    /// The host waits until a node has come up or gone down, or a while.
    pub fn wait<R: Wait>(&self, rt: &R) {
        self.host.park_timeout(rt, Duration::from_micros(LONG));
    }

    /// No node is started any more. The clients of those that are down are done. Who waits goes on.
    pub fn close(&self) {
        self.is_closed.store(true, Ordering::SeqCst);
        self.host.unpark();
    }

    /// The node fails: it goes down as one that is stopped, and why is noted.
    pub(crate) fn fail<R: Wait>(&self, rt: &R, node: NodeId, refusal: Refusal) -> Tripped
        ensures { result.node ≡ node }
    {
        if let Some(switch) = self.switch(node) {
            switch.trip(rt, refusal);
        }
        Tripped { node }
    }

    /// How often the node's switch was moved.
    pub(crate) fn moves(&self, node: NodeId) -> u64 {
        match self.switch(node) {
            Some(switch) => switch.moves.load(Ordering::SeqCst),
            None => 0,
        }
    }

    /// The node has heard a decision against its own, and is about to fail.
    pub(crate) fn note_dispute<R: Wait>(&self, rt: &R, node: NodeId, dispute: &Dispute) {
        if let Some(switch) = self.switch(node) {
            switch.note_dispute(rt, dispute);
        }
    }

    /// The node has come up, by the start at this move of its switch.
    pub(crate) fn note_up(&self, node: NodeId, life: u64) {
        if let Some(switch) = self.switch(node) {
            switch.life.store(life, Ordering::SeqCst);
            switch.is_up.store(true, Ordering::SeqCst);
        }
        self.host.unpark();
    }

    /// The node has gone down.
    pub(crate) fn note_down(&self, node: NodeId) {
        if let Some(switch) = self.switch(node) {
            switch.is_up.store(false, Ordering::SeqCst);
        }
        self.host.unpark();
    }

    /// Those of these nodes whose switch is off.
    pub(crate) fn those_off(&self, nodes: Nodes) -> NodeSet {
        let mut off = NodeSet::empty();
        for index in 0..nodes.count() {
            if let Some(node) = NodeId::new(nodes, index) {
                if !self.is_on(node) {
                    off = off.with(node);
                }
            }
        }
        off
    }

    /// How often the node's switch was moved, where it is on.
    pub(crate) fn moves_if_on(&self, node: NodeId) -> Option<u64> {
        if_on(self.moves(node))
    }

    /// Whether no node is started any more.
    pub(crate) fn is_closed(&self) -> bool {
        self.is_closed.load(Ordering::SeqCst)
    }
}
